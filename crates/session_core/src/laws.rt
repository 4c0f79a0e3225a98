//! Laws of the machine.
ghost use Rattle.session_core.specs.Run.{TakingAsks, AnswersAreLast};
ghost use Rattle.session_core.specs.Run.{PlayIsRun, RunGoesOn, RunIsSame};
ghost use Rattle.session_core.specs.Fitting.{AnswersFit};
ghost use Rattle.session_core.specs.Serial.{CommittedIsSerial, RunIsSerial};
ghost use Rattle.session_core.specs.Streams.{FrontIsStreamed, RunIsStreamed, RunIsToldAtIdle};

use store_machine::{conflict_laws, news_laws, state_laws};
use tx_stage::look_laws;

/// Each call that an event makes is one that a session may make at any history, never the one that enters it; and no request is left once
/// its answer was given.
pub fn steps()
    ensures asks { TakingAsks }
    ensures answers { AnswersAreLast }
{}

/// A run depends on its history only up to its places; what one thread plays, while others add entries between the session's events, is the
/// run over the history that it leaves; and a run continues, over a longer history and with more places, by one event at a time.
pub fn runs()
    ensures same { RunIsSame }
    ensures play { PlayIsRun }
    ensures next { RunGoesOn }
{}

/// The store's own answer to a session's call has what the session needs for what it kept: the dataspaces that it listed, or a verdict on
/// each key that was granted and on no other, or that the journal is full. An event without a call leaves what was kept.
pub fn answer_fits()
    ensures { AnswersFit }
{}

/// Committed transactions are serial. If a transaction's commit succeeds after the entries below a place, its requests were answered as
/// this session alone answers them from its start on, with every look made at that one place, whatever others did in between; except for a
/// transaction in which a key was refused because there were too many. This holds from any state in which a transaction has just begun, and
/// in each run of a session whose places never fall, split at any event.
pub fn serial()
    ensures law { CommittedIsSerial }
    ensures run { RunIsSerial }
{
    state_laws();
    conflict_laws();
    look_laws();
}

/// A subscription is sent a segment of the one history: the channel's points from its start on as they were when the store accepted it, and
/// then each later change up to the session's cursor, clipped to its start and kind, whatever others did in between. It is stopped once,
/// with its cause and at what was sent up to then, and nothing of it follows its stop. If an event uses up the session's message ids, what
/// was sent to its last part is a prefix of that; the same holds for each front of what is sent, if the messages are cut off after any
/// number of them; if a poll asks nothing, the cursor is the front that it reported.
pub fn run_streams()
    ensures streams { RunIsStreamed }
    ensures idle { RunIsToldAtIdle }
    ensures fronts { FrontIsStreamed }
{
    news_laws();
}
