//! One frame on its session and the store.
ghost use Rattle.std.specs.Prelude.{◌≡◌, ◌++◌, ◌∷◌, [], IfOk, IfSome, OnOk, List, ℕ, length};
ghost use Rattle.std.specs.Int.{w32, to_be_bytes, cast_unsigned};
ghost use Rattle.store_machine.specs.Answers.{answered, added};
ghost use Rattle.store_machine.specs.Legal.{MayAsk, own};
ghost use Rattle.store_machine.specs.declared.journal.Entry.{Entry};
ghost use Rattle.session_core.specs.Run.{takes, drained, moment_of, Asks};
ghost use Rattle.session_core.specs.Session.{end_of};
ghost use Rattle.tool_forms.specs.Turns.{event_of, turn, effect_after, effect_open, effect_new, effect_at, place_in, messages, end_frame, answering, ending_bytes, session_end_bytes};
ghost use Rattle.tool_forms.specs.Plays.{Meets};
ghost use Rattle.tool_forms.specs.Sound.{FitsOpen, FitsTag};

use crate::tag::{Ending, OpenSession, TagState};
use etp_capture::{Frame, kinds};
use etp_values::{Blob, Boxed, Copied, NoMemory};
use server_config::Config;
use session_core::{End, Session};
use std::alloc::Global;
use store_machine::{Answer, Reply, Store, StoreCall, number_laws};

/// A frame by the state of its tag, which a new tag does not have.
pub(crate) fn play_at(
    alloc: Global,
    config: &Config,
    store: &mut Store,
    state: Option<TagState>,
    frame: &Frame,
    answers: &mut Vec<Frame>,
) -> Result<TagState, NoMemory>
    requires same { store.old.config ≡ config.now }
    requires fresh { own (length store.old.journal) store.old.journal ≡ [] }
    requires tag { FitsTag store.old.journal state }
    ensures config { store.new.config ≡ store.old.config }
    ensures effect { IfOk result (λ new. Meets (effect_at config.now store.old.journal frame.now state) new store.new.journal answers.old.items answers.new.items) }
{
    match state {
        None => enter(alloc, config, store, frame, answers),
        Some(TagState::Open(open_session)) => play_open(alloc, store, open_session, frame, answers),
        Some(TagState::Ended) => Ok(TagState::Ended),
    }
}

/// The first frame of a tag: its session enters, if the journal has room for it.
fn enter(
    alloc: Global,
    config: &Config,
    store: &mut Store,
    frame: &Frame,
    answers: &mut Vec<Frame>,
) -> Result<TagState, NoMemory>
    requires same { store.old.config ≡ config.now }
    requires fresh { own (length store.old.journal) store.old.journal ≡ [] }
    ensures config { store.new.config ≡ store.old.config }
    ensures effect { IfOk result (λ state. Meets (effect_new config.now store.old.journal frame.now) state store.new.journal answers.old.items answers.new.items) }
{
    let answer = ask(alloc, store, 0, 0, frame.moment, StoreCall::Enter)?;
    let Some(number) = place_in(answer.reply) else {
        push_end(alloc, answers, frame, Ending::JournalFull)?;
        return Ok(TagState::Ended);
    };
    let session_config = config.copy(alloc)?;
    let session = Session::new(alloc, session_config, number, 1)?;
    let open_session = Boxed::new(
        alloc,
        OpenSession {
            number,
            entries: 1,
            session,
        },
    )?;
    play_open(alloc, store, open_session, frame, answers)
}

/// The place at which the store let a session in.
fn place_in(reply: Reply) -> Option<u64>
    ensures { result ≡ place_in reply }
{
    match reply {
        Reply::Entered(number) => Some(number),
        _ => None,
    }
}

/// A frame of an open session, which is not moved.
fn play_open(
    alloc: Global,
    store: &mut Store,
    open_session: Boxed<OpenSession>,
    frame: &Frame,
    answers: &mut Vec<Frame>,
) -> Result<TagState, NoMemory>
    requires { FitsOpen store.old.journal open_session }
    ensures config { store.new.config ≡ store.old.config }
    ensures effect { IfOk result (λ state. Meets (effect_open store.old.config store.old.journal open_session frame.now) state store.new.journal answers.old.items answers.new.items) }
{
    if frame.kind == kinds::END {
        push_end(alloc, answers, frame, Ending::PeerEnd)?;
        return Ok(TagState::Ended);
    }
    let mut open_session = open_session;
    make_turn(alloc, store, open_session.get_mut(), frame)?;
    play_after(alloc, open_session, frame, answers)
}

/// What a session sends after a turn, and its end if it has ended.
fn play_after(
    alloc: Global,
    open_session: Boxed<OpenSession>,
    frame: &Frame,
    answers: &mut Vec<Frame>,
) -> Result<TagState, NoMemory>
    ensures { IfOk result (λ state. (j : List Entry) (marks : List ℕ) → Meets (effect_after frame.now (record { journal = j; session = open_session; marks = marks }) (end_of open_session.session.phase)) state j answers.old.items answers.new.items) }
{
    let mut open_session = open_session;
    match send_rest(alloc, open_session.get_mut(), frame, answers)? {
        None => Ok(TagState::Open(open_session)),
        Some(end) => {
            push_end(alloc, answers, frame, Ending::Session(end))?;
            Ok(TagState::Ended)
        }
    }
}

/// The messages that a session sends after a turn, and why it has ended, if it has.
fn send_rest(
    alloc: Global,
    open_session: &mut OpenSession,
    frame: &Frame,
    answers: &mut Vec<Frame>,
) -> Result<Option<End>, NoMemory>
    ensures answers { OnOk result (answers.new.items ≡ answers.old.items ++ messages frame.now open_session.old.session.out) }
    ensures state { OnOk result (open_session.new ≡ record open_session.old { session = drained open_session.old.session }) }
    ensures end { IfOk result (λ e. e ≡ end_of open_session.old.session.phase) }
{
    send_all(alloc, &mut open_session.session, frame, answers)?;
    Ok(open_session.session.ended())
}

/// A frame's event: the session takes it, and the store answers its call.
fn make_turn(
    alloc: Global,
    store: &mut Store,
    open_session: &mut OpenSession,
    frame: &Frame,
) -> Result<(), NoMemory>
    requires { FitsOpen store.old.journal open_session.old }
    ensures config { store.new.config ≡ store.old.config }
    ensures journal { OnOk result (store.new.journal ≡ (turn store.old.config store.old.journal open_session.old frame.now).journal) }
    ensures session { OnOk result (open_session.new ≡ (turn store.old.config store.old.journal open_session.old frame.now).session) }
{
    // For the proof only: whoever is next may make each of its calls.
    number_laws();
    let before = store.entries();
    let Some(call) = take_event(alloc, &mut open_session.session, frame, before)? else {
        return Ok(());
    };
    let answer = ask(
        alloc,
        store,
        open_session.number,
        open_session.entries,
        moment_of(frame),
        call,
    )?;
    open_session.entries += store.entries() - before;
    open_session.session.give(alloc, answer)
}

/// What a frame is to a session: a message from its client, or one poll of a journal of that length.
fn take_event(
    alloc: Global,
    session: &mut Session,
    frame: &Frame,
    front: u64,
) -> Result<Option<StoreCall>, NoMemory>
    ensures call { IfOk result (λ call. (h : List Entry) → length h ≡ front → call ≡ (takes session.old (event_of h frame.now)).call) }
    ensures state { OnOk result ((h : List Entry) → length h ≡ front → session.new ≡ (takes session.old (event_of h frame.now)).state) }
    ensures asks { IfOk result (λ call. IfSome call Asks) }
{
    if frame.kind == kinds::IN {
        return session.take(alloc, frame.bytes.as_bytes(), frame.moment);
    }
    session.poll(alloc, front)
}

/// The moment of a frame's event; a poll has none.
fn moment_of(frame: &Frame) -> i64
    ensures { (h : List Entry) → result ≡ moment_of (event_of h frame.now) }
{
    if frame.kind == kinds::IN {
        frame.moment
    } else {
        0
    }
}

/// The store's answer to a call.
#[tactic(auto, unfolding(store_machine::specs::Answers::answered, store_machine::specs::Answers::added))]
fn ask(
    alloc: Global,
    store: &mut Store,
    by: u64,
    nth: u64,
    at: i64,
    call: StoreCall,
) -> Result<Answer, NoMemory>
    requires { MayAsk store.old.journal by nth call }
    ensures config { store.new.config ≡ store.old.config }
    ensures answer { IfOk result (λ a. a ≡ answered store.old.config store.old.journal call) }
    ensures journal { OnOk result (store.new.journal ≡ store.old.journal ++ added store.old.config store.old.journal by nth at call) }
{
    store.ask(alloc, by, nth, at, call)
}

/// The messages that a session sends, as frames.
fn send_all(
    alloc: Global,
    session: &mut Session,
    frame: &Frame,
    answers: &mut Vec<Frame>,
) -> Result<(), NoMemory>
    ensures answers { OnOk result (answers.new.items ≡ answers.old.items ++ messages frame.now session.old.out) }
    ensures state { OnOk result (session.new ≡ drained session.old) }
{
    while let Some(message) = session.next_out(alloc)? {
        push_answer(answers, kinds::OUT, frame, message)?;
    }
    Ok(())
}

/// The frame that says that a session has ended.
fn push_end(
    alloc: Global,
    answers: &mut Vec<Frame>,
    frame: &Frame,
    why: Ending,
) -> Result<(), NoMemory>
    ensures { OnOk result (answers.new.items ≡ answers.old.items ++ end_frame frame.now why ∷ []) }
{
    let payload = ending_bytes(alloc, why)?;
    push_answer(answers, kinds::ENDED, frame, payload)
}

/// A frame of the same session and moment.
fn push_answer(
    answers: &mut Vec<Frame>,
    kind: u8,
    frame: &Frame,
    bytes: Blob,
) -> Result<(), NoMemory>
    ensures { OnOk result (answers.new.items ≡ answers.old.items ++ answering kind frame.now bytes ∷ []) }
{
    answers.push(Frame {
        kind,
        tag: frame.tag,
        moment: frame.moment,
        bytes,
    })?;
    Ok(())
}

fn ending_bytes(alloc: Global, why: Ending) -> Result<Blob, NoMemory>
    ensures { IfOk result (λ b. b ≡ ending_bytes why) }
{
    match why {
        Ending::Session(end) => session_end_bytes(alloc, end),
        Ending::PeerEnd => Blob::copy(alloc, &[4]),
        Ending::JournalFull => Blob::copy(alloc, &[5]),
    }
}

fn session_end_bytes(alloc: Global, end: End) -> Result<Blob, NoMemory>
    ensures { IfOk result (λ b. b ≡ session_end_bytes end) }
{
    match end {
        End::Closed => Blob::copy(alloc, &[1]),
        End::Refused(code) => refusal_bytes(alloc, code.number()),
        End::IdsSpent => Blob::copy(alloc, &[3]),
    }
}

fn refusal_bytes(alloc: Global, number: i32) -> Result<Blob, NoMemory>
    ensures { IfOk result (λ b. b ≡ 2 ∷ to_be_bytes w32 (cast_unsigned w32 number)) }
{
    let [a, b, c, d] = number.to_be_bytes();
    Blob::copy(alloc, &[2, a, b, c, d])
}
