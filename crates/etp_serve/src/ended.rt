//! How the serving of a session ended.
ghost use Rattle.std.specs.Prelude.{◌≡◌};
ghost use Rattle.std.specs.Option.{option_map};
ghost use Rattle.session_core.specs.Session.{end_of};
ghost use Rattle.etp_serve.specs.Ends.{ended_of};

use etp_values::ErrorCode;
use session_core::{End, Session};

/// How the serving of a session ended.
#[derive(Clone, Copy, Debug, PartialEq, Eq)]
pub enum Ended {
    /// The client closed the session.
    Closed,
    /// The session was refused for this reason.
    Refused(ErrorCode),
    /// There was more to send than own message ids are left.
    IdsSpent,
    /// The peer ended the link.
    PeerEnd,
    /// The link failed.
    LinkFault,
    /// Out of memory.
    NoMemory,
}

/// The session's own end, if it has ended.
pub(crate) fn own_end(session: &Session) -> Option<Ended>
    ensures { result ≡ option_map ended_of (end_of session.now.phase) }
{
    match session.ended() {
        None => None,
        Some(End::Closed) => Some(Ended::Closed),
        Some(End::Refused(code)) => Some(Ended::Refused(code)),
        Some(End::IdsSpent) => Some(Ended::IdsSpent),
    }
}
