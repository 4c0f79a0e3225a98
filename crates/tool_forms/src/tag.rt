//! What a capture's tags have: open sessions, and the marks of those that have ended.

use etp_values::Boxed;
use session_core::{End, Session};

/// Why a session has ended.
#[derive(Clone, Copy, Debug, PartialEq, Eq)]
pub enum Ending {
    /// It ended by its own rules.
    Session(End),
    /// Its client has nothing more to say.
    PeerEnd,
    /// The journal had no room for it to enter.
    JournalFull,
}

/// An open session: one that takes frames.
#[derive(Drop)]
pub struct OpenSession {
    /// The place of its entering in the journal.
    pub number: u64,
    /// How many entries are its own, including the one of entering.
    pub entries: u64,
    pub session: Session,
}

/// What a tag has from its first frame on. An open session is boxed, so that a tag that has ended keeps a few bytes.
#[derive(Drop)]
pub enum TagState {
    /// An open session.
    Open(Boxed<OpenSession>),
    /// A session that has ended, or could not enter.
    Ended,
}
