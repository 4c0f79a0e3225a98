//! How long a link waits.

/// The shortest and the longest time that a link waits for its socket and its bell, in milliseconds. Each turn in which nothing
/// came doubles the wait, so that a quiet link costs next to nothing: whatever concerns it ends the wait.
const SHORTEST: u64 = 4;

const LONGEST: u64 = 1_024;

/// The longest time, in milliseconds, that a link waits without hearing a bell, and that it waits after the bell rang or without having one.
const LONGEST_DEAF: u64 = 32;

/// After a turn in which a link sent this many messages its session may have more to send: a poll sends no more than some hundreds of
/// changes.
const MANY: u32 = 16;

/// A wait: for some milliseconds the bell is not heard, and then for some it is.
#[derive(Clone, Copy)]
pub(crate) struct Wait {
    pub(crate) rest: u64,
    pub(crate) limit: u64,
}

impl Wait {
    /// How long it lasts if nothing ends it.
    pub(crate) fn whole(self) -> u64 {
        self.rest.saturating_add(self.limit)
    }
}

/// How long a link waits.
///
/// A bell says that the store may have changed, and not whether that concerns this link's session. While bells bring nothing the link rests
/// before it hears the next one, and its rests grow: a session that follows nothing is not woken by each write of the others. A link that
/// has sent a little neither rests nor waits long: single changes are sent at once. A link that has sent much does not wait, as there may
/// be more to send, and rests a millisecond once it has sent all, so that changes that come close together are sent together.
#[derive(Clone, Copy)]
pub(crate) struct Pace {
    limit: u64,
    rest: u64,
    /// How many messages were sent since the last wait.
    sent: u32,
    /// Whether the last wait was ended by the bell.
    belled: bool,
    /// Whether much was sent in the turn before the last.
    crowded: bool,
}

impl Pace {
    pub(crate) fn new() -> Pace {
        Pace {
            limit: SHORTEST,
            rest: 0,
            sent: 0,
            belled: false,
            crowded: false,
        }
    }

    /// The wait that begins.
    pub(crate) fn next(&mut self) -> Wait {
        let sent = self.sent;
        let belled = self.belled;
        self.sent = 0;
        self.belled = false;
        if sent >= MANY {
            self.crowded = true;
            return Wait { rest: 0, limit: 0 };
        }
        if self.crowded {
            self.crowded = false;
            self.rest = 1;
        } else if sent > 0 {
            self.rest = 0;
        } else if belled {
            self.rest = self.rest.saturating_mul(2).max(1).min(LONGEST_DEAF);
        }
        Wait {
            rest: self.rest,
            limit: self.limit,
        }
    }

    /// A wait in which no bell is heard begins, so that it is counted exactly. Returns how long it lasts, in milliseconds.
    pub(crate) fn exact(&mut self) -> u64 {
        self.sent = 0;
        self.belled = false;
        LONGEST_DEAF
    }

    /// A message came.
    pub(crate) fn on_message(&mut self) {
        self.limit = SHORTEST;
    }

    /// Something was sent.
    pub(crate) fn on_sent(&mut self) {
        self.limit = SHORTEST;
        self.sent = self.sent.saturating_add(1);
    }

    /// The time was over. A link without a bell does not wait long: nothing wakes it when the others write.
    pub(crate) fn on_silence(&mut self, has_bell: bool) {
        let longest = if has_bell { LONGEST } else { LONGEST_DEAF };
        self.limit = self.limit.saturating_mul(2).max(SHORTEST).min(longest);
        self.rest = 0;
    }

    /// The bell rang. The whole wait counts then, so the next are short again.
    pub(crate) fn on_bell(&mut self) {
        self.belled = true;
        self.limit = self.limit.min(LONGEST_DEAF);
    }
}
