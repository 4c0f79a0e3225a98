//! Why a command stops.
use etp_outside::Status;

/// Something outside that failed, or running out of memory.
#[derive(Clone, Copy, Debug, Drop)]
pub(crate) enum Cause {
    /// The link failed.
    Link,
    /// The output failed.
    Output,
    /// The input failed.
    Input,
    /// Out of memory.
    Memory,
}

/// How a command stops.
#[derive(Clone, Copy, Debug, Drop)]
pub(crate) enum Stop {
    /// It has ended with this status, and all that belongs to that was sent and written.
    Over(Status),
    /// It has ended with this status, and the link or the output failed before all that belongs to that was sent and written.
    Short(Status),
    /// It was cut off.
    Cut(Cause),
    /// The peer ended the link while the command waited.
    Left,
}
