//! How the serving of links ended.

/// Why no more links are served.
#[derive(Clone, Copy, Debug, PartialEq, Eq)]
pub enum Served {
    /// The listener stopped, or as many links came as were to be served.
    Stopped,
    /// The listener failed.
    ListenFault,
    /// Out of memory.
    NoMemory,
}
