//! What a program meets outside itself: bytes that come, bytes that go, files by name, peers, the time, and its exit status.
//!
//! [`Source`], [`Sink`], [`Host`], [`Link`], [`Listener`] and [`Dialer`] are traits, so that everything above them is proved for any
//! implementation. Each has a content in ghost form, which the implementations in memory reveal and the system's files, streams and sockets
//! do not, and a count of its faults. The count never falls, and `Failed` is returned only by a call in which it rose: code that is generic
//! over these traits cannot make up a fault. A [`Clock`] may reveal its moments, and a [`Gate`] is where a test makes a session wait.
//!
//! [`MemSource`], [`MemSink`], [`MemHost`], [`MemLink`], [`MemDoor`] and [`MemDial`] are the implementations in memory, which fail at the
//! calls that a list names; [`StepClock`] returns moments one step apart, and [`NoGate`] is always open. [`StdSource`], [`StdSink`],
//! [`DirHost`] and [`WallClock`] are the adapters over the system, the trusted edge. [`fill`], [`write_all`] and [`read_all`] make whole
//! buffers and files of single reads and writes. [`Status`] is what a program ends with.
#![tactic(auto)]

mod adapters;
mod clock;
mod dialer;
mod gate;
mod host;
mod link;
mod listener;
mod mem_dial;
mod mem_door;
mod mem_host;
mod mem_link;
mod mem_sink;
mod mem_source;
mod roll;
mod script;
mod sink;
mod source;
mod status;
mod step_clock;
mod tally;
mod whole;

pub use adapters::{DirHost, StdSink, StdSource, WallClock};
pub use clock::Clock;
pub use dialer::{Dialed, Dialer};
pub use gate::{Gate, NoGate};
pub use host::{Host, Opened};
pub use link::{Address, Item, Link, Recv, Sent};
pub use listener::{Listened, Listener, Next};
pub use mem_dial::MemDial;
pub use mem_door::{MemDoor, Returned};
pub use mem_host::{MemFile, MemHost};
pub use mem_link::MemLink;
pub use mem_sink::MemSink;
pub use mem_source::MemSource;
pub use sink::{Sink, WriteOutcome};
pub use source::{ReadOutcome, Source};
pub use status::{Status, one_numeral};
pub use step_clock::StepClock;
pub use whole::{Filled, Unread, Written, fill, read_all, write_all};
