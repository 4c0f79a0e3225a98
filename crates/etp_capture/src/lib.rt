//! Capture files: sessions as they were recorded, to be shown, checked and replayed.
//!
//! A capture is the eight bytes `ETPCAP01` and then frames, at most 1,073,741,824 bytes in all. A frame is 17 bytes and
//! its payload: the kind (1 byte), the tag of its session (4), the moment in microseconds since 1970-01-01 UTC (8,
//! signed), the payload's length (4), and the payload. Numbers are big-endian.
//!
//! | kind | what the frame is | payload |
//! |---|---|---|
//! | 1 | a message from the client | its bytes, at most 33,554,432 |
//! | 2 | one poll of the session | none |
//! | 3 | the end of the client's messages | none |
//! | 17 | a message from the server | its bytes, at most 33,554,432 |
//! | 19 | the end of the session | 1 byte, and 4 more for a code |
//!
//! [`CaptureReader`] reads a capture frame by frame from a source, however the source cuts it, and leaves the source just
//! after what it returns. [`CaptureWriter`] writes frames to a sink, and [`push_frame`] appends one to a buffer. The laws
//! at the end say that these two are inverse to each other: see [`frame_is_read_back`] and [`capture_has_one_reading`].
#![tactic(auto)]

mod frame;
mod head;
pub mod kinds;
mod laws;
mod reader;
mod writer;

pub use frame::{Frame, push_frame, push_magic};
pub use head::HEAD_LEN;
pub use laws::{capture_has_one_reading, each_input_has_an_answer, frame_is_read_back};
pub use reader::{CaptureError, CaptureReader};
pub use writer::{CaptureWriter, PutError};
