//! The configuration of a server: its identifier and name, its limits, and the channels that it serves.
//!
//! [`read_defs`] reads a [`Config`] from the bytes of a TOML 1.1 document. Its keys have numbers, by which [`DefsError`] names the first
//! one that is refused:
//!
//! | number | key | value | if missing |
//! |---|---|---|---|
//! | 1 | `instance` | the server's identifier, in any of RFC 9562's text forms | refused |
//! | 2 | `name` | the server's name, 1 to 256 bytes | refused |
//! | 3 | `lag` | how many entries a subscription may be behind, 1 to 65,536 | 65,536 |
//! | 4 | `journal` | the greatest number of entries, 2 to 4,194,304 | 4,194,304 |
//! | 5 | `types` | the accepted types of objects, a list of `DOMAIN.NAME` and `DOMAIN.*` | all types |
//! | 6 | `channel` | the channels, a list of at most 4,096 tables | no channel |
//! | 7 | `uri` of a channel | the URI of the object that the channel is, distinct from the others' | refused |
//! | 8 | `name` | its name, 1 to 256 bytes | refused |
//! | 9 | `kind` | `boolean`, `int`, `long`, `float`, `double`, `string` or `bytes` | refused |
//! | 10 | `uom` | its unit of measure, at most 64 bytes | empty |
//!
//! Other keys are ignored. A channel's id is its index in the list.
#![tactic(auto)]

mod channels;
mod error;
mod keys;
mod reading;

pub use error::DefsError;
pub use reading::{MAX_DEFS_LEN, read_defs};
