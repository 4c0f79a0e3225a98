//! Points of channels, kept so that a change, an entry of the journal and a subscriber share their memory.
//!
//! [`Points`] are the points of one channel, and [`ChannelPoints`] those of several in the order of a message. [`Chunks`] has all points of a
//! channel, and hands them out as a [`PointRun`]. Contracts see them as plain lists. [`Rows`] is a list that grows by blocks, so that no push
//! moves what is there.
#![tactic(auto)]

mod block;
mod blocks;
mod boxed;
mod bytes;
mod chunks;
mod items;
mod points;
mod reads;
mod rows;
mod run;
mod search;

pub use boxed::BoxedPoints;
pub use bytes::{point_bytes, points_bytes};
pub use chunks::Chunks;
pub use items::{ChannelPoints, only_channel};
pub use points::Points;
pub use rows::Rows;
pub use run::PointRun;
pub use search::count_below;
