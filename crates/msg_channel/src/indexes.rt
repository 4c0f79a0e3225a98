//! Indexes: the values of one, and intervals of them.
use etp_schema::Typed;
use etp_values::{Bits64, Text};

/// Which way a logging tool moves during a pass.
#[derive(Clone, Copy, Debug, PartialEq, Eq, Drop)]
pub enum PassDirection {
    Up,
    /// The tool stays where it is.
    HoldingSteady,
    Down,
}

impl Typed for PassDirection {
    ghost use Rattle.msg_channel.specs.ChannelRecords.{pass_direction_form};

    ghost form = { pass_direction_form };
}

/// A depth within one pass of a logging tool.
#[derive(Clone, Copy, Debug, PartialEq, Eq, Drop)]
pub struct PassIndexedDepth {
    /// The pass's number.
    pub pass: i64,
    /// Which way the tool moves in that pass.
    pub direction: PassDirection,
    /// The depth, in the index's unit.
    pub depth: Bits64,
}

impl Typed for PassIndexedDepth {
    ghost use Rattle.msg_channel.specs.ChannelRecords.{pass_indexed_depth_form};

    ghost form = { pass_indexed_depth_form };
}

/// A value of an index: a time, a depth, another number, or none.
#[derive(Clone, Copy, Debug, PartialEq, Eq, Drop)]
pub enum IndexValue {
    /// No value. What that means is said at each field.
    Null,
    /// A time in microseconds since 1970-01-01 UTC, or an elapsed time in microseconds, depending on the index's kind.
    Long(i64),
    /// A depth or another measure, in the index's unit.
    Double(Bits64),
    /// A depth within a pass of a logging tool.
    PassIndexedDepth(PassIndexedDepth),
}

impl Typed for IndexValue {
    ghost use Rattle.msg_channel.specs.ChannelRecords.{index_value_form};

    ghost form = { index_value_form };
}

/// The values of an index from one to another, both included.
#[derive(Debug, Drop)]
pub struct IndexInterval {
    /// The first value; null if there is none.
    pub start_index: IndexValue,
    /// The last value; null if there is none.
    pub end_index: IndexValue,
    /// The unit of both ends; `us` for times. It may be empty.
    pub uom: Text,
    /// What depths are measured from; empty if the index is not a depth.
    pub depth_datum: Text,
}

impl Typed for IndexInterval {
    ghost use Rattle.msg_channel.specs.ChannelRecords.{index_interval_form};

    ghost form = { index_interval_form };
}
