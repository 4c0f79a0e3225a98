//! Points of channels, and where channels are truncated.
use crate::indexes::IndexValue;
use etp_schema::{Few, Typed};
use etp_values::{DataValue, List};

/// The value of one attribute at a point.
#[derive(Debug, Drop)]
pub struct DataAttribute {
    /// The attribute's number among those of the channel ([`AttributeMetadataRecord`]).
    pub attribute_id: i32,
    pub attribute_value: DataValue,
}

impl Typed for DataAttribute {
    ghost use Rattle.msg_channel.specs.ChannelRecords.{data_attribute_form};

    ghost form = { data_attribute_form };
}

/// A point of a channel.
#[derive(Debug, Drop)]
pub struct DataItem {
    /// The channel's number.
    pub channel_id: i64,
    /// The point's indexes, the primary one first. An item without one, or with a null, has that of the item before it.
    pub indexes: Few<IndexValue>,
    /// The value there, in the channel's unit.
    pub value: DataValue,
    /// The value's attributes.
    pub value_attributes: List<DataAttribute>,
}

impl Typed for DataItem {
    ghost use Rattle.msg_channel.specs.ChannelRecords.{data_item_form};

    ghost form = { data_item_form };
}

/// Where a channel is truncated.
#[derive(Debug, Drop)]
pub struct TruncateInfo {
    /// The channel's number.
    pub channel_id: i64,
    /// The points above this index are dropped.
    pub new_end_index: IndexValue,
}

impl Typed for TruncateInfo {
    ghost use Rattle.msg_channel.specs.ChannelRecords.{truncate_info_form};

    ghost form = { truncate_info_form };
}
