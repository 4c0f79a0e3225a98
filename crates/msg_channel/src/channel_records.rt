//! What a channel is: its indexes, its attributes and the rest of its metadata.
use crate::indexes::IndexInterval;
use etp_schema::{ActiveStatusKind, Typed};
use etp_values::{DataValue, List, Named, Text};

/// What an index counts or measures.
#[derive(Clone, Copy, Debug, PartialEq, Eq, Drop)]
pub enum ChannelIndexKind {
    /// A time, in microseconds since 1970-01-01 UTC.
    DateTime,
    /// A time since some start, in microseconds.
    ElapsedTime,
    /// A depth along the borehole.
    MeasuredDepth,
    /// A depth straight down.
    TrueVerticalDepth,
    /// A depth within a pass of a logging tool.
    PassIndexedDepth,
    Pressure,
    Temperature,
    /// A number without a unit.
    Scalar,
}

impl Typed for ChannelIndexKind {
    ghost use Rattle.msg_channel.specs.ChannelRecords.{channel_index_kind_form};

    ghost form = { channel_index_kind_form };
}

/// How an index changes from one of a channel's points to the next.
#[derive(Clone, Copy, Debug, PartialEq, Eq, Drop)]
pub enum IndexDirection {
    Increasing,
    Decreasing,
    Unordered,
}

impl Typed for IndexDirection {
    ghost use Rattle.msg_channel.specs.ChannelRecords.{index_direction_form};

    ghost form = { index_direction_form };
}

/// What a channel's values, or those of an attribute, are.
#[derive(Clone, Copy, Debug, PartialEq, Eq, Drop)]
pub enum ChannelDataKind {
    /// A time as a long, in microseconds since 1970-01-01 UTC.
    DateTime,
    /// A time since some start as a long, in microseconds.
    ElapsedTime,
    /// A depth along the borehole.
    MeasuredDepth,
    /// A depth within a pass of a logging tool.
    PassIndexedDepth,
    /// A depth straight down.
    TrueVerticalDepth,
    TypeBoolean,
    TypeInt,
    TypeLong,
    TypeFloat,
    TypeDouble,
    TypeString,
    TypeBytes,
}

impl Typed for ChannelDataKind {
    ghost use Rattle.msg_channel.specs.ChannelRecords.{channel_data_kind_form};

    ghost form = { channel_data_kind_form };
}

/// One of the indexes of a channel.
#[derive(Debug, Drop)]
pub struct IndexMetadataRecord {
    pub index_kind: ChannelIndexKind,
    /// From the index of the channel's first point to that of its last; both null if it has no points.
    pub interval: IndexInterval,
    /// How the index changes from point to point.
    pub direction: IndexDirection,
    /// The index's name: `time`.
    pub name: Text,
    /// The index's unit; `us` for times.
    pub uom: Text,
    /// What depths are measured from; empty if the index is not a depth.
    pub depth_datum: Text,
    /// The URI of the kind of property that the index is; it may be empty.
    pub index_property_kind_uri: Text,
    /// Whether ranges can be asked for by this index.
    pub filterable: bool,
}

impl Typed for IndexMetadataRecord {
    ghost use Rattle.msg_channel.specs.ChannelRecords.{index_metadata_record_form};

    ghost form = { index_metadata_record_form };
}

/// An attribute that the values of a channel can have, such as a mark of their quality.
#[derive(Debug, Drop)]
pub struct AttributeMetadataRecord {
    /// The number by which a [`DataAttribute`] names it.
    pub attribute_id: i32,
    pub attribute_name: Text,
    /// What the attribute's values are.
    pub data_kind: ChannelDataKind,
    /// The unit of its values; empty if they have none.
    pub uom: Text,
    /// What depths are measured from; empty if its values are not depths.
    pub depth_datum: Text,
    /// The URI of the kind of property that it is; it may be empty.
    pub attribute_property_kind_uri: Text,
    /// The lengths of the axes of a value that is an array; empty for single values.
    pub axis_vector_lengths: List<i32>,
}

impl Typed for AttributeMetadataRecord {
    ghost use Rattle.msg_channel.specs.ChannelRecords.{attribute_metadata_record_form};

    ghost form = { attribute_metadata_record_form };
}

/// What a channel is.
#[derive(Debug, Drop)]
pub struct ChannelMetadataRecord {
    /// The URI of the channel as a data object.
    pub uri: Text,
    /// The number by which messages refer to the channel.
    pub id: i64,
    /// Its indexes, the primary one first.
    pub indexes: List<IndexMetadataRecord>,
    pub channel_name: Text,
    /// What the channel's values are.
    pub data_kind: ChannelDataKind,
    /// The unit of its values; empty if they have none.
    pub uom: Text,
    /// What depths are measured from; empty if its values are not depths.
    pub depth_datum: Text,
    /// The URI of the channel's class; it may be empty.
    pub channel_class_uri: Text,
    /// Whether more points are expected.
    pub status: ActiveStatusKind,
    /// Where its points come from, in words; it may be empty.
    pub source: Text,
    /// The lengths of the axes of a value that is an array; empty for single values.
    pub axis_vector_lengths: List<i32>,
    /// The attributes that its values can have.
    pub attribute_metadata: List<AttributeMetadataRecord>,
    /// Further values, by name.
    pub custom_data: Named<DataValue>,
}

impl Typed for ChannelMetadataRecord {
    ghost use Rattle.msg_channel.specs.ChannelRecords.{channel_metadata_record_form};

    ghost form = { channel_metadata_record_form };
}
