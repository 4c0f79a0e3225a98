//! The records of channels as trees.
//!
//! `schema/write` writes all below the imports from `schema/messages.txt`.
use crate::in_tree::InTree;
use crate::leaves::symbol_of;
use crate::record_fields::{fields_of, tree_of};
use avro_bin::Tree;
use etp_values::NoMemory;
use msg_channel::{
    AttributeMetadataRecord, ChannelDataKind, ChannelIndexKind, ChannelMetadataRecord,
    IndexDirection, IndexMetadataRecord,
};
use std::alloc::Global;

impl InTree for ChannelIndexKind {
    #[tactic(auto, using(avro_bin::proofs::ViewLemmas::values), unfolding(etp_schema::specs::Form::Holds))]
    fn to_tree(&self, _alloc: Global) -> Result<Tree, NoMemory> {
        match self {
            ChannelIndexKind::DateTime => Ok(Tree::Enum(0)),
            ChannelIndexKind::ElapsedTime => Ok(Tree::Enum(1)),
            ChannelIndexKind::MeasuredDepth => Ok(Tree::Enum(2)),
            ChannelIndexKind::TrueVerticalDepth => Ok(Tree::Enum(3)),
            ChannelIndexKind::PassIndexedDepth => Ok(Tree::Enum(4)),
            ChannelIndexKind::Pressure => Ok(Tree::Enum(5)),
            ChannelIndexKind::Temperature => Ok(Tree::Enum(6)),
            ChannelIndexKind::Scalar => Ok(Tree::Enum(7)),
        }
    }

    fn from_tree(_alloc: Global, tree: Tree) -> Result<ChannelIndexKind, NoMemory> {
        Ok(symbol_of(
            tree,
            &[
                ChannelIndexKind::DateTime,
                ChannelIndexKind::ElapsedTime,
                ChannelIndexKind::MeasuredDepth,
                ChannelIndexKind::TrueVerticalDepth,
                ChannelIndexKind::PassIndexedDepth,
                ChannelIndexKind::Pressure,
                ChannelIndexKind::Temperature,
                ChannelIndexKind::Scalar,
            ],
            ChannelIndexKind::Scalar,
        ))
    }
}

impl InTree for IndexDirection {
    #[tactic(auto, using(avro_bin::proofs::ViewLemmas::values), unfolding(etp_schema::specs::Form::Holds))]
    fn to_tree(&self, _alloc: Global) -> Result<Tree, NoMemory> {
        match self {
            IndexDirection::Increasing => Ok(Tree::Enum(0)),
            IndexDirection::Decreasing => Ok(Tree::Enum(1)),
            IndexDirection::Unordered => Ok(Tree::Enum(2)),
        }
    }

    fn from_tree(_alloc: Global, tree: Tree) -> Result<IndexDirection, NoMemory> {
        Ok(symbol_of(
            tree,
            &[
                IndexDirection::Increasing,
                IndexDirection::Decreasing,
                IndexDirection::Unordered,
            ],
            IndexDirection::Unordered,
        ))
    }
}

impl InTree for ChannelDataKind {
    #[tactic(auto, using(avro_bin::proofs::ViewLemmas::values), unfolding(etp_schema::specs::Form::Holds))]
    fn to_tree(&self, _alloc: Global) -> Result<Tree, NoMemory> {
        match self {
            ChannelDataKind::DateTime => Ok(Tree::Enum(0)),
            ChannelDataKind::ElapsedTime => Ok(Tree::Enum(1)),
            ChannelDataKind::MeasuredDepth => Ok(Tree::Enum(2)),
            ChannelDataKind::PassIndexedDepth => Ok(Tree::Enum(3)),
            ChannelDataKind::TrueVerticalDepth => Ok(Tree::Enum(4)),
            ChannelDataKind::TypeBoolean => Ok(Tree::Enum(5)),
            ChannelDataKind::TypeInt => Ok(Tree::Enum(6)),
            ChannelDataKind::TypeLong => Ok(Tree::Enum(7)),
            ChannelDataKind::TypeFloat => Ok(Tree::Enum(8)),
            ChannelDataKind::TypeDouble => Ok(Tree::Enum(9)),
            ChannelDataKind::TypeString => Ok(Tree::Enum(10)),
            ChannelDataKind::TypeBytes => Ok(Tree::Enum(11)),
        }
    }

    fn from_tree(_alloc: Global, tree: Tree) -> Result<ChannelDataKind, NoMemory> {
        Ok(symbol_of(
            tree,
            &[
                ChannelDataKind::DateTime,
                ChannelDataKind::ElapsedTime,
                ChannelDataKind::MeasuredDepth,
                ChannelDataKind::PassIndexedDepth,
                ChannelDataKind::TrueVerticalDepth,
                ChannelDataKind::TypeBoolean,
                ChannelDataKind::TypeInt,
                ChannelDataKind::TypeLong,
                ChannelDataKind::TypeFloat,
                ChannelDataKind::TypeDouble,
                ChannelDataKind::TypeString,
                ChannelDataKind::TypeBytes,
            ],
            ChannelDataKind::TypeBytes,
        ))
    }
}

impl InTree for IndexMetadataRecord {
    #[tactic(auto, unfolding(etp_schema::specs::Form::Holds))]
    fn to_tree(&self, alloc: Global) -> Result<Tree, NoMemory> {
        tree_of(
            alloc,
            (
                &self.index_kind,
                (
                    &self.interval,
                    (
                        &self.direction,
                        (
                            &self.name,
                            (
                                &self.uom,
                                (
                                    &self.depth_datum,
                                    (&self.index_property_kind_uri, (&self.filterable, ())),
                                ),
                            ),
                        ),
                    ),
                ),
            ),
        )
    }

    fn from_tree(alloc: Global, tree: Tree) -> Result<IndexMetadataRecord, NoMemory> {
        let (
            index_kind,
            (
                interval,
                (
                    direction,
                    (name, (uom, (depth_datum, (index_property_kind_uri, (filterable, ()))))),
                ),
            ),
        ) = fields_of(alloc, tree)?;
        Ok(IndexMetadataRecord {
            index_kind,
            interval,
            direction,
            name,
            uom,
            depth_datum,
            index_property_kind_uri,
            filterable,
        })
    }
}

impl InTree for AttributeMetadataRecord {
    #[tactic(auto, unfolding(etp_schema::specs::Form::Holds))]
    fn to_tree(&self, alloc: Global) -> Result<Tree, NoMemory> {
        tree_of(
            alloc,
            (
                &self.attribute_id,
                (
                    &self.attribute_name,
                    (
                        &self.data_kind,
                        (
                            &self.uom,
                            (
                                &self.depth_datum,
                                (
                                    &self.attribute_property_kind_uri,
                                    (&self.axis_vector_lengths, ()),
                                ),
                            ),
                        ),
                    ),
                ),
            ),
        )
    }

    fn from_tree(alloc: Global, tree: Tree) -> Result<AttributeMetadataRecord, NoMemory> {
        let (
            attribute_id,
            (
                attribute_name,
                (
                    data_kind,
                    (uom, (depth_datum, (attribute_property_kind_uri, (axis_vector_lengths, ())))),
                ),
            ),
        ) = fields_of(alloc, tree)?;
        Ok(AttributeMetadataRecord {
            attribute_id,
            attribute_name,
            data_kind,
            uom,
            depth_datum,
            attribute_property_kind_uri,
            axis_vector_lengths,
        })
    }
}

impl InTree for ChannelMetadataRecord {
    #[tactic(auto, unfolding(etp_schema::specs::Form::Holds))]
    fn to_tree(&self, alloc: Global) -> Result<Tree, NoMemory> {
        tree_of(
            alloc,
            (
                &self.uri,
                (
                    &self.id,
                    (
                        &self.indexes,
                        (
                            &self.channel_name,
                            (
                                &self.data_kind,
                                (
                                    &self.uom,
                                    (
                                        &self.depth_datum,
                                        (
                                            &self.channel_class_uri,
                                            (
                                                &self.status,
                                                (
                                                    &self.source,
                                                    (
                                                        &self.axis_vector_lengths,
                                                        (
                                                            &self.attribute_metadata,
                                                            (&self.custom_data, ()),
                                                        ),
                                                    ),
                                                ),
                                            ),
                                        ),
                                    ),
                                ),
                            ),
                        ),
                    ),
                ),
            ),
        )
    }

    fn from_tree(alloc: Global, tree: Tree) -> Result<ChannelMetadataRecord, NoMemory> {
        let (
            uri,
            (
                id,
                (
                    indexes,
                    (
                        channel_name,
                        (
                            data_kind,
                            (
                                uom,
                                (
                                    depth_datum,
                                    (
                                        channel_class_uri,
                                        (
                                            status,
                                            (
                                                source,
                                                (
                                                    axis_vector_lengths,
                                                    (attribute_metadata, (custom_data, ())),
                                                ),
                                            ),
                                        ),
                                    ),
                                ),
                            ),
                        ),
                    ),
                ),
            ),
        ) = fields_of(alloc, tree)?;
        Ok(ChannelMetadataRecord {
            uri,
            id,
            indexes,
            channel_name,
            data_kind,
            uom,
            depth_datum,
            channel_class_uri,
            status,
            source,
            axis_vector_lengths,
            attribute_metadata,
            custom_data,
        })
    }
}
