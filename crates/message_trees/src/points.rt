//! Points of channels as trees.
//!
//! `schema/write` writes all below the imports from `schema/messages.txt`.
use crate::in_tree::InTree;
use crate::record_fields::{fields_of, tree_of};
use avro_bin::Tree;
use etp_values::NoMemory;
use msg_channel::{DataAttribute, DataItem, TruncateInfo};
use std::alloc::Global;

impl InTree for DataAttribute {
    #[tactic(auto, unfolding(etp_schema::specs::Form::Holds))]
    fn to_tree(&self, alloc: Global) -> Result<Tree, NoMemory> {
        tree_of(alloc, (&self.attribute_id, (&self.attribute_value, ())))
    }

    fn from_tree(alloc: Global, tree: Tree) -> Result<DataAttribute, NoMemory> {
        let (attribute_id, (attribute_value, ())) = fields_of(alloc, tree)?;
        Ok(DataAttribute {
            attribute_id,
            attribute_value,
        })
    }
}

impl InTree for DataItem {
    #[tactic(auto, unfolding(etp_schema::specs::Form::Holds))]
    fn to_tree(&self, alloc: Global) -> Result<Tree, NoMemory> {
        tree_of(
            alloc,
            (
                &self.channel_id,
                (&self.indexes, (&self.value, (&self.value_attributes, ()))),
            ),
        )
    }

    fn from_tree(alloc: Global, tree: Tree) -> Result<DataItem, NoMemory> {
        let (channel_id, (indexes, (value, (value_attributes, ())))) = fields_of(alloc, tree)?;
        Ok(DataItem {
            channel_id,
            indexes,
            value,
            value_attributes,
        })
    }
}

impl InTree for TruncateInfo {
    #[tactic(auto, unfolding(etp_schema::specs::Form::Holds))]
    fn to_tree(&self, alloc: Global) -> Result<Tree, NoMemory> {
        tree_of(alloc, (&self.channel_id, (&self.new_end_index, ())))
    }

    fn from_tree(alloc: Global, tree: Tree) -> Result<TruncateInfo, NoMemory> {
        let (channel_id, (new_end_index, ())) = fields_of(alloc, tree)?;
        Ok(TruncateInfo {
            channel_id,
            new_end_index,
        })
    }
}
