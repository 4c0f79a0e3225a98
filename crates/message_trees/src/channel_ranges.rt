//! The messages about ranges of channels as trees.
//!
//! `schema/write` writes all below the imports from `schema/messages.txt`.
use crate::in_tree::InTree;
use crate::record_fields::{fields_of, tree_of};
use avro_bin::Tree;
use etp_values::NoMemory;
use msg_channel::{
    ChannelRangeInfo, ChannelsTruncated, GetRanges, GetRangesResponse, RangeReplaced,
};
use std::alloc::Global;

impl InTree for ChannelRangeInfo {
    #[tactic(auto, unfolding(etp_schema::specs::Form::Holds))]
    fn to_tree(&self, alloc: Global) -> Result<Tree, NoMemory> {
        tree_of(
            alloc,
            (
                &self.channel_ids,
                (&self.interval, (&self.secondary_intervals, ())),
            ),
        )
    }

    fn from_tree(alloc: Global, tree: Tree) -> Result<ChannelRangeInfo, NoMemory> {
        let (channel_ids, (interval, (secondary_intervals, ()))) = fields_of(alloc, tree)?;
        Ok(ChannelRangeInfo {
            channel_ids,
            interval,
            secondary_intervals,
        })
    }
}

impl InTree for GetRanges {
    #[tactic(auto, unfolding(etp_schema::specs::Form::Holds))]
    fn to_tree(&self, alloc: Global) -> Result<Tree, NoMemory> {
        tree_of(alloc, (&self.request_uuid, (&self.channel_ranges, ())))
    }

    fn from_tree(alloc: Global, tree: Tree) -> Result<GetRanges, NoMemory> {
        let (request_uuid, (channel_ranges, ())) = fields_of(alloc, tree)?;
        Ok(GetRanges {
            request_uuid,
            channel_ranges,
        })
    }
}

impl InTree for GetRangesResponse {
    #[tactic(auto, unfolding(etp_schema::specs::Form::Holds))]
    fn to_tree(&self, alloc: Global) -> Result<Tree, NoMemory> {
        tree_of(alloc, (&self.payload, ()))
    }

    fn from_tree(alloc: Global, tree: Tree) -> Result<GetRangesResponse, NoMemory> {
        let (payload, ()) = fields_of(alloc, tree)?;
        Ok(GetRangesResponse { payload })
    }
}

impl InTree for RangeReplaced {
    #[tactic(auto, unfolding(etp_schema::specs::Form::Holds))]
    fn to_tree(&self, alloc: Global) -> Result<Tree, NoMemory> {
        tree_of(
            alloc,
            (
                &self.change_time,
                (
                    &self.channel_ids,
                    (&self.changed_interval, (&self.payload, ())),
                ),
            ),
        )
    }

    fn from_tree(alloc: Global, tree: Tree) -> Result<RangeReplaced, NoMemory> {
        let (change_time, (channel_ids, (changed_interval, (payload, ())))) = fields_of(
            alloc, tree,
        )?;
        Ok(RangeReplaced {
            change_time,
            channel_ids,
            changed_interval,
            payload,
        })
    }
}

impl InTree for ChannelsTruncated {
    #[tactic(auto, unfolding(etp_schema::specs::Form::Holds))]
    fn to_tree(&self, alloc: Global) -> Result<Tree, NoMemory> {
        tree_of(alloc, (&self.change_time, (&self.channels, ())))
    }

    fn from_tree(alloc: Global, tree: Tree) -> Result<ChannelsTruncated, NoMemory> {
        let (change_time, (channels, ())) = fields_of(alloc, tree)?;
        Ok(ChannelsTruncated {
            change_time,
            channels,
        })
    }
}
