//! The messages of the ChannelSubscribe protocol as trees.
//!
//! `schema/write` writes all below the imports from `schema/messages.txt`.
ghost use Rattle.msg_channel.specs.ChannelSubscribe.{channel_subscribe_body, channel_subscribe_kinds};

use crate::body_in_tree::BodyInTree;
use crate::in_tree::InTree;
use crate::record_fields::{fields_of, tree_of};
use avro_bin::Tree;
use etp_values::NoMemory;
use msg_channel::{
    ChannelData, ChannelSubscribeInfo, ChannelSubscribeMessage, ChannelsTruncated,
    GetChannelMetadata, GetChannelMetadataResponse, GetRanges, GetRangesResponse, RangeReplaced,
    SubscribeChannels, SubscribeChannelsResponse, SubscriptionsStopped, UnsubscribeChannels,
};
use std::alloc::Global;

impl InTree for ChannelSubscribeInfo {
    #[tactic(auto, unfolding(etp_schema::specs::Form::Holds))]
    fn to_tree(&self, alloc: Global) -> Result<Tree, NoMemory> {
        tree_of(
            alloc,
            (
                &self.channel_id,
                (
                    &self.start_index,
                    (&self.data_changes, (&self.request_latest_index_count, ())),
                ),
            ),
        )
    }

    fn from_tree(alloc: Global, tree: Tree) -> Result<ChannelSubscribeInfo, NoMemory> {
        let (channel_id, (start_index, (data_changes, (request_latest_index_count, ())))) =
            fields_of(alloc, tree)?;
        Ok(ChannelSubscribeInfo {
            channel_id,
            start_index,
            data_changes,
            request_latest_index_count,
        })
    }
}

impl InTree for GetChannelMetadata {
    #[tactic(auto, unfolding(etp_schema::specs::Form::Holds))]
    fn to_tree(&self, alloc: Global) -> Result<Tree, NoMemory> {
        tree_of(alloc, (&self.uris, ()))
    }

    fn from_tree(alloc: Global, tree: Tree) -> Result<GetChannelMetadata, NoMemory> {
        let (uris, ()) = fields_of(alloc, tree)?;
        Ok(GetChannelMetadata { uris })
    }
}

impl InTree for GetChannelMetadataResponse {
    #[tactic(auto, unfolding(etp_schema::specs::Form::Holds))]
    fn to_tree(&self, alloc: Global) -> Result<Tree, NoMemory> {
        tree_of(alloc, (&self.metadata, ()))
    }

    fn from_tree(alloc: Global, tree: Tree) -> Result<GetChannelMetadataResponse, NoMemory> {
        let (metadata, ()) = fields_of(alloc, tree)?;
        Ok(GetChannelMetadataResponse { metadata })
    }
}

impl InTree for SubscribeChannels {
    #[tactic(auto, unfolding(etp_schema::specs::Form::Holds))]
    fn to_tree(&self, alloc: Global) -> Result<Tree, NoMemory> {
        tree_of(alloc, (&self.channels, ()))
    }

    fn from_tree(alloc: Global, tree: Tree) -> Result<SubscribeChannels, NoMemory> {
        let (channels, ()) = fields_of(alloc, tree)?;
        Ok(SubscribeChannels { channels })
    }
}

impl InTree for ChannelData {
    #[tactic(auto, unfolding(etp_schema::specs::Form::Holds))]
    fn to_tree(&self, alloc: Global) -> Result<Tree, NoMemory> {
        tree_of(alloc, (&self.payload, ()))
    }

    fn from_tree(alloc: Global, tree: Tree) -> Result<ChannelData, NoMemory> {
        let (payload, ()) = fields_of(alloc, tree)?;
        Ok(ChannelData { payload })
    }
}

impl InTree for UnsubscribeChannels {
    #[tactic(auto, unfolding(etp_schema::specs::Form::Holds))]
    fn to_tree(&self, alloc: Global) -> Result<Tree, NoMemory> {
        tree_of(alloc, (&self.channel_ids, ()))
    }

    fn from_tree(alloc: Global, tree: Tree) -> Result<UnsubscribeChannels, NoMemory> {
        let (channel_ids, ()) = fields_of(alloc, tree)?;
        Ok(UnsubscribeChannels { channel_ids })
    }
}

impl InTree for SubscriptionsStopped {
    #[tactic(auto, unfolding(etp_schema::specs::Form::Holds))]
    fn to_tree(&self, alloc: Global) -> Result<Tree, NoMemory> {
        tree_of(alloc, (&self.reason, (&self.channel_ids, ())))
    }

    fn from_tree(alloc: Global, tree: Tree) -> Result<SubscriptionsStopped, NoMemory> {
        let (reason, (channel_ids, ())) = fields_of(alloc, tree)?;
        Ok(SubscriptionsStopped {
            reason,
            channel_ids,
        })
    }
}

impl InTree for SubscribeChannelsResponse {
    #[tactic(auto, unfolding(etp_schema::specs::Form::Holds))]
    fn to_tree(&self, alloc: Global) -> Result<Tree, NoMemory> {
        tree_of(alloc, (&self.success, ()))
    }

    fn from_tree(alloc: Global, tree: Tree) -> Result<SubscribeChannelsResponse, NoMemory> {
        let (success, ()) = fields_of(alloc, tree)?;
        Ok(SubscribeChannelsResponse { success })
    }
}

impl BodyInTree for ChannelSubscribeMessage {
    ghost use Rattle.msg_channel.specs.ChannelSubscribe.{channel_subscribe_body, channel_subscribe_kinds};

    ghost body = { channel_subscribe_body };

    ghost kinds = { channel_subscribe_kinds };

    #[tactic(auto, unfolding(etp_schema::specs::Form::Holds))]
    fn to_tree(&self, alloc: Global) -> Result<Tree, NoMemory> {
        match self {
            ChannelSubscribeMessage::GetChannelMetadata(message) => message.to_tree(alloc),
            ChannelSubscribeMessage::GetChannelMetadataResponse(message) => message.to_tree(alloc),
            ChannelSubscribeMessage::SubscribeChannels(message) => message.to_tree(alloc),
            ChannelSubscribeMessage::ChannelData(message) => message.to_tree(alloc),
            ChannelSubscribeMessage::RangeReplaced(message) => message.to_tree(alloc),
            ChannelSubscribeMessage::UnsubscribeChannels(message) => message.to_tree(alloc),
            ChannelSubscribeMessage::SubscriptionsStopped(message) => message.to_tree(alloc),
            ChannelSubscribeMessage::GetRanges(message) => message.to_tree(alloc),
            ChannelSubscribeMessage::GetRangesResponse(message) => message.to_tree(alloc),
            ChannelSubscribeMessage::SubscribeChannelsResponse(message) => message.to_tree(alloc),
            ChannelSubscribeMessage::ChannelsTruncated(message) => message.to_tree(alloc),
        }
    }

    fn from_tree(
        alloc: Global,
        kind: i32,
        tree: Tree,
    ) -> Result<Option<ChannelSubscribeMessage>, NoMemory> {
        match kind {
            1 => Ok(Some(ChannelSubscribeMessage::GetChannelMetadata(GetChannelMetadata::from_tree(
                alloc, tree,
            )?))),
            2 => Ok(Some(ChannelSubscribeMessage::GetChannelMetadataResponse(
                GetChannelMetadataResponse::from_tree(alloc, tree)?,
            ))),
            3 => Ok(Some(ChannelSubscribeMessage::SubscribeChannels(SubscribeChannels::from_tree(
                alloc, tree,
            )?))),
            4 => Ok(Some(ChannelSubscribeMessage::ChannelData(ChannelData::from_tree(
                alloc, tree,
            )?))),
            6 => Ok(Some(ChannelSubscribeMessage::RangeReplaced(RangeReplaced::from_tree(
                alloc, tree,
            )?))),
            7 => Ok(Some(ChannelSubscribeMessage::UnsubscribeChannels(
                UnsubscribeChannels::from_tree(alloc, tree)?,
            ))),
            8 => Ok(Some(ChannelSubscribeMessage::SubscriptionsStopped(
                SubscriptionsStopped::from_tree(alloc, tree)?,
            ))),
            9 => Ok(Some(ChannelSubscribeMessage::GetRanges(GetRanges::from_tree(alloc, tree)?))),
            10 => Ok(Some(ChannelSubscribeMessage::GetRangesResponse(GetRangesResponse::from_tree(
                alloc, tree,
            )?))),
            12 => Ok(Some(ChannelSubscribeMessage::SubscribeChannelsResponse(
                SubscribeChannelsResponse::from_tree(alloc, tree)?,
            ))),
            13 => Ok(Some(ChannelSubscribeMessage::ChannelsTruncated(ChannelsTruncated::from_tree(
                alloc, tree,
            )?))),
            _ => Ok(None),
        }
    }
}
