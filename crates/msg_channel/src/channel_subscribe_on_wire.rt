//! The messages of the ChannelSubscribe protocol, with their records, from and to bytes.
//!
//! `schema/write` writes all below the imports from `schema/messages.txt`.
ghost use Rattle.std.specs.Prelude.{◌≡◌, OnOk};
ghost use Rattle.avro_bin.specs.Plain.{plain, Writes};
ghost use Rattle.avro_bin.specs.Shape.{HasSchema, FitsTree};
ghost use Rattle.etp_schema.specs.Family.{kind_in};
ghost use Rattle.etp_schema.specs.Measure.{measured};
ghost use Rattle.etp_schema.specs.Reading.{Reads, kind_at};
ghost use Rattle.msg_channel.specs.ChannelSubscribe.{channel_subscribe_body, channel_subscribe_kinds};

use crate::channel_subscribe_messages::{
    ChannelData, ChannelSubscribeInfo, ChannelSubscribeMessage, GetChannelMetadata,
    GetChannelMetadataResponse, SubscribeChannels, SubscribeChannelsResponse, SubscriptionsStopped,
    UnsubscribeChannels,
};
use avro_bin::Fault;
use etp_schema::{Measure, OnWire, Reader, measure_fields, write_fields};
use etp_values::NoMemory;

impl OnWire for ChannelSubscribeInfo {
    #[tactic(auto, using(etp_schema::proofs::RecordLemmas::record_read, etp_schema::proofs::RecordLemmas::record_fails))]
    fn read(from: &mut Reader<'_>) -> Result<ChannelSubscribeInfo, Fault> {
        let (channel_id, (start_index, (data_changes, (request_latest_index_count, ())))) =
            from.fields()?;
        Ok(ChannelSubscribeInfo {
            channel_id,
            start_index,
            data_changes,
            request_latest_index_count,
        })
    }

    #[tactic(auto, unfolding(etp_schema::specs::Form::Holds))]
    fn write(&self, into: &mut Vec<u8>) -> Result<(), NoMemory> {
        write_fields(
            (
                &self.channel_id,
                (
                    &self.start_index,
                    (&self.data_changes, (&self.request_latest_index_count, ())),
                ),
            ),
            into,
        )
    }

    fn measure(&self) -> Measure {
        measure_fields((
            &self.channel_id,
            (
                &self.start_index,
                (&self.data_changes, (&self.request_latest_index_count, ())),
            ),
        ))
    }
}

impl OnWire for GetChannelMetadata {
    #[tactic(auto, using(etp_schema::proofs::RecordLemmas::record_read, etp_schema::proofs::RecordLemmas::record_fails))]
    fn read(from: &mut Reader<'_>) -> Result<GetChannelMetadata, Fault> {
        let (uris, ()) = from.fields()?;
        Ok(GetChannelMetadata { uris })
    }

    #[tactic(auto, unfolding(etp_schema::specs::Form::Holds))]
    fn write(&self, into: &mut Vec<u8>) -> Result<(), NoMemory> {
        write_fields((&self.uris, ()), into)
    }

    fn measure(&self) -> Measure {
        measure_fields((&self.uris, ()))
    }
}

impl OnWire for GetChannelMetadataResponse {
    #[tactic(auto, using(etp_schema::proofs::RecordLemmas::record_read, etp_schema::proofs::RecordLemmas::record_fails))]
    fn read(from: &mut Reader<'_>) -> Result<GetChannelMetadataResponse, Fault> {
        let (metadata, ()) = from.fields()?;
        Ok(GetChannelMetadataResponse { metadata })
    }

    #[tactic(auto, unfolding(etp_schema::specs::Form::Holds))]
    fn write(&self, into: &mut Vec<u8>) -> Result<(), NoMemory> {
        write_fields((&self.metadata, ()), into)
    }

    fn measure(&self) -> Measure {
        measure_fields((&self.metadata, ()))
    }
}

impl OnWire for SubscribeChannels {
    #[tactic(auto, using(etp_schema::proofs::RecordLemmas::record_read, etp_schema::proofs::RecordLemmas::record_fails))]
    fn read(from: &mut Reader<'_>) -> Result<SubscribeChannels, Fault> {
        let (channels, ()) = from.fields()?;
        Ok(SubscribeChannels { channels })
    }

    #[tactic(auto, unfolding(etp_schema::specs::Form::Holds))]
    fn write(&self, into: &mut Vec<u8>) -> Result<(), NoMemory> {
        write_fields((&self.channels, ()), into)
    }

    fn measure(&self) -> Measure {
        measure_fields((&self.channels, ()))
    }
}

impl OnWire for ChannelData {
    #[tactic(auto, using(etp_schema::proofs::RecordLemmas::record_read, etp_schema::proofs::RecordLemmas::record_fails))]
    fn read(from: &mut Reader<'_>) -> Result<ChannelData, Fault> {
        let (payload, ()) = from.fields()?;
        Ok(ChannelData { payload })
    }

    #[tactic(auto, unfolding(etp_schema::specs::Form::Holds))]
    fn write(&self, into: &mut Vec<u8>) -> Result<(), NoMemory> {
        write_fields((&self.payload, ()), into)
    }

    fn measure(&self) -> Measure {
        measure_fields((&self.payload, ()))
    }
}

impl OnWire for UnsubscribeChannels {
    #[tactic(auto, using(etp_schema::proofs::RecordLemmas::record_read, etp_schema::proofs::RecordLemmas::record_fails))]
    fn read(from: &mut Reader<'_>) -> Result<UnsubscribeChannels, Fault> {
        let (channel_ids, ()) = from.fields()?;
        Ok(UnsubscribeChannels { channel_ids })
    }

    #[tactic(auto, unfolding(etp_schema::specs::Form::Holds))]
    fn write(&self, into: &mut Vec<u8>) -> Result<(), NoMemory> {
        write_fields((&self.channel_ids, ()), into)
    }

    fn measure(&self) -> Measure {
        measure_fields((&self.channel_ids, ()))
    }
}

impl OnWire for SubscriptionsStopped {
    #[tactic(auto, using(etp_schema::proofs::RecordLemmas::record_read, etp_schema::proofs::RecordLemmas::record_fails))]
    fn read(from: &mut Reader<'_>) -> Result<SubscriptionsStopped, Fault> {
        let (reason, (channel_ids, ())) = from.fields()?;
        Ok(SubscriptionsStopped {
            reason,
            channel_ids,
        })
    }

    #[tactic(auto, unfolding(etp_schema::specs::Form::Holds))]
    fn write(&self, into: &mut Vec<u8>) -> Result<(), NoMemory> {
        write_fields((&self.reason, (&self.channel_ids, ())), into)
    }

    fn measure(&self) -> Measure {
        measure_fields((&self.reason, (&self.channel_ids, ())))
    }
}

impl OnWire for SubscribeChannelsResponse {
    #[tactic(auto, using(etp_schema::proofs::RecordLemmas::record_read, etp_schema::proofs::RecordLemmas::record_fails))]
    fn read(from: &mut Reader<'_>) -> Result<SubscribeChannelsResponse, Fault> {
        let (success, ()) = from.fields()?;
        Ok(SubscribeChannelsResponse { success })
    }

    #[tactic(auto, unfolding(etp_schema::specs::Form::Holds))]
    fn write(&self, into: &mut Vec<u8>) -> Result<(), NoMemory> {
        write_fields((&self.success, ()), into)
    }

    fn measure(&self) -> Measure {
        measure_fields((&self.success, ()))
    }
}

impl ChannelSubscribeMessage {
    /// The message of this number whose body is at the front of the rest, if the protocol has one.
    pub fn read(from: &mut Reader<'_>, kind: i32) -> Result<Option<ChannelSubscribeMessage>, Fault>
        ensures { Reads (kind_at (kind_in channel_subscribe_kinds kind) from.old.left from.old.rest.now) result from.new }
    {
        match kind {
            1 => Ok(Some(ChannelSubscribeMessage::GetChannelMetadata(from.take()?))),
            2 => Ok(Some(ChannelSubscribeMessage::GetChannelMetadataResponse(from.take()?))),
            3 => Ok(Some(ChannelSubscribeMessage::SubscribeChannels(from.take()?))),
            4 => Ok(Some(ChannelSubscribeMessage::ChannelData(from.take()?))),
            6 => Ok(Some(ChannelSubscribeMessage::RangeReplaced(from.take()?))),
            7 => Ok(Some(ChannelSubscribeMessage::UnsubscribeChannels(from.take()?))),
            8 => Ok(Some(ChannelSubscribeMessage::SubscriptionsStopped(from.take()?))),
            9 => Ok(Some(ChannelSubscribeMessage::GetRanges(from.take()?))),
            10 => Ok(Some(ChannelSubscribeMessage::GetRangesResponse(from.take()?))),
            12 => Ok(Some(ChannelSubscribeMessage::SubscribeChannelsResponse(from.take()?))),
            13 => Ok(Some(ChannelSubscribeMessage::ChannelsTruncated(from.take()?))),
            _ => Ok(None),
        }
    }

    /// Appends the written spelling of the body. After `NoMemory` what was there is still at the front.
    #[tactic(auto, unfolding(etp_schema::specs::Form::Holds))]
    pub fn write(&self, into: &mut Vec<u8>) -> Result<(), NoMemory>
        ensures written { Writes (plain (channel_subscribe_body self.now).value) into.old.items into.new.items result }
        ensures typed { OnOk result (HasSchema (channel_subscribe_body self.now).schema (channel_subscribe_body self.now).value) }
        ensures fits { OnOk result (FitsTree (channel_subscribe_body self.now).value) }
    {
        match self {
            ChannelSubscribeMessage::GetChannelMetadata(message) => message.write(into),
            ChannelSubscribeMessage::GetChannelMetadataResponse(message) => message.write(into),
            ChannelSubscribeMessage::SubscribeChannels(message) => message.write(into),
            ChannelSubscribeMessage::ChannelData(message) => message.write(into),
            ChannelSubscribeMessage::RangeReplaced(message) => message.write(into),
            ChannelSubscribeMessage::UnsubscribeChannels(message) => message.write(into),
            ChannelSubscribeMessage::SubscriptionsStopped(message) => message.write(into),
            ChannelSubscribeMessage::GetRanges(message) => message.write(into),
            ChannelSubscribeMessage::GetRangesResponse(message) => message.write(into),
            ChannelSubscribeMessage::SubscribeChannelsResponse(message) => message.write(into),
            ChannelSubscribeMessage::ChannelsTruncated(message) => message.write(into),
        }
    }

    /// How much of a message the body takes. It does not allocate.
    pub fn measure(&self) -> Measure
        ensures { result ≡ measured (channel_subscribe_body self.now).value }
    {
        match self {
            ChannelSubscribeMessage::GetChannelMetadata(message) => message.measure(),
            ChannelSubscribeMessage::GetChannelMetadataResponse(message) => message.measure(),
            ChannelSubscribeMessage::SubscribeChannels(message) => message.measure(),
            ChannelSubscribeMessage::ChannelData(message) => message.measure(),
            ChannelSubscribeMessage::RangeReplaced(message) => message.measure(),
            ChannelSubscribeMessage::UnsubscribeChannels(message) => message.measure(),
            ChannelSubscribeMessage::SubscriptionsStopped(message) => message.measure(),
            ChannelSubscribeMessage::GetRanges(message) => message.measure(),
            ChannelSubscribeMessage::GetRangesResponse(message) => message.measure(),
            ChannelSubscribeMessage::SubscribeChannelsResponse(message) => message.measure(),
            ChannelSubscribeMessage::ChannelsTruncated(message) => message.measure(),
        }
    }
}
