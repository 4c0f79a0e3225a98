//! The messages that name intervals or ends of channels, from and to bytes.
//!
//! `schema/write` writes all below the imports from `schema/messages.txt`.

use crate::channel_ranges::{
    ChannelRangeInfo, ChannelsTruncated, GetRanges, GetRangesResponse, RangeReplaced,
};
use avro_bin::Fault;
use etp_schema::{Measure, OnWire, Reader, measure_fields, write_fields};
use etp_values::NoMemory;

impl OnWire for ChannelRangeInfo {
    #[tactic(auto, using(etp_schema::proofs::RecordLemmas::record_read, etp_schema::proofs::RecordLemmas::record_fails))]
    fn read(from: &mut Reader<'_>) -> Result<ChannelRangeInfo, Fault> {
        let (channel_ids, (interval, (secondary_intervals, ()))) = from.fields()?;
        Ok(ChannelRangeInfo {
            channel_ids,
            interval,
            secondary_intervals,
        })
    }

    #[tactic(auto, unfolding(etp_schema::specs::Form::Holds))]
    fn write(&self, into: &mut Vec<u8>) -> Result<(), NoMemory> {
        write_fields(
            (
                &self.channel_ids,
                (&self.interval, (&self.secondary_intervals, ())),
            ),
            into,
        )
    }

    fn measure(&self) -> Measure {
        measure_fields((
            &self.channel_ids,
            (&self.interval, (&self.secondary_intervals, ())),
        ))
    }
}

impl OnWire for GetRanges {
    #[tactic(auto, using(etp_schema::proofs::RecordLemmas::record_read, etp_schema::proofs::RecordLemmas::record_fails))]
    fn read(from: &mut Reader<'_>) -> Result<GetRanges, Fault> {
        let (request_uuid, (channel_ranges, ())) = from.fields()?;
        Ok(GetRanges {
            request_uuid,
            channel_ranges,
        })
    }

    #[tactic(auto, unfolding(etp_schema::specs::Form::Holds))]
    fn write(&self, into: &mut Vec<u8>) -> Result<(), NoMemory> {
        write_fields((&self.request_uuid, (&self.channel_ranges, ())), into)
    }

    fn measure(&self) -> Measure {
        measure_fields((&self.request_uuid, (&self.channel_ranges, ())))
    }
}

impl OnWire for GetRangesResponse {
    #[tactic(auto, using(etp_schema::proofs::RecordLemmas::record_read, etp_schema::proofs::RecordLemmas::record_fails))]
    fn read(from: &mut Reader<'_>) -> Result<GetRangesResponse, Fault> {
        let (payload, ()) = from.fields()?;
        Ok(GetRangesResponse { payload })
    }

    #[tactic(auto, unfolding(etp_schema::specs::Form::Holds))]
    fn write(&self, into: &mut Vec<u8>) -> Result<(), NoMemory> {
        write_fields((&self.payload, ()), into)
    }

    fn measure(&self) -> Measure {
        measure_fields((&self.payload, ()))
    }
}

impl OnWire for RangeReplaced {
    #[tactic(auto, using(etp_schema::proofs::RecordLemmas::record_read, etp_schema::proofs::RecordLemmas::record_fails))]
    fn read(from: &mut Reader<'_>) -> Result<RangeReplaced, Fault> {
        let (change_time, (channel_ids, (changed_interval, (payload, ())))) = from.fields()?;
        Ok(RangeReplaced {
            change_time,
            channel_ids,
            changed_interval,
            payload,
        })
    }

    #[tactic(auto, unfolding(etp_schema::specs::Form::Holds))]
    fn write(&self, into: &mut Vec<u8>) -> Result<(), NoMemory> {
        write_fields(
            (
                &self.change_time,
                (
                    &self.channel_ids,
                    (&self.changed_interval, (&self.payload, ())),
                ),
            ),
            into,
        )
    }

    fn measure(&self) -> Measure {
        measure_fields((
            &self.change_time,
            (
                &self.channel_ids,
                (&self.changed_interval, (&self.payload, ())),
            ),
        ))
    }
}

impl OnWire for ChannelsTruncated {
    #[tactic(auto, using(etp_schema::proofs::RecordLemmas::record_read, etp_schema::proofs::RecordLemmas::record_fails))]
    fn read(from: &mut Reader<'_>) -> Result<ChannelsTruncated, Fault> {
        let (change_time, (channels, ())) = from.fields()?;
        Ok(ChannelsTruncated {
            change_time,
            channels,
        })
    }

    #[tactic(auto, unfolding(etp_schema::specs::Form::Holds))]
    fn write(&self, into: &mut Vec<u8>) -> Result<(), NoMemory> {
        write_fields((&self.change_time, (&self.channels, ())), into)
    }

    fn measure(&self) -> Measure {
        measure_fields((&self.change_time, (&self.channels, ())))
    }
}
