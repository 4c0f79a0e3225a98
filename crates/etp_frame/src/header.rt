//! The header of a message.
ghost use Rattle.std.specs.Prelude.{◌≡◌, ◌↔◌, IsTrue};
ghost use Rattle.etp_frame.specs.Header.{has_flag};
ghost use Rattle.etp_frame.specs.Message.{Names};

use crate::message::Message;
use avro_bin::Fault;
use etp_schema::{Measure, OnWire, Reader, Typed, measure_fields, write_fields};
use etp_values::NoMemory;

/// What comes before each body.
#[derive(Clone, Copy, Debug, PartialEq, Eq, Drop)]
pub struct Header {
    /// The number of the message's protocol.
    pub protocol: i32,
    /// The message's number in the protocol.
    pub kind: i32,
    /// The id of the message that this one answers, or 0.
    pub correlation: i64,
    /// The message's own id.
    pub id: i64,
    /// The bits of [`flags`](crate::flags).
    pub flags: i32,
}

impl Typed for Header {
    ghost use Rattle.etp_frame.specs.Header.{header_form};

    ghost form = { header_form };
}

impl OnWire for Header {
    #[tactic(auto, using(etp_schema::proofs::RecordLemmas::record_read, etp_schema::proofs::RecordLemmas::record_fails))]
    fn read(from: &mut Reader<'_>) -> Result<Header, Fault> {
        let (protocol, (kind, (correlation, (id, (flags, ()))))) = from.fields()?;
        Ok(Header {
            protocol,
            kind,
            correlation,
            id,
            flags,
        })
    }

    #[tactic(auto, unfolding(etp_schema::specs::Form::Holds))]
    fn write(&self, into: &mut Vec<u8>) -> Result<(), NoMemory> {
        write_fields(
            (
                &self.protocol,
                (
                    &self.kind,
                    (&self.correlation, (&self.id, (&self.flags, ()))),
                ),
            ),
            into,
        )
    }

    fn measure(&self) -> Measure {
        measure_fields((
            &self.protocol,
            (
                &self.kind,
                (&self.correlation, (&self.id, (&self.flags, ()))),
            ),
        ))
    }
}

impl Header {
    /// Whether one of these bits is set.
    pub fn has_flag(&self, flag: i32) -> bool
        ensures { result ≡ has_flag self.now.flags flag }
    {
        self.flags & flag != 0
    }

    /// Whether the header names this message: by its number, and by a protocol that has it.
    pub fn names(&self, message: &Message) -> bool
        ensures { IsTrue result ↔ Names self.now message.now }
    {
        self.kind == message.kind() && message.is_of(self.protocol)
    }
}
