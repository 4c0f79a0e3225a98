//! The messages of the Core protocol, with their records, from and to bytes.
//!
//! `schema/write` writes all below the imports from `schema/messages.txt`.
ghost use Rattle.std.specs.Prelude.{◌≡◌, OnOk};
ghost use Rattle.avro_bin.specs.Plain.{plain, Writes};
ghost use Rattle.avro_bin.specs.Shape.{HasSchema, FitsTree};
ghost use Rattle.etp_schema.specs.Family.{kind_in};
ghost use Rattle.etp_schema.specs.Measure.{measured};
ghost use Rattle.etp_schema.specs.Reading.{Reads, kind_at};
ghost use Rattle.msg_core.specs.Core.{core_body, core_kinds};

use crate::core_messages::{
    Acknowledge, CloseSession, CoreMessage, ErrorInfo, OpenSession, Ping, Pong, ProtocolException,
    RequestSession, SupportedDataObject, SupportedProtocol, Version,
};
use avro_bin::Fault;
use etp_schema::{Measure, OnWire, Reader, measure_fields, write_fields};
use etp_values::NoMemory;

impl OnWire for Version {
    #[tactic(auto, using(etp_schema::proofs::RecordLemmas::record_read, etp_schema::proofs::RecordLemmas::record_fails))]
    fn read(from: &mut Reader<'_>) -> Result<Version, Fault> {
        let (major, (minor, (revision, (patch, ())))) = from.fields()?;
        Ok(Version {
            major,
            minor,
            revision,
            patch,
        })
    }

    #[tactic(auto, unfolding(etp_schema::specs::Form::Holds))]
    fn write(&self, into: &mut Vec<u8>) -> Result<(), NoMemory> {
        write_fields(
            (
                &self.major,
                (&self.minor, (&self.revision, (&self.patch, ()))),
            ),
            into,
        )
    }

    fn measure(&self) -> Measure {
        measure_fields((
            &self.major,
            (&self.minor, (&self.revision, (&self.patch, ()))),
        ))
    }
}

impl OnWire for SupportedProtocol {
    #[tactic(auto, using(etp_schema::proofs::RecordLemmas::record_read, etp_schema::proofs::RecordLemmas::record_fails))]
    fn read(from: &mut Reader<'_>) -> Result<SupportedProtocol, Fault> {
        let (protocol, (protocol_version, (role, (protocol_capabilities, ())))) = from.fields()?;
        Ok(SupportedProtocol {
            protocol,
            protocol_version,
            role,
            protocol_capabilities,
        })
    }

    #[tactic(auto, unfolding(etp_schema::specs::Form::Holds))]
    fn write(&self, into: &mut Vec<u8>) -> Result<(), NoMemory> {
        write_fields(
            (
                &self.protocol,
                (
                    &self.protocol_version,
                    (&self.role, (&self.protocol_capabilities, ())),
                ),
            ),
            into,
        )
    }

    fn measure(&self) -> Measure {
        measure_fields((
            &self.protocol,
            (
                &self.protocol_version,
                (&self.role, (&self.protocol_capabilities, ())),
            ),
        ))
    }
}

impl OnWire for SupportedDataObject {
    #[tactic(auto, using(etp_schema::proofs::RecordLemmas::record_read, etp_schema::proofs::RecordLemmas::record_fails))]
    fn read(from: &mut Reader<'_>) -> Result<SupportedDataObject, Fault> {
        let (qualified_type, (data_object_capabilities, ())) = from.fields()?;
        Ok(SupportedDataObject {
            qualified_type,
            data_object_capabilities,
        })
    }

    #[tactic(auto, unfolding(etp_schema::specs::Form::Holds))]
    fn write(&self, into: &mut Vec<u8>) -> Result<(), NoMemory> {
        write_fields(
            (&self.qualified_type, (&self.data_object_capabilities, ())),
            into,
        )
    }

    fn measure(&self) -> Measure {
        measure_fields((&self.qualified_type, (&self.data_object_capabilities, ())))
    }
}

impl OnWire for ErrorInfo {
    #[tactic(auto, using(etp_schema::proofs::RecordLemmas::record_read, etp_schema::proofs::RecordLemmas::record_fails))]
    fn read(from: &mut Reader<'_>) -> Result<ErrorInfo, Fault> {
        let (message, (code, ())) = from.fields()?;
        Ok(ErrorInfo { message, code })
    }

    #[tactic(auto, unfolding(etp_schema::specs::Form::Holds))]
    fn write(&self, into: &mut Vec<u8>) -> Result<(), NoMemory> {
        write_fields((&self.message, (&self.code, ())), into)
    }

    fn measure(&self) -> Measure {
        measure_fields((&self.message, (&self.code, ())))
    }
}

impl OnWire for RequestSession {
    #[tactic(auto, using(etp_schema::proofs::RecordLemmas::record_read, etp_schema::proofs::RecordLemmas::record_fails))]
    fn read(from: &mut Reader<'_>) -> Result<RequestSession, Fault> {
        let (
            application_name,
            (
                application_version,
                (
                    client_instance_id,
                    (
                        requested_protocols,
                        (
                            supported_data_objects,
                            (
                                supported_compression,
                                (
                                    supported_formats,
                                    (
                                        current_date_time,
                                        (
                                            earliest_retained_change_time,
                                            (
                                                server_authorization_required,
                                                (endpoint_capabilities, ()),
                                            ),
                                        ),
                                    ),
                                ),
                            ),
                        ),
                    ),
                ),
            ),
        ) = from.fields()?;
        Ok(RequestSession {
            application_name,
            application_version,
            client_instance_id,
            requested_protocols,
            supported_data_objects,
            supported_compression,
            supported_formats,
            current_date_time,
            earliest_retained_change_time,
            server_authorization_required,
            endpoint_capabilities,
        })
    }

    #[tactic(auto, unfolding(etp_schema::specs::Form::Holds))]
    fn write(&self, into: &mut Vec<u8>) -> Result<(), NoMemory> {
        write_fields(
            (
                &self.application_name,
                (
                    &self.application_version,
                    (
                        &self.client_instance_id,
                        (
                            &self.requested_protocols,
                            (
                                &self.supported_data_objects,
                                (
                                    &self.supported_compression,
                                    (
                                        &self.supported_formats,
                                        (
                                            &self.current_date_time,
                                            (
                                                &self.earliest_retained_change_time,
                                                (
                                                    &self.server_authorization_required,
                                                    (&self.endpoint_capabilities, ()),
                                                ),
                                            ),
                                        ),
                                    ),
                                ),
                            ),
                        ),
                    ),
                ),
            ),
            into,
        )
    }

    fn measure(&self) -> Measure {
        measure_fields((
            &self.application_name,
            (
                &self.application_version,
                (
                    &self.client_instance_id,
                    (
                        &self.requested_protocols,
                        (
                            &self.supported_data_objects,
                            (
                                &self.supported_compression,
                                (
                                    &self.supported_formats,
                                    (
                                        &self.current_date_time,
                                        (
                                            &self.earliest_retained_change_time,
                                            (
                                                &self.server_authorization_required,
                                                (&self.endpoint_capabilities, ()),
                                            ),
                                        ),
                                    ),
                                ),
                            ),
                        ),
                    ),
                ),
            ),
        ))
    }
}

impl OnWire for OpenSession {
    #[tactic(auto, using(etp_schema::proofs::RecordLemmas::record_read, etp_schema::proofs::RecordLemmas::record_fails))]
    fn read(from: &mut Reader<'_>) -> Result<OpenSession, Fault> {
        let (
            application_name,
            (
                application_version,
                (
                    server_instance_id,
                    (
                        supported_protocols,
                        (
                            supported_data_objects,
                            (
                                supported_compression,
                                (
                                    supported_formats,
                                    (
                                        current_date_time,
                                        (
                                            earliest_retained_change_time,
                                            (session_id, (endpoint_capabilities, ())),
                                        ),
                                    ),
                                ),
                            ),
                        ),
                    ),
                ),
            ),
        ) = from.fields()?;
        Ok(OpenSession {
            application_name,
            application_version,
            server_instance_id,
            supported_protocols,
            supported_data_objects,
            supported_compression,
            supported_formats,
            current_date_time,
            earliest_retained_change_time,
            session_id,
            endpoint_capabilities,
        })
    }

    #[tactic(auto, unfolding(etp_schema::specs::Form::Holds))]
    fn write(&self, into: &mut Vec<u8>) -> Result<(), NoMemory> {
        write_fields(
            (
                &self.application_name,
                (
                    &self.application_version,
                    (
                        &self.server_instance_id,
                        (
                            &self.supported_protocols,
                            (
                                &self.supported_data_objects,
                                (
                                    &self.supported_compression,
                                    (
                                        &self.supported_formats,
                                        (
                                            &self.current_date_time,
                                            (
                                                &self.earliest_retained_change_time,
                                                (
                                                    &self.session_id,
                                                    (&self.endpoint_capabilities, ()),
                                                ),
                                            ),
                                        ),
                                    ),
                                ),
                            ),
                        ),
                    ),
                ),
            ),
            into,
        )
    }

    fn measure(&self) -> Measure {
        measure_fields((
            &self.application_name,
            (
                &self.application_version,
                (
                    &self.server_instance_id,
                    (
                        &self.supported_protocols,
                        (
                            &self.supported_data_objects,
                            (
                                &self.supported_compression,
                                (
                                    &self.supported_formats,
                                    (
                                        &self.current_date_time,
                                        (
                                            &self.earliest_retained_change_time,
                                            (&self.session_id, (&self.endpoint_capabilities, ())),
                                        ),
                                    ),
                                ),
                            ),
                        ),
                    ),
                ),
            ),
        ))
    }
}

impl OnWire for CloseSession {
    #[tactic(auto, using(etp_schema::proofs::RecordLemmas::record_read, etp_schema::proofs::RecordLemmas::record_fails))]
    fn read(from: &mut Reader<'_>) -> Result<CloseSession, Fault> {
        let (reason, ()) = from.fields()?;
        Ok(CloseSession { reason })
    }

    #[tactic(auto, unfolding(etp_schema::specs::Form::Holds))]
    fn write(&self, into: &mut Vec<u8>) -> Result<(), NoMemory> {
        write_fields((&self.reason, ()), into)
    }

    fn measure(&self) -> Measure {
        measure_fields((&self.reason, ()))
    }
}

impl OnWire for Ping {
    #[tactic(auto, using(etp_schema::proofs::RecordLemmas::record_read, etp_schema::proofs::RecordLemmas::record_fails))]
    fn read(from: &mut Reader<'_>) -> Result<Ping, Fault> {
        let (current_date_time, ()) = from.fields()?;
        Ok(Ping { current_date_time })
    }

    #[tactic(auto, unfolding(etp_schema::specs::Form::Holds))]
    fn write(&self, into: &mut Vec<u8>) -> Result<(), NoMemory> {
        write_fields((&self.current_date_time, ()), into)
    }

    fn measure(&self) -> Measure {
        measure_fields((&self.current_date_time, ()))
    }
}

impl OnWire for Pong {
    #[tactic(auto, using(etp_schema::proofs::RecordLemmas::record_read, etp_schema::proofs::RecordLemmas::record_fails))]
    fn read(from: &mut Reader<'_>) -> Result<Pong, Fault> {
        let (current_date_time, ()) = from.fields()?;
        Ok(Pong { current_date_time })
    }

    #[tactic(auto, unfolding(etp_schema::specs::Form::Holds))]
    fn write(&self, into: &mut Vec<u8>) -> Result<(), NoMemory> {
        write_fields((&self.current_date_time, ()), into)
    }

    fn measure(&self) -> Measure {
        measure_fields((&self.current_date_time, ()))
    }
}

impl OnWire for ProtocolException {
    #[tactic(auto, using(etp_schema::proofs::RecordLemmas::record_read, etp_schema::proofs::RecordLemmas::record_fails))]
    fn read(from: &mut Reader<'_>) -> Result<ProtocolException, Fault> {
        let (error, (errors, ())) = from.fields()?;
        Ok(ProtocolException { error, errors })
    }

    #[tactic(auto, unfolding(etp_schema::specs::Form::Holds))]
    fn write(&self, into: &mut Vec<u8>) -> Result<(), NoMemory> {
        write_fields((&self.error, (&self.errors, ())), into)
    }

    fn measure(&self) -> Measure {
        measure_fields((&self.error, (&self.errors, ())))
    }
}

impl OnWire for Acknowledge {
    #[tactic(auto, using(etp_schema::proofs::RecordLemmas::record_read, etp_schema::proofs::RecordLemmas::record_fails))]
    fn read(from: &mut Reader<'_>) -> Result<Acknowledge, Fault> {
        let () = from.fields()?;
        Ok(Acknowledge)
    }

    #[tactic(auto, unfolding(etp_schema::specs::Form::Holds))]
    fn write(&self, into: &mut Vec<u8>) -> Result<(), NoMemory> {
        write_fields((), into)
    }

    fn measure(&self) -> Measure {
        measure_fields(())
    }
}

impl CoreMessage {
    /// The message of this number whose body is at the front of the rest, if the protocol has one.
    pub fn read(from: &mut Reader<'_>, kind: i32) -> Result<Option<CoreMessage>, Fault>
        ensures { Reads (kind_at (kind_in core_kinds kind) from.old.left from.old.rest.now) result from.new }
    {
        match kind {
            1 => Ok(Some(CoreMessage::RequestSession(from.take()?))),
            2 => Ok(Some(CoreMessage::OpenSession(from.take()?))),
            5 => Ok(Some(CoreMessage::CloseSession(from.take()?))),
            8 => Ok(Some(CoreMessage::Ping(from.take()?))),
            9 => Ok(Some(CoreMessage::Pong(from.take()?))),
            1000 => Ok(Some(CoreMessage::ProtocolException(from.take()?))),
            1001 => Ok(Some(CoreMessage::Acknowledge(from.take()?))),
            _ => Ok(None),
        }
    }

    /// Appends the written spelling of the body. After `NoMemory` what was there is still at the front.
    #[tactic(auto, unfolding(etp_schema::specs::Form::Holds))]
    pub fn write(&self, into: &mut Vec<u8>) -> Result<(), NoMemory>
        ensures written { Writes (plain (core_body self.now).value) into.old.items into.new.items result }
        ensures typed { OnOk result (HasSchema (core_body self.now).schema (core_body self.now).value) }
        ensures fits { OnOk result (FitsTree (core_body self.now).value) }
    {
        match self {
            CoreMessage::RequestSession(message) => message.write(into),
            CoreMessage::OpenSession(message) => message.write(into),
            CoreMessage::CloseSession(message) => message.write(into),
            CoreMessage::Ping(message) => message.write(into),
            CoreMessage::Pong(message) => message.write(into),
            CoreMessage::ProtocolException(message) => message.write(into),
            CoreMessage::Acknowledge(message) => message.write(into),
        }
    }

    /// How much of a message the body takes. It does not allocate.
    pub fn measure(&self) -> Measure
        ensures { result ≡ measured (core_body self.now).value }
    {
        match self {
            CoreMessage::RequestSession(message) => message.measure(),
            CoreMessage::OpenSession(message) => message.measure(),
            CoreMessage::CloseSession(message) => message.measure(),
            CoreMessage::Ping(message) => message.measure(),
            CoreMessage::Pong(message) => message.measure(),
            CoreMessage::ProtocolException(message) => message.measure(),
            CoreMessage::Acknowledge(message) => message.measure(),
        }
    }
}
