//! The messages of the Core protocol as trees.
//!
//! `schema/write` writes all below the imports from `schema/messages.txt`.
ghost use Rattle.msg_core.specs.Core.{core_body, core_kinds};

use crate::body_in_tree::BodyInTree;
use crate::in_tree::InTree;
use crate::record_fields::{fields_of, tree_of};
use avro_bin::Tree;
use etp_values::NoMemory;
use msg_core::{
    Acknowledge, CloseSession, CoreMessage, ErrorInfo, OpenSession, Ping, Pong, ProtocolException,
    RequestSession, SupportedDataObject, SupportedProtocol, Version,
};
use std::alloc::Global;

impl InTree for Version {
    #[tactic(auto, unfolding(etp_schema::specs::Form::Holds))]
    fn to_tree(&self, alloc: Global) -> Result<Tree, NoMemory> {
        tree_of(
            alloc,
            (
                &self.major,
                (&self.minor, (&self.revision, (&self.patch, ()))),
            ),
        )
    }

    fn from_tree(alloc: Global, tree: Tree) -> Result<Version, NoMemory> {
        let (major, (minor, (revision, (patch, ())))) = fields_of(alloc, tree)?;
        Ok(Version {
            major,
            minor,
            revision,
            patch,
        })
    }
}

impl InTree for SupportedProtocol {
    #[tactic(auto, unfolding(etp_schema::specs::Form::Holds))]
    fn to_tree(&self, alloc: Global) -> Result<Tree, NoMemory> {
        tree_of(
            alloc,
            (
                &self.protocol,
                (
                    &self.protocol_version,
                    (&self.role, (&self.protocol_capabilities, ())),
                ),
            ),
        )
    }

    fn from_tree(alloc: Global, tree: Tree) -> Result<SupportedProtocol, NoMemory> {
        let (protocol, (protocol_version, (role, (protocol_capabilities, ())))) = fields_of(
            alloc, tree,
        )?;
        Ok(SupportedProtocol {
            protocol,
            protocol_version,
            role,
            protocol_capabilities,
        })
    }
}

impl InTree for SupportedDataObject {
    #[tactic(auto, unfolding(etp_schema::specs::Form::Holds))]
    fn to_tree(&self, alloc: Global) -> Result<Tree, NoMemory> {
        tree_of(
            alloc,
            (&self.qualified_type, (&self.data_object_capabilities, ())),
        )
    }

    fn from_tree(alloc: Global, tree: Tree) -> Result<SupportedDataObject, NoMemory> {
        let (qualified_type, (data_object_capabilities, ())) = fields_of(alloc, tree)?;
        Ok(SupportedDataObject {
            qualified_type,
            data_object_capabilities,
        })
    }
}

impl InTree for ErrorInfo {
    #[tactic(auto, unfolding(etp_schema::specs::Form::Holds))]
    fn to_tree(&self, alloc: Global) -> Result<Tree, NoMemory> {
        tree_of(alloc, (&self.message, (&self.code, ())))
    }

    fn from_tree(alloc: Global, tree: Tree) -> Result<ErrorInfo, NoMemory> {
        let (message, (code, ())) = fields_of(alloc, tree)?;
        Ok(ErrorInfo { message, code })
    }
}

impl InTree for RequestSession {
    #[tactic(auto, unfolding(etp_schema::specs::Form::Holds))]
    fn to_tree(&self, alloc: Global) -> Result<Tree, NoMemory> {
        tree_of(
            alloc,
            (
                &self.application_name,
                (
                    &self.application_version,
                    (
                        &self.client_instance_id,
                        (
                            &self.requested_protocols,
                            (
                                &self.supported_data_objects,
                                (
                                    &self.supported_compression,
                                    (
                                        &self.supported_formats,
                                        (
                                            &self.current_date_time,
                                            (
                                                &self.earliest_retained_change_time,
                                                (
                                                    &self.server_authorization_required,
                                                    (&self.endpoint_capabilities, ()),
                                                ),
                                            ),
                                        ),
                                    ),
                                ),
                            ),
                        ),
                    ),
                ),
            ),
        )
    }

    fn from_tree(alloc: Global, tree: Tree) -> Result<RequestSession, NoMemory> {
        let (
            application_name,
            (
                application_version,
                (
                    client_instance_id,
                    (
                        requested_protocols,
                        (
                            supported_data_objects,
                            (
                                supported_compression,
                                (
                                    supported_formats,
                                    (
                                        current_date_time,
                                        (
                                            earliest_retained_change_time,
                                            (
                                                server_authorization_required,
                                                (endpoint_capabilities, ()),
                                            ),
                                        ),
                                    ),
                                ),
                            ),
                        ),
                    ),
                ),
            ),
        ) = fields_of(alloc, tree)?;
        Ok(RequestSession {
            application_name,
            application_version,
            client_instance_id,
            requested_protocols,
            supported_data_objects,
            supported_compression,
            supported_formats,
            current_date_time,
            earliest_retained_change_time,
            server_authorization_required,
            endpoint_capabilities,
        })
    }
}

impl InTree for OpenSession {
    #[tactic(auto, unfolding(etp_schema::specs::Form::Holds))]
    fn to_tree(&self, alloc: Global) -> Result<Tree, NoMemory> {
        tree_of(
            alloc,
            (
                &self.application_name,
                (
                    &self.application_version,
                    (
                        &self.server_instance_id,
                        (
                            &self.supported_protocols,
                            (
                                &self.supported_data_objects,
                                (
                                    &self.supported_compression,
                                    (
                                        &self.supported_formats,
                                        (
                                            &self.current_date_time,
                                            (
                                                &self.earliest_retained_change_time,
                                                (
                                                    &self.session_id,
                                                    (&self.endpoint_capabilities, ()),
                                                ),
                                            ),
                                        ),
                                    ),
                                ),
                            ),
                        ),
                    ),
                ),
            ),
        )
    }

    fn from_tree(alloc: Global, tree: Tree) -> Result<OpenSession, NoMemory> {
        let (
            application_name,
            (
                application_version,
                (
                    server_instance_id,
                    (
                        supported_protocols,
                        (
                            supported_data_objects,
                            (
                                supported_compression,
                                (
                                    supported_formats,
                                    (
                                        current_date_time,
                                        (
                                            earliest_retained_change_time,
                                            (session_id, (endpoint_capabilities, ())),
                                        ),
                                    ),
                                ),
                            ),
                        ),
                    ),
                ),
            ),
        ) = fields_of(alloc, tree)?;
        Ok(OpenSession {
            application_name,
            application_version,
            server_instance_id,
            supported_protocols,
            supported_data_objects,
            supported_compression,
            supported_formats,
            current_date_time,
            earliest_retained_change_time,
            session_id,
            endpoint_capabilities,
        })
    }
}

impl InTree for CloseSession {
    #[tactic(auto, unfolding(etp_schema::specs::Form::Holds))]
    fn to_tree(&self, alloc: Global) -> Result<Tree, NoMemory> {
        tree_of(alloc, (&self.reason, ()))
    }

    fn from_tree(alloc: Global, tree: Tree) -> Result<CloseSession, NoMemory> {
        let (reason, ()) = fields_of(alloc, tree)?;
        Ok(CloseSession { reason })
    }
}

impl InTree for Ping {
    #[tactic(auto, unfolding(etp_schema::specs::Form::Holds))]
    fn to_tree(&self, alloc: Global) -> Result<Tree, NoMemory> {
        tree_of(alloc, (&self.current_date_time, ()))
    }

    fn from_tree(alloc: Global, tree: Tree) -> Result<Ping, NoMemory> {
        let (current_date_time, ()) = fields_of(alloc, tree)?;
        Ok(Ping { current_date_time })
    }
}

impl InTree for Pong {
    #[tactic(auto, unfolding(etp_schema::specs::Form::Holds))]
    fn to_tree(&self, alloc: Global) -> Result<Tree, NoMemory> {
        tree_of(alloc, (&self.current_date_time, ()))
    }

    fn from_tree(alloc: Global, tree: Tree) -> Result<Pong, NoMemory> {
        let (current_date_time, ()) = fields_of(alloc, tree)?;
        Ok(Pong { current_date_time })
    }
}

impl InTree for ProtocolException {
    #[tactic(auto, unfolding(etp_schema::specs::Form::Holds))]
    fn to_tree(&self, alloc: Global) -> Result<Tree, NoMemory> {
        tree_of(alloc, (&self.error, (&self.errors, ())))
    }

    fn from_tree(alloc: Global, tree: Tree) -> Result<ProtocolException, NoMemory> {
        let (error, (errors, ())) = fields_of(alloc, tree)?;
        Ok(ProtocolException { error, errors })
    }
}

impl InTree for Acknowledge {
    #[tactic(auto, unfolding(etp_schema::specs::Form::Holds))]
    fn to_tree(&self, alloc: Global) -> Result<Tree, NoMemory> {
        tree_of(alloc, ())
    }

    fn from_tree(_alloc: Global, _tree: Tree) -> Result<Acknowledge, NoMemory> {
        Ok(Acknowledge)
    }
}

impl BodyInTree for CoreMessage {
    ghost use Rattle.msg_core.specs.Core.{core_body, core_kinds};

    ghost body = { core_body };

    ghost kinds = { core_kinds };

    #[tactic(auto, unfolding(etp_schema::specs::Form::Holds))]
    fn to_tree(&self, alloc: Global) -> Result<Tree, NoMemory> {
        match self {
            CoreMessage::RequestSession(message) => message.to_tree(alloc),
            CoreMessage::OpenSession(message) => message.to_tree(alloc),
            CoreMessage::CloseSession(message) => message.to_tree(alloc),
            CoreMessage::Ping(message) => message.to_tree(alloc),
            CoreMessage::Pong(message) => message.to_tree(alloc),
            CoreMessage::ProtocolException(message) => message.to_tree(alloc),
            CoreMessage::Acknowledge(message) => message.to_tree(alloc),
        }
    }

    fn from_tree(alloc: Global, kind: i32, tree: Tree) -> Result<Option<CoreMessage>, NoMemory> {
        match kind {
            1 => Ok(Some(CoreMessage::RequestSession(RequestSession::from_tree(alloc, tree)?))),
            2 => Ok(Some(CoreMessage::OpenSession(OpenSession::from_tree(alloc, tree)?))),
            5 => Ok(Some(CoreMessage::CloseSession(CloseSession::from_tree(alloc, tree)?))),
            8 => Ok(Some(CoreMessage::Ping(Ping::from_tree(alloc, tree)?))),
            9 => Ok(Some(CoreMessage::Pong(Pong::from_tree(alloc, tree)?))),
            1000 => Ok(Some(CoreMessage::ProtocolException(ProtocolException::from_tree(
                alloc, tree,
            )?))),
            1001 => Ok(Some(CoreMessage::Acknowledge(Acknowledge::from_tree(alloc, tree)?))),
            _ => Ok(None),
        }
    }
}
