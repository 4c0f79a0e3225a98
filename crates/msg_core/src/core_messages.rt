//! The messages of the Core protocol (0), with their records.
ghost use Rattle.std.specs.Prelude.{◌≡◌, pos};
ghost use Rattle.std.specs.List.{AllByRecursion};
ghost use Rattle.etp_schema.specs.Family.{IsFound, IsAgain};
ghost use Rattle.msg_core.specs.Core.{core_body, core_kinds};

use etp_schema::Typed;
use etp_values::{DataValue, Id16, List, Named, Text};

/// A version of a protocol.
#[derive(Debug, Drop)]
pub struct Version {
    pub major: i32,
    pub minor: i32,
    pub revision: i32,
    pub patch: i32,
}

impl Typed for Version {
    ghost use Rattle.msg_core.specs.Core.{version_form};

    ghost form = { version_form };
}

/// A protocol, as one end asks for it or supports it.
#[derive(Debug, Drop)]
pub struct SupportedProtocol {
    /// The protocol's number.
    pub protocol: i32,
    /// The version that is asked for or given.
    pub protocol_version: Version,
    /// The role that the other end is to have, or has: `store`.
    pub role: Text,
    /// What applies to this protocol, by name.
    pub protocol_capabilities: Named<DataValue>,
}

impl Typed for SupportedProtocol {
    ghost use Rattle.msg_core.specs.Core.{supported_protocol_form};

    ghost form = { supported_protocol_form };
}

/// A type of data objects that one end knows.
#[derive(Debug, Drop)]
pub struct SupportedDataObject {
    /// The type as `DOMAIN.TYPE`; `*` in place of the type means all types of the domain.
    pub qualified_type: Text,
    /// What applies to this type, by name.
    pub data_object_capabilities: Named<DataValue>,
}

impl Typed for SupportedDataObject {
    ghost use Rattle.msg_core.specs.Core.{supported_data_object_form};

    ghost form = { supported_data_object_form };
}

/// Why something was refused.
#[derive(Debug, Drop)]
pub struct ErrorInfo {
    /// The text of the code.
    pub message: Text,
    /// What was refused, as a number.
    pub code: i32,
}

impl Typed for ErrorInfo {
    ghost use Rattle.msg_core.specs.Core.{error_info_form};

    ghost form = { error_info_form };
}

/// The client asks for a session. It is the first message of a connection.
#[derive(Debug, Drop)]
pub struct RequestSession {
    pub application_name: Text,
    pub application_version: Text,
    /// The client's identity.
    pub client_instance_id: Id16,
    /// The protocols that the client asks for, in its order of preference.
    pub requested_protocols: List<SupportedProtocol>,
    /// The types of data objects that the sender knows.
    pub supported_data_objects: List<SupportedDataObject>,
    /// How bodies may be compressed; empty for none.
    pub supported_compression: List<Text>,
    /// The formats of data objects: `xml`, `json`.
    pub supported_formats: List<Text>,
    /// The sender's current time, in microseconds since 1970-01-01 UTC.
    pub current_date_time: i64,
    /// The earliest change that the sender still has, in microseconds since 1970-01-01 UTC.
    pub earliest_retained_change_time: i64,
    /// Whether the client wants the server to prove its identity.
    pub server_authorization_required: bool,
    /// The sender's capabilities and limits, by name.
    pub endpoint_capabilities: Named<DataValue>,
}

impl Typed for RequestSession {
    ghost use Rattle.msg_core.specs.Core.{request_session_form};

    ghost form = { request_session_form };
}

/// The server's answer to RequestSession: what the session supports.
#[derive(Debug, Drop)]
pub struct OpenSession {
    pub application_name: Text,
    pub application_version: Text,
    /// The server's identity.
    pub server_instance_id: Id16,
    /// The protocols that the session supports.
    pub supported_protocols: List<SupportedProtocol>,
    /// The types of data objects that the sender knows.
    pub supported_data_objects: List<SupportedDataObject>,
    /// How bodies may be compressed; empty for none.
    pub supported_compression: Text,
    /// The formats of data objects: `xml`, `json`.
    pub supported_formats: List<Text>,
    /// The sender's current time, in microseconds since 1970-01-01 UTC.
    pub current_date_time: i64,
    /// The earliest change that the sender still has, in microseconds since 1970-01-01 UTC.
    pub earliest_retained_change_time: i64,
    /// The session's identity.
    pub session_id: Id16,
    /// The sender's capabilities and limits, by name.
    pub endpoint_capabilities: Named<DataValue>,
}

impl Typed for OpenSession {
    ghost use Rattle.msg_core.specs.Core.{open_session_form};

    ghost form = { open_session_form };
}

/// Ends the session.
#[derive(Debug, Drop)]
pub struct CloseSession {
    /// Why, in words.
    pub reason: Text,
}

impl Typed for CloseSession {
    ghost use Rattle.msg_core.specs.Core.{close_session_form};

    ghost form = { close_session_form };
}

/// Asks for a Pong.
#[derive(Debug, Drop)]
pub struct Ping {
    /// The sender's current time, in microseconds since 1970-01-01 UTC.
    pub current_date_time: i64,
}

impl Typed for Ping {
    ghost use Rattle.msg_core.specs.Core.{ping_form};

    ghost form = { ping_form };
}

/// Answers a Ping.
#[derive(Debug, Drop)]
pub struct Pong {
    /// The sender's current time, in microseconds since 1970-01-01 UTC.
    pub current_date_time: i64,
}

impl Typed for Pong {
    ghost use Rattle.msg_core.specs.Core.{pong_form};

    ghost form = { pong_form };
}

/// Refuses a message: as a whole by `error`, or some of its keys by `errors`. It is a message of every protocol.
#[derive(Debug, Drop)]
pub struct ProtocolException {
    /// The refusal of the whole message.
    pub error: Option<ErrorInfo>,
    /// The refusals of its keys.
    pub errors: Named<ErrorInfo>,
}

impl Typed for ProtocolException {
    ghost use Rattle.msg_core.specs.Core.{protocol_exception_form};

    ghost form = { protocol_exception_form };
}

/// Says that a message arrived, if its sender asked for that. It is a message of every protocol.
#[derive(Clone, Copy, Debug, PartialEq, Eq, Drop)]
pub struct Acknowledge;

impl Typed for Acknowledge {
    ghost use Rattle.msg_core.specs.Core.{acknowledge_form};

    ghost form = { acknowledge_form };
}

/// A message of the Core protocol. ProtocolException and Acknowledge are messages of every protocol, with the same
/// numbers and bodies.
#[derive(Debug, Drop)]
pub enum CoreMessage {
    RequestSession(RequestSession),
    OpenSession(OpenSession),
    CloseSession(CloseSession),
    Ping(Ping),
    Pong(Pong),
    ProtocolException(ProtocolException),
    Acknowledge(Acknowledge),
}

impl CoreMessage {
    /// The message's number.
    pub fn kind(&self) -> i32
        ensures { result ≡ pos (core_body self.now).number }
    {
        match self {
            CoreMessage::RequestSession(_) => 1,
            CoreMessage::OpenSession(_) => 2,
            CoreMessage::CloseSession(_) => 5,
            CoreMessage::Ping(_) => 8,
            CoreMessage::Pong(_) => 9,
            CoreMessage::ProtocolException(_) => 1000,
            CoreMessage::Acknowledge(_) => 1001,
        }
    }
}

/// How CoreMessage and the trees of its bodies relate: each message is found by its number and its body is read as that message, and what
/// is read from a body is written as that body.
pub fn core_laws()
    ensures found { (x : CoreMessage) → IsFound core_kinds core_body x }
    ensures again { AllByRecursion (IsAgain core_body) core_kinds }
{}
