//! How a session is opened: what is accepted of a RequestSession, and its reply.
ghost use Rattle.std.specs.Prelude.{◌≡◌, IfOk, OnOk, map};
ghost use Rattle.std.specs.List.{list_any};
ghost use Rattle.std.specs.Ordering.{int_eq};
ghost use Rattle.session_rows.specs.Once.{with_new};
ghost use Rattle.session_rows.specs.Opening.{accepted_protocols, capabilities, data_objects, is_acceptable, is_version_1_2, limit_in, limited, offered, open_session, opening_of, part_limit, session_id, supported};
ghost use Rattle.store_machine.specs.Starts.{natural};

use crate::formats::{Format, format_texts, formats_of};
use etp_schema::protocols;
use etp_values::{Copied, DataValue, ErrorCode, Id16, List, Named, NoMemory, Shared, Text};
use msg_core::{OpenSession, RequestSession, SupportedDataObject, SupportedProtocol, Version};
use server_config::Config;
use std::alloc::Global;

/// The maximum message size that the server states, in bytes.
pub const PART_LIMIT: i64 = 16_777_216;

/// The smallest maximum message size that a client can ask for, in bytes.
const MIN_PART_LIMIT: u64 = 65_536;

/// The capability with which a client or the server states the maximum size of a message in bytes.
const LIMIT_NAME: &str = "MaxWebSocketMessagePayloadSize";

/// What comes of a RequestSession.
#[derive(Debug, Drop)]
pub enum Opening {
    /// The session ends with this code.
    Refused(ErrorCode),
    /// The session is open, and this is its reply. Its parts have at most `limit` bytes.
    Opened {
        accepted: List<i32>,
        formats: List<Format>,
        limit: u64,
        reply: OpenSession,
    },
}

/// Whether a protocol can be accepted as it is requested.
fn is_acceptable(asked: &SupportedProtocol) -> bool
    ensures { result ≡ is_acceptable asked.now }
{
    is_offered(asked.protocol)
        && is_version_1_2(&asked.protocol_version)
        && asked.role.as_str() == "store"
}

fn is_version_1_2(version: &Version) -> bool
    ensures { result ≡ is_version_1_2 version.now }
{
    version.major == 1 && version.minor == 2
}

fn is_offered(protocol: i32) -> bool
    ensures { result ≡ list_any (int_eq protocol) offered }
{
    protocol == protocols::STORE
        || protocol == protocols::DATA_ARRAY
        || protocol == protocols::TRANSACTION
        || protocol == protocols::CHANNEL_SUBSCRIBE
        || protocol == protocols::CHANNEL_DATA_LOAD
        || protocol == protocols::DATASPACE
}

fn has_protocol(protocols: &[i32], protocol: i32) -> bool
    ensures { result ≡ list_any (int_eq protocol) protocols.now }
{
    for other in protocols {
        if protocol == *other {
            return true;
        }
    }
    false
}

fn put_protocol(protocols: &mut Vec<i32>, protocol: i32) -> Result<(), NoMemory>
    ensures { OnOk result (protocols.new.items ≡ with_new int_eq protocols.old.items protocol) }
{
    if has_protocol(protocols, protocol) {
        return Ok(());
    }
    protocols.push(protocol)?;
    Ok(())
}

fn accepted_protocols(alloc: Global, requested: &[SupportedProtocol]) -> Result<List<i32>, NoMemory>
    ensures { IfOk result (λ l. l ≡ accepted_protocols requested.now) }
{
    let mut accepted = Vec::new(alloc);
    for asked in requested {
        if is_acceptable(asked) {
            put_protocol(&mut accepted, asked.protocol)?;
        }
    }
    Ok(List::from_vec(accepted))
}

fn supported(alloc: Global, protocol: i32) -> Result<SupportedProtocol, NoMemory>
    ensures { IfOk result (λ p. p ≡ supported protocol) }
{
    Ok(SupportedProtocol {
        protocol,
        protocol_version: Version {
            major: 1,
            minor: 2,
            revision: 0,
            patch: 0,
        },
        role: Text::copy(alloc, "store")?,
        protocol_capabilities: Named::new(alloc),
    })
}

fn all_supported(alloc: Global, protocols: &[i32]) -> Result<List<SupportedProtocol>, NoMemory>
    ensures { IfOk result (λ l. l ≡ map supported protocols.now) }
{
    let mut all = Vec::new(alloc);
    for protocol in protocols {
        let one = supported(alloc, *protocol)?;
        all.push(one)?;
    }
    Ok(List::from_vec(all))
}

fn data_objects(
    alloc: Global,
    types: &Option<Shared<List<Text>>>,
) -> Result<List<SupportedDataObject>, NoMemory>
    ensures { IfOk result (λ l. l ≡ data_objects types.now) }
{
    match types {
        None => Ok(List::new(alloc)),
        Some(types) => objects_of(alloc, types.get().as_slice()),
    }
}

fn objects_of(alloc: Global, types: &[Text]) -> Result<List<SupportedDataObject>, NoMemory>
    ensures { IfOk result (λ l. l ≡ data_objects (Some types.now)) }
{
    let mut all = Vec::new(alloc);
    for name in types {
        let qualified_type = name.copy(alloc)?;
        all.push(SupportedDataObject {
            qualified_type,
            data_object_capabilities: Named::new(alloc),
        })?;
    }
    Ok(List::from_vec(all))
}

/// The identifier of the session with a number.
fn session_id(alloc: Global, instance: Id16, number: u64) -> Result<Id16, NoMemory>
    ensures { IfOk result (λ id. id ≡ session_id instance number) }
{
    let name = format!(in alloc; "session:{number}")?;
    Ok(Id16::named(instance, name.as_str()))
}

/// The one limit that the server states.
fn capabilities(alloc: Global) -> Result<Named<DataValue>, NoMemory>
    ensures { IfOk result (λ c. c ≡ capabilities) }
{
    let name = Text::copy(alloc, LIMIT_NAME)?;
    let mut items = Vec::new(alloc);
    items.push((name, DataValue::Long(PART_LIMIT)))?;
    Ok(Named::from_sorted(items))
}

/// The number that an integer is, 0 if it is negative.
fn natural(number: i64) -> u64
    ensures { result ≡ natural number }
{
    if number < 0 { 0 } else { number as u64 }
}

/// A maximum size that a client states, clamped to what it can ask for.
fn limited(asked: i64) -> u64
    ensures { result ≡ limited asked }
{
    natural(asked).min(PART_LIMIT as u64).max(MIN_PART_LIMIT)
}

/// The maximum size of a session's parts in bytes, by its client's capabilities.
fn part_limit(capabilities: &Named<DataValue>) -> u64
    ensures { result ≡ part_limit capabilities.now }
{
    match capabilities.get(LIMIT_NAME) {
        Some(value) => limit_in(value),
        None => PART_LIMIT as u64,
    }
}

fn limit_in(value: &DataValue) -> u64
    ensures { result ≡ limit_in value.now }
{
    match value {
        DataValue::Long(asked) => limited(*asked),
        _ => PART_LIMIT as u64,
    }
}

fn open_session(
    alloc: Global,
    config: &Config,
    number: u64,
    moment: i64,
    accepted: &List<i32>,
    formats: &List<Format>,
) -> Result<OpenSession, NoMemory>
    ensures { IfOk result (λ m. m ≡ open_session config.now number moment accepted.now formats.now) }
{
    Ok(OpenSession {
        application_name: config.name.copy(alloc)?,
        application_version: Text::copy(alloc, "1")?,
        server_instance_id: config.instance,
        supported_protocols: all_supported(alloc, accepted.as_slice())?,
        supported_data_objects: data_objects(alloc, &config.types)?,
        supported_compression: Text::new(alloc),
        supported_formats: format_texts(alloc, formats.as_slice())?,
        current_date_time: moment,
        earliest_retained_change_time: 0,
        session_id: session_id(alloc, config.instance, number)?,
        endpoint_capabilities: capabilities(alloc)?,
    })
}

/// What comes of a RequestSession to a waiting session, the session of this number.
pub fn opening_of(
    alloc: Global,
    config: &Config,
    number: u64,
    moment: i64,
    request: RequestSession,
) -> Result<Opening, NoMemory>
    ensures { IfOk result (λ o. o ≡ opening_of config.now number moment request) }
{
    let accepted = accepted_protocols(alloc, request.requested_protocols.as_slice())?;
    if accepted.len() == 0 {
        return Ok(Opening::Refused(ErrorCode::NoSupportedProtocols));
    }
    let formats = formats_of(alloc, request.supported_formats.as_slice())?;
    if formats.len() == 0 {
        return Ok(Opening::Refused(ErrorCode::NoSupportedFormats));
    }
    let limit = part_limit(&request.endpoint_capabilities);
    let reply = open_session(alloc, config, number, moment, &accepted, &formats)?;
    Ok(Opening::Opened {
        accepted,
        formats,
        limit,
        reply,
    })
}
