//! What is tested about the keys of a request for objects before the store is asked.
ghost use Rattle.std.specs.Prelude.{◌≡◌, ◌||◌, IfOk, nat_lt};
ghost use Rattle.std.specs.List.{list_any};
ghost use Rattle.std.specs.Str.{bytes_eq};
ghost use Rattle.etp_schema.specs.Status.{status_place};
ghost use Rattle.session_rows.specs.ObjectChecks.{checked_object, extras_size, in_space, is_kept, keeps_name, named_object, object_record, put_in_format, session_format, takes_type};

use crate::formats::{Format, among};
use etp_schema::{ActiveStatusKind, measure_of};
use etp_values::{ErrorCode, List, NoMemory, ObjectName, Shared, StoreUri, Text};
use keyed_requests::{Decision, object_uri};
use msg_store::{DataObject, Resource};
use object_store::ObjectRecord;
use request_scope::may_use;
use std::alloc::Global;
use tx_stage::Stage;

/// The maximum size of an object's other URIs, name and custom data on the wire, in bytes.
pub const MAX_EXTRAS_SIZE: u64 = 16_384;

/// The URI of an object in a dataspace that may be touched.
pub(crate) fn named_object(
    alloc: Global,
    stage: &Option<Stage>,
    text: &str,
) -> Result<Decision<StoreUri>, NoMemory>
    ensures { IfOk result (λ d. d ≡ named_object stage.now text.now) }
{
    let named = object_uri(alloc, text)?;
    Ok(in_space(stage, named))
}

fn in_space(stage: &Option<Stage>, named: Decision<StoreUri>) -> Decision<StoreUri>
    ensures { result ≡ in_space stage.now named }
{
    match named {
        Decision::Granted(uri) => {
            if may_use(stage, &uri.space) {
                return Decision::Granted(uri);
            }
            Decision::Refused(ErrorCode::RequestDenied)
        }
        Decision::Refused(code) => Decision::Refused(code),
    }
}

/// Whether objects of this URI's type are kept: if `types` is `None` all are, otherwise those that a filter accepts by their type or by
/// their type's domain.
fn is_kept(
    alloc: Global,
    types: &Option<Shared<List<Text>>>,
    uri: &StoreUri,
) -> Result<bool, NoMemory>
    ensures { IfOk result (λ kept. kept ≡ is_kept types.now uri.now) }
{
    match types {
        None => Ok(true),
        Some(filters) => keeps_name(alloc, filters.get().as_slice(), &uri.object),
    }
}

fn keeps_name(
    alloc: Global,
    filters: &[Text],
    object: &Option<ObjectName>,
) -> Result<bool, NoMemory>
    ensures { IfOk result (λ kept. kept ≡ keeps_name filters.now object.now) }
{
    match object {
        None => Ok(false),
        Some(name) => is_taken(alloc, filters, name),
    }
}

fn is_taken(alloc: Global, filters: &[Text], name: &ObjectName) -> Result<bool, NoMemory>
    ensures { IfOk result (λ taken. taken ≡ list_any (takes_type name.now) filters.now) }
{
    let domain = name.domain.as_str();
    let kind = name.name.as_str();
    let exact = format!(in alloc; "{domain}.{kind}")?;
    let any = format!(in alloc; "{domain}.*")?;
    Ok(has_either(filters, exact.as_str(), any.as_str()))
}

/// Whether one of these texts is among the filters.
fn has_either(filters: &[Text], exact: &str, any: &str) -> bool
    ensures { result ≡ list_any (λ filter. bytes_eq filter exact.now || bytes_eq filter any.now) filters.now }
{
    for filter in filters {
        if is_either(filter, exact, any) {
            return true;
        }
    }
    false
}

fn is_either(filter: &Text, exact: &str, any: &str) -> bool
    ensures { result ≡ (bytes_eq filter.now exact.now || bytes_eq filter.now any.now) }
{
    filter.as_str() == exact || filter.as_str() == any
}

/// The session's format with this text; the empty text means `xml`.
pub(crate) fn session_format(formats: &List<Format>, text: &Text) -> Option<Format>
    ensures { result ≡ session_format formats.now text.now }
{
    if text.is_empty() {
        return among(formats.as_slice(), Format::Xml);
    }
    match Format::of_text(text.as_str()) {
        Some(format) => among(formats.as_slice(), format),
        None => None,
    }
}

/// Whether the other URIs, the name and the custom data are too large on the wire.
fn are_extras_large(resource: &Resource) -> bool
    ensures { result ≡ nat_lt 16384 (extras_size resource.now) }
{
    let others = measure_of(&resource.alternate_uris).bytes;
    let name = measure_of(&resource.name).bytes;
    let custom = measure_of(&resource.custom_data).bytes;
    others.saturating_add(name).saturating_add(custom) > MAX_EXTRAS_SIZE
}

fn status_place(status: ActiveStatusKind) -> u32
    ensures { result ≡ status_place status }
{
    match status {
        ActiveStatusKind::Active => 0,
        ActiveStatusKind::Inactive => 1,
    }
}

/// What is stored of an object.
fn object_record(
    alloc: Global,
    format: Format,
    uri: StoreUri,
    object: DataObject,
) -> Result<ObjectRecord, NoMemory>
    ensures { IfOk result (λ r. r ≡ object_record format uri object) }
{
    let DataObject {
        resource,
        payload,
        ..
    } = object;
    let Resource {
        alternate_uris,
        name,
        last_changed,
        active_status,
        custom_data,
        ..
    } = resource;
    Ok(ObjectRecord {
        uri,
        others: alternate_uris,
        name,
        changed: last_changed,
        active: status_place(active_status),
        custom: custom_data,
        format: Text::copy(alloc, format.text())?,
        payload,
        written: 0,
        created: 0,
    })
}

fn put_in_format(
    alloc: Global,
    formats: &List<Format>,
    uri: StoreUri,
    object: DataObject,
) -> Result<Decision<ObjectRecord>, NoMemory>
    ensures { let format = session_format formats.now object.format in
        IfOk result (λ d. d ≡ put_in_format uri object format) }
{
    let Some(format) = session_format(formats, &object.format) else {
        return Ok(Decision::Refused(ErrorCode::NoSupportedFormats));
    };
    if are_extras_large(&object.resource) {
        return Ok(Decision::Refused(ErrorCode::SizeExceeded));
    }
    let record = object_record(alloc, format, uri, object)?;
    Ok(Decision::Granted(record))
}

/// An object to be put: its URI, its dataspace, its type, its format and its extras are tested in this order.
pub(crate) fn checked_object(
    alloc: Global,
    formats: &List<Format>,
    types: &Option<Shared<List<Text>>>,
    stage: &Option<Stage>,
    object: DataObject,
) -> Result<Decision<ObjectRecord>, NoMemory>
    ensures { IfOk result (λ d. d ≡ checked_object formats.now types.now stage.now object) }
{
    match named_object(alloc, stage, object.resource.uri.as_str())? {
        Decision::Granted(uri) => {
            if !is_kept(alloc, types, &uri)? {
                return Ok(Decision::Refused(ErrorCode::DataObjectTypeNotSupported));
            }
            put_in_format(alloc, formats, uri, object)
        }
        Decision::Refused(code) => Ok(Decision::Refused(code)),
    }
}
