//! GetDataObjects.
ghost use Rattle.std.specs.Prelude.{◌≡◌, IfOk, OnOk, Some};
ghost use Rattle.keyed_requests.specs.Keyed.{checked, request_outcome};
ghost use Rattle.request_scope.specs.Reply.{scoped_reply};
ghost use Rattle.session_rows.specs.ObjectChecks.{named_object};
ghost use Rattle.session_rows.specs.Objects.{get_call, get_given, get_one, get_outcome, get_response, object_of, object_seen, object_there, status_of};
ghost use Rattle.tx_stage.specs.declared.look.Want.TheVariants as want;

use crate::formats::Format;
use crate::objects::checking::named_object;
use crate::objects::{ObjectOutcome, ObjectPending};
use etp_schema::ActiveStatusKind;
use etp_values::{Copied, ErrorCode, List, Named, NoMemory, StoreUri, Text};
use keyed_requests::{
    Decision, Findings, KeyedReply, KeyedRequest, Outcome, first_found, refused_outcome,
    request_outcome, sent_values,
};
use msg_store::{DataObject, GetDataObjectsResponse, Resource, StoreMessage};
use object_store::ObjectRecord;
use request_scope::{Answered, Scope, scoped_reply};
use std::alloc::Global;
use store_machine::{Looked, StoreCall, Want};
use tx_stage::Stage;

/// The first half: each object is looked at.
#[derive(Drop)]
struct GetObjects<'a> {
    stage: &'a Option<Stage>,
}

impl<'a> KeyedRequest for GetObjects<'a> {
    type Item = Text;

    type Checked = StoreUri;

    type Kept = StoreUri;

    type Sent = Want;

    type Checking = ();

    ghost check = { λ get s uri. (s, named_object get.stage.now uri) };

    ghost keep = { λ get uri. uri };

    ghost send = { λ get uri. want.Object uri };

    fn check(
        &self,
        alloc: Global,
        _state: &mut (),
        item: Text,
    ) -> Result<Decision<StoreUri>, NoMemory> {
        named_object(alloc, self.stage, item.as_str())
    }

    fn divide(&self, alloc: Global, checked: StoreUri) -> Result<(StoreUri, Want), NoMemory> {
        let looked_at = checked.copy(alloc)?;
        Ok((checked, Want::Object(looked_at)))
    }
}

/// The second half, for a format.
#[derive(Drop)]
struct GetObjectsReply {
    format: Format,
}

impl KeyedReply for GetObjectsReply {
    type Kept = StoreUri;

    type Found = Looked;

    type Given = DataObject;

    type Finishing = Scope;

    type Message = StoreMessage;

    ghost width = { 1 };

    ghost finish = { λ get s key uri found. get_one get.format s key uri found };

    ghost response = { λ get objects. get_response objects };

    fn width(&self) -> usize {
        1
    }

    fn finish(
        &self,
        alloc: Global,
        state: &mut Scope,
        _key: &Text,
        kept: StoreUri,
        found: List<Looked>,
    ) -> Result<Decision<DataObject>, NoMemory>
        ensures decision { IfOk result (λ d. d ≡ (get_one self.now.format state.old _key.now kept found).1) }
        ensures state { OnOk result (state.new ≡ (get_one self.now.format state.old _key.now kept found).0) }
    {
        match object_seen(alloc, state, &kept, first_found(found))? {
            Decision::Granted(object) => {
                let counted = state.pay(object.payload.len() as u64);
                get_given(alloc, self.format, counted, object)
            }
            Decision::Refused(code) => Ok(Decision::Refused(code)),
        }
    }

    fn response(&self, granted: Named<DataObject>) -> StoreMessage
        ensures { result ≡ get_response granted }
    {
        StoreMessage::GetDataObjectsResponse(GetDataObjectsResponse {
            data_objects: granted,
        })
    }
}

/// The object of a URI, by what was seen there.
fn object_seen(
    alloc: Global,
    scope: &Scope,
    uri: &StoreUri,
    seen: Option<Looked>,
) -> Result<Decision<ObjectRecord>, NoMemory>
    ensures { IfOk result (λ d. d ≡ object_seen scope.now.stage uri.now seen) }
{
    match seen {
        None => Ok(Decision::Refused(ErrorCode::RequestDenied)),
        Some(seen) => object_looked(alloc, scope, uri, seen),
    }
}

fn object_looked(
    alloc: Global,
    scope: &Scope,
    uri: &StoreUri,
    seen: Looked,
) -> Result<Decision<ObjectRecord>, NoMemory>
    ensures { IfOk result (λ d. d ≡ object_seen scope.now.stage uri.now (Some seen)) }
{
    match seen {
        Looked::Object(object) => Ok(object_there(scope.object(alloc, uri, Some(object))?)),
        Looked::Missing => Ok(object_there(scope.object(alloc, uri, None)?)),
        Looked::Refused(code) => Ok(Decision::Refused(code)),
        Looked::Space(_)
        | Looked::Known { .. }
        | Looked::Array(_)
        | Looked::Slice(_)
        | Looked::Shape { .. } => Ok(Decision::Refused(ErrorCode::RequestDenied)),
    }
}

fn object_there(object: Option<ObjectRecord>) -> Decision<ObjectRecord>
    ensures { result ≡ object_there object }
{
    match object {
        Some(object) => Decision::Granted(object),
        None => Decision::Refused(ErrorCode::NotFound),
    }
}

/// An object whose payload was counted, in the format that is asked for.
fn get_given(
    alloc: Global,
    format: Format,
    counted: bool,
    object: ObjectRecord,
) -> Result<Decision<DataObject>, NoMemory>
    ensures { IfOk result (λ d. d ≡ get_given format counted object) }
{
    if !counted {
        return Ok(Decision::Refused(ErrorCode::LimitExceeded));
    }
    if object.format.as_str() != format.text() {
        return Ok(Decision::Refused(ErrorCode::NoSupportedFormats));
    }
    let object = object_of(alloc, object)?;
    Ok(Decision::Granted(object))
}

fn status_of(place: u32) -> ActiveStatusKind
    ensures { result ≡ status_of place }
{
    if place == 0 {
        ActiveStatusKind::Active
    } else {
        ActiveStatusKind::Inactive
    }
}

/// An object as it is sent.
fn object_of(alloc: Global, object: ObjectRecord) -> Result<DataObject, NoMemory>
    ensures { IfOk result (λ o. o ≡ object_of object) }
{
    let ObjectRecord {
        uri,
        others,
        name,
        changed,
        active,
        custom,
        format,
        payload,
        written,
        created,
    } = object;
    Ok(DataObject {
        resource: Resource {
            uri: uri.write(alloc)?,
            alternate_uris: others,
            name,
            source_count: None,
            target_count: None,
            last_changed: changed,
            store_last_write: written,
            store_created: created,
            active_status: status_of(active),
            custom_data: custom,
        },
        format,
        blob_id: None,
        payload,
    })
}

fn get_call(
    alloc: Global,
    format: Format,
    outcome: Outcome<Named<Want>, Named<Decision<StoreUri>>, StoreMessage>,
) -> Result<ObjectOutcome, NoMemory>
    ensures { IfOk result (λ o. o ≡ get_call format outcome) }
{
    match outcome {
        Outcome::Replies(sendings) => Ok(Outcome::Replies(sendings)),
        Outcome::Calls { call, pending } => Ok(Outcome::Calls {
            call: StoreCall::Look {
                items: sent_values(alloc, call)?,
            },
            pending: ObjectPending::Get {
                format,
                items: pending,
            },
        }),
    }
}

/// What comes of a GetDataObjects, by the session's format that it asks for, if it is one.
pub(crate) fn get_outcome(
    alloc: Global,
    stage: &Option<Stage>,
    uris: Named<Text>,
    format: Option<Format>,
) -> Result<ObjectOutcome, NoMemory>
    ensures { IfOk result (λ o. o ≡ get_outcome stage.now uris format) }
{
    let Some(format) = format else {
        return refused_outcome(alloc, ErrorCode::NoSupportedFormats);
    };
    let request = GetObjects { stage };
    let reply = GetObjectsReply { format };
    let outcome = request_outcome(alloc, &request, &reply, &mut (), uris)?;
    get_call(alloc, format, outcome)
}

/// The reply to a GetDataObjects, by what was seen.
pub(crate) fn get_reply(
    alloc: Global,
    stage: Option<Stage>,
    format: Format,
    items: Named<Decision<StoreUri>>,
    looks: List<Looked>,
) -> Result<Answered<StoreMessage>, NoMemory>
    ensures { IfOk result (λ r. r ≡ scoped_reply (get_one format) 1 get_response stage items looks) }
{
    let findings = Findings::from_vec(looks.into_vec());
    scoped_reply(alloc, &GetObjectsReply { format }, stage, items, findings)
}
