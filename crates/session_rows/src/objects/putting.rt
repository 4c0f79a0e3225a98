//! PutDataObjects.
ghost use Rattle.std.specs.Prelude.{◌≡◌, IfOk, OnOk};
ghost use Rattle.keyed_requests.specs.Keyed.{checked, granted_unless, request_outcome};
ghost use Rattle.keyed_requests.specs.Plain.{plain_reply};
ghost use Rattle.request_scope.specs.Finding.{found_refusal, putting};
ghost use Rattle.request_scope.specs.Reply.{scoped_reply};
ghost use Rattle.session_rows.specs.ObjectChecks.{checked_object};
ghost use Rattle.session_rows.specs.Objects.{none_contained, put_call, put_decided, put_inside, put_outcome, put_outside, put_response, put_wants, set_checked, set_object, staged_put, staged_put_call};

use crate::formats::Format;
use crate::objects::checking::checked_object;
use crate::objects::{ObjectOutcome, ObjectPending};
use etp_values::{Copied, ErrorCode, List, Named, NoMemory, Shared, Text};
use keyed_requests::{
    Decision, Findings, KeyedReply, KeyedRequest, Outcome, Plain, PlainReply, PlainRequest,
    Sending, joined_values, request_outcome, request_reply,
};
use msg_store::{DataObject, PutDataObjectsResponse, PutResponse, StoreMessage};
use object_store::ObjectRecord;
use request_scope::{Answered, Scope, scoped_reply};
use std::alloc::Global;
use store_machine::{Looked, StoreCall, Verdict, Want};
use tx_stage::{Key, Op, OpWhat, Stage};

/// The first half without a transaction: each object is put.
#[derive(Drop)]
struct PutObjects<'a> {
    formats: &'a List<Format>,
    types: &'a Option<Shared<List<Text>>>,
    stage: &'a Option<Stage>,
    moment: i64,
}

impl<'a> PlainRequest for PutObjects<'a> {
    type Item = DataObject;

    type Sent = Op;

    ghost check = { λ put o. set_checked put.moment (checked_object put.formats.now put.types.now put.stage.now o) };

    fn check(&self, alloc: Global, item: DataObject) -> Result<Decision<Op>, NoMemory> {
        let checked = checked_object(alloc, self.formats, self.types, self.stage, item)?;
        set_checked(alloc, self.moment, checked)
    }
}

fn set_checked(
    alloc: Global,
    at: i64,
    checked: Decision<ObjectRecord>,
) -> Result<Decision<Op>, NoMemory>
    ensures { IfOk result (λ d. d ≡ set_checked at checked) }
{
    match checked {
        Decision::Granted(object) => {
            let op = set_object(alloc, at, object)?;
            Ok(Decision::Granted(op))
        }
        Decision::Refused(code) => Ok(Decision::Refused(code)),
    }
}

/// The operation that sets an object.
fn set_object(alloc: Global, at: i64, object: ObjectRecord) -> Result<Op, NoMemory>
    ensures { IfOk result (λ o. o ≡ set_object at object) }
{
    Ok(Op {
        key: Key::Object(object.uri.copy(alloc)?),
        what: OpWhat::SetObject(object),
        at,
    })
}

/// The second half without a transaction: by the store's verdicts.
#[derive(Drop)]
struct PutObjectsReply;

impl PlainReply for PutObjectsReply {
    type Found = (Text, Verdict);

    type Given = PutResponse;

    type Message = StoreMessage;

    ghost decide = { λ put found. put_decided found };

    ghost response = { λ put success. put_response success };

    fn decide(
        &self,
        alloc: Global,
        found: &(Text, Verdict),
    ) -> Result<Decision<PutResponse>, NoMemory> {
        match found.1 {
            Verdict::Accepted => Ok(Decision::Granted(none_contained(alloc))),
            Verdict::Refused(code) => Ok(Decision::Refused(code)),
        }
    }

    fn response(&self, granted: Named<PutResponse>) -> StoreMessage
        ensures { result ≡ put_response granted }
    {
        put_response(granted)
    }
}

fn put_response(success: Named<PutResponse>) -> StoreMessage
    ensures { result ≡ put_response success }
{
    StoreMessage::PutDataObjectsResponse(PutDataObjectsResponse { success })
}

/// What is reported about contained objects, of which there are none.
fn none_contained(alloc: Global) -> PutResponse
    ensures { result ≡ none_contained }
{
    PutResponse {
        created_contained_object_uris: List::new(alloc),
        deleted_contained_object_uris: List::new(alloc),
        joined_contained_object_uris: List::new(alloc),
        unjoined_contained_object_uris: List::new(alloc),
    }
}

/// The first half in a transaction: each object's dataspace and the object are looked at.
#[derive(Drop)]
struct StagedPut<'a> {
    formats: &'a List<Format>,
    types: &'a Option<Shared<List<Text>>>,
    stage: &'a Option<Stage>,
}

impl<'a> KeyedRequest for StagedPut<'a> {
    type Item = DataObject;

    type Checked = ObjectRecord;

    type Kept = ObjectRecord;

    type Sent = List<Want>;

    type Checking = ();

    ghost check = { λ put s o. (s, checked_object put.formats.now put.types.now put.stage.now o) };

    ghost keep = { λ put r. r };

    ghost send = { λ put r. put_wants r };

    fn check(
        &self,
        alloc: Global,
        _state: &mut (),
        item: DataObject,
    ) -> Result<Decision<ObjectRecord>, NoMemory> {
        checked_object(alloc, self.formats, self.types, self.stage, item)
    }

    fn divide(
        &self,
        alloc: Global,
        checked: ObjectRecord,
    ) -> Result<(ObjectRecord, List<Want>), NoMemory> {
        let wants = put_wants(alloc, &checked)?;
        Ok((checked, wants))
    }
}

fn put_wants(alloc: Global, object: &ObjectRecord) -> Result<List<Want>, NoMemory>
    ensures { IfOk result (λ l. l ≡ put_wants object.now) }
{
    let mut wants = Vec::new(alloc);
    wants.push(Want::Space(object.uri.space.copy(alloc)?))?;
    wants.push(Want::Known(object.uri.copy(alloc)?))?;
    Ok(List::from_vec(wants))
}

/// The second half in a transaction: each object is staged.
#[derive(Drop)]
struct StagedPutReply {
    moment: i64,
}

impl KeyedReply for StagedPutReply {
    type Kept = ObjectRecord;

    type Found = Looked;

    type Given = PutResponse;

    type Finishing = Scope;

    type Message = StoreMessage;

    ghost width = { 2 };

    ghost finish = { λ put s key r found. staged_put put.moment s key r found };

    ghost response = { λ put success. put_response success };

    fn width(&self) -> usize {
        2
    }

    fn finish(
        &self,
        alloc: Global,
        state: &mut Scope,
        _key: &Text,
        kept: ObjectRecord,
        found: List<Looked>,
    ) -> Result<Decision<PutResponse>, NoMemory>
        ensures decision { IfOk result (λ d. d ≡ (staged_put self.now.moment state.old _key.now kept found).1) }
        ensures state { OnOk result (state.new ≡ (staged_put self.now.moment state.old _key.now kept found).0) }
    {
        let refusal = self.stage(alloc, state, kept, found.as_slice())?;
        Ok(granted_unless(alloc, refusal))
    }

    fn response(&self, granted: Named<PutResponse>) -> StoreMessage
        ensures { result ≡ put_response granted }
    {
        put_response(granted)
    }
}

impl StagedPutReply {
    /// Stages an object, by what was seen of its dataspace and of the object. Returns why it is refused.
    fn stage(
        &self,
        alloc: Global,
        scope: &mut Scope,
        object: ObjectRecord,
        found: &[Looked],
    ) -> Result<Option<ErrorCode>, NoMemory>
        ensures refusal { let op = set_object self.now.moment object in
            IfOk result (λ code. code ≡ found_refusal scope.old.stage (Key.Space object.uri.space) op found.now) }
        ensures state { let op = set_object self.now.moment object in
            OnOk result (scope.new ≡ putting scope.old (Key.Space object.uri.space) op found.now) }
    {
        let needed = Key::Space(object.uri.space.copy(alloc)?);
        let op = set_object(alloc, self.moment, object)?;
        scope.put_found(op, &needed, found)
    }
}

fn granted_unless(alloc: Global, refusal: Option<ErrorCode>) -> Decision<PutResponse>
    ensures { result ≡ granted_unless refusal none_contained }
{
    match refusal {
        Some(code) => Decision::Refused(code),
        None => Decision::Granted(none_contained(alloc)),
    }
}

fn put_call(outcome: Outcome<Named<Op>, Named<Decision<()>>, StoreMessage>) -> ObjectOutcome
    ensures { result ≡ put_call outcome }
{
    match outcome {
        Outcome::Replies(sendings) => Outcome::Replies(sendings),
        Outcome::Calls { call, pending } => Outcome::Calls {
            call: StoreCall::Put { items: call },
            pending: ObjectPending::Put { items: pending },
        },
    }
}

fn staged_put_call(
    alloc: Global,
    moment: i64,
    outcome: Outcome<Named<List<Want>>, Named<Decision<ObjectRecord>>, StoreMessage>,
) -> Result<ObjectOutcome, NoMemory>
    ensures { IfOk result (λ o. o ≡ staged_put_call moment outcome) }
{
    match outcome {
        Outcome::Replies(sendings) => Ok(Outcome::Replies(sendings)),
        Outcome::Calls { call, pending } => Ok(Outcome::Calls {
            call: StoreCall::Look {
                items: joined_values(alloc, call)?,
            },
            pending: ObjectPending::StagedPut {
                moment,
                items: pending,
            },
        }),
    }
}

fn put_outside(
    alloc: Global,
    formats: &List<Format>,
    types: &Option<Shared<List<Text>>>,
    stage: &Option<Stage>,
    moment: i64,
    objects: Named<DataObject>,
) -> Result<ObjectOutcome, NoMemory>
    ensures { IfOk result (λ o. o ≡ put_outside formats.now types.now stage.now moment objects) }
{
    let request = Plain(PutObjects {
        formats,
        types,
        stage,
        moment,
    });
    let reply = Plain(PutObjectsReply);
    let outcome = request_outcome(alloc, &request, &reply, &mut (), objects)?;
    Ok(put_call(outcome))
}

fn put_inside(
    alloc: Global,
    formats: &List<Format>,
    types: &Option<Shared<List<Text>>>,
    stage: &Option<Stage>,
    moment: i64,
    objects: Named<DataObject>,
) -> Result<ObjectOutcome, NoMemory>
    ensures { IfOk result (λ o. o ≡ put_inside formats.now types.now stage.now moment objects) }
{
    let request = StagedPut {
        formats,
        types,
        stage,
    };
    let reply = StagedPutReply { moment };
    let outcome = request_outcome(alloc, &request, &reply, &mut (), objects)?;
    staged_put_call(alloc, moment, outcome)
}

/// What comes of a PutDataObjects that isn't refused as a whole.
pub(crate) fn put_outcome(
    alloc: Global,
    formats: &List<Format>,
    types: &Option<Shared<List<Text>>>,
    stage: &Option<Stage>,
    moment: i64,
    objects: Named<DataObject>,
) -> Result<ObjectOutcome, NoMemory>
    ensures { IfOk result (λ o. o ≡ put_outcome formats.now types.now stage.now moment objects) }
{
    match stage {
        None => put_outside(alloc, formats, types, stage, moment, objects),
        Some(_) => put_inside(alloc, formats, types, stage, moment, objects),
    }
}

/// The reply to a PutDataObjects outside a transaction, by the store's verdicts.
pub(crate) fn put_reply(
    alloc: Global,
    items: Named<Decision<()>>,
    verdicts: Named<Verdict>,
) -> Result<List<Sending<StoreMessage>>, NoMemory>
    ensures { IfOk result (λ l. l ≡ plain_reply put_decided put_response items verdicts) }
{
    let findings = Findings::from_vec(verdicts.into_vec());
    request_reply(alloc, &Plain(PutObjectsReply), &mut (), items, findings)
}

/// The reply to a PutDataObjects in a transaction, by what was seen.
pub(crate) fn staged_put_reply(
    alloc: Global,
    stage: Option<Stage>,
    moment: i64,
    items: Named<Decision<ObjectRecord>>,
    looks: List<Looked>,
) -> Result<Answered<StoreMessage>, NoMemory>
    ensures { IfOk result (λ r. r ≡ scoped_reply (staged_put moment) 2 put_response stage items looks) }
{
    let findings = Findings::from_vec(looks.into_vec());
    scoped_reply(alloc, &StagedPutReply { moment }, stage, items, findings)
}
