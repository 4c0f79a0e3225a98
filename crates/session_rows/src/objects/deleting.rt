//! DeleteDataObjects.
ghost use Rattle.std.specs.Prelude.{◌≡◌, IfOk, OnOk};
ghost use Rattle.keyed_requests.specs.Keyed.{checked, finished, request_outcome, request_reply};
ghost use Rattle.keyed_requests.specs.Plain.{nothing};
ghost use Rattle.request_scope.specs.Reply.{scoped_reply};
ghost use Rattle.session_rows.specs.ObjectChecks.{named_object};
ghost use Rattle.session_rows.specs.Objects.{delete_call, delete_decided, delete_inside, delete_one, delete_outcome, delete_outside, delete_response, remove_object, removed, staged_delete, staged_delete_call};
ghost use Rattle.tx_stage.specs.declared.look.Want.TheVariants as want;

use crate::objects::checking::named_object;
use crate::objects::{ObjectOutcome, ObjectPending};
use etp_values::{Copied, ErrorCode, List, Named, NoMemory, StoreUri, Text};
use keyed_requests::{
    Decision, Findings, KeyedReply, KeyedRequest, Outcome, Sending, request_outcome, request_reply,
    sent_values,
};
use msg_store::{ArrayOfString, DeleteDataObjectsResponse, StoreMessage};
use request_scope::{Answered, Scope, scoped_reply};
use std::alloc::Global;
use store_machine::{Looked, StoreCall, Verdict, Want};
use tx_stage::{Key, Op, OpWhat, Stage};

/// The first half without a transaction: each object is removed.
#[derive(Drop)]
struct DeleteObjects<'a> {
    stage: &'a Option<Stage>,
    moment: i64,
}

impl<'a> KeyedRequest for DeleteObjects<'a> {
    type Item = Text;

    type Checked = StoreUri;

    type Kept = StoreUri;

    type Sent = Op;

    type Checking = ();

    ghost check = { λ delete s uri. (s, named_object delete.stage.now uri) };

    ghost keep = { λ delete uri. uri };

    ghost send = { λ delete uri. remove_object delete.moment uri };

    fn check(
        &self,
        alloc: Global,
        _state: &mut (),
        item: Text,
    ) -> Result<Decision<StoreUri>, NoMemory> {
        named_object(alloc, self.stage, item.as_str())
    }

    fn divide(&self, alloc: Global, checked: StoreUri) -> Result<(StoreUri, Op), NoMemory> {
        let op = remove_object(alloc, self.moment, &checked)?;
        Ok((checked, op))
    }
}

/// The operation that removes an object.
fn remove_object(alloc: Global, at: i64, uri: &StoreUri) -> Result<Op, NoMemory>
    ensures { IfOk result (λ o. o ≡ remove_object at uri.now) }
{
    Ok(Op {
        key: Key::Object(uri.copy(alloc)?),
        what: OpWhat::Gone,
        at,
    })
}

/// The canonical URI of a removed object.
fn removed(alloc: Global, uri: &StoreUri) -> Result<ArrayOfString, NoMemory>
    ensures { IfOk result (λ a. a ≡ removed uri.now) }
{
    let mut uris = Vec::new(alloc);
    uris.push(uri.write(alloc)?)?;
    Ok(ArrayOfString {
        values: List::from_vec(uris),
    })
}

/// What the store decided about a removal.
fn delete_decided(
    alloc: Global,
    uri: &StoreUri,
    verdict: &Verdict,
) -> Result<Decision<ArrayOfString>, NoMemory>
    ensures { IfOk result (λ d. d ≡ delete_decided uri.now verdict.now) }
{
    match verdict {
        Verdict::Accepted => Ok(Decision::Granted(removed(alloc, uri)?)),
        Verdict::Refused(code) => Ok(Decision::Refused(*code)),
    }
}

fn delete_response(deleted_uris: Named<ArrayOfString>) -> StoreMessage
    ensures { result ≡ delete_response deleted_uris }
{
    StoreMessage::DeleteDataObjectsResponse(DeleteDataObjectsResponse { deleted_uris })
}

/// The second half without a transaction: by the store's verdicts.
#[derive(Drop)]
struct DeleteObjectsReply;

impl KeyedReply for DeleteObjectsReply {
    type Kept = StoreUri;

    type Found = (Text, Verdict);

    type Given = ArrayOfString;

    type Finishing = ();

    type Message = StoreMessage;

    ghost width = { 1 };

    ghost finish = { λ delete s key uri found. delete_one s key uri found };

    ghost response = { λ delete uris. delete_response uris };

    fn width(&self) -> usize {
        1
    }

    fn finish(
        &self,
        alloc: Global,
        _state: &mut (),
        _key: &Text,
        kept: StoreUri,
        found: List<(Text, Verdict)>,
    ) -> Result<Decision<ArrayOfString>, NoMemory>
        ensures decision { IfOk result (λ d. d ≡ (delete_one _state.old _key.now kept found).1) }
        ensures state { OnOk result (_state.new ≡ _state.old) }
    {
        match found.as_slice().first() {
            Some(found) => delete_decided(alloc, &kept, &found.1),
            None => Ok(Decision::Refused(ErrorCode::RequestDenied)),
        }
    }

    fn response(&self, granted: Named<ArrayOfString>) -> StoreMessage
        ensures { result ≡ delete_response granted }
    {
        delete_response(granted)
    }
}

/// The first half in a transaction: each object is looked at.
#[derive(Drop)]
struct StagedDelete<'a> {
    stage: &'a Option<Stage>,
}

impl<'a> KeyedRequest for StagedDelete<'a> {
    type Item = Text;

    type Checked = StoreUri;

    type Kept = StoreUri;

    type Sent = Want;

    type Checking = ();

    ghost check = { λ delete s uri. (s, named_object delete.stage.now uri) };

    ghost keep = { λ delete uri. uri };

    ghost send = { λ delete uri. want.Known uri };

    fn check(
        &self,
        alloc: Global,
        _state: &mut (),
        item: Text,
    ) -> Result<Decision<StoreUri>, NoMemory> {
        named_object(alloc, self.stage, item.as_str())
    }

    fn divide(&self, alloc: Global, checked: StoreUri) -> Result<(StoreUri, Want), NoMemory> {
        let looked_at = checked.copy(alloc)?;
        Ok((checked, Want::Known(looked_at)))
    }
}

/// The second half in a transaction: each removal is staged.
#[derive(Drop)]
struct StagedDeleteReply {
    moment: i64,
}

impl KeyedReply for StagedDeleteReply {
    type Kept = StoreUri;

    type Found = Looked;

    type Given = ArrayOfString;

    type Finishing = Scope;

    type Message = StoreMessage;

    ghost width = { 1 };

    ghost finish = { λ delete s key uri found. staged_delete delete.moment s key uri found };

    ghost response = { λ delete uris. delete_response uris };

    fn width(&self) -> usize {
        1
    }

    fn finish(
        &self,
        alloc: Global,
        state: &mut Scope,
        _key: &Text,
        kept: StoreUri,
        found: List<Looked>,
    ) -> Result<Decision<ArrayOfString>, NoMemory>
        ensures decision { IfOk result (λ d. d ≡ (staged_delete self.now.moment state.old _key.now kept found).1) }
        ensures state { OnOk result (state.new ≡ (staged_delete self.now.moment state.old _key.now kept found).0) }
    {
        let needed = Key::Object(kept.copy(alloc)?);
        let op = remove_object(alloc, self.moment, &kept)?;
        match state.put_found(op, &needed, found.as_slice())? {
            Some(code) => Ok(Decision::Refused(code)),
            None => Ok(Decision::Granted(removed(alloc, &kept)?)),
        }
    }

    fn response(&self, granted: Named<ArrayOfString>) -> StoreMessage
        ensures { result ≡ delete_response granted }
    {
        delete_response(granted)
    }
}

fn delete_call(
    outcome: Outcome<Named<Op>, Named<Decision<StoreUri>>, StoreMessage>,
) -> ObjectOutcome
    ensures { result ≡ delete_call outcome }
{
    match outcome {
        Outcome::Replies(sendings) => Outcome::Replies(sendings),
        Outcome::Calls { call, pending } => Outcome::Calls {
            call: StoreCall::Put { items: call },
            pending: ObjectPending::Delete { items: pending },
        },
    }
}

fn staged_delete_call(
    alloc: Global,
    moment: i64,
    outcome: Outcome<Named<Want>, Named<Decision<StoreUri>>, StoreMessage>,
) -> Result<ObjectOutcome, NoMemory>
    ensures { IfOk result (λ o. o ≡ staged_delete_call moment outcome) }
{
    match outcome {
        Outcome::Replies(sendings) => Ok(Outcome::Replies(sendings)),
        Outcome::Calls { call, pending } => Ok(Outcome::Calls {
            call: StoreCall::Look {
                items: sent_values(alloc, call)?,
            },
            pending: ObjectPending::StagedDelete {
                moment,
                items: pending,
            },
        }),
    }
}

fn delete_outside(
    alloc: Global,
    stage: &Option<Stage>,
    moment: i64,
    uris: Named<Text>,
) -> Result<ObjectOutcome, NoMemory>
    ensures { IfOk result (λ o. o ≡ delete_outside stage.now moment uris) }
{
    let request = DeleteObjects { stage, moment };
    let outcome = request_outcome(alloc, &request, &DeleteObjectsReply, &mut (), uris)?;
    Ok(delete_call(outcome))
}

fn delete_inside(
    alloc: Global,
    stage: &Option<Stage>,
    moment: i64,
    uris: Named<Text>,
) -> Result<ObjectOutcome, NoMemory>
    ensures { IfOk result (λ o. o ≡ delete_inside stage.now moment uris) }
{
    let request = StagedDelete { stage };
    let reply = StagedDeleteReply { moment };
    let outcome = request_outcome(alloc, &request, &reply, &mut (), uris)?;
    staged_delete_call(alloc, moment, outcome)
}

/// What comes of a DeleteDataObjects that isn't refused as a whole.
pub(crate) fn delete_outcome(
    alloc: Global,
    stage: &Option<Stage>,
    moment: i64,
    uris: Named<Text>,
) -> Result<ObjectOutcome, NoMemory>
    ensures { IfOk result (λ o. o ≡ delete_outcome stage.now moment uris) }
{
    match stage {
        None => delete_outside(alloc, stage, moment, uris),
        Some(_) => delete_inside(alloc, stage, moment, uris),
    }
}

/// The reply to a DeleteDataObjects outside a transaction, by the store's verdicts.
pub(crate) fn delete_reply(
    alloc: Global,
    items: Named<Decision<StoreUri>>,
    verdicts: Named<Verdict>,
) -> Result<List<Sending<StoreMessage>>, NoMemory>
    ensures { IfOk result (λ l. l ≡ request_reply delete_response (finished delete_one 1 nothing items verdicts)) }
{
    let findings = Findings::from_vec(verdicts.into_vec());
    request_reply(alloc, &DeleteObjectsReply, &mut (), items, findings)
}

/// The reply to a DeleteDataObjects in a transaction, by what was seen.
pub(crate) fn staged_delete_reply(
    alloc: Global,
    stage: Option<Stage>,
    moment: i64,
    items: Named<Decision<StoreUri>>,
    looks: List<Looked>,
) -> Result<Answered<StoreMessage>, NoMemory>
    ensures { IfOk result (λ r. r ≡ scoped_reply (staged_delete moment) 1 delete_response stage items looks) }
{
    let findings = Findings::from_vec(looks.into_vec());
    scoped_reply(alloc, &StagedDeleteReply { moment }, stage, items, findings)
}
