//! The requests of the Store protocol.
ghost use Rattle.std.specs.Prelude.{◌≡◌, [], IfOk};
ghost use Rattle.keyed_requests.specs.Sending.{refusal_alone};
ghost use Rattle.session_rows.specs.Objects.{change_refusal, looks_reply, object_outcome, object_reply, prune_refusal, says, verdicts_reply};

pub(crate) mod checking;
mod deleting;
mod getting;
mod putting;

use crate::formats::Format;
pub use crate::objects::checking::MAX_EXTRAS_SIZE;
use crate::objects::checking::session_format;
use crate::objects::deleting::{delete_outcome, delete_reply, staged_delete_reply};
use crate::objects::getting::{get_outcome, get_reply};
use crate::objects::putting::{put_outcome, put_reply, staged_put_reply};
use etp_values::{ErrorCode, List, Named, NoMemory, Shared, StoreUri, Text};
use keyed_requests::{Decision, Outcome, Sending, keys_refusal, refusal_alone, refused_outcome};
use msg_store::StoreMessage;
use object_store::ObjectRecord;
use request_scope::{Answered, is_read_only};
use std::alloc::Global;
use store_machine::{Looked, Reply, StoreCall, Verdict};
use tx_stage::Stage;

/// What a request of the Store protocol keeps while the store is asked.
#[derive(Drop)]
pub enum ObjectPending {
    /// GetDataObjects for a format, with the objects that its keys name.
    Get {
        format: Format,
        items: Named<Decision<StoreUri>>,
    },
    /// PutDataObjects outside a transaction, with what was decided about its keys.
    Put {
        items: Named<Decision<()>>,
    },
    /// PutDataObjects in a transaction, at this moment, with its objects.
    StagedPut {
        moment: i64,
        items: Named<Decision<ObjectRecord>>,
    },
    /// DeleteDataObjects outside a transaction, with the objects that its keys name.
    Delete {
        items: Named<Decision<StoreUri>>,
    },
    /// DeleteDataObjects in a transaction, at this moment.
    StagedDelete {
        moment: i64,
        items: Named<Decision<StoreUri>>,
    },
}

/// What comes of a request of the Store protocol.
pub type ObjectOutcome = Outcome<StoreCall, ObjectPending, StoreMessage>;

fn prune_refusal(prune: bool) -> Option<ErrorCode>
    ensures { result ≡ prune_refusal prune }
{
    if prune {
        return Some(ErrorCode::InvalidArgument);
    }
    None
}

/// Why a change of objects is refused as a whole: the transaction only reads, its keys exceed the limits, or it asks for contained objects
/// to be pruned.
fn change_refusal<T>(stage: &Option<Stage>, prune: bool, items: &Named<T>) -> Option<ErrorCode>
    ensures { result ≡ change_refusal stage.now prune items.now }
{
    if is_read_only(stage) {
        return Some(ErrorCode::RequestDenied);
    }
    match keys_refusal(items) {
        Some(code) => Some(code),
        None => prune_refusal(prune),
    }
}

/// What comes of a message of the Store protocol at this moment, in a session with these formats, within the open transaction, if
/// there is one; `types` are the filters of the types that are kept. Outside a transaction changes are put at once; in one each
/// request makes a single look.
///
/// A Chunk is refused by `InvalidMessageType`: it is for the joiner.
pub fn object_outcome(
    alloc: Global,
    formats: &List<Format>,
    types: &Option<Shared<List<Text>>>,
    stage: &Option<Stage>,
    moment: i64,
    message: StoreMessage,
) -> Result<ObjectOutcome, NoMemory>
    ensures { IfOk result (λ o. o ≡ object_outcome formats.now types.now stage.now moment message) }
{
    match message {
        StoreMessage::GetDataObjects(request) => match keys_refusal(&request.uris) {
            Some(code) => refused_outcome(alloc, code),
            None => {
                let format = session_format(formats, &request.format);
                get_outcome(alloc, stage, request.uris, format)
            }
        },
        StoreMessage::PutDataObjects(request) => match change_refusal(
            stage,
            request.prune_contained_objects,
            &request.data_objects,
        ) {
            Some(code) => refused_outcome(alloc, code),
            None => put_outcome(alloc, formats, types, stage, moment, request.data_objects),
        },
        StoreMessage::DeleteDataObjects(request) => match change_refusal(
            stage,
            request.prune_contained_objects,
            &request.uris,
        ) {
            Some(code) => refused_outcome(alloc, code),
            None => delete_outcome(alloc, stage, moment, request.uris),
        },
        StoreMessage::GetDataObjectsResponse(_)
        | StoreMessage::Chunk(_)
        | StoreMessage::PutDataObjectsResponse(_)
        | StoreMessage::DeleteDataObjectsResponse(_) => refused_outcome(
            alloc,
            ErrorCode::InvalidMessageType,
        ),
    }
}

/// A reply that leaves the transaction unchanged.
fn says(stage: Option<Stage>, sendings: List<Sending<StoreMessage>>) -> Answered<StoreMessage>
    ensures { result ≡ says stage sendings }
{
    Answered { stage, sendings }
}

fn verdicts_reply(
    alloc: Global,
    stage: Option<Stage>,
    pending: ObjectPending,
    verdicts: Named<Verdict>,
) -> Result<Answered<StoreMessage>, NoMemory>
    ensures { IfOk result (λ r. r ≡ verdicts_reply stage pending verdicts) }
{
    match pending {
        ObjectPending::Put { items } => {
            let sendings = put_reply(alloc, items, verdicts)?;
            Ok(says(stage, sendings))
        }
        ObjectPending::Delete { items } => {
            let sendings = delete_reply(alloc, items, verdicts)?;
            Ok(says(stage, sendings))
        }
        ObjectPending::Get { .. }
        | ObjectPending::StagedPut { .. }
        | ObjectPending::StagedDelete { .. } => Ok(says(stage, List::new(alloc))),
    }
}

fn looks_reply(
    alloc: Global,
    stage: Option<Stage>,
    pending: ObjectPending,
    looks: List<Looked>,
) -> Result<Answered<StoreMessage>, NoMemory>
    ensures { IfOk result (λ r. r ≡ looks_reply stage pending looks) }
{
    match pending {
        ObjectPending::Get { format, items } => get_reply(alloc, stage, format, items, looks),
        ObjectPending::StagedPut { moment, items } => {
            staged_put_reply(alloc, stage, moment, items, looks)
        }
        ObjectPending::StagedDelete { moment, items } => {
            staged_delete_reply(alloc, stage, moment, items, looks)
        }
        ObjectPending::Put { .. } | ObjectPending::Delete { .. } => {
            Ok(says(stage, List::new(alloc)))
        }
    }
}

/// The reply to a request of the Store protocol, once the store has answered its call, and what it leaves of the open transaction. An
/// answer that does not belong to the call has no reply.
pub fn object_reply(
    alloc: Global,
    stage: Option<Stage>,
    pending: ObjectPending,
    reply: Reply,
) -> Result<Answered<StoreMessage>, NoMemory>
    ensures { IfOk result (λ r. r ≡ object_reply stage pending reply) }
{
    match reply {
        Reply::Verdicts(verdicts) => verdicts_reply(alloc, stage, pending, verdicts),
        Reply::Looked(looks) => looks_reply(alloc, stage, pending, looks),
        Reply::JournalFull => {
            let sendings = refusal_alone(alloc, ErrorCode::LimitExceeded)?;
            Ok(says(stage, sendings))
        }
        other => Ok(no_reply(alloc, stage, other)),
    }
}

/// An answer that does not belong to the call has no reply.
fn no_reply(alloc: Global, stage: Option<Stage>, reply: Reply) -> Answered<StoreMessage>
    ensures { result ≡ says stage [] }
{
    drop(reply);
    says(stage, List::new(alloc))
}
