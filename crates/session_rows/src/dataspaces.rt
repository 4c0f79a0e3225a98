//! The requests of the Dataspace protocol.
ghost use Rattle.std.specs.Prelude.{◌≡◌, [], IfOk};
ghost use Rattle.keyed_requests.specs.Plain.{plain_outcome, plain_reply};
ghost use Rattle.keyed_requests.specs.Sending.{refusal_alone};
ghost use Rattle.session_rows.specs.Dataspaces.{change_refusal, changeable_path, checked_put, dataspace_of, dataspace_outcome, dataspace_reply, decided, decided_found, delete_call, delete_response, is_custom_large, listed, path_granted, put_call, put_response, records_reply, verdicts_reply};

use crate::spaces::space_path;
use etp_schema::encoded_size;
use etp_values::{Copied, DataValue, ErrorCode, List, Named, NoMemory, Text};
use keyed_requests::{
    Decision, Findings, Outcome, Plain, PlainReply, PlainRequest, Sending, keys_refusal,
    refusal_alone, refused_outcome, reply_alone, request_outcome, request_reply,
};
use msg_core::{
    Dataspace, DataspaceMessage, DeleteDataspacesResponse, GetDataspacesResponse,
    PutDataspacesResponse,
};
use object_store::SpaceRecord;
use std::alloc::Global;
use store_machine::{Reply, SpacePut, StoreCall, Verdict};

/// The maximum size of a dataspace's custom data on the wire, in bytes.
pub const MAX_CUSTOM_SIZE: u64 = 16_384;

/// What a request of the Dataspace protocol keeps while the store is asked.
#[derive(Debug, Drop)]
pub enum DataspacePending {
    /// GetDataspaces.
    Get,
    /// PutDataspaces, with what was decided about its keys.
    Put(Named<Decision<()>>),
    /// DeleteDataspaces, with what was decided about its keys.
    Delete(Named<Decision<()>>),
}

/// What comes of a request of the Dataspace protocol.
pub type DataspaceOutcome = Outcome<StoreCall, DataspacePending, DataspaceMessage>;

/// The path of a dataspace that can be changed; the default one can't.
fn changeable_path(alloc: Global, uri: &str) -> Result<Decision<Text>, NoMemory>
    ensures { IfOk result (λ d. d ≡ changeable_path uri.now) }
{
    match space_path(alloc, uri)? {
        Decision::Granted(path) => Ok(path_granted(path)),
        Decision::Refused(code) => Ok(Decision::Refused(code)),
    }
}

fn path_granted(path: Text) -> Decision<Text>
    ensures { result ≡ path_granted path }
{
    if path.is_empty() {
        return Decision::Refused(ErrorCode::RequestDenied);
    }
    Decision::Granted(path)
}

fn is_custom_large(alloc: Global, custom: &Named<DataValue>) -> Result<bool, NoMemory>
    ensures { IfOk result (λ large. large ≡ is_custom_large custom.now) }
{
    let size = encoded_size(alloc, custom)?;
    Ok(size > MAX_CUSTOM_SIZE)
}

/// What the store decided about a key.
fn decided(alloc: Global, verdict: &Verdict) -> Decision<Text>
    ensures { result ≡ decided verdict.now }
{
    match verdict {
        Verdict::Accepted => Decision::Granted(Text::new(alloc)),
        Verdict::Refused(code) => Decision::Refused(*code),
    }
}

/// PutDataspaces.
struct PutDataspaces;

impl PlainRequest for PutDataspaces {
    type Item = Dataspace;

    type Sent = SpacePut;

    ghost check = { λ put dataspace. checked_put dataspace };

    fn check(&self, alloc: Global, item: Dataspace) -> Result<Decision<SpacePut>, NoMemory> {
        let Dataspace {
            uri,
            custom_data,
            ..
        } = item;
        match changeable_path(alloc, uri.get().as_str())? {
            Decision::Granted(path) => {
                if is_custom_large(alloc, &custom_data)? {
                    return Ok(Decision::Refused(ErrorCode::SizeExceeded));
                }
                Ok(Decision::Granted(SpacePut {
                    path,
                    custom: custom_data,
                }))
            }
            Decision::Refused(code) => Ok(Decision::Refused(code)),
        }
    }
}

impl PlainReply for PutDataspaces {
    type Found = (Text, Verdict);

    type Given = Text;

    type Message = DataspaceMessage;

    ghost decide = { λ put found. decided_found found };

    ghost response = { λ put success. put_response success };

    fn decide(&self, alloc: Global, found: &(Text, Verdict)) -> Result<Decision<Text>, NoMemory> {
        Ok(decided(alloc, &found.1))
    }

    fn response(&self, success: Named<Text>) -> DataspaceMessage
        ensures { result ≡ put_response success }
    {
        DataspaceMessage::PutDataspacesResponse(PutDataspacesResponse { success })
    }
}

/// DeleteDataspaces.
struct DeleteDataspaces;

impl PlainRequest for DeleteDataspaces {
    type Item = Text;

    type Sent = Text;

    ghost check = { λ delete uri. changeable_path uri };

    fn check(&self, alloc: Global, item: Text) -> Result<Decision<Text>, NoMemory> {
        changeable_path(alloc, item.as_str())
    }
}

impl PlainReply for DeleteDataspaces {
    type Found = (Text, Verdict);

    type Given = Text;

    type Message = DataspaceMessage;

    ghost decide = { λ delete found. decided_found found };

    ghost response = { λ delete success. delete_response success };

    fn decide(&self, alloc: Global, found: &(Text, Verdict)) -> Result<Decision<Text>, NoMemory> {
        Ok(decided(alloc, &found.1))
    }

    fn response(&self, success: Named<Text>) -> DataspaceMessage
        ensures { result ≡ delete_response success }
    {
        DataspaceMessage::DeleteDataspacesResponse(DeleteDataspacesResponse { success })
    }
}

fn put_call(
    outcome: Outcome<Named<SpacePut>, Named<Decision<()>>, DataspaceMessage>,
) -> DataspaceOutcome
    ensures { result ≡ put_call outcome }
{
    match outcome {
        Outcome::Replies(sendings) => Outcome::Replies(sendings),
        Outcome::Calls { call, pending } => Outcome::Calls {
            call: StoreCall::PutSpaces { items: call },
            pending: DataspacePending::Put(pending),
        },
    }
}

fn put_outcome(alloc: Global, items: Named<Dataspace>) -> Result<DataspaceOutcome, NoMemory>
    ensures { let outcome = plain_outcome checked_put put_response items in
        IfOk result (λ o. o ≡ put_call outcome) }
{
    let outcome = request_outcome(
        alloc,
        &Plain(PutDataspaces),
        &Plain(PutDataspaces),
        &mut (),
        items,
    )?;
    Ok(put_call(outcome))
}

fn delete_call(
    outcome: Outcome<Named<Text>, Named<Decision<()>>, DataspaceMessage>,
) -> DataspaceOutcome
    ensures { result ≡ delete_call outcome }
{
    match outcome {
        Outcome::Replies(sendings) => Outcome::Replies(sendings),
        Outcome::Calls { call, pending } => Outcome::Calls {
            call: StoreCall::DropSpaces { items: call },
            pending: DataspacePending::Delete(pending),
        },
    }
}

fn delete_outcome(alloc: Global, items: Named<Text>) -> Result<DataspaceOutcome, NoMemory>
    ensures { let outcome = plain_outcome changeable_path delete_response items in
        IfOk result (λ o. o ≡ delete_call outcome) }
{
    let outcome = request_outcome(
        alloc,
        &Plain(DeleteDataspaces),
        &Plain(DeleteDataspaces),
        &mut (),
        items,
    )?;
    Ok(delete_call(outcome))
}

/// Why a change of dataspaces is refused as a whole: a transaction is open, or its keys exceed the limits.
fn change_refusal<T>(in_transaction: bool, items: &Named<T>) -> Option<ErrorCode>
    ensures { result ≡ change_refusal in_transaction items.now }
{
    if in_transaction {
        return Some(ErrorCode::InvalidState);
    }
    keys_refusal(items)
}

/// What comes of a message of the Dataspace protocol, by whether a transaction is open.
pub fn dataspace_outcome(
    alloc: Global,
    message: DataspaceMessage,
    in_transaction: bool,
) -> Result<DataspaceOutcome, NoMemory>
    ensures { IfOk result (λ o. o ≡ dataspace_outcome message in_transaction) }
{
    match message {
        DataspaceMessage::GetDataspaces(request) => Ok(Outcome::Calls {
            call: StoreCall::Spaces {
                newer: request.store_last_write_filter,
            },
            pending: DataspacePending::Get,
        }),
        DataspaceMessage::PutDataspaces(request) => match change_refusal(
            in_transaction,
            &request.dataspaces,
        ) {
            Some(code) => refused_outcome(alloc, code),
            None => put_outcome(alloc, request.dataspaces),
        },
        DataspaceMessage::DeleteDataspaces(request) => match change_refusal(
            in_transaction,
            &request.uris,
        ) {
            Some(code) => refused_outcome(alloc, code),
            None => delete_outcome(alloc, request.uris),
        },
        DataspaceMessage::GetDataspacesResponse(_)
        | DataspaceMessage::PutDataspacesResponse(_)
        | DataspaceMessage::DeleteDataspacesResponse(_) => refused_outcome(
            alloc,
            ErrorCode::InvalidMessageType,
        ),
    }
}

fn dataspace_of(space: SpaceRecord) -> Dataspace
    ensures { result ≡ dataspace_of space }
{
    let SpaceRecord {
        path,
        written,
        created,
        custom,
    } = space;
    let (path, uri) = path.into_texts();
    Dataspace {
        uri,
        path,
        store_last_write: written,
        store_created: created,
        custom_data: custom,
    }
}

/// The response that lists these dataspaces.
fn listed(alloc: Global, records: List<SpaceRecord>) -> Result<DataspaceMessage, NoMemory>
    ensures { IfOk result (λ message. message ≡ listed records) }
{
    let mut dataspaces = Vec::new(alloc);
    dataspaces.reserve(records.len())?;
    for space in records.into_vec() {
        dataspaces.push(dataspace_of(space))?;
    }
    Ok(DataspaceMessage::GetDataspacesResponse(GetDataspacesResponse {
        dataspaces: List::from_vec(dataspaces),
    }))
}

fn records_reply(
    alloc: Global,
    pending: DataspacePending,
    records: List<SpaceRecord>,
) -> Result<List<Sending<DataspaceMessage>>, NoMemory>
    ensures { IfOk result (λ sendings. sendings ≡ records_reply pending records) }
{
    match pending {
        DataspacePending::Get => {
            let message = listed(alloc, records)?;
            reply_alone(alloc, message)
        }
        DataspacePending::Put(_) | DataspacePending::Delete(_) => Ok(List::new(alloc)),
    }
}

fn put_reply(
    alloc: Global,
    items: Named<Decision<()>>,
    verdicts: Named<Verdict>,
) -> Result<List<Sending<DataspaceMessage>>, NoMemory>
    ensures { IfOk result (λ l. l ≡ plain_reply decided_found put_response items verdicts) }
{
    let findings = Findings::from_vec(verdicts.into_vec());
    request_reply(alloc, &Plain(PutDataspaces), &mut (), items, findings)
}

fn delete_reply(
    alloc: Global,
    items: Named<Decision<()>>,
    verdicts: Named<Verdict>,
) -> Result<List<Sending<DataspaceMessage>>, NoMemory>
    ensures { IfOk result (λ l. l ≡ plain_reply decided_found delete_response items verdicts) }
{
    let findings = Findings::from_vec(verdicts.into_vec());
    request_reply(alloc, &Plain(DeleteDataspaces), &mut (), items, findings)
}

fn verdicts_reply(
    alloc: Global,
    pending: DataspacePending,
    verdicts: Named<Verdict>,
) -> Result<List<Sending<DataspaceMessage>>, NoMemory>
    ensures { IfOk result (λ sendings. sendings ≡ verdicts_reply pending verdicts) }
{
    match pending {
        DataspacePending::Get => Ok(List::new(alloc)),
        DataspacePending::Put(items) => put_reply(alloc, items, verdicts),
        DataspacePending::Delete(items) => delete_reply(alloc, items, verdicts),
    }
}

/// An answer that does not belong to the call has no reply.
fn no_reply(alloc: Global, reply: Reply) -> List<Sending<DataspaceMessage>>
    ensures { result ≡ [] }
{
    drop(reply);
    List::new(alloc)
}

/// The reply to a request of the Dataspace protocol, once the store has answered its call.
pub fn dataspace_reply(
    alloc: Global,
    pending: DataspacePending,
    reply: Reply,
) -> Result<List<Sending<DataspaceMessage>>, NoMemory>
    ensures { IfOk result (λ sendings. sendings ≡ dataspace_reply pending reply) }
{
    match reply {
        Reply::Spaces(records) => records_reply(alloc, pending, records),
        Reply::Verdicts(verdicts) => verdicts_reply(alloc, pending, verdicts),
        Reply::JournalFull => refusal_alone(alloc, ErrorCode::LimitExceeded),
        other => Ok(no_reply(alloc, other)),
    }
}
