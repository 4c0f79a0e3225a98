//! The messages of the Dataspace protocol (24), with their records.
ghost use Rattle.std.specs.Prelude.{◌≡◌, pos};
ghost use Rattle.std.specs.List.{AllByRecursion};
ghost use Rattle.etp_schema.specs.Family.{IsFound, IsAgain};
ghost use Rattle.msg_core.specs.Dataspace.{dataspace_body, dataspace_kinds};

use etp_schema::Typed;
use etp_values::{DataValue, List, Named, Shared, Text};

/// A dataspace: a space of its own for data objects.
#[derive(Debug, Drop)]
pub struct Dataspace {
    /// The dataspace's URI.
    pub uri: Shared<Text>,
    /// The dataspace's path; empty for the default one.
    pub path: Shared<Text>,
    /// The time of the last write, in microseconds since 1970-01-01 UTC.
    pub store_last_write: i64,
    /// The time at which it was created in the store, in microseconds since 1970-01-01 UTC.
    pub store_created: i64,
    /// What the customer keeps with it, by name.
    pub custom_data: Named<DataValue>,
}

impl Typed for Dataspace {
    ghost use Rattle.msg_core.specs.Dataspace.{dataspace_form};

    ghost form = { dataspace_form };
}

/// Asks which dataspaces exist.
#[derive(Debug, Drop)]
pub struct GetDataspaces {
    /// If given, only dataspaces that were written after this time are wanted, in microseconds since 1970-01-01 UTC.
    pub store_last_write_filter: Option<i64>,
}

impl Typed for GetDataspaces {
    ghost use Rattle.msg_core.specs.Dataspace.{get_dataspaces_form};

    ghost form = { get_dataspaces_form };
}

/// Answers GetDataspaces.
#[derive(Debug, Drop)]
pub struct GetDataspacesResponse {
    /// The dataspaces in the byte order of their paths.
    pub dataspaces: List<Dataspace>,
}

impl Typed for GetDataspacesResponse {
    ghost use Rattle.msg_core.specs.Dataspace.{get_dataspaces_response_form};

    ghost form = { get_dataspaces_response_form };
}

/// Creates or overwrites dataspaces.
#[derive(Debug, Drop)]
pub struct PutDataspaces {
    /// The dataspaces to create or overwrite, under the client's keys.
    pub dataspaces: Named<Dataspace>,
}

impl Typed for PutDataspaces {
    ghost use Rattle.msg_core.specs.Dataspace.{put_dataspaces_form};

    ghost form = { put_dataspaces_form };
}

/// Deletes dataspaces with everything in them.
#[derive(Debug, Drop)]
pub struct DeleteDataspaces {
    /// The URIs of the dataspaces, under the client's keys.
    pub uris: Named<Text>,
}

impl Typed for DeleteDataspaces {
    ghost use Rattle.msg_core.specs.Dataspace.{delete_dataspaces_form};

    ghost form = { delete_dataspaces_form };
}

/// Answers DeleteDataspaces.
#[derive(Debug, Drop)]
pub struct DeleteDataspacesResponse {
    /// An empty text for each key that was granted.
    pub success: Named<Text>,
}

impl Typed for DeleteDataspacesResponse {
    ghost use Rattle.msg_core.specs.Dataspace.{delete_dataspaces_response_form};

    ghost form = { delete_dataspaces_response_form };
}

/// Answers PutDataspaces.
#[derive(Debug, Drop)]
pub struct PutDataspacesResponse {
    /// An empty text for each key that was granted.
    pub success: Named<Text>,
}

impl Typed for PutDataspacesResponse {
    ghost use Rattle.msg_core.specs.Dataspace.{put_dataspaces_response_form};

    ghost form = { put_dataspaces_response_form };
}

/// A message of the Dataspace protocol.
#[derive(Debug, Drop)]
pub enum DataspaceMessage {
    GetDataspaces(GetDataspaces),
    GetDataspacesResponse(GetDataspacesResponse),
    PutDataspaces(PutDataspaces),
    DeleteDataspaces(DeleteDataspaces),
    DeleteDataspacesResponse(DeleteDataspacesResponse),
    PutDataspacesResponse(PutDataspacesResponse),
}

impl DataspaceMessage {
    /// The message's number.
    pub fn kind(&self) -> i32
        ensures { result ≡ pos (dataspace_body self.now).number }
    {
        match self {
            DataspaceMessage::GetDataspaces(_) => 1,
            DataspaceMessage::GetDataspacesResponse(_) => 2,
            DataspaceMessage::PutDataspaces(_) => 3,
            DataspaceMessage::DeleteDataspaces(_) => 4,
            DataspaceMessage::DeleteDataspacesResponse(_) => 5,
            DataspaceMessage::PutDataspacesResponse(_) => 6,
        }
    }
}

/// How DataspaceMessage and the trees of its bodies relate: each message is found by its number and its body is read as that message, and
/// what is read from a body is written as that body.
pub fn dataspace_laws()
    ensures found { (x : DataspaceMessage) → IsFound dataspace_kinds dataspace_body x }
    ensures again { AllByRecursion (IsAgain dataspace_body) dataspace_kinds }
{}
