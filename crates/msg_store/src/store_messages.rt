//! The messages of the Store protocol (4), with their records.
ghost use Rattle.std.specs.Prelude.{◌≡◌, pos};
ghost use Rattle.std.specs.List.{AllByRecursion};
ghost use Rattle.etp_schema.specs.Family.{IsFound, IsAgain};
ghost use Rattle.msg_store.specs.Store.{store_body, store_kinds};

use etp_schema::{ActiveStatusKind, Typed};
use etp_values::{Blob, DataValue, Id16, List, Named, Text};

/// The description of a data object, apart from its data.
#[derive(Debug, Drop)]
pub struct Resource {
    /// The object's URI.
    pub uri: Text,
    /// Other URIs of the object, as its client wrote them.
    pub alternate_uris: List<Text>,
    /// The object's name, for people.
    pub name: Text,
    /// How many objects refer to this one; null if that is not counted.
    pub source_count: Option<i32>,
    /// How many objects this one refers to; null if that is not counted.
    pub target_count: Option<i32>,
    /// When the object last changed, according to its client, in microseconds since 1970-01-01 UTC.
    pub last_changed: i64,
    /// The time of the last write, in microseconds since 1970-01-01 UTC.
    pub store_last_write: i64,
    /// The time at which it was created in the store, in microseconds since 1970-01-01 UTC.
    pub store_created: i64,
    /// Whether the object is being written to.
    pub active_status: ActiveStatusKind,
    /// What the customer keeps with it, by name.
    pub custom_data: Named<DataValue>,
}

impl Typed for Resource {
    ghost use Rattle.msg_store.specs.Store.{resource_form};

    ghost form = { resource_form };
}

/// A data object with its data, which no store interprets.
#[derive(Debug, Drop)]
pub struct DataObject {
    pub resource: Resource,
    /// The format of the data: `xml`, `json`; empty for `xml`.
    pub format: Text,
    /// If given, the data come in the chunks with this identity, and `payload` is empty.
    pub blob_id: Option<Id16>,
    /// The data (`data` in the schema).
    pub payload: Blob,
}

impl Typed for DataObject {
    ghost use Rattle.msg_store.specs.Store.{data_object_form};

    ghost form = { data_object_form };
}

/// What became of the objects that are contained in one that was put, by their URIs. A store that does not look into
/// objects leaves the four lists empty.
#[derive(Debug, Drop)]
pub struct PutResponse {
    /// Those that were created.
    pub created_contained_object_uris: List<Text>,
    /// Those that were deleted.
    pub deleted_contained_object_uris: List<Text>,
    /// Those that existed already, and which the object now contains.
    pub joined_contained_object_uris: List<Text>,
    /// Those that still exist, and which the object no longer contains.
    pub unjoined_contained_object_uris: List<Text>,
}

impl Typed for PutResponse {
    ghost use Rattle.msg_store.specs.Store.{put_response_form};

    ghost form = { put_response_form };
}

/// A list of texts, as a record.
#[derive(Debug, Drop)]
pub struct ArrayOfString {
    pub values: List<Text>,
}

impl Typed for ArrayOfString {
    ghost use Rattle.msg_store.specs.Store.{array_of_string_form};

    ghost form = { array_of_string_form };
}

/// Asks for data objects.
#[derive(Debug, Drop)]
pub struct GetDataObjects {
    /// The URIs of the objects, under the client's keys.
    pub uris: Named<Text>,
    /// The format in which the objects are wanted; empty for `xml`.
    pub format: Text,
}

impl Typed for GetDataObjects {
    ghost use Rattle.msg_store.specs.Store.{get_data_objects_form};

    ghost form = { get_data_objects_form };
}

/// Creates or overwrites data objects.
#[derive(Debug, Drop)]
pub struct PutDataObjects {
    /// The objects to create or overwrite, under the client's keys.
    pub data_objects: Named<DataObject>,
    /// Whether contained objects that no object contains any longer are to be deleted as well.
    pub prune_contained_objects: bool,
}

impl Typed for PutDataObjects {
    ghost use Rattle.msg_store.specs.Store.{put_data_objects_form};

    ghost form = { put_data_objects_form };
}

/// Deletes data objects with their arrays.
#[derive(Debug, Drop)]
pub struct DeleteDataObjects {
    /// The URIs of the objects, under the client's keys.
    pub uris: Named<Text>,
    /// Whether contained objects that no object contains any longer are to be deleted as well.
    pub prune_contained_objects: bool,
}

impl Typed for DeleteDataObjects {
    ghost use Rattle.msg_store.specs.Store.{delete_data_objects_form};

    ghost form = { delete_data_objects_form };
}

/// Answers GetDataObjects.
#[derive(Debug, Drop)]
pub struct GetDataObjectsResponse {
    /// The objects, under the client's keys.
    pub data_objects: Named<DataObject>,
}

impl Typed for GetDataObjectsResponse {
    ghost use Rattle.msg_store.specs.Store.{get_data_objects_response_form};

    ghost form = { get_data_objects_response_form };
}

/// A piece of the data of an object that was sent with a `blob_id`. The pieces follow in order after the message that has the object.
#[derive(Debug, Drop)]
pub struct Chunk {
    /// The identity that the object was sent with.
    pub blob_id: Id16,
    /// The piece (`data` in the schema).
    pub payload: Blob,
    /// Whether the data end with this piece (`final` in the schema).
    pub last: bool,
}

impl Typed for Chunk {
    ghost use Rattle.msg_store.specs.Store.{chunk_form};

    ghost form = { chunk_form };
}

/// Answers PutDataObjects.
#[derive(Debug, Drop)]
pub struct PutDataObjectsResponse {
    /// What was done for each key that was granted.
    pub success: Named<PutResponse>,
}

impl Typed for PutDataObjectsResponse {
    ghost use Rattle.msg_store.specs.Store.{put_data_objects_response_form};

    ghost form = { put_data_objects_response_form };
}

/// Answers DeleteDataObjects.
#[derive(Debug, Drop)]
pub struct DeleteDataObjectsResponse {
    /// The URIs of the objects that were deleted, for each key that was granted.
    pub deleted_uris: Named<ArrayOfString>,
}

impl Typed for DeleteDataObjectsResponse {
    ghost use Rattle.msg_store.specs.Store.{delete_data_objects_response_form};

    ghost form = { delete_data_objects_response_form };
}

/// A message of the Store protocol.
#[derive(Debug, Drop)]
pub enum StoreMessage {
    GetDataObjects(GetDataObjects),
    PutDataObjects(PutDataObjects),
    DeleteDataObjects(DeleteDataObjects),
    GetDataObjectsResponse(GetDataObjectsResponse),
    Chunk(Chunk),
    PutDataObjectsResponse(PutDataObjectsResponse),
    DeleteDataObjectsResponse(DeleteDataObjectsResponse),
}

impl StoreMessage {
    /// The message's number.
    pub fn kind(&self) -> i32
        ensures { result ≡ pos (store_body self.now).number }
    {
        match self {
            StoreMessage::GetDataObjects(_) => 1,
            StoreMessage::PutDataObjects(_) => 2,
            StoreMessage::DeleteDataObjects(_) => 3,
            StoreMessage::GetDataObjectsResponse(_) => 4,
            StoreMessage::Chunk(_) => 8,
            StoreMessage::PutDataObjectsResponse(_) => 9,
            StoreMessage::DeleteDataObjectsResponse(_) => 10,
        }
    }
}

/// How StoreMessage and the trees of its bodies relate: each message is found by its number and its body is read as that message, and what
/// is read from a body is written as that body.
pub fn store_laws()
    ensures found { (x : StoreMessage) → IsFound store_kinds store_body x }
    ensures again { AllByRecursion (IsAgain store_body) store_kinds }
{}
