//! The messages of the Store protocol as trees.
//!
//! `schema/write` writes all below the imports from `schema/messages.txt`.
ghost use Rattle.msg_store.specs.Store.{store_body, store_kinds};

use crate::body_in_tree::BodyInTree;
use crate::in_tree::InTree;
use crate::record_fields::{fields_of, tree_of};
use avro_bin::Tree;
use etp_values::NoMemory;
use msg_store::{
    ArrayOfString, Chunk, DataObject, DeleteDataObjects, DeleteDataObjectsResponse, GetDataObjects,
    GetDataObjectsResponse, PutDataObjects, PutDataObjectsResponse, PutResponse, Resource,
    StoreMessage,
};
use std::alloc::Global;

impl InTree for Resource {
    #[tactic(auto, unfolding(etp_schema::specs::Form::Holds))]
    fn to_tree(&self, alloc: Global) -> Result<Tree, NoMemory> {
        tree_of(
            alloc,
            (
                &self.uri,
                (
                    &self.alternate_uris,
                    (
                        &self.name,
                        (
                            &self.source_count,
                            (
                                &self.target_count,
                                (
                                    &self.last_changed,
                                    (
                                        &self.store_last_write,
                                        (
                                            &self.store_created,
                                            (&self.active_status, (&self.custom_data, ())),
                                        ),
                                    ),
                                ),
                            ),
                        ),
                    ),
                ),
            ),
        )
    }

    fn from_tree(alloc: Global, tree: Tree) -> Result<Resource, NoMemory> {
        let (
            uri,
            (
                alternate_uris,
                (
                    name,
                    (
                        source_count,
                        (
                            target_count,
                            (
                                last_changed,
                                (
                                    store_last_write,
                                    (store_created, (active_status, (custom_data, ()))),
                                ),
                            ),
                        ),
                    ),
                ),
            ),
        ) = fields_of(alloc, tree)?;
        Ok(Resource {
            uri,
            alternate_uris,
            name,
            source_count,
            target_count,
            last_changed,
            store_last_write,
            store_created,
            active_status,
            custom_data,
        })
    }
}

impl InTree for DataObject {
    #[tactic(auto, unfolding(etp_schema::specs::Form::Holds))]
    fn to_tree(&self, alloc: Global) -> Result<Tree, NoMemory> {
        tree_of(
            alloc,
            (
                &self.resource,
                (&self.format, (&self.blob_id, (&self.payload, ()))),
            ),
        )
    }

    fn from_tree(alloc: Global, tree: Tree) -> Result<DataObject, NoMemory> {
        let (resource, (format, (blob_id, (payload, ())))) = fields_of(alloc, tree)?;
        Ok(DataObject {
            resource,
            format,
            blob_id,
            payload,
        })
    }
}

impl InTree for PutResponse {
    #[tactic(auto, unfolding(etp_schema::specs::Form::Holds))]
    fn to_tree(&self, alloc: Global) -> Result<Tree, NoMemory> {
        tree_of(
            alloc,
            (
                &self.created_contained_object_uris,
                (
                    &self.deleted_contained_object_uris,
                    (
                        &self.joined_contained_object_uris,
                        (&self.unjoined_contained_object_uris, ()),
                    ),
                ),
            ),
        )
    }

    fn from_tree(alloc: Global, tree: Tree) -> Result<PutResponse, NoMemory> {
        let (
            created_contained_object_uris,
            (
                deleted_contained_object_uris,
                (joined_contained_object_uris, (unjoined_contained_object_uris, ())),
            ),
        ) = fields_of(alloc, tree)?;
        Ok(PutResponse {
            created_contained_object_uris,
            deleted_contained_object_uris,
            joined_contained_object_uris,
            unjoined_contained_object_uris,
        })
    }
}

impl InTree for ArrayOfString {
    #[tactic(auto, unfolding(etp_schema::specs::Form::Holds))]
    fn to_tree(&self, alloc: Global) -> Result<Tree, NoMemory> {
        tree_of(alloc, (&self.values, ()))
    }

    fn from_tree(alloc: Global, tree: Tree) -> Result<ArrayOfString, NoMemory> {
        let (values, ()) = fields_of(alloc, tree)?;
        Ok(ArrayOfString { values })
    }
}

impl InTree for GetDataObjects {
    #[tactic(auto, unfolding(etp_schema::specs::Form::Holds))]
    fn to_tree(&self, alloc: Global) -> Result<Tree, NoMemory> {
        tree_of(alloc, (&self.uris, (&self.format, ())))
    }

    fn from_tree(alloc: Global, tree: Tree) -> Result<GetDataObjects, NoMemory> {
        let (uris, (format, ())) = fields_of(alloc, tree)?;
        Ok(GetDataObjects { uris, format })
    }
}

impl InTree for PutDataObjects {
    #[tactic(auto, unfolding(etp_schema::specs::Form::Holds))]
    fn to_tree(&self, alloc: Global) -> Result<Tree, NoMemory> {
        tree_of(
            alloc,
            (&self.data_objects, (&self.prune_contained_objects, ())),
        )
    }

    fn from_tree(alloc: Global, tree: Tree) -> Result<PutDataObjects, NoMemory> {
        let (data_objects, (prune_contained_objects, ())) = fields_of(alloc, tree)?;
        Ok(PutDataObjects {
            data_objects,
            prune_contained_objects,
        })
    }
}

impl InTree for DeleteDataObjects {
    #[tactic(auto, unfolding(etp_schema::specs::Form::Holds))]
    fn to_tree(&self, alloc: Global) -> Result<Tree, NoMemory> {
        tree_of(alloc, (&self.uris, (&self.prune_contained_objects, ())))
    }

    fn from_tree(alloc: Global, tree: Tree) -> Result<DeleteDataObjects, NoMemory> {
        let (uris, (prune_contained_objects, ())) = fields_of(alloc, tree)?;
        Ok(DeleteDataObjects {
            uris,
            prune_contained_objects,
        })
    }
}

impl InTree for GetDataObjectsResponse {
    #[tactic(auto, unfolding(etp_schema::specs::Form::Holds))]
    fn to_tree(&self, alloc: Global) -> Result<Tree, NoMemory> {
        tree_of(alloc, (&self.data_objects, ()))
    }

    fn from_tree(alloc: Global, tree: Tree) -> Result<GetDataObjectsResponse, NoMemory> {
        let (data_objects, ()) = fields_of(alloc, tree)?;
        Ok(GetDataObjectsResponse { data_objects })
    }
}

impl InTree for Chunk {
    #[tactic(auto, unfolding(etp_schema::specs::Form::Holds))]
    fn to_tree(&self, alloc: Global) -> Result<Tree, NoMemory> {
        tree_of(alloc, (&self.blob_id, (&self.payload, (&self.last, ()))))
    }

    fn from_tree(alloc: Global, tree: Tree) -> Result<Chunk, NoMemory> {
        let (blob_id, (payload, (last, ()))) = fields_of(alloc, tree)?;
        Ok(Chunk {
            blob_id,
            payload,
            last,
        })
    }
}

impl InTree for PutDataObjectsResponse {
    #[tactic(auto, unfolding(etp_schema::specs::Form::Holds))]
    fn to_tree(&self, alloc: Global) -> Result<Tree, NoMemory> {
        tree_of(alloc, (&self.success, ()))
    }

    fn from_tree(alloc: Global, tree: Tree) -> Result<PutDataObjectsResponse, NoMemory> {
        let (success, ()) = fields_of(alloc, tree)?;
        Ok(PutDataObjectsResponse { success })
    }
}

impl InTree for DeleteDataObjectsResponse {
    #[tactic(auto, unfolding(etp_schema::specs::Form::Holds))]
    fn to_tree(&self, alloc: Global) -> Result<Tree, NoMemory> {
        tree_of(alloc, (&self.deleted_uris, ()))
    }

    fn from_tree(alloc: Global, tree: Tree) -> Result<DeleteDataObjectsResponse, NoMemory> {
        let (deleted_uris, ()) = fields_of(alloc, tree)?;
        Ok(DeleteDataObjectsResponse { deleted_uris })
    }
}

impl BodyInTree for StoreMessage {
    ghost use Rattle.msg_store.specs.Store.{store_body, store_kinds};

    ghost body = { store_body };

    ghost kinds = { store_kinds };

    #[tactic(auto, unfolding(etp_schema::specs::Form::Holds))]
    fn to_tree(&self, alloc: Global) -> Result<Tree, NoMemory> {
        match self {
            StoreMessage::GetDataObjects(message) => message.to_tree(alloc),
            StoreMessage::PutDataObjects(message) => message.to_tree(alloc),
            StoreMessage::DeleteDataObjects(message) => message.to_tree(alloc),
            StoreMessage::GetDataObjectsResponse(message) => message.to_tree(alloc),
            StoreMessage::Chunk(message) => message.to_tree(alloc),
            StoreMessage::PutDataObjectsResponse(message) => message.to_tree(alloc),
            StoreMessage::DeleteDataObjectsResponse(message) => message.to_tree(alloc),
        }
    }

    fn from_tree(alloc: Global, kind: i32, tree: Tree) -> Result<Option<StoreMessage>, NoMemory> {
        match kind {
            1 => Ok(Some(StoreMessage::GetDataObjects(GetDataObjects::from_tree(alloc, tree)?))),
            2 => Ok(Some(StoreMessage::PutDataObjects(PutDataObjects::from_tree(alloc, tree)?))),
            3 => Ok(Some(StoreMessage::DeleteDataObjects(DeleteDataObjects::from_tree(
                alloc, tree,
            )?))),
            4 => Ok(Some(StoreMessage::GetDataObjectsResponse(GetDataObjectsResponse::from_tree(
                alloc, tree,
            )?))),
            8 => Ok(Some(StoreMessage::Chunk(Chunk::from_tree(alloc, tree)?))),
            9 => Ok(Some(StoreMessage::PutDataObjectsResponse(PutDataObjectsResponse::from_tree(
                alloc, tree,
            )?))),
            10 => Ok(Some(StoreMessage::DeleteDataObjectsResponse(
                DeleteDataObjectsResponse::from_tree(alloc, tree)?,
            ))),
            _ => Ok(None),
        }
    }
}
