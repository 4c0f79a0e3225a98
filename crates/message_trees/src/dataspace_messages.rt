//! The messages of the Dataspace protocol as trees.
//!
//! `schema/write` writes all below the imports from `schema/messages.txt`.
ghost use Rattle.msg_core.specs.Dataspace.{dataspace_body, dataspace_kinds};

use crate::body_in_tree::BodyInTree;
use crate::in_tree::InTree;
use crate::record_fields::{fields_of, tree_of};
use avro_bin::Tree;
use etp_values::NoMemory;
use msg_core::{
    Dataspace, DataspaceMessage, DeleteDataspaces, DeleteDataspacesResponse, GetDataspaces,
    GetDataspacesResponse, PutDataspaces, PutDataspacesResponse,
};
use std::alloc::Global;

impl InTree for Dataspace {
    #[tactic(auto, unfolding(etp_schema::specs::Form::Holds))]
    fn to_tree(&self, alloc: Global) -> Result<Tree, NoMemory> {
        tree_of(
            alloc,
            (
                &self.uri,
                (
                    &self.path,
                    (
                        &self.store_last_write,
                        (&self.store_created, (&self.custom_data, ())),
                    ),
                ),
            ),
        )
    }

    fn from_tree(alloc: Global, tree: Tree) -> Result<Dataspace, NoMemory> {
        let (uri, (path, (store_last_write, (store_created, (custom_data, ()))))) = fields_of(
            alloc, tree,
        )?;
        Ok(Dataspace {
            uri,
            path,
            store_last_write,
            store_created,
            custom_data,
        })
    }
}

impl InTree for GetDataspaces {
    #[tactic(auto, unfolding(etp_schema::specs::Form::Holds))]
    fn to_tree(&self, alloc: Global) -> Result<Tree, NoMemory> {
        tree_of(alloc, (&self.store_last_write_filter, ()))
    }

    fn from_tree(alloc: Global, tree: Tree) -> Result<GetDataspaces, NoMemory> {
        let (store_last_write_filter, ()) = fields_of(alloc, tree)?;
        Ok(GetDataspaces {
            store_last_write_filter,
        })
    }
}

impl InTree for GetDataspacesResponse {
    #[tactic(auto, unfolding(etp_schema::specs::Form::Holds))]
    fn to_tree(&self, alloc: Global) -> Result<Tree, NoMemory> {
        tree_of(alloc, (&self.dataspaces, ()))
    }

    fn from_tree(alloc: Global, tree: Tree) -> Result<GetDataspacesResponse, NoMemory> {
        let (dataspaces, ()) = fields_of(alloc, tree)?;
        Ok(GetDataspacesResponse { dataspaces })
    }
}

impl InTree for PutDataspaces {
    #[tactic(auto, unfolding(etp_schema::specs::Form::Holds))]
    fn to_tree(&self, alloc: Global) -> Result<Tree, NoMemory> {
        tree_of(alloc, (&self.dataspaces, ()))
    }

    fn from_tree(alloc: Global, tree: Tree) -> Result<PutDataspaces, NoMemory> {
        let (dataspaces, ()) = fields_of(alloc, tree)?;
        Ok(PutDataspaces { dataspaces })
    }
}

impl InTree for DeleteDataspaces {
    #[tactic(auto, unfolding(etp_schema::specs::Form::Holds))]
    fn to_tree(&self, alloc: Global) -> Result<Tree, NoMemory> {
        tree_of(alloc, (&self.uris, ()))
    }

    fn from_tree(alloc: Global, tree: Tree) -> Result<DeleteDataspaces, NoMemory> {
        let (uris, ()) = fields_of(alloc, tree)?;
        Ok(DeleteDataspaces { uris })
    }
}

impl InTree for DeleteDataspacesResponse {
    #[tactic(auto, unfolding(etp_schema::specs::Form::Holds))]
    fn to_tree(&self, alloc: Global) -> Result<Tree, NoMemory> {
        tree_of(alloc, (&self.success, ()))
    }

    fn from_tree(alloc: Global, tree: Tree) -> Result<DeleteDataspacesResponse, NoMemory> {
        let (success, ()) = fields_of(alloc, tree)?;
        Ok(DeleteDataspacesResponse { success })
    }
}

impl InTree for PutDataspacesResponse {
    #[tactic(auto, unfolding(etp_schema::specs::Form::Holds))]
    fn to_tree(&self, alloc: Global) -> Result<Tree, NoMemory> {
        tree_of(alloc, (&self.success, ()))
    }

    fn from_tree(alloc: Global, tree: Tree) -> Result<PutDataspacesResponse, NoMemory> {
        let (success, ()) = fields_of(alloc, tree)?;
        Ok(PutDataspacesResponse { success })
    }
}

impl BodyInTree for DataspaceMessage {
    ghost use Rattle.msg_core.specs.Dataspace.{dataspace_body, dataspace_kinds};

    ghost body = { dataspace_body };

    ghost kinds = { dataspace_kinds };

    #[tactic(auto, unfolding(etp_schema::specs::Form::Holds))]
    fn to_tree(&self, alloc: Global) -> Result<Tree, NoMemory> {
        match self {
            DataspaceMessage::GetDataspaces(message) => message.to_tree(alloc),
            DataspaceMessage::GetDataspacesResponse(message) => message.to_tree(alloc),
            DataspaceMessage::PutDataspaces(message) => message.to_tree(alloc),
            DataspaceMessage::DeleteDataspaces(message) => message.to_tree(alloc),
            DataspaceMessage::DeleteDataspacesResponse(message) => message.to_tree(alloc),
            DataspaceMessage::PutDataspacesResponse(message) => message.to_tree(alloc),
        }
    }

    fn from_tree(
        alloc: Global,
        kind: i32,
        tree: Tree,
    ) -> Result<Option<DataspaceMessage>, NoMemory> {
        match kind {
            1 => Ok(Some(DataspaceMessage::GetDataspaces(GetDataspaces::from_tree(alloc, tree)?))),
            2 => Ok(Some(DataspaceMessage::GetDataspacesResponse(GetDataspacesResponse::from_tree(
                alloc, tree,
            )?))),
            3 => Ok(Some(DataspaceMessage::PutDataspaces(PutDataspaces::from_tree(alloc, tree)?))),
            4 => Ok(Some(DataspaceMessage::DeleteDataspaces(DeleteDataspaces::from_tree(
                alloc, tree,
            )?))),
            5 => Ok(Some(DataspaceMessage::DeleteDataspacesResponse(
                DeleteDataspacesResponse::from_tree(alloc, tree)?,
            ))),
            6 => Ok(Some(DataspaceMessage::PutDataspacesResponse(PutDataspacesResponse::from_tree(
                alloc, tree,
            )?))),
            _ => Ok(None),
        }
    }
}
