//! The messages of the DataArray protocol as trees.
//!
//! `schema/write` writes all below the imports from `schema/messages.txt`.
ghost use Rattle.msg_store.specs.DataArray.{data_array_body, data_array_kinds};

use crate::body_in_tree::BodyInTree;
use crate::in_tree::InTree;
use crate::record_fields::{fields_of, tree_of};
use avro_bin::Tree;
use etp_values::NoMemory;
use msg_store::{
    DataArray, DataArrayMessage, GetDataArrayMetadata, GetDataArrayMetadataResponse, GetDataArrays,
    GetDataArraysResponse, GetDataSubarrays, GetDataSubarraysResponse, PutDataArrays,
    PutDataArraysResponse, PutDataSubarrays, PutDataSubarraysResponse, PutUninitializedDataArrays,
    PutUninitializedDataArraysResponse,
};
use std::alloc::Global;

impl InTree for GetDataArraysResponse {
    #[tactic(auto, unfolding(etp_schema::specs::Form::Holds))]
    fn to_tree(&self, alloc: Global) -> Result<Tree, NoMemory> {
        tree_of(alloc, (&self.data_arrays, ()))
    }

    fn from_tree(alloc: Global, tree: Tree) -> Result<GetDataArraysResponse, NoMemory> {
        let (data_arrays, ()) = fields_of(alloc, tree)?;
        Ok(GetDataArraysResponse { data_arrays })
    }
}

impl InTree for GetDataArrays {
    #[tactic(auto, unfolding(etp_schema::specs::Form::Holds))]
    fn to_tree(&self, alloc: Global) -> Result<Tree, NoMemory> {
        tree_of(alloc, (&self.data_arrays, ()))
    }

    fn from_tree(alloc: Global, tree: Tree) -> Result<GetDataArrays, NoMemory> {
        let (data_arrays, ()) = fields_of(alloc, tree)?;
        Ok(GetDataArrays { data_arrays })
    }
}

impl InTree for GetDataSubarrays {
    #[tactic(auto, unfolding(etp_schema::specs::Form::Holds))]
    fn to_tree(&self, alloc: Global) -> Result<Tree, NoMemory> {
        tree_of(alloc, (&self.data_subarrays, ()))
    }

    fn from_tree(alloc: Global, tree: Tree) -> Result<GetDataSubarrays, NoMemory> {
        let (data_subarrays, ()) = fields_of(alloc, tree)?;
        Ok(GetDataSubarrays { data_subarrays })
    }
}

impl InTree for PutDataArrays {
    #[tactic(auto, unfolding(etp_schema::specs::Form::Holds))]
    fn to_tree(&self, alloc: Global) -> Result<Tree, NoMemory> {
        tree_of(alloc, (&self.data_arrays, ()))
    }

    fn from_tree(alloc: Global, tree: Tree) -> Result<PutDataArrays, NoMemory> {
        let (data_arrays, ()) = fields_of(alloc, tree)?;
        Ok(PutDataArrays { data_arrays })
    }
}

impl InTree for PutDataSubarrays {
    #[tactic(auto, unfolding(etp_schema::specs::Form::Holds))]
    fn to_tree(&self, alloc: Global) -> Result<Tree, NoMemory> {
        tree_of(alloc, (&self.data_subarrays, ()))
    }

    fn from_tree(alloc: Global, tree: Tree) -> Result<PutDataSubarrays, NoMemory> {
        let (data_subarrays, ()) = fields_of(alloc, tree)?;
        Ok(PutDataSubarrays { data_subarrays })
    }
}

impl InTree for GetDataArrayMetadata {
    #[tactic(auto, unfolding(etp_schema::specs::Form::Holds))]
    fn to_tree(&self, alloc: Global) -> Result<Tree, NoMemory> {
        tree_of(alloc, (&self.data_arrays, ()))
    }

    fn from_tree(alloc: Global, tree: Tree) -> Result<GetDataArrayMetadata, NoMemory> {
        let (data_arrays, ()) = fields_of(alloc, tree)?;
        Ok(GetDataArrayMetadata { data_arrays })
    }
}

impl InTree for GetDataArrayMetadataResponse {
    #[tactic(auto, unfolding(etp_schema::specs::Form::Holds))]
    fn to_tree(&self, alloc: Global) -> Result<Tree, NoMemory> {
        tree_of(alloc, (&self.array_metadata, ()))
    }

    fn from_tree(alloc: Global, tree: Tree) -> Result<GetDataArrayMetadataResponse, NoMemory> {
        let (array_metadata, ()) = fields_of(alloc, tree)?;
        Ok(GetDataArrayMetadataResponse { array_metadata })
    }
}

impl InTree for GetDataSubarraysResponse {
    #[tactic(auto, unfolding(etp_schema::specs::Form::Holds))]
    fn to_tree(&self, alloc: Global) -> Result<Tree, NoMemory> {
        tree_of(alloc, (&self.data_subarrays, ()))
    }

    fn from_tree(alloc: Global, tree: Tree) -> Result<GetDataSubarraysResponse, NoMemory> {
        let (data_subarrays, ()) = fields_of(alloc, tree)?;
        Ok(GetDataSubarraysResponse { data_subarrays })
    }
}

impl InTree for PutUninitializedDataArrays {
    #[tactic(auto, unfolding(etp_schema::specs::Form::Holds))]
    fn to_tree(&self, alloc: Global) -> Result<Tree, NoMemory> {
        tree_of(alloc, (&self.data_arrays, ()))
    }

    fn from_tree(alloc: Global, tree: Tree) -> Result<PutUninitializedDataArrays, NoMemory> {
        let (data_arrays, ()) = fields_of(alloc, tree)?;
        Ok(PutUninitializedDataArrays { data_arrays })
    }
}

impl InTree for PutDataArraysResponse {
    #[tactic(auto, unfolding(etp_schema::specs::Form::Holds))]
    fn to_tree(&self, alloc: Global) -> Result<Tree, NoMemory> {
        tree_of(alloc, (&self.success, ()))
    }

    fn from_tree(alloc: Global, tree: Tree) -> Result<PutDataArraysResponse, NoMemory> {
        let (success, ()) = fields_of(alloc, tree)?;
        Ok(PutDataArraysResponse { success })
    }
}

impl InTree for PutDataSubarraysResponse {
    #[tactic(auto, unfolding(etp_schema::specs::Form::Holds))]
    fn to_tree(&self, alloc: Global) -> Result<Tree, NoMemory> {
        tree_of(alloc, (&self.success, ()))
    }

    fn from_tree(alloc: Global, tree: Tree) -> Result<PutDataSubarraysResponse, NoMemory> {
        let (success, ()) = fields_of(alloc, tree)?;
        Ok(PutDataSubarraysResponse { success })
    }
}

impl InTree for PutUninitializedDataArraysResponse {
    #[tactic(auto, unfolding(etp_schema::specs::Form::Holds))]
    fn to_tree(&self, alloc: Global) -> Result<Tree, NoMemory> {
        tree_of(alloc, (&self.success, ()))
    }

    fn from_tree(
        alloc: Global,
        tree: Tree,
    ) -> Result<PutUninitializedDataArraysResponse, NoMemory> {
        let (success, ()) = fields_of(alloc, tree)?;
        Ok(PutUninitializedDataArraysResponse { success })
    }
}

impl BodyInTree for DataArrayMessage {
    ghost use Rattle.msg_store.specs.DataArray.{data_array_body, data_array_kinds};

    ghost body = { data_array_body };

    ghost kinds = { data_array_kinds };

    #[tactic(auto, unfolding(etp_schema::specs::Form::Holds))]
    fn to_tree(&self, alloc: Global) -> Result<Tree, NoMemory> {
        match self {
            DataArrayMessage::GetDataArraysResponse(message) => message.to_tree(alloc),
            DataArrayMessage::GetDataArrays(message) => message.to_tree(alloc),
            DataArrayMessage::GetDataSubarrays(message) => message.to_tree(alloc),
            DataArrayMessage::PutDataArrays(message) => message.to_tree(alloc),
            DataArrayMessage::PutDataSubarrays(message) => message.to_tree(alloc),
            DataArrayMessage::GetDataArrayMetadata(message) => message.to_tree(alloc),
            DataArrayMessage::GetDataArrayMetadataResponse(message) => message.to_tree(alloc),
            DataArrayMessage::GetDataSubarraysResponse(message) => message.to_tree(alloc),
            DataArrayMessage::PutUninitializedDataArrays(message) => message.to_tree(alloc),
            DataArrayMessage::PutDataArraysResponse(message) => message.to_tree(alloc),
            DataArrayMessage::PutDataSubarraysResponse(message) => message.to_tree(alloc),
            DataArrayMessage::PutUninitializedDataArraysResponse(message) => message.to_tree(alloc),
        }
    }

    fn from_tree(
        alloc: Global,
        kind: i32,
        tree: Tree,
    ) -> Result<Option<DataArrayMessage>, NoMemory> {
        match kind {
            1 => Ok(Some(DataArrayMessage::GetDataArraysResponse(GetDataArraysResponse::from_tree(
                alloc, tree,
            )?))),
            2 => Ok(Some(DataArrayMessage::GetDataArrays(GetDataArrays::from_tree(alloc, tree)?))),
            3 => Ok(Some(DataArrayMessage::GetDataSubarrays(GetDataSubarrays::from_tree(
                alloc, tree,
            )?))),
            4 => Ok(Some(DataArrayMessage::PutDataArrays(PutDataArrays::from_tree(alloc, tree)?))),
            5 => Ok(Some(DataArrayMessage::PutDataSubarrays(PutDataSubarrays::from_tree(
                alloc, tree,
            )?))),
            6 => Ok(Some(DataArrayMessage::GetDataArrayMetadata(GetDataArrayMetadata::from_tree(
                alloc, tree,
            )?))),
            7 => Ok(Some(DataArrayMessage::GetDataArrayMetadataResponse(
                GetDataArrayMetadataResponse::from_tree(alloc, tree)?,
            ))),
            8 => Ok(Some(DataArrayMessage::GetDataSubarraysResponse(
                GetDataSubarraysResponse::from_tree(alloc, tree)?,
            ))),
            9 => Ok(Some(DataArrayMessage::PutUninitializedDataArrays(
                PutUninitializedDataArrays::from_tree(alloc, tree)?,
            ))),
            10 => Ok(Some(DataArrayMessage::PutDataArraysResponse(PutDataArraysResponse::from_tree(
                alloc, tree,
            )?))),
            11 => Ok(Some(DataArrayMessage::PutDataSubarraysResponse(
                PutDataSubarraysResponse::from_tree(alloc, tree)?,
            ))),
            12 => Ok(Some(DataArrayMessage::PutUninitializedDataArraysResponse(
                PutUninitializedDataArraysResponse::from_tree(alloc, tree)?,
            ))),
            _ => Ok(None),
        }
    }
}
