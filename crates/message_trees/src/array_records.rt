//! The records of arrays as trees.
//!
//! `schema/write` writes all below the imports from `schema/messages.txt`.
use crate::in_tree::InTree;
use crate::record_fields::{fields_of, tree_of};
use avro_bin::Tree;
use etp_values::NoMemory;
use msg_store::{
    DataArray, DataArrayIdentifier, DataArrayMetadata, GetDataSubarraysType, PutDataArraysType,
    PutDataSubarraysType, PutUninitializedDataArrayType,
};
use std::alloc::Global;

impl InTree for DataArrayIdentifier {
    #[tactic(auto, unfolding(etp_schema::specs::Form::Holds))]
    fn to_tree(&self, alloc: Global) -> Result<Tree, NoMemory> {
        tree_of(alloc, (&self.uri, (&self.path_in_resource, ())))
    }

    fn from_tree(alloc: Global, tree: Tree) -> Result<DataArrayIdentifier, NoMemory> {
        let (uri, (path_in_resource, ())) = fields_of(alloc, tree)?;
        Ok(DataArrayIdentifier {
            uri,
            path_in_resource,
        })
    }
}

impl InTree for DataArray {
    #[tactic(auto, unfolding(etp_schema::specs::Form::Holds))]
    fn to_tree(&self, alloc: Global) -> Result<Tree, NoMemory> {
        tree_of(alloc, (&self.dimensions, (&self.payload, ())))
    }

    fn from_tree(alloc: Global, tree: Tree) -> Result<DataArray, NoMemory> {
        let (dimensions, (payload, ())) = fields_of(alloc, tree)?;
        Ok(DataArray {
            dimensions,
            payload,
        })
    }
}

impl InTree for DataArrayMetadata {
    #[tactic(auto, unfolding(etp_schema::specs::Form::Holds))]
    fn to_tree(&self, alloc: Global) -> Result<Tree, NoMemory> {
        tree_of(
            alloc,
            (
                &self.dimensions,
                (
                    &self.preferred_subarray_dimensions,
                    (
                        &self.transport_array_type,
                        (
                            &self.logical_array_type,
                            (
                                &self.store_last_write,
                                (&self.store_created, (&self.custom_data, ())),
                            ),
                        ),
                    ),
                ),
            ),
        )
    }

    fn from_tree(alloc: Global, tree: Tree) -> Result<DataArrayMetadata, NoMemory> {
        let (
            dimensions,
            (
                preferred_subarray_dimensions,
                (
                    transport_array_type,
                    (logical_array_type, (store_last_write, (store_created, (custom_data, ())))),
                ),
            ),
        ) = fields_of(alloc, tree)?;
        Ok(DataArrayMetadata {
            dimensions,
            preferred_subarray_dimensions,
            transport_array_type,
            logical_array_type,
            store_last_write,
            store_created,
            custom_data,
        })
    }
}

impl InTree for GetDataSubarraysType {
    #[tactic(auto, unfolding(etp_schema::specs::Form::Holds))]
    fn to_tree(&self, alloc: Global) -> Result<Tree, NoMemory> {
        tree_of(alloc, (&self.uid, (&self.starts, (&self.counts, ()))))
    }

    fn from_tree(alloc: Global, tree: Tree) -> Result<GetDataSubarraysType, NoMemory> {
        let (uid, (starts, (counts, ()))) = fields_of(alloc, tree)?;
        Ok(GetDataSubarraysType {
            uid,
            starts,
            counts,
        })
    }
}

impl InTree for PutDataArraysType {
    #[tactic(auto, unfolding(etp_schema::specs::Form::Holds))]
    fn to_tree(&self, alloc: Global) -> Result<Tree, NoMemory> {
        tree_of(alloc, (&self.uid, (&self.array, (&self.custom_data, ()))))
    }

    fn from_tree(alloc: Global, tree: Tree) -> Result<PutDataArraysType, NoMemory> {
        let (uid, (array, (custom_data, ()))) = fields_of(alloc, tree)?;
        Ok(PutDataArraysType {
            uid,
            array,
            custom_data,
        })
    }
}

impl InTree for PutDataSubarraysType {
    #[tactic(auto, unfolding(etp_schema::specs::Form::Holds))]
    fn to_tree(&self, alloc: Global) -> Result<Tree, NoMemory> {
        tree_of(
            alloc,
            (
                &self.uid,
                (&self.payload, (&self.starts, (&self.counts, ()))),
            ),
        )
    }

    fn from_tree(alloc: Global, tree: Tree) -> Result<PutDataSubarraysType, NoMemory> {
        let (uid, (payload, (starts, (counts, ())))) = fields_of(alloc, tree)?;
        Ok(PutDataSubarraysType {
            uid,
            payload,
            starts,
            counts,
        })
    }
}

impl InTree for PutUninitializedDataArrayType {
    #[tactic(auto, unfolding(etp_schema::specs::Form::Holds))]
    fn to_tree(&self, alloc: Global) -> Result<Tree, NoMemory> {
        tree_of(alloc, (&self.uid, (&self.metadata, ())))
    }

    fn from_tree(alloc: Global, tree: Tree) -> Result<PutUninitializedDataArrayType, NoMemory> {
        let (uid, (metadata, ())) = fields_of(alloc, tree)?;
        Ok(PutUninitializedDataArrayType { uid, metadata })
    }
}
