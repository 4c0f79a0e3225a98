//! The kinds of arrays as trees.
//!
//! `schema/write` writes all below the imports from `schema/messages.txt`.
use crate::in_tree::InTree;
use crate::leaves::symbol_of;
use avro_bin::Tree;
use etp_values::NoMemory;
use msg_store::{AnyArrayType, AnyLogicalArrayType};
use std::alloc::Global;

impl InTree for AnyArrayType {
    #[tactic(auto, using(avro_bin::proofs::ViewLemmas::values), unfolding(etp_schema::specs::Form::Holds))]
    fn to_tree(&self, _alloc: Global) -> Result<Tree, NoMemory> {
        match self {
            AnyArrayType::ArrayOfBoolean => Ok(Tree::Enum(0)),
            AnyArrayType::ArrayOfInt => Ok(Tree::Enum(1)),
            AnyArrayType::ArrayOfLong => Ok(Tree::Enum(2)),
            AnyArrayType::ArrayOfFloat => Ok(Tree::Enum(3)),
            AnyArrayType::ArrayOfDouble => Ok(Tree::Enum(4)),
            AnyArrayType::ArrayOfString => Ok(Tree::Enum(5)),
            AnyArrayType::Bytes => Ok(Tree::Enum(6)),
        }
    }

    fn from_tree(_alloc: Global, tree: Tree) -> Result<AnyArrayType, NoMemory> {
        Ok(symbol_of(
            tree,
            &[
                AnyArrayType::ArrayOfBoolean,
                AnyArrayType::ArrayOfInt,
                AnyArrayType::ArrayOfLong,
                AnyArrayType::ArrayOfFloat,
                AnyArrayType::ArrayOfDouble,
                AnyArrayType::ArrayOfString,
                AnyArrayType::Bytes,
            ],
            AnyArrayType::Bytes,
        ))
    }
}

impl InTree for AnyLogicalArrayType {
    #[tactic(auto, using(avro_bin::proofs::ViewLemmas::values), unfolding(etp_schema::specs::Form::Holds))]
    fn to_tree(&self, _alloc: Global) -> Result<Tree, NoMemory> {
        match self {
            AnyLogicalArrayType::ArrayOfBoolean => Ok(Tree::Enum(0)),
            AnyLogicalArrayType::ArrayOfInt8 => Ok(Tree::Enum(1)),
            AnyLogicalArrayType::ArrayOfUInt8 => Ok(Tree::Enum(2)),
            AnyLogicalArrayType::ArrayOfInt16LE => Ok(Tree::Enum(3)),
            AnyLogicalArrayType::ArrayOfInt32LE => Ok(Tree::Enum(4)),
            AnyLogicalArrayType::ArrayOfInt64LE => Ok(Tree::Enum(5)),
            AnyLogicalArrayType::ArrayOfUInt16LE => Ok(Tree::Enum(6)),
            AnyLogicalArrayType::ArrayOfUInt32LE => Ok(Tree::Enum(7)),
            AnyLogicalArrayType::ArrayOfUInt64LE => Ok(Tree::Enum(8)),
            AnyLogicalArrayType::ArrayOfFloat32LE => Ok(Tree::Enum(9)),
            AnyLogicalArrayType::ArrayOfDouble64LE => Ok(Tree::Enum(10)),
            AnyLogicalArrayType::ArrayOfInt16BE => Ok(Tree::Enum(11)),
            AnyLogicalArrayType::ArrayOfInt32BE => Ok(Tree::Enum(12)),
            AnyLogicalArrayType::ArrayOfInt64BE => Ok(Tree::Enum(13)),
            AnyLogicalArrayType::ArrayOfUInt16BE => Ok(Tree::Enum(14)),
            AnyLogicalArrayType::ArrayOfUInt32BE => Ok(Tree::Enum(15)),
            AnyLogicalArrayType::ArrayOfUInt64BE => Ok(Tree::Enum(16)),
            AnyLogicalArrayType::ArrayOfFloat32BE => Ok(Tree::Enum(17)),
            AnyLogicalArrayType::ArrayOfDouble64BE => Ok(Tree::Enum(18)),
            AnyLogicalArrayType::ArrayOfString => Ok(Tree::Enum(19)),
            AnyLogicalArrayType::ArrayOfCustom => Ok(Tree::Enum(20)),
        }
    }

    fn from_tree(_alloc: Global, tree: Tree) -> Result<AnyLogicalArrayType, NoMemory> {
        Ok(symbol_of(
            tree,
            &[
                AnyLogicalArrayType::ArrayOfBoolean,
                AnyLogicalArrayType::ArrayOfInt8,
                AnyLogicalArrayType::ArrayOfUInt8,
                AnyLogicalArrayType::ArrayOfInt16LE,
                AnyLogicalArrayType::ArrayOfInt32LE,
                AnyLogicalArrayType::ArrayOfInt64LE,
                AnyLogicalArrayType::ArrayOfUInt16LE,
                AnyLogicalArrayType::ArrayOfUInt32LE,
                AnyLogicalArrayType::ArrayOfUInt64LE,
                AnyLogicalArrayType::ArrayOfFloat32LE,
                AnyLogicalArrayType::ArrayOfDouble64LE,
                AnyLogicalArrayType::ArrayOfInt16BE,
                AnyLogicalArrayType::ArrayOfInt32BE,
                AnyLogicalArrayType::ArrayOfInt64BE,
                AnyLogicalArrayType::ArrayOfUInt16BE,
                AnyLogicalArrayType::ArrayOfUInt32BE,
                AnyLogicalArrayType::ArrayOfUInt64BE,
                AnyLogicalArrayType::ArrayOfFloat32BE,
                AnyLogicalArrayType::ArrayOfDouble64BE,
                AnyLogicalArrayType::ArrayOfString,
                AnyLogicalArrayType::ArrayOfCustom,
            ],
            AnyLogicalArrayType::ArrayOfCustom,
        ))
    }
}
