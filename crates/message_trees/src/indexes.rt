//! Indexes as trees.
use crate::choices::{branch_of, branch_record};
use crate::in_tree::InTree;
use crate::leaves::symbol_of;
use crate::record_fields::{fields_of, tree_of};
use avro_bin::Tree;
use etp_values::{Bits64, NoMemory};
use msg_channel::{IndexInterval, IndexValue, PassDirection, PassIndexedDepth};
use std::alloc::Global;

impl InTree for PassDirection {
    #[tactic(auto, using(avro_bin::proofs::ViewLemmas::values), unfolding(etp_schema::specs::Form::Holds))]
    fn to_tree(&self, _alloc: Global) -> Result<Tree, NoMemory> {
        match self {
            PassDirection::Up => Ok(Tree::Enum(0)),
            PassDirection::HoldingSteady => Ok(Tree::Enum(1)),
            PassDirection::Down => Ok(Tree::Enum(2)),
        }
    }

    fn from_tree(_alloc: Global, tree: Tree) -> Result<PassDirection, NoMemory> {
        Ok(symbol_of(
            tree,
            &[
                PassDirection::Up,
                PassDirection::HoldingSteady,
                PassDirection::Down,
            ],
            PassDirection::Down,
        ))
    }
}

impl InTree for PassIndexedDepth {
    #[tactic(auto, unfolding(etp_schema::specs::Form::Holds))]
    fn to_tree(&self, alloc: Global) -> Result<Tree, NoMemory> {
        tree_of(alloc, (&self.pass, (&self.direction, (&self.depth, ()))))
    }

    fn from_tree(alloc: Global, tree: Tree) -> Result<PassIndexedDepth, NoMemory> {
        let (pass, (direction, (depth, ()))) = fields_of(alloc, tree)?;
        Ok(PassIndexedDepth {
            pass,
            direction,
            depth,
        })
    }
}

impl InTree for IndexValue {
    #[tactic(auto, using(avro_bin::proofs::ViewLemmas::values), unfolding(etp_schema::specs::Form::Holds))]
    fn to_tree(&self, alloc: Global) -> Result<Tree, NoMemory> {
        match self {
            IndexValue::Null => branch_record(alloc, 0, Tree::Null),
            IndexValue::Long(value) => branch_record(alloc, 1, value.to_tree(alloc)?),
            IndexValue::Double(value) => branch_record(alloc, 2, value.to_tree(alloc)?),
            IndexValue::PassIndexedDepth(depth) => branch_record(alloc, 3, depth.to_tree(alloc)?),
        }
    }

    fn from_tree(alloc: Global, tree: Tree) -> Result<IndexValue, NoMemory> {
        let (place, value) = branch_of(alloc, tree);
        match place {
            0 => Ok(IndexValue::Null),
            1 => Ok(IndexValue::Long(i64::from_tree(alloc, value)?)),
            2 => Ok(IndexValue::Double(Bits64::from_tree(alloc, value)?)),
            _ => Ok(IndexValue::PassIndexedDepth(PassIndexedDepth::from_tree(alloc, value)?)),
        }
    }
}

impl InTree for IndexInterval {
    #[tactic(auto, unfolding(etp_schema::specs::Form::Holds))]
    fn to_tree(&self, alloc: Global) -> Result<Tree, NoMemory> {
        tree_of(
            alloc,
            (
                &self.start_index,
                (&self.end_index, (&self.uom, (&self.depth_datum, ()))),
            ),
        )
    }

    fn from_tree(alloc: Global, tree: Tree) -> Result<IndexInterval, NoMemory> {
        let (start_index, (end_index, (uom, (depth_datum, ())))) = fields_of(alloc, tree)?;
        Ok(IndexInterval {
            start_index,
            end_index,
            uom,
            depth_datum,
        })
    }
}
