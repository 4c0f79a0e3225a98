//! Whether a channel or an object is active, as a tree.
//!
//! `schema/write` writes all below the imports from `schema/messages.txt`.
use crate::in_tree::InTree;
use crate::leaves::symbol_of;
use avro_bin::Tree;
use etp_schema::ActiveStatusKind;
use etp_values::NoMemory;
use std::alloc::Global;

impl InTree for ActiveStatusKind {
    #[tactic(auto, using(avro_bin::proofs::ViewLemmas::values), unfolding(etp_schema::specs::Form::Holds))]
    fn to_tree(&self, _alloc: Global) -> Result<Tree, NoMemory> {
        match self {
            ActiveStatusKind::Active => Ok(Tree::Enum(0)),
            ActiveStatusKind::Inactive => Ok(Tree::Enum(1)),
        }
    }

    fn from_tree(_alloc: Global, tree: Tree) -> Result<ActiveStatusKind, NoMemory> {
        Ok(symbol_of(
            tree,
            &[ActiveStatusKind::Active, ActiveStatusKind::Inactive],
            ActiveStatusKind::Inactive,
        ))
    }
}
