//! Records as trees.
ghost use Rattle.std.specs.Prelude.{◌≡◌, IfOk, map};
ghost use Rattle.avro_bin.specs.Value.{VFields, row};
ghost use Rattle.avro_bin.specs.View.{value_of};
ghost use Rattle.etp_schema.specs.Form.{fields_in, first, rest};
ghost use Rattle.message_trees.specs.Left.{left};

use crate::in_tree::InTree;
use avro_bin::Tree;
use etp_values::{List, NoMemory};
use std::alloc::Global;
use std::vec::IntoIter;

/// The fields of a record that are still to be read.
#[derive(Drop)]
pub struct Fields {
    trees: IntoIter<Tree>,
    alloc: Global,
}

impl Fields {
    /// The fields of a record; none of any other tree.
    pub fn of(alloc: Global, tree: Tree) -> Fields
        ensures { left result ≡ fields_in (value_of tree) }
    {
        Fields {
            trees: trees_of(alloc, tree).into_iter(),
            alloc,
        }
    }

    /// The tree of the next field; null if there are no more.
    #[tactic(auto, using(avro_bin::proofs::ViewLemmas::values))]
    pub fn next(&mut self) -> Tree
        ensures value { value_of result ≡ first (left self.old) }
        ensures others { left self.new ≡ rest (left self.old) }
    {
        match self.trees.next() {
            Some(tree) => tree,
            None => Tree::Null,
        }
    }

    /// Reads the next field; if there are no more, null is read instead.
    pub fn take<T: InTree>(&mut self) -> Result<T, NoMemory>
        ensures value { IfOk result (λ x. x ≡ T.form.from_value (first (left self.old))) }
        ensures others { left self.new ≡ rest (left self.old) }
    {
        let tree = self.next();
        T::from_tree(self.alloc, tree)
    }
}

#[tactic(auto, using(etp_schema::proofs::PartLemmas::parts))]
fn trees_of(alloc: Global, tree: Tree) -> Vec<Tree>
    ensures { map value_of result.items ≡ fields_in (value_of tree) }
{
    match tree {
        Tree::Fields(trees) => trees.into_vec(),
        _ => Vec::new(alloc),
    }
}

/// A record of these fields.
#[tactic(auto, using(avro_bin::proofs::ViewLemmas::values))]
pub fn record_of(fields: Vec<Tree>) -> Tree
    ensures { value_of result ≡ VFields (row (map value_of fields.items)) }
{
    Tree::Fields(List::from_vec(fields))
}
