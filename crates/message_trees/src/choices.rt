//! Records whose one field is a union, as trees.
ghost use Rattle.std.specs.Prelude.{◌≡◌, IfOk, [], ◌∷◌};
ghost use Rattle.avro_bin.specs.Value.{VFields, VUnion, row};
ghost use Rattle.avro_bin.specs.View.{value_of};
ghost use Rattle.etp_schema.specs.Form.{branch_in, chosen_in, fields_in, first};

use crate::fields::{Fields, record_of};
use avro_bin::Tree;
use etp_values::NoMemory;
use std::alloc::Global;

/// The record whose one field is this branch of a union.
#[tactic(auto, using(avro_bin::proofs::ViewLemmas::values))]
pub fn branch_record(alloc: Global, place: u32, value: Tree) -> Result<Tree, NoMemory>
    ensures { IfOk result (λ t. value_of t ≡ VFields (row (VUnion place (value_of value) ∷ []))) }
{
    let union = Tree::Union(place, Box::new(alloc, value)?);
    Ok(record_of(vec![in alloc; union]?))
}

/// The place of the branch that such a record holds, and its value; the first branch and null for any other tree.
pub fn branch_of(alloc: Global, tree: Tree) -> (u32, Tree)
    ensures place { result.0 ≡ branch_in (first (fields_in (value_of tree))) }
    ensures value { value_of result.1 ≡ chosen_in (first (fields_in (value_of tree))) }
{
    union_of(first_of(alloc, tree))
}

/// The same for a union.
#[tactic(auto, using(avro_bin::proofs::ViewLemmas::values))]
fn union_of(tree: Tree) -> (u32, Tree)
    ensures place { result.0 ≡ branch_in (value_of tree) }
    ensures value { value_of result.1 ≡ chosen_in (value_of tree) }
{
    match tree {
        Tree::Union(place, value) => (place, Box::into_inner(value)),
        _ => (0, Tree::Null),
    }
}

/// The first field of a record.
fn first_of(alloc: Global, tree: Tree) -> Tree
    ensures { value_of result ≡ first (fields_in (value_of tree)) }
{
    Fields::of(alloc, tree).next()
}
