//! The fields of a record as trees, first to last.
ghost use Rattle.std.specs.Prelude.{◌≡◌, ◌++◌, ◌∷◌, [], IfOk, OnOk, map, List as Items};
ghost use Rattle.avro_bin.specs.Schema.{SFields, Schemas, none, more};
ghost use Rattle.avro_bin.specs.Shape.{FieldsHave, HasSchema};
ghost use Rattle.avro_bin.specs.Value.{Value, VFields, row, list};
ghost use Rattle.avro_bin.specs.View.{value_of};
ghost use Rattle.etp_schema.specs.Form.{Row, done, ◌&◌, fields_in};
ghost use Rattle.message_trees.specs.Left.{left};

use crate::fields::{Fields, record_of};
use crate::in_tree::InTree;
use avro_bin::Tree;
use etp_values::NoMemory;
use std::alloc::Global;

/// The fields of a record that are read from its tree: a pair of the first and the others, and `()` after the last.
pub trait ReadTrees: Drop {
    ghost forms: { Row Self };

    /// The fields that are still to be read from a record's tree; if there are no more, null is read.
    fn from_trees(trees: &mut Fields) -> Result<Self, NoMemory>
        ensures { IfOk result (λ x. x ≡ forms.from_values (left trees.old)) };
}

impl ReadTrees for () {
    ghost forms = { done };

    fn from_trees(_trees: &mut Fields) -> Result<(), NoMemory> {
        Ok(())
    }
}

impl<A: InTree, B: ReadTrees> ReadTrees for (A, B) {
    ghost forms = { A.form & B.forms };

    fn from_trees(trees: &mut Fields) -> Result<(A, B), NoMemory> {
        let first = trees.take()?;
        let others = B::from_trees(trees)?;
        Ok((first, others))
    }
}

/// The fields of a record that are written as its tree: a pair of the first and the others, and `()` after the last.
pub trait WriteTrees: Drop {
    ghost schemas: { Schemas };

    ghost values: { Self → Items Value };

    /// Appends each field's tree.
    fn to_trees(self, alloc: Global, trees: &mut Vec<Tree>) -> Result<(), NoMemory>
        ensures value { OnOk result (map value_of trees.new.items ≡ map value_of trees.old.items ++ values self) }
        ensures typed { OnOk result (FieldsHave schemas (list (row (values self)))) };
}

impl WriteTrees for () {
    ghost schemas = { none };

    ghost values = { λ u. [] };

    fn to_trees(self, _alloc: Global, _trees: &mut Vec<Tree>) -> Result<(), NoMemory> {
        Ok(())
    }
}

impl<'a, A: InTree, B: WriteTrees> WriteTrees for (&'a A, B) {
    ghost schemas = { more A.form.schema B.schemas };

    ghost values = { λ p. A.form.as_value p.0.now ∷ B.values p.1 };

    #[tactic(auto, unfolding(etp_schema::specs::Form::Holds))]
    fn to_trees(self, alloc: Global, trees: &mut Vec<Tree>) -> Result<(), NoMemory> {
        let (first, others) = self;
        trees.push(first.to_tree(alloc)?)?;
        others.to_trees(alloc, trees)?;
        Ok(())
    }
}

/// The fields of a record's tree.
pub fn fields_of<R: ReadTrees>(alloc: Global, tree: Tree) -> Result<R, NoMemory>
    ensures { IfOk result (λ x. x ≡ R.forms.from_values (fields_in (value_of tree))) }
{
    R::from_trees(&mut Fields::of(alloc, tree))
}

/// The tree of a record of these fields.
pub fn tree_of<W: WriteTrees>(alloc: Global, fields: W) -> Result<Tree, NoMemory>
    ensures value { IfOk result (λ t. value_of t ≡ VFields (row (W.values fields))) }
    ensures typed { OnOk result (HasSchema (SFields W.schemas) (VFields (row (W.values fields)))) }
{
    let mut trees = Vec::new(alloc);
    fields.to_trees(alloc, &mut trees)?;
    Ok(record_of(trees))
}
