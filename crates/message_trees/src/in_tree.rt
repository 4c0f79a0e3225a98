//! Typed values as trees.
ghost use Rattle.std.specs.Prelude.{◌≡◌, IfOk, OnOk};
ghost use Rattle.avro_bin.specs.View.{value_of};
ghost use Rattle.avro_bin.specs.Shape.{HasSchema};
ghost use Rattle.etp_schema.specs.Form.{Holds};

use avro_bin::Tree;
use etp_schema::Typed;
use etp_values::NoMemory;
use std::alloc::Global;

/// A type whose values correspond one to one to the trees of a schema. [`read_back`] and [`write_back`] are the laws `back` and `there` of
/// the type's form, for these calls.
pub trait InTree: Typed {
    /// The tree of the value, which is one of the type's schema.
    fn to_tree(&self, alloc: Global) -> Result<Tree, NoMemory>
        ensures value { IfOk result (λ t. value_of t ≡ Self.form.as_value self.now) }
        ensures typed { OnOk result (Holds Self.form self.now) };

    /// The value of a tree of the type's schema. If the tree is of another schema, each part that is of another kind than expected is read
    /// as a default: false, 0, nothing.
    fn from_tree(alloc: Global, tree: Tree) -> Result<Self, NoMemory>
        ensures { IfOk result (λ x. x ≡ Self.form.from_value (value_of tree)) };
}

/// Reads what was written: the value itself.
#[tactic(auto, unfolding(etp_schema::specs::Form::Holds))]
pub fn read_back<T: InTree>(alloc: Global, value: &T) -> Result<T, NoMemory>
    ensures { IfOk result (λ x. x ≡ value.now) }
{
    let tree = value.to_tree(alloc)?;
    T::from_tree(alloc, tree)
}

/// Writes what was read from a tree of the type's schema: the same tree.
pub fn write_back<T: InTree>(alloc: Global, tree: Tree) -> Result<Tree, NoMemory>
    requires { HasSchema T.form.schema (value_of tree) }
    ensures { IfOk result (λ t. value_of t ≡ value_of tree) }
{
    let value = T::from_tree(alloc, tree)?;
    value.to_tree(alloc)
}
