//! The bodies of a protocol's messages as trees.
ghost use Rattle.std.specs.Prelude.{◌≡◌, IfOk, OnOk, List};
ghost use Rattle.avro_bin.specs.Shape.{HasSchema};
ghost use Rattle.avro_bin.specs.View.{value_of};
ghost use Rattle.etp_schema.specs.Family.{Body, Kind, read_kind};

use avro_bin::Tree;
use etp_values::NoMemory;
use std::alloc::Global;

/// The messages of a protocol, whose bodies are trees. `body` is a message's number, schema and value, and `kinds` are the
/// protocol's messages by number.
pub trait BodyInTree: Drop {
    ghost body: { Self → Body };

    ghost kinds: { List (Kind Self) };

    /// The tree of the message's body.
    fn to_tree(&self, alloc: Global) -> Result<Tree, NoMemory>
        ensures value { IfOk result (λ t. value_of t ≡ (body self.now).value) }
        ensures typed { OnOk result (HasSchema (body self.now).schema (body self.now).value) };

    /// The message of this number with this body, if the protocol has one.
    fn from_tree(alloc: Global, kind: i32, tree: Tree) -> Result<Option<Self>, NoMemory>
        ensures { IfOk result (λ m. m ≡ read_kind kinds kind (value_of tree)) };
}
