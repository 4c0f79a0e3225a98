//! Numbers, texts, bytes and identifiers as trees.
ghost use Rattle.std.specs.Prelude.{◌≡◌, get_or};
ghost use Rattle.avro_bin.specs.View.{value_of};
ghost use Rattle.etp_schema.specs.Form.{symbol_in};

use crate::in_tree::InTree;
use avro_bin::Tree;
use etp_schema::{id_from, symbol_at};
use etp_values::{Bits32, Bits64, Blob, Copied, Id16, NoMemory, Text};
use std::alloc::Global;

impl InTree for bool {
    #[tactic(auto, using(avro_bin::proofs::ViewLemmas::values), unfolding(etp_schema::specs::Form::Holds))]
    fn to_tree(&self, _alloc: Global) -> Result<Tree, NoMemory> {
        Ok(Tree::Boolean(*self))
    }

    #[tactic(auto, using(avro_bin::proofs::ViewLemmas::values))]
    fn from_tree(_alloc: Global, tree: Tree) -> Result<bool, NoMemory> {
        match tree {
            Tree::Boolean(value) => Ok(value),
            _ => Ok(false),
        }
    }
}

impl InTree for i32 {
    #[tactic(auto, using(avro_bin::proofs::ViewLemmas::values), unfolding(etp_schema::specs::Form::Holds))]
    fn to_tree(&self, _alloc: Global) -> Result<Tree, NoMemory> {
        Ok(Tree::Int(*self))
    }

    #[tactic(auto, using(avro_bin::proofs::ViewLemmas::values))]
    fn from_tree(_alloc: Global, tree: Tree) -> Result<i32, NoMemory> {
        match tree {
            Tree::Int(value) => Ok(value),
            _ => Ok(0),
        }
    }
}

impl InTree for i64 {
    #[tactic(auto, using(avro_bin::proofs::ViewLemmas::values), unfolding(etp_schema::specs::Form::Holds))]
    fn to_tree(&self, _alloc: Global) -> Result<Tree, NoMemory> {
        Ok(Tree::Long(*self))
    }

    #[tactic(auto, using(avro_bin::proofs::ViewLemmas::values))]
    fn from_tree(_alloc: Global, tree: Tree) -> Result<i64, NoMemory> {
        match tree {
            Tree::Long(value) => Ok(value),
            _ => Ok(0),
        }
    }
}

impl InTree for Bits32 {
    #[tactic(auto, using(avro_bin::proofs::ViewLemmas::values), unfolding(etp_schema::specs::Form::Holds))]
    fn to_tree(&self, _alloc: Global) -> Result<Tree, NoMemory> {
        Ok(Tree::Float(*self))
    }

    #[tactic(auto, using(avro_bin::proofs::ViewLemmas::values))]
    fn from_tree(_alloc: Global, tree: Tree) -> Result<Bits32, NoMemory> {
        match tree {
            Tree::Float(value) => Ok(value),
            _ => Ok(Bits32(0)),
        }
    }
}

impl InTree for Bits64 {
    #[tactic(auto, using(avro_bin::proofs::ViewLemmas::values), unfolding(etp_schema::specs::Form::Holds))]
    fn to_tree(&self, _alloc: Global) -> Result<Tree, NoMemory> {
        Ok(Tree::Double(*self))
    }

    #[tactic(auto, using(avro_bin::proofs::ViewLemmas::values))]
    fn from_tree(_alloc: Global, tree: Tree) -> Result<Bits64, NoMemory> {
        match tree {
            Tree::Double(value) => Ok(value),
            _ => Ok(Bits64(0)),
        }
    }
}

impl InTree for Text {
    #[tactic(auto, using(avro_bin::proofs::ViewLemmas::values), unfolding(etp_schema::specs::Form::Holds))]
    fn to_tree(&self, alloc: Global) -> Result<Tree, NoMemory> {
        Ok(Tree::Text(self.copy(alloc)?))
    }

    #[tactic(auto, using(avro_bin::proofs::ViewLemmas::values))]
    fn from_tree(alloc: Global, tree: Tree) -> Result<Text, NoMemory> {
        match tree {
            Tree::Text(text) => Ok(text),
            _ => Ok(Text::new(alloc)),
        }
    }
}

impl InTree for Blob {
    #[tactic(auto, using(avro_bin::proofs::ViewLemmas::values), unfolding(etp_schema::specs::Form::Holds))]
    fn to_tree(&self, _alloc: Global) -> Result<Tree, NoMemory> {
        Ok(Tree::Bytes(self.share()?))
    }

    #[tactic(auto, using(avro_bin::proofs::ViewLemmas::values))]
    fn from_tree(_alloc: Global, tree: Tree) -> Result<Blob, NoMemory> {
        match tree {
            Tree::Bytes(bytes) => Ok(bytes),
            _ => Ok(Blob::new()),
        }
    }
}

impl InTree for Id16 {
    #[tactic(auto, using(avro_bin::proofs::ViewLemmas::values), unfolding(etp_schema::specs::Form::Holds))]
    fn to_tree(&self, alloc: Global) -> Result<Tree, NoMemory> {
        Ok(Tree::Fixed(Blob::copy(alloc, self.as_bytes())?))
    }

    #[tactic(auto, using(avro_bin::proofs::ViewLemmas::values))]
    fn from_tree(_alloc: Global, tree: Tree) -> Result<Id16, NoMemory> {
        match tree {
            Tree::Fixed(bytes) => Ok(id_from(bytes.as_bytes())),
            _ => Ok(Id16::from_bytes([0; 16])),
        }
    }
}

/// The symbol of an enumeration with these symbols in order: `past` for a place beyond the last, and the first for any other tree.
pub fn symbol_of<T: Copy>(tree: Tree, symbols: &[T], past: T) -> T
    ensures { result ≡ get_or symbols.now (symbol_in (value_of tree)) past }
{
    symbol_at(place_of(tree), symbols, past)
}

#[tactic(auto, using(avro_bin::proofs::ViewLemmas::values))]
fn place_of(tree: Tree) -> u32
    ensures { result ≡ symbol_in (value_of tree) }
{
    match tree {
        Tree::Enum(place) => place,
        _ => 0,
    }
}
