//! Lists, maps, optional and boxed values as trees.
ghost use Rattle.std.specs.Prelude.{◌≡◌, IfOk, OnOk, map};
ghost use Rattle.std.specs.List.{AllByRecursion};
ghost use Rattle.etp_values.specs.Entries.{on_value};
ghost use Rattle.avro_bin.specs.View.{value_of, entry_of};
ghost use Rattle.etp_schema.specs.Form.{Holds, list_form, list_in, named_in};

use crate::in_tree::InTree;
use avro_bin::Tree;
use etp_schema::Few;
use etp_values::{Boxed, Copied, List, Named, NoMemory, Shared};
use std::alloc::Global;

impl<T: InTree> InTree for List<T> {
    fn to_tree(&self, alloc: Global) -> Result<Tree, NoMemory> {
        tree_of_items(alloc, self.as_slice())
    }

    fn from_tree(alloc: Global, tree: Tree) -> Result<List<T>, NoMemory> {
        let mut items = Vec::new(alloc);
        for item in items_of(alloc, tree) {
            items.push(T::from_tree(alloc, item)?)?;
        }
        Ok(List::from_vec(items))
    }
}

impl<T: InTree> InTree for Few<T> {
    fn to_tree(&self, alloc: Global) -> Result<Tree, NoMemory> {
        tree_of_items(alloc, self.as_slice())
    }

    fn from_tree(alloc: Global, tree: Tree) -> Result<Few<T>, NoMemory> {
        let list: List<T> = InTree::from_tree(alloc, tree)?;
        Ok(Few::of_list(list))
    }
}

impl<T: InTree> InTree for Named<T> {
    #[tactic(auto, using(etp_schema::proofs::PartLemmas::parts))]
    fn to_tree(&self, alloc: Global) -> Result<Tree, NoMemory> {
        let trees = trees_of_named(alloc, self)?;
        Ok(Tree::Map(trees))
    }

    fn from_tree(alloc: Global, tree: Tree) -> Result<Named<T>, NoMemory> {
        let mut items = Vec::new(alloc);
        for (name, value) in named_of(alloc, tree).into_vec() {
            items.push((name, T::from_tree(alloc, value)?))?;
        }
        Ok(Named::from_sorted(items))
    }
}

impl<T: InTree> InTree for Option<T> {
    #[tactic(auto, using(etp_schema::proofs::PartLemmas::parts))]
    fn to_tree(&self, alloc: Global) -> Result<Tree, NoMemory> {
        match self {
            None => Ok(Tree::Union(0, Box::new(alloc, Tree::Null)?)),
            Some(value) => Ok(Tree::Union(1, Box::new(alloc, value.to_tree(alloc)?)?)),
        }
    }

    #[tactic(auto, using(etp_schema::proofs::PartLemmas::parts))]
    fn from_tree(alloc: Global, tree: Tree) -> Result<Option<T>, NoMemory> {
        match tree {
            Tree::Union(0, _) => Ok(None),
            Tree::Union(_, value) => Ok(Some(T::from_tree(alloc, Box::into_inner(value))?)),
            _ => Ok(None),
        }
    }
}

impl<T: InTree> InTree for Boxed<T> {
    fn to_tree(&self, alloc: Global) -> Result<Tree, NoMemory> {
        self.get().to_tree(alloc)
    }

    fn from_tree(alloc: Global, tree: Tree) -> Result<Boxed<T>, NoMemory> {
        Boxed::new(alloc, T::from_tree(alloc, tree)?)
    }
}

impl<T: InTree> InTree for Shared<T> {
    fn to_tree(&self, alloc: Global) -> Result<Tree, NoMemory> {
        self.get().to_tree(alloc)
    }

    fn from_tree(alloc: Global, tree: Tree) -> Result<Shared<T>, NoMemory> {
        Shared::new(alloc, T::from_tree(alloc, tree)?)
    }
}

#[tactic(auto, using(etp_schema::proofs::PartLemmas::parts, etp_schema::proofs::PartLemmas::list_holds))]
fn tree_of_items<T: InTree>(alloc: Global, items: &[T]) -> Result<Tree, NoMemory>
    ensures value { IfOk result (λ tree. value_of tree ≡ (list_form T.form).as_value items.now) }
    ensures typed { OnOk result (Holds (list_form T.form) items.now) }
{
    let trees = trees_of_items(alloc, items)?;
    Ok(Tree::Array(List::from_vec(trees)))
}

fn trees_of_items<T: InTree>(alloc: Global, items: &[T]) -> Result<Vec<Tree>, NoMemory>
    ensures value { IfOk result (λ trees. map value_of trees.items ≡ map T.form.as_value items.now) }
    ensures typed { OnOk result (AllByRecursion (Holds T.form) items.now) }
{
    let mut trees = Vec::new(alloc);
    for item in items {
        trees.push(item.to_tree(alloc)?)?;
    }
    Ok(trees)
}

#[tactic(auto, using(etp_schema::proofs::PartLemmas::parts))]
fn items_of(alloc: Global, tree: Tree) -> Vec<Tree>
    ensures { map value_of result.items ≡ list_in (value_of tree) }
{
    match tree {
        Tree::Array(items) => items.into_vec(),
        _ => Vec::new(alloc),
    }
}

fn trees_of_named<T: InTree>(alloc: Global, named: &Named<T>) -> Result<Named<Tree>, NoMemory>
    ensures value { IfOk result (λ trees. map entry_of trees ≡ map (on_value T.form.as_value) named.now) }
    ensures typed { OnOk result (AllByRecursion (λ e. Holds T.form e.1) named.now) }
{
    let mut trees = Vec::new(alloc);
    for pair in named.as_slice() {
        trees.push((pair.0.copy(alloc)?, pair.1.to_tree(alloc)?))?;
    }
    Ok(Named::from_sorted(trees))
}

#[tactic(auto, using(etp_schema::proofs::PartLemmas::parts))]
fn named_of(alloc: Global, tree: Tree) -> Named<Tree>
    ensures { map entry_of result ≡ named_in (value_of tree) }
{
    match tree {
        Tree::Map(named) => named,
        _ => Named::new(alloc),
    }
}
