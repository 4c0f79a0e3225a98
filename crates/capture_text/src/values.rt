//! Values.
ghost use Rattle.std.specs.Prelude.{◌++◌, map, codes, if◌then◌else◌};
ghost use Rattle.std.specs.Fmt.{decimal};
ghost use Rattle.avro_bin.specs.Plain.{Writes};
ghost use Rattle.avro_bin.specs.Value.{row, entries};
ghost use Rattle.avro_bin.specs.View.{value_of, entry_of};
ghost use Rattle.capture_text.specs.Names.{child_at, field_at};
ghost use Rattle.capture_text.specs.Pieces.{hex, quoted, separator};
ghost use Rattle.capture_text.specs.Values.{value_text, items_text, entries_text, fields_text};

use crate::names::{child_of, field_of};
use crate::pieces::{put, put_hex, put_number, put_quoted, put_separator, put_signed};
use avro_bin::Tree;
use etp_values::{Named, NoMemory, Text};

/// Appends a mark and bytes.
#[tactic(auto, using(crate::proofs::WritingLemmas::writes_after))]
fn put_marked(into: &mut Vec<u8>, mark: &[u8], bytes: &[u8]) -> Result<(), NoMemory>
    ensures { Writes (mark.now ++ hex bytes.now) into.old.items into.new.items result }
{
    put(into, mark)?;
    put_hex(into, bytes)
}

/// Appends a mark and the place of a symbol or a branch.
#[tactic(auto, using(crate::proofs::WritingLemmas::writes_after))]
fn put_place(into: &mut Vec<u8>, mark: &[u8], place: u32) -> Result<(), NoMemory>
    ensures { Writes (mark.now ++ decimal place) into.old.items into.new.items result }
{
    put(into, mark)?;
    put_number(into, place as u64)
}

/// Appends a value of the schema at this place of the table.
#[cycle(showing)]
#[tactic(auto, using(avro_bin::proofs::ViewLemmas::values))]
pub fn put_value(into: &mut Vec<u8>, place: u32, tree: &Tree) -> Result<(), NoMemory>
    ensures { Writes (value_text place (value_of tree.now)) into.old.items into.new.items result }
{
    match tree {
        Tree::Null => put(into, b"null"),
        Tree::Boolean(b) => put_boolean(into, *b),
        Tree::Int(x) => put_signed(into, *x as i64),
        Tree::Long(x) => put_signed(into, *x),
        Tree::Float(x) => put_marked(into, b"f:", &x.0.to_be_bytes()),
        Tree::Double(x) => put_marked(into, b"d:", &x.0.to_be_bytes()),
        Tree::Bytes(b) => put_marked(into, b"x:", b.as_bytes()),
        Tree::Text(t) => put_quoted(into, t.as_bytes()),
        Tree::Fixed(b) => put_marked(into, b"x:", b.as_bytes()),
        Tree::Enum(p) => put_place(into, b"@", *p),
        Tree::Array(l) => put_array(into, child_of(place, 0), l.as_slice()),
        Tree::Map(m) => put_map(into, child_of(place, 0), m),
        Tree::Union(p, v) => put_branch(into, place, *p, v),
        Tree::Fields(l) => put_record(into, place, l.as_slice()),
    }
}

fn put_boolean(into: &mut Vec<u8>, b: bool) -> Result<(), NoMemory>
    ensures { Writes (if b then codes "true" else codes "false") into.old.items into.new.items result }
{
    if b {
        put(into, b"true")
    } else {
        put(into, b"false")
    }
}

/// Appends the place of a branch of the union at a place, and its value.
#[cycle(showing)]
#[tactic(auto, using(crate::proofs::WritingLemmas::writes_after))]
fn put_branch(into: &mut Vec<u8>, place: u32, branch: u32, tree: &Tree) -> Result<(), NoMemory>
    ensures { Writes (codes "#" ++ decimal branch ++ codes " " ++ value_text (child_at place branch) (value_of tree.now)) into.old.items into.new.items result }
{
    put_place(into, b"#", branch)?;
    put(into, b" ")?;
    put_value(into, child_of(place, branch as usize), tree)
}

/// Appends an array of values of the schema at this place.
#[cycle(showing)]
#[tactic(auto, using(crate::proofs::WritingLemmas::writes_after))]
fn put_array(into: &mut Vec<u8>, place: u32, trees: &[Tree]) -> Result<(), NoMemory>
    ensures { Writes (codes "[" ++ items_text place 0 (row (map value_of trees.now)) ++ codes "]") into.old.items into.new.items result }
{
    put(into, b"[")?;
    put_items(into, place, trees)?;
    put(into, b"]")
}

#[cycle(showing)]
#[tactic(auto, using(crate::proofs::WritingLemmas::writes_after))]
fn put_items(into: &mut Vec<u8>, place: u32, trees: &[Tree]) -> Result<(), NoMemory>
    ensures { Writes (items_text place 0 (row (map value_of trees.now))) into.old.items into.new.items result }
{
    for i in 0..trees.len() {
        put_item(into, place, i, &trees[i])?;
    }
    Ok(())
}

/// Appends the `i`-th item of an array.
#[cycle(showing)]
#[tactic(auto, using(crate::proofs::WritingLemmas::writes_after))]
fn put_item(into: &mut Vec<u8>, place: u32, i: usize, tree: &Tree) -> Result<(), NoMemory>
    ensures { Writes (separator i ++ value_text place (value_of tree.now)) into.old.items into.new.items result }
{
    put_separator(into, i)?;
    put_value(into, place, tree)
}

/// Appends a map of values of the schema at this place.
#[cycle(showing)]
#[tactic(auto, using(crate::proofs::WritingLemmas::writes_after))]
fn put_map(into: &mut Vec<u8>, place: u32, named: &Named<Tree>) -> Result<(), NoMemory>
    ensures { Writes (codes "(" ++ entries_text place 0 (entries (map entry_of named.now)) ++ codes ")") into.old.items into.new.items result }
{
    put(into, b"(")?;
    put_entries(into, place, named)?;
    put(into, b")")
}

#[cycle(showing)]
#[tactic(auto, using(crate::proofs::WritingLemmas::writes_after))]
fn put_entries(into: &mut Vec<u8>, place: u32, named: &Named<Tree>) -> Result<(), NoMemory>
    ensures { Writes (entries_text place 0 (entries (map entry_of named.now))) into.old.items into.new.items result }
{
    for i in 0..named.len() {
        let (name, tree) = named.at(i);
        put_entry(into, place, i, name, tree)?;
    }
    Ok(())
}

/// Appends the name of the `i`-th entry of a map, and what separates it from the value.
#[tactic(auto, using(crate::proofs::WritingLemmas::writes_after))]
fn put_key(into: &mut Vec<u8>, i: usize, name: &Text) -> Result<(), NoMemory>
    ensures { Writes (separator i ++ quoted name.now ++ codes ": ") into.old.items into.new.items result }
{
    put_separator(into, i)?;
    put_quoted(into, name.as_bytes())?;
    put(into, b": ")
}

#[cycle(showing)]
#[tactic(auto, using(crate::proofs::WritingLemmas::writes_after))]
fn put_entry(
    into: &mut Vec<u8>,
    place: u32,
    i: usize,
    name: &Text,
    tree: &Tree,
) -> Result<(), NoMemory>
    ensures { Writes (separator i ++ quoted name.now ++ codes ": " ++ value_text place (value_of tree.now)) into.old.items into.new.items result }
{
    put_key(into, i, name)?;
    put_value(into, place, tree)
}

/// Appends a record of the schema at this place.
#[cycle(showing)]
#[tactic(auto, using(crate::proofs::WritingLemmas::writes_after))]
fn put_record(into: &mut Vec<u8>, place: u32, trees: &[Tree]) -> Result<(), NoMemory>
    ensures { Writes (codes "{" ++ fields_text place 0 (row (map value_of trees.now)) ++ codes "}") into.old.items into.new.items result }
{
    put(into, b"{")?;
    put_fields(into, place, trees)?;
    put(into, b"}")
}

#[cycle(showing)]
#[tactic(auto, using(crate::proofs::WritingLemmas::writes_after))]
fn put_fields(into: &mut Vec<u8>, place: u32, trees: &[Tree]) -> Result<(), NoMemory>
    ensures { Writes (fields_text place 0 (row (map value_of trees.now))) into.old.items into.new.items result }
{
    for i in 0..trees.len() {
        put_field(into, place, i, &trees[i])?;
    }
    Ok(())
}

/// Appends the name of the `i`-th field of the record at a place, and what separates it from the value.
#[tactic(auto, using(crate::proofs::WritingLemmas::writes_after))]
fn put_name(into: &mut Vec<u8>, place: u32, i: usize) -> Result<(), NoMemory>
    ensures { Writes (separator i ++ field_at place i ++ codes "=") into.old.items into.new.items result }
{
    put_separator(into, i)?;
    put(into, field_of(place, i).as_bytes())?;
    put(into, b"=")
}

#[cycle(showing)]
#[tactic(auto, using(crate::proofs::WritingLemmas::writes_after))]
fn put_field(into: &mut Vec<u8>, place: u32, i: usize, tree: &Tree) -> Result<(), NoMemory>
    ensures { Writes (separator i ++ field_at place i ++ codes "=" ++ value_text (child_at place i) (value_of tree.now)) into.old.items into.new.items result }
{
    put_name(into, place, i)?;
    put_value(into, child_of(place, i), tree)
}
