//! Reading typed values from the front of bytes, without building a tree.
ghost use Rattle.std.specs.Prelude.{◌≡◌, ◌<◌, IfOk, Ok};
ghost use Rattle.std.specs.Bool.{OnTrue};
ghost use Rattle.std.specs.Int.{w32, w64};
ghost use Rattle.avro_bin.specs.Reading.{boolean_at, int_at, number_at, fixed_number_at, blob_at, text_at, place_at};
ghost use Rattle.etp_schema.specs.Form.{leaf_at, node_at, bits_32, bits_64, id_of, sixteen_at};
ghost use Rattle.etp_schema.specs.Reading.{Reads, ReadsLeaf, Begins};

use crate::leaves::id_from;
use crate::on_wire::OnWire;
use crate::record_fields::ReadFields;
use avro_bin::{Fault, Why, leaves, numbers};
use etp_values::{Bits32, Bits64, Blob, Id16, Text};
use std::alloc::Global;

/// The rest of a message's bytes, and the number of nodes that are still allowed.
#[derive(Drop)]
pub struct Reader<'a> {
    rest: &'a [u8],
    left: u32,
    alloc: Global,
}

impl<'a> Reader<'a> {
    /// All of these bytes, allowing at most this many nodes.
    pub fn new(alloc: Global, bytes: &'a [u8], nodes: u32) -> Reader<'a>
        ensures rest { result.rest.now ≡ bytes.entry.now }
        ensures left { result.left ≡ nodes }
    {
        Reader {
            rest: bytes,
            left: nodes,
            alloc,
        }
    }

    /// The rest of the bytes.
    pub fn rest(&self) -> &'a [u8]
        ensures { result.now ≡ self.now.rest.now }
    {
        self.rest
    }

    /// The allocator for the values that are read.
    pub fn alloc(&self) -> Global {
        self.alloc
    }

    /// Another reader of the same bytes, at the same position.
    pub(crate) fn again(&self) -> Reader<'a>
        ensures rest { result.rest.now ≡ self.now.rest.now }
        ensures left { result.left ≡ self.now.left }
    {
        Reader {
            rest: self.rest,
            left: self.left,
            alloc: self.alloc,
        }
    }

    /// Moves to the position of another reader of the same bytes.
    pub(crate) fn go_on(&mut self, ahead: &Reader<'a>)
        ensures rest { self.new.rest.now ≡ ahead.now.rest.now }
        ensures left { self.new.left ≡ ahead.now.left }
    {
        self.rest = ahead.rest;
        self.left = ahead.left;
    }

    /// Reads a number, and answers whether it is this one. If it is not, the position of the reader is unspecified.
    pub(crate) fn passes(&mut self, wanted: i64) -> bool
        ensures read { OnTrue result (number_at self.old.rest.now ≡ Ok (wanted, self.new.rest.now)) }
        ensures left { OnTrue result (self.new.left ≡ self.old.left) }
    {
        match self.long() {
            Ok(number) => number == wanted,
            Err(_) => false,
        }
    }

    /// Begins a value, which takes a node.
    pub fn node(&mut self) -> Result<(), Fault>
        ensures { Begins self.old result self.new }
    {
        if self.left == 0 {
            return Err(Fault::At(Why::Limit, self.rest.len()));
        }
        self.left -= 1;
        Ok(())
    }

    /// Reads a field.
    pub fn take<T: OnWire>(&mut self) -> Result<T, Fault>
        ensures { Reads (T.form.at self.old.left self.old.rest.now) result self.new }
    {
        T::read(self)
    }

    /// Reads the fields of a record, after the record's node.
    pub fn fields<R: ReadFields>(&mut self) -> Result<R, Fault>
        ensures { Reads (node_at R.forms.at self.old.left self.old.rest.now) result self.new }
    {
        self.node()?;
        R::read(self)
    }

    /// One byte, 0 or 1.
    pub(crate) fn boolean(&mut self) -> Result<bool, Fault>
        ensures { ReadsLeaf (boolean_at self.old.rest.now) self.old result self.new }
    {
        let (x, rest) = leaves::boolean(self.rest)?;
        self.rest = rest;
        Ok(x)
    }

    /// A number of 32 bits.
    pub(crate) fn int(&mut self) -> Result<i32, Fault>
        ensures { ReadsLeaf (int_at self.old.rest.now) self.old result self.new }
    {
        let (x, rest) = leaves::int(self.rest)?;
        self.rest = rest;
        Ok(x)
    }

    /// A number.
    pub(crate) fn long(&mut self) -> Result<i64, Fault>
        ensures { ReadsLeaf (number_at self.old.rest.now) self.old result self.new }
    {
        let (x, rest) = numbers::number(self.rest)?;
        self.rest = rest;
        Ok(x)
    }

    /// The bits of a single.
    pub(crate) fn float(&mut self) -> Result<Bits32, Fault>
        ensures { Reads (leaf_at bits_32 (fixed_number_at w32) self.old.left self.old.rest.now) result self.new }
    {
        let (x, rest) = leaves::float(self.rest)?;
        self.rest = rest;
        Ok(Bits32(x))
    }

    /// The bits of a double.
    pub(crate) fn double(&mut self) -> Result<Bits64, Fault>
        ensures { Reads (leaf_at bits_64 (fixed_number_at w64) self.old.left self.old.rest.now) result self.new }
    {
        let (x, rest) = leaves::double(self.rest)?;
        self.rest = rest;
        Ok(Bits64(x))
    }

    /// A length, and that many bytes.
    pub(crate) fn bytes(&mut self) -> Result<Blob, Fault>
        ensures { ReadsLeaf (blob_at self.old.rest.now) self.old result self.new }
    {
        let (x, rest) = leaves::blob(self.rest)?;
        let copy = Blob::copy(self.alloc, x)?;
        self.rest = rest;
        Ok(copy)
    }

    /// A length, and that many bytes of UTF-8.
    pub(crate) fn text(&mut self) -> Result<Text, Fault>
        ensures { ReadsLeaf (text_at self.old.rest.now) self.old result self.new }
    {
        let (x, rest) = leaves::text(self.rest)?;
        let copy = Text::copy(self.alloc, x)?;
        self.rest = rest;
        Ok(copy)
    }

    /// Sixteen bytes.
    pub(crate) fn id(&mut self) -> Result<Id16, Fault>
        ensures { Reads (leaf_at id_of sixteen_at self.old.left self.old.rest.now) result self.new }
    {
        let (x, rest) = leaves::bytes_of(self.rest.len(), 16, self.rest)?;
        let id = id_from(x);
        self.rest = rest;
        Ok(id)
    }

    /// A place below the number of symbols or branches.
    pub fn place(&mut self, count: usize) -> Result<u32, Fault>
        ensures read { ReadsLeaf (place_at count self.old.rest.now) self.old result self.new }
        ensures below { IfOk result (λ place. place < count) }
    {
        let (x, rest) = leaves::place(count, self.rest)?;
        self.rest = rest;
        Ok(x)
    }
}
