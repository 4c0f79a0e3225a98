//! Typed values, directly from and to bytes.
ghost use Rattle.std.specs.Prelude.{◌≡◌, ◌++◌, ◌≤◌, OnOk, OnErr, length, IfOk};
ghost use Rattle.avro_bin.specs.Laws.{read_value, node_limit};
ghost use Rattle.avro_bin.specs.Plain.{plain, Writes};
ghost use Rattle.avro_bin.specs.Shape.{FitsTree};
ghost use Rattle.etp_schema.specs.Form.{Holds};
ghost use Rattle.etp_schema.specs.Measure.{measured};
ghost use Rattle.etp_schema.specs.Reading.{Reads, ReadsAs};

use crate::measure::Measure;
use crate::reader::Reader;
use crate::typed::Typed;
use avro_bin::{Fault, NODE_LIMIT, Refusal, refusal_at};
use etp_values::NoMemory;
use std::alloc::Global;

/// A type whose values are read from bytes and written to bytes without a tree.
///
/// `form.at` is what the value at the front of the bytes is read as. By the law `at_is` of a form that is the same as reading a value of
/// the schema and seeing it as one of the type; what is written is the spelling of `form.as_value`.
pub trait OnWire: Typed {
    /// Reads the value at the front of the rest.
    fn read(from: &mut Reader<'_>) -> Result<Self, Fault>
        ensures { Reads (Self.form.at from.old.left from.old.rest.now) result from.new };

    /// Appends the written spelling. After `NoMemory` what was there is still at the front.
    fn write(&self, into: &mut Vec<u8>) -> Result<(), NoMemory>
        ensures written { Writes (plain (Self.form.as_value self.now)) into.old.items into.new.items result }
        ensures typed { OnOk result (Holds Self.form self.now) }
        ensures fits { OnOk result (FitsTree (Self.form.as_value self.now)) };

    /// How much of a message the value takes. It does not allocate.
    fn measure(&self) -> Measure
        ensures { result ≡ measured (Self.form.as_value self.now) };
}

/// The value at the front of the bytes, and the length of its spelling: what `decode` gives, seen through the form.
pub fn read_body<T: OnWire>(alloc: Global, bytes: &[u8]) -> Result<(T, usize), Refusal>
    ensures reads { ReadsAs T.form.from_value (read_value T.form.schema node_limit bytes.now) result }
    ensures within { IfOk result (λ r. r.1 ≤ length bytes.now) }
{
    let mut from = Reader::new(alloc, bytes, NODE_LIMIT);
    match T::read(&mut from) {
        Ok(value) => Ok((value, bytes.len().saturating_sub(from.rest().len()))),
        Err(Fault::At(why, left)) => Err(refusal_at(why, bytes.len().saturating_sub(left))),
        Err(Fault::Memory) => Err(Refusal::NoMemory),
    }
}

/// Appends the written spelling of the value, as `encode` does that of its tree. After `NoMemory` the bytes are unchanged.
pub fn write_body<T: OnWire>(value: &T, into: &mut Vec<u8>) -> Result<(), NoMemory>
    ensures written { OnOk result (into.new.items ≡ into.old.items ++ plain (T.form.as_value value.now)) }
    ensures kept { OnErr result (into.new.items ≡ into.old.items) }
    ensures typed { OnOk result (Holds T.form value.now) }
    ensures fits { OnOk result (FitsTree (T.form.as_value value.now)) }
{
    let start = into.len();
    match value.write(into) {
        Ok(()) => Ok(()),
        Err(error) => {
            into.truncate(start);
            Err(error)
        }
    }
}
