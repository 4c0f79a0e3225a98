//! The fields of a record, first to last: each is read, written and measured after the one before.
ghost use Rattle.std.specs.Prelude.{◌≡◌, ◌∷◌, [], OnOk, List as Items};
ghost use Rattle.avro_bin.specs.Plain.{plain, plain_all, Writes};
ghost use Rattle.avro_bin.specs.Schema.{SFields, Schemas, none, more};
ghost use Rattle.avro_bin.specs.Shape.{AllFit, FieldsHave, FitsTree, HasSchema};
ghost use Rattle.avro_bin.specs.Value.{Value, VFields, row, list};
ghost use Rattle.etp_schema.specs.Form.{Row, done, ◌&◌};
ghost use Rattle.etp_schema.specs.Measure.{measured, measured_behind};
ghost use Rattle.etp_schema.specs.Reading.{Reads};

use crate::measure::Measure;
use crate::on_wire::OnWire;
use crate::reader::Reader;
use avro_bin::Fault;
use etp_values::NoMemory;

/// The fields of a record that are read: a pair of the first and the others, and `()` after the last.
pub trait ReadFields: Drop {
    ghost forms: { Row Self };

    /// Reads the fields at the front of the rest.
    fn read(from: &mut Reader<'_>) -> Result<Self, Fault>
        ensures { Reads (forms.at from.old.left from.old.rest.now) result from.new };
}

impl ReadFields for () {
    ghost forms = { done };

    fn read(_from: &mut Reader<'_>) -> Result<(), Fault> {
        Ok(())
    }
}

impl<A: OnWire, B: ReadFields> ReadFields for (A, B) {
    ghost forms = { A.form & B.forms };

    fn read(from: &mut Reader<'_>) -> Result<(A, B), Fault> {
        let first = A::read(from)?;
        let others = B::read(from)?;
        Ok((first, others))
    }
}

/// The fields of a record that are written: a pair of the first and the others, and `()` after the last.
pub trait WriteFields: Drop {
    ghost schemas: { Schemas };

    ghost values: { Self → Items Value };

    /// Appends each field's written spelling. After `NoMemory` what was there is still at the front.
    fn write(self, into: &mut Vec<u8>) -> Result<(), NoMemory>
        ensures written { Writes (plain_all (row (values self))) into.old.items into.new.items result }
        ensures typed { OnOk result (FieldsHave schemas (list (row (values self)))) }
        ensures fits { OnOk result (AllFit (row (values self))) };

    /// How much the fields take, together with what comes before them.
    fn measure(self, before: Measure) -> Measure
        ensures { result ≡ measured_behind before (row (values self)) };
}

impl WriteFields for () {
    ghost schemas = { none };

    ghost values = { λ u. [] };

    fn write(self, _into: &mut Vec<u8>) -> Result<(), NoMemory> {
        Ok(())
    }

    fn measure(self, before: Measure) -> Measure {
        before
    }
}

impl<'a, A: OnWire, B: WriteFields> WriteFields for (&'a A, B) {
    ghost schemas = { more A.form.schema B.schemas };

    ghost values = { λ p. A.form.as_value p.0.now ∷ B.values p.1 };

    #[tactic(auto, unfolding(crate::specs::Form::Holds))]
    fn write(self, into: &mut Vec<u8>) -> Result<(), NoMemory> {
        let (first, others) = self;
        first.write(into)?;
        others.write(into)?;
        Ok(())
    }

    fn measure(self, before: Measure) -> Measure {
        let (first, others) = self;
        others.measure(before.with(first))
    }
}

/// Appends the written spelling of a record of these fields. After `NoMemory` what was there is still at the front.
pub fn write_fields<W: WriteFields>(fields: W, into: &mut Vec<u8>) -> Result<(), NoMemory>
    ensures written { Writes (plain (VFields (row (W.values fields)))) into.old.items into.new.items result }
    ensures typed { OnOk result (HasSchema (SFields W.schemas) (VFields (row (W.values fields)))) }
    ensures fits { OnOk result (FitsTree (VFields (row (W.values fields)))) }
{
    fields.write(into)
}

/// How much of a message a record of these fields takes.
pub fn measure_fields<W: WriteFields>(fields: W) -> Measure
    ensures { result ≡ measured (VFields (row (W.values fields))) }
{
    fields.measure(Measure::of_record())
}
