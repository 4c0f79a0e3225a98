//! Numbers, texts, bytes and identifiers.
ghost use Rattle.std.specs.Prelude.{◌≡◌, get_or, length};
ghost use Rattle.avro_bin.specs.Reading.{place_at};
ghost use Rattle.etp_schema.specs.Form.{id_of, node_at, leaf_at};
ghost use Rattle.etp_schema.specs.Reading.{Reads};

use crate::measure::Measure;
use crate::on_wire::OnWire;
use crate::reader::Reader;
use crate::typed::Typed;
use avro_bin::numbers::put_number;
use avro_bin::{Fault, put_blob, put_text};
use etp_values::{Bits32, Bits64, Blob, Id16, NoMemory, Text};

impl Typed for bool {
    ghost use Rattle.etp_schema.specs.Form.{boolean_form};

    ghost form = { boolean_form };
}

impl OnWire for bool {
    fn read(from: &mut Reader<'_>) -> Result<bool, Fault> {
        from.node()?;
        from.boolean()
    }

    #[tactic(auto, unfolding(crate::specs::Form::Holds))]
    fn write(&self, into: &mut Vec<u8>) -> Result<(), NoMemory> {
        into.push(if *self { 1 } else { 0 })?;
        Ok(())
    }

    fn measure(&self) -> Measure {
        Measure::of_bytes(1)
    }
}

impl Typed for i32 {
    ghost use Rattle.etp_schema.specs.Form.{int_form};

    ghost form = { int_form };
}

impl OnWire for i32 {
    fn read(from: &mut Reader<'_>) -> Result<i32, Fault> {
        from.node()?;
        from.int()
    }

    #[tactic(auto, unfolding(crate::specs::Form::Holds))]
    fn write(&self, into: &mut Vec<u8>) -> Result<(), NoMemory> {
        put_number(into, *self as i64)
    }

    fn measure(&self) -> Measure {
        Measure::of_number(*self as i64)
    }
}

impl Typed for i64 {
    ghost use Rattle.etp_schema.specs.Form.{long_form};

    ghost form = { long_form };
}

impl OnWire for i64 {
    fn read(from: &mut Reader<'_>) -> Result<i64, Fault> {
        from.node()?;
        from.long()
    }

    #[tactic(auto, unfolding(crate::specs::Form::Holds))]
    fn write(&self, into: &mut Vec<u8>) -> Result<(), NoMemory> {
        put_number(into, *self)
    }

    fn measure(&self) -> Measure {
        Measure::of_number(*self)
    }
}

impl Typed for Bits32 {
    ghost use Rattle.etp_schema.specs.Form.{float_form};

    ghost form = { float_form };
}

impl OnWire for Bits32 {
    fn read(from: &mut Reader<'_>) -> Result<Bits32, Fault> {
        from.node()?;
        from.float()
    }

    #[tactic(auto, unfolding(crate::specs::Form::Holds))]
    fn write(&self, into: &mut Vec<u8>) -> Result<(), NoMemory> {
        into.extend_from_slice(&self.0.to_le_bytes())?;
        Ok(())
    }

    fn measure(&self) -> Measure {
        Measure::of_bytes(4)
    }
}

impl Typed for Bits64 {
    ghost use Rattle.etp_schema.specs.Form.{double_form};

    ghost form = { double_form };
}

impl OnWire for Bits64 {
    fn read(from: &mut Reader<'_>) -> Result<Bits64, Fault> {
        from.node()?;
        from.double()
    }

    #[tactic(auto, unfolding(crate::specs::Form::Holds))]
    fn write(&self, into: &mut Vec<u8>) -> Result<(), NoMemory> {
        into.extend_from_slice(&self.0.to_le_bytes())?;
        Ok(())
    }

    fn measure(&self) -> Measure {
        Measure::of_bytes(8)
    }
}

impl Typed for Text {
    ghost use Rattle.etp_schema.specs.Form.{text_form};

    ghost form = { text_form };
}

impl OnWire for Text {
    fn read(from: &mut Reader<'_>) -> Result<Text, Fault> {
        from.node()?;
        from.text()
    }

    #[tactic(auto, unfolding(crate::specs::Form::Holds))]
    fn write(&self, into: &mut Vec<u8>) -> Result<(), NoMemory> {
        put_text(into, self)
    }

    fn measure(&self) -> Measure {
        Measure::of_blob(self.as_bytes())
    }
}

impl Typed for Blob {
    ghost use Rattle.etp_schema.specs.Form.{bytes_form};

    ghost form = { bytes_form };
}

impl OnWire for Blob {
    fn read(from: &mut Reader<'_>) -> Result<Blob, Fault> {
        from.node()?;
        from.bytes()
    }

    #[tactic(auto, unfolding(crate::specs::Form::Holds))]
    fn write(&self, into: &mut Vec<u8>) -> Result<(), NoMemory> {
        put_blob(into, self.as_bytes())
    }

    fn measure(&self) -> Measure {
        Measure::of_blob(self.as_bytes())
    }
}

impl Typed for Id16 {
    ghost use Rattle.etp_schema.specs.Form.{id_form};

    ghost form = { id_form };
}

impl OnWire for Id16 {
    fn read(from: &mut Reader<'_>) -> Result<Id16, Fault> {
        from.node()?;
        from.id()
    }

    #[tactic(auto, unfolding(crate::specs::Form::Holds))]
    fn write(&self, into: &mut Vec<u8>) -> Result<(), NoMemory> {
        into.extend_from_slice(self.as_bytes())?;
        Ok(())
    }

    fn measure(&self) -> Measure {
        Measure::of_bytes(self.as_bytes().len() as u64)
    }
}

/// The identifier of sixteen bytes.
pub fn id_from(bytes: &[u8]) -> Id16
    ensures { result ≡ id_of bytes.now }
{
    let mut id = [0; 16];
    if bytes.len() == 16 {
        id.copy_from_slice(bytes);
    }
    Id16::from_bytes(id)
}

/// Reads a symbol of an enumeration whose symbols these are, in order.
pub fn read_symbol<T: Copy>(from: &mut Reader<'_>, symbols: &[T], past: T) -> Result<T, Fault>
    ensures { Reads (node_at (leaf_at (λ p. get_or symbols.now p past) (place_at (length symbols.now))) from.old.left from.old.rest.now) result from.new }
{
    from.node()?;
    let place = from.place(symbols.len())?;
    Ok(symbol_at(place, symbols, past))
}

/// The symbol at a place, `past` for a place beyond the last.
pub fn symbol_at<T: Copy>(place: u32, symbols: &[T], past: T) -> T
    ensures { result ≡ get_or symbols.now place past }
{
    match symbols.get(place as usize) {
        Some(symbol) => *symbol,
        None => past,
    }
}
