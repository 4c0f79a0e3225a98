//! How much of a message a value takes.
ghost use Rattle.std.specs.Prelude.{◌≡◌, ◌≤◌, length, pos, [], ◌∷◌};
ghost use Rattle.avro_bin.specs.Number.{plain_number};
ghost use Rattle.avro_bin.specs.Plain.{plain_blob};
ghost use Rattle.avro_bin.specs.Value.{VNull, VUnion, VFields, row};
ghost use Rattle.etp_schema.specs.Measure.{adds, takes, counts, measured};

use crate::on_wire::OnWire;
use avro_bin::{blob_size, number_size};

/// The length of a written spelling in bytes, and the number of a value's nodes. Both stop at `u64::MAX`.
#[derive(Clone, Copy, Debug, PartialEq, Eq, Drop)]
pub struct Measure {
    pub bytes: u64,
    pub nodes: u64,
}

impl Measure {
    /// The node of a record, which takes no bytes.
    pub fn of_record() -> Measure
        ensures { result ≡ takes 0 1 }
    {
        Measure { bytes: 0, nodes: 1 }
    }

    /// This many bytes in one node.
    pub fn of_bytes(bytes: u64) -> Measure
        ensures { result ≡ takes bytes 1 }
    {
        Measure { bytes, nodes: 1 }
    }

    /// A number.
    pub fn of_number(x: i64) -> Measure
        ensures { result ≡ takes (length (plain_number x)) 1 }
    {
        Measure {
            bytes: number_size(x),
            nodes: 1,
        }
    }

    /// Bytes or a text, with the length before it.
    pub fn of_blob(bytes: &[u8]) -> Measure
        ensures { result ≡ takes (length (plain_blob bytes.now)) 1 }
    {
        Measure {
            bytes: blob_size(bytes),
            nodes: 1,
        }
    }

    /// The name of an entry, which is not a node.
    pub fn of_name(bytes: &[u8]) -> Measure
        ensures { result ≡ takes (length (plain_blob bytes.now)) 0 }
    {
        Measure {
            bytes: blob_size(bytes),
            nodes: 0,
        }
    }

    /// A list or a map of this many items, without them.
    pub fn of_count(count: usize) -> Measure
        ensures { result ≡ counts count }
    {
        if count == 0 {
            return Measure { bytes: 1, nodes: 1 };
        }
        Measure {
            bytes: count_size(count) + 1,
            nodes: 1,
        }
    }

    /// Both together.
    pub fn plus(self, other: Measure) -> Measure
        ensures { result ≡ adds self other }
    {
        Measure {
            bytes: self.bytes.saturating_add(other.bytes),
            nodes: self.nodes.saturating_add(other.nodes),
        }
    }

    /// This plus a value's.
    pub fn with<T: OnWire>(self, value: &T) -> Measure
        ensures { result ≡ adds self (measured (T.form.as_value value.now)) }
    {
        self.plus(value.measure())
    }

    /// The record whose one field is the branch of a union without a value.
    pub fn of_null(place: u32) -> Measure
        ensures { result ≡ measured (VFields (row (VUnion place VNull ∷ []))) }
    {
        let union = Measure::of_number(place as i64).plus(Measure::of_bytes(0));
        Measure::of_record().plus(union)
    }

    /// The record whose one field is this branch of a union.
    pub fn of_branch<T: OnWire>(place: u32, value: &T) -> Measure
        ensures { result ≡ measured (VFields (row (VUnion place (T.form.as_value value.now) ∷ []))) }
    {
        let union = Measure::of_number(place as i64).with(value);
        Measure::of_record().plus(union)
    }

    /// The same if the branch is a record with one field.
    pub(crate) fn of_wrapped<T: OnWire>(place: u32, value: &T) -> Measure
        ensures { result ≡ measured (VFields (row (VUnion place (VFields (row (T.form.as_value value.now ∷ []))) ∷ []))) }
    {
        let inner = Measure::of_record().with(value);
        let union = Measure::of_number(place as i64).plus(inner);
        Measure::of_record().plus(union)
    }
}

/// How many bytes a count takes: ten, if it has more than 63 bits.
#[tactic(auto, using(crate::proofs::MeasuredLemmas::longest))]
fn count_size(count: usize) -> u64
    ensures size { result ≡ length (plain_number (pos count)) }
    ensures few { result ≤ 10 }
{
    if count > i64::MAX as usize {
        return 10;
    }
    number_size(count as i64)
}
