//! Sizes of typed values on the wire.
ghost use Rattle.std.specs.Prelude.{◌≡◌, IfOk, length};
ghost use Rattle.avro_bin.specs.Plain.{plain};
ghost use Rattle.etp_schema.specs.Measure.{size_of};
ghost use Rattle.etp_schema.specs.Size.{capped};

use crate::measure::Measure;
use crate::on_wire::OnWire;
use avro_bin::SIZE_LIMIT;
use etp_values::NoMemory;
use std::alloc::Global;

/// How many bytes the written spelling of the value has, and how many nodes the value has. It does not allocate.
#[tactic(auto, using(crate::proofs::MeasuredLemmas::measured_is))]
pub fn measure_of<T: OnWire>(value: &T) -> Measure
    ensures { result ≡ size_of (T.form.as_value value.now) }
{
    value.measure()
}

/// How many bytes the written spelling of the value has; `u64::MAX` if that is more than 2^40.
pub fn encoded_size<T: OnWire>(_alloc: Global, value: &T) -> Result<u64, NoMemory>
    ensures { IfOk result (λ n. n ≡ capped (length (plain (T.form.as_value value.now)))) }
{
    let bytes = measure_of(value).bytes;
    if bytes > SIZE_LIMIT {
        return Ok(u64::MAX);
    }
    Ok(bytes)
}
