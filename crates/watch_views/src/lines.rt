//! Lines under construction.
ghost use Rattle.std.specs.Prelude.{◌≡◌, OnErr, OnOk, take};
ghost use Rattle.std.specs.Fmt.{decimal};
ghost use Rattle.std.specs.List.{flat_map};
ghost use Rattle.avro_bin.specs.Plain.{Writes};
ghost use Rattle.watch_views.specs.Lines.{spaced};

use etp_values::NoMemory;
use itoa::Buffer;

/// Appends these bytes.
pub fn put(into: &mut Vec<u8>, bytes: &[u8]) -> Result<(), NoMemory>
    ensures { Writes bytes.now into.old.items into.new.items result }
{
    into.extend_from_slice(bytes)?;
    Ok(())
}

/// Appends a number in decimal.
pub fn put_number(into: &mut Vec<u8>, n: u64) -> Result<(), NoMemory>
    ensures { Writes (decimal n) into.old.items into.new.items result }
{
    let mut buffer = Buffer::new();
    put(into, buffer.format(n).as_bytes())
}

/// Appends a space and a number.
#[tactic(auto, using(capture_text::proofs::WritingLemmas::writes_after))]
fn put_spaced(into: &mut Vec<u8>, n: u64) -> Result<(), NoMemory>
    ensures { Writes (spaced n) into.old.items into.new.items result }
{
    put(into, b" ")?;
    put_number(into, n)
}

/// Appends numbers, each after a space.
#[tactic(auto, using(std::proofs::Transfers::starts_with_trans))]
pub fn put_numbers(into: &mut Vec<u8>, numbers: &[u64]) -> Result<(), NoMemory>
    ensures { Writes (flat_map spaced numbers.now) into.old.items into.new.items result }
{
    for n in numbers {
        put_spaced(into, *n)?;
    }
    Ok(())
}

/// Takes back what was appended after the first `len` bytes, if memory ran out on the way.
pub fn whole_or_nothing(
    into: &mut Vec<u8>,
    len: usize,
    written: Result<(), NoMemory>,
) -> Result<(), NoMemory>
    ensures ok { OnOk result (into.new.items ≡ into.old.items) }
    ensures err { OnErr result (into.new.items ≡ take len into.old.items) }
    ensures same { result ≡ written }
{
    if written.is_err() {
        into.truncate(len);
    }
    written
}
