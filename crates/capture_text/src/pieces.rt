//! Numbers, bytes and texts.
ghost use Rattle.std.specs.Prelude.{◌≡◌, ◌<◌, ◌∷◌};
ghost use Rattle.std.specs.Fmt.{decimal, signed_decimal};
ghost use Rattle.avro_bin.specs.Plain.{Writes};
ghost use Rattle.capture_text.specs.Pieces.{hex_digit, hex_byte, hex, is_shown, shown_byte, escaped, quoted, separator};

use etp_values::NoMemory;
use itoa::Buffer;

/// Appends these bytes.
pub fn put(into: &mut Vec<u8>, bytes: &[u8]) -> Result<(), NoMemory>
    ensures { Writes bytes.now into.old.items into.new.items result }
{
    into.extend_from_slice(bytes)?;
    Ok(())
}

/// Appends a number in decimal.
pub fn put_number(into: &mut Vec<u8>, n: u64) -> Result<(), NoMemory>
    ensures { Writes (decimal n) into.old.items into.new.items result }
{
    let mut buffer = Buffer::new();
    put(into, buffer.format(n).as_bytes())
}

/// Appends a number in decimal, with a sign if it is negative.
pub fn put_signed(into: &mut Vec<u8>, x: i64) -> Result<(), NoMemory>
    ensures { Writes (signed_decimal x) into.old.items into.new.items result }
{
    let mut buffer = Buffer::new();
    put(into, buffer.format(x).as_bytes())
}

/// The digit of a number below 16.
fn digit_of(n: u8) -> u8
    requires { n < 16 }
    ensures { result ≡ hex_digit n }
{
    if n < 10 { b'0' + n } else { b'A' - 10 + n }
}

/// Appends the two digits of a byte.
fn put_hex_byte(into: &mut Vec<u8>, byte: u8) -> Result<(), NoMemory>
    ensures { Writes (hex_byte byte) into.old.items into.new.items result }
{
    put(into, &[digit_of(byte / 16), digit_of(byte % 16)])
}

/// Appends bytes in hexadecimal.
#[tactic(auto, using(std::proofs::Transfers::starts_with_trans))]
pub fn put_hex(into: &mut Vec<u8>, bytes: &[u8]) -> Result<(), NoMemory>
    ensures { Writes (hex bytes.now) into.old.items into.new.items result }
{
    for byte in bytes {
        put_hex_byte(into, *byte)?;
    }
    Ok(())
}

/// Whether a byte of a text is shown as it is.
fn is_shown(byte: u8) -> bool
    ensures { result ≡ is_shown byte }
{
    32 <= byte && byte <= 126 && byte != b'"' && byte != b'\\'
}

/// Appends a byte of a text that is not shown as it is.
#[tactic(auto, using(crate::proofs::WritingLemmas::writes_after))]
fn put_escape(into: &mut Vec<u8>, byte: u8) -> Result<(), NoMemory>
    ensures { Writes (92 ∷ 120 ∷ hex_byte byte) into.old.items into.new.items result }
{
    put(into, b"\\x")?;
    put_hex_byte(into, byte)
}

/// Appends a byte of a text.
fn put_byte(into: &mut Vec<u8>, byte: u8) -> Result<(), NoMemory>
    ensures { Writes (shown_byte byte) into.old.items into.new.items result }
{
    if is_shown(byte) {
        put(into, &[byte])
    } else {
        put_escape(into, byte)
    }
}

/// Appends the bytes of a text.
#[tactic(auto, using(std::proofs::Transfers::starts_with_trans))]
fn put_escaped(into: &mut Vec<u8>, text: &[u8]) -> Result<(), NoMemory>
    ensures { Writes (escaped text.now) into.old.items into.new.items result }
{
    for byte in text {
        put_byte(into, *byte)?;
    }
    Ok(())
}

/// Appends a text between quotation marks.
#[tactic(auto, using(std::proofs::Transfers::starts_with_trans))]
pub fn put_quoted(into: &mut Vec<u8>, text: &[u8]) -> Result<(), NoMemory>
    ensures { Writes (quoted text.now) into.old.items into.new.items result }
{
    into.push(b'"')?;
    put_escaped(into, text)?;
    into.push(b'"')?;
    Ok(())
}

/// Appends what comes before the item with this number.
pub fn put_separator(into: &mut Vec<u8>, i: usize) -> Result<(), NoMemory>
    ensures { Writes (separator i) into.old.items into.new.items result }
{
    if i == 0 {
        return Ok(());
    }
    put(into, b", ")
}
