//! Texts that come in pieces.
ghost use Rattle.std.specs.Prelude.{◌≡◌, ◌==◌, Some, None, if◌then◌else◌};
ghost use Rattle.std.specs.Int.{is_in_range};
ghost use Rattle.web_frames.specs.Utf8.{after_first, after_byte, after_bytes, is_whole};

/// How far a text that comes in pieces was checked: which octets its last character still needs, as the syntax of RFC 3629, section 4,
/// has them. A tail is an octet between 80 and BF.
#[derive(Clone, Copy, Debug, PartialEq, Eq)]
pub enum Utf8 {
    /// None: the text so far is whole characters.
    Whole,
    /// One tail.
    One,
    /// Two tails.
    Two,
    /// Three tails.
    Three,
    /// One between A0 and BF, and then a tail.
    AfterE0,
    /// One between 80 and 9F, and then a tail.
    AfterEd,
    /// One between 90 and BF, and then two tails.
    AfterF0,
    /// One between 80 and 8F, and then two tails.
    AfterF4,
}

impl Utf8 {
    /// Whether the last character is complete.
    pub(crate) fn is_whole(self) -> bool
        ensures { result ≡ is_whole self }
    {
        match self {
            Utf8::Whole => true,
            Utf8::One
            | Utf8::Two
            | Utf8::Three
            | Utf8::AfterE0
            | Utf8::AfterEd
            | Utf8::AfterF0
            | Utf8::AfterF4 => false,
        }
    }

    /// After one more piece. `None` if one of its bytes is not valid there.
    pub(crate) fn after(self, piece: &[u8]) -> Option<Utf8>
        ensures { result ≡ after_bytes (Some self) piece.now }
    {
        let mut state = self;
        for byte in piece {
            match state.after_byte(*byte) {
                Some(next) => state = next,
                None => return None,
            }
        }
        Some(state)
    }

    /// After one more byte.
    fn after_byte(self, byte: u8) -> Option<Utf8>
        ensures { result ≡ after_byte self byte }
    {
        match self {
            Utf8::Whole => after_first(byte),
            Utf8::One => within(byte, 0x80, 0xBF, Utf8::Whole),
            Utf8::Two => within(byte, 0x80, 0xBF, Utf8::One),
            Utf8::Three => within(byte, 0x80, 0xBF, Utf8::Two),
            Utf8::AfterE0 => within(byte, 0xA0, 0xBF, Utf8::One),
            Utf8::AfterEd => within(byte, 0x80, 0x9F, Utf8::One),
            Utf8::AfterF0 => within(byte, 0x90, 0xBF, Utf8::Two),
            Utf8::AfterF4 => within(byte, 0x80, 0x8F, Utf8::Two),
        }
    }
}

/// The next state, if a byte lies between two others.
fn within(byte: u8, least: u8, most: u8, next: Utf8) -> Option<Utf8>
    ensures { result ≡ (if is_in_range least most byte then Some next else None) }
{
    if least <= byte && byte <= most {
        return Some(next);
    }
    None
}

/// After the first byte of a character.
fn after_first(byte: u8) -> Option<Utf8>
    ensures { result ≡ after_first byte }
{
    match byte {
        0..=0x7F => Some(Utf8::Whole),
        0xC2..=0xDF => Some(Utf8::One),
        0xE0 => Some(Utf8::AfterE0),
        0xED => Some(Utf8::AfterEd),
        0xE1..=0xEF => Some(Utf8::Two),
        0xF0 => Some(Utf8::AfterF0),
        0xF1..=0xF3 => Some(Utf8::Three),
        0xF4 => Some(Utf8::AfterF4),
        _ => None,
    }
}
