//! Identifiers as text: the hyphenated form of RFC 9562, section 4.
ghost use Rattle.std.specs.Prelude.{◌≡◌, ◌≤◌, length};
ghost use Rattle.etp_values.specs.IdText.{id_of, id_text};

use crate::id::Id16;
use uuid::Uuid;

/// The length of an identifier's hyphenated text: 32 digits and four hyphens.
pub const ID_TEXT_LEN: usize = 36;

impl Id16 {
    /// Reads the 8-4-4-4-12 form: hexadecimal digits in either case, of any version and variant. `None` for any other text, including the
    /// forms without hyphens, in braces and as a URN.
    pub fn read(text: &str) -> Option<Id16>
        ensures { result ≡ id_of text.now }
    {
        if text.len() != ID_TEXT_LEN {
            return None;
        }
        match Uuid::parse_str(text) {
            Ok(id) => Some(Id16::from_bytes(id.into_bytes())),
            Err(_) => None,
        }
    }

    /// Writes the hyphenated text, with lower-case digits, to the start of `buffer`, and borrows it from there.
    pub fn write<'b>(&self, buffer: &'b mut [u8]) -> &'b str
        requires { ID_TEXT_LEN ≤ length buffer.old }
        ensures { result.now ≡ id_text self.now }
    {
        let id = Uuid::from_bytes(*self.as_bytes());
        id.hyphenated().encode_lower(buffer)
    }
}
