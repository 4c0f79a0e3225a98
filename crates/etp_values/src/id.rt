//! Identifiers of sixteen bytes (RFC 9562).
ghost use Rattle.std.specs.Prelude.{◌≡◌, length};
ghost use Rattle.etp_values.specs.Id.{version5};

use std::marker::Model;
use uuid::Uuid;

/// An identifier of RFC 9562. A contract sees its sixteen bytes, in the order in which they are sent.
#[derive(Clone, Copy, Debug, PartialEq, Eq, PartialOrd, Ord, Hash)]
pub struct Id16 {
    bytes: [u8; 16],
}

impl Model for Id16 {
    ghost use Rattle.std.specs.Prelude.{List, ℕ};

    ghost Value = { List ℕ };

    ghost view = { λ i. i.bytes };

    ghost inverse = { λ b. record { bytes = b } };
}

impl Id16 {
    /// An identifier of any version and variant.
    pub fn from_bytes(bytes: [u8; 16]) -> Id16
        ensures { result ≡ bytes }
    {
        Id16 { bytes }
    }

    /// The bytes in the order in which they are sent.
    pub fn as_bytes(&self) -> &[u8; 16]
        ensures value { result.now ≡ self.now }
        ensures len { length self.now ≡ 16 }
    {
        &self.bytes
    }

    /// The identifier of `name` in the name space `space`: version 5 of RFC 9562, section 5.5, over SHA-1. The same name space and name
    /// always give the same identifier.
    pub fn named(space: Id16, name: &str) -> Id16
        ensures { result ≡ version5 space name.now }
    {
        let space = Uuid::from_bytes(space.bytes);
        let id = Uuid::new_v5(&space, name.as_bytes());
        Id16 {
            bytes: *id.as_bytes(),
        }
    }
}
