//! The URIs of dataspaces and of objects in them.
//!
//! A dataspace is `eml:///` (the default one) or `eml:///dataspace('PATH')`. An object is `eml:///DOMAIN.TYPE(ID)` or
//! `eml:///dataspace('PATH')/DOMAIN.TYPE(ID)`. A quote in a path is doubled, there are no percent escapes, and the
//! identifier is in its hyphenated form. One value has one canonical text, in which the identifier is in lower case.
ghost use Rattle.std.specs.Prelude.{◌≡◌, ◌↔◌, IfOk, Ok, IsTrue};
ghost use Rattle.etp_values.specs.Gives.{Gives};
ghost use Rattle.etp_values.specs.SameUri.{same_uri};
ghost use Rattle.etp_values.specs.Uri.{IsUri, plain_uri, uri_of};

use crate::copied::Copied;
use crate::id::Id16;
use crate::id_text::ID_TEXT_LEN;
use crate::memory::NoMemory;
use crate::text::Text;
use crate::uri::reading::{after, agreeing, read_body};
use crate::uri::writing::{put_object, put_space};
use std::alloc::Global;
use thiserror::Error;

mod laws;
mod reading;
mod space_path;
mod writing;

pub use laws::{id_texts, uri_equality, uri_texts};
pub use reading::is_type_filter;
pub use space_path::SpacePath;

/// The maximum length of a URI, in bytes.
pub const MAX_URI_LEN: usize = 2_048;

/// The maximum length of a dataspace's path in bytes, counted before quotes are doubled.
pub const MAX_PATH_LEN: usize = 256;

/// The length of a dataspace's canonical text without its path, in bytes.
const SPACE_PARTS: usize = 20;

/// How many bytes an object adds to the text, not counting its two names.
const OBJECT_PARTS: usize = ID_TEXT_LEN + 4;

/// What names an object in its dataspace: `DOMAIN.NAME(ID)`. A domain is lower-case letters followed by two digits; a name begins with a
/// letter and continues with letters, digits and underscores.
#[derive(Debug, Drop, PartialEq, Eq, PartialOrd, Ord, Hash)]
pub struct ObjectName {
    pub domain: Text,
    pub name: Text,
    pub id: Id16,
}

/// A dataspace by its path, or an object in it. The default dataspace has the empty path.
#[derive(Debug, Drop, PartialEq, Eq, PartialOrd, Ord, Hash)]
pub struct StoreUri {
    pub space: Text,
    pub object: Option<ObjectName>,
}

/// Why a text is not a URI, with the offset of the first byte of the offending part.
#[derive(Clone, Copy, Debug, PartialEq, Eq, Drop, Error)]
pub enum UriError {
    /// The text has more than 2,048 bytes.
    #[error("the URI has more than 2048 bytes")]
    TooLong,
    /// It does not begin with `eml:///`: the offset of the first byte that differs, or the end of a shorter text.
    #[error("the URI does not begin with eml:/// (byte {0})")]
    Prefix(usize),
    /// What begins with `dataspace(` is not a dataspace: quotes are missing or not doubled, or the path is empty or has more than 256
    /// bytes.
    #[error("no dataspace at byte {0} of the URI")]
    Space(usize),
    /// An object is expected here, but there is no domain, dot, type name and parenthesis.
    #[error("no object type at byte {0} of the URI")]
    TypeName(usize),
    /// The object's type is not followed by a hyphenated identifier and a closing parenthesis.
    #[error("no identifier at byte {0} of the URI")]
    Uuid(usize),
    /// There is more text after the end of a complete URI.
    #[error("the URI ends at byte {0}, and more follows")]
    Rest(usize),
    /// Out of memory.
    #[error("out of memory")]
    NoMemory,
}

impl StoreUri {
    /// Reads a URI, or returns the first reason, from the left, why the text is not one.
    pub fn read(alloc: Global, text: &str) -> Result<StoreUri, UriError>
        ensures said { Gives UriError.NoMemory result (uri_of text.now) }
        ensures form { IfOk result IsUri }
    {
        if text.len() > MAX_URI_LEN {
            return Err(UriError::TooLong);
        }
        match after(text, "eml:///") {
            Some(body) => read_body(alloc, text.len(), body),
            None => Err(UriError::Prefix(agreeing(b"eml:///", text.as_bytes()))),
        }
    }

    /// Room for the canonical text if no quote is doubled.
    fn text_room(&self) -> usize {
        let space = self.space.len().saturating_add(SPACE_PARTS);
        match &self.object {
            Some(name) => space
                .saturating_add(name.domain.len())
                .saturating_add(name.name.len())
                .saturating_add(OBJECT_PARTS),
            None => space,
        }
    }

    /// The canonical text.
    pub fn write(&self, alloc: Global) -> Result<Text, NoMemory>
        ensures { IfOk result (λ text. text ≡ plain_uri self.now) }
    {
        let mut out = String::new(alloc);
        out.reserve_exact(self.text_room())?;
        put_space(&mut out, self.space.as_str())?;
        if let Some(name) = &self.object {
            put_object(&mut out, self.space.as_str(), name)?;
        }
        Ok(Text::from_string(out))
    }

    /// Whether two URIs are equal. Two URIs are equal exactly if their canonical texts are.
    pub fn same(&self, other: &StoreUri) -> bool
        ensures test { result ≡ same_uri self.now other.now }
        ensures value { IsTrue result ↔ (self.now ≡ other.now) }
        ensures texts { IsUri self.now → IsUri other.now → (IsTrue result ↔ (plain_uri self.now ≡ plain_uri other.now)) }
    {
        *self == *other
    }
}

impl Copied for ObjectName {
    fn copy(&self, alloc: Global) -> Result<ObjectName, NoMemory> {
        Ok(ObjectName {
            domain: self.domain.copy(alloc)?,
            name: self.name.copy(alloc)?,
            id: self.id,
        })
    }
}

impl Copied for StoreUri {
    fn copy(&self, alloc: Global) -> Result<StoreUri, NoMemory> {
        Ok(StoreUri {
            space: self.space.copy(alloc)?,
            object: self.object.copy(alloc)?,
        })
    }
}
