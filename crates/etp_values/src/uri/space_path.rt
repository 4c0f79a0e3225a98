//! Paths of dataspaces, together with the URI that names the dataspace on the wire.
ghost use Rattle.std.specs.Prelude.{◌≡◌, IfOk};
ghost use Rattle.std.specs.Bool.{nat_eq};
ghost use Rattle.std.specs.Cmp.{partial_equiv_from_equiv};
ghost use Rattle.std.specs.Cmp.Lexicographic.{pointwise, nat_list_eq_equiv};
ghost use Rattle.etp_values.specs.Uri.{space_text};

use crate::copied::Copied;
use crate::memory::NoMemory;
use crate::shared::Shared;
use crate::text::Text;
use crate::uri::SPACE_PARTS;
use crate::uri::writing::put_space;
use std::alloc::Global;
use std::fmt;
use std::fmt::{Debug, Formatter, Write};
use std::marker::Model;

/// A dataspace's path, and with it the canonical text of the dataspace's URI. A contract sees the path. Copying does not allocate: copies
/// share both texts.
pub struct SpacePath {
    path: Shared<Text>,
    uri: Shared<Text>,
}

/// Written out, so that whatever holds one drops it by a single call.
impl Drop for SpacePath {
    fn drop(self) {
        let SpacePath { path, uri } = self;
        drop(path);
        drop(uri);
    }
}

impl Model for SpacePath {
    ghost use Rattle.std.specs.Prelude.{List, ℕ, ◌≡◌};
    ghost use Rattle.etp_values.specs.Uri.{space_text};

    ghost Value = { List ℕ };

    ghost view = { λ s. s.path };

    ghost invariant = { λ s. s.uri ≡ space_text s.path };
}

/// The canonical text of a dataspace's URI.
fn space_uri(alloc: Global, path: &str) -> Result<Text, NoMemory>
    ensures { IfOk result (λ text. text ≡ space_text path.now) }
{
    let mut out = String::new(alloc);
    out.reserve_exact(path.len().saturating_add(SPACE_PARTS))?;
    put_space(&mut out, path)?;
    Ok(Text::from_string(out))
}

impl SpacePath {
    /// This path.
    pub fn new(alloc: Global, path: Text) -> Result<SpacePath, NoMemory>
        ensures { IfOk result (λ s. s ≡ path) }
    {
        let uri = space_uri(alloc, path.as_str())?;
        Ok(SpacePath {
            path: Shared::new(alloc, path)?,
            uri: Shared::new(alloc, uri)?,
        })
    }

    /// Borrows the path.
    pub fn as_text(&self) -> &Text
        ensures { result.now ≡ self.now }
    {
        self.path.get()
    }

    /// The path, and the canonical text of the dataspace's URI.
    pub fn into_texts(self) -> (Shared<Text>, Shared<Text>)
        ensures path { result.0 ≡ self }
        ensures uri { result.1 ≡ space_text self }
    {
        let SpacePath { path, uri } = self;
        (path, uri)
    }
}

impl Copied for SpacePath {
    fn copy(&self, _alloc: Global) -> Result<SpacePath, NoMemory> {
        Ok(SpacePath {
            path: self.path.share()?,
            uri: self.uri.share()?,
        })
    }
}

impl PartialEq for SpacePath {
    ghost eq = { pointwise nat_eq };

    ghost laws = { partial_equiv_from_equiv nat_list_eq_equiv };

    fn eq(&self, other: &SpacePath) -> bool {
        *self.as_text() == *other.as_text()
    }
}

impl Eq for SpacePath {
    ghost laws = { nat_list_eq_equiv };
}

/// A path prints as its text.
impl Debug for SpacePath {
    fn fmt<W: Write>(&self, f: &mut Formatter<W>) -> fmt::Result {
        Debug::fmt(self.path.get(), f)
    }
}
