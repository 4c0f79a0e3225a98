//! The dataspaces of a transaction.
ghost use Rattle.std.specs.Prelude.{◌≡◌, ◌≢◌};
ghost use Rattle.std.specs.List.{list_any};
ghost use Rattle.std.specs.Str.{bytes_eq};
ghost use Rattle.tx_stage.specs.Staging as staging;

use crate::error::StageError;
use etp_values::{Copied, Text};
use std::alloc::Global;

/// Whether a dataspace is among those of a transaction.
pub(crate) fn has_space(spaces: &[Text], path: &Text) -> bool
    ensures { result ≡ staging.has_space spaces.now path.now }
{
    if spaces.is_empty() {
        return path.is_empty();
    }
    is_among(spaces, path)
}

fn is_among(spaces: &[Text], path: &Text) -> bool
    ensures { result ≡ list_any (bytes_eq path.now) spaces.now }
{
    for space in spaces {
        if *path == *space {
            return true;
        }
    }
    false
}

/// That a dataspace is not among them.
pub(crate) fn no_space(alloc: Global, path: &Text) -> StageError
    ensures { result ≢ StageError.NoMemory → result ≡ StageError.Space path.now }
{
    match path.copy(alloc) {
        Ok(path) => StageError::Space(path),
        Err(_) => StageError::NoMemory,
    }
}
