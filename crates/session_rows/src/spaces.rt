//! The dataspaces that requests name.
ghost use Rattle.std.specs.Prelude.{◌≡◌, IfOk};
ghost use Rattle.session_rows.specs.Spaces.{path_in_uri, space_path};

use etp_values::{ErrorCode, NoMemory, StoreUri, Text, UriError};
use keyed_requests::Decision;
use std::alloc::Global;

fn path_in_uri(uri: StoreUri) -> Decision<Text>
    ensures { result ≡ path_in_uri uri.space uri.object }
{
    if uri.object.is_some() {
        return Decision::Refused(ErrorCode::InvalidUri);
    }
    Decision::Granted(uri.space)
}

/// The path of the dataspace that a text names.
pub(crate) fn space_path(alloc: Global, text: &str) -> Result<Decision<Text>, NoMemory>
    ensures { IfOk result (λ path. path ≡ space_path text.now) }
{
    match StoreUri::read(alloc, text) {
        Ok(uri) => Ok(path_in_uri(uri)),
        Err(UriError::NoMemory) => Err(NoMemory),
        Err(_) => Ok(Decision::Refused(ErrorCode::InvalidUri)),
    }
}
