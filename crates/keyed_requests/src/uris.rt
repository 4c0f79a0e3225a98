//! The objects that requests name.
ghost use Rattle.std.specs.Prelude.{◌≡◌, IfOk};
ghost use Rattle.keyed_requests.specs.Uris.{object_in, object_uri};

use crate::keys::Decision;
use etp_values::{ErrorCode, NoMemory, StoreUri, UriError};
use std::alloc::Global;

/// The URI of an object in a text. A text that is not a URI, or is that of a dataspace, is refused by `InvalidUri`.
pub fn object_uri(alloc: Global, text: &str) -> Result<Decision<StoreUri>, NoMemory>
    ensures { IfOk result (λ d. d ≡ object_uri text.now) }
{
    match StoreUri::read(alloc, text) {
        Ok(uri) => Ok(object_in(uri)),
        Err(UriError::NoMemory) => Err(NoMemory),
        Err(_) => Ok(Decision::Refused(ErrorCode::InvalidUri)),
    }
}

fn object_in(uri: StoreUri) -> Decision<StoreUri>
    ensures { result ≡ object_in uri uri.object }
{
    if uri.object.is_some() {
        return Decision::Granted(uri);
    }
    Decision::Refused(ErrorCode::InvalidUri)
}
