//! Addresses of servers.
ghost use Rattle.std.specs.Prelude.{◌≡◌, IfOk};
ghost use Rattle.client_words.specs.Address.{address_in, is_address};

use etp_values::NoMemory;
use std::alloc::Global;
use url::{ParseError, Url};

/// The maximum length of an address, in bytes.
const MAX_ADDRESS_LEN: usize = 2_048;

/// Whether a URL is a server's: of the scheme `ws`, with a host, and without user, password, query and fragment.
fn is_address(url: &Url) -> bool
    ensures { result ≡ is_address url.now }
{
    url.scheme() == "ws"
        && url.username() == ""
        && url.password().is_none()
        && url.query().is_none()
        && url.fragment().is_none()
        && url.has_host()
}

/// The address that a text is, if it is one: a `ws` URL of at most 2,048 bytes, read as the URL Standard reads it.
pub fn read_address(alloc: Global, text: &str) -> Result<Option<Url>, NoMemory>
    ensures { IfOk result (λ address. address ≡ address_in text.now) }
{
    if text.len() > MAX_ADDRESS_LEN {
        return Ok(None);
    }
    match Url::parse(alloc, text) {
        Ok(url) => {
            if is_address(&url) {
                Ok(Some(url))
            } else {
                Ok(None)
            }
        }
        Err(ParseError::OutOfMemory) => Err(NoMemory),
        Err(ParseError::Overflow) => Err(NoMemory),
        Err(_) => Ok(None),
    }
}
