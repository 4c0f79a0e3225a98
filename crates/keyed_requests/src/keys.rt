//! The keys of a request.
ghost use Rattle.std.specs.Prelude.{◌≡◌};
ghost use Rattle.std.specs.List.{list_any};
ghost use Rattle.keyed_requests.specs.Keys.{is_long, keys_refusal};

use etp_values::{ErrorCode, Named, Text};

/// The greatest number of keys of a request.
pub const MAX_KEYS: usize = 1_024;

/// The maximum length of a key, in bytes.
pub const MAX_KEY_LEN: usize = 1_024;

/// What was decided about one key of a request.
#[derive(Debug, Drop)]
pub enum Decision<T> {
    Granted(T),
    Refused(ErrorCode),
}

/// Why a request is refused as a whole for its keys: their number, and then the length of one.
pub fn keys_refusal<T>(items: &Named<T>) -> Option<ErrorCode>
    ensures { result ≡ keys_refusal items.now }
{
    if items.len() > MAX_KEYS {
        return Some(ErrorCode::LimitExceeded);
    }
    if has_long_key(items.as_slice()) {
        return Some(ErrorCode::InvalidArgument);
    }
    None
}

fn has_long_key<T>(items: &[(Text, T)]) -> bool
    ensures { result ≡ list_any is_long items.now }
{
    for pair in items {
        if pair.0.len() > MAX_KEY_LEN {
            return true;
        }
    }
    false
}
