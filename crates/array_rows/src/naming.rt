//! The arrays that the keys of a request name.
ghost use Rattle.std.specs.Prelude.{◌≡◌, IfOk};
ghost use Rattle.array_rows.specs.Naming.{array_at, is_path, named_array, named_region};

use array_store::ArrayKey;
use etp_values::{ErrorCode, List, NoMemory, StoreUri, Text};
use keyed_requests::{Decision, object_uri};
use msg_store::{DataArrayIdentifier, GetDataSubarraysType};
use request_scope::may_use;
use std::alloc::Global;
use tx_stage::Stage;

/// The maximum length of an array's path, in bytes.
pub const MAX_ARRAY_PATH_LEN: usize = 1_024;

/// A region of an array: the index of its first element and how many elements it has, in each dimension.
#[derive(Drop)]
pub struct Region {
    pub key: ArrayKey,
    pub starts: List<i64>,
    pub counts: List<i64>,
}

fn is_path(path: &Text) -> bool
    ensures { result ≡ is_path path.now }
{
    1 <= path.len() && path.len() <= MAX_ARRAY_PATH_LEN
}

fn array_at(stage: &Option<Stage>, path: Text, named: Decision<StoreUri>) -> Decision<ArrayKey>
    ensures { result ≡ array_at stage.now path named }
{
    match named {
        Decision::Granted(uri) => {
            if !is_path(&path) {
                return Decision::Refused(ErrorCode::InvalidArgument);
            }
            if !may_use(stage, &uri.space) {
                return Decision::Refused(ErrorCode::RequestDenied);
            }
            Decision::Granted(ArrayKey { uri, path })
        }
        Decision::Refused(code) => Decision::Refused(code),
    }
}

/// The named array: its URI, its path and its dataspace are tested in this order.
pub(crate) fn named_array(
    alloc: Global,
    stage: &Option<Stage>,
    id: DataArrayIdentifier,
) -> Result<Decision<ArrayKey>, NoMemory>
    ensures { IfOk result (λ d. d ≡ named_array stage.now id) }
{
    let DataArrayIdentifier {
        uri,
        path_in_resource,
    } = id;
    let named = object_uri(alloc, uri.as_str())?;
    Ok(array_at(stage, path_in_resource, named))
}

/// A region of a named array.
pub(crate) fn named_region(
    alloc: Global,
    stage: &Option<Stage>,
    asked: GetDataSubarraysType,
) -> Result<Decision<Region>, NoMemory>
    ensures { IfOk result (λ d. d ≡ named_region stage.now asked) }
{
    let GetDataSubarraysType {
        uid,
        starts,
        counts,
    } = asked;
    match named_array(alloc, stage, uid)? {
        Decision::Granted(key) => Ok(Decision::Granted(Region {
            key,
            starts,
            counts,
        })),
        Decision::Refused(code) => Ok(Decision::Refused(code)),
    }
}
