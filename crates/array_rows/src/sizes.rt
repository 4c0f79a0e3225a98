//! How much of a message an item of a reply takes.
ghost use Rattle.std.specs.Prelude.{◌≡◌};
ghost use Rattle.array_rows.specs.Sizes.{fits, fitting, is_custom_large};

use etp_schema::{Measure, OnWire, measure_of};
use etp_values::{DataValue, ErrorCode, Named, Text};
use keyed_requests::Decision;

/// The maximum size of an array's custom data on the wire, in bytes.
pub const MAX_CUSTOM_SIZE: u64 = 16_384;

/// The bytes of a message that are reserved for everything but its items.
const FRAME_ROOM: u64 = 4_096;

/// The greatest number of nodes that the items of one message have.
const MAX_ITEM_NODES: u64 = 8_388_544;

/// Whether an item under its key fits into a message of at most `limit` bytes.
fn fits<T: OnWire>(limit: u64, key: &Text, item: &T) -> bool
    ensures { result ≡ fits T.form limit key.now item.now }
{
    let size = measure_of(item);
    let name = Measure::of_name(key.as_bytes());
    name.bytes.saturating_add(size.bytes) <= limit.saturating_sub(FRAME_ROOM)
        && size.nodes <= MAX_ITEM_NODES
}

/// An item, if it fits.
#[tactic(auto, unfolding(crate::specs::Sizes::fitting))]
pub(crate) fn fitting<T: OnWire + Drop>(limit: u64, key: &Text, item: T) -> Decision<T>
    ensures { result ≡ fitting T.form limit key.now item }
{
    if fits(limit, key, &item) {
        return Decision::Granted(item);
    }
    Decision::Refused(ErrorCode::SizeExceeded)
}

/// Whether custom data are larger than an array's may be.
pub(crate) fn is_custom_large(custom: &Named<DataValue>) -> bool
    ensures { result ≡ is_custom_large custom.now }
{
    measure_of(custom).bytes > MAX_CUSTOM_SIZE
}
