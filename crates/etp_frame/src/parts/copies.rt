//! Copies of what each part of a message repeats.
ghost use Rattle.std.specs.Prelude.{◌≡◌, IfOk};

use etp_values::{NoMemory, Text};
use msg_channel::{IndexInterval, IndexValue, PassIndexedDepth};
use msg_core::ErrorInfo;
use std::alloc::Global;

/// An equal error, if there is one.
pub(crate) fn copied_error(
    alloc: Global,
    error: &Option<ErrorInfo>,
) -> Result<Option<ErrorInfo>, NoMemory>
    ensures { IfOk result (λ e. e ≡ error.now) }
{
    match error {
        Some(info) => {
            let message = Text::copy(alloc, info.message.as_str())?;
            Ok(Some(ErrorInfo {
                message,
                code: info.code,
            }))
        }
        None => Ok(None),
    }
}

/// An equal index value.
fn copied_index(value: &IndexValue) -> IndexValue
    ensures { result ≡ value.now }
{
    match value {
        IndexValue::Null => IndexValue::Null,
        IndexValue::Long(x) => IndexValue::Long(*x),
        IndexValue::Double(x) => IndexValue::Double(*x),
        IndexValue::PassIndexedDepth(x) => IndexValue::PassIndexedDepth(PassIndexedDepth {
            pass: x.pass,
            direction: x.direction,
            depth: x.depth,
        }),
    }
}

/// An equal interval.
pub(crate) fn copied_interval(
    alloc: Global,
    interval: &IndexInterval,
) -> Result<IndexInterval, NoMemory>
    ensures { IfOk result (λ i. i ≡ interval.now) }
{
    let uom = Text::copy(alloc, interval.uom.as_str())?;
    let depth_datum = Text::copy(alloc, interval.depth_datum.as_str())?;
    Ok(IndexInterval {
        start_index: copied_index(&interval.start_index),
        end_index: copied_index(&interval.end_index),
        uom,
        depth_datum,
    })
}
