//! What a list of operations leaves at a key.
ghost use Rattle.std.specs.Prelude.{◌≡◌, IfOk, if◌then◌else◌};
ghost use Rattle.tx_stage.specs.Ops.{op_alters, op_left};
ghost use Rattle.tx_stage.specs.Overlay as over;

use crate::key::Key;
use crate::op::{Op, OpWhat};
use crate::value::{Value, left};
use etp_values::NoMemory;
use std::alloc::Global;

/// What an operation leaves of the value at a key.
fn overlay_one(
    alloc: Global,
    op: &Op,
    key: &Key,
    value: Option<Value>,
) -> Result<Option<Value>, NoMemory>
    ensures { IfOk result (λ v. v ≡ (if op_alters op.now key.now then op_left op.now value else value)) }
{
    if op.alters(key) {
        return left(alloc, op, value);
    }
    Ok(value)
}

/// What operations leave at a key, one after the other.
pub fn overlay(
    alloc: Global,
    ops: &[Op],
    key: &Key,
    base: Option<Value>,
) -> Result<Option<Value>, NoMemory>
    ensures { IfOk result (λ v. v ≡ over.overlay ops.now key.now base) }
{
    let mut value = base;
    for op in ops {
        let next = overlay_one(alloc, op, key, value)?;
        value = next;
    }
    Ok(value)
}

/// Whether something exists where an operation was applied, by whether something did before.
fn leaves(what: &OpWhat, before: bool) -> bool
    ensures { result ≡ over.leaves what.now before }
{
    match what {
        OpWhat::SetObject(_) => true,
        OpWhat::SetArray(_) => true,
        OpWhat::Patch { .. } => before,
        OpWhat::Gone => false,
    }
}

/// Whether something exists at a key after an operation, by whether something did before it.
fn there_one(op: &Op, key: &Key, before: bool) -> bool
    ensures { result ≡ (if op_alters op.now key.now then over.leaves op.now.what before else before) }
{
    if op.alters(key) {
        return leaves(&op.what, before);
    }
    before
}

/// Whether something exists at a key after operations, by whether something did before them.
pub fn there(ops: &[Op], key: &Key, base: bool) -> bool
    ensures { result ≡ over.there ops.now key.now base }
{
    let mut stands = base;
    for op in ops {
        stands = there_one(op, key, stands);
    }
    stands
}
