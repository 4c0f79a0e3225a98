//! Operations on objects and arrays, by their words.
use crate::elements::elements;
use crate::keys::{key_of, uri_of};
use crate::values::custom_of;
use crate::words::{blob_of, count, number, numbers, text_of, texts};
use array_store::ArrayRecord;
use etp_values::{NoMemory, StoreUri};
use object_store::ObjectRecord;
use std::alloc::Global;
use tx_stage::{Op, OpWhat};

/// An object with these words: other URIs, name, moment of change, activity, custom data, format and data.
fn object(alloc: Global, uri: StoreUri, words: &[&str; 7]) -> Result<ObjectRecord, NoMemory> {
    let [others, name, changed, active, custom, format, data] = words;
    Ok(ObjectRecord {
        uri,
        others: texts(alloc, others, ',')?,
        name: text_of(alloc, name)?,
        changed: number(changed),
        active: count(active),
        custom: custom_of(alloc, custom)?,
        format: text_of(alloc, format)?,
        payload: blob_of(alloc, data)?,
        written: 0,
        created: 0,
    })
}

/// An array with these words: dimensions, preferred dimensions, kind, elements, logical type and custom data.
fn array(alloc: Global, words: &[&str; 6]) -> Result<ArrayRecord, NoMemory> {
    let [dims, preferred, kind, items, logical, custom] = words;
    Ok(ArrayRecord {
        dims: numbers(alloc, dims)?,
        preferred: numbers(alloc, preferred)?,
        values: elements(alloc, kind, items)?,
        logical: count(logical),
        custom: custom_of(alloc, custom)?,
        written: 0,
        created: 0,
    })
}

fn patch(
    alloc: Global,
    starts: &str,
    counts: &str,
    kind: &str,
    items: &str,
) -> Result<OpWhat, NoMemory> {
    Ok(OpWhat::Patch {
        starts: numbers(alloc, starts)?,
        counts: numbers(alloc, counts)?,
        values: elements(alloc, kind, items)?,
    })
}

/// What is done, by its words; a removal if they are nothing else.
fn what_of(alloc: Global, words: &[&str]) -> Result<OpWhat, NoMemory> {
    match words {
        [
            "object",
            space,
            kind,
            id,
            others,
            name,
            changed,
            active,
            custom,
            format,
            data,
        ] => {
            let uri = uri_of(alloc, space, kind, id)?;
            let words = [*others, *name, *changed, *active, *custom, *format, *data];
            Ok(OpWhat::SetObject(object(alloc, uri, &words)?))
        }
        ["array", dims, preferred, kind, items, logical, custom] => {
            let words = [*dims, *preferred, *kind, *items, *logical, *custom];
            Ok(OpWhat::SetArray(array(alloc, &words)?))
        }
        ["patch", starts, counts, kind, items] => patch(alloc, starts, counts, kind, items),
        _ => Ok(OpWhat::Gone),
    }
}

/// An operation by its moment, its key, and the words of what it does.
pub(crate) fn op_of(alloc: Global, at: &str, key: &str, words: &[&str]) -> Result<Op, NoMemory> {
    Ok(Op {
        key: key_of(alloc, key)?,
        what: what_of(alloc, words)?,
        at: number(at),
    })
}
