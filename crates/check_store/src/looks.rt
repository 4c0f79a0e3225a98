//! What is seen at keys, as text.
use crate::showing::{
    print_bytes, print_custom, print_elements, print_text, print_texts, print_uri,
};
use array_store::ArrayRecord;
use etp_values::{DataValue, List, Named};
use object_store::{ObjectRecord, SpaceRecord};
use std::io;
use store_machine::Looked;

fn print_space(rt: &HostRuntime, space: &SpaceRecord) -> io::Result<()> {
    let (written, created) = (space.written, space.created);
    print!(rt;
        "space {} written {written} created {created} ",
        space.path.as_text().as_str()
    )?;
    print_custom(rt, &space.custom)
}

/// Prints a line for each dataspace.
pub(crate) fn print_spaces(rt: &HostRuntime, spaces: &[SpaceRecord]) -> io::Result<()> {
    println!(rt; "spaces {}", spaces.len())?;
    for space in spaces {
        print!(rt; " ")?;
        print_space(rt, space)?;
        println!(rt; "")?;
    }
    Ok(())
}

/// Prints what the client says about an object.
fn print_said(rt: &HostRuntime, object: &ObjectRecord) -> io::Result<()> {
    print!(rt; "object ")?;
    print_uri(rt, &object.uri)?;
    print!(rt; " others")?;
    print_texts(rt, " ", object.others.as_slice())?;
    print!(rt; " name ")?;
    print_text(rt, object.name.as_str())?;
    print!(rt;
        " changed {} active {} custom ",
        object.changed, object.active
    )?;
    print_custom(rt, &object.custom)
}

fn print_object(rt: &HostRuntime, object: &ObjectRecord) -> io::Result<()> {
    print_said(rt, object)?;
    print!(rt; " format ")?;
    print_text(rt, object.format.as_str())?;
    print!(rt; " data ")?;
    print_bytes(rt, object.payload.as_bytes())?;
    print!(rt; " written {} created {}", object.written, object.created)
}

fn print_array(rt: &HostRuntime, array: &ArrayRecord) -> io::Result<()> {
    let (dims, preferred) = (array.dims.as_slice(), array.preferred.as_slice());
    print!(rt;
        "array {dims:?} preferred {preferred:?} logical {} custom ",
        array.logical
    )?;
    print_custom(rt, &array.custom)?;
    print!(rt; " written {} created {} ", array.written, array.created)?;
    print_elements(rt, &array.values)
}

/// Prints what an array is, before its custom data.
fn print_frame(
    rt: &HostRuntime,
    dims: &List<i64>,
    preferred: &List<i64>,
    branch: u32,
    logical: u32,
) -> io::Result<()> {
    let (dims, preferred) = (dims.as_slice(), preferred.as_slice());
    print!(rt; "shape {dims:?} preferred {preferred:?} branch {branch} logical {logical} custom ")
}

fn print_times(
    rt: &HostRuntime,
    custom: &Named<DataValue>,
    written: i64,
    created: i64,
) -> io::Result<()> {
    print_custom(rt, custom)?;
    print!(rt; " written {written} created {created}")
}

fn print_seen(rt: &HostRuntime, looked: &Looked) -> io::Result<()> {
    match looked {
        Looked::Missing => print!(rt; "missing"),
        Looked::Space(space) => print_space(rt, space),
        Looked::Known { created } => print!(rt; "known created {created}"),
        Looked::Object(object) => print_object(rt, object),
        Looked::Array(array) => print_array(rt, array),
        Looked::Slice(values) => {
            print!(rt; "slice ")?;
            print_elements(rt, values)
        }
        Looked::Shape {
            dims,
            preferred,
            branch,
            logical,
            custom,
            written,
            created,
        } => {
            print_frame(rt, dims, preferred, *branch, *logical)?;
            print_times(rt, custom, *written, *created)
        }
        Looked::Refused(code) => print!(rt; "refused {}", code.number()),
    }
}

/// Prints a line for each key that was looked at.
pub(crate) fn print_looked(rt: &HostRuntime, seen: &[Looked]) -> io::Result<()> {
    println!(rt; "looked {}", seen.len())?;
    for looked in seen {
        print!(rt; " ")?;
        print_seen(rt, looked)?;
        println!(rt; "")?;
    }
    Ok(())
}
