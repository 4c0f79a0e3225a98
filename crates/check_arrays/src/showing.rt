//! Printed elements and records.
use array_store::{ArrayError, ArrayRecord, array_bytes, element_count};
use etp_values::{AnyArray, Bits32, Bits64, Text};
use std::fmt::Display;
use std::io;

fn print_items<T: Display>(rt: &HostRuntime, items: &[T]) -> io::Result<()> {
    for item in items {
        print!(rt; " {item}")?;
    }
    Ok(())
}

fn print_floats(rt: &HostRuntime, items: &[Bits32]) -> io::Result<()> {
    for item in items {
        print!(rt; " {}", item.0)?;
    }
    Ok(())
}

fn print_doubles(rt: &HostRuntime, items: &[Bits64]) -> io::Result<()> {
    for item in items {
        print!(rt; " {}", item.0)?;
    }
    Ok(())
}

fn print_texts(rt: &HostRuntime, items: &[Text]) -> io::Result<()> {
    for item in items {
        print!(rt; " {:?}", item.as_str())?;
    }
    Ok(())
}

fn kind_of(values: &AnyArray) -> &'static str {
    match values {
        AnyArray::ArrayOfBoolean(_) => "boolean",
        AnyArray::ArrayOfInt(_) => "int",
        AnyArray::ArrayOfLong(_) => "long",
        AnyArray::ArrayOfFloat(_) => "float",
        AnyArray::ArrayOfDouble(_) => "double",
        AnyArray::ArrayOfString(_) => "string",
        AnyArray::Bytes(_) => "bytes",
    }
}

/// Prints the kind, and each element after a space.
fn print_elements(rt: &HostRuntime, values: &AnyArray) -> io::Result<()> {
    print!(rt; "{}", kind_of(values))?;
    match values {
        AnyArray::ArrayOfBoolean(items) => print_items(rt, items.as_slice())?,
        AnyArray::ArrayOfInt(items) => print_items(rt, items.as_slice())?,
        AnyArray::ArrayOfLong(items) => print_items(rt, items.as_slice())?,
        AnyArray::ArrayOfFloat(items) => print_floats(rt, items.as_slice())?,
        AnyArray::ArrayOfDouble(items) => print_doubles(rt, items.as_slice())?,
        AnyArray::ArrayOfString(items) => print_texts(rt, items.as_slice())?,
        AnyArray::Bytes(bytes) => print_items(rt, bytes.as_bytes())?,
    }
    println!(rt; "")
}

/// Prints the moments, how many elements there are and what they count, and the elements.
pub(crate) fn print_record(rt: &HostRuntime, array: &ArrayRecord) -> io::Result<()> {
    print!(rt; "created {} written {} ", array.created, array.written)?;
    let (count, bytes) = (element_count(&array.values), array_bytes(&array.values));
    print!(rt; "elements {count} bytes {bytes} ")?;
    print_elements(rt, &array.values)
}

/// Prints elements, or why there are none.
pub(crate) fn print_answer(
    rt: &HostRuntime,
    answer: Result<AnyArray, ArrayError>,
) -> io::Result<()> {
    match answer {
        Ok(values) => print_elements(rt, &values),
        Err(error) => println!(rt; "{error}"),
    }
}
