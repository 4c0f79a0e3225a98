//! Printed texts, values and elements.
use etp_values::{AnyArray, Bits32, Bits64, Boxed, DataValue, List, Named, StoreUri, Text};
use std::fmt::Display;
use std::io;

/// The greatest length of a text that is printed whole.
const SHORT: usize = 64;

/// Prints a text, or how long it is.
pub(crate) fn print_text(rt: &HostRuntime, text: &str) -> io::Result<()> {
    if text.len() > SHORT {
        return print!(rt; "#{}", text.len());
    }
    print!(rt; "{text}")
}

/// Prints each byte after a dot, or how many there are.
pub(crate) fn print_bytes(rt: &HostRuntime, bytes: &[u8]) -> io::Result<()> {
    if bytes.len() > SHORT {
        return print!(rt; "#{}", bytes.len());
    }
    for byte in bytes {
        print!(rt; ".{byte}")?;
    }
    Ok(())
}

/// Prints a URI in its canonical form.
pub(crate) fn print_uri(rt: &HostRuntime, uri: &StoreUri) -> io::Result<()> {
    match uri.write(rt.alloc()) {
        Ok(text) => print!(rt; "{}", text.as_str()),
        Err(_) => print!(rt; "no memory"),
    }
}

/// Prints each of some texts after a mark.
pub(crate) fn print_texts(rt: &HostRuntime, mark: &str, texts: &[Text]) -> io::Result<()> {
    for text in texts {
        print!(rt; "{mark}")?;
        print_text(rt, text.as_str())?;
    }
    Ok(())
}

fn print_string(rt: &HostRuntime, text: &Boxed<Text>) -> io::Result<()> {
    print!(rt; "s")?;
    print_text(rt, text.get().as_str())
}

fn print_list(rt: &HostRuntime, items: &[i64]) -> io::Result<()> {
    print!(rt; "L{items:?}")
}

fn print_strings(rt: &HostRuntime, texts: &Boxed<List<Text>>) -> io::Result<()> {
    print!(rt; "S")?;
    print_texts(rt, "+", texts.get().as_slice())
}

fn print_blob(rt: &HostRuntime, bytes: &[u8]) -> io::Result<()> {
    print!(rt; "x")?;
    print_bytes(rt, bytes)
}

/// Prints a value; of lists there are those of longs and of texts.
pub(crate) fn print_value(rt: &HostRuntime, value: &DataValue) -> io::Result<()> {
    match value {
        DataValue::Null => print!(rt; "n"),
        DataValue::Boolean(value) => print!(rt; "b{}", u8::from(*value)),
        DataValue::Int(value) => print!(rt; "i{value}"),
        DataValue::Long(value) => print!(rt; "l{value}"),
        DataValue::Float(bits) => print!(rt; "f{}", bits.0),
        DataValue::Double(bits) => print!(rt; "d{}", bits.0),
        DataValue::String(text) => print_string(rt, text),
        DataValue::ArrayOfLong(items) => print_list(rt, items.get().as_slice()),
        DataValue::ArrayOfString(texts) => print_strings(rt, texts),
        DataValue::Bytes(bytes) => print_blob(rt, bytes.get().as_bytes()),
        _ => print!(rt; "another list"),
    }
}

fn print_pair(rt: &HostRuntime, name: &Text, value: &DataValue) -> io::Result<()> {
    print!(rt; " {}=", name.as_str())?;
    print_value(rt, value)
}

/// Prints custom data.
pub(crate) fn print_custom(rt: &HostRuntime, custom: &Named<DataValue>) -> io::Result<()> {
    print!(rt; "{{")?;
    for pair in custom.as_slice() {
        print_pair(rt, &pair.0, &pair.1)?;
    }
    print!(rt; " }}")
}

fn print_items<T: Display>(rt: &HostRuntime, items: &[T]) -> io::Result<()> {
    for item in items {
        print!(rt; " {item}")?;
    }
    Ok(())
}

fn print_floats(rt: &HostRuntime, items: &[Bits32]) -> io::Result<()> {
    for item in items {
        print!(rt; " {}", item.0)?;
    }
    Ok(())
}

fn print_doubles(rt: &HostRuntime, items: &[Bits64]) -> io::Result<()> {
    for item in items {
        print!(rt; " {}", item.0)?;
    }
    Ok(())
}

fn kind_of(values: &AnyArray) -> &'static str {
    match values {
        AnyArray::ArrayOfBoolean(_) => "boolean",
        AnyArray::ArrayOfInt(_) => "int",
        AnyArray::ArrayOfLong(_) => "long",
        AnyArray::ArrayOfFloat(_) => "float",
        AnyArray::ArrayOfDouble(_) => "double",
        AnyArray::ArrayOfString(_) => "string",
        AnyArray::Bytes(_) => "bytes",
    }
}

/// Prints the kind, and each element after a space.
pub(crate) fn print_elements(rt: &HostRuntime, values: &AnyArray) -> io::Result<()> {
    print!(rt; "{}", kind_of(values))?;
    match values {
        AnyArray::ArrayOfBoolean(items) => print_items(rt, items.as_slice()),
        AnyArray::ArrayOfInt(items) => print_items(rt, items.as_slice()),
        AnyArray::ArrayOfLong(items) => print_items(rt, items.as_slice()),
        AnyArray::ArrayOfFloat(items) => print_floats(rt, items.as_slice()),
        AnyArray::ArrayOfDouble(items) => print_doubles(rt, items.as_slice()),
        AnyArray::ArrayOfString(items) => print_texts(rt, " ", items.as_slice()),
        AnyArray::Bytes(bytes) => print_items(rt, bytes.as_bytes()),
    }
}
