//! The values at the keys of a TOML table, if they are well formed.
ghost use Rattle.std.specs.Prelude.{◌≡◌, IfOk, option_map, map};
ghost use Rattle.toml.specs.View.{table_view, view, items_view};
ghost use Rattle.toml.specs.Data.{get_member};
ghost use Rattle.chan_defs.specs.Keys.{text_at, instance_of, name_of, is_name as is_name_text, within as number_within, number_at, filters_of, types_of, tables_in, tables_of, kind_of, is_unit as is_unit_text, unit_of};

use etp_values::{Id16, List, NoMemory, Shared, Text, is_type_filter};
use server_config::ValueKind;
use std::alloc::Global;
use toml::{Table, Value};
use uuid::Uuid;

/// The maximum length of a name, in bytes.
const MAX_NAME_LEN: usize = 256;

/// The maximum length of a unit of measure, in bytes.
const MAX_UNIT_LEN: usize = 64;

/// The value at a key.
fn value<'a>(table: &'a Table, key: &str) -> Option<&'a Value>
    ensures { option_map (λ v. view v.now) result ≡ get_member key.now (table_view table.now) }
{
    table.get(key)
}

/// The text at a key.
pub fn text<'a>(table: &'a Table, key: &str) -> Option<&'a str>
    ensures { option_map (λ s. s.now) result ≡ text_at key.now (table_view table.now) }
{
    match value(table, key) {
        Some(found) => found.as_str(),
        None => None,
    }
}

/// The server's identifier.
pub fn instance(table: &Table) -> Option<Id16>
    ensures { result ≡ instance_of (table_view table.now) }
{
    let Some(found) = text(table, "instance") else {
        return None;
    };
    match Uuid::parse_str(found) {
        Ok(id) => Some(Id16::from_bytes(id.into_bytes())),
        Err(_) => None,
    }
}

fn is_name(text: &str) -> bool
    ensures { result ≡ is_name_text text.now }
{
    1 <= text.len() && text.len() <= MAX_NAME_LEN
}

/// The name of a server or of a channel.
pub fn name(table: &Table) -> Option<&str>
    ensures { option_map (λ s. s.now) result ≡ name_of (table_view table.now) }
{
    let found = text(table, "name")?;
    if is_name(found) { Some(found) } else { None }
}

fn within(low: u64, high: u64, number: i64) -> Option<u64>
    ensures { result ≡ number_within low high number }
{
    if number < 0 {
        return None;
    }
    let number = number as u64;
    if low <= number && number <= high {
        Some(number)
    } else {
        None
    }
}

/// A number from `low` to `high`; `high` is the default.
pub fn number(table: &Table, key: &str, low: u64, high: u64) -> Option<u64>
    ensures { result ≡ number_at key.now low high (table_view table.now) }
{
    match value(table, key) {
        Some(found) => within(low, high, found.as_integer()?),
        None => Some(high),
    }
}

fn filters(alloc: Global, array: &Vec<Value>) -> Result<Option<List<Text>>, NoMemory>
    ensures { IfOk result (λ r. r ≡ filters_of (items_view array.now.items)) }
{
    let mut found = Vec::new(alloc);
    for item in array {
        match item.as_str() {
            Some(text) => {
                if !is_type_filter(text) {
                    return Ok(None);
                }
                let text = Text::copy(alloc, text)?;
                found.push(text)?;
            }
            None => return Ok(None),
        }
    }
    Ok(Some(List::from_vec(found)))
}

/// The accepted types of objects: `None` if there is no list, and then all are accepted.
pub fn types(alloc: Global, table: &Table) -> Result<Option<Option<Shared<List<Text>>>>, NoMemory>
    ensures { IfOk result (λ r. r ≡ types_of (table_view table.now)) }
{
    let Some(found) = value(table, "types") else {
        return Ok(Some(None));
    };
    let Some(array) = found.as_array() else {
        return Ok(None);
    };
    match filters(alloc, array) {
        Ok(Some(list)) => Ok(Some(Some(Shared::new(alloc, list)?))),
        Ok(None) => Ok(None),
        Err(NoMemory) => Err(NoMemory),
    }
}

fn tables_of_array(alloc: Global, array: &Vec<Value>) -> Result<Option<Vec<&Table>>, NoMemory>
    ensures { IfOk result (λ r. option_map (λ v. map (λ t. table_view t.now) v.items) r
        ≡ tables_in (items_view array.now.items)) }
{
    let mut found = Vec::new(alloc);
    for item in array {
        match item.as_table() {
            Some(table) => found.push(table)?,
            None => return Ok(None),
        }
    }
    Ok(Some(found))
}

/// The tables of the channels: none if there is no list.
pub fn tables(alloc: Global, table: &Table) -> Result<Option<Vec<&Table>>, NoMemory>
    ensures { IfOk result (λ r. option_map (λ v. map (λ t. table_view t.now) v.items) r
        ≡ tables_of (table_view table.now)) }
{
    let Some(found) = value(table, "channel") else {
        return Ok(Some(Vec::new(alloc)));
    };
    let Some(array) = found.as_array() else {
        return Ok(None);
    };
    tables_of_array(alloc, array)
}

/// The kind with this name.
pub fn kind(name: &str) -> Option<ValueKind>
    ensures { result ≡ kind_of name.now }
{
    if name == "boolean" {
        Some(ValueKind::Boolean)
    } else if name == "int" {
        Some(ValueKind::Int)
    } else if name == "long" {
        Some(ValueKind::Long)
    } else if name == "float" {
        Some(ValueKind::Float)
    } else if name == "double" {
        Some(ValueKind::Double)
    } else if name == "string" {
        Some(ValueKind::String)
    } else if name == "bytes" {
        Some(ValueKind::Bytes)
    } else {
        None
    }
}

fn is_unit(text: &str) -> bool
    ensures { result ≡ is_unit_text text.now }
{
    text.len() <= MAX_UNIT_LEN
}

/// The unit of measure of a channel, by default the empty text.
pub fn unit(table: &Table) -> Option<&str>
    ensures { option_map (λ s. s.now) result ≡ unit_of (table_view table.now) }
{
    let Some(found) = value(table, "uom") else {
        return Some("");
    };
    let text = found.as_str()?;
    if is_unit(text) { Some(text) } else { None }
}
