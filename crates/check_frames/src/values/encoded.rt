//! Custom data, which has values of every kind.
use etp_schema::{encoded_size, measure_of, read_body, write_body};
use etp_values::{Copied, DataValue, Named, NoMemory, custom_weight};
use message_trees::read_back;
use std::alloc::Global;

/// The values that these digits denote, read directly from the bytes.
pub(crate) fn values(alloc: Global, digits: &str) -> Result<String, NoMemory> {
    let Ok(bytes) = hex::decode(alloc, digits) else {
        return Ok(String::new(alloc));
    };
    match read_body::<Named<DataValue>>(alloc, bytes.as_slice()) {
        Ok((values, length)) => show(alloc, &values, length),
        Err(refusal) => Ok(refusal.to_string(alloc)?),
    }
}

fn show(alloc: Global, values: &Named<DataValue>, length: usize) -> Result<String, NoMemory> {
    let size = encoded_size(alloc, values)?;
    let nodes = measure_of(values).nodes;
    let weight = custom_weight(values);
    let written = written(alloc, values)?;
    let written = written.as_str();
    Ok(format!(in alloc; "{length} {size} nodes {nodes} weight {weight} {written}")?)
}

/// How a copy of the values that went through a tree is written.
fn written(alloc: Global, values: &Named<DataValue>) -> Result<String, NoMemory> {
    let copy = read_back(alloc, &values.copy(alloc)?)?;
    let mut bytes = Vec::new(alloc);
    write_body(&copy, &mut bytes)?;
    Ok(hex::encode_upper(alloc, bytes.as_slice())?)
}
