//! The parts of a URI's canonical text.
ghost use Rattle.std.specs.Prelude.{◌≡◌, ◌++◌, OnOk, string_bytes};
ghost use Rattle.etp_values.specs.Uri.{doubled, space_text, object_part, behind};
ghost use Rattle.etp_values.specs.IdText.{id_text};

use crate::id_text::ID_TEXT_LEN;
use crate::memory::NoMemory;
use crate::uri::ObjectName;

/// Appends a path with its quotes doubled.
fn put_doubled(out: &mut String, path: &str) -> Result<(), NoMemory>
    ensures { OnOk result (string_bytes out.new ≡ string_bytes out.old ++ doubled path.now) }
{
    let mut rest = path;
    while let Some((piece, behind)) = rest.split_once('\'') {
        out.push_str(piece)?;
        out.push_str("''")?;
        rest = behind;
    }
    out.push_str(rest)?;
    Ok(())
}

/// Appends `eml:///` and the part of a dataspace.
pub fn put_space(out: &mut String, path: &str) -> Result<(), NoMemory>
    ensures { OnOk result (string_bytes out.new ≡ string_bytes out.old ++ space_text path.now) }
{
    out.push_str("eml:///")?;
    if path.is_empty() {
        return Ok(());
    }
    out.push_str("dataspace('")?;
    put_doubled(out, path)?;
    out.push_str("')")?;
    Ok(())
}

/// Appends the part of an object.
fn put_name(out: &mut String, name: &ObjectName) -> Result<(), NoMemory>
    ensures { OnOk result (string_bytes out.new ≡ string_bytes out.old ++ object_part name.now (id_text name.now.id)) }
{
    out.push_str(name.domain.as_str())?;
    out.push_str(".")?;
    out.push_str(name.name.as_str())?;
    out.push_str("(")?;
    let mut buffer = [0; ID_TEXT_LEN];
    out.push_str(name.id.write(&mut buffer))?;
    out.push_str(")")?;
    Ok(())
}

/// Appends the part of an object, with a slash before it if there is a dataspace's part.
pub fn put_object(out: &mut String, path: &str, name: &ObjectName) -> Result<(), NoMemory>
    ensures { OnOk result (string_bytes out.new ≡ string_bytes out.old ++ behind path.now (object_part name.now (id_text name.now.id))) }
{
    if path.is_empty() {
        return put_name(out, name);
    }
    out.push_str("/")?;
    put_name(out, name)
}
