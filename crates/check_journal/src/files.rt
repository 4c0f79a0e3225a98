//! Journals in files of the system.
use crate::runs::{append_groups, opened, refusal};
use crate::words::{digits_of, id_of};
use etp_values::{Id16, NoMemory, Text};
use journal_disk::FileDisk;
use journal_file::JournalFile;
use std::fs;

/// What the file of a name opens to.
fn opening(rt: &HostRuntime, name: &str, id: Id16) -> Result<String, NoMemory> {
    let disk = FileDisk::new(rt, Text::copy(rt.alloc(), name)?);
    match JournalFile::open(rt.alloc(), disk, id) {
        Ok((_, spellings)) => opened(rt.alloc(), spellings.as_slice()),
        Err((_, error)) => refusal(rt.alloc(), error),
    }
}

/// The bytes of a file.
fn content(rt: &HostRuntime, name: &str) -> Result<String, NoMemory> {
    let alloc = rt.alloc();
    match fs::read(rt, name) {
        Ok(bytes) => {
            let digits = digits_of(alloc, bytes.as_slice())?;
            Ok(format!(in alloc; "{digits}\n")?)
        }
        Err(_) => Ok(String::from_str(alloc, "no file\n")?),
    }
}

/// Appends to the file of a name, and opens it once more while it is held.
fn fill(
    rt: &HostRuntime,
    file: JournalFile<FileDisk<'_, HostRuntime>>,
    name: &str,
    id: Id16,
    groups: &str,
) -> Result<String, NoMemory> {
    let mut file = file;
    let appended = append_groups(rt.alloc(), &mut file, groups)?;
    let held = opening(rt, name, id)?;
    drop(file.close());
    Ok(format!(in rt.alloc(); "ok\n{appended}{held}")?)
}

/// Makes the file of a name.
fn made(rt: &HostRuntime, name: &str, id: Id16, groups: &str) -> Result<String, NoMemory> {
    let disk = FileDisk::new(rt, Text::copy(rt.alloc(), name)?);
    match JournalFile::create(disk, id) {
        Ok(file) => fill(rt, file, name, id, groups),
        Err((_, error)) => refusal(rt.alloc(), error),
    }
}

/// `make NAME ID GROUPS`: what making a journal in a file and appending groups give, what opening it gives while it is held, and its bytes.
pub(crate) fn make(
    rt: &HostRuntime,
    name: &str,
    id: &str,
    groups: &str,
) -> Result<String, NoMemory> {
    let id = id_of(rt.alloc(), id)?;
    let lines = made(rt, name, id, groups)?;
    let bytes = content(rt, name)?;
    Ok(format!(in rt.alloc(); "{lines}{bytes}")?)
}

/// `read NAME ID`: what a journal in a file opens to, and its bytes.
pub(crate) fn read(rt: &HostRuntime, name: &str, id: &str) -> Result<String, NoMemory> {
    let id = id_of(rt.alloc(), id)?;
    let lines = opening(rt, name, id)?;
    let bytes = content(rt, name)?;
    Ok(format!(in rt.alloc(); "{lines}{bytes}")?)
}

/// `remove NAME`: whether the file was there, which then is gone.
pub(crate) fn remove(rt: &HostRuntime, name: &str) -> Result<String, NoMemory> {
    match fs::remove_file(rt, name) {
        Ok(()) => Ok(String::from_str(rt.alloc(), "removed\n")?),
        Err(_) => Ok(String::from_str(rt.alloc(), "no file\n")?),
    }
}
