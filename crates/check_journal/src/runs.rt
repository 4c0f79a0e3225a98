//! What the lines do.
use crate::words::{bytes_of, digits_of, id_of, numbers_of, spellings_of, words_of};
use etp_values::{Blob, Id16, List, NoMemory};
use journal_disk::{Disk, DiskCall, MemDisk};
use journal_file::{JournalError, JournalFile};
use std::alloc::Global;

/// A disk in memory after some steps, and a line for each of them.
struct Steps {
    disk: MemDisk,
    lines: String,
}

/// Why something was refused, in a line.
pub(crate) fn refusal(alloc: Global, error: JournalError) -> Result<String, NoMemory> {
    match error {
        JournalError::Magic => Ok(String::from_str(alloc, "refused magic\n")?),
        JournalError::Instance => Ok(String::from_str(alloc, "refused instance\n")?),
        JournalError::Entry(at) => Ok(format!(in alloc; "refused entry {at}\n")?),
        JournalError::TooLong => Ok(String::from_str(alloc, "too long\n")?),
        JournalError::DiskFault => Ok(String::from_str(alloc, "fault\n")?),
        JournalError::NoMemory => Err(NoMemory),
    }
}

/// A line with spellings.
pub(crate) fn opened(alloc: Global, spellings: &[Blob]) -> Result<String, NoMemory> {
    let mut line = String::from_str(alloc, "opens")?;
    for spelling in spellings {
        line.push_str(" ")?;
        line.push_str(digits_of(alloc, spelling.as_bytes())?.as_str())?;
    }
    line.push_str("\n")?;
    Ok(line)
}

/// A call of a disk, in a line.
fn call_line(alloc: Global, call: &DiskCall) -> Result<String, NoMemory> {
    match call {
        DiskCall::Put { at, piece, kept } => {
            let digits = digits_of(alloc, piece.as_bytes())?;
            Ok(format!(in alloc; "put {at} {kept} {digits}\n")?)
        }
        DiskCall::Synced => Ok(String::from_str(alloc, "synced\n")?),
        DiskCall::Other => Ok(String::from_str(alloc, "other\n")?),
    }
}

fn call_lines(alloc: Global, calls: &[DiskCall]) -> Result<String, NoMemory> {
    let mut lines = String::new(alloc);
    for call in calls {
        lines.push_str(call_line(alloc, call)?.as_str())?;
    }
    Ok(lines)
}

/// Appends a group, by `append` if it is a single entry.
fn append_group<D: Disk>(
    alloc: Global,
    file: &mut JournalFile<D>,
    group: &[Blob],
) -> Result<(), JournalError> {
    match group {
        [one] => file.append(alloc, one.as_bytes()),
        all => file.append_all(alloc, all),
    }
}

/// Appends groups until one is refused, with a line for each.
pub(crate) fn append_groups<D: Disk>(
    alloc: Global,
    file: &mut JournalFile<D>,
    groups: &str,
) -> Result<String, NoMemory> {
    let mut lines = String::new(alloc);
    for group in words_of(alloc, groups, ';')? {
        let group = spellings_of(alloc, group)?;
        match append_group(alloc, file, group.as_slice()) {
            Ok(()) => lines.push_str("ok\n")?,
            Err(error) => {
                lines.push_str(refusal(alloc, error)?.as_str())?;
                return Ok(lines);
            }
        }
    }
    Ok(lines)
}

/// Makes a journal and appends groups.
fn make(alloc: Global, disk: MemDisk, id: Id16, groups: &str) -> Result<Steps, NoMemory> {
    match JournalFile::create(disk, id) {
        Err((disk, error)) => Ok(Steps {
            disk,
            lines: refusal(alloc, error)?,
        }),
        Ok(file) => {
            let mut file = file;
            let appended = append_groups(alloc, &mut file, groups)?;
            Ok(Steps {
                disk: file.close(),
                lines: format!(in alloc; "ok\n{appended}")?,
            })
        }
    }
}

/// What a disk's journal opens to.
fn opening(alloc: Global, disk: MemDisk, id: Id16) -> Result<String, NoMemory> {
    match JournalFile::open(alloc, disk, id) {
        Ok((_, spellings)) => opened(alloc, spellings.as_slice()),
        Err((_, error)) => refusal(alloc, error),
    }
}

/// `append ID FAILS KEPT GROUPS`: what making a journal and appending groups give, the calls of the disk, and what it opens to then.
pub(crate) fn append(
    alloc: Global,
    id: &str,
    fails: &str,
    kept: &str,
    groups: &str,
) -> Result<String, NoMemory> {
    let id = id_of(alloc, id)?;
    let kept = kept.parse::<usize>().unwrap_or(0);
    let disk = MemDisk::new(alloc, Blob::new(), numbers_of(alloc, fails)?, kept)?;
    let Steps { disk, lines } = make(alloc, disk, id, groups)?;
    let calls = call_lines(alloc, disk.calls())?;
    let after = opening(alloc, disk, id)?;
    Ok(format!(in alloc; "{lines}{calls}{after}")?)
}

/// Appends an entry to a journal that was opened, and opens it again.
fn go_on(
    alloc: Global,
    file: JournalFile<MemDisk>,
    id: Id16,
    next: &str,
) -> Result<String, NoMemory> {
    let next = bytes_of(alloc, next)?;
    let mut file = file;
    match file.append(alloc, next.as_bytes()) {
        Ok(()) => opening(alloc, file.close(), id),
        Err(error) => refusal(alloc, error),
    }
}

/// `open ID BYTES NEXT`: what a file of these bytes opens to, and what it opens to after one entry more.
pub(crate) fn open(alloc: Global, id: &str, bytes: &str, next: &str) -> Result<String, NoMemory> {
    let id = id_of(alloc, id)?;
    let disk = MemDisk::new(alloc, bytes_of(alloc, bytes)?, List::new(alloc), 0)?;
    match JournalFile::open(alloc, disk, id) {
        Ok((file, spellings)) => {
            let before = opened(alloc, spellings.as_slice())?;
            let after = go_on(alloc, file, id, next)?;
            Ok(format!(in alloc; "{before}{after}")?)
        }
        Err((_, error)) => refusal(alloc, error),
    }
}
