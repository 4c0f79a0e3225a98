//! A file of the system as a disk. What the system does is trusted: no clause says what the file contains.
ghost use Rattle.std.specs.Prelude.{◌≡◌, ◌≤◌, IfOk, None, length};
ghost use Rattle.etp_outside.specs.Faults.{next_count};
ghost use Rattle.journal_disk.specs.Untold.{anything};

use crate::disk::{Disk, Length, Synced, Wrote};
use etp_outside::ReadOutcome;
use etp_values::Text;
use std::fs::{File, OpenOptions, TryLockError};
use std::io::{self, ErrorKind};
use std::os::fd::AsRawFd;
use std::os::unix::fs::FileExt;
use std::path::Path;
use std::rt::Files;

/// How often a read that a signal interrupts is tried before the interruption counts as a fault.
const TRIES: u32 = 64;

/// A disk that opens a file of the system at its first call. A file that does not exist counts as empty, and the first write creates it.
///
/// The file is locked while it is open, so a file that another program has open is a fault. When it is opened, it is synced and the
/// system's cached pages of it are dropped: after a sync that failed in an earlier program they may differ from what the disk has.
#[derive(Drop)]
pub struct FileDisk<'a, R> {
    rt: &'a R,
    name: Text,
    file: Option<File>,
    faults: u64,
}

/// Locks a file that was just opened.
fn lock(file: &File) -> io::Result<()> {
    match file.try_lock() {
        Ok(()) => Ok(()),
        Err(TryLockError::WouldBlock) => Err(ErrorKind::WouldBlock.into()),
        Err(TryLockError::Error(error)) => Err(error),
    }
}

/// Syncs a file, and drops the system's cached pages of it.
fn settle(file: &File) -> io::Result<()> {
    file.sync_all()?;
    let advised = libc::posix_fadvise(file.as_raw_fd(), 0, 0, libc::POSIX_FADV_DONTNEED);
    if advised != 0 {
        return Err(io::Error::from_raw_os_error(advised));
    }
    Ok(())
}

/// Locks and syncs a file that was just opened.
fn taken(file: File) -> io::Result<File> {
    lock(&file)?;
    settle(&file)?;
    Ok(file)
}

/// The file of a name, if it exists.
fn open_there<R: Files<File = File>>(rt: &R, name: &str) -> io::Result<Option<File>> {
    match OpenOptions::new().read(true).write(true).open(rt, name) {
        Ok(file) => Ok(Some(taken(file)?)),
        Err(error) => {
            if error.kind() == ErrorKind::NotFound {
                return Ok(None);
            }
            Err(error)
        }
    }
}

/// The folder that a file of this name is in.
fn folder_of(name: &str) -> &str {
    match Path::new(name).parent() {
        Some(folder) => {
            let text = folder.as_str();
            if text.is_empty() {
                return ".";
            }
            text
        }
        None => ".",
    }
}

/// Creates the file of a name, and syncs its folder.
fn make<R: Files<File = File>>(rt: &R, name: &str) -> io::Result<File> {
    let file = OpenOptions::new()
        .read(true)
        .write(true)
        .create_new(true)
        .open(rt, name)?;
    lock(&file)?;
    let folder = OpenOptions::new().read(true).open(rt, folder_of(name))?;
    folder.sync_all()?;
    Ok(file)
}

/// Reads again if a signal interrupts.
fn read_again(file: &File, at: u64, buf: &mut [u8]) -> io::Result<usize>
    ensures { IfOk result (λ n. n ≤ length buf.new) }
{
    for _ in 0..TRIES {
        match file.read_at(buf, at) {
            Ok(count) => return Ok(count),
            Err(error) => {
                if error.kind() != ErrorKind::Interrupted {
                    return Err(error);
                }
            }
        }
    }
    Err(ErrorKind::Interrupted.into())
}

impl<'a, R: Files<File = File>> FileDisk<'a, R> {
    /// The file of this name, which is not opened yet. It has not failed.
    pub fn new(rt: &'a R, name: Text) -> FileDisk<'a, R>
        ensures { result.faults ≡ 0 }
    {
        FileDisk {
            rt,
            name,
            file: None,
            faults: 0,
        }
    }

    /// Opens the file if it exists, unless it is open already.
    fn reach(&mut self) -> io::Result<()>
        ensures { self.new.faults ≡ self.old.faults }
    {
        if self.file.is_none() {
            self.file = open_there(self.rt, self.name.as_str())?;
        }
        Ok(())
    }

    /// Opens the file, and creates it if it does not exist.
    fn reach_made(&mut self) -> io::Result<()>
        ensures { self.new.faults ≡ self.old.faults }
    {
        self.reach()?;
        if self.file.is_none() {
            self.file = Some(make(self.rt, self.name.as_str())?);
        }
        Ok(())
    }

    fn measure(&mut self) -> io::Result<u64>
        ensures { self.new.faults ≡ self.old.faults }
    {
        self.reach()?;
        match &self.file {
            Some(file) => Ok(file.metadata()?.len()),
            None => Ok(0),
        }
    }

    fn read_some(&mut self, at: u64, buf: &mut [u8]) -> io::Result<usize>
        ensures faults { self.new.faults ≡ self.old.faults }
        ensures room { IfOk result (λ n. n ≤ length buf.new) }
    {
        self.reach()?;
        match &self.file {
            Some(file) => read_again(file, at, buf),
            None => Ok(0),
        }
    }

    fn write_whole(&mut self, at: u64, piece: &[u8]) -> io::Result<()>
        ensures { self.new.faults ≡ self.old.faults }
    {
        self.reach_made()?;
        match &self.file {
            Some(file) => file.write_all_at(piece, at),
            None => Ok(()),
        }
    }

    fn bring(&mut self) -> io::Result<()>
        ensures { self.new.faults ≡ self.old.faults }
    {
        self.reach()?;
        match &self.file {
            Some(file) => file.sync_data(),
            None => Ok(()),
        }
    }

    fn fault(&mut self)
        ensures after { self.new.faults ≡ next_count self.old.faults }
        ensures kept { self.old.faults ≤ self.new.faults }
    {
        let _faults = self.faults;
        self.faults = self.faults.saturating_add(1);
    }
}

impl<'a, R: Files<File = File> + Sync> Disk for FileDisk<'a, R> {
    ghost seen = { λ d. None };

    ghost may_leave = { λ d. anything };

    ghost moment = { λ d. 0 };

    ghost left_since = { λ d t. anything };

    ghost faults = { λ d. d.faults };

    ghost counts_now = { λ d t c le now. now };

    ghost only_now = { λ d c left. left };

    #[tactic(auto, using(crate::proofs::UntoldLemmas::still))]
    fn len(&mut self) -> Length {
        match self.measure() {
            Ok(length) => Length::Known(length),
            Err(_) => {
                self.fault();
                Length::Failed
            }
        }
    }

    #[tactic(auto, using(crate::proofs::UntoldLemmas::still))]
    fn read_at(&mut self, at: u64, buf: &mut [u8]) -> ReadOutcome {
        match self.read_some(at, buf) {
            Ok(0) => ReadOutcome::End,
            Ok(count) => ReadOutcome::Got(count),
            Err(_) => {
                self.fault();
                ReadOutcome::Failed
            }
        }
    }

    #[tactic(auto, using(crate::proofs::UntoldLemmas::still, crate::proofs::UntoldLemmas::follows))]
    fn write_at(&mut self, at: u64, piece: &[u8]) -> Wrote {
        match self.write_whole(at, piece) {
            Ok(()) => Wrote::Done,
            Err(_) => {
                self.fault();
                Wrote::Failed
            }
        }
    }

    #[tactic(auto, using(crate::proofs::UntoldLemmas::still))]
    fn sync(&mut self) -> Synced {
        match self.bring() {
            Ok(()) => Synced::Done,
            Err(_) => {
                self.fault();
                Synced::Failed
            }
        }
    }
}
