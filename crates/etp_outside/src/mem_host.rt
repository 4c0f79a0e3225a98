//! A host in memory.
ghost use Rattle.std.specs.Prelude.{◌≡◌, ◌<◌, ◌≤◌, ◌==◌, ℕ, List, Some, None};
ghost use Rattle.std.specs.Option.{option_copied, option_map};
ghost use Rattle.etp_outside.specs.Faults.{Rose};
ghost use Rattle.etp_outside.specs.Calls.{new_script};
ghost use Rattle.etp_outside.specs.Host.{Opens, OpenCause};
ghost use Rattle.etp_outside.specs.Memory.{IsOpenAnswer, after_open, after_close, find_file, file_content};

use crate::host::{Host, Opened};
use crate::mem_source::MemSource;
use crate::script::Script;
use etp_values::{Blob, List, Text};
use std::alloc::Global;
use std::marker::Model;

/// A file of a [`MemHost`].
#[derive(Debug, Drop)]
pub struct MemFile {
    /// The name that opens it.
    pub name: Text,
    /// What it contains.
    pub content: Blob,
    /// The numbers, from 1, of the reads that fail, each time that the file is opened.
    pub fails: List<u64>,
}

/// A host that has the files of a list, and fails at the openings that another list names. If two files have the same name it opens the
/// first.
#[derive(Debug, Drop)]
pub struct MemHost {
    files: List<MemFile>,
    script: Script,
}

impl Model for MemHost {
    ghost use Rattle.etp_outside.specs.Folder.{Folder};

    ghost Value = { Folder };

    ghost view = { λ h. record { files = h.files; script = h.script } };
}

impl MemHost {
    /// A host with these files. The openings whose numbers are in `fails` fail; the first one is number 1.
    pub fn new(files: List<MemFile>, fails: List<u64>) -> MemHost
        ensures { result ≡ record { files = files; script = new_script fails } }
    {
        MemHost {
            files,
            script: Script::new(fails),
        }
    }

    /// How often it failed, or took back a file that had failed.
    pub fn faults(&self) -> u64
        ensures { result ≡ self.now.script.faults }
    {
        self.script.faults
    }
}

/// The first file of a name.
fn file_named<'a>(files: &'a [MemFile], name: &str) -> Option<&'a MemFile>
    ensures { option_copied result ≡ find_file files.now name.now }
{
    for file in files {
        if file.name.as_str() == name {
            return Some(file);
        }
    }
    None
}

impl Host for MemHost {
    type File = MemSource;

    ghost content = { λ h name. option_map file_content (find_file h.files name) };

    ghost faults = { λ h. h.script.faults };

    fn open(&mut self, alloc: Global, name: &str) -> Opened<MemSource>
        ensures answer { IsOpenAnswer self.old name.now result }
        ensures after { self.new ≡ after_open self.old result }
        ensures file { Opens (λ s. Some s.left) (λ s. s.script.faults) result
            (option_map file_content (find_file self.old.files name.now)) }
        ensures same { (q : List ℕ) → option_map file_content (find_file self.new.files q)
            ≡ option_map file_content (find_file self.old.files q) }
        ensures kept { self.old.script.faults ≤ self.new.script.faults }
        ensures cause { OpenCause result self.old.script.faults self.new.script.faults }
    {
        if self.script.fails_next() {
            self.script.failed();
            return Opened::Failed;
        }
        let Some(file) = file_named(self.files.as_slice(), name) else {
            self.script.failed();
            return Opened::Failed;
        };
        self.script.passed();
        match (file.content.share(), file.fails.as_slice().to_vec(alloc)) {
            (Ok(content), Ok(fails)) => {
                Opened::File(MemSource::new(content, List::from_vec(fails)))
            }
            _ => Opened::NoMemory,
        }
    }

    fn close(&mut self, file: MemSource)
        ensures after { self.new ≡ after_close self.old file }
        ensures same { (q : List ℕ) → option_map file_content (find_file self.new.files q)
            ≡ option_map file_content (find_file self.old.files q) }
        ensures kept { self.old.script.faults ≤ self.new.script.faults }
        ensures cause { 0 < file.script.faults → Rose self.old.script.faults self.new.script.faults }
    {
        if file.faults() > 0 {
            self.script.fault();
        }
    }
}
