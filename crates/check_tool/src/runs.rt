//! The tool on a capture in memory.

ghost use Rattle.std.specs.Prelude.{◌<◌};

use etp_outside::{DirHost, Host, MemFile, MemHost, MemSink, MemSource, Status};
use etp_values::{Blob, List, NoMemory, Text};
use std::alloc::Global;
use std::fs;
use tool_forms::run_tool;

/// The faults of a case: the numbers of the calls that fail, or 0.
#[derive(Clone, Copy, Debug, PartialEq, Eq)]
pub(crate) struct Faults {
    /// Of opening a file.
    pub opening: u64,
    /// Of reading the configuration.
    pub config: u64,
    /// Of reading the input.
    pub read: u64,
    /// Of writing the output.
    pub write: u64,
}

/// No call fails.
pub(crate) const NO_FAULTS: Faults = Faults {
    opening: 0,
    config: 0,
    read: 0,
    write: 0,
};

/// The configuration of the cases in which a call to the host or to its file fails.
const CONFIG: &str = "server.toml";

/// A list of the number of a call that fails, and an empty one for 0.
fn only(alloc: Global, number: u64) -> Result<List<u64>, NoMemory> {
    let mut numbers = Vec::new(alloc);
    if number > 0 {
        numbers.push(number)?;
    }
    Ok(List::from_vec(numbers))
}

/// How many bytes an input of this size gives at a time.
fn at_a_time(len: usize) -> usize
    ensures { 0 < result }
{
    if len > 65_536 { 65_536 } else { 1 }
}

/// A host in memory that has the configuration, and fails as the case says. A configuration that is not there is empty.
fn failing_host(rt: &HostRuntime, faults: Faults) -> Result<MemHost, NoMemory> {
    let alloc = rt.alloc();
    let content = fs::read(rt, CONFIG).unwrap_or(Vec::new(alloc));
    let mut files = Vec::new(alloc);
    files.push(MemFile {
        name: Text::from_string(String::from_str(alloc, CONFIG)?),
        content: Blob::from_vec(content)?,
        fails: only(alloc, faults.config)?,
    })?;
    Ok(MemHost::new(List::from_vec(files), only(alloc, faults.opening)?))
}

/// How a run ended, what it wrote, and how often what it was given failed.
#[derive(Drop)]
pub(crate) struct Ran {
    pub(crate) status: Status,
    pub(crate) out: MemSink,
    /// How often the host in memory failed, or took back a file that had failed.
    pub(crate) host: u64,
    pub(crate) input: u64,
}

/// Runs the tool over a host on a capture.
fn run_over<H: Host>(
    alloc: Global,
    words: &[String],
    host: &mut H,
    faults: Faults,
    capture: &[u8],
) -> Result<Ran, NoMemory> {
    let bytes = Blob::copy(alloc, capture)?;
    let most = at_a_time(capture.len());
    let mut input = MemSource::in_pieces(bytes, only(alloc, faults.read)?, most);
    let mut out = MemSink::new(Vec::new(alloc), only(alloc, faults.write)?);
    let status = run_tool(alloc, words, host, &mut input, &mut out);
    Ok(Ran {
        status,
        out,
        host: 0,
        input: input.faults(),
    })
}

/// Runs the tool on a capture.
pub(crate) fn run_case(
    rt: &HostRuntime,
    words: &[String],
    faults: Faults,
    capture: &[u8],
) -> Result<Ran, NoMemory> {
    let alloc = rt.alloc();
    if faults.opening == 0 && faults.config == 0 {
        let mut host = DirHost::new(rt);
        return run_over(alloc, words, &mut host, faults, capture);
    }
    let mut host = failing_host(rt, faults)?;
    let mut ran = run_over(alloc, words, &mut host, faults, capture)?;
    ran.host = host.faults();
    Ok(ran)
}
