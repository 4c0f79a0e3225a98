//! Files that have a configuration, and files that have none. What is refused in a configuration is shown by the program
//! `check_tool`.
use chan_defs::{DefsError, MAX_DEFS_LEN};
use config_file::read_config;
use etp_outside::{MemFile, MemHost, Status};
use etp_values::{Blob, Copied, List, NoMemory, Text};
use server_config::{Config, ValueKind};
use std::alloc::Global;
use std::process::Abort;
use std::test::Fail;

const WITH_CHANNEL: &[u8] =
    b"instance = \"00000000-0000-0000-0000-000000000001\"\nname = \"rig\"\n[[channel]]\nuri = \"eml:///witsml21.Channel(00000000-0000-0000-0000-000000000001)\"\nname = \"c1\"\nkind = \"long\"\n";

/// Reads the configuration `wd` from a host whose only file has this name and content; its reads with the numbers in `fails` fail.
fn read(alloc: Global, content: &[u8], fails: &[u64]) -> Result<Result<Config, Status>, NoMemory> {
    let mut files = Vec::new(alloc);
    files.push(MemFile {
        name: Text::copy(alloc, "wd")?,
        content: Blob::copy(alloc, content)?,
        fails: List::from_vec(fails.to_vec(alloc)?),
    })?;
    let mut host = MemHost::new(List::from_vec(files), List::new(alloc));
    Ok(read_config(alloc, &mut host, "wd"))
}

/// That such a file gives this status.
fn refuses(
    rt: &impl Abort,
    alloc: Global,
    content: &[u8],
    fails: &[u64],
    expected: Status,
) -> Result<(), NoMemory> {
    match read(alloc, content, fails)? {
        Ok(_) => assert!(rt; false),
        Err(status) => assert!(rt; status == expected),
    }
    Ok(())
}

#[test]
fn tells_why_there_is_no_configuration(rt: HostRuntime) -> Result<(), Fail> {
    let alloc = rt.alloc();
    let too_long = Status::Config {
        cause: 1,
        channel: 0,
        key: 0,
    };
    let spaces = vec![in alloc; b' '; MAX_DEFS_LEN + 1]?;
    refuses(&rt, alloc, spaces.as_slice(), &[], too_long)?;
    refuses(&rt, alloc, b"", &[1], Status::ReadFault)?;
    Ok(())
}

fn shows(rt: &impl Abort, config: &Config) {
    assert!(rt; config.instance.as_bytes()[15] == 1 && config.name.as_str() == "rig");
    assert!(rt; config.channels.get().len() == 1);
    for channel in config.channels.get().as_slice() {
        assert!(rt; channel.name.as_str() == "c1" && channel.uom.is_empty());
        assert!(rt; channel.kind == ValueKind::Long);
    }
}

#[test]
fn reads_and_copies_a_channel(rt: HostRuntime) -> Result<(), Fail> {
    let alloc = rt.alloc();
    match read(alloc, WITH_CHANNEL, &[])? {
        Ok(config) => shows(&rt, &config.copy(alloc)?),
        Err(_) => assert!(rt; false),
    }
    Ok(())
}

#[test]
fn a_refusal_has_its_text(rt: HostRuntime) -> Result<(), Fail> {
    let key = DefsError::Key {
        channel: 2,
        key: 10,
    };
    let text = key.to_string(rt.alloc())?;
    assert!(rt; text.as_str() == "key 10 of channel 2 is missing or malformed");
    Ok(())
}
