//! Reads the file of a name as a configuration.
ghost use Rattle.std.specs.Prelude.{◌≡◌, ◌≢◌, ◌≤◌, ℕ, List, Some, Err};
ghost use Rattle.etp_outside.specs.Faults.{Rose};
ghost use Rattle.etp_outside.specs.declared.status.Status.TheVariants.{ReadFault};
ghost use Rattle.config_file.specs.Settings.{refusal_status, unread_status, IsConfig};

use chan_defs::{DefsError, MAX_DEFS_LEN, read_defs};
use etp_outside::{Host, Opened, Status, Unread, read_all};
use server_config::Config;
use std::alloc::Global;

/// Why a configuration is refused, by the number that its status has.
mod causes {
    pub const TOO_LONG: u8 = 1;

    pub const TOML: u8 = 2;

    pub const KEY: u8 = 3;

    pub const TOO_MANY: u8 = 4;

    pub const URI: u8 = 5;

    pub const KIND: u8 = 6;

    pub const DOUBLE_URI: u8 = 7;
}

/// The configuration in a file of the host, or the status that says why there is none. The file is closed again.
pub fn read_config<H: Host>(alloc: Global, host: &mut H, name: &str) -> Result<Config, Status>
    ensures config { IsConfig result (H.content host.old name.now) }
    ensures same { (q : List ℕ) → H.content host.new q ≡ H.content host.old q }
    ensures kept { H.faults host.old ≤ H.faults host.new }
    ensures cause { result ≡ Err ReadFault → Rose (H.faults host.old) (H.faults host.new) }
{
    let mut file = match host.open(alloc, name) {
        Opened::File(file) => file,
        Opened::Failed => return Err(Status::ReadFault),
        Opened::NoMemory => return Err(Status::NoMemory),
    };
    let all = read_all(alloc, &mut file, MAX_DEFS_LEN);
    host.close(file);
    match all {
        Ok(bytes) => config_in(alloc, bytes.as_slice()),
        Err(error) => Err(unread_status(error)),
    }
}

/// The status of a configuration that was not read whole.
fn unread_status(error: Unread) -> Status
    ensures { result ≡ unread_status error }
{
    match error {
        Unread::TooLong => refusal_status(DefsError::TooLong),
        Unread::Failed => Status::ReadFault,
        Unread::NoMemory => Status::NoMemory,
    }
}

/// The configuration that bytes denote, or the status of its refusal.
fn config_in(alloc: Global, bytes: &[u8]) -> Result<Config, Status>
    ensures config { IsConfig result (Some bytes.now) }
    ensures cause { result ≢ Err ReadFault }
{
    match read_defs(alloc, bytes) {
        Ok(config) => Ok(config),
        Err(error) => Err(refusal_status(error)),
    }
}

/// The status of a configuration's refusal.
fn refusal_status(error: DefsError) -> Status
    ensures { result ≡ refusal_status error }
{
    match error {
        DefsError::TooLong => config_refused(causes::TOO_LONG, 0, 0),
        DefsError::Toml => config_refused(causes::TOML, 0, 0),
        DefsError::Key { channel, key } => config_refused(causes::KEY, channel, key),
        DefsError::TooMany => config_refused(causes::TOO_MANY, 0, 0),
        DefsError::Uri { channel } => config_refused(causes::URI, channel, 0),
        DefsError::Kind { channel } => config_refused(causes::KIND, channel, 0),
        DefsError::DoubleUri { channel } => config_refused(causes::DOUBLE_URI, channel, 0),
        DefsError::NoMemory => Status::NoMemory,
    }
}

fn config_refused(cause: u8, channel: u64, key: u8) -> Status
    ensures { result ≡ Status.Config cause channel key }
{
    Status::Config {
        cause,
        channel,
        key,
    }
}
