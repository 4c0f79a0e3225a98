//! A configuration from its bytes.
ghost use Rattle.toml.specs.View.{table_view};
ghost use Rattle.etp_values.specs.Gives.{Gives};
ghost use Rattle.chan_defs.specs.Config.{config_of, defs};

use crate::channels::read_channels;
use crate::error::DefsError;
use crate::keys::{instance, name, number, tables, types};
use etp_values::{NoMemory, Shared, Text};
use server_config::{Config, MAX_JOURNAL, MAX_LAG};
use std::alloc::Global;
use toml::Table;

/// The maximum length of a configuration, in bytes.
pub const MAX_DEFS_LEN: usize = 1_048_576;

fn read_config(alloc: Global, table: &Table) -> Result<Config, DefsError>
    ensures { Gives DefsError.NoMemory result (config_of (table_view table.now)) }
{
    let Some(instance) = instance(table) else {
        return Err(DefsError::Key { channel: 0, key: 1 });
    };
    let Some(name) = name(table) else {
        return Err(DefsError::Key { channel: 0, key: 2 });
    };
    let Some(lag) = number(table, "lag", 1, MAX_LAG) else {
        return Err(DefsError::Key { channel: 0, key: 3 });
    };
    let Some(journal) = number(table, "journal", 2, MAX_JOURNAL) else {
        return Err(DefsError::Key { channel: 0, key: 4 });
    };
    let Some(types) = types(alloc, table)? else {
        return Err(DefsError::Key { channel: 0, key: 5 });
    };
    let Some(tables) = tables(alloc, table)? else {
        return Err(DefsError::Key { channel: 0, key: 6 });
    };
    let channels = Shared::new(alloc, read_channels(alloc, &tables)?)?;
    let name = Text::copy(alloc, name)?;
    Ok(Config {
        instance,
        name,
        lag,
        journal,
        types,
        channels,
    })
}

/// Reads the configuration in these bytes, or returns the first reason why there is none.
pub fn read_defs(alloc: Global, bytes: &[u8]) -> Result<Config, DefsError>
    ensures { Gives DefsError.NoMemory result (defs bytes.now) }
{
    if bytes.len() > MAX_DEFS_LEN {
        return Err(DefsError::TooLong);
    }
    match toml::table_from_slice(alloc, bytes) {
        Ok(table) => read_config(alloc, &table),
        Err(error) => {
            if error.is_memory() {
                Err(DefsError::NoMemory)
            } else {
                Err(DefsError::Toml)
            }
        }
    }
}
