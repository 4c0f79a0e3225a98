//! The configuration under which the load is played: eight channels.
ghost use Rattle.std.specs.Prelude.{◌≡◌, ◌+◌, ◌<◌, [], ◌∷◌, IfOk, map};
ghost use Rattle.std.specs.List.{range_with_len};
ghost use Rattle.generator.specs.Channels.{id_ending, channel_uri, channel, generator_config};

use etp_values::{Id16, List, NoMemory, ObjectName, Shared, StoreUri, Text};
use server_config::{ChannelDef, Config, MAX_JOURNAL, MAX_LAG, ValueKind};
use std::alloc::Global;

/// How many channels there are, and sessions of the load.
pub(crate) const CHANNELS: u8 = 8;

/// The configuration under which the load is played: channels 0 to 7 of kind `long`, and otherwise the defaults.
pub fn generator_config(alloc: Global) -> Result<Config, NoMemory>
    ensures { IfOk result (λ c. c ≡ generator_config) }
{
    let name = Text::copy(alloc, "gen")?;
    let channels = channels(alloc)?;
    Ok(Config {
        instance: id_ending(1),
        name,
        lag: MAX_LAG,
        journal: MAX_JOURNAL,
        types: None,
        channels: Shared::new(alloc, channels)?,
    })
}

/// The channels in the order of their ids.
fn channels(alloc: Global) -> Result<List<ChannelDef>, NoMemory>
    ensures { IfOk result (λ l. l ≡ map channel (range_with_len 0 8)) }
{
    let mut channels = Vec::new(alloc);
    for number in 0..CHANNELS {
        let one = channel(alloc, number)?;
        channels.push(one)?;
    }
    Ok(List::from_vec(channels))
}

fn channel(alloc: Global, number: u8) -> Result<ChannelDef, NoMemory>
    requires { number < 8 }
    ensures { IfOk result (λ c. c ≡ channel number) }
{
    Ok(ChannelDef {
        uri: channel_uri(alloc, number)?,
        name: channel_name(alloc, number)?,
        kind: ValueKind::Long,
        uom: Text::new(alloc),
    })
}

/// The object that a channel is.
pub(crate) fn channel_uri(alloc: Global, number: u8) -> Result<StoreUri, NoMemory>
    ensures { IfOk result (λ u. u ≡ channel_uri number) }
{
    Ok(StoreUri {
        space: Text::new(alloc),
        object: Some(ObjectName {
            domain: Text::copy(alloc, "witsml21")?,
            name: Text::copy(alloc, "Channel")?,
            id: id_ending(number),
        }),
    })
}

/// `c` and the channel's digit.
fn channel_name(alloc: Global, number: u8) -> Result<Text, NoMemory>
    requires { number < 8 }
    ensures { IfOk result (λ t. t ≡ 99 ∷ (48 + number) ∷ []) }
{
    let mut name = String::from_str(alloc, "c")?;
    name.push((b'0' + number) as char)?;
    Ok(Text::from_string(name))
}

/// The identifier of fifteen zeros and this byte.
pub(crate) fn id_ending(last: u8) -> Id16
    ensures { result ≡ id_ending last }
{
    Id16::from_bytes([0, 0, 0, 0, 0, 0, 0, 0, 0, 0, 0, 0, 0, 0, 0, last])
}
