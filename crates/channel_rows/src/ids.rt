//! Ids of channels as places.
ghost use Rattle.std.specs.Prelude.{◌≡◌};
ghost use Rattle.channel_rows.specs.Ids.{place_of};

/// The index that a channel's id is. A negative number is no channel's.
pub(crate) fn place_of(channel: i64) -> Option<usize>
    ensures { result ≡ place_of channel }
{
    if channel < 0 {
        return None;
    }
    Some(channel as usize)
}
