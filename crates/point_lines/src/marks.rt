//! Finding marks among bytes.
ghost use Rattle.std.specs.Prelude.{◌≡◌, ◌≤◌, length, take, None};
ghost use Rattle.std.specs.Option.{option_map};
ghost use Rattle.etp_values.specs.Uri.{parted};
ghost use Rattle.point_lines.specs.Marks.{IsPlace};

/// The offset of the first mark.
pub(crate) fn place_of(mark: u8, bytes: &[u8]) -> Option<usize>
    ensures { IsPlace mark bytes.now result }
{
    for (i, b) in bytes.iter().enumerate() {
        if *b == mark {
            return Some(i);
        }
    }
    None
}

/// The same, if there is none among the first `seen` bytes.
pub(crate) fn place_behind(mark: u8, bytes: &[u8], seen: usize) -> Option<usize>
    requires within { seen ≤ length bytes.now }
    requires clear { parted mark (take seen bytes.now) ≡ None }
    ensures { IsPlace mark bytes.now result }
{
    match place_of(mark, &bytes[seen..]) {
        Some(i) => Some(seen + i),
        None => None,
    }
}

/// What comes before the first mark, and what follows it.
pub(crate) fn parted(mark: u8, bytes: &[u8]) -> Option<(&[u8], &[u8])>
    ensures { option_map (λ p. (p.0.now, p.1.now)) result ≡ parted mark bytes.now }
{
    match place_of(mark, bytes) {
        Some(i) => Some((&bytes[..i], &bytes[i + 1..])),
        None => None,
    }
}
