//! A count written as a word.
ghost use Rattle.std.specs.Prelude.{◌≡◌, ◌≤◌};
ghost use Rattle.command_words.specs.Counts.{begins_none, number_on, from_least, count_in};

/// The greatest count.
const MOST: u32 = 1_000_000;

/// The count that a word denotes in decimal digits without a leading zero: at most 1,000,000, at least 1, and at least `least`.
pub fn count_in(word: &str, least: u32) -> Option<u32>
    ensures { result ≡ count_in least word.now }
{
    let digits = word.as_bytes();
    if begins_none(digits) {
        return None;
    }
    from_least(least, number_on(0, digits))
}

/// A number that isn't too small.
fn from_least(least: u32, number: Option<u32>) -> Option<u32>
    ensures { result ≡ from_least least number }
{
    match number {
        None => None,
        Some(number) => {
            if number < least {
                return None;
            }
            Some(number)
        }
    }
}

/// Whether there is no first digit, or it is a zero.
fn begins_none(digits: &[u8]) -> bool
    ensures { result ≡ begins_none digits.now }
{
    match digits {
        [] => true,
        [digit, ..] => *digit == b'0',
    }
}

/// The number that digits denote when they follow those of `count`, unless it is too large.
#[tactic(auto, using(crate::proofs::CountLemmas::beyond))]
fn number_on(count: u32, digits: &[u8]) -> Option<u32>
    requires { count ≤ 1000000 }
    ensures { result ≡ number_on count digits.now }
{
    match digits {
        [] => Some(count),
        [digit, rest @ ..] => {
            if !digit.is_ascii_digit() {
                return None;
            }
            let longer = 10 * count + u32::from(*digit - b'0');
            if longer > MOST {
                return None;
            }
            number_on(longer, rest)
        }
    }
}
