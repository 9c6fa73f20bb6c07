//! Numbers: what a word of decimal digits writes.

ghost use Rattle.std.specs.{Prelude.◌≡◌, Prelude.◌≤◌, Prelude.◌<◌, Option.IfSome};
ghost use Rattle.vs_script.specs.Field.{is_numeral, number_in};

use std::str;

/// The most digits of a number.
pub const MAX_DIGITS: usize = 20;

/// Whether a word is 1 to 20 decimal digits.
fn is_numeral(word: &[u8]) -> bool
    ensures { result ≡ is_numeral word.now }
{
    !word.is_empty() && word.len() <= MAX_DIGITS && word.iter().all(|b| b.is_ascii_digit())
}

/// The number that a word of 1 to 20 decimal digits writes, where it is from `low` to `high`.
pub fn number_in(word: &[u8], low: u64, high: u64) -> Option<u64>
    ensures value { result ≡ number_in low high word.now }
    ensures range { IfSome result (λ n. (low ≤ n) × (n ≤ high)) }
{
    if !is_numeral(word) {
        return None;
    }
    let value: u64 = str::from_utf8(word).ok()?.parse().ok()?;
    if low <= value && value <= high {
        Some(value)
    } else {
        None
    }
}
