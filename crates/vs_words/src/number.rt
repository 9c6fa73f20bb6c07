//! Numbers of the command line.
ghost use Rattle.std.specs.{Prelude.◌≡◌, Prelude.◌≤◌, Option.IfSome};
ghost use Rattle.vs_words.specs.Numbers.{is_digits, has_leading_zero, number_in};

// Whether a word is decimal digits.
fn is_digits(word: &[u8]) -> bool
    ensures { result ≡ is_digits word.now }
{
    !word.is_empty() && word.iter().all(|b| b.is_ascii_digit())
}

// Whether a word begins with 0 and goes on.
fn has_leading_zero(word: &[u8]) -> bool
    ensures { result ≡ has_leading_zero word.now }
{
    match word {
        [first, _, ..] => *first == b'0',
        _ => false,
    }
}

/// The number that a word of decimal digits writes without a leading zero, where it is from `low` to `high`.
pub fn number_in(word: &str, low: u32, high: u32) -> Option<u32>
    ensures value { result ≡ number_in low high word.now }
    ensures range { IfSome result (λ n. (low ≤ n) × (n ≤ high)) }
{
    if !is_digits(word.as_bytes()) || has_leading_zero(word.as_bytes()) {
        return None;
    }
    let value: u32 = word.parse().ok()?;
    if low <= value && value <= high {
        Some(value)
    } else {
        None
    }
}
