//! What both lines share: a reader that is fed bytes, and the digits of a port.
ghost use Rattle.std.specs.{Prelude.{◌≡◌, ◌==◌}, List.prefix_len, Char.is_ascii_digit};
ghost use Rattle.vs_uds.specs.{Port.{is_numeral, port_in}, Reading.{fed, is_decided, port_or_bad}, Scan.{after_digits, leading_digits, without_leading_spaces}};

use arrayvec::ArrayVec;
use std::str;

/// Ends each line.
pub const LF: u8 = b'\n';

/// May stand before the LF of a CONNECT line.
pub const CR: u8 = b'\r';

/// Stands between words.
pub const SPACE: u8 = b' ';

/// The most digits of a port.
pub const DIGITS_MAX: usize = 10;

/// What the reader of a line answers to a byte.
#[derive(Clone, Copy, Debug, PartialEq, Eq)]
pub enum Step {
    /// The line isn't decided: neither an LF has come, nor the most bytes that it may have.
    More,
    /// The bytes are a line, with this port.
    Port(u32),
    /// The bytes are no line.
    Bad,
}

impl Step {
    /// The answer to a line that is decided: its port, where it has one.
    pub(crate) fn of_port(port: Option<u32>) -> Step
        ensures { result ≡ port_or_bad port }
    {
        match port {
            Some(port) => Step::Port(port),
            None => Step::Bad,
        }
    }
}

/// Whether a line is decided: an LF has come, or the most bytes that it may have.
pub fn is_decided(line: &[u8], most: usize) -> bool
    ensures { result ≡ is_decided most line.now }
{
    line.contains(&LF) || line.len() >= most
}

/// Adds a byte to a line that isn't decided. A line that is stays as it is.
pub fn feed<const MOST: usize>(line: &mut ArrayVec<u8, MOST>, byte: u8)
    ensures { line.new.items ≡ fed MOST line.old.items byte }
{
    if !is_decided(line.as_slice(), MOST) {
        line.push(byte);
    }
}

/// How many spaces a text begins with.
fn spaces(text: &[u8]) -> usize
    ensures { result ≡ prefix_len (λ byte. byte == SPACE) text.now }
{
    text.iter().take_while(|byte| **byte == SPACE).count()
}

/// How many digits a text begins with.
fn digits(text: &[u8]) -> usize
    ensures { result ≡ prefix_len is_ascii_digit text.now }
{
    text.iter().take_while(|byte| byte.is_ascii_digit()).count()
}

/// A text without the spaces that it begins with.
#[tactic(auto, using(crate::proofs::Leading::leading))]
pub fn without_leading_spaces(text: &[u8]) -> &[u8]
    ensures { result.now ≡ without_leading_spaces text.now }
{
    &text[spaces(text)..]
}

/// The digits that a text begins with, and the text after them.
#[tactic(auto, using(crate::proofs::Leading::leading))]
pub fn split_digits(text: &[u8]) -> (&[u8], &[u8])
    ensures digits { result.0.now ≡ leading_digits text.now }
    ensures rest { result.1.now ≡ after_digits text.now }
{
    text.split_at(digits(text))
}

/// Whether a text is 1 to `DIGITS_MAX` digits.
fn is_numeral(text: &[u8]) -> bool
    ensures { result ≡ is_numeral text.now }
{
    !text.is_empty() && text.len() <= DIGITS_MAX && text.iter().all(|byte| byte.is_ascii_digit())
}

/// The port that a text writes, if it is 1 to `DIGITS_MAX` digits with a value below 2^32.
pub fn port_in(text: &[u8]) -> Option<u32>
    ensures { result ≡ port_in text.now }
{
    if !is_numeral(text) {
        return None;
    }
    str::from_utf8(text).ok()?.parse().ok()
}
