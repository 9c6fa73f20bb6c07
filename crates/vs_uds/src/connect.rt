//! The line `CONNECT PORT`, by which a client of the host asks for a port of the guest (Firecracker's vsock documentation).
ghost use Rattle.std.specs.Prelude.{◌≡◌, ◌↔◌, ℕ, [], false};
ghost use Rattle.vs_uds.specs.{ConnectLine.{IsConnectLine, connect_answers, connect_step, connect_text, word_port, is_line_end}, Reading.{fed, is_decided, port_at_end}};

use crate::scan::{
    CR, DIGITS_MAX, LF, SPACE, Step, feed, is_decided, port_in, split_digits,
    without_leading_spaces,
};
use crate::text::Text;
use arrayvec::{ArrayString, ArrayVec};
use itoa::Buffer;
use std::marker::Model;

/// The most bytes of a CONNECT line, its LF among them.
pub const CONNECT_MAX: usize = 32;

/// Room for `CONNECT `, ten digits and LF.
const CONNECT_TEXT_MAX: usize = 9 + DIGITS_MAX;

/// The text of a CONNECT line.
pub type ConnectText = Text<CONNECT_TEXT_MAX>;

/// The CONNECT line of a port: `CONNECT `, the port in decimal without leading zeros, LF.
pub fn connect_line(port: u32) -> ConnectText
    ensures bytes { result ≡ connect_text port }
    ensures line { IsConnectLine result port }

    // A `ConnectLine` that is fed the text answers the port at its last byte, and More before.
    ensures back { connect_answers result ≡ port_at_end result port }
{
    let mut text = ArrayString::new();
    text.push_str("CONNECT ");
    text.push_str(Buffer::new().format(port));
    text.push('\n');
    Text::new(text)
}

/// A reader of a CONNECT line, which is fed the line's bytes. Its value is the bytes that it was fed, up to the one that
/// decided the line.
#[derive(Drop)]
pub struct ConnectLine {
    bytes: ArrayVec<u8, CONNECT_MAX>,
}

impl Model for ConnectLine {
    ghost use Rattle.std.specs.Prelude.{List, ℕ};

    ghost Value = { List ℕ };

    ghost view = { λ line. line.bytes.items };
}

impl ConnectLine {
    /// A reader that was fed nothing.
    pub fn new() -> ConnectLine
        ensures { result ≡ [] }
    {
        ConnectLine {
            bytes: ArrayVec::new(),
        }
    }

    /// Takes the next byte. The answer is More until an LF or the `CONNECT_MAX`th byte; there it is the port if the bytes
    /// are a CONNECT line, and else Bad. From then on a byte changes nothing, and the answer stays the same.
    pub fn feed(&mut self, byte: u8) -> Step
        ensures fed { self.new ≡ fed CONNECT_MAX self.old byte }
        ensures more { (result ≡ Step.More) ↔ (is_decided CONNECT_MAX self.new ≡ false) }
        ensures port { (port : ℕ) → (result ≡ Step.Port port) ↔ IsConnectLine self.new port }
        ensures step { result ≡ connect_step self.new }
    {
        feed(&mut self.bytes, byte);
        connect_step(self.bytes.as_slice())
    }
}

/// The answer of a reader that was fed these bytes.
fn connect_step(line: &[u8]) -> Step
    ensures { result ≡ connect_step line.now }
{
    if is_decided(line, CONNECT_MAX) {
        Step::of_port(word_port(b"CONNECT", line))
    } else {
        Step::More
    }
}

/// The port of a line that begins with a word, in any case, read from the left.
fn word_port(word: &[u8], line: &[u8]) -> Option<u32>
    ensures { result ≡ word_port word.now line.now }
{
    let (letters, rest) = line.split_at_checked(word.len())?;
    if !letters.eq_ignore_ascii_case(word) || rest.first() != Some(&SPACE) {
        return None;
    }
    let (number, end) = split_digits(without_leading_spaces(rest));
    if is_line_end(without_leading_spaces(end)) {
        port_in(number)
    } else {
        None
    }
}

/// Whether bytes may end a line: at most one CR, and LF.
fn is_line_end(end: &[u8]) -> bool
    ensures { result ≡ is_line_end end.now }
{
    matches!(end, [LF] | [CR, LF])
}
