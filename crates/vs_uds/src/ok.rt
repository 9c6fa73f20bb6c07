//! The line `OK PORT`, by which the host answers a client whose connection stands (Firecracker's vsock documentation).
ghost use Rattle.std.specs.Prelude.{◌≡◌, ◌^◌, ◌≤◌, ◌↔◌, ℕ, [], length, false};
ghost use Rattle.vs_uds.specs.{OkLine.{IsOkLine, ok_answers, ok_port, ok_step, ok_text}, Reading.{fed, is_decided, port_at_end}};

use crate::scan::{LF, Step, feed, is_decided, port_in, split_digits};
use crate::text::Text;
use arrayvec::{ArrayString, ArrayVec};
use itoa::Buffer;
use std::marker::Model;

/// The most bytes of an OK line, its LF among them.
pub const OK_MAX: usize = 14;

/// The text of an OK line.
pub type OkText = Text<OK_MAX>;

/// The OK line of a port: `OK `, the port in decimal without leading zeros, LF.
pub fn ok_line(port: u32) -> OkText
    ensures bytes { result ≡ ok_text port }
    ensures line { IsOkLine result port }

    // An `OkLine` that is fed the text answers the port at its last byte, and More before.
    ensures back { ok_answers result ≡ port_at_end result port }

    // A port of ten digits, as each is that the device assigns, fills the text.
    ensures whole { 10 ^ 9 ≤ port → length result ≡ OK_MAX }
{
    let mut text = ArrayString::new();
    text.push_str("OK ");
    text.push_str(Buffer::new().format(port));
    text.push('\n');
    Text::new(text)
}

/// A reader of an OK line, which is fed the line's bytes. Its value is the bytes that it was fed, up to the one that
/// decided the line.
#[derive(Drop)]
pub struct OkLine {
    bytes: ArrayVec<u8, OK_MAX>,
}

impl Model for OkLine {
    ghost use Rattle.std.specs.Prelude.{List, ℕ};

    ghost Value = { List ℕ };

    ghost view = { λ line. line.bytes.items };
}

impl OkLine {
    /// A reader that was fed nothing.
    pub fn new() -> OkLine
        ensures { result ≡ [] }
    {
        OkLine {
            bytes: ArrayVec::new(),
        }
    }

    /// Takes the next byte. The answer is More until an LF or the `OK_MAX`th byte; there it is the port if the bytes are
    /// an OK line, and else Bad. From then on a byte changes nothing, and the answer stays the same.
    pub fn feed(&mut self, byte: u8) -> Step
        ensures fed { self.new ≡ fed OK_MAX self.old byte }
        ensures more { (result ≡ Step.More) ↔ (is_decided OK_MAX self.new ≡ false) }
        ensures port { (port : ℕ) → (result ≡ Step.Port port) ↔ IsOkLine self.new port }
        ensures step { result ≡ ok_step self.new }
    {
        feed(&mut self.bytes, byte);
        ok_step(self.bytes.as_slice())
    }
}

/// The answer of a reader that was fed these bytes.
fn ok_step(line: &[u8]) -> Step
    ensures { result ≡ ok_step line.now }
{
    if is_decided(line, OK_MAX) {
        Step::of_port(ok_port(line))
    } else {
        Step::More
    }
}

/// The port of an OK line, read from the left.
fn ok_port(line: &[u8]) -> Option<u32>
    ensures { result ≡ ok_port line.now }
{
    let (number, end) = split_digits(line.strip_prefix(b"OK ")?);
    if matches!(end, [LF]) {
        port_in(number)
    } else {
        None
    }
}
