//! The lines with a number that a client writes.
ghost use Rattle.std.specs.Prelude.{◌≡◌};
ghost use Rattle.vs_peer.specs.Text.{port_text, waited_text};

use arrayvec::ArrayString;
use itoa::Buffer;

/// Room for `port ` or `waited `, ten digits and LF.
pub const LINE_MAX: usize = 18;

/// The line that tells the host's port of the connection.
pub fn port_line(port: u32) -> ArrayString<LINE_MAX>
    ensures { result.bytes ≡ port_text port }
{
    let mut text = ArrayString::new();
    text.push_str("port ");
    text.push_str(Buffer::new().format(port));
    text.push('\n');
    text
}

/// The line that tells for how many steps in a row nothing moved.
pub fn waited_line(steps: u32) -> ArrayString<LINE_MAX>
    ensures { result.bytes ≡ waited_text steps }
{
    let mut text = ArrayString::new();
    text.push_str("waited ");
    text.push_str(Buffer::new().format(steps));
    text.push('\n');
    text
}
