//! The path at which a port of the host is listened on (Firecracker's vsock documentation).
ghost use Rattle.std.specs.Prelude.{◌≡◌, ◌≤◌, length};
ghost use Rattle.vs_uds.specs.Path.{path_of};

use crate::scan::DIGITS_MAX;
use crate::text::Text;
use arrayvec::ArrayString;
use itoa::Buffer;

/// The most bytes that a base path has.
pub const BASE_MAX: usize = 90;

/// Room for a base path of `BASE_MAX` bytes, the `_` and ten digits.
const PATH_MAX: usize = BASE_MAX + 1 + DIGITS_MAX;

/// The text of a listening path.
pub type PathText = Text<PATH_MAX>;

/// The path of the socket at which a host port is listened on: the base path, `_` and the port in decimal. A base
/// path has 1 to `BASE_MAX` bytes.
pub fn listen_path(base: &str, port: u32) -> PathText
    requires { length base.now ≤ BASE_MAX }
    ensures { result ≡ path_of base.now port }
{
    let mut text = ArrayString::new();
    text.push_str(base);
    text.push('_');
    text.push_str(Buffer::new().format(port));
    Text::new(text)
}
