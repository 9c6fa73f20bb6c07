//! The lines of Firecracker's mapping of vsock to Unix sockets (Firecracker's vsock documentation): `CONNECT PORT`, which a
//! client of the host writes first, `OK PORT`, which answers it, and the path of the socket at which a host port is listened on.
//!
//! ```text
//! CONNECT line   CONNECT in any case, one or more spaces, PORT, any number of spaces, at most one CR, LF; at most 32 bytes
//! OK line        OK, one space, PORT, LF; at most 14 bytes
//! PORT           1 to 10 digits, with a value below 2^32; leading zeros are read, and never written
//! path           the base path, `_`, the port without leading zeros
//! ```
//!
//! Lines are read byte by byte, each up to its LF or its last byte, so nothing that follows a line is ever read with it.
//! Nothing here takes memory: what is read and written lies in the values themselves.
#![tactic(auto)]

mod connect;
mod laws;
mod ok;
mod path;
mod scan;
mod text;

pub use crate::connect::{CONNECT_MAX, ConnectLine, ConnectText, connect_line};
pub use crate::laws::{lines_are_read, worked_lines};
pub use crate::ok::{OK_MAX, OkLine, OkText, ok_line};
pub use crate::path::{BASE_MAX, PathText, listen_path};
pub use crate::scan::Step;
pub use crate::text::Text;
