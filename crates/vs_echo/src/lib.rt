//! A host in memory whose one program gives back what it is given: it listens on one port, and each stream that is dialled there is an echo.
//!
//! It has no clients, its starts succeed, and of its calls a dial alone can fail, for want of memory.
#![tactic(auto)]

mod echo_host;
mod echo_stream;

pub use echo_host::{EchoHost, law_of_echoes};
pub use echo_stream::{ECHO_ROOM, EchoStream};
