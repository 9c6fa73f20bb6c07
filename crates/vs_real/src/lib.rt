//! The real world outside: Unix sockets, the machine's clock, standard input and output, and the gate that holds nothing up. Nothing here
//! exposes its contents, since what a socket, a terminal or a file holds lies outside of what is proved. Each error is a fault, and is
//! counted.
#![tactic(auto)]

mod again;
mod ahead;
mod clock;
mod gate;
mod host;
mod moves;
mod readiness;
mod sockets;
mod starting;
mod stdio;

pub use crate::clock::MachineClock;
pub use crate::gate::BackoffGate;
pub use crate::host::UnixHost;
pub use crate::moves::Moves;
pub use crate::starting::StartError;
pub use crate::stdio::{ReadSource, WriteSink};
