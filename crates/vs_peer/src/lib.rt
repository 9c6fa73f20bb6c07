//! A client of the mapping of vsock to Unix sockets (Firecracker's vsock documentation): it connects to the base path, asks for a port of
//! the guest by the line `CONNECT PORT`, and then sends what its source gives and writes what comes back to its sink.
#![tactic(auto)]

mod ask;
mod client;
mod converse;
mod exchange;
mod receive;
mod send;
mod sink;
mod source;
mod stop;
mod stream;
mod text;
mod wait;

pub use crate::client::{
    BAD_SOURCE, DONE, HOST_FAULT, NO_MEMORY, READ_FAULT, REFUSED, SINK_FAULT, WAITED, peer,
};
pub use crate::sink::{SinkFault, emit};
pub use crate::source::{ReadError, SOURCE_MAX, read_source};
