//! The world outside the device: a host's streams, where bytes come from and where they go, the clock and the gate; and forms
//! of each in memory.
#![tactic(auto)]

mod fail_list;
mod host_net;
mod in_out;
pub mod laws;
mod mem_host;
mod mem_io;
mod mem_stream;
mod passed;
mod peer_host;

pub use host_net::{Accepted, Dialed, HostNet, Started, StreamRead, StreamState, StreamWrite};
pub use in_out::{Clock, Gate, Sink, SinkWrite, Source, SourceRead};
pub use mem_host::MemHost;
pub use mem_io::{FreeGate, MemSink, MemSource, StepClock};
pub use mem_stream::{HostWritten, MemStream, PreparedStream};
pub use peer_host::PeerHost;
