//! What the proxy is made of: the handshakes of the host's clients, its calls on the host, what its calls answer, and the conversations that
//! they are (Firecracker's vsock documentation).
#![tactic(auto)]

pub mod answers;
pub mod handshake;
pub mod handshakes;
pub mod host_calls;
pub mod tally;
