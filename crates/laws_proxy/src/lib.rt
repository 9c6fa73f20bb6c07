//! The proxy over any ring and any host: which of the host's streams it names, what it gives to them, and how what a turn and a reset put,
//! and what the device holds, follow from the packets that passed (Virtio 1.2, section 5.10.6; Firecracker's vsock documentation).
#![tactic(auto)]

pub mod laws;
pub mod payload;
pub mod streams;
pub mod told;
