//! A hostile guest and the streams of others: laws over every list of lines of its script (Virtio 1.2, section 5.10.6; Firecracker's vsock
//! documentation).
#![tactic(auto)]

pub mod laws;
