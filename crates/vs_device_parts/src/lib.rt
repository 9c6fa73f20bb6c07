//! What the device of a host is made of: its connections in their slots, its calls on ring and host, what its calls answer, and the
//! conversations that they are (Virtio 1.2, section 5.10.6).
#![tactic(auto)]

pub mod answers;
pub mod connection;
pub mod fill;
pub mod host_calls;
pub mod notes;
pub mod packets;
pub mod ring_calls;
pub mod round;
pub mod service;
pub mod slots;
pub mod watch;
