//! The device of a host: it takes packets from the guest and puts packets to it, and moves bytes to and from the host's streams
//! (Virtio 1.2, section 5.10.6).
#![tactic(auto)]

mod closing;
mod device;
mod events;
mod grow;
mod receive;
mod shown;
pub mod steps;
mod streams;
mod transmit;
mod turns;

pub use device::Device;
pub use turns::Entries;
pub use vs_device_parts::answers::{Counters, Filled, Grown, Taken};
