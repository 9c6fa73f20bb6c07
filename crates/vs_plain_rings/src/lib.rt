//! Both ends of standard split rings in a guest's memory (Virtio 1.2, section 2.7), on one value.
#![tactic(auto)]

pub mod laws;
pub mod parts;
pub mod plain_rings;

pub use plain_rings::PlainRings;
