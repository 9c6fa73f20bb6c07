//! The driver and its ring's log: what its calls put and gave, and what it holds, follow from the packets that passed (Virtio 1.2, section
//! 5.10.6).
#![tactic(auto)]

pub mod laws;
pub mod payload;
pub mod told;
pub mod waiting;
