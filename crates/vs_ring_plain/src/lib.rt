//! The standard split ring over a guest's memory (Virtio 1.2, section 2.7).
#![tactic(auto)]

mod access;
pub mod device;
pub mod examples;
mod holds;
pub mod laws;
pub mod piece;
pub mod take;
pub mod turns;
