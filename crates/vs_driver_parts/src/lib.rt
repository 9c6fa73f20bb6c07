//! What the guest's driver of a socket device is made of: its connections in their slots, the ports that it listens on, its pages, and what
//! its calls answer (Virtio 1.2, section 5.10.6).
#![tactic(auto)]

pub mod answers;
pub mod connection;
pub mod gone;
pub mod listeners;
pub mod owing;
pub mod pages;
pub mod route;
pub mod slots;
pub mod tally;
