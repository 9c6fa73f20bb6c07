//! A hostile guest: it writes into the memory of the device's rings as it likes, also while the device reads, and the device and
//! the host's streams stay in order.
#![tactic(auto)]

pub mod guest;
pub mod lines;
pub mod rings;
pub mod run;
pub mod status;
pub mod turns;
pub mod whole;
pub mod worked;
pub mod world;

pub use run::{HostileRun, hostile};
