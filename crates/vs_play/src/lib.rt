//! Plays: a guest's driver, the device with its proxy and a host in memory on one thread, line by line, and what each line prints.
#![tactic(auto)]

mod device;
pub mod examples;
mod guest;
pub mod play;
pub mod run;

pub use play::Play;
