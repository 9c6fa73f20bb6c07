//! The world of one thread as a program, a driver and a device with its proxy over list rings and a host in memory, one event at a time;
//! and the laws of every list of events (Virtio 1.2, section 5.10.6).
#![tactic(auto)]

mod device_events;
pub mod event;
mod guest_events;
mod host_events;
pub mod laws;
pub mod pipes;
pub mod resets;
pub mod scripts;
mod step;
mod world;

pub use event::{Event, GuestCall, Reply};
pub use step::run;
pub use world::World;
