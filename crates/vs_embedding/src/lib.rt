//! A skeleton of a monitor that embeds the device: its own virtqueues as a `DeviceRing`, a host of its own as a `HostNet`, and the loop
//! around the proxy's turns. docs/EMBEDDING.md goes through it.
#![tactic(auto)]

pub mod collector;
pub mod monitor;
pub mod queues;
#[cfg(test)]
mod tests;

pub use collector::Collector;
pub use monitor::{Monitor, NewError, Served};
pub use queues::{MonitorRing, Popped, Virtqueues};
