//! The driver's end of standard split rings in a guest's memory (Virtio 1.2, section 2.7): one descriptor for each page.
#![tactic(auto)]

pub mod driver_queue;

pub use driver_queue::DriverQueue;
