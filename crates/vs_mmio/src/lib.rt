//! The virtio-mmio registers of one socket device (Virtio 1.2, sections 2.1, 2.2, 4.2.2 and 5.10.4), as a plain machine: what a
//! driver reads and writes there, and what that tells the device. No call takes memory, and none fails.
#![tactic(auto)]

pub mod laws;
pub mod queue;
pub mod regs;
pub mod status;

pub use queue::{Limits, QueueRegs, ReadyQueue, Virtqueue};
pub use regs::{RegisterState, Regs, Wrote};
pub use status::Status;

#[cfg(test)]
mod tests;
