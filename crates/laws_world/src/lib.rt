//! The world of one thread: a driver and a device with its proxy over list rings, a host in memory, and all that may happen between them,
//! step by step (Virtio 1.2, section 5.10.6). Definitions and lemmas alone: `vs_core` has the laws and the program.
#![tactic(auto)]
