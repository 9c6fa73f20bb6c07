//! A guest's memory as plain bytes, with what others write into it between a device's accesses.
#![tactic(auto)]

mod change;
pub mod mem;

pub use mem::{AddrRange, PlainMem};
