//! The command `vsock`: its words, the script that it reads, and the status that it ends with.
#![tactic(auto)]

mod ending;
mod hostile;
mod load;
mod play;
mod run;
mod top;

pub use crate::ending::{host_fault, no_memory};
pub use crate::top::vsock_main;
