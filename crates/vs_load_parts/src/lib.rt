//! What a load is made of: its apps, and the line that says how many bytes they sent and how many came back.
//!
//! The only error is want of memory.
#![tactic(auto)]

pub mod apps;
pub mod tally;
