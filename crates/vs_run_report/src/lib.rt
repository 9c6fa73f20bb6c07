//! The report of a run of apps, and the line of a load.
//!
//! Each function that makes text appends it, each line with its LF. The only error is want of memory, and then a part of the text may be
//! appended.
#![tactic(auto)]

pub mod connection;
pub mod ending;
pub mod giving;
pub mod laws;
pub mod load;
pub mod report;
pub mod sent;
pub mod sums;
