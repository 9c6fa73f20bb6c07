//! A run of apps on threads, from its script to both ends at rest, and its report.
#![tactic(auto)]

pub mod beginning;
pub mod device_side;
pub mod reporting;
pub mod running;
pub mod start_name;
pub mod whole;
