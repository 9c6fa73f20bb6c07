//! What a run of apps reports is right.
#![tactic(auto)]

pub mod complete;
pub mod laws;
