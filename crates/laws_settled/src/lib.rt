//! Where a run of apps comes to rest.
#![tactic(auto)]

pub mod laws;
