//! The end of a run of apps: rounds until nothing moves.
#![tactic(auto)]

pub mod rounds;
pub mod settling;
