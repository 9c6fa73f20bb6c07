//! Laws of plays: what holds of the world that a script's lines reach.
#![tactic(auto)]

pub mod examples;
pub mod laws;
