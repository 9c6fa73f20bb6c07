//! What a run of apps keeps: its journal, against its script and the driver's log.
#![tactic(auto)]

pub mod laws;
