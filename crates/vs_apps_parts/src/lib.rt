//! What a run of apps is made of: what each app calls next, how far it is, and the journal of what was called.
#![tactic(auto)]

pub mod journal;
pub mod laws;
pub mod progress;
pub mod told;
