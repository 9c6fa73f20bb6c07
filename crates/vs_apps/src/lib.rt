//! The apps of a run, over a driver and its end of a ring: each call that an app makes, with the entry that notes it, and the steps of apps.
#![tactic(auto)]

pub mod calls;
pub mod guests;
pub mod receiving;
mod resting;
pub mod sending;
pub mod steps;
pub mod threads;
