//! The calls made so far on the two ends of a ring, as a value that stands in proofs alone and takes no byte.
#![tactic(auto)]

pub mod journal;

pub use journal::{Call, Journal};
