//! Both ends of rings as one value on one thread, over list rings, standard rings and shared rings.
#![tactic(auto)]

pub mod both_ends;
pub mod standard_rings;

pub use both_ends::BothEnds;
pub use standard_rings::StandardRings;
