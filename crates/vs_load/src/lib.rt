//! A load: apps on threads that exchange bytes with a host which gives back what it is given.
#![tactic(auto)]

pub mod load;
