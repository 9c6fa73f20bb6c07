//! Tests of the driver alone, and of the world as a program.
#![tactic(auto)]

#[cfg(test)]
mod connect_cid;
#[cfg(test)]
mod counting_ring;
#[cfg(test)]
mod driver;
#[cfg(test)]
mod polls;
#[cfg(test)]
mod world;
