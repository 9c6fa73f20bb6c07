//! Tests of runs of apps on threads: calls that are held up until another thread went on, one connection and many, short queues, and a host
//! that doesn't start.
#![tactic(auto)]

#[cfg(test)]
mod gates;
#[cfg(test)]
mod running;
#[cfg(test)]
mod runs;
