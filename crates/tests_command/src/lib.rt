//! Tests of the command and of its client over real sockets: plays over each kind of rings, what waits, sources and sinks that fail.
#![tactic(auto)]

#[cfg(test)]
mod again;
#[cfg(test)]
mod client;
#[cfg(test)]
mod peer;
#[cfg(test)]
mod real;
#[cfg(test)]
mod rings;
#[cfg(test)]
mod run;
#[cfg(test)]
mod running;
#[cfg(test)]
mod waits;
