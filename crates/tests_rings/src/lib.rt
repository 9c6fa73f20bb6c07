//! Tests of shared rings whose ends have a name: threads pass a million pages, and some under a lock, indices wrap, ends meet, and the
//! stores of an index are counted.
#![tactic(auto)]

#[cfg(test)]
mod events;
#[cfg(test)]
mod packets;
#[cfg(test)]
mod stores;
