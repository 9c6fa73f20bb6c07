//! Words that contracts of several crates use: what a ring, a host, a source or a sink exposes of its contents to contracts, and a call as
//! the conversation that it has with a ring or a host.
//!
//! In-memory forms expose their contents; a real socket does not.
//!
//! A trait whose contents may be exposed has a ghost member `contents : Option T`, and a clause on it says `Exposes old new P f`: where the contents were
//! exposed before the call, P holds of them, and the call changes them by f.
#![tactic(auto)]
