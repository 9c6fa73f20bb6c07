//! The device over any ring and any host: what its conversations keep, which of the host's streams they name, and how what its calls put,
//! what it holds, and what the streams took and gave follow from the packets of its ring's log (Virtio 1.2, section 5.10.6).
#![tactic(auto)]

pub mod laws;
pub mod stages;
pub mod streams;
pub mod told;
