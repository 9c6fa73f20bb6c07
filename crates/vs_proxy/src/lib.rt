//! The proxy: the device together with the handshakes of the host's clients, and its turn (Firecracker's vsock documentation).
#![tactic(auto)]

mod grow;
mod lines;
mod proxy;
mod shaking;
mod stages;
pub mod steps;
mod turns;

pub use proxy::Proxy;
pub use vs_proxy_parts::answers::{Turn, Turned};
