//! The guest's driver of a socket device: it opens and accepts connections, sends and receives on them (Virtio 1.2, section 5.10.6).
#![tactic(auto)]

mod closing;
mod connect;
mod driver;
mod grow;
mod listening;
mod new;
mod pay;
mod poll;
mod receive;
mod recv;
mod ring_pages;
mod send;
pub mod steps;
mod table;
mod take;

pub use driver::Driver;
pub use table::Entries;
pub use vs_driver_parts::answers::{
    Accepted, Closed, ConnId, ConnectError, ConnectionState, Grown, ListenError, NotListening,
    Polled, Received, Sent, Shut,
};
