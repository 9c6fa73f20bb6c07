//! Tests of the parts that driver, device and command stand on: that the calls succeed where there is memory, and values from outside.
#![tactic(auto)]

#[cfg(test)]
mod buffer;
#[cfg(test)]
mod conn;
#[cfg(test)]
mod echo;
#[cfg(test)]
mod event;
#[cfg(test)]
mod flow;
#[cfg(test)]
mod guest_mem;
#[cfg(test)]
mod header;
#[cfg(test)]
mod page;
#[cfg(test)]
mod replies;
#[cfg(test)]
mod script;
#[cfg(test)]
mod uds;
