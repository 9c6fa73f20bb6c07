//! Tests of the commands that run apps: what apps do and wait for, clients, full tables, loads, and the machine's sockets.
#![tactic(auto)]

#[cfg(test)]
mod again;
#[cfg(test)]
mod apps;
#[cfg(test)]
mod clients;
#[cfg(test)]
mod full;
#[cfg(test)]
mod gate;
#[cfg(test)]
mod loads;
#[cfg(test)]
mod rows;
#[cfg(test)]
mod running;
#[cfg(test)]
mod sockets;
