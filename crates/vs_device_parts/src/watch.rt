//! What is known of all connections at once, so that a stage looks at them only where it may do something on one of them.

ghost use Rattle.std.specs.Prelude.{◌≡◌, ◌≤◌, ◌<◌, ℕ, false, true};
ghost use Rattle.vs_device_parts.specs.{State.DeviceConnection, Watched.IsWatched};

use crate::connection::Connection;

/// What is known of all connections at once.
#[derive(Clone, Copy)]
pub struct Watch {
    /// No connection waits too long before this moment.
    pub due: u64,
    /// A connection may have bytes for its stream, or its write side may be to be shut.
    pub writes: bool,
    /// A connection may owe a packet.
    pub owes: bool,
}

impl Watch {
    /// What is known where there are no connections.
    pub fn new() -> Watch
        ensures writes { result.writes ≡ false }
    {
        Watch {
            due: u64::MAX,
            writes: false,
            owes: false,
        }
    }

    /// What is known with one more connection, or with one that has changed.
    pub fn note(&mut self, connection: &Connection)
        ensures watched { IsWatched self.new connection.now }
        ensures others { (c : DeviceConnection) → IsWatched self.old c → IsWatched self.new c }
    {
        self.due = self.due.min(connection.due());
        self.writes = self.writes || connection.has_to_write();
        self.owes = self.owes || connection.owes().is_some();
    }
}
