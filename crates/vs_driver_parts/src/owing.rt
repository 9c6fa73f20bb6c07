//! Which of the driver's connections may owe a packet, so that a poll looks at no other.

ghost use Rattle.std.specs.Prelude.{◌≡◌, ◌≤◌, false, length, true, ℕ};
ghost use Rattle.vs_driver_parts.specs.{Owing.{AreNoted, IsNoted, may_owe_in}, declared.owing.Owing.TheVariants.One};
ghost use Rattle.vs_limits.specs.declared.TheConstants.{DRIVER_CONNECTIONS};

use crate::connection::Connection;
use vs_flow::{FlowTable, Slot};

/// Which connections may owe a packet: each that owes one is among them.
#[derive(Clone, Copy)]
pub enum Owing {
    /// No connection may.
    Nobody,
    /// Only the connection in this slot may.
    One {
        /// The slot.
        slot: Slot,
    },
    /// Any connection may.
    Several,
}

impl Owing {
    /// Whether the connection in a slot may owe a packet.
    #[inline(always)]
    pub(crate) fn may_owe_in(self, slot: Slot) -> bool
        ensures { result ≡ may_owe_in self slot }
    {
        match self {
            Owing::Nobody => false,
            Owing::One { slot: other } => other == slot,
            Owing::Several => true,
        }
    }
}

/// Which connections may owe a packet, once the connection in a slot has changed.
pub(crate) fn noted(owes: Owing, slot: Slot, connection: &Connection) -> Owing
    ensures { IsNoted owes result slot connection.now }
{
    if connection.owes().is_none() {
        return owes;
    }
    with_slot(owes, slot)
}

// The connection in a slot may owe a packet, and so may those that were noted.
fn with_slot(owes: Owing, slot: Slot) -> Owing
    ensures still { (k : ℕ) → may_owe_in result k ≡ false → may_owe_in owes k ≡ false }
    ensures there { may_owe_in result slot ≡ true }
{
    match owes {
        Owing::One { slot: other } if other == slot => owes,
        Owing::Nobody => Owing::One { slot },
        _ => Owing::Several,
    }
}

/// Which connections may owe a packet, with one more connection, in any slot.
pub(crate) fn noted_new(owes: Owing, connection: &Connection) -> Owing
    ensures { (slot : ℕ) → IsNoted owes result slot connection.now }
{
    if connection.owes().is_none() {
        return owes;
    }
    Owing::Several
}

/// Which connections of a table may owe a packet, once those were looked at that may have owed one.
pub(crate) fn looked_at(owes: Owing, table: &FlowTable<Connection>) -> Owing
    requires few { length table.now.entries ≤ DRIVER_CONNECTIONS }
    requires noted { AreNoted owes table.now }
    ensures { AreNoted result table.now }
{
    match owes {
        Owing::Nobody => Owing::Nobody,
        Owing::One { slot } => looked_at_in(slot, table),
        Owing::Several => looked_at_all(table),
    }
}

// The same, where only the connection in a slot may have owed one.
fn looked_at_in(slot: Slot, table: &FlowTable<Connection>) -> Owing
    requires noted { AreNoted (One slot) table.now }
    ensures { AreNoted result table.now }
{
    match table.get(slot) {
        Some(connection) => noted(Owing::Nobody, slot, connection),
        None => Owing::Nobody,
    }
}

// The same, where any connection may have owed one.
fn looked_at_all(table: &FlowTable<Connection>) -> Owing
    requires few { length table.now.entries ≤ DRIVER_CONNECTIONS }
    ensures { AreNoted result table.now }
{
    let mut owes = Owing::Nobody;
    let mut place = 0;
    while let Some(entry) = table.at(place) {
        owes = noted(owes, entry.slot, &entry.value);
        place += 1;
    }
    owes
}
