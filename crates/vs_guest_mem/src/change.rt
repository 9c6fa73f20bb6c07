//! Writes that somebody else makes before one of a device's accesses.
ghost use Rattle.std.specs.{Prelude.{◌≡◌, ◌-◌, ◌+◌, ◌<◌, IfOk, IsTrue, length, filter, All}, List.retain_mut};
ghost use Rattle.vs_guest_mem.specs.Memory.{Change, after_changes, is_due, is_later, is_within, nearer, overwritten};

use std::alloc::{AllocError, Global};
use std::marker::Model;

/// A write that is to be made before an access to come.
#[derive(Drop)]
pub struct PlannedWrite {
    // Which access from now on: 1 is the next one.
    nth: u64,
    addr: u64,
    bytes: Vec<u8>,
}

impl Model for PlannedWrite {
    ghost use Rattle.vs_guest_mem.specs.Memory.{Change};

    ghost Value = { Change };

    ghost view = { λ w. record { nth = w.nth; addr = w.addr; bytes = w.bytes.items } };
}

impl PlannedWrite {
    /// A write of bytes that is made before the nth access from now on.
    pub fn new(alloc: Global, nth: u64, addr: u64, bytes: &[u8]) -> Result<PlannedWrite, AllocError>
        ensures { IfOk result (λ c. c ≡ record { nth = nth; addr = addr; bytes = bytes.now }) }
    {
        Ok(PlannedWrite {
            nth,
            addr,
            bytes: Vec::from_slice(alloc, bytes)?,
        })
    }
}

/// Writes bytes over those at an address, in memory that begins at `base`.
pub fn overwrite(memory: &mut [u8], base: u64, addr: u64, bytes: &[u8])
    requires inside { IsTrue (is_within base (length memory.old) addr (length bytes.now)) }
    ensures { memory.new ≡ overwritten memory.old (addr - base) bytes.now }
{
    if !bytes.is_empty() {
        let at = (addr - base) as usize;
        memory[at..at + bytes.len()].copy_from_slice(bytes);
    }
}

/// Makes the changes that are due before the next access, in their order.
pub fn make_due(memory: &mut [u8], base: u64, changes: &[PlannedWrite])
    requires inside { All (λ (c : Change). IsTrue (is_within base (length memory.old) c.addr (length c.bytes))) changes.now }
    ensures { memory.new ≡ after_changes base memory.old (filter is_due changes.now) }
{
    for change in changes {
        if change.nth <= 1 {
            overwrite(memory, base, change.addr, &change.bytes);
        }
    }
}

/// Drops the changes that were due, and brings the others one access nearer.
pub fn pass(changes: &mut Vec<PlannedWrite>)
    ensures { changes.new.items ≡ retain_mut is_later nearer changes.old.items }
{
    let keep = |change: &mut PlannedWrite| -> bool
        ensures { (result ≡ is_later change.entry.now) × (change.exit.now ≡ nearer change.entry.now) }
    {
        let later = change.nth > 1;
        change.nth = change.nth.saturating_sub(1);
        later
    };
    changes.retain_mut(keep);
}
