//! Plain memory: bytes from an address on, a count of accesses, and changes to come.
ghost use Rattle.std.specs.Prelude.{◌≡◌, ◌==◌, ◌+◌, ◌<◌, ◌≤◌, ◌^◌, ◌++◌, ◌∷◌, [], IsTrue, IfOk, IfErr, OnOk, OnErr, is_ok, length};
ghost use Rattle.vs_guest_mem.specs.Memory.{accessed, after_write, bytes_at, is_inside, is_within, zeroed};

use crate::change::{PlannedWrite, make_due, overwrite, pass};
use std::alloc::{AllocError, Global};
use std::marker::Model;

/// A byte of `len` bytes at the address `addr` lies outside the memory.
#[derive(Clone, Copy, Debug, PartialEq, Eq)]
pub struct AddrRange {
    pub addr: u64,
    pub len: u64,
}

/// Memory of a guest, as a device sees it: bytes from an address on. Somebody else may write into it before any access, as far as
/// such changes were added. An access is one `read` or `write` of at least one byte.
#[derive(Drop)]
pub struct PlainMem {
    base: u64,
    bytes: Vec<u8>,
    accesses: u64,
    changes: Vec<PlannedWrite>,
}

impl Model for PlainMem {
    ghost use Rattle.vs_guest_mem.specs.Memory.{Memory};

    ghost Value = { Memory };

    ghost use Rattle.vs_guest_mem.specs.Plain.{memory_of, HoldsSound};

    ghost view = { memory_of };

    ghost invariant = { HoldsSound };
}

impl PlainMem {
    /// Memory of `size` bytes from the address `base` on, all 0, with no access made and no change to come.
    pub fn new(alloc: Global, base: u64, size: u64) -> Result<PlainMem, AllocError>
        requires fits { base + size < 2 ^ 64 }
        ensures { IfOk result (λ m. m ≡ zeroed base size) }
    {
        Ok(PlainMem {
            base,
            bytes: vec![in alloc; 0; size as usize]?,
            accesses: 0,
            changes: Vec::new(alloc),
        })
    }

    /// The address of the first byte.
    pub fn base(&self) -> u64
        ensures { result ≡ self.now.base }
    {
        self.base
    }

    /// How many bytes there are.
    pub fn size(&self) -> u64
        ensures exact { result ≡ length self.now.bytes }
        ensures fits { self.now.base + result < 2 ^ 64 }
    {
        self.bytes.len() as u64
    }

    /// How many accesses were made, 2^64 - 1 at most.
    pub fn accesses(&self) -> u64
        ensures { result ≡ self.now.accesses }
    {
        self.accesses
    }

    /// Whether no change is to come.
    pub fn is_still(&self) -> bool
        ensures { result ≡ (length self.now.changes == 0) }
    {
        self.changes.is_empty()
    }

    /// Whether each byte of a piece lies inside. A piece of no bytes does wherever it begins.
    pub fn is_inside(&self, addr: u64, len: u64) -> bool
        ensures { result ≡ is_inside self.now addr len }
    {
        is_within(self.base, self.bytes.len() as u64, addr, len)
    }

    /// Reads a piece: one access, or none for an empty piece. `AddrRange` where a byte lies outside; all is as before then.
    pub fn read(&mut self, addr: u64, out: &mut [u8]) -> Result<(), AddrRange>
        ensures ok { is_ok result ≡ is_inside self.old addr (length out.old) }
        ensures bytes { OnOk result (out.new ≡ bytes_at self.new addr (length out.old)) }
        ensures memory { OnOk result (self.new ≡ accessed self.old (length out.old)) }
        ensures size { length self.new.bytes ≡ length self.old.bytes }
        ensures err { IfErr result (λ e. e ≡ record { addr = addr; len = length out.old }) }
        ensures unchanged { OnErr result ((self.new ≡ self.old) × (out.new ≡ out.old)) }
    {
        self.refuse_outside(addr, out.len())?;
        self.load(addr, out);
        Ok(())
    }

    /// Writes a piece: one access, or none for an empty piece. `AddrRange` where a byte lies outside; all is as before then.
    pub fn write(&mut self, addr: u64, bytes: &[u8]) -> Result<(), AddrRange>
        ensures ok { is_ok result ≡ is_inside self.old addr (length bytes.now) }
        ensures memory { OnOk result (self.new ≡ after_write (accessed self.old (length bytes.now)) addr bytes.now) }
        ensures size { length self.new.bytes ≡ length self.old.bytes }
        ensures err { IfErr result (λ e. e ≡ record { addr = addr; len = length bytes.now }) }
        ensures unchanged { OnErr result (self.new ≡ self.old) }
    {
        self.refuse_outside(addr, bytes.len())?;
        self.store(addr, bytes);
        Ok(())
    }

    /// Reads a piece that lies inside: one access, or none for an empty piece.
    pub fn load(&mut self, addr: u64, out: &mut [u8])
        requires inside { IsTrue (is_inside self.old addr (length out.old)) }
        ensures bytes { out.new ≡ bytes_at self.new addr (length out.old) }
        ensures memory { self.new ≡ accessed self.old (length out.old) }
        ensures size { length self.new.bytes ≡ length self.old.bytes }
    {
        self.access(out.len());
        self.copy(addr, out);
    }

    /// Writes a piece that lies inside: one access, or none for an empty piece.
    pub fn store(&mut self, addr: u64, bytes: &[u8])
        requires inside { IsTrue (is_inside self.old addr (length bytes.now)) }
        ensures memory { self.new ≡ after_write (accessed self.old (length bytes.now)) addr bytes.now }
        ensures size { length self.new.bytes ≡ length self.old.bytes }
    {
        self.access(bytes.len());
        self.set(addr, bytes);
    }

    /// Reads a piece without an access. `AddrRange` where a byte lies outside; `out` is as before then.
    pub fn look(&self, addr: u64, out: &mut [u8]) -> Result<(), AddrRange>
        ensures ok { is_ok result ≡ is_inside self.now addr (length out.old) }
        ensures bytes { OnOk result (out.new ≡ bytes_at self.now addr (length out.old)) }
        ensures err { IfErr result (λ e. e ≡ record { addr = addr; len = length out.old }) }
        ensures unchanged { OnErr result (out.new ≡ out.old) }
    {
        self.refuse_outside(addr, out.len())?;
        self.copy(addr, out);
        Ok(())
    }

    /// Writes a piece without an access. `AddrRange` where a byte lies outside; all is as before then.
    pub fn poke(&mut self, addr: u64, bytes: &[u8]) -> Result<(), AddrRange>
        ensures ok { is_ok result ≡ is_inside self.old addr (length bytes.now) }
        ensures memory { OnOk result (self.new ≡ after_write self.old addr bytes.now) }
        ensures size { length self.new.bytes ≡ length self.old.bytes }
        ensures err { IfErr result (λ e. e ≡ record { addr = addr; len = length bytes.now }) }
        ensures unchanged { OnErr result (self.new ≡ self.old) }
    {
        self.refuse_outside(addr, bytes.len())?;
        self.set(addr, bytes);
        Ok(())
    }

    /// Adds a change: bytes that somebody else writes before the nth access from now on, 1 being the next one, behind the
    /// changes that were added before. Takes memory; without it all is as before.
    pub fn change_before(
        &mut self,
        alloc: Global,
        nth: u64,
        addr: u64,
        bytes: &[u8],
    ) -> Result<(), AllocError>
        requires later { 1 ≤ nth }
        requires inside { IsTrue (is_inside self.old addr (length bytes.now)) }
        ensures ok { OnOk result (self.new ≡ record self.old {
          changes = self.old.changes ++ record { nth = nth; addr = addr; bytes = bytes.now } ∷ [];
        }) }
        ensures err { OnErr result (self.new ≡ self.old) }
    {
        let change = PlannedWrite::new(alloc, nth, addr, bytes)?;
        self.changes.push(change)?;
        Ok(())
    }

    // The refusal of a piece that has a byte outside.
    fn refuse_outside(&self, addr: u64, len: usize) -> Result<(), AddrRange>
        ensures ok { is_ok result ≡ is_inside self.now addr len }
        ensures err { IfErr result (λ e. e ≡ record { addr = addr; len = len }) }
    {
        if self.is_inside(addr, len as u64) {
            Ok(())
        } else {
            Err(AddrRange {
                addr,
                len: len as u64,
            })
        }
    }

    // An access to a piece of len bytes, none where it is empty: what is to change before it does.
    fn access(&mut self, len: usize)
        ensures exact { self.new ≡ accessed self.old len }
        ensures size { length self.new.bytes ≡ length self.old.bytes }
    {
        if len != 0 {
            make_due(&mut self.bytes, self.base, &self.changes);
            pass(&mut self.changes);
            self.accesses = self.accesses.saturating_add(1);
        }
    }

    // Copies a piece of the memory.
    fn copy(&self, addr: u64, out: &mut [u8])
        requires inside { IsTrue (is_inside self.now addr (length out.old)) }
        ensures { out.new ≡ bytes_at self.now addr (length out.old) }
    {
        if !out.is_empty() {
            let at = (addr - self.base) as usize;
            out.copy_from_slice(&self.bytes[at..at + out.len()]);
        }
    }

    // Puts a piece into the memory.
    fn set(&mut self, addr: u64, bytes: &[u8])
        requires inside { IsTrue (is_inside self.old addr (length bytes.now)) }
        ensures exact { self.new ≡ after_write self.old addr bytes.now }
        ensures size { length self.new.bytes ≡ length self.old.bytes }
    {
        overwrite(&mut self.bytes, self.base, addr, bytes);
    }
}

// Whether each byte of a piece lies in the `size` bytes from `base` on.
fn is_within(base: u64, size: u64, addr: u64, len: u64) -> bool
    ensures { result ≡ is_within base size addr len }
{
    len == 0 || (base <= addr && len <= size && addr - base <= size - len)
}
