//! Takes chains from a queue in a guest's memory.
ghost use Rattle.std.specs.Prelude.{◌≡◌, ◌+◌, ◌-◌, ◌*◌, ◌<◌, ◌≤◌, ◌^◌, List, IsTrue, length, vec_capacity, not, [], ◌∷◌};
ghost use Rattle.byteorder.specs.Endian.{little_number};
ghost use Rattle.vs_guest_mem.specs.Memory.{Memory, after_access, bytes_at, is_inside};
ghost use Rattle.vs_layout.specs.{Entry.desc_of, Layout.AreInside};
ghost use Rattle.vs_ring_plain.specs.{Accesses.Accesses, Accesses.Done, Accesses.over, Chain.Chain, Chain.Taken, Chain.checked};
ghost use Rattle.vs_ring_plain.specs.Chain.{in_queue, in_table, piece_faults, table_faults, too_small, taking, total_len, unless};

use crate::piece::Piece;
use byteorder::{ByteOrder, LittleEndian};
use vs_guest_mem::PlainMem;
use vs_header::HEADER_LEN;
use vs_layout::{Areas, DESC_LEN, Desc, INDIRECT, NEXT, WRITE};
use vs_ring_port::{Failure, Queue};

/// A queue in a guest's memory.
#[derive(Clone, Copy, Debug, PartialEq, Eq)]
pub struct PlainQueue {
    pub queue: Queue,
    /// How many places it has.
    pub n: u16,
    /// Where it lies.
    pub areas: Areas,
    /// Whether indirect descriptors were agreed on.
    pub indirect: bool,
}

ghost use Rattle.vs_ring_plain.specs.Take.{comes_to, ring_in, taken_of, whole};

/// Takes the next chain of a queue from which `taken` chains were taken, modulo 2^16 (Virtio 1.2, section 2.7). The answer is the number
/// of its first descriptor, with its pieces in `pieces`, which has room for n; or none where no chain is given; or the first rule that
/// the driver broke. Each thing is read once, and nothing outside the memory. Takes no memory.
pub fn take_chain(
    mem: &mut PlainMem,
    queue: &PlainQueue,
    taken: u16,
    pieces: &mut Vec<Piece>,
) -> Result<Option<u16>, Failure>
    requires inside { AreInside queue.now.areas queue.now.n (whole mem.old) }
    requires room { queue.now.n ≤ vec_capacity pieces.old }
    ensures exact { over (taking (ring_in queue.now mem.old) taken) mem.old ≡ (taken_of result pieces.new.items, mem.new) }
    ensures base { mem.new.base ≡ mem.old.base }
    ensures size { length mem.new.bytes ≡ length mem.old.bytes }
    ensures few { length pieces.new.items ≤ queue.now.n }
    ensures capacity { vec_capacity pieces.new ≡ vec_capacity pieces.old }
{
    let _fits = mem.size();
    pieces.clear();
    let idx = load_u16(mem, queue.areas.avail_idx_at());
    let ahead = idx.wrapping_sub(taken);
    if ahead > queue.n {
        return Err(Failure::AvailJump { taken, idx });
    }
    if ahead == 0 {
        return Ok(None);
    }
    let head = load_u16(mem, queue.areas.avail_entry_at(taken % queue.n));
    if head >= queue.n {
        return Err(Failure::HeadRange { head, n: queue.n });
    }
    walk_queue(mem, queue, head, pieces)?;
    close_chain(queue.queue, head, pieces)
}

// The chain of these pieces, where it is long enough.
fn close_chain(queue: Queue, head: u16, pieces: &[Piece]) -> Result<Option<u16>, Failure>
    requires few { length pieces.now < 2 ^ 16 }
    ensures { (m : Memory) → over (unless (too_small queue (total_len pieces.now) ∷ []) (Done (Chain head pieces.now))) m
        ≡ (taken_of result pieces.now, m) }
{
    check_size(queue, total_len(pieces))?;
    Ok(Some(head))
}

// The bytes of a chain's pieces.
pub(crate) fn total_len(pieces: &[Piece]) -> u64
    requires few { length pieces.now < 2 ^ 16 }
    ensures { result ≡ total_len pieces.now }
{
    let mut total = 0;
    for piece in pieces {
        total += piece.len as u64;
    }
    total
}

// A number of 2 bytes.
pub(crate) fn load_u16(mem: &mut PlainMem, addr: u64) -> u16
    requires inside { IsTrue (is_inside mem.old addr 2) }
    ensures value { result ≡ little_number 2 (bytes_at mem.new addr 2) }
    ensures memory { mem.new ≡ after_access mem.old }
    ensures size { length mem.new.bytes ≡ length mem.old.bytes }
{
    let mut bytes = [0; 2];
    mem.load(addr, &mut bytes);
    LittleEndian::read_u16(&bytes)
}

// A descriptor.
fn load_desc(mem: &mut PlainMem, addr: u64) -> Desc
    requires inside { IsTrue (is_inside mem.old addr 16) }
    ensures value { result ≡ desc_of (bytes_at mem.new addr 16) }
    ensures memory { mem.new ≡ after_access mem.old }
    ensures size { length mem.new.bytes ≡ length mem.old.bytes }
{
    let mut bytes = [0; 16];
    mem.load(addr, &mut bytes);
    Desc::decode(&bytes)
}

// Checks a descriptor that is a piece of the chain.
fn check_piece(mem: &PlainMem, queue: &PlainQueue, number: u16, desc: &Desc) -> Result<(), Failure>
    ensures { result ≡ checked (piece_faults (ring_in queue.now mem.now) number desc.now) }
{
    let writable = desc.flags & WRITE != 0;
    match queue.queue {
        Queue::Tx if writable => return Err(Failure::TxWritable { number }),
        Queue::Rx | Queue::Event if !writable => return Err(Failure::RxReadable { number }),
        _ => {}
    }
    check_inside(mem, desc)
}

// Checks that each byte that a descriptor names lies inside the memory.
fn check_inside(mem: &PlainMem, desc: &Desc) -> Result<(), Failure>
    ensures { result ≡ checked ((not (is_inside mem.now desc.now.addr desc.now.len), Failure.AddrRange desc.now.addr desc.now.len) ∷ []) }
{
    let (addr, len) = (desc.addr, desc.len as u64);
    if mem.is_inside(addr, len) {
        Ok(())
    } else {
        Err(Failure::AddrRange { addr, len })
    }
}

// Checks a descriptor that refers to a table.
fn check_table(mem: &PlainMem, queue: &PlainQueue, number: u16, desc: &Desc) -> Result<(), Failure>
    ensures { result ≡ checked (table_faults (ring_in queue.now mem.now) number desc.now) }
{
    if !queue.indirect {
        return Err(Failure::Indirect { number });
    }
    check_inside(mem, desc)?;
    if desc.flags & NEXT != 0 {
        return Err(Failure::IndirectNext { number });
    }
    if desc.len == 0 || desc.len % 16 != 0 {
        return Err(Failure::IndirectLen { len: desc.len });
    }
    Ok(())
}

// Checks that a chain is long enough for what its queue carries.
fn check_size(queue: Queue, total: u64) -> Result<(), Failure>
    ensures { result ≡ checked (too_small queue total ∷ []) }
{
    match queue {
        Queue::Tx if total < HEADER_LEN as u64 => Err(Failure::TxShort { readable: total }),
        Queue::Rx if total < HEADER_LEN as u64 + 1 => Err(Failure::RxSmall { writable: total }),
        Queue::Event if total < 4 => Err(Failure::EventSmall { writable: total }),
        _ => Ok(()),
    }
}

// Reads the descriptors of a table to the chain's end.
fn walk_table(
    mem: &mut PlainMem,
    queue: &PlainQueue,
    at: u64,
    entries: u32,
    pieces: &mut Vec<Piece>,
) -> Result<(), Failure>
    requires inside { IsTrue (is_inside mem.old at (16 * entries)) }
    requires size { mem.old.base + length mem.old.bytes < 2 ^ 64 }
    requires room { (length pieces.old.items ≤ queue.now.n) × (queue.now.n ≤ vec_capacity pieces.old) }
    ensures exact { (ends : List Piece → Accesses Taken)
        → over (in_table (ring_in queue.now mem.old) at entries (queue.now.n - length pieces.old.items) 0 pieces.old.items ends) mem.old
        ≡ comes_to ends result pieces.new.items mem.new }
    ensures base { mem.new.base ≡ mem.old.base }
    ensures size { length mem.new.bytes ≡ length mem.old.bytes }
    ensures few { length pieces.new.items ≤ queue.now.n }
    ensures capacity { vec_capacity pieces.new ≡ vec_capacity pieces.old }
{
    let mut number = 0;
    'walk: while pieces.len() < queue.n as usize {
        if number as u32 >= entries {
            return Err(Failure::NextRange {
                next: number,
                n: entries as u16,
            });
        }
        let desc = load_desc(mem, at + DESC_LEN as u64 * number as u64);
        if desc.flags & INDIRECT != 0 {
            return Err(Failure::IndirectNested { number });
        }
        check_piece(mem, queue, number, &desc)?;
        pieces.push_reserved(Piece {
            addr: desc.addr,
            len: desc.len,
        });
        if desc.flags & NEXT == 0 {
            return Ok(());
        }
        number = desc.next;
    }
    Err(Failure::ChainLong { n: queue.n })
}

// Reads the queue's descriptors from a number on to the chain's end.
fn walk_queue(
    mem: &mut PlainMem,
    queue: &PlainQueue,
    head: u16,
    pieces: &mut Vec<Piece>,
) -> Result<(), Failure>
    requires inside { AreInside queue.now.areas queue.now.n (whole mem.old) }
    requires size { mem.old.base + length mem.old.bytes < 2 ^ 64 }
    requires empty { pieces.old.items ≡ [] }
    requires room { queue.now.n ≤ vec_capacity pieces.old }
    ensures exact { (ends : List Piece → Accesses Taken)
        → over (in_queue (ring_in queue.now mem.old) queue.now.n head [] ends) mem.old ≡ comes_to ends result pieces.new.items mem.new }
    ensures base { mem.new.base ≡ mem.old.base }
    ensures size { length mem.new.bytes ≡ length mem.old.bytes }
    ensures few { length pieces.new.items ≤ queue.now.n }
    ensures capacity { vec_capacity pieces.new ≡ vec_capacity pieces.old }
{
    let mut number = head;
    'walk: while pieces.len() < queue.n as usize {
        if number >= queue.n {
            return Err(Failure::NextRange {
                next: number,
                n: queue.n,
            });
        }
        let desc = load_desc(mem, queue.areas.desc_at(number));
        if desc.flags & INDIRECT != 0 {
            check_table(mem, queue, number, &desc)?;
            return walk_table(mem, queue, desc.addr, desc.len / DESC_LEN as u32, pieces);
        }
        check_piece(mem, queue, number, &desc)?;
        pieces.push_reserved(Piece {
            addr: desc.addr,
            len: desc.len,
        });
        if desc.flags & NEXT == 0 {
            return Ok(());
        }
        number = desc.next;
    }
    Err(Failure::ChainLong { n: queue.n })
}
