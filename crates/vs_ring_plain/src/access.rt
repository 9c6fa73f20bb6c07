//! What the device does with a chain that it took: reads it, writes into it, returns it.
ghost use Rattle.std.specs.Prelude.{◌≡◌, ◌+◌, ◌<◌, ◌≤◌, All, IsTrue, length, []};
ghost use Rattle.byteorder.specs.Endian.{little_bytes};
ghost use Rattle.vs_guest_mem.specs.Memory.{accessed, after_access, after_write, bytes_at, is_inside};
ghost use Rattle.vs_layout.specs.Layout.{AreInside};
ghost use Rattle.vs_ring_plain.specs.{Accesses.over, Chain.total_len, Pieces.{given, reading, returning, spans, writing}, Take.{ring_in, whole}};

use crate::piece::Piece;
use crate::take::{PlainQueue, load_u16};
use byteorder::{ByteOrder, LittleEndian};
use vs_guest_mem::PlainMem;
use vs_layout::UsedElem;

// Reads the bytes of a chain from place `at` on: one access for each piece that they lie in.
pub(crate) fn read_pieces(mem: &mut PlainMem, pieces: &[Piece], at: u64, out: &mut [u8])
    requires inside { All (λ p. IsTrue (is_inside mem.old p.addr p.len)) pieces.now }
    requires in_range { at + length out.old ≤ total_len pieces.now }
    ensures exact { over (reading (spans pieces.now at (length out.old)) []) mem.old ≡ (out.new, mem.new) }
    ensures base { mem.new.base ≡ mem.old.base }
    ensures size { length mem.new.bytes ≡ length mem.old.bytes }
{
    let _fits = mem.size();
    let mut skip = at;
    let mut filled = 0;
    for piece in pieces {
        let from = skip.min(piece.len as u64);
        let count = (piece.len as usize - from as usize).min(out.len() - filled);
        load_part(mem, piece, from, &mut out[filled..filled + count]);
        skip -= from;
        filled += count;
    }
}

// Writes into a chain from place `at` on: one access for each piece that the bytes lie in.
pub(crate) fn write_pieces(mem: &mut PlainMem, pieces: &[Piece], at: u64, bytes: &[u8])
    requires inside { All (λ p. IsTrue (is_inside mem.old p.addr p.len)) pieces.now }
    requires in_range { at + length bytes.now ≤ total_len pieces.now }
    ensures exact { over (writing (spans pieces.now at (length bytes.now)) bytes.now) mem.old ≡ (tt, mem.new) }
    ensures base { mem.new.base ≡ mem.old.base }
    ensures size { length mem.new.bytes ≡ length mem.old.bytes }
{
    let _fits = mem.size();
    let mut skip = at;
    let mut written = 0;
    for piece in pieces {
        let from = skip.min(piece.len as u64);
        let count = (piece.len as usize - from as usize).min(bytes.len() - written);
        store_part(mem, piece, from, &bytes[written..written + count]);
        skip -= from;
        written += count;
    }
}

// Reads a part of a piece, none where it is empty.
fn load_part(mem: &mut PlainMem, piece: &Piece, from: u64, out: &mut [u8])
    requires inside { IsTrue (is_inside mem.old piece.now.addr piece.now.len) }
    requires in_range { from + length out.old ≤ piece.now.len }
    ensures bytes { out.new ≡ bytes_at mem.new (piece.now.addr + from) (length out.old) }
    ensures memory { mem.new ≡ accessed mem.old (length out.old) }
    ensures size { length mem.new.bytes ≡ length mem.old.bytes }
{
    let _fits = mem.size();
    if !out.is_empty() {
        mem.load(piece.addr + from, out);
    }
}

// Writes a part of a piece, none where it is empty.
fn store_part(mem: &mut PlainMem, piece: &Piece, from: u64, bytes: &[u8])
    requires inside { IsTrue (is_inside mem.old piece.now.addr piece.now.len) }
    requires in_range { from + length bytes.now ≤ piece.now.len }
    ensures memory { mem.new ≡ after_write (accessed mem.old (length bytes.now)) (piece.now.addr + from) bytes.now }
    ensures size { length mem.new.bytes ≡ length mem.old.bytes }
{
    let _fits = mem.size();
    if !bytes.is_empty() {
        mem.store(piece.addr + from, bytes);
    }
}

// Returns a chain of which `used` were returned before: the used element, then the index of the used ring, one access each.
pub(crate) fn return_chain(mem: &mut PlainMem, queue: &PlainQueue, used: u16, head: u16, len: u32)
    requires inside { AreInside queue.now.areas queue.now.n (whole mem.old) }
    requires nonempty { 0 < queue.now.n }
    ensures exact { over (returning (ring_in queue.now mem.old) used head len) mem.old ≡ (tt, mem.new) }
    ensures base { mem.new.base ≡ mem.old.base }
    ensures size { length mem.new.bytes ≡ length mem.old.bytes }
{
    let _fits = mem.size();
    let element = UsedElem {
        id: head as u32,
        len,
    };
    let place = used % queue.n;
    mem.store(queue.areas.used_elem_at(place), &element.encode());
    store_u16(mem, queue.areas.used_idx_at(), used.wrapping_add(1));
}

// Writes a number of 2 bytes.
fn store_u16(mem: &mut PlainMem, addr: u64, number: u16)
    requires inside { IsTrue (is_inside mem.old addr 2) }
    ensures memory { mem.new ≡ after_write (after_access mem.old) addr (little_bytes 2 number) }
    ensures size { length mem.new.bytes ≡ length mem.old.bytes }
{
    let mut bytes = [0; 2];
    LittleEndian::write_u16(&mut bytes, number);
    mem.store(addr, &bytes);
}

// How many chains are given and not returned, where `used` were returned.
pub(crate) fn count_given(mem: &mut PlainMem, queue: &PlainQueue, used: u16) -> u16
    requires inside { AreInside queue.now.areas queue.now.n (whole mem.old) }
    ensures exact { over (given (ring_in queue.now mem.old) used) mem.old ≡ (result, mem.new) }
    ensures within { result ≤ queue.now.n }
    ensures base { mem.new.base ≡ mem.old.base }
    ensures size { length mem.new.bytes ≡ length mem.old.bytes }
{
    let _fits = mem.size();
    let idx = load_u16(mem, queue.areas.avail_idx_at());
    idx.wrapping_sub(used).min(queue.n)
}
