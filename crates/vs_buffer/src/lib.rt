//! A bounded queue of bytes: what came in on a connection and was not read yet, or was not written to the host's stream
//! yet (the receive buffer of Virtio 1.2, section 5.10.6.3, whose size is `buf_alloc`); and such a queue that knows where messages end.
#![tactic(auto)]

ghost use Rattle.std.specs.{Prelude.{◌≡◌, ◌+◌, ◌-◌, ◌≤◌, ◌==◌, [], ◌++◌, IfOk, drop, false, length, min, take, true}, Vec.vec_capacity};

pub mod messages;

pub use messages::{Mark, MessageFifo};
use std::alloc::{AllocError, Global};
use std::marker::Model;

/// Where at least so many bytes were taken out, and at least as many as are left, these are moved to the front, so that a queue that is never
/// empty stays in the cache.
const FAR: usize = 16_384;

/// A queue of bytes that holds at most as many as it was made for. All its memory is taken when it is made: twice the bytes that it holds,
/// so that no more bytes are moved than were taken out.
#[derive(Drop)]
pub struct ByteFifo {
    // The bytes lie in one piece, from `start` to `end`; what is outside is left over. They move to the front where no more fit behind them,
    // or many were taken out (`FAR`).
    bytes: Vec<u8>,
    start: usize,
    end: usize,
    capacity: usize,
}

impl Model for ByteFifo {
    ghost use Rattle.std.specs.{Prelude.{drop, take}, Vec.vec_capacity};
    ghost use Rattle.vs_buffer.specs.Fifo.{Fifo, IsSound};

    ghost Value = { Fifo };

    ghost view = { λ f. record { bytes = drop f.start (take f.end f.bytes.items); capacity = f.capacity } };

    ghost invariant = { λ f. IsSound f.bytes.items f.start f.end f.capacity (vec_capacity f.bytes) };
}

impl ByteFifo {
    /// An empty queue for at most `n` bytes, or an error where there is no memory for them.
    pub fn new(alloc: Global, n: usize) -> Result<ByteFifo, AllocError>
        ensures { IfOk result (λ f. f ≡ record { bytes = []; capacity = n }) }
    {
        let places = n.checked_mul(2).ok_or(AllocError)?;
        let bytes = Vec::with_capacity(alloc, places)?;
        Ok(ByteFifo {
            bytes,
            start: 0,
            end: 0,
            capacity: n,
        })
    }

    /// Appends bytes, for which there has to be room.
    pub fn put(&mut self, bytes: &[u8])
        requires { length self.old.bytes + length bytes.now ≤ self.old.capacity }
        ensures { self.new ≡ record self.old { bytes = self.old.bytes ++ bytes.now } }
    {
        if is_to_move(self.start, self.end, self.bytes.capacity(), bytes.len()) {
            move_to_front(&mut self.bytes, self.start, self.end);
            self.end -= self.start;
            self.start = 0;
        }
        put_behind(&mut self.bytes, self.end, bytes);
        self.end += bytes.len();
    }

    /// All bytes, the oldest first.
    pub fn as_slice(&self) -> &[u8]
        ensures { result.now ≡ self.now.bytes }
    {
        &self.bytes[self.start..self.end]
    }

    /// Copies the oldest bytes to the front of `out`, as many as it holds, and returns how many. The rest of `out` stays.
    pub fn copy_front(&self, out: &mut [u8]) -> usize
        ensures count { result ≡ min (length out.old) (length self.now.bytes) }
        ensures copied { out.new ≡ take result self.now.bytes ++ drop result out.old }
    {
        let count = out.len().min(self.len());
        out[..count].copy_from_slice(&self.as_slice()[..count]);
        count
    }

    /// Drops the oldest `n` bytes. At least as many have to be there.
    pub fn drop_front(&mut self, n: usize)
        requires { n ≤ length self.old.bytes }
        ensures { self.new ≡ record self.old { bytes = drop n self.old.bytes } }
    {
        self.start += n;
        if self.start == self.end {
            self.clear();
        }
    }

    /// Moves the oldest bytes to the front of `out`, as many as it holds, and returns how many. The rest of `out` stays.
    pub fn take_into(&mut self, out: &mut [u8]) -> usize
        ensures count { result ≡ min (length out.old) (length self.old.bytes) }
        ensures moved { out.new ≡ take result self.old.bytes ++ drop result out.old }
        ensures left { self.new ≡ record self.old { bytes = drop result self.old.bytes } }
    {
        let count = self.copy_front(out);
        self.drop_front(count);
        count
    }

    /// How many bytes there are.
    pub fn len(&self) -> usize
        ensures exact { result ≡ length self.now.bytes }
        ensures within { result ≤ self.now.capacity }
    {
        self.end - self.start
    }

    /// Whether there is no byte.
    pub fn is_empty(&self) -> bool
        ensures { result ≡ (length self.now.bytes == 0) }
    {
        self.len() == 0
    }

    /// How many more bytes fit.
    pub fn room(&self) -> usize
        ensures exact { result ≡ self.now.capacity - length self.now.bytes }
        ensures within { length self.now.bytes + result ≡ self.now.capacity }
    {
        self.capacity - self.len()
    }

    /// Drops all bytes.
    pub fn clear(&mut self)
        ensures { self.new ≡ record self.old { bytes = [] } }
    {
        self.start = 0;
        self.end = 0;
    }
}

// Whether the bytes from `start` to `end` are to be moved to the front before `more` come behind them, where there are so many places.
fn is_to_move(start: usize, end: usize, places: usize, more: usize) -> bool
    requires part { (start ≤ end) × (end ≤ places) }
    requires half { (end + more) + (end + more) ≤ (start + start) + places }
    ensures moves { result ≡ true → end ≤ start + start }
    ensures stays { result ≡ false → end + more ≤ places }
{
    let went_far = start >= FAR && start >= end - start;
    went_far || places - end < more
}

// Copies the bytes from `start` to `end` to the front, where they fit before `start`.
fn move_to_front(bytes: &mut [u8], start: usize, end: usize)
    requires part { (start ≤ end) × (end ≤ length bytes.old) }
    requires fits { end ≤ start + start }
    ensures length { length bytes.new ≡ length bytes.old }
    ensures moved { take (end - start) bytes.new ≡ drop start (take end bytes.old) }
{
    let count = end - start;
    let (front, back) = bytes.split_at_mut(start);
    front[..count].copy_from_slice(&back[..count]);
}

// Puts bytes behind the first `end` ones, in place of what is left over there. There has to be memory for them.
fn put_behind(bytes: &mut Vec<u8>, end: usize, more: &[u8])
    requires held { end ≤ length bytes.old.items }
    requires room { end + length more.now ≤ vec_capacity bytes.old }
    ensures put { take (end + length more.now) bytes.new.items ≡ take end bytes.old.items ++ more.now }
    ensures length { end + length more.now ≤ length bytes.new.items }
    ensures capacity { vec_capacity bytes.old ≤ vec_capacity bytes.new }
{
    let over = more.len().min(bytes.len() - end);
    bytes[end..end + over].copy_from_slice(&more[..over]);
    bytes.extend_from_slice(&more[over..]).unwrap();
}
