//! A bounded queue of the bytes that came in on a connection and were not read yet, which of a seqpacket socket knows where messages end
//! (Virtio 1.2, section 5.10.6.6.1).
ghost use Rattle.std.specs.{Prelude.{◌≡◌, ◌+◌, ◌-◌, ◌<◌, ◌≤◌, ◌==◌, if◌then◌else◌, [], ◌++◌, IfOk, IfSome, drop, length, min, take}, Option.option_map_or};
ghost use Rattle.vs_buffer.specs.Messages.{marks_of, first_message, with_last, with_bytes, dropped};

use crate::ByteFifo;
use circular_buffer::HeapCircularBuffer;
use std::alloc::{AllocError, Global};
use std::marker::Model;

/// What ends with a byte.
#[derive(Clone, Copy, Debug, PartialEq, Eq)]
pub enum Mark {
    /// Nothing.
    None,
    /// A message.
    End,
    /// A message, and a record with it.
    Record,
}

/// A queue of bytes that holds at most as many as it was made for; of a seqpacket socket each byte has its mark. All its memory is taken
/// when it is made.
#[derive(Drop)]
pub struct MessageFifo {
    bytes: ByteFifo,
    marks: HeapCircularBuffer<Mark>,
    // Whether bytes have marks: those of a stream have none.
    marked: bool,
}

impl Model for MessageFifo {
    ghost use Rattle.vs_buffer.specs.Messages.{Messages};

    ghost Value = { Messages };

    ghost use Rattle.vs_buffer.specs.MessageFields.{messages_of, IsSound};

    ghost view = { messages_of };

    ghost invariant = { IsSound };
}

impl MessageFifo {
    /// An empty queue for at most `n` bytes, of a seqpacket socket where `marked`, else of a stream.
    pub fn new(alloc: Global, n: usize, marked: bool) -> Result<MessageFifo, AllocError>
        ensures { IfOk result (λ f. f ≡ record { bytes = []; marks = []; marked = marked; capacity = n }) }
    {
        let marks = HeapCircularBuffer::with_capacity(alloc, n)?;
        Ok(MessageFifo {
            bytes: ByteFifo::new(alloc, n)?,
            marks,
            marked,
        })
    }

    /// Appends bytes, for which there has to be room. Where bytes have marks, the last one gets `last`.
    pub fn put(&mut self, bytes: &[u8], last: Mark)
        requires { length self.old.bytes + length bytes.now ≤ self.old.capacity }
        ensures { self.new ≡ with_bytes bytes.now last self.old }
    {
        self.bytes.put(bytes);
        if self.marked {
            put_marks(&mut self.marks, bytes.len(), last);
        }
    }

    /// Gives the newest byte another mark, as a packet without payload does that ends a message. Where bytes have no marks, or none is
    /// there, nothing changes.
    pub fn mark_last(&mut self, mark: Mark)
        ensures { self.new ≡ record self.old { marks = with_last mark self.old.marks } }
    {
        if self.marks.len() > 0 {
            self.marks.pop_back();
            self.marks.push_back(mark);
        }
    }

    /// How many bytes the oldest message has, and whether a record ends with it, or `None` where no message is there as a whole.
    pub fn front_message(&self) -> Option<(usize, bool)>
        ensures message { result ≡ first_message self.now.marks }
        ensures within { IfSome result (λ m. m.0 ≤ length self.now.bytes) }
    {
        first_of(&self.marks)
    }

    /// Drops the oldest message and returns its length, and whether a record ends with it, or `None` where no message is there as a whole.
    pub fn take_message(&mut self) -> Option<(usize, bool)>
        ensures message { result ≡ first_message self.old.marks }
        ensures left { self.new ≡ option_map_or (λ m. dropped m.0 self.old) (first_message self.old.marks) self.old }
    {
        let (len, ends_record) = self.front_message()?;
        self.drop_front(len);
        Some((len, ends_record))
    }

    /// Copies the oldest bytes to the front of `out`, as many as it holds, and returns how many. The rest of `out` stays.
    pub fn copy_front(&self, out: &mut [u8]) -> usize
        ensures count { result ≡ min (length out.old) (length self.now.bytes) }
        ensures copied { out.new ≡ take result self.now.bytes ++ drop result out.old }
    {
        self.bytes.copy_front(out)
    }

    /// Drops the oldest `n` bytes. At least as many have to be there.
    pub fn drop_front(&mut self, n: usize)
        requires { n ≤ length self.old.bytes }
        ensures { self.new ≡ dropped n self.old }
    {
        self.bytes.drop_front(n);
        if self.marked {
            self.marks.truncate_front(self.marks.len() - n);
        }
    }

    /// How many bytes there are.
    pub fn len(&self) -> usize
        ensures exact { result ≡ length self.now.bytes }
        ensures within { result ≤ self.now.capacity }
    {
        self.bytes.len()
    }

    /// How many more bytes fit.
    pub fn room(&self) -> usize
        ensures exact { result ≡ self.now.capacity - length self.now.bytes }
        ensures within { length self.now.bytes + result ≡ self.now.capacity }
    {
        self.bytes.room()
    }

    /// Drops all bytes.
    pub fn clear(&mut self)
        ensures { self.new ≡ record self.old { bytes = []; marks = [] } }
    {
        self.bytes.clear();
        self.marks.clear();
    }
}

// The length of the message that ends first, and whether a record ends with it.
fn first_of(marks: &HeapCircularBuffer<Mark>) -> Option<(usize, bool)>
    ensures { result ≡ first_message marks.now.items }
{
    // The number of marks is what says that `len` doesn't overflow.
    let _count = marks.len();
    let mut len = 0;
    for mark in marks.iter() {
        len += 1;
        match mark {
            Mark::None => {}
            Mark::End => return Some((len, false)),
            Mark::Record => return Some((len, true)),
        }
    }
    None
}

// Appends the marks of `count` bytes, of which the last gets `last`.
fn put_marks(marks: &mut HeapCircularBuffer<Mark>, count: usize, last: Mark)
    requires { length marks.old.items + count ≤ marks.old.capacity }
    ensures { marks.new ≡ record marks.old { items = marks.old.items ++ marks_of count last } }
{
    for place in 0..count {
        marks.push_back(mark_at(place, count, last));
    }
}

// The mark of the byte at a place, of `count` that come together.
fn mark_at(place: usize, count: usize, last: Mark) -> Mark
    requires { place < count }
    ensures { result ≡ (if place + 1 == count then last else Mark.None) }
{
    if place + 1 == count { last } else { Mark::None }
}
