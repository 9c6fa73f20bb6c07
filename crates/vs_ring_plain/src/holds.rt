//! The chains that the device holds, and their pieces.
ghost use Rattle.std.specs.Prelude.{◌≡◌, ◌<◌, ◌≤◌, ◌^◌, ◌%◌, false, ◌&&◌, ◌==◌, not, count_by, length, position, Contains, IfOk, Some, [], map};
ghost use Rattle.vs_layout.specs.Layout.{AreInside};
ghost use Rattle.vs_ring_port.specs.{Chains.{same_chain, same_queue}, declared.queue.TheConstants.QUEUE_SIZE_MAX};
ghost use Rattle.vs_ring_plain.specs.{Accesses.over, Chain.taking, Device.{chain_at, head_of, hold_of, is_busy, pieces_of, without_hold}, Held.is_busy_with, PieceTable.is_listed};
ghost use Rattle.vs_ring_plain.specs.{PieceTable.{keeping, list_at, pieces_in, with_list}, Take.{ring_in, taken_of, whole}};

use crate::piece::Piece;
use crate::take::{PlainQueue, take_chain, total_len};
use std::alloc::{AllocError, Global};
use std::collections::VecDeque;
use std::marker::Model;
use std::slice;
use vs_guest_mem::PlainMem;
use vs_ring_port::{Chain, Failure, Queue};

/// The pieces of a chain that is held: its only one, or those in its queue's list.
#[derive(Clone, Copy, Debug, PartialEq, Eq)]
enum HeldPieces {
    One(Piece),
    Listed,
}

/// A chain that is held, the number of its first descriptor, and its pieces.
#[derive(Debug, Drop)]
struct Hold {
    chain: Chain,
    head: u16,
    pieces: HeldPieces,
}

impl Hold {
    /// Whether it holds that very chain.
    fn is(&self, chain: &Chain) -> bool
        ensures { result ≡ same_chain chain.now self.now.chain }
    {
        *chain == self.chain
    }

    /// Whether it holds a chain of a queue.
    fn is_of(&self, queue: Queue) -> bool
        ensures { result ≡ same_queue queue self.now.chain.queue }
    {
        queue == self.chain.queue
    }

    /// Whether its pieces are those in the list of this queue.
    fn is_listed_of(&self, queue: Queue) -> bool
        ensures { result ≡ (same_queue queue self.now.chain.queue && is_listed self.now.pieces) }
    {
        self.is_of(queue) && matches!(self.pieces, HeldPieces::Listed)
    }
}

/// For each queue the pieces of its chain that has several. There is room for as many as a queue has descriptors from the start.
#[derive(Debug, Drop)]
struct PieceLists {
    room: u16,
    rx: Vec<Piece>,
    tx: Vec<Piece>,
    event: Vec<Piece>,
}

impl Model for PieceLists {
    ghost use Rattle.std.specs.Prelude.{◌≤◌, vec_capacity};
    ghost use Rattle.vs_ring_plain.specs.PieceTable.{PieceTable};

    ghost Value = { PieceTable };

    ghost view = { λ p. record { room = p.room; rx = p.rx.items; tx = p.tx.items; event = p.event.items } };

    ghost invariant = { λ p. (p.room ≤ vec_capacity p.rx) × (p.room ≤ vec_capacity p.tx) × (p.room ≤ vec_capacity p.event) };
}

impl PieceLists {
    /// No pieces, with room for `room` of each queue.
    fn new(alloc: Global, room: u16) -> Result<PieceLists, AllocError>
        ensures { IfOk result (λ p. p ≡ record { room = room; rx = []; tx = []; event = [] }) }
    {
        Ok(PieceLists {
            room,
            rx: Vec::with_capacity(alloc, room as usize)?,
            tx: Vec::with_capacity(alloc, room as usize)?,
            event: Vec::with_capacity(alloc, room as usize)?,
        })
    }

    /// Those of a queue.
    fn at(&self, queue: Queue) -> &[Piece]
        ensures { result.now ≡ list_at queue self.now }
    {
        match queue {
            Queue::Rx => &self.rx,
            Queue::Tx => &self.tx,
            Queue::Event => &self.event,
        }
    }

    /// Takes the next chain of a queue, with its pieces in that queue's list.
    fn take(
        &mut self,
        mem: &mut PlainMem,
        queue: &PlainQueue,
        taken: u16,
    ) -> Result<Option<u16>, Failure>
        requires inside { AreInside queue.now.areas queue.now.n (whole mem.old) }
        requires room { queue.now.n ≤ self.old.room }
        ensures exact { over (taking (ring_in queue.now mem.old) taken) mem.old
            ≡ (taken_of result (list_at queue.now.queue self.new), mem.new) }
        ensures lists { self.new ≡ with_list queue.now.queue (list_at queue.now.queue self.new) self.old }
        ensures few { length (list_at queue.now.queue self.new) ≤ queue.now.n }
        ensures base { mem.new.base ≡ mem.old.base }
        ensures size { length mem.new.bytes ≡ length mem.old.bytes }
    {
        match queue.queue {
            Queue::Rx => take_chain(mem, queue, taken, &mut self.rx),
            Queue::Tx => take_chain(mem, queue, taken, &mut self.tx),
            Queue::Event => take_chain(mem, queue, taken, &mut self.event),
        }
    }
}

/// The chains held, newest first, with their pieces. Of each queue it holds as many chains as that has places, but only one that has
/// several pieces. All room is taken when it is made.
#[derive(Debug, Drop)]
pub(crate) struct HeldChains {
    size: u16,
    holds: VecDeque<Hold>,
    lists: PieceLists,
}

impl Model for HeldChains {
    ghost use Rattle.vs_ring_plain.specs.PieceTable.{HeldState};

    ghost Value = { HeldState };

    ghost use Rattle.vs_ring_plain.specs.Held.{held_in, KeepsAll};

    ghost view = { held_in };

    ghost invariant = { KeepsAll };
}

impl HeldChains {
    /// No chain held, of queues of `n` places.
    pub(crate) fn new(alloc: Global, n: u16) -> Result<HeldChains, AllocError>
        requires { n ≤ QUEUE_SIZE_MAX }
        ensures { IfOk result (λ h. h ≡ record { size = n; chains = [] }) }
    {
        Ok(HeldChains {
            size: n,
            holds: VecDeque::with_capacity(alloc, 3 * n as usize)?,
            lists: PieceLists::new(alloc, n)?,
        })
    }

    /// Whether no further chain of a queue is taken for now.
    pub(crate) fn is_busy(&self, queue: Queue) -> bool
        ensures { result ≡ is_busy queue self.now.size self.now.chains }
    {
        is_busy_with(&self.holds, queue, self.size)
    }

    /// Takes the next chain of a queue, and holds it.
    pub(crate) fn take(
        &mut self,
        mem: &mut PlainMem,
        queue: &PlainQueue,
        taken: u16,
    ) -> Result<Option<Chain>, Failure>
        requires inside { AreInside queue.now.areas queue.now.n (whole mem.old) }
        requires nonempty { 0 < queue.now.n }
        requires limit { queue.now.n ≤ QUEUE_SIZE_MAX }
        requires same_size { queue.now.n ≡ self.old.size }
        requires free { is_busy queue.now.queue self.old.size self.old.chains ≡ false }
        ensures exact { let found = over (taking (ring_in queue.now mem.old) taken) mem.old in
            keeping queue.now.queue (taken % queue.now.n) found.0 self.old.chains ≡ (result, self.new.chains) }
        ensures memory { mem.new ≡ (over (taking (ring_in queue.now mem.old) taken) mem.old).1 }
        ensures base { mem.new.base ≡ mem.old.base }
        ensures size { length mem.new.bytes ≡ length mem.old.bytes }
        ensures room { self.new.size ≡ self.old.size }
    {
        match self.lists.take(mem, queue, taken) {
            Err(failure) => Err(failure),
            Ok(None) => Ok(None),
            Ok(Some(head)) => {
                let hold = hold_chain(
                    queue.queue,
                    taken % queue.n,
                    head,
                    self.lists.at(queue.queue),
                );
                let chain = hold.chain.twin();
                self.holds.push_front_reserved(hold);
                Ok(Some(chain))
            }
        }
    }

    /// The pieces of a chain.
    pub(crate) fn pieces(&self, chain: &Chain) -> &[Piece]
        requires { Contains (map (λ h. h.chain) self.now.chains) chain.now }
        ensures { result.now ≡ pieces_of (hold_of chain.now self.now.chains) }
    {
        let place = place_of(&self.holds, chain);
        match &self.holds[place].pieces {
            HeldPieces::One(piece) => slice::from_ref(piece),
            HeldPieces::Listed => self.lists.at(chain.queue),
        }
    }

    /// Lets go of a chain, and gives the number of its first descriptor.
    pub(crate) fn release(&mut self, chain: &Chain) -> u16
        requires { Contains (map (λ h. h.chain) self.old.chains) chain.now }
        ensures head { result ≡ head_of (hold_of chain.now self.old.chains) }
        ensures after { self.new ≡ record self.old { chains = without_hold chain.now self.old.chains } }
    {
        let place = place_of(&self.holds, chain);
        let hold = self.holds.remove(place).unwrap();
        hold.head
    }
}

// How many chains of a queue are held.
fn count_of(holds: &VecDeque<Hold>, queue: Queue) -> usize
    ensures { result ≡ count_by (λ h. same_queue queue h.chain.queue) holds.now.items }
{
    holds.iter().filter(|hold| hold.is_of(queue)).count()
}

// How many chains are held whose pieces are those in the list of a queue.
fn count_listed(holds: &VecDeque<Hold>, queue: Queue) -> usize
    ensures { result ≡ count_by (λ h. same_queue queue h.chain.queue && is_listed h.pieces) holds.now.items }
{
    holds.iter().filter(|hold| hold.is_listed_of(queue)).count()
}

// Whether n chains of a queue are held, or one whose pieces are in the list.
fn is_busy_with(holds: &VecDeque<Hold>, queue: Queue, n: u16) -> bool
    ensures { result ≡ is_busy_with queue n holds.now.items }
{
    count_of(holds, queue) >= n as usize || count_listed(holds, queue) > 0
}

// The place of the newest hold of that very chain, where it is held.
fn find(holds: &VecDeque<Hold>, chain: &Chain) -> Option<usize>
    ensures { result ≡ position (λ h. same_chain chain.now h.chain) holds.now.items }
{
    holds.iter().position(|hold| hold.is(chain))
}

// The place of the newest hold of that very chain, which is held.
fn place_of(holds: &VecDeque<Hold>, chain: &Chain) -> usize
    requires { Contains (map (λ h. h.chain) holds.now.items) chain.now }
    ensures found { position (λ h. same_chain chain.now h.chain) holds.now.items ≡ Some result }
    ensures within { result < length holds.now.items }
{
    find(holds, chain).unwrap()
}

// The hold of a chain of these pieces.
fn hold_chain(queue: Queue, place: u16, head: u16, pieces: &[Piece]) -> Hold
    requires few { length pieces.now < 2 ^ 16 }
    ensures chain { result.chain ≡ chain_at queue place pieces.now }
    ensures head { result.head ≡ head }
    ensures pieces { pieces_in result.pieces pieces.now ≡ pieces.now }
    ensures several { is_listed result.pieces ≡ not (length pieces.now == 1) }
{
    Hold {
        chain: chain_of(queue, place, pieces),
        head,
        pieces: keep(pieces),
    }
}

// How the pieces of a chain are kept.
fn keep(pieces: &[Piece]) -> HeldPieces
    ensures pieces { pieces_in result pieces.now ≡ pieces.now }
    ensures several { is_listed result ≡ not (length pieces.now == 1) }
{
    match pieces {
        [piece] => HeldPieces::One(*piece),
        _ => HeldPieces::Listed,
    }
}

// The chain of these pieces: the device reads tx and writes rx and event.
fn chain_of(queue: Queue, place: u16, pieces: &[Piece]) -> Chain
    requires few { length pieces.now < 2 ^ 16 }
    ensures { result ≡ chain_at queue place pieces.now }
{
    let total = total_len(pieces);
    let (readable, writable) = match queue {
        Queue::Tx => (total, 0),
        Queue::Rx | Queue::Event => (0, total),
    };
    Chain {
        queue,
        place,
        readable,
        writable,
    }
}
