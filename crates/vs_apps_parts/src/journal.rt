//! The journal of a run: the calls that its apps made, with what they answered, and their waits.

ghost use Rattle.std.specs.Prelude.{◌≡◌, ◌+◌, ◌<◌, ◌≤◌, ◌++◌, ◌^◌, false, IfSome, List, ℕ, OnOk, length, nat_eq, vec_capacity, vec_len};
ghost use Rattle.indexmap.specs.IndexMap.{get, spare};
ghost use Rattle.vs_excerpt.specs.Excerpt.{excerpt_of};
ghost use Rattle.laws_driver.specs.Carried.Calls.{received_by};
ghost use Rattle.vs_driver_parts.specs.Connections.{got_count};
ghost use Rattle.vs_apps_parts.specs.{Journals.{called_noted, calls_of, made_of, times_at, wait_noted, wait_place}, Scripts.RunScript, Told.{told_of, wait_of}};
ghost use Rattle.vs_apps_parts.specs.{Sums.{is_receive, kept_of, no_journal}, declared.progress.TheConstants.SLICE};
ghost use Rattle.vs_apps_parts.specs.declared.journal.Called.TheVariants.{Recv};

use crate::progress::SLICE;
use crate::told::Told;
use indexmap::IndexMap;
use std::alloc::{AllocError, Global};
use std::marker::Model;
use vs_driver_parts::answers::{
    Accepted, Closed, ConnId, ConnectError, ConnectionState, Grown, ListenError, Received, Sent,
    Shut,
};
use vs_excerpt::Excerpt;
use vs_excerpt::bytes_given::{BytesGiven, Piece};
use vs_flow::Flow;

/// Why an app waits.
#[derive(Clone, Copy)]
pub enum WaitsFor {
    /// All slots of the driver are held.
    Full,
    /// No descriptor of the transmit queue is free.
    NoDescriptor {
        /// Pages in flight: as many as the queue has descriptors.
        in_flight: u16,
    },
    /// The peer has no room for a further byte.
    NoCredit {
        /// Bytes sent so far, modulo 2^32.
        tx: u32,
        /// Bytes of buffer space that the peer told last.
        alloc: u32,
        /// Bytes that the peer said it forwarded, modulo 2^32.
        fwd: u32,
    },
    /// The connection is open, and nothing is unread.
    Empty,
    /// No connection waits on the port.
    NoneWaiting,
    /// The connection isn't open yet.
    NotOpen,
}

/// A call that an app made, with what it answered.
#[derive(Clone, Copy)]
pub enum Called {
    /// A connect to a port of the host, and the flow of the connection that it opened.
    Connect {
        port: u32,
        answer: Result<ConnId, ConnectError>,
        flow: Option<Flow>,
    },
    /// A listen at a port.
    Listen {
        port: u32,
        answer: Result<(), ListenError>,
    },
    /// An accept on a port, and the flow of the connection that it gave.
    Accept {
        port: u32,
        answer: Accepted,
        flow: Option<Flow>,
    },
    /// A send of `len` bytes of the data of the app's instruction at place `at`, from byte `from` on.
    Send {
        id: ConnId,
        at: usize,
        from: usize,
        len: usize,
        answer: Sent,
    },
    /// A receive into a buffer of `len` bytes. Those that it gave came behind `from` others of the run's.
    Recv {
        id: ConnId,
        len: usize,
        from: usize,
        answer: Received,
    },
    /// A shutdown with these bits.
    Shutdown {
        id: ConnId,
        bits: u8,
        answer: Shut,
    },
    /// A rise of the buffer space to so many bytes.
    Grow {
        id: ConnId,
        alloc: u32,
        answer: Grown,
    },
    /// A close.
    Close {
        id: ConnId,
        answer: Closed,
    },
    /// A look at how a connection stands.
    LookAt {
        id: ConnId,
        answer: ConnectionState,
    },
}

/// What an app did: a call that didn't wait, or so many steps in a row that waited, the last of them for this.
#[derive(Clone, Copy)]
pub enum Deed {
    Called(Called),
    Waited { times: u64, why: WaitsFor },
}

/// An entry of the journal: what which app did.
#[derive(Clone, Copy)]
pub struct Entry {
    pub app: usize,
    pub deed: Deed,
}

/// The journal: its entries, oldest first, and the bytes that all receives gave, in their order. Of the bytes it keeps an excerpt for each
/// connection on which some came, and no more.
#[derive(Drop)]
pub struct Journal {
    entries: Vec<Entry>,
    bytes: BytesGiven,
    // How many bytes receives gave in all.
    count: usize,
    // What is kept of the bytes of each connection.
    excerpts: IndexMap<ConnId, Excerpt>,
    // How many calls and waits may be noted without memory.
    room: usize,
}

impl Model for Journal {
    ghost use Rattle.std.specs.Prelude.{nat_eq, vec_capacity, vec_len};
    ghost use Rattle.indexmap.specs.IndexMap.{get, spare};
    ghost use Rattle.vs_apps_parts.specs.Sums.{HasSpace, IsSummed, JournalState};

    ghost Value = { JournalState };

    ghost view = { λ j. record { entries = j.entries.items; bytes = j.bytes.items; room = j.room } };

    ghost invariant = { λ j. IsSummed j.count j.bytes.items j.entries.items (λ id. get nat_eq j.excerpts id)
        × HasSpace j.room (vec_len j.entries) (vec_capacity j.entries) (spare j.excerpts) j.count };
}

/// How many calls and waits a step notes at most: two calls and a wait.
pub const NOTED: usize = 3;

impl Journal {
    /// A journal of nothing.
    pub fn new(alloc: Global) -> Journal
        ensures { result ≡ no_journal }
    {
        Journal {
            entries: Vec::new(alloc),
            bytes: BytesGiven::new(),
            count: 0,
            excerpts: IndexMap::new(alloc),
            room: 0,
        }
    }

    /// Makes room for what a step notes. The only error is want of memory, or that the bytes of the run can't be counted in 64 bits.
    pub fn reserve(&mut self) -> Result<(), AllocError>
        ensures entries { self.new.entries ≡ self.old.entries }
        ensures bytes { self.new.bytes ≡ self.old.bytes }
        ensures room { OnOk result (self.new.room ≡ NOTED) }
    {
        self.room = 0;
        if self.count > usize::MAX - NOTED * SLICE {
            return Err(AllocError);
        }
        self.entries.reserve(NOTED)?;
        self.excerpts.reserve(NOTED)?;
        self.room = NOTED;
        Ok(())
    }

    /// Notes a call other than a receive with its reply, unless it told to wait. Answers what it told.
    pub fn note_call(&mut self, app: usize, called: Called) -> Told
        requires room { 0 < self.old.room }
        requires other { is_receive called ≡ false }
        ensures told { (script : RunScript) (bytes : List ℕ) → result ≡ told_of (made_of script bytes app called) }
        ensures entries { self.new.entries ≡ called_noted app called (wait_of result) self.old.entries }
        ensures bytes { self.new.bytes ≡ self.old.bytes }
        ensures room { self.new.room + 1 ≡ self.old.room }
    {
        self.room -= 1;
        add_called(&mut self.entries, app, called)
    }

    /// Notes a receive into a buffer of `len` bytes with its reply and the bytes that it gave, unless it told to wait. Answers what it told.
    pub fn note_received(
        &mut self,
        app: usize,
        id: ConnId,
        len: usize,
        answer: Received,
        bytes: &[u8],
    ) -> Told
        requires room { 0 < self.old.room }
        requires count { length bytes.now ≡ got_count answer }
        requires few { length bytes.now ≤ SLICE }
        ensures told { (script : RunScript) → result ≡ told_of (made_of script self.new.bytes app (Recv id len (length self.old.bytes) answer)) }
        ensures entries { self.new.entries ≡ called_noted app (Recv id len (length self.old.bytes) answer) (wait_of result) self.old.entries }
        ensures bytes { self.new.bytes ≡ self.old.bytes ++ bytes.now }
        ensures room { self.new.room + 1 ≡ self.old.room }
    {
        let from = self.count;
        add_piece(&mut self.excerpts, id, bytes);
        self.bytes = self.bytes.then(&Piece { bytes });
        self.count += bytes.len();
        self.room -= 1;
        add_called(
            &mut self.entries,
            app,
            Called::Recv {
                id,
                len,
                from,
                answer,
            },
        )
    }

    /// Notes a wait: one more of the app's last entry where that is a wait, at place `last`; else an entry. Answers its place.
    pub fn note_wait(&mut self, last: Option<usize>, app: usize, why: WaitsFor) -> usize
        requires room { 0 < self.old.room }
        ensures entries { self.new.entries ≡ wait_noted app why last self.old.entries }
        ensures place { result ≡ wait_place app last self.old.entries }
        ensures bytes { self.new.bytes ≡ self.old.bytes }
        ensures room { self.new.room + 1 ≡ self.old.room }
    {
        self.room -= 1;
        add_wait(&mut self.entries, last, app, why)
    }

    /// The entries.
    pub fn entries(&self) -> &[Entry]
        ensures { result.now ≡ self.now.entries }
    {
        self.entries.as_slice()
    }

    /// What is kept of the bytes that came on a connection.
    pub fn excerpt(&self, id: ConnId) -> Excerpt
        ensures { (script : RunScript) → result ≡ excerpt_of (received_by id (calls_of script self.now.bytes self.now.entries)) }
    {
        kept(&self.excerpts, id)
    }
}

// The excerpt that is kept of a connection: of no byte, where none is.
fn kept(excerpts: &IndexMap<ConnId, Excerpt>, id: ConnId) -> Excerpt
    ensures { result ≡ kept_of (get nat_eq excerpts.now id) }
{
    excerpts.get(&id).copied().unwrap_or(Excerpt::none())
}

// Adds a piece to what is kept of a connection.
fn add_piece(excerpts: &mut IndexMap<ConnId, Excerpt>, id: ConnId, piece: &[u8])
    requires spare { 0 < spare excerpts.old }
    requires fits { (kept_of (get nat_eq excerpts.old id)).count + length piece.now < 2 ^ 64 }
    ensures kept { (bytes : List ℕ) → kept_of (get nat_eq excerpts.old id) ≡ excerpt_of bytes
        → kept_of (get nat_eq excerpts.new id) ≡ excerpt_of (bytes ++ piece.now) }
    ensures others { (other : ℕ) → nat_eq id other ≡ false → get nat_eq excerpts.new other ≡ get nat_eq excerpts.old other }
    ensures spare { spare excerpts.old ≤ spare excerpts.new + 1 }
{
    if piece.is_empty() {
        return;
    }
    let excerpt = kept(excerpts, id).then(piece);
    excerpts.insert(id, excerpt).unwrap();
}

// The times of the wait that an app has at a place, if it has one there.
fn times_at(entries: &Vec<Entry>, app: usize, place: usize) -> Option<u64>
    ensures exact { result ≡ times_at app place entries.now.items }
    ensures within { IfSome result (λ _. place < vec_len entries.now) }
{
    let entry = entries.get(place).copied()?;
    if entry.app != app {
        return None;
    }
    match entry.deed {
        Deed::Waited { times, why: _ } => Some(times),
        Deed::Called(_) => None,
    }
}

// Adds a wait.
fn add_wait(entries: &mut Vec<Entry>, last: Option<usize>, app: usize, why: WaitsFor) -> usize
    requires { vec_len entries.old < vec_capacity entries.old }
    ensures noted { entries.new.items ≡ wait_noted app why last entries.old.items }
    ensures place { result ≡ wait_place app last entries.old.items }
    ensures room { (vec_capacity entries.new ≡ vec_capacity entries.old) × (vec_len entries.new ≤ vec_len entries.old + 1) }
{
    if let Some(place) = last {
        if let Some(times) = times_at(entries, app, place) {
            entries[place] = Entry {
                app,
                deed: Deed::Waited {
                    times: times.saturating_add(1),
                    why,
                },
            };
            return place;
        }
    }
    entries.push_reserved(Entry {
        app,
        deed: Deed::Waited { times: 1, why },
    });
    entries.len() - 1
}

// Adds a call, unless it told to wait, and answers what it told.
fn add_called(entries: &mut Vec<Entry>, app: usize, called: Called) -> Told
    requires { vec_len entries.old < vec_capacity entries.old }
    ensures told { (script : RunScript) (bytes : List ℕ) → result ≡ told_of (made_of script bytes app called) }
    ensures noted { entries.new.items ≡ called_noted app called (wait_of result) entries.old.items }
    ensures room { (vec_capacity entries.new ≡ vec_capacity entries.old) × (vec_len entries.new ≤ vec_len entries.old + 1) }
{
    let told = called.told();
    match told.wait() {
        None => {
            entries.push_reserved(Entry {
                app,
                deed: Deed::Called(called),
            });
            told
        }
        Some(_why) => told,
    }
}
