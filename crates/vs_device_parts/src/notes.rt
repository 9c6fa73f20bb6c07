//! What the rounds over all connections do on each of them, kept beside the table: a round reads a few words of each connection that rests.

ghost use Rattle.std.specs.Prelude.{◌≡◌, ◌<◌, ◌≤◌, ◌==◌, [], AllPairs, IsTrue, Some, length, map, option_copied, position, slice_get};
ghost use Rattle.std.specs.Option.{option_map};
ghost use Rattle.vs_limits.specs.declared.TheConstants.{DEVICE_CONNECTIONS};
ghost use Rattle.vs_device_parts.specs.Noted.{note_of, notes_of, renoted};

use crate::connection::Connection;
use crate::service::Service;
use arrayvec::ArrayVec;
use std::marker::Model;
use vs_flow::{FlowTable, Slot};
use vs_limits::DEVICE_CONNECTIONS;

/// What the rounds do on the connection in a slot.
#[derive(Clone, Copy, Default)]
pub struct Note {
    /// The slot.
    pub slot: Slot,
    /// What the round does that reads streams and puts what is owed.
    pub service: Service,
    /// Whether a round of writing does something.
    pub writes: bool,
}

impl Note {
    /// The note of a connection.
    pub fn of(slot: Slot, connection: &Connection) -> Note
        ensures { result ≡ note_of slot connection.now }
    {
        Note {
            slot,
            service: connection.service(),
            writes: connection.has_to_write(),
        }
    }
}

/// The notes of all connections, by rising slot.
#[derive(Drop)]
pub struct Notes {
    notes: ArrayVec<Note, DEVICE_CONNECTIONS>,
}

impl Model for Notes {
    ghost use Rattle.std.specs.Prelude.{List};
    ghost use Rattle.vs_device_parts.specs.{Noted.AreRising, declared.notes.Note.Note};

    ghost Value = { List Note };

    ghost view = { λ n. n.notes.items };

    ghost invariant = { λ n. AreRising n.notes.items };
}

impl Notes {
    /// The notes where there are no connections.
    pub fn new() -> Notes
        ensures { result ≡ [] }
    {
        Notes {
            notes: ArrayVec::new(),
        }
    }

    /// The notes of the connections of a table, of which there are at most as many as a device has.
    pub fn of(table: &FlowTable<Connection>) -> Notes
        requires most { length table.now.entries ≤ DEVICE_CONNECTIONS }
        ensures { result ≡ notes_of table.now }
    {
        let mut notes = ArrayVec::new();
        let mut place = 0;
        while let Some(entry) = table.at(place) {
            notes.push(Note::of(entry.slot, &entry.value));
            place += 1;
        }
        Notes { notes }
    }

    /// The note at a place, counted from 0.
    #[inline(always)]
    pub fn at(&self, place: usize) -> Option<&Note>
        ensures { option_copied result ≡ slice_get self.now place }
    {
        self.notes.as_slice().get(place)
    }

    /// Takes the place of the note of its slot, where there is one.
    pub fn put(&mut self, note: Note)
        ensures { self.new ≡ map (renoted note) self.old }
    {
        put_in(self.notes.as_mut_slice(), note);
    }
}

// Puts a note in the place of the one of its slot, where there is one.
fn put_in(notes: &mut [Note], note: Note)
    requires rising { AllPairs (λ m n. m.slot < n.slot) notes.old }
    ensures { notes.new ≡ map (renoted note) notes.old }
{
    if let Some(place) = place_in(notes, note.slot) {
        notes[place] = note;
    }
}

// The place of the note of a slot. As long as no connection before it went, it is the distance from the first one.
fn place_in(notes: &[Note], slot: Slot) -> Option<usize>
    requires rising { AllPairs (λ m n. m.slot < n.slot) notes.now }
    ensures { result ≡ position (λ n. n.slot == slot) notes.now }
{
    let first = notes.first()?.slot;
    let guess = slot.wrapping_sub(first) as usize;
    if is_at(notes, guess, slot) {
        return Some(guess);
    }
    found_in(notes, slot)
}

// Whether the note of a slot stands at a place.
fn is_at(notes: &[Note], place: usize, slot: Slot) -> bool
    ensures { IsTrue result → option_map (λ n. n.slot) (slice_get notes.now place) ≡ Some slot }
{
    match notes.get(place) {
        Some(note) => note.slot == slot,
        None => false,
    }
}

// The place of the note of a slot, by binary search.
fn found_in(notes: &[Note], slot: Slot) -> Option<usize>
    requires rising { AllPairs (λ m n. m.slot < n.slot) notes.now }
    ensures { result ≡ position (λ n. n.slot == slot) notes.now }
{
    notes.binary_search_by_key(&slot, |note| note.slot).ok()
}
