//! Giving lines to a sink, each by itself, and the report of a play.

ghost use Rattle.std.specs.Prelude.{◌≡◌, ◌∷◌, [], string_bytes};
ghost use Rattle.vs_report.specs.{Gives.GivesLines, Report.{guest_open_text, device_open_text, stream_text, stream_texts, counts_text, report}};

use crate::report::{push_counts, push_device_open, push_guest_open, push_stream};
use std::alloc::AllocError;
use vs_device_parts::answers::Counters;
use vs_outside::{MemStream, Sink};
use vs_peer::{SinkFault, emit};

/// Why not all lines were given.
#[derive(Clone, Copy, Debug, PartialEq, Eq)]
pub enum GiveError {
    /// A call of the sink failed.
    Sink,
    /// Memory ran out.
    OutOfMemory,
}

impl From<AllocError> for GiveError {
    ghost use Rattle.std.specs.Prelude.{◌≡◌};
    ghost use Rattle.vs_report.specs.declared.giving.GiveError.TheVariants.{OutOfMemory};

    ghost from_gives = { λ _ e. e ≡ OutOfMemory };

    fn from(_: AllocError) -> GiveError {
        GiveError::OutOfMemory
    }
}

impl From<SinkFault> for GiveError {
    ghost use Rattle.std.specs.Prelude.{◌≡◌};
    ghost use Rattle.vs_report.specs.declared.giving.GiveError.TheVariants.{Sink as SinkFailed};

    ghost from_gives = { λ _ e. e ≡ SinkFailed };

    fn from(_: SinkFault) -> GiveError {
        GiveError::Sink
    }
}

/// What a play comes to: how many entries its two tables have, and what it counted.
#[derive(Clone, Copy, Debug, PartialEq, Eq)]
pub struct Totals {
    /// Entries of the driver's table.
    pub guest_open: usize,
    /// Entries of the device's table.
    pub device_open: usize,
    /// What the device counted.
    pub counters: Counters,
    /// Packets that broke a connection of the guest.
    pub broken: u64,
}

/// Gives the report of a play to the sink, line by line: the tables' entries, each stream, and what was counted.
pub fn give_report<K: Sink>(
    totals: &Totals,
    streams: &[MemStream],
    text: &mut String,
    out: &mut K,
) -> Result<(), GiveError>
    ensures { GivesLines (K.contents out.old) (K.contents out.new) (K.faults out.old) (K.faults out.new) (report totals.now streams.now) result }
{
    give_guest_open(totals.guest_open, text, out)?;
    give_device_open(totals.device_open, text, out)?;
    give_streams(streams, text, out)?;
    give_counts(totals.counters, Some(totals.broken), text, out)
}

/// Gives a line of this text.
pub fn give_text<K: Sink>(text: &String, out: &mut K) -> Result<(), GiveError>
    ensures { GivesLines (K.contents out.old) (K.contents out.new) (K.faults out.old) (K.faults out.new) (string_bytes text.now ∷ []) result }
{
    emit(out, text.as_bytes())?;
    Ok(())
}

// Gives how many entries the driver's table has.
fn give_guest_open<K: Sink>(entries: usize, text: &mut String, out: &mut K) -> Result<(), GiveError>
    ensures { GivesLines (K.contents out.old) (K.contents out.new) (K.faults out.old) (K.faults out.new) (guest_open_text entries ∷ []) result }
{
    text.clear();
    push_guest_open(text, entries)?;
    emit(out, text.as_bytes())?;
    Ok(())
}

/// Gives how many entries the device's table has.
pub fn give_device_open<K: Sink>(
    entries: usize,
    text: &mut String,
    out: &mut K,
) -> Result<(), GiveError>
    ensures { GivesLines (K.contents out.old) (K.contents out.new) (K.faults out.old) (K.faults out.new) (device_open_text entries ∷ []) result }
{
    text.clear();
    push_device_open(text, entries)?;
    emit(out, text.as_bytes())?;
    Ok(())
}

/// Gives what each stream's program wrote and read, numbered from 1 on.
pub fn give_streams<K: Sink>(
    streams: &[MemStream],
    text: &mut String,
    out: &mut K,
) -> Result<(), GiveError>
    ensures { GivesLines (K.contents out.old) (K.contents out.new) (K.faults out.old) (K.faults out.new) (stream_texts 1 streams.now) result }
{
    let mut number = 0;
    for stream in streams {
        number += 1;
        give_stream(number, stream, text, out)?;
    }
    Ok(())
}

// Gives what the program of the stream with this number wrote and read.
fn give_stream<K: Sink>(
    number: u64,
    stream: &MemStream,
    text: &mut String,
    out: &mut K,
) -> Result<(), GiveError>
    ensures { GivesLines (K.contents out.old) (K.contents out.new) (K.faults out.old) (K.faults out.new) (stream_text number stream.now ∷ []) result }
{
    text.clear();
    push_stream(text, number, stream)?;
    emit(out, text.as_bytes())?;
    Ok(())
}

/// Gives what was counted.
pub fn give_counts<K: Sink>(
    counters: Counters,
    broken: Option<u64>,
    text: &mut String,
    out: &mut K,
) -> Result<(), GiveError>
    ensures { GivesLines (K.contents out.old) (K.contents out.new) (K.faults out.old) (K.faults out.new) (counts_text counters broken ∷ []) result }
{
    text.clear();
    push_counts(text, counters, broken)?;
    emit(out, text.as_bytes())?;
    Ok(())
}
