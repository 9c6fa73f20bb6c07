//! The command `play`.
ghost use Rattle.std.specs.{Prelude.Ok, Prelude.map, List.AllByRecursion};
ghost use Rattle.vs_ring_list.specs.Ends.{IsQueueSize};
ghost use Rattle.vs_play.specs.{Answer.answer_to, Answer.events_in, Answer.printed, Ready.IsPlayable};
ghost use Rattle.vs_script.specs.Script.{numbered_event, parse_of, script_view};
ghost use Rattle.vs_script.specs.declared.script.Command.TheVariants as command;
ghost use Rattle.vs_words.specs.Command.{IsFirst};
ghost use Rattle.vs_run.specs.{Ends.EndsAnswer, Ends.EndsParsed, Ends.EndsAnswering, Played.IsPlayed};

use crate::ending::{no_memory, refused, unread};
use std::alloc::Global;
use vs_both_ends::{BothEnds, StandardRings};
use vs_outside::{Sink, Source};
use vs_peer::{DONE, SINK_FAULT, read_source};
use vs_play::run::{law_of_scripts, play};
use vs_report::giving::GiveError;
use vs_ring_list::ListRings;
use vs_ring_shared::SharedRings;
use vs_script::{Command, Numbered, PlayLine, Script, parse};
use vs_words::Rings;

/// Plays the script that the source holds, over rings of that kind with so many pages of each queue, of a guest that has this first port.
pub fn play_script<S: Source, K: Sink>(
    alloc: Global,
    rings: Rings,
    queue: u16,
    first: u32,
    script: &mut S,
    out: &mut K,
) -> u8
    requires queue { IsQueueSize queue }
    requires first { IsFirst first }
    ensures { EndsAnswering command.Play (λ said. (answer_to queue first said).lines) (λ said. (answer_to queue first said).status)
        (S.contents script.old) (S.faults script.old) (S.faults script.new)
        (K.contents out.old) (K.contents out.new) (K.faults out.old) (K.faults out.new) result }
{
    match read_source(alloc, script) {
        Ok(bytes) => play_bytes(alloc, rings, queue, first, &bytes, out),
        Err(error) => unread(out, error),
    }
}

// Plays the script that bytes spell.
fn play_bytes<K: Sink>(
    alloc: Global,
    rings: Rings,
    queue: u16,
    first: u32,
    bytes: &[u8],
    out: &mut K,
) -> u8
    requires queue { IsQueueSize queue }
    requires first { IsFirst first }
    ensures { EndsParsed (λ said. (answer_to queue first said).lines) (λ said. (answer_to queue first said).status)
        (K.contents out.old) (K.contents out.new) (K.faults out.old) (K.faults out.new) result (parse_of command.Play bytes.now) }
{
    law_of_scripts();
    match parse(alloc, Command::Play, bytes) {
        Ok(script) => play_parsed(alloc, rings, queue, first, &script, out),
        Err(fault) => refused(alloc, fault, out),
    }
}

// Plays a script. One of another command has no lines.
fn play_parsed<K: Sink>(
    alloc: Global,
    rings: Rings,
    queue: u16,
    first: u32,
    script: &Script,
    out: &mut K,
) -> u8
    requires queue { IsQueueSize queue }
    requires first { IsFirst first }
    requires playable { IsPlayed (script_view script.now) }
    ensures { EndsAnswer (K.contents out.old) (K.contents out.new) (K.faults out.old) (K.faults out.new)
        (answer_to queue first (Ok (script_view script.now))).lines (answer_to queue first (Ok (script_view script.now))).status result }
{
    match script {
        Script::Play(lines) => play_lines(alloc, rings, queue, first, lines, out),
        Script::Run(_) => DONE,
        Script::Hostile(_) => DONE,
    }
}

// Plays these lines over rings of that kind.
fn play_lines<K: Sink>(
    alloc: Global,
    rings: Rings,
    queue: u16,
    first: u32,
    lines: &[Numbered<PlayLine>],
    out: &mut K,
) -> u8
    requires queue { IsQueueSize queue }
    requires first { IsFirst first }
    requires playable { AllByRecursion IsPlayable (events_in (map numbered_event lines.now)) }
    ensures { EndsAnswer (K.contents out.old) (K.contents out.new) (K.faults out.old) (K.faults out.new)
        (printed queue first (events_in (map numbered_event lines.now))) 0 result }
{
    match rings {
        Rings::List => play_over::<ListRings, K>(alloc, queue, first, lines, out),
        Rings::Plain => play_over::<StandardRings, K>(alloc, queue, first, lines, out),
        Rings::Shared => play_over::<SharedRings, K>(alloc, queue, first, lines, out),
    }
}

// The same, over rings of a type.
fn play_over<R: BothEnds + Drop, K: Sink>(
    alloc: Global,
    queue: u16,
    first: u32,
    lines: &[Numbered<PlayLine>],
    out: &mut K,
) -> u8
    requires queue { IsQueueSize queue }
    requires first { IsFirst first }
    requires playable { AllByRecursion IsPlayable (events_in (map numbered_event lines.now)) }
    ensures { EndsAnswer (K.contents out.old) (K.contents out.new) (K.faults out.old) (K.faults out.new)
        (printed queue first (events_in (map numbered_event lines.now))) 0 result }
{
    let Ok(rings) = R::make(alloc, queue) else {
        return no_memory(out);
    };
    match play(alloc, rings, first, lines, out) {
        Ok(()) => DONE,
        Err(GiveError::Sink) => SINK_FAULT,
        Err(GiveError::OutOfMemory) => no_memory(out),
    }
}
