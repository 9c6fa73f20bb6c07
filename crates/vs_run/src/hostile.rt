//! The command `hostile`.
ghost use Rattle.std.specs.Prelude.{Ok, map};
ghost use Rattle.vs_hostile.specs.Answer.{answer_to, attack_of};
ghost use Rattle.vs_script.specs.Script.{numbered_hostile, parse_of, script_view};
ghost use Rattle.vs_script.specs.declared.script.Command.TheVariants as command;
ghost use Rattle.vs_run.specs.Ends.{EndsAnswer, EndsParsed, EndsAnswering};

use crate::ending::{no_memory, refused, unread};
use std::alloc::Global;
use vs_hostile::hostile;
use vs_outside::{Sink, Source};
use vs_peer::{DONE, SINK_FAULT, read_source};
use vs_report::giving::GiveError;
use vs_script::{Command, HostileLine, Numbered, Script, parse};

/// Runs the hostile guest's script that the source holds.
pub fn hostile_script<S: Source, K: Sink>(alloc: Global, script: &mut S, out: &mut K) -> u8
    ensures { EndsAnswering command.Hostile (λ said. (answer_to said).lines) (λ said. (answer_to said).status)
        (S.contents script.old) (S.faults script.old) (S.faults script.new)
        (K.contents out.old) (K.contents out.new) (K.faults out.old) (K.faults out.new) result }
{
    match read_source(alloc, script) {
        Ok(bytes) => hostile_bytes(alloc, &bytes, out),
        Err(error) => unread(out, error),
    }
}

// Runs the script that bytes spell.
fn hostile_bytes<K: Sink>(alloc: Global, bytes: &[u8], out: &mut K) -> u8
    ensures { EndsParsed (λ said. (answer_to said).lines) (λ said. (answer_to said).status)
        (K.contents out.old) (K.contents out.new) (K.faults out.old) (K.faults out.new) result (parse_of command.Hostile bytes.now) }
{
    match parse(alloc, Command::Hostile, bytes) {
        Ok(script) => hostile_parsed(alloc, &script, out),
        Err(fault) => refused(alloc, fault, out),
    }
}

// Runs a script. One of another command has no lines.
fn hostile_parsed<K: Sink>(alloc: Global, script: &Script, out: &mut K) -> u8
    ensures { EndsAnswer (K.contents out.old) (K.contents out.new) (K.faults out.old) (K.faults out.new)
        (answer_to (Ok (script_view script.now))).lines (answer_to (Ok (script_view script.now))).status result }
{
    match script {
        Script::Hostile(lines) => hostile_lines(alloc, lines, out),
        Script::Run(_) => DONE,
        Script::Play(_) => DONE,
    }
}

// Runs these lines.
fn hostile_lines<K: Sink>(alloc: Global, lines: &[Numbered<HostileLine>], out: &mut K) -> u8
    ensures { EndsAnswer (K.contents out.old) (K.contents out.new) (K.faults out.old) (K.faults out.new)
        (attack_of (map numbered_hostile lines.now)).lines (attack_of (map numbered_hostile lines.now)).status result }
{
    match hostile(alloc, lines, out) {
        Ok(status) => status,
        Err(GiveError::Sink) => SINK_FAULT,
        Err(GiveError::OutOfMemory) => no_memory(out),
    }
}
