//! The run of a hostile guest's script: line by line, or whole with its report, line by line to a sink.

ghost use Rattle.std.specs.Prelude.{◌≡◌, ◌∷◌, [], IfOk, OnOk, map, option_map, string_bytes};
ghost use Rattle.vs_script.specs.{Hostile.hostile_view, Script.numbered_hostile, Script.script_view};
ghost use Rattle.vs_report.specs.Gives.{GivesLines};
ghost use Rattle.vs_hostile.specs.Answer.{attack_of, given, lines_in, lines_of, report_texts, said_text, state_after};
ghost use Rattle.vs_hostile.specs.{Answer.texts_of, Ready.IsReady, Ready.StepsNext, Run.beginning, Run.hostile_does};

use crate::status::status;
use crate::world::HostileWorld;
use std::alloc::{AllocError, Global};
use std::marker::Model;
use vs_outside::Sink;
use vs_report::giving::{GiveError, give_counts, give_device_open, give_streams, give_text};
use vs_script::{HostileLine, Numbered, Script};

/// A hostile guest's script in the course of its run.
#[derive(Drop)]
pub struct HostileRun {
    world: HostileWorld,
    lines: Vec<Numbered<HostileLine>>,
    place: usize,
}

impl Model for HostileRun {
    ghost use Rattle.std.specs.Prelude.{drop, map};
    ghost use Rattle.vs_script.specs.Script.{numbered_hostile};
    ghost use Rattle.vs_hostile.specs.{Answer.lines_of, Ready.RunState};

    ghost Value = { RunState };

    ghost view = { λ r. record { state = r.world; rest = drop r.place (lines_of (map numbered_hostile r.lines.items)) } };
}

impl HostileRun {
    /// A script before its first line: a device just made for the guest with CID 3, at moment 0, and a host of its own. A script of another
    /// command has no lines. The only error is want of memory.
    pub fn new(alloc: Global, script: Script) -> Result<HostileRun, AllocError>
        ensures beginning { IfOk result (λ run. run ≡ record { state = beginning; rest = lines_in (script_view script) }) }
        ensures ready { IfOk result (λ run. IsReady run.state) }
    {
        Ok(HostileRun {
            world: HostileWorld::new(alloc)?,
            lines: lines_in(alloc, script),
            place: 0,
        })
    }

    /// Runs the next line and answers its text, or that none is left; then nothing changes. The only error is want of memory, also of the
    /// host's, and then no further line may be run.
    pub fn step(&mut self) -> Result<Option<String>, AllocError>
        requires ready { IsReady self.old.state }
        ensures next { IfOk result (λ text. StepsNext self.old self.new (option_map string_bytes text)) }
    {
        let Some(numbered) = self.lines.get(self.place) else {
            return Ok(None);
        };
        let mut text = String::new(*self.lines.allocator());
        self.world.line(&numbered.line, &mut text)?;
        self.place += 1;
        Ok(Some(text))
    }
}

// The lines of a hostile guest's script.
fn lines_in(alloc: Global, script: Script) -> Vec<Numbered<HostileLine>>
    ensures { lines_of (map numbered_hostile result.items) ≡ lines_in (script_view script) }
{
    match script {
        Script::Hostile(lines) => lines,
        _ => Vec::new(alloc),
    }
}

/// Runs the lines of a hostile guest's script and gives what they print to the sink, each line by itself, and then the report. Answers the
/// status: 7 where the device failed, else 0. Where memory runs out, also the host's, the run ends before the answer of that line.
pub fn hostile<K: Sink>(
    alloc: Global,
    lines: &[Numbered<HostileLine>],
    out: &mut K,
) -> Result<u8, GiveError>
    ensures lines { GivesLines (K.contents out.old) (K.contents out.new) (K.faults out.old) (K.faults out.new)
        (attack_of (map numbered_hostile lines.now)).lines (given result) }
    ensures status { IfOk result (λ status. status ≡ (attack_of (map numbered_hostile lines.now)).status) }
{
    let mut world = HostileWorld::new(alloc)?;
    let mut text = String::new(alloc);
    give_lines(&mut world, lines, &mut text, out)?;
    give_report(&world, &mut text, out)?;
    Ok(status(world.failure()))
}

// Runs the lines in order, and gives what each prints.
fn give_lines<K: Sink>(
    world: &mut HostileWorld,
    lines: &[Numbered<HostileLine>],
    text: &mut String,
    out: &mut K,
) -> Result<(), GiveError>
    requires ready { IsReady world.old }
    ensures printed { GivesLines (K.contents out.old) (K.contents out.new) (K.faults out.old) (K.faults out.new)
        (texts_of (lines_of (map numbered_hostile lines.now)) world.old) result }
    ensures state { OnOk result (world.new ≡ state_after (lines_of (map numbered_hostile lines.now)) world.old) }
{
    for line in lines {
        give_line(world, &line.line, text, out)?;
    }
    Ok(())
}

// Runs a line, and gives what it prints.
fn give_line<K: Sink>(
    world: &mut HostileWorld,
    line: &HostileLine,
    text: &mut String,
    out: &mut K,
) -> Result<(), GiveError>
    requires ready { IsReady world.old }
    ensures printed { GivesLines (K.contents out.old) (K.contents out.new) (K.faults out.old) (K.faults out.new)
        (said_text (hostile_does (hostile_view line.now) world.old).1 ∷ []) result }
    ensures state { OnOk result (world.new ≡ (hostile_does (hostile_view line.now) world.old).0) }
    ensures ready { OnOk result (IsReady world.new) }
{
    text.clear();
    world.line(line, text)?;
    give_text(text, out)
}

// Gives the report: the entries of the device's table, each stream, and what was counted.
fn give_report<K: Sink>(
    world: &HostileWorld,
    text: &mut String,
    out: &mut K,
) -> Result<(), GiveError>
    ensures { GivesLines (K.contents out.old) (K.contents out.new) (K.faults out.old) (K.faults out.new) (report_texts world.now) result }
{
    give_device_open(world.entries(), text, out)?;
    give_streams(world.streams(), text, out)?;
    give_counts(world.counters(), None, text, out)
}
