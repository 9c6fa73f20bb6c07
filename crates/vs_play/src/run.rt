//! Playing a script: what each line prints, and then the report, given to a sink line by line.

ghost use Rattle.vs_limits.specs.declared.TheConstants.{FIRST_PORT, LAST_PORT};
ghost use Rattle.std.specs.{Prelude.{◌≡◌, ◌≤◌, ◌∷◌, [], ℕ, List, Ok, OnOk, map}, List.AllByRecursion};
ghost use Rattle.vs_ring_list.specs.Ends.{empty_ends};
ghost use Rattle.vs_script.specs.{Play.{Event, play_view}, Script.{Plays as Saying, numbered_event, parse_of}};
ghost use Rattle.vs_report.specs.Gives.{GivesLines};
ghost use Rattle.vs_play.specs.{Answer.{events_in, printed, report_of, texts_of, world_after}, Lines.event_played, Ready.{IsPlayable, IsReady, shown, world_in}};
ghost use Rattle.vs_script.specs.declared.script.Command.TheVariants as command;

use crate::play::Play;
use std::alloc::Global;
use vs_both_ends::BothEnds;
use vs_outside::Sink;
use vs_report::giving::{GiveError, give_report, give_text};
use vs_script::{Numbered, PlayLine};

/// Plays the lines of a script in order over empty rings, of a guest that has this first port, and then reports: how many entries each table has, what each stream's program
/// wrote and read, and what was counted. What a line prints is given to the sink before the next line is played, and each line of the
/// report by itself. It ends with an error where a call of the sink fails, and where memory runs out, also in the host, which then found
/// none for a dial or a write: the line at which that is found prints nothing.
pub fn play<R: BothEnds + Drop, K: Sink>(
    alloc: Global,
    rings: R,
    first: u32,
    lines: &[Numbered<PlayLine>],
    out: &mut K,
) -> Result<(), GiveError>
    requires empty { (n : ℕ) × (R.ends rings ≡ empty_ends n) }
    requires first { (FIRST_PORT ≤ first) × (first ≤ LAST_PORT) }
    requires playable { AllByRecursion IsPlayable (events_in (map numbered_event lines.now)) }
    ensures { GivesLines (K.contents out.old) (K.contents out.new) (K.faults out.old) (K.faults out.new)
        (printed (R.ends rings).lists.size first (events_in (map numbered_event lines.now))) result }
{
    let mut play = Play::new(alloc, rings, first)?;
    let mut text = String::new(alloc);
    play_lines(&mut play, lines, &mut text, out)?;
    report(&play, &mut text, out)
}

// Plays the lines in order.
fn play_lines<R: BothEnds, K: Sink>(
    play: &mut Play<R>,
    lines: &[Numbered<PlayLine>],
    text: &mut String,
    out: &mut K,
) -> Result<(), GiveError>
    requires ready { IsReady play.old }
    requires playable { AllByRecursion IsPlayable (events_in (map numbered_event lines.now)) }
    ensures printed { GivesLines (K.contents out.old) (K.contents out.new) (K.faults out.old) (K.faults out.new)
        (texts_of (events_in (map numbered_event lines.now)) (world_in play.old)) result }
    ensures world { OnOk result (play.new ≡ shown (world_after (events_in (map numbered_event lines.now)) (world_in play.old))) }
{
    for line in lines {
        play_line(play, &line.line, text, out)?;
    }
    Ok(())
}

// Plays a line, and gives what it prints.
fn play_line<R: BothEnds, K: Sink>(
    play: &mut Play<R>,
    line: &PlayLine,
    text: &mut String,
    out: &mut K,
) -> Result<(), GiveError>
    requires ready { IsReady play.old }
    requires playable { IsPlayable (play_view line.now) }
    ensures printed { GivesLines (K.contents out.old) (K.contents out.new) (K.faults out.old) (K.faults out.new)
        ((event_played (play_view line.now) (world_in play.old)).1 ∷ []) result }
    ensures world { OnOk result (play.new ≡ shown (event_played (play_view line.now) (world_in play.old)).0) }
    ensures ready { OnOk result (IsReady play.new) }
{
    text.clear();
    play.line(line, text)?;
    give_text(text, out)
}

// Gives the report.
fn report<R: BothEnds, K: Sink>(
    play: &Play<R>,
    text: &mut String,
    out: &mut K,
) -> Result<(), GiveError>
    ensures { GivesLines (K.contents out.old) (K.contents out.new) (K.faults out.old) (K.faults out.new)
        (report_of (world_in play.now).world) result }
{
    let totals = play.totals();
    give_report(&totals, play.streams(), text, out)
}

/// Each line of a script that is read for a play may be played.
pub fn law_of_scripts()
    ensures { (bytes : List ℕ) (lines : List (ℕ × Event)) → parse_of command.Play bytes ≡ Ok (Saying lines) → AllByRecursion IsPlayable (events_in lines) }
{}
