//! Whole scripts: the limits, and the lines in order.

ghost use Rattle.std.specs.Prelude.{◌≡◌, ◌<◌, ◌∷◌, [], IfOk, IfErr, Ok, length, map, not};
ghost use Rattle.vs_script.specs.{Field.IsFault, App.{app_view, instruction_view}, Text.{lines_of, is_empty, is_skipped}, Script.{script_view, numbered_event, numbered_hostile}};
ghost use Rattle.vs_script.specs.Script.{empty, pushed, add_event, add_act, add_run, stage_of, add_hostile, add_words, add_line, parse_of, IsRefused};
ghost use Rattle.vs_script.specs.declared.fault.Why.TheVariants.{TooMany};

use crate::app::{App, Instruction, RunLine, run_line};
use crate::fault::{LineFault, ParseFault, Why};
use crate::hostile::{HostileLine, Stage, hostile_line};
use crate::play::{PlayLine, play_line};
use crate::words::{Words, next_word, place_of};
use std::alloc::{AllocError, Global};

/// The most bytes of a script.
pub const MAX_SCRIPT: usize = 1_048_576;

/// The most bytes of a line, without its LF.
pub const MAX_LINE: usize = 4_200;

/// The most event lines of a script.
pub const MAX_EVENTS: usize = 20_000;

/// The most apps of a script.
pub const MAX_APPS: usize = 64;

/// The most instructions of an app.
pub const MAX_INSTRUCTIONS: usize = 1_000;

/// The command that a script is for.
#[derive(Clone, Copy)]
pub enum Command {
    /// `play`: event lines on one thread.
    Play,
    /// `run`: apps.
    Run,
    /// `hostile`: what a hostile guest writes.
    Hostile,
}

/// A line and its number in the script, which counts all lines from 1.
#[derive(Drop)]
pub struct Numbered<L> {
    pub number: u64,
    pub line: L,
}

/// A script: its event lines, or its apps.
#[derive(Drop)]
pub enum Script {
    /// The event lines of a play, in order.
    Play(Vec<Numbered<PlayLine>>),
    /// The apps of a run, in order.
    Run(Vec<App>),
    /// The lines of a hostile guest, in order: `memory`, `rings`, then the others.
    Hostile(Vec<Numbered<HostileLine>>),
}

/// The script that a text spells for a command, or what it is refused for. A text of more than 1,048,576 bytes is refused as
/// `line 0 TooLong`, any other for its first line that has a fault. Of that line the first fault counts, in this order: `TooLong`,
/// more than 4,200 bytes; then from word to word `BadWord`, `BadNumber` and `BadHex`; behind its last word `BadNumber`, where a
/// hostile guest's rings or bytes lie outside its memory; and last `TooMany`. The time that this takes is linear in the text.
pub fn parse(alloc: Global, command: Command, bytes: &[u8]) -> Result<Script, ParseFault>
    ensures ok { IfOk result (λ script. parse_of command bytes.now ≡ Ok (script_view script)) }
    ensures refused { IfErr result (IsRefused command bytes.now) }
{
    if bytes.len() > MAX_SCRIPT {
        return Err(LineFault::Refused(Why::TooLong).at(0));
    }
    let mut script = Script::empty(alloc, command);
    let mut rest = bytes;
    let mut number = 0;
    while !rest.is_empty() {
        let (text, behind) = next_line(rest);
        rest = behind;
        number += 1;
        if is_skipped(text) {
            continue;
        }
        if let Err(fault) = script.add_line(alloc, number, text) {
            return Err(fault.at(number));
        }
    }
    Ok(script)
}

impl Script {
    /// The script of no line.
    fn empty(alloc: Global, command: Command) -> Script
        ensures { script_view result ≡ empty command }
    {
        match command {
            Command::Play => Script::Play(Vec::new(alloc)),
            Command::Run => Script::Run(Vec::new(alloc)),
            Command::Hostile => Script::Hostile(Vec::new(alloc)),
        }
    }

    /// Adds the line of a number. After a fault the script may have lost lines.
    fn add_line(&mut self, alloc: Global, number: u64, text: &[u8]) -> Result<(), LineFault>
        ensures ok { IfOk result (λ _. add_line (script_view self.old) number text.now ≡ Ok (script_view self.new)) }
        ensures fault { IfErr result (IsFault (add_line (script_view self.old) number text.now)) }
    {
        if text.len() > MAX_LINE {
            return Err(LineFault::Refused(Why::TooLong));
        }
        let mut words = Words::of(text);
        self.add_words(alloc, number, &mut words)
    }

    /// Adds the line that words say.
    fn add_words(&mut self, alloc: Global, number: u64, words: &mut Words) -> Result<(), LineFault>
        ensures ok { IfOk result (λ _. add_words (script_view self.old) number words.old ≡ Ok (script_view self.new)) }
        ensures fault { IfErr result (IsFault (add_words (script_view self.old) number words.old)) }
    {
        match self {
            Script::Play(lines) => add_event(alloc, lines, number, words),
            Script::Run(apps) => add_run(alloc, apps, words),
            Script::Hostile(lines) => add_hostile(alloc, lines, number, words),
        }
    }
}

/// Adds a line of a play.
fn add_event(
    alloc: Global,
    lines: &mut Vec<Numbered<PlayLine>>,
    number: u64,
    words: &mut Words,
) -> Result<(), LineFault>
    ensures ok { IfOk result (λ _. add_event (map numbered_event lines.old.items) number words.old
        ≡ Ok (map numbered_event lines.new.items)) }
    ensures fault { IfErr result (IsFault (add_event (map numbered_event lines.old.items) number words.old)) }
{
    let line = play_line(alloc, words)?;
    push(lines, MAX_EVENTS, Numbered { number, line })
}

/// Adds a line of a hostile guest.
fn add_hostile(
    alloc: Global,
    lines: &mut Vec<Numbered<HostileLine>>,
    number: u64,
    words: &mut Words,
) -> Result<(), LineFault>
    ensures ok { IfOk result (λ _. add_hostile (map numbered_hostile lines.old.items) number words.old
        ≡ Ok (map numbered_hostile lines.new.items)) }
    ensures fault { IfErr result (IsFault (add_hostile (map numbered_hostile lines.old.items) number words.old)) }
{
    let line = hostile_line(alloc, stage_of(lines), words)?;
    push(lines, MAX_EVENTS, Numbered { number, line })
}

/// What the lines of a hostile guest have set up.
fn stage_of(lines: &[Numbered<HostileLine>]) -> Stage
    ensures { result ≡ stage_of (map numbered_hostile lines.now) }
{
    let Some(first) = lines.first() else {
        return Stage::NoMemory;
    };
    let HostileLine::Memory { memory } = &first.line else {
        return Stage::NoMemory;
    };
    let Some(second) = lines.get(1) else {
        return Stage::NoRings(*memory);
    };
    match &second.line {
        HostileLine::Rings { n } => Stage::Ready(*memory, *n),
        _ => Stage::NoRings(*memory),
    }
}

/// Adds a line of a run.
fn add_run(alloc: Global, apps: &mut Vec<App>, words: &mut Words) -> Result<(), LineFault>
    ensures ok { IfOk result (λ _. add_run (map app_view apps.old.items) words.old ≡ Ok (map app_view apps.new.items)) }
    ensures fault { IfErr result (IsFault (add_run (map app_view apps.old.items) words.old)) }
{
    match run_line(alloc, has_begun(apps), words)? {
        RunLine::App => add_app(alloc, apps),
        RunLine::Do(instruction) => add_instruction(apps, instruction),
    }
}

/// Whether an app has begun.
fn has_begun(apps: &[App]) -> bool
    ensures { result ≡ not (is_empty (map app_view apps.now)) }
{
    !apps.is_empty()
}

/// Adds an app without instructions.
fn add_app(alloc: Global, apps: &mut Vec<App>) -> Result<(), LineFault>
    ensures ok { IfOk result (λ _. pushed MAX_APPS (map app_view apps.old.items) [] ≡ Ok (map app_view apps.new.items)) }
    ensures fault { IfErr result (IsFault (pushed MAX_APPS (map app_view apps.old.items) [])) }
{
    let instructions = Vec::new(alloc);
    push(apps, MAX_APPS, App { instructions })
}

/// Adds an instruction to the last app.
fn add_instruction(apps: &mut Vec<App>, instruction: Instruction) -> Result<(), LineFault>
    ensures ok { IfOk result (λ _. add_act (map app_view apps.old.items) (instruction_view instruction)
        ≡ Ok (map app_view apps.new.items)) }
    ensures fault { IfErr result (IsFault (add_act (map app_view apps.old.items) (instruction_view instruction))) }
{
    let Some(app) = apps.last_mut() else {
        return Err(LineFault::Refused(Why::BadWord));
    };
    app.add(instruction)?;
    Ok(())
}

impl App {
    /// Adds an instruction.
    fn add(&mut self, instruction: Instruction) -> Result<(), LineFault>
        ensures ok { IfOk result (λ _. pushed MAX_INSTRUCTIONS (app_view self.old) (instruction_view instruction)
            ≡ Ok (app_view self.new)) }
        ensures fault { IfErr result (IsFault (pushed MAX_INSTRUCTIONS (app_view self.old) (instruction_view instruction))) }
    {
        push(&mut self.instructions, MAX_INSTRUCTIONS, instruction)
    }
}

/// Adds one behind others, of which there are fewer than the most.
fn push<X: Drop>(xs: &mut Vec<X>, most: usize, x: X) -> Result<(), LineFault>
    ensures ok { IfOk result (λ _. pushed most xs.old.items x ≡ Ok xs.new.items) }
    ensures fault { IfErr result (IsFault (pushed most xs.old.items x)) }
{
    if xs.len() >= most {
        return Err(LineFault::Refused(Why::TooMany));
    }
    match xs.push(x) {
        Ok(()) => Ok(()),
        Err(e) => Err(AllocError::from(e).into()),
    }
}

/// The first line of a text, without its LF, and the text behind it.
fn next_line(text: &[u8]) -> (&[u8], &[u8])
    requires { 0 < length text.now }
    ensures lines { lines_of text.now ≡ result.0.now ∷ lines_of result.1.now }
    ensures shorter { length result.1.now < length text.now }
{
    let end = place_of(text, b'\n');
    if end < text.len() {
        (&text[..end], &text[end + 1..])
    } else {
        (text, &[])
    }
}

/// Whether a line is skipped: it is a comment, or has no word.
fn is_skipped(text: &[u8]) -> bool
    ensures { result ≡ is_skipped text.now }
{
    text.first() == Some(&b'#') || next_word(text).is_none()
}
