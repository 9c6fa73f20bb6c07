//! Apps of a run: the instructions that each carries out in turn.

ghost use Rattle.std.specs.Prelude.{◌≡◌, IfOk, IfErr, Ok, Err};
ghost use Rattle.vs_script.specs.{Field.IsFault, App.{instruction_view, run_view, instruction_line, connection_instruction, run_line, run_line_named}};

use crate::data::Data;
use crate::fault::{LineFault, Why};
use crate::outside::MAX_GROW;
use crate::words::{MAX_BITS, Words, is};
use std::alloc::Global;

/// The most bytes that an instruction fills.
const MAX_APP_FILL: u32 = 1_000_000;

/// The most bytes that a `recv` of an app waits for.
const MAX_APP_RECV: u32 = 1_000_000;

/// An instruction of an app. Its connection is the last one that it connected or accepted.
#[derive(Drop)]
pub enum Instruction {
    /// `connect PORT`: connect to a port of the host.
    Connect { port: u32 },
    /// `listen PORT`: listen at a port.
    Listen { port: u32 },
    /// `accept PORT`: take the oldest connection that waits at a port.
    Accept { port: u32 },
    /// `send DATA`: send all bytes.
    Send { content: Data },
    /// `recv N`: take N bytes in all, 1 to 1,000,000.
    Recv { len: u32 },
    /// `drain`: take bytes up to the end.
    Drain,
    /// `exchange DATA`: send all bytes, and take as many.
    Exchange { content: Data },
    /// `shutdown B`: bit 0, receive no more; bit 1, send no more (1 to 3).
    Shutdown { bits: u8 },
    /// `grow N`: raise the buffer space of the connection to N bytes, 1 to 1,000,000 in a script.
    Grow { alloc: u32 },
    /// `close`: be done with the connection.
    Close,
}

/// An app: its instructions in order. Instruction I, counted from 1, stands at place I - 1.
#[derive(Drop)]
pub struct App {
    /// The instructions, 1,000 at most.
    pub instructions: Vec<Instruction>,
}

/// A line of a run.
#[derive(Drop)]
pub enum RunLine {
    /// `app`: an app begins.
    App,
    /// An instruction of the app that began last.
    Do(Instruction),
}

/// The line of a run that the words of a line say. An instruction stands behind the first `app`.
pub fn run_line(alloc: Global, begun: bool, words: &mut Words) -> Result<RunLine, LineFault>
    ensures ok { IfOk result (λ line. run_line begun words.old ≡ Ok (run_view line)) }
    ensures fault { IfErr result (IsFault (run_line begun words.old)) }
{
    let name = words.word()?;
    run_line_named(alloc, begun, name, words)
}

/// The line of a run of a name and the words behind it.
fn run_line_named(
    alloc: Global,
    begun: bool,
    name: &[u8],
    words: &mut Words,
) -> Result<RunLine, LineFault>
    ensures ok { IfOk result (λ line. run_line_named begun name.now words.old ≡ Ok (run_view line)) }
    ensures fault { IfErr result (IsFault (run_line_named begun name.now words.old)) }
{
    if is(name, b"app") {
        words.end()?;
        Ok(RunLine::App)
    } else if begun {
        let instruction = instruction_line(alloc, name, words)?;
        Ok(RunLine::Do(instruction))
    } else {
        Err(LineFault::Refused(Why::BadWord))
    }
}

/// The instruction of a name and the words behind it.
fn instruction_line(alloc: Global, name: &[u8], words: &mut Words) -> Result<Instruction, LineFault>
    ensures ok { IfOk result (λ line. instruction_line name.now words.old ≡ Ok (instruction_view line)) }
    ensures fault { IfErr result (IsFault (instruction_line name.now words.old)) }
{
    if is(name, b"connect") {
        let port = words.only_port()?;
        Ok(Instruction::Connect { port })
    } else if is(name, b"listen") {
        let port = words.only_port()?;
        Ok(Instruction::Listen { port })
    } else if is(name, b"accept") {
        let port = words.only_port()?;
        Ok(Instruction::Accept { port })
    } else {
        connection_instruction(alloc, name, words)
    }
}

/// The instruction of a name that is none of those on ports, and the words behind it.
fn connection_instruction(
    alloc: Global,
    name: &[u8],
    words: &mut Words,
) -> Result<Instruction, LineFault>
    ensures ok { IfOk result (λ line. connection_instruction name.now words.old ≡ Ok (instruction_view line)) }
    ensures fault { IfErr result (IsFault (connection_instruction name.now words.old)) }
{
    if is(name, b"send") {
        let content = words.only_content(alloc, MAX_APP_FILL)?;
        Ok(Instruction::Send { content })
    } else if is(name, b"recv") {
        let len = words.only_number32(1, MAX_APP_RECV)?;
        Ok(Instruction::Recv { len })
    } else if is(name, b"drain") {
        words.end()?;
        Ok(Instruction::Drain)
    } else if is(name, b"exchange") {
        let content = words.only_content(alloc, MAX_APP_FILL)?;
        Ok(Instruction::Exchange { content })
    } else if is(name, b"shutdown") {
        let bits = words.only_number8(1, MAX_BITS)?;
        Ok(Instruction::Shutdown { bits })
    } else if is(name, b"grow") {
        let alloc = words.only_number32(1, MAX_GROW)?;
        Ok(Instruction::Grow { alloc })
    } else if is(name, b"close") {
        words.end()?;
        Ok(Instruction::Close)
    } else {
        Err(LineFault::Refused(Why::BadWord))
    }
}
