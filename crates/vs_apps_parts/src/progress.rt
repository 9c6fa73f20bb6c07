//! How far an app is, and what a step of it does.

ghost use Rattle.std.specs.Prelude.{◌≡◌, ◌+◌, ◌<◌, ◌≤◌, ◌^◌, None};
ghost use Rattle.vs_script.specs.App.{instruction_view};
ghost use Rattle.vs_apps_parts.specs.{Scripts.{after_step, begun, counted, id_of, is_complete, on_to_next, slice_left}, Told.{step_wait, told_list}};

use crate::journal::WaitsFor;
use crate::told::{Heard, Told};
use vs_driver_parts::answers::ConnId;
use vs_script::Instruction;

/// The most bytes that one send or receive of an app moves.
pub const SLICE: usize = 4096;

/// How many bytes the next send or receive moves at most, where so many of them all are done.
pub fn slice_left(done: usize, whole: usize) -> usize
    ensures exact { result ≡ slice_left done whole }
    ensures few { result ≤ SLICE }
{
    whole.saturating_sub(done).min(SLICE)
}

/// How far an app is: at which instruction, counted from 0; whether the instruction has asked for its connection; how many bytes it sent and
/// how many it received; and the connection that the app connected or accepted last.
#[derive(Clone, Copy)]
pub struct Progress {
    pub at: usize,
    pub asked: bool,
    pub sent: usize,
    pub got: usize,
    pub conn: Option<ConnId>,
}

/// The state of an app: its progress, and the place of its last entry in the journal where that is a wait.
#[derive(Clone, Copy)]
pub struct AppState {
    pub progress: Progress,
    pub waiting: Option<usize>,
}

/// What a step of an app did.
#[derive(Clone, Copy)]
pub enum Stepped {
    /// It asked for a connection, moved a byte or ended an instruction.
    Moved,
    /// Each call that it made waits.
    Waiting(WaitsFor),
    /// Nothing: all instructions are done.
    Done,
    /// Nothing, for want of memory, or since the bytes of the run can't be counted in 64 bits.
    OutOfMemory,
}

impl Progress {
    /// The progress at first.
    pub fn begun() -> Progress
        ensures { result ≡ begun }
    {
        Progress {
            at: 0,
            asked: false,
            sent: 0,
            got: 0,
            conn: None,
        }
    }

    /// The id that the app's calls name: its connection's, or 0, which no connection has.
    pub fn id(self) -> ConnId
        ensures { result ≡ id_of self }
    {
        self.conn.unwrap_or(0)
    }

    /// At the next instruction.
    pub fn on_to_next(self) -> Progress
        requires { self.at + 1 < 2 ^ 64 }
        ensures { result ≡ on_to_next self }
    {
        Progress {
            at: self.at + 1,
            asked: false,
            sent: 0,
            got: 0,
            conn: self.conn,
        }
    }

    /// With what a reply told added. A drain doesn't count what came.
    fn counted(self, instruction: &Instruction, told: Told) -> Progress
        ensures { result ≡ counted (instruction_view instruction.now) told self }
    {
        let mut progress = self;
        match told {
            Told::Asked(id) => {
                progress.asked = true;
                progress.conn = Some(id);
            }
            Told::Given(id) => progress.conn = Some(id),
            Told::Took(n) => progress.sent = self.sent.saturating_add(n),
            Told::Got(n) => {
                if !matches!(instruction, Instruction::Drain) {
                    progress.got = self.got.saturating_add(n);
                }
            }
            Told::Waits(_) | Told::Ends => {}
        }
        progress
    }

    /// Whether all that the instruction is to move was moved.
    fn is_complete(self, instruction: &Instruction) -> bool
        ensures { result ≡ is_complete (instruction_view instruction.now) self }
    {
        match instruction {
            Instruction::Send { content } => content.len() <= self.sent,
            Instruction::Recv { len } => *len as usize <= self.got,
            Instruction::Exchange { content } => {
                content.len() <= self.sent && content.len() <= self.got
            }
            _ => false,
        }
    }

    /// The progress after a step that didn't wait.
    pub fn after(self, instruction: &Instruction, heard: Heard) -> Progress
        requires moves { step_wait (told_list heard) ≡ None }
        requires next { self.at + 1 < 2 ^ 64 }
        ensures { result ≡ after_step (instruction_view instruction.now) (told_list heard) self }
    {
        let mut progress = self;
        if let Some(told) = heard.first {
            progress = progress.counted(instruction, told);
        }
        if let Some(told) = heard.second {
            progress = progress.counted(instruction, told);
        }
        if heard.is_end() || progress.is_complete(instruction) {
            progress.on_to_next()
        } else {
            progress
        }
    }
}
