//! How many bytes were sent on a connection, by a journal.

ghost use Rattle.std.specs.Prelude.{◌≡◌, List, ℕ, length};
ghost use Rattle.vs_script.specs.App.{instruction_view};
ghost use Rattle.vs_apps_parts.specs.{Journals.{calls_of, data_at, data_in, sent_as}, Scripts.{acts_of, script_of}};
ghost use Rattle.vs_run_report.specs.{Connections.capped, Sums.{amount_on, sent_by, sent_in, took_number}};

use vs_apps_parts::journal::{Called, Deed, Entry};
use vs_driver_parts::answers::{ConnId, Sent};
use vs_script::{App, Instruction};

/// Bytes that an entry tells were sent on a connection.
#[derive(Clone, Copy)]
pub struct Portion {
    pub id: ConnId,
    pub count: usize,
}

/// How many bytes were sent on a connection. The count stands still at the last number of 64 bits.
pub fn sent_on(id: ConnId, script: &[App], entries: &[Entry]) -> u64
    ensures { (bytes : List ℕ) → result ≡ capped (length (sent_as id (calls_of (script_of script.now) bytes entries.now))) }
{
    let mut sent = 0u64;
    for entry in entries {
        sent = sent.saturating_add(amount_on(id, sent_by(script, *entry)) as u64);
    }
    sent
}

// How many of these bytes were sent on a connection.
fn amount_on(id: ConnId, portion: Option<Portion>) -> usize
    ensures { result ≡ amount_on id portion }
{
    match portion {
        Some(portion) => { if id == portion.id { portion.count } else { 0 } }
        None => 0,
    }
}

/// On which connection an entry tells of a send, and how many bytes that took.
pub fn sent_by(script: &[App], entry: Entry) -> Option<Portion>
    ensures { result ≡ sent_by (script_of script.now) entry }
{
    match entry.deed {
        Deed::Called(called) => sent_in(script, entry.app, called),
        Deed::Waited { times: _, why: _ } => None,
    }
}

// On which connection a call sent, and how many bytes.
fn sent_in(script: &[App], app: usize, called: Called) -> Option<Portion>
    ensures { result ≡ sent_in (script_of script.now) app called }
{
    match called {
        Called::Send {
            id,
            at,
            from,
            len,
            answer,
        } => {
            let count = took_number(
                len.min(data_len(script, app, at).saturating_sub(from)),
                answer,
            );
            Some(Portion { id, count })
        }
        _ => None,
    }
}

// How many bytes a send of so many took.
fn took_number(len: usize, answer: Sent) -> usize
    ensures { result ≡ took_number len answer }
{
    match answer {
        Sent::Took(n) => n.min(len),
        _ => 0,
    }
}

// How many bytes of data the instruction at a place of an app has.
fn data_len(script: &[App], app: usize, at: usize) -> usize
    ensures { result ≡ length (data_at at (acts_of app (script_of script.now))) }
{
    let Some(app) = script.get(app) else {
        return 0;
    };
    match app.instructions.get(at) {
        Some(instruction) => data_len_in(instruction),
        None => 0,
    }
}

// How many bytes of data an instruction has.
fn data_len_in(instruction: &Instruction) -> usize
    ensures { result ≡ length (data_in (instruction_view instruction.now)) }
{
    match instruction {
        Instruction::Send { content } => content.len(),
        Instruction::Exchange { content } => content.len(),
        _ => 0,
    }
}
