//! How each app of a run ended.

ghost use Rattle.std.specs.Prelude.{◌≡◌, ◌++◌, OnOk, string_bytes};
ghost use Rattle.vs_run_report.specs.{Endings.{app_text, ending_of, ending_text, is_done, why_at, why_text}, declared.ending.Ending.TheVariants.Waited};

use std::alloc::AllocError;
use vs_apps_parts::journal::{Deed, Entry, WaitsFor};
use vs_apps_parts::progress::AppState;
use vs_report::number::{push_last, push_number};

/// How an app ended.
#[derive(Clone, Copy)]
pub enum Ending {
    /// All its instructions are done.
    Done,
    /// It waits for this at the instruction of this number, counted from 1.
    Waited { why: WaitsFor, at: usize },
    /// It is at the instruction of this number, and goes on. No app does so once a run is at rest.
    GoesOn { at: usize },
}

impl Ending {
    /// Whether all is done.
    pub fn is_done(self) -> bool
        ensures { result ≡ is_done self }
    {
        matches!(self, Ending::Done)
    }
}

// What the entry at a place waits for, where there is one that waits.
fn why_at(waiting: Option<usize>, entries: &[Entry]) -> Option<WaitsFor>
    ensures { result ≡ why_at waiting entries.now }
{
    let place = waiting?;
    let entry = entries.get(place).copied()?;
    match entry.deed {
        Deed::Called(_) => None,
        Deed::Waited { times: _, why } => Some(why),
    }
}

/// How an app of so many instructions ended, by its state and the journal.
pub fn ending_of(count: usize, state: AppState, entries: &[Entry]) -> Ending
    ensures { result ≡ ending_of count state entries.now }
{
    if state.progress.at < count {
        let at = state.progress.at + 1;
        match why_at(state.waiting, entries) {
            Some(why) => Ending::Waited { why, at },
            None => Ending::GoesOn { at },
        }
    } else {
        Ending::Done
    }
}

/// The line of the app of a number, counted from 1, where an app gives up after `idle` steps in a row that waited.
pub fn push_app(
    out: &mut String,
    idle: u32,
    number: usize,
    ending: Ending,
) -> Result<(), AllocError>
    ensures { OnOk result (string_bytes out.new ≡ string_bytes out.old ++ app_text idle number ending) }
{
    push_number(out, "app ", number as u64)?;
    push_ending(out, idle, ending)
}

// What stands behind an app's number.
fn push_ending(out: &mut String, idle: u32, ending: Ending) -> Result<(), AllocError>
    ensures { OnOk result (string_bytes out.new ≡ string_bytes out.old ++ ending_text idle ending) }
{
    match ending {
        Ending::Done => out.push_str(" done\n"),
        Ending::Waited { why, at } => push_waited(out, idle, why, at),
        Ending::GoesOn { at } => push_last(out, " goes on at ", at as u64),
    }
}

// That it waited, for what, and where.
fn push_waited(out: &mut String, idle: u32, why: WaitsFor, at: usize) -> Result<(), AllocError>
    ensures { OnOk result (string_bytes out.new ≡ string_bytes out.old ++ ending_text idle (Waited why at)) }
{
    push_number(out, " waited ", idle as u64)?;
    out.push_str(" ")?;
    push_why(out, why)?;
    push_last(out, " at ", at as u64)
}

// The word for what an app waits for.
fn push_why(out: &mut String, why: WaitsFor) -> Result<(), AllocError>
    ensures { OnOk result (string_bytes out.new ≡ string_bytes out.old ++ why_text why) }
{
    match why {
        WaitsFor::Full => out.push_str("full"),
        WaitsFor::NoDescriptor { in_flight: _ } => out.push_str("no descriptor"),
        WaitsFor::NoCredit {
            tx: _,
            alloc: _,
            fwd: _,
        } => out.push_str("no credit"),
        WaitsFor::Empty => out.push_str("empty"),
        WaitsFor::NoneWaiting => out.push_str("none"),
        WaitsFor::NotOpen => out.push_str("not open"),
    }
}
