//! The report of a run.

ghost use Rattle.std.specs.Prelude.{◌≡◌, ◌++◌, ◌<◌, IfOk, OnOk, length, string_bytes};
ghost use Rattle.vs_apps_parts.specs.Scripts.{acts_of, script_of};
ghost use Rattle.vs_report.specs.Gives.{joined};
ghost use Rattle.vs_run_report.specs.{Report.{app_line, app_lines, connection_lines, ended_at, run_status, run_texts, status_after, total_lines}, Endings.state_at};

use crate::connection::push_connections_of;
use crate::ending::{Ending, ending_of, push_app};
use std::alloc::{AllocError, Global};
use vs_apps_parts::journal::{Entry, Journal};
use vs_apps_parts::progress::{AppState, Progress};
use vs_report::giving::Totals;
use vs_report::report::{push_counts, push_device_open, push_guest_open};
use vs_script::App;

/// The status of a run in which an app waits.
pub const WAITED: u8 = 5;

// The state of the app at a place.
fn state_at(apps: &[AppState], k: usize) -> AppState
    ensures { result ≡ state_at k apps.now }
{
    apps.get(k).copied().unwrap_or(AppState {
        progress: Progress::begun(),
        waiting: None,
    })
}

// How many instructions the app at a place has.
fn count_at(script: &[App], k: usize) -> usize
    ensures { result ≡ length (acts_of k (script_of script.now)) }
{
    match script.get(k) {
        Some(app) => app.instructions.len(),
        None => 0,
    }
}

/// How the app at a place ended.
pub fn ended_at(script: &[App], apps: &[AppState], entries: &[Entry], k: usize) -> Ending
    ensures { result ≡ ended_at (script_of script.now) apps.now entries.now k }
{
    ending_of(count_at(script, k), state_at(apps, k), entries)
}

// The status of a run with one more app.
fn status_after(status: u8, ending: Ending) -> u8
    ensures { result ≡ status_after status ending }
{
    if ending.is_done() { status } else { WAITED }
}

/// The status of a run: 0, or 5 where an app isn't done.
pub fn run_status(script: &[App], apps: &[AppState], entries: &[Entry]) -> u8
    ensures { result ≡ run_status (script_of script.now) apps.now entries.now }
{
    let mut status = 0;
    for k in 0..script.len() {
        status = status_after(status, ended_at(script, apps, entries, k));
    }
    status
}

// The line of the app at a place.
fn push_app_at(
    out: &mut String,
    idle: u32,
    script: &[App],
    apps: &[AppState],
    entries: &[Entry],
    k: usize,
) -> Result<(), AllocError>
    requires { k < length script.now }
    ensures { OnOk result (string_bytes out.new ≡ string_bytes out.old
        ++ app_line idle (script_of script.now) apps.now entries.now k) }
{
    push_app(out, idle, k + 1, ended_at(script, apps, entries, k))
}

/// A line for each app.
pub fn push_apps(
    out: &mut String,
    idle: u32,
    script: &[App],
    apps: &[AppState],
    entries: &[Entry],
) -> Result<(), AllocError>
    ensures { OnOk result (string_bytes out.new ≡ string_bytes out.old
        ++ joined (app_lines idle (script_of script.now) apps.now entries.now)) }
{
    for k in 0..script.len() {
        push_app_at(out, idle, script, apps, entries, k)?;
    }
    Ok(())
}

/// A line for each connection of each app.
pub fn push_connections(
    out: &mut String,
    script: &[App],
    journal: &Journal,
) -> Result<(), AllocError>
    ensures { OnOk result (string_bytes out.new ≡ string_bytes out.old
        ++ joined (connection_lines (script_of script.now) journal.now.entries journal.now.bytes)) }
{
    for k in 0..script.len() {
        push_connections_of(out, k, script, journal)?;
    }
    Ok(())
}

// How many entries the tables have, and what was counted.
fn push_totals(out: &mut String, totals: &Totals) -> Result<(), AllocError>
    ensures { OnOk result (string_bytes out.new ≡ string_bytes out.old ++ joined (total_lines totals.now)) }
{
    push_guest_open(out, totals.guest_open)?;
    push_device_open(out, totals.device_open)?;
    push_counts(out, totals.counters, Some(totals.broken))
}

/// The report of a run, where an app gives up after `idle` steps in a row that waited: a line for each app and for each connection of each
/// app, how many entries the tables have, and what was counted.
pub fn push_run(
    out: &mut String,
    idle: u32,
    script: &[App],
    apps: &[AppState],
    journal: &Journal,
    totals: &Totals,
) -> Result<(), AllocError>
    ensures { OnOk result (string_bytes out.new ≡ string_bytes out.old
        ++ joined (run_texts idle (script_of script.now) apps.now journal.now.entries journal.now.bytes totals.now)) }
{
    push_apps(out, idle, script, apps, journal.entries())?;
    push_connections(out, script, journal)?;
    push_totals(out, totals)
}

/// The same as a text.
pub fn report_text(
    alloc: Global,
    idle: u32,
    script: &[App],
    apps: &[AppState],
    journal: &Journal,
    totals: &Totals,
) -> Result<String, AllocError>
    ensures { IfOk result (λ text. string_bytes text
        ≡ joined (run_texts idle (script_of script.now) apps.now journal.now.entries journal.now.bytes totals.now)) }
{
    let mut text = String::new(alloc);
    push_run(&mut text, idle, script, apps, journal, totals)?;
    Ok(text)
}
