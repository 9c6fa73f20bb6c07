//! How many bytes the apps of a load sent, and how many came back.

ghost use Rattle.std.specs.{Prelude.{◌≡◌, IfOk, length, nat_eq, string_bytes}, List.{All, fold}};
ghost use Rattle.indexmap.specs.IndexMap.{get};
ghost use Rattle.vs_apps_parts.specs.{Journals.calls_of, Scripts.{RunScript, script_of}};
ghost use Rattle.vs_run_report.specs.Connections.{listed, opened_all};
ghost use Rattle.vs_load_parts.specs.Line.{CameBack, counts, load_line, no_tally, opened_next, tally_of};

use indexmap::IndexMap;
use std::alloc::{AllocError, Global};
use vs_apps_parts::journal::{Entry, Journal};
use vs_driver_parts::answers::ConnId;
use vs_run_report::connection::{Opened, opened_by};
use vs_run_report::load::push_load;
use vs_run_report::sent::{count_on, sent_on_each};
use vs_script::App;

/// The bytes that were sent, and the places where the byte that came back is the one that was sent. Each count stands still at the last number of
/// 64 bits.
#[derive(Clone, Copy)]
pub struct Tally {
    pub sent: u64,
    pub matched: u64,
}

// The tally with one connection more.
fn add(tally: Tally, opened: Opened, sent: &IndexMap<ConnId, u64>, journal: &Journal) -> Tally
    ensures { (script : RunScript) → result ≡ counts (get nat_eq sent.now) (calls_of script journal.now.bytes journal.now.entries) tally opened }
{
    let count = count_on(sent, opened.id);
    let excerpt = journal.excerpt(opened.id);
    let sent = tally.sent.saturating_add(count);
    let matched = tally.matched.saturating_add(excerpt.count);
    Tally { sent, matched }
}

// The tally with the connection that an entry opened, if it did.
fn add_opened(
    tally: Tally,
    opened: Option<Opened>,
    sent: &IndexMap<ConnId, u64>,
    journal: &Journal,
) -> Tally
    ensures { (script : RunScript) → result
        ≡ fold (counts (get nat_eq sent.now) (calls_of script journal.now.bytes journal.now.entries)) tally (listed opened) }
{
    match opened {
        Some(opened) => add(tally, opened, sent, journal),
        None => tally,
    }
}

// The tally with the connection that an entry of the script's apps opened, if it did.
fn add_entry(
    tally: Tally,
    entry: Entry,
    script: &[App],
    sent: &IndexMap<ConnId, u64>,
    journal: &Journal,
) -> Tally
    ensures { result ≡ fold (counts (get nat_eq sent.now) (calls_of (script_of script.now) journal.now.bytes journal.now.entries)) tally
        (opened_next (length (script_of script.now)) entry) }
{
    if entry.app < script.len() {
        add_opened(tally, opened_by(entry.app, entry), sent, journal)
    } else {
        tally
    }
}

// The tally of the connections that these entries opened.
fn add_all(
    script: &[App],
    sent: &IndexMap<ConnId, u64>,
    entries: &[Entry],
    journal: &Journal,
) -> Tally
    ensures { result ≡ fold (counts (get nat_eq sent.now) (calls_of (script_of script.now) journal.now.bytes journal.now.entries)) no_tally
        (opened_all (length (script_of script.now)) entries.now) }
{
    let mut tally = Tally {
        sent: 0,
        matched: 0,
    };
    for entry in entries {
        tally = add_entry(tally, *entry, script, sent, journal);
    }
    tally
}

/// The bytes that were sent on all connections, and the places that match, by the journal, where what was received on each is a prefix of what was sent
/// there: so the bytes that were received are as many as match. The only error is want of memory.
pub fn tally_of(alloc: Global, script: &[App], journal: &Journal) -> Result<Tally, AllocError>
    requires { All (CameBack (calls_of (script_of script.now) journal.now.bytes journal.now.entries))
        (opened_all (length (script_of script.now)) journal.now.entries) }
    ensures { IfOk result (λ tally. tally ≡ tally_of (script_of script.now) journal.now.entries journal.now.bytes) }
{
    let entries = journal.entries();
    let sent = sent_on_each(alloc, script, entries)?;
    Ok(add_all(script, &sent, entries, journal))
}

/// The line of a load with so many apps, by the journal, where what was received on each connection is a prefix of what was sent there. The only error
/// is want of memory.
pub fn load_line(
    alloc: Global,
    conns: u32,
    script: &[App],
    journal: &Journal,
) -> Result<String, AllocError>
    requires { All (CameBack (calls_of (script_of script.now) journal.now.bytes journal.now.entries))
        (opened_all (length (script_of script.now)) journal.now.entries) }
    ensures { IfOk result (λ line. string_bytes line ≡ load_line conns (script_of script.now) journal.now.entries journal.now.bytes) }
{
    let tally = tally_of(alloc, script, journal)?;
    let mut line = String::new(alloc);
    push_load(&mut line, conns, tally.sent, tally.matched)?;
    Ok(line)
}
