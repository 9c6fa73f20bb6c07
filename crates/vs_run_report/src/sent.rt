//! How many bytes were sent on each connection, by a journal, in one pass over its entries.
//!
//! Each count stands still at the last number of 64 bits. A connection on which nothing was sent may have none.

ghost use Rattle.std.specs.Prelude.{◌≡◌, ◌+◌, IfOk, List, ℕ, OnOk, Some, length, nat_eq};
ghost use Rattle.indexmap.specs.IndexMap.{get};
ghost use Rattle.vs_apps_parts.specs.{Journals.{calls_of, sent_as}, Scripts.script_of};
ghost use Rattle.vs_run_report.specs.{Connections.capped, Sums.{amount_on, count_of, sent_by}};

use crate::sums::{Portion, sent_by};
use indexmap::IndexMap;
use std::alloc::{AllocError, Global};
use vs_apps_parts::journal::Entry;
use vs_driver_parts::answers::ConnId;
use vs_script::App;

/// How many bytes were sent on each connection. The only error is want of memory.
pub fn sent_on_each(
    alloc: Global,
    script: &[App],
    entries: &[Entry],
) -> Result<IndexMap<ConnId, u64>, AllocError>
    ensures { IfOk result (λ counts. (bytes : List ℕ) (id : ℕ)
        → count_of (get nat_eq counts id) ≡ capped (length (sent_as id (calls_of (script_of script.now) bytes entries.now)))) }
{
    let mut counts = IndexMap::new(alloc);
    for entry in entries {
        add_entry(&mut counts, script, *entry)?;
    }
    Ok(counts)
}

/// How many bytes were sent on a connection, by such counts.
pub fn count_on(counts: &IndexMap<ConnId, u64>, id: ConnId) -> u64
    ensures { result ≡ count_of (get nat_eq counts.now id) }
{
    counts.get(&id).copied().unwrap_or(0)
}

// Adds what an entry tells was sent.
fn add_entry(
    counts: &mut IndexMap<ConnId, u64>,
    script: &[App],
    entry: Entry,
) -> Result<(), AllocError>
    ensures { OnOk result ((id n : ℕ) → count_of (get nat_eq counts.old id) ≡ capped n
        → count_of (get nat_eq counts.new id) ≡ capped (n + amount_on id (sent_by (script_of script.now) entry))) }
{
    match sent_by(script, entry) {
        Some(portion) => add_portion(counts, portion),
        None => Ok(()),
    }
}

// Adds what was sent on a connection.
fn add_portion(counts: &mut IndexMap<ConnId, u64>, portion: Portion) -> Result<(), AllocError>
    ensures { OnOk result ((id n : ℕ) → count_of (get nat_eq counts.old id) ≡ capped n
        → count_of (get nat_eq counts.new id) ≡ capped (n + amount_on id (Some portion))) }
{
    let count = count_on(counts, portion.id).saturating_add(portion.count as u64);
    counts.insert(portion.id, count)?;
    Ok(())
}
