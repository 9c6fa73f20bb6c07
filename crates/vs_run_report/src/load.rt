//! The line of a load.

ghost use Rattle.std.specs.Prelude.{◌≡◌, ◌++◌, OnOk, string_bytes};
ghost use Rattle.vs_run_report.specs.Load.{load_text};

use std::alloc::AllocError;
use vs_report::number::{push_last, push_number};

/// The port to which each app of a load connects.
pub const LOAD_PORT: u32 = 7;

/// What a load prints: how many apps there were, how many bytes they sent in all, and at how many places the byte that came back is the one
/// that was sent.
pub fn push_load(out: &mut String, conns: u32, bytes: u64, matched: u64) -> Result<(), AllocError>
    ensures { OnOk result (string_bytes out.new ≡ string_bytes out.old ++ load_text conns bytes matched) }
{
    push_number(out, "conns ", conns as u64)?;
    push_number(out, " bytes ", bytes)?;
    push_last(out, " matched ", matched)
}
