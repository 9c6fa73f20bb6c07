//! What the lines print that are the device's turns, resets and growths.

ghost use Rattle.std.specs.Prelude.{◌≡◌, ◌++◌, OnOk, string_bytes};
ghost use Rattle.vs_report.specs.DeviceLines.{one_value_text, two_values_text, failure_text, moved_text, turn_text, turned_text, growth_text, reset_text};

use crate::number::{push_last, push_number};
use std::alloc::AllocError;
use vs_device_parts::answers::Grown;
use vs_proxy_parts::answers::Turn;
use vs_ring_port::Failure;

/// `turn`: what moved, or the failure of the ring.
pub fn push_turn(out: &mut String, turn: Turn) -> Result<(), AllocError>
    ensures { OnOk result (string_bytes out.new ≡ string_bytes out.old ++ turn_text turn) }
{
    match turn {
        Turn::Turned(t) => push_turned(out, t.took, t.put, t.read, t.wrote, t.opened, t.closed),
        Turn::Failed(failure) => push_failure(out, failure),
    }
}

// What moved: packets taken and put, bytes read of the host's streams and written to them, connections opened and closed.
fn push_turned(
    out: &mut String,
    took: u32,
    put: u32,
    read: u32,
    wrote: u32,
    opened: u32,
    closed: u32,
) -> Result<(), AllocError>
    ensures { OnOk result (string_bytes out.new ≡ string_bytes out.old ++ turned_text took put read wrote opened closed) }
{
    push_number(out, "turned ", took as u64)?;
    push_number(out, " ", put as u64)?;
    push_number(out, " ", read as u64)?;
    push_moved(out, wrote, opened, closed)
}

// The rest of a turn's line: bytes written to the host's streams, connections opened and closed.
fn push_moved(out: &mut String, wrote: u32, opened: u32, closed: u32) -> Result<(), AllocError>
    ensures { OnOk result (string_bytes out.new ≡ string_bytes out.old ++ moved_text wrote opened closed) }
{
    push_number(out, " ", wrote as u64)?;
    push_number(out, " ", opened as u64)?;
    push_last(out, " ", closed as u64)
}

/// `reset CID`
pub fn push_reset(out: &mut String, answer: Result<(), Failure>) -> Result<(), AllocError>
    ensures { OnOk result (string_bytes out.new ≡ string_bytes out.old ++ reset_text answer) }
{
    match answer {
        Ok(()) => out.push_str("ok\n"),
        Err(failure) => push_failure(out, failure),
    }
}

/// A failure of the ring: its name, and the values that show it.
pub fn push_failure(out: &mut String, failure: Failure) -> Result<(), AllocError>
    ensures { OnOk result (string_bytes out.new ≡ string_bytes out.old ++ failure_text failure) }
{
    match failure {
        Failure::AvailJump { taken, idx } => push_two(out, "AvailJump", taken as u64, idx as u64),
        Failure::HeadRange { head, n } => push_two(out, "HeadRange", head as u64, n as u64),
        Failure::Indirect { number } => push_one(out, "Indirect", number as u64),
        Failure::TxWritable { number } => push_one(out, "TxWritable", number as u64),
        Failure::RxReadable { number } => push_one(out, "RxReadable", number as u64),
        Failure::AddrRange { addr, len } => push_two(out, "AddrRange", addr, len),
        Failure::ChainLong { n } => push_one(out, "ChainLong", n as u64),
        Failure::NextRange { next, n } => push_two(out, "NextRange", next as u64, n as u64),
        Failure::TxShort { readable } => push_one(out, "TxShort", readable),
        Failure::RxSmall { writable } => push_one(out, "RxSmall", writable),
        Failure::EventSmall { writable } => push_one(out, "EventSmall", writable),
        Failure::PayloadShort { len, held } => push_two(out, "PayloadShort", len as u64, held),
        Failure::IndirectNext { number } => push_one(out, "IndirectNext", number as u64),
        Failure::IndirectLen { len } => push_one(out, "IndirectLen", len as u64),
        Failure::IndirectNested { number } => push_one(out, "IndirectNested", number as u64),
    }
}

// A failure that one value shows.
fn push_one(out: &mut String, name: &str, value: u64) -> Result<(), AllocError>
    ensures { OnOk result (string_bytes out.new ≡ string_bytes out.old ++ one_value_text name.now value) }
{
    out.push_str("failed ")?;
    out.push_str(name)?;
    push_last(out, " ", value)
}

// A failure that two values show.
fn push_two(out: &mut String, name: &str, first: u64, second: u64) -> Result<(), AllocError>
    ensures { OnOk result (string_bytes out.new ≡ string_bytes out.old ++ two_values_text name.now first second) }
{
    out.push_str("failed ")?;
    out.push_str(name)?;
    push_number(out, " ", first)?;
    push_last(out, " ", second)
}

/// `host grow H N`: what was answered, where there is such a stream.
pub fn push_growth(out: &mut String, answer: Option<Grown>) -> Result<(), AllocError>
    ensures { OnOk result (string_bytes out.new ≡ string_bytes out.old ++ growth_text answer) }
{
    match answer {
        None => out.push_str("no stream\n"),
        Some(Grown::Done) => out.push_str("ok\n"),
        Some(Grown::Unknown) => out.push_str("unknown\n"),
        Some(Grown::NotOpen) => out.push_str("not open\n"),
        Some(Grown::Reset) => out.push_str("reset\n"),
        Some(Grown::TooBig { most }) => push_last(out, "too big ", most as u64),
        Some(Grown::Shrinks { now }) => push_last(out, "shrinks ", now as u64),
    }
}
