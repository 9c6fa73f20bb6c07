//! The report behind the last line of a play.

ghost use Rattle.std.specs.Prelude.{◌≡◌, ◌++◌, OnOk, string_bytes, codes};
ghost use Rattle.vs_report.specs.{Bytes.excerpt_text, Report.{guest_open_text, device_open_text, stream_text, flow_text, labelled_text, broken_text, counts_text}};

use crate::bytes::push_excerpt;
use crate::number::{push_last, push_number};
use std::alloc::AllocError;
use vs_device_parts::answers::Counters;
use vs_excerpt::Excerpt;
use vs_flow::Flow;
use vs_outside::MemStream;

/// How many entries the driver's table has.
pub fn push_guest_open(out: &mut String, entries: usize) -> Result<(), AllocError>
    ensures { OnOk result (string_bytes out.new ≡ string_bytes out.old ++ guest_open_text entries) }
{
    push_last(out, "guest open ", entries as u64)
}

/// How many entries the device's table has.
pub fn push_device_open(out: &mut String, entries: usize) -> Result<(), AllocError>
    ensures { OnOk result (string_bytes out.new ≡ string_bytes out.old ++ device_open_text entries) }
{
    push_last(out, "device open ", entries as u64)
}

/// A stream of the host: its number, its label's guest port and host port, what its program wrote behind a CONNECT line and the proxy took,
/// and what its program was given to read behind an OK line.
pub fn push_stream(out: &mut String, number: u64, stream: &MemStream) -> Result<(), AllocError>
    ensures { OnOk result (string_bytes out.new ≡ string_bytes out.old ++ stream_text number stream.now) }
{
    push_number(out, "stream ", number)?;
    out.push_str(" ")?;
    push_labelled(
        out,
        stream.label(),
        stream.wrote_after_connect(),
        stream.read_after_ok(),
    )
}

// What stands behind a stream's number.
fn push_labelled(
    out: &mut String,
    label: Option<Flow>,
    wrote: &Excerpt,
    read: &Excerpt,
) -> Result<(), AllocError>
    ensures { OnOk result (string_bytes out.new ≡ string_bytes out.old ++ labelled_text label (excerpt_text wrote.now) (excerpt_text read.now)) }
{
    match label {
        Some(flow) => push_flow(out, flow, wrote, read),
        None => out.push_str("- - wrote 0 - read 0 -\n"),
    }
}

// The ports of a stream's label, and what its program wrote and read.
fn push_flow(
    out: &mut String,
    flow: Flow,
    wrote: &Excerpt,
    read: &Excerpt,
) -> Result<(), AllocError>
    ensures { OnOk result (string_bytes out.new ≡ string_bytes out.old ++ flow_text flow (excerpt_text wrote.now) (excerpt_text read.now)) }
{
    push_number(out, "", flow.guest as u64)?;
    push_number(out, " ", flow.host as u64)?;
    out.push_str(" wrote ")?;
    push_excerpt(out, wrote)?;
    push_read(out, read)
}

// What a stream's program read, by an excerpt.
fn push_read(out: &mut String, read: &Excerpt) -> Result<(), AllocError>
    ensures { OnOk result (string_bytes out.new ≡ string_bytes out.old ++ (codes " read " ++ excerpt_text read.now ++ codes "\n")) }
{
    out.push_str(" read ")?;
    push_excerpt(out, read)?;
    out.push_str("\n")
}

// The packets that broke a connection of the guest, where there is a driver.
fn push_broken(out: &mut String, broken: Option<u64>) -> Result<(), AllocError>
    ensures { OnOk result (string_bytes out.new ≡ string_bytes out.old ++ broken_text broken) }
{
    match broken {
        Some(broken) => push_number(out, " broken ", broken),
        None => Ok(()),
    }
}

/// What was counted: packets dropped, payload beyond the room, calls of the host that failed; where there is a driver, between them the
/// packets that broke a connection of the guest.
pub fn push_counts(
    out: &mut String,
    counters: Counters,
    broken: Option<u64>,
) -> Result<(), AllocError>
    ensures { OnOk result (string_bytes out.new ≡ string_bytes out.old ++ counts_text counters broken) }
{
    push_number(out, "dropped ", counters.dropped)?;
    push_number(out, " overrun ", counters.overrun)?;
    push_broken(out, broken)?;
    push_last(out, " faults ", counters.faults)
}
