//! What the host's programs do on a line, and what that prints; and what a line on the moment prints (Firecracker's vsock documentation).

ghost use Rattle.std.specs.Prelude.{◌≡◌, ◌+◌, ◌++◌, OnOk, length, string_bytes};
ghost use Rattle.vs_outside.specs.HostProgram.{after_client};
ghost use Rattle.vs_script.specs.{Data.content_of, Outside.{HostAllow, HostClosed, HostEnd, HostFail, HostListen, HostUnlisten, HostWrite, host_view}};
ghost use Rattle.vs_report.specs.HostLines.{client_text, host_played, ok_text, stream_there_text, write_text};

use crate::number::push_last;
use std::alloc::AllocError;
use vs_header::Kind;
use vs_outside::{HostWritten, MemHost};
use vs_script::{Data, HostLine};

/// A line on the host's programs: does what it says, and appends what it prints.
pub fn host_line(host: &mut MemHost, line: &HostLine, text: &mut String) -> Result<(), AllocError>
    ensures host { OnOk result (host.new.contents ≡ (host_played (host_view line.now) host.old.contents).0) }
    ensures printed { OnOk result (string_bytes text.new ≡ string_bytes text.old ++ (host_played (host_view line.now) host.old.contents).1) }
{
    match line {
        HostLine::Listen { port } => listen(host, *port, text),
        HostLine::Unlisten { port } => unlisten(host, *port, text),
        HostLine::Write { stream, content } => write(host, *stream, content, text),
        HostLine::Allow { stream, n } => allow(host, *stream, *n, text),
        HostLine::End { stream } => end(host, *stream, text),
        HostLine::Closed { stream } => closed(host, *stream, text),
        HostLine::Fail { n } => fail(host, *n, text),
    }
}

/// `client`: a client connects to the base path, and the number of its stream is appended.
pub fn client(host: &mut MemHost, text: &mut String) -> Result<(), AllocError>
    ensures host { OnOk result (host.new.contents ≡ after_client host.old.contents) }
    ensures printed { OnOk result (string_bytes text.new ≡ string_bytes text.old ++ client_text (length host.old.contents.streams + 1)) }
{
    let stream = host.client()?;
    push_client(text, stream)
}

// `host listen PORT`
fn listen(host: &mut MemHost, port: u32, text: &mut String) -> Result<(), AllocError>
    ensures host { OnOk result (host.new.contents ≡ (host_played (HostListen port) host.old.contents).0) }
    ensures printed { OnOk result (string_bytes text.new ≡ string_bytes text.old ++ (host_played (HostListen port) host.old.contents).1) }
{
    host.listen(port, Kind::Stream)?;
    push_ok(text)
}

// `host unlisten PORT`
fn unlisten(host: &mut MemHost, port: u32, text: &mut String) -> Result<(), AllocError>
    ensures host { OnOk result (host.new.contents ≡ (host_played (HostUnlisten port) host.old.contents).0) }
    ensures printed { OnOk result (string_bytes text.new ≡ string_bytes text.old ++ (host_played (HostUnlisten port) host.old.contents).1) }
{
    host.unlisten(port, Kind::Stream)?;
    push_ok(text)
}

// `host write H DATA`
fn write(
    host: &mut MemHost,
    stream: u32,
    content: &Data,
    text: &mut String,
) -> Result<(), AllocError>
    ensures host { OnOk result (host.new.contents ≡ (host_played (HostWrite stream (content_of content.now)) host.old.contents).0) }
    ensures printed { OnOk result (string_bytes text.new ≡ string_bytes text.old ++ (host_played (HostWrite stream (content_of content.now)) host.old.contents).1) }
{
    let bytes = content.to_vec(*text.allocator())?;
    let answer = host.host_write(stream as u64, &bytes)?;
    push_write(text, answer)
}

// `host allow H N`
fn allow(host: &mut MemHost, stream: u32, n: u32, text: &mut String) -> Result<(), AllocError>
    ensures host { OnOk result (host.new.contents ≡ (host_played (HostAllow stream n) host.old.contents).0) }
    ensures printed { OnOk result (string_bytes text.new ≡ string_bytes text.old ++ (host_played (HostAllow stream n) host.old.contents).1) }
{
    let found = host.allow(stream as u64, n as usize);
    push_stream_there(text, found)
}

// `host end H`
fn end(host: &mut MemHost, stream: u32, text: &mut String) -> Result<(), AllocError>
    ensures host { OnOk result (host.new.contents ≡ (host_played (HostEnd stream) host.old.contents).0) }
    ensures printed { OnOk result (string_bytes text.new ≡ string_bytes text.old ++ (host_played (HostEnd stream) host.old.contents).1) }
{
    let found = host.end(stream as u64);
    push_stream_there(text, found)
}

// `host closed H`
fn closed(host: &mut MemHost, stream: u32, text: &mut String) -> Result<(), AllocError>
    ensures host { OnOk result (host.new.contents ≡ (host_played (HostClosed stream) host.old.contents).0) }
    ensures printed { OnOk result (string_bytes text.new ≡ string_bytes text.old ++ (host_played (HostClosed stream) host.old.contents).1) }
{
    let found = host.closed(stream as u64);
    push_stream_there(text, found)
}

// `host fail N`
fn fail(host: &mut MemHost, n: u32, text: &mut String) -> Result<(), AllocError>
    ensures host { OnOk result (host.new.contents ≡ (host_played (HostFail n) host.old.contents).0) }
    ensures printed { OnOk result (string_bytes text.new ≡ string_bytes text.old ++ (host_played (HostFail n) host.old.contents).1) }
{
    host.fail(n as u64)?;
    push_ok(text)
}

/// `tick MS`, `host listen PORT`, `host unlisten PORT`, `host fail N`
pub fn push_ok(out: &mut String) -> Result<(), AllocError>
    ensures { OnOk result (string_bytes out.new ≡ string_bytes out.old ++ ok_text) }
{
    out.push_str("ok\n")
}

// The number of a client's stream.
fn push_client(out: &mut String, stream: u64) -> Result<(), AllocError>
    ensures { OnOk result (string_bytes out.new ≡ string_bytes out.old ++ client_text stream) }
{
    push_last(out, "stream ", stream)
}

// What a write answered.
fn push_write(out: &mut String, answer: HostWritten) -> Result<(), AllocError>
    ensures { OnOk result (string_bytes out.new ≡ string_bytes out.old ++ write_text answer) }
{
    match answer {
        HostWritten::Ok => out.push_str("ok\n"),
        HostWritten::Ended => out.push_str("ended\n"),
        HostWritten::NoStream => out.push_str("no stream\n"),
    }
}

// Whether there is such a stream.
fn push_stream_there(out: &mut String, found: bool) -> Result<(), AllocError>
    ensures { OnOk result (string_bytes out.new ≡ string_bytes out.old ++ stream_there_text found) }
{
    if found {
        out.push_str("ok\n")
    } else {
        out.push_str("no stream\n")
    }
}
