//! Lines on what surrounds the guest's driver: the device, the moment, and the programs of the host.

ghost use Rattle.std.specs.Prelude.{◌≡◌, IfOk, IfErr, Ok, Err};
ghost use Rattle.vs_script.specs.{Field.IsFault, Outside.{around_host, host_view, outside_view, host_line, stream_line, host_write, host_allow, outside_line}};

use crate::data::Data;
use crate::fault::{LineFault, Why};
use crate::words::{Words, is};
use std::alloc::Global;
use vs_limits::{GUEST_CID_MAX, GUEST_CID_MIN};

/// The most bytes that a line of a play or of a hostile guest fills.
pub const MAX_FILL: u32 = 65_536;

/// The most that one `grow` asks for.
pub(crate) const MAX_GROW: u32 = 1_000_000;

/// The most milliseconds that a `tick` lets pass.
const MAX_TICK: u32 = 1_000_000;

/// The most bytes that a `host allow` adds.
const MAX_ALLOW: u32 = 1_000_000;

/// The most calls that a `host fail` counts.
const MAX_FAIL: u32 = 1_000;

/// A line on the device, the moment, or a program of the host.
#[derive(Drop)]
pub enum OutsideLine {
    /// `turn`: the device takes a turn.
    Turn,
    /// `reset CID`: a transport reset, after which the guest has this CID, 3 to 4,294,967,294.
    Reset { cid: u32 },
    /// `tick MS`: this many milliseconds pass, 0 to 1,000,000.
    Tick { ms: u32 },
    /// `client`: a program of the host connects to the base path.
    Client,
    /// `host grow H N`: the device raises the buffer space of a stream's connection to N bytes, 1 to 1,000,000 in a script.
    Grow { stream: u32, alloc: u32 },
    /// `host ..`: what programs of the host do.
    Host(HostLine),
}

/// A line on the programs of the host.
#[derive(Drop)]
pub enum HostLine {
    /// `host listen PORT`: a program listens at a port.
    Listen { port: u32 },
    /// `host unlisten PORT`: it listens there no more.
    Unlisten { port: u32 },
    /// `host write H DATA`: the program writes bytes to a stream.
    Write { stream: u32, content: Data },
    /// `host allow H N`: the program has room for this many bytes more on a stream, 0 to 1,000,000.
    Allow { stream: u32, n: u32 },
    /// `host end H`: the program writes no more to a stream.
    End { stream: u32 },
    /// `host closed H`: the program closes a stream.
    Closed { stream: u32 },
    /// `host fail N`: the Nth call of the host from now fails, 1 to 1,000.
    Fail { n: u32 },
}

/// What a line says behind its name, where it is one on the device, the moment or the host.
pub fn outside_line(alloc: Global, name: &[u8], words: &mut Words) -> Result<OutsideLine, LineFault>
    ensures ok { IfOk result (λ line. outside_line name.now words.old ≡ Ok (outside_view line)) }
    ensures fault { IfErr result (IsFault (outside_line name.now words.old)) }
{
    if is(name, b"turn") {
        words.end()?;
        Ok(OutsideLine::Turn)
    } else if is(name, b"reset") {
        let cid = words.only_number32(GUEST_CID_MIN, GUEST_CID_MAX)?;
        Ok(OutsideLine::Reset { cid })
    } else if is(name, b"tick") {
        let ms = words.only_number32(0, MAX_TICK)?;
        Ok(OutsideLine::Tick { ms })
    } else if is(name, b"client") {
        words.end()?;
        Ok(OutsideLine::Client)
    } else if is(name, b"host") {
        let act = words.word()?;
        around_host(alloc, act, words)
    } else {
        Err(LineFault::Refused(Why::BadWord))
    }
}

/// What a line says behind `host` and the name of an act, of the device or of a program.
fn around_host(alloc: Global, act: &[u8], words: &mut Words) -> Result<OutsideLine, LineFault>
    ensures ok { IfOk result (λ line. around_host act.now words.old ≡ Ok (outside_view line)) }
    ensures fault { IfErr result (IsFault (around_host act.now words.old)) }
{
    if is(act, b"grow") {
        let stream = words.id()?;
        let n = words.only_number32(1, MAX_GROW)?;
        Ok(OutsideLine::Grow { stream, alloc: n })
    } else {
        let line = host_line(alloc, act, words)?;
        Ok(OutsideLine::Host(line))
    }
}

/// What a line says behind `host` and the name of an act of a program.
fn host_line(alloc: Global, act: &[u8], words: &mut Words) -> Result<HostLine, LineFault>
    ensures ok { IfOk result (λ line. host_line act.now words.old ≡ Ok (host_view line)) }
    ensures fault { IfErr result (IsFault (host_line act.now words.old)) }
{
    if is(act, b"listen") {
        let port = words.only_port()?;
        Ok(HostLine::Listen { port })
    } else if is(act, b"unlisten") {
        let port = words.only_port()?;
        Ok(HostLine::Unlisten { port })
    } else {
        stream_line(alloc, act, words)
    }
}

/// What a line says behind `host` and the name of an act that is none of those on ports.
fn stream_line(alloc: Global, act: &[u8], words: &mut Words) -> Result<HostLine, LineFault>
    ensures ok { IfOk result (λ line. stream_line act.now words.old ≡ Ok (host_view line)) }
    ensures fault { IfErr result (IsFault (stream_line act.now words.old)) }
{
    if is(act, b"write") {
        host_write(alloc, words)
    } else if is(act, b"allow") {
        host_allow(words)
    } else if is(act, b"end") {
        let stream = words.only_id()?;
        Ok(HostLine::End { stream })
    } else if is(act, b"closed") {
        let stream = words.only_id()?;
        Ok(HostLine::Closed { stream })
    } else if is(act, b"fail") {
        let n = words.only_number32(1, MAX_FAIL)?;
        Ok(HostLine::Fail { n })
    } else {
        Err(LineFault::Refused(Why::BadWord))
    }
}

/// `H DATA` of `host write`.
fn host_write(alloc: Global, words: &mut Words) -> Result<HostLine, LineFault>
    ensures ok { IfOk result (λ line. host_write words.old ≡ Ok (host_view line)) }
    ensures fault { IfErr result (IsFault (host_write words.old)) }
{
    let stream = words.id()?;
    let content = words.content(alloc, MAX_FILL)?;
    words.end()?;
    Ok(HostLine::Write { stream, content })
}

/// `H N` of `host allow`.
fn host_allow(words: &mut Words) -> Result<HostLine, LineFault>
    ensures ok { IfOk result (λ line. host_allow words.old ≡ Ok (host_view line)) }
    ensures fault { IfErr result (IsFault (host_allow words.old)) }
{
    let stream = words.id()?;
    let n = words.only_number32(0, MAX_ALLOW)?;
    Ok(HostLine::Allow { stream, n })
}
