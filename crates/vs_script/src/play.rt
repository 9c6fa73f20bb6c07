//! Event lines of a play: what the guest does, and what happens around it.

ghost use Rattle.std.specs.Prelude.{◌≡◌, IfOk, IfErr, Ok};
ghost use Rattle.vs_script.specs.{Field.IsFault, Play.{play_view, play_line, named_line, connection_line, grow_line, send_line, recv_line, shutdown_line}};

use crate::data::Data;
use crate::fault::LineFault;
use crate::outside::{MAX_FILL, MAX_GROW, OutsideLine, outside_line};
use crate::words::{MAX_BITS, Words, is};
use std::alloc::Global;

/// The most bytes that one `recv` of a play asks for.
const MAX_RECV: u32 = 65_536;

/// An event line of a play.
#[derive(Drop)]
pub enum PlayLine {
    /// `connect PORT`: the guest asks for a connection to a port of the host.
    Connect { port: u32 },
    /// `listen PORT`: the guest listens at a port.
    Listen { port: u32 },
    /// `unlisten PORT`: it listens there no more.
    Unlisten { port: u32 },
    /// `accept PORT`: the guest takes the oldest connection that waits at a port.
    Accept { port: u32 },
    /// `send C DATA`: the guest sends bytes on a connection.
    Send { id: u32, content: Data },
    /// `recv C N`: the guest takes up to N bytes of a connection, 1 to 65,536.
    Recv { id: u32, len: u32 },
    /// `shutdown C B`: bit 0, it receives no more; bit 1, it sends no more (1 to 3).
    Shutdown { id: u32, bits: u8 },
    /// `grow C N`: the guest raises the buffer space of a connection to N bytes, 1 to 1,000,000 in a script.
    Grow { id: u32, alloc: u32 },
    /// `close C`: the guest is done with a connection.
    Close { id: u32 },
    /// `state C`: the guest asks how a connection stands.
    State { id: u32 },
    /// `poll`: the guest's driver looks at its rings.
    Poll,
    /// A line on the device, the moment or the host.
    Outside(OutsideLine),
}

/// The event line that the words of a line say.
pub fn play_line(alloc: Global, words: &mut Words) -> Result<PlayLine, LineFault>
    ensures ok { IfOk result (λ line. play_line words.old ≡ Ok (play_view line)) }
    ensures fault { IfErr result (IsFault (play_line words.old)) }
{
    let name = words.word()?;
    named_line(alloc, name, words)
}

/// The event line of a name and the words behind it.
fn named_line(alloc: Global, name: &[u8], words: &mut Words) -> Result<PlayLine, LineFault>
    ensures ok { IfOk result (λ line. named_line name.now words.old ≡ Ok (play_view line)) }
    ensures fault { IfErr result (IsFault (named_line name.now words.old)) }
{
    if is(name, b"connect") {
        let port = words.only_port()?;
        Ok(PlayLine::Connect { port })
    } else if is(name, b"listen") {
        let port = words.only_port()?;
        Ok(PlayLine::Listen { port })
    } else if is(name, b"unlisten") {
        let port = words.only_port()?;
        Ok(PlayLine::Unlisten { port })
    } else if is(name, b"accept") {
        let port = words.only_port()?;
        Ok(PlayLine::Accept { port })
    } else {
        connection_line(alloc, name, words)
    }
}

/// The event line of a name that is none of those on ports, and the words behind it.
fn connection_line(alloc: Global, name: &[u8], words: &mut Words) -> Result<PlayLine, LineFault>
    ensures ok { IfOk result (λ line. connection_line name.now words.old ≡ Ok (play_view line)) }
    ensures fault { IfErr result (IsFault (connection_line name.now words.old)) }
{
    if is(name, b"send") {
        send_line(alloc, words)
    } else if is(name, b"recv") {
        recv_line(words)
    } else if is(name, b"shutdown") {
        shutdown_line(words)
    } else if is(name, b"grow") {
        grow_line(words)
    } else if is(name, b"close") {
        let id = words.only_id()?;
        Ok(PlayLine::Close { id })
    } else if is(name, b"state") {
        let id = words.only_id()?;
        Ok(PlayLine::State { id })
    } else if is(name, b"poll") {
        words.end()?;
        Ok(PlayLine::Poll)
    } else {
        let line = outside_line(alloc, name, words)?;
        Ok(PlayLine::Outside(line))
    }
}

/// `C DATA` of `send`.
fn send_line(alloc: Global, words: &mut Words) -> Result<PlayLine, LineFault>
    ensures ok { IfOk result (λ line. send_line words.old ≡ Ok (play_view line)) }
    ensures fault { IfErr result (IsFault (send_line words.old)) }
{
    let id = words.id()?;
    let content = words.content(alloc, MAX_FILL)?;
    words.end()?;
    Ok(PlayLine::Send { id, content })
}

/// `C N` of `recv`.
fn recv_line(words: &mut Words) -> Result<PlayLine, LineFault>
    ensures ok { IfOk result (λ line. recv_line words.old ≡ Ok (play_view line)) }
    ensures fault { IfErr result (IsFault (recv_line words.old)) }
{
    let id = words.id()?;
    let len = words.only_number32(1, MAX_RECV)?;
    Ok(PlayLine::Recv { id, len })
}

/// `C B` of `shutdown`.
fn shutdown_line(words: &mut Words) -> Result<PlayLine, LineFault>
    ensures ok { IfOk result (λ line. shutdown_line words.old ≡ Ok (play_view line)) }
    ensures fault { IfErr result (IsFault (shutdown_line words.old)) }
{
    let id = words.id()?;
    let bits = words.only_number8(1, MAX_BITS)?;
    Ok(PlayLine::Shutdown { id, bits })
}

/// `C N` of `grow`.
fn grow_line(words: &mut Words) -> Result<PlayLine, LineFault>
    ensures ok { IfOk result (λ line. grow_line words.old ≡ Ok (play_view line)) }
    ensures fault { IfErr result (IsFault (grow_line words.old)) }
{
    let id = words.id()?;
    let alloc = words.only_number32(1, MAX_GROW)?;
    Ok(PlayLine::Grow { id, alloc })
}
