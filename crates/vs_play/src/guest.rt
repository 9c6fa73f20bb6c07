//! The lines on the guest's driver: what each does over the rings, with the one end that it leads to, and what it prints.

ghost use Rattle.std.specs.Prelude.{◌≡◌, ◌≤◌, ℕ, IfOk, OnOk, length, string_bytes, take};
ghost use Rattle.vs_contents.specs.CallTree.{Done};
ghost use Rattle.vs_ring_list.specs.Ends.{Ends, empty_ends};
ghost use Rattle.vs_driver_parts.specs.{Conversations.{new_of, poll_of}, Connections.table_shown};
ghost use Rattle.vs_limits.specs.declared.TheConstants.{FIRST_PORT, LAST_PORT};
ghost use Rattle.vs_report.specs.GuestLines.{poll_text};
ghost use Rattle.vs_script.specs.{Data.{bytes_of, content_of}, Play.play_view};
ghost use Rattle.laws_world.specs.Over.{over_lists};
ghost use Rattle.laws_driver.specs.Carried.Calls.{flow_accepted, flow_opened, makes_call};
ghost use Rattle.vs_play.specs.{Ready.{IsBits, IsDriven, IsPlayable}, Told.{Answers, Drives, Replies}};
ghost use Rattle.laws_driver.specs.Carried.Calls as call;

use std::alloc::{AllocError, Global};
use vs_both_ends::BothEnds;
use vs_driver::{Accepted, ConnId, ConnectError, Driver, Received};
use vs_flow::Flow;
use vs_report::guest_lines::{
    push_accept, push_close, push_connect, push_grow, push_listen, push_poll, push_recv, push_send,
    push_shutdown, push_state, push_unlisten,
};
use vs_script::{Data, PlayLine};

/// A driver just made over empty rings, with its first port. The only error is want of memory.
pub fn new<R: BothEnds>(alloc: Global, rings: &mut R, first: u32) -> Result<Driver, AllocError>
    requires empty { (n : ℕ) × (R.ends rings.old ≡ empty_ends n) }
    requires first { (FIRST_PORT ≤ first) × (first ≤ LAST_PORT) }
    ensures played { IfOk result (λ driver. over_lists (new_of (R.ends rings.old).lists.size first 1) (R.ends rings.old) ≡ (driver, R.ends rings.new)) }
    ensures driven { IfOk result (λ driver. IsDriven driver (R.ends rings.new)) }
{
    let driver = Driver::new_at(alloc, rings, first, 1)?;
    Ok(driver)
}

/// How many entries the driver's table has.
pub fn guest_entries(driver: &Driver) -> usize
    ensures { result ≡ length (table_shown driver.now) }
{
    driver.table().count()
}

/// Plays a line on the driver; any other line does nothing. What it receives goes by way of the buffer. The only error is want of memory.
pub fn guest_line<R: BothEnds>(
    driver: &mut Driver,
    rings: &mut R,
    line: &PlayLine,
    buffer: &mut Vec<u8>,
    text: &mut String,
) -> Result<(), AllocError>
    requires driven { IsDriven driver.old (R.ends rings.old) }
    requires playable { IsPlayable (play_view line.now) }
    ensures { OnOk result (Drives (play_view line.now) driver.old driver.new (R.ends rings.old) (R.ends rings.new) (string_bytes text.old) (string_bytes text.new)) }
{
    match line {
        PlayLine::Connect { port } => connect(driver, rings, *port, text),
        PlayLine::Listen { port } => listen(driver, *port, text),
        PlayLine::Unlisten { port } => unlisten(driver, *port, text),
        PlayLine::Accept { port } => accept(driver, *port, text),
        PlayLine::Send { id, content } => send(driver, rings, *id, content, text),
        PlayLine::Recv { id, len } => recv(driver, buffer, *id, *len, text),
        PlayLine::Shutdown { id, bits } => shutdown(driver, *id, *bits, text),
        PlayLine::Grow { id, alloc } => grow(driver, *id, *alloc, text),
        PlayLine::Close { id } => close(driver, *id, text),
        PlayLine::State { id } => state(driver, *id, text),
        PlayLine::Poll => poll(driver, rings, text),
        PlayLine::Outside(_) => Ok(()),
    }
}

// `connect PORT`
fn connect<R: BothEnds>(
    driver: &mut Driver,
    rings: &mut R,
    port: u32,
    text: &mut String,
) -> Result<(), AllocError>
    requires driven { IsDriven driver.old (R.ends rings.old) }
    ensures { OnOk result (Replies (call.Connect port) driver.old driver.new (R.ends rings.old) (R.ends rings.new) (string_bytes text.old) (string_bytes text.new)) }
{
    let answer = driver.connect(rings, port);
    let flow = flow_opened(driver, answer);
    push_connect(text, answer, flow)
}

// The flow of the connection that a connect opened.
fn flow_opened(driver: &Driver, answer: Result<ConnId, ConnectError>) -> Option<Flow>
    ensures { result ≡ flow_opened answer driver.now }
{
    match answer {
        Ok(id) => driver.flow(id),
        Err(_) => None,
    }
}

// `listen PORT`
fn listen(driver: &mut Driver, port: u32, text: &mut String) -> Result<(), AllocError>
    ensures { (e : Ends) → IsDriven driver.old e → OnOk result (Replies (call.Listen port) driver.old driver.new e e (string_bytes text.old) (string_bytes text.new)) }
{
    let answer = driver.listen(port);
    push_listen(text, answer)
}

// `unlisten PORT`
fn unlisten(driver: &mut Driver, port: u32, text: &mut String) -> Result<(), AllocError>
    ensures { (e : Ends) → IsDriven driver.old e → OnOk result (Replies (call.Unlisten port) driver.old driver.new e e (string_bytes text.old) (string_bytes text.new)) }
{
    let found = unlistened(driver, port);
    push_unlisten(text, found)
}

// Listens on a port no more, and tells whether it was listened on.
fn unlistened(driver: &mut Driver, port: u32) -> bool
    ensures made { makes_call (call.Unlisten port) driver.old ≡ Done (driver.new, result) }
    ensures driven { (e : Ends) → IsDriven driver.old e → IsDriven driver.new e }
{
    driver.unlisten(port).is_ok()
}

// `accept PORT`
fn accept(driver: &mut Driver, port: u32, text: &mut String) -> Result<(), AllocError>
    ensures { (e : Ends) → IsDriven driver.old e → OnOk result (Replies (call.Accept port) driver.old driver.new e e (string_bytes text.old) (string_bytes text.new)) }
{
    let answer = driver.accept(port);
    let flow = flow_accepted(driver, answer);
    push_accept(text, answer, flow)
}

// The flow of the connection that an accept gave.
fn flow_accepted(driver: &Driver, answer: Accepted) -> Option<Flow>
    ensures { result ≡ flow_accepted answer driver.now }
{
    match answer {
        Accepted::Conn(id) => driver.flow(id),
        _ => None,
    }
}

// `send C DATA`
fn send<R: BothEnds>(
    driver: &mut Driver,
    rings: &mut R,
    id: ConnId,
    content: &Data,
    text: &mut String,
) -> Result<(), AllocError>
    requires driven { IsDriven driver.old (R.ends rings.old) }
    ensures { OnOk result (Replies (call.Send id (bytes_of (content_of content.now))) driver.old driver.new (R.ends rings.old) (R.ends rings.new) (string_bytes text.old) (string_bytes text.new)) }
{
    let bytes = content.to_vec(*text.allocator())?;
    send_bytes(driver, rings, id, &bytes, text)
}

// The same, of these bytes.
fn send_bytes<R: BothEnds>(
    driver: &mut Driver,
    rings: &mut R,
    id: ConnId,
    bytes: &[u8],
    text: &mut String,
) -> Result<(), AllocError>
    requires driven { IsDriven driver.old (R.ends rings.old) }
    ensures { OnOk result (Replies (call.Send id bytes.now) driver.old driver.new (R.ends rings.old) (R.ends rings.new) (string_bytes text.old) (string_bytes text.new)) }
{
    let answer = driver.send(rings, id, bytes);
    push_send(text, answer)
}

// `recv C N`, by way of a buffer that grows where it is shorter and is never cleared.
fn recv(
    driver: &mut Driver,
    buffer: &mut Vec<u8>,
    id: ConnId,
    len: u32,
    text: &mut String,
) -> Result<(), AllocError>
    ensures { (e : Ends) → IsDriven driver.old e → OnOk result (Replies (call.Recv id len) driver.old driver.new e e (string_bytes text.old) (string_bytes text.new)) }
{
    let len = len as usize;
    make_long(buffer, len)?;
    recv_into(driver, id, &mut buffer[..len], text)
}

// Makes a buffer at least so long. The only error is want of memory.
fn make_long(buffer: &mut Vec<u8>, len: usize) -> Result<(), AllocError>
    ensures { OnOk result (len ≤ length buffer.new.items) }
{
    if buffer.len() < len {
        *buffer = vec![in *buffer.allocator(); 0; len]?;
    }
    Ok(())
}

// The same, by way of a buffer as long as what is asked for.
fn recv_into(
    driver: &mut Driver,
    id: ConnId,
    buffer: &mut [u8],
    text: &mut String,
) -> Result<(), AllocError>
    ensures { (e : Ends) → IsDriven driver.old e → OnOk result (Replies (call.Recv id (length buffer.old)) driver.old driver.new e e (string_bytes text.old) (string_bytes text.new)) }
{
    let (answer, count) = received(driver, id, buffer);
    push_recv(text, answer, &buffer[..count])
}

// Receives as many bytes of a connection as the buffer holds, and tells how many stand in front of it.
fn received(driver: &mut Driver, id: ConnId, buffer: &mut [u8]) -> (Received, usize)
    ensures made { makes_call (call.Recv id (length buffer.old)) driver.old ≡ Done (driver.new, (result.0, take result.1 buffer.new)) }
    ensures driven { (e : Ends) → IsDriven driver.old e → IsDriven driver.new e }
    ensures within { result.1 ≤ length buffer.new }
{
    let answer = driver.recv(id, buffer);
    (answer, answer.count().min(buffer.len()))
}

// `shutdown C B`
fn shutdown(driver: &mut Driver, id: ConnId, bits: u8, text: &mut String) -> Result<(), AllocError>
    requires bits { IsBits bits }
    ensures { (e : Ends) → IsDriven driver.old e → OnOk result (Replies (call.Shutdown id bits) driver.old driver.new e e (string_bytes text.old) (string_bytes text.new)) }
{
    let answer = driver.shutdown(id, bits);
    push_shutdown(text, answer)
}

// `grow C N`
fn grow(driver: &mut Driver, id: ConnId, alloc: u32, text: &mut String) -> Result<(), AllocError>
    ensures { (e : Ends) → IsDriven driver.old e → OnOk result (Replies (call.Grow id alloc) driver.old driver.new e e (string_bytes text.old) (string_bytes text.new)) }
{
    let answer = driver.grow(id, alloc);
    push_grow(text, answer)
}

// `close C`
fn close(driver: &mut Driver, id: ConnId, text: &mut String) -> Result<(), AllocError>
    ensures { (e : Ends) → IsDriven driver.old e → OnOk result (Replies (call.Close id) driver.old driver.new e e (string_bytes text.old) (string_bytes text.new)) }
{
    let answer = driver.close(id);
    push_close(text, answer)
}

// `state C`
fn state(driver: &Driver, id: ConnId, text: &mut String) -> Result<(), AllocError>
    ensures { (e : Ends) → IsDriven driver.now e → OnOk result (Replies (call.LookAt id) driver.now driver.now e e (string_bytes text.old) (string_bytes text.new)) }
{
    push_state(text, driver.state(id))
}

// `poll`
fn poll<R: BothEnds>(
    driver: &mut Driver,
    rings: &mut R,
    text: &mut String,
) -> Result<(), AllocError>
    requires driven { IsDriven driver.old (R.ends rings.old) }
    ensures { OnOk result (Answers (poll_of driver.old) (λ polled s. poll_text polled) driver.new (R.ends rings.old) (R.ends rings.new) (string_bytes text.old) (string_bytes text.new)) }
{
    let polled = driver.poll(rings);
    push_poll(text, polled)
}
