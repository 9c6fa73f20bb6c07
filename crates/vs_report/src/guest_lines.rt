//! What the lines print that are calls of the guest's driver (Virtio 1.2, section 5.10.6).

ghost use Rattle.std.specs.Prelude.{◌≡◌, ◌++◌, OnOk, string_bytes, codes, decimal};
ghost use Rattle.vs_report.specs.{Bytes.data_text, GuestLines.{opened_text, connection_text, connect_text, refused_text, listen_text, unlisten_text, accept_text, send_text}};
ghost use Rattle.vs_report.specs.GuestLines.{recv_text, shutdown_text, grow_text, close_text, state_text, reset_text, poll_text};
ghost use Rattle.vs_driver_parts.specs.declared.answers.Sent.TheVariants.{NoCredit};

use crate::bytes::push_data;
use crate::number::{push_last, push_number};
use std::alloc::AllocError;
use vs_driver_parts::answers::{
    Accepted, Closed, ConnId, ConnectError, ConnectionState, Grown, ListenError, Polled, Received,
    Sent, Shut,
};
use vs_flow::Flow;

/// `connect PORT`: what it answered, and the flow of the connection that was opened.
pub fn push_connect(
    out: &mut String,
    answer: Result<ConnId, ConnectError>,
    flow: Option<Flow>,
) -> Result<(), AllocError>
    ensures { OnOk result (string_bytes out.new ≡ string_bytes out.old ++ connect_text answer flow) }
{
    match answer {
        Ok(id) => push_connection(out, id, flow),
        Err(refusal) => push_refusal(out, refusal),
    }
}

// A connection: its number, its guest port and its host port.
fn push_connection(out: &mut String, id: ConnId, flow: Option<Flow>) -> Result<(), AllocError>
    ensures { OnOk result (string_bytes out.new ≡ string_bytes out.old ++ connection_text id flow) }
{
    match flow {
        Some(flow) => push_opened(out, id, flow),
        None => out.push_str("unknown\n"),
    }
}

// A connection that has a flow.
fn push_opened(out: &mut String, id: ConnId, flow: Flow) -> Result<(), AllocError>
    ensures { OnOk result (string_bytes out.new ≡ string_bytes out.old ++ opened_text id flow) }
{
    push_number(out, "conn ", id as u64)?;
    push_number(out, " on ", flow.guest as u64)?;
    push_last(out, " ", flow.host as u64)
}

// Why a connect opened nothing.
fn push_refusal(out: &mut String, refusal: ConnectError) -> Result<(), AllocError>
    ensures { OnOk result (string_bytes out.new ≡ string_bytes out.old ++ refused_text refusal) }
{
    match refusal {
        ConnectError::BadCid { cid } => push_last(out, "bad cid ", cid),
        ConnectError::BadPort { port } => push_last(out, "bad port ", port as u64),
        ConnectError::Full { slots } => push_last(out, "full ", slots as u64),
        ConnectError::PortsSpent { .. } => out.push_str("ports spent\n"),
        ConnectError::NoDescriptor { in_flight } => push_last(
            out,
            "no descriptor ",
            in_flight as u64,
        ),
    }
}

/// `listen PORT`
pub fn push_listen(out: &mut String, answer: Result<(), ListenError>) -> Result<(), AllocError>
    ensures { OnOk result (string_bytes out.new ≡ string_bytes out.old ++ listen_text answer) }
{
    match answer {
        Ok(()) => out.push_str("ok\n"),
        Err(ListenError::Taken) => out.push_str("taken\n"),
        Err(ListenError::Full { listeners }) => push_last(out, "full ", listeners as u64),
    }
}

/// `unlisten PORT`: whether the port was listened on.
pub fn push_unlisten(out: &mut String, found: bool) -> Result<(), AllocError>
    ensures { OnOk result (string_bytes out.new ≡ string_bytes out.old ++ unlisten_text found) }
{
    if found {
        out.push_str("ok\n")
    } else {
        out.push_str("not listening\n")
    }
}

/// `accept PORT`: what it answered, and the flow of the connection that was accepted.
pub fn push_accept(out: &mut String, answer: Accepted, flow: Option<Flow>) -> Result<(), AllocError>
    ensures { OnOk result (string_bytes out.new ≡ string_bytes out.old ++ accept_text answer flow) }
{
    match answer {
        Accepted::Conn(id) => push_connection(out, id, flow),
        Accepted::None => out.push_str("none\n"),
        Accepted::NotListening => out.push_str("not listening\n"),
    }
}

/// `send C DATA`
pub fn push_send(out: &mut String, answer: Sent) -> Result<(), AllocError>
    ensures { OnOk result (string_bytes out.new ≡ string_bytes out.old ++ send_text answer) }
{
    match answer {
        Sent::Took(n) => push_last(out, "took ", n as u64),
        Sent::Unknown => out.push_str("unknown\n"),
        Sent::NotOpen => out.push_str("not open\n"),
        Sent::Reset => out.push_str("reset\n"),
        Sent::ShutDown => out.push_str("shut down\n"),
        Sent::NoCredit { tx, alloc, fwd } => push_no_credit(out, tx, alloc, fwd),
        Sent::NoDescriptor { in_flight } => push_last(out, "no descriptor ", in_flight as u64),
    }
}

// The three numbers of which a send had no credit.
fn push_no_credit(out: &mut String, tx: u32, alloc: u32, fwd: u32) -> Result<(), AllocError>
    ensures { OnOk result (string_bytes out.new ≡ string_bytes out.old ++ send_text (NoCredit tx alloc fwd)) }
{
    push_number(out, "no credit ", tx as u64)?;
    push_number(out, " ", alloc as u64)?;
    push_last(out, " ", fwd as u64)
}

/// `recv C N`, with the bytes that were read.
pub fn push_recv(out: &mut String, answer: Received, bytes: &[u8]) -> Result<(), AllocError>
    ensures { OnOk result (string_bytes out.new ≡ string_bytes out.old ++ recv_text answer bytes.now) }
{
    match answer {
        Received::Got(n) => push_got(out, n, bytes),
        Received::Unknown => out.push_str("unknown\n"),
        Received::End => out.push_str("end\n"),
        Received::NotOpen => out.push_str("not open\n"),
        Received::Reset => out.push_str("reset\n"),
        Received::Empty => out.push_str("empty\n"),
    }
}

// So many bytes were read.
fn push_got(out: &mut String, n: usize, bytes: &[u8]) -> Result<(), AllocError>
    ensures { OnOk result (string_bytes out.new ≡ string_bytes out.old ++ (codes "got " ++ decimal n ++ codes " " ++ data_text bytes.now ++ codes "\n")) }
{
    push_number(out, "got ", n as u64)?;
    out.push_str(" ")?;
    push_data(out, bytes)?;
    out.push_str("\n")
}

/// `shutdown C B`
pub fn push_shutdown(out: &mut String, answer: Shut) -> Result<(), AllocError>
    ensures { OnOk result (string_bytes out.new ≡ string_bytes out.old ++ shutdown_text answer) }
{
    match answer {
        Shut::Done => out.push_str("ok\n"),
        Shut::Unknown => out.push_str("unknown\n"),
        Shut::NotOpen => out.push_str("not open\n"),
        Shut::Reset => out.push_str("reset\n"),
    }
}

/// `grow C N`
pub fn push_grow(out: &mut String, answer: Grown) -> Result<(), AllocError>
    ensures { OnOk result (string_bytes out.new ≡ string_bytes out.old ++ grow_text answer) }
{
    match answer {
        Grown::Done => out.push_str("ok\n"),
        Grown::Unknown => out.push_str("unknown\n"),
        Grown::NotOpen => out.push_str("not open\n"),
        Grown::Reset => out.push_str("reset\n"),
        Grown::TooBig { most } => push_last(out, "too big ", most as u64),
        Grown::Shrinks { now } => push_last(out, "shrinks ", now as u64),
    }
}

/// `close C`
pub fn push_close(out: &mut String, answer: Closed) -> Result<(), AllocError>
    ensures { OnOk result (string_bytes out.new ≡ string_bytes out.old ++ close_text answer) }
{
    match answer {
        Closed::Done => out.push_str("ok\n"),
        Closed::Unknown => out.push_str("unknown\n"),
    }
}

/// `state C`
pub fn push_state(out: &mut String, state: ConnectionState) -> Result<(), AllocError>
    ensures { OnOk result (string_bytes out.new ≡ string_bytes out.old ++ state_text state) }
{
    match state {
        ConnectionState::Asked => out.push_str("asked\n"),
        ConnectionState::Answering => out.push_str("answering\n"),
        ConnectionState::Live => out.push_str("open\n"),
        ConnectionState::Ended => out.push_str("ended\n"),
        ConnectionState::Gone => out.push_str("gone\n"),
        ConnectionState::Unknown => out.push_str("unknown\n"),
    }
}

/// `poll`: packets taken and posted, and 1 where a transport reset was taken, else 0.
pub fn push_poll(out: &mut String, polled: Polled) -> Result<(), AllocError>
    ensures { OnOk result (string_bytes out.new ≡ string_bytes out.old ++ poll_text polled) }
{
    push_number(out, "polled ", polled.took as u64)?;
    push_number(out, " ", polled.posted as u64)?;
    push_reset(out, polled.reset)
}

// Whether a transport reset was taken.
fn push_reset(out: &mut String, reset: bool) -> Result<(), AllocError>
    ensures { OnOk result (string_bytes out.new ≡ string_bytes out.old ++ reset_text reset) }
{
    if reset {
        out.push_str(" 1\n")
    } else {
        out.push_str(" 0\n")
    }
}
