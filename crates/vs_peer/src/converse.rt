//! A client's whole conversation with a host.
ghost use Rattle.std.specs.{Option.ForSome, Prelude.IfOk};
ghost use Rattle.vs_outside.specs.{Faults.CountsFault, Host.IsOpen};
ghost use Rattle.vs_peer.specs.{Client.{Dials, Opens}, Conversing.Converses, Failing.{host_failed, sink_failed}, Text.GivesPort, Waiting.{Paused, pauses_of}};

use crate::ask::{answer, ask};
use crate::exchange::exchange;
use crate::sink::{SinkFault, emit};
use crate::stop::Stop;
use crate::text::port_line;
use std::sync::Wait;
use vs_flow::Flow;
use vs_outside::{Dialed, Gate, HostNet, Sink};
use vs_uds::connect_line;

/// A stream that was answered.
#[derive(Clone, Copy, Debug, PartialEq, Eq)]
pub struct Opened {
    /// The stream's id.
    pub id: u64,
    /// The host's port of the connection.
    pub host_port: u32,
}

/// Asks who listens at the base path for a port of the guest, sends these bytes, and gives what comes to the sink behind the line that
/// tells the host's port.
pub fn converse<R: Wait, H: HostNet, K: Sink, G: Gate>(
    rt: &R,
    host: &mut H,
    base: &str,
    port: u32,
    bytes: &[u8],
    idle: u32,
    gate: &mut G,
    out: &mut K,
) -> Result<(), Stop>
    ensures converses { Converses base.now port bytes.now
        (H.contents host.old) (H.contents host.new) (K.contents out.old) (K.contents out.new) result }
    ensures host_faults { CountsFault (host_failed result) (H.faults host.old) (H.faults host.new) }
    ensures sink_faults { CountsFault (sink_failed result) (K.faults out.old) (K.faults out.new) }
    ensures pauses { Paused (pauses_of idle result) (G.pauses gate.old) (G.pauses gate.new) }
{
    let opened = open(rt, host, base, port, idle, gate)?;
    give_port(out, opened.host_port)?;
    exchange(rt, host, opened.id, bytes, idle, gate, out)
}

// Dials the base path, asks for the port, and reads the answer.
fn open<R: Wait, H: HostNet, G: Gate>(
    rt: &R,
    host: &mut H,
    base: &str,
    port: u32,
    idle: u32,
    gate: &mut G,
) -> Result<Opened, Stop>
    ensures open { IfOk result (λ opened. ForSome (H.contents host.new) (IsOpen opened.id)) }
    ensures opens { Opens base.now port (H.contents host.old) (H.contents host.new) result }
    ensures faults { CountsFault (host_failed result) (H.faults host.old) (H.faults host.new) }
    ensures pauses { Paused (pauses_of idle result) (G.pauses gate.old) (G.pauses gate.new) }
{
    let id = dial(host, base, port)?;
    ask(rt, host, id, connect_line(port).as_bytes(), idle, gate)?;
    let host_port = answer(rt, host, id, idle, gate)?;
    Ok(Opened { id, host_port })
}

// Dials the base path. No host port is known before the answer.
fn dial<H: HostNet>(host: &mut H, base: &str, port: u32) -> Result<u64, Stop>
    ensures open { IfOk result (λ id. ForSome (H.contents host.new) (IsOpen id)) }
    ensures dials { Dials base.now port (H.contents host.old) (H.contents host.new) result }
    ensures faults { CountsFault (host_failed result) (H.faults host.old) (H.faults host.new) }
{
    let flow = Flow::to_host(port, 0);
    match host.dial(base, flow) {
        Dialed::Stream(id) => Ok(id),
        Dialed::Refused => Err(Stop::Refused),
        Dialed::Failed => Err(Stop::Host),
    }
}

// Gives the line that tells the host's port to the sink.
fn give_port<K: Sink>(out: &mut K, host_port: u32) -> Result<(), Stop>
    ensures gives { GivesPort (K.contents out.old) (K.contents out.new) host_port result }
    ensures faults { CountsFault (sink_failed result) (K.faults out.old) (K.faults out.new) }
{
    match emit(out, port_line(host_port).as_str().as_bytes()) {
        Ok(()) => Ok(()),
        Err(SinkFault) => Err(Stop::Sink),
    }
}
