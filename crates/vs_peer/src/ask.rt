//! How a client asks for a port of the guest, and is answered (Firecracker's vsock documentation).
ghost use Rattle.std.specs.Option.{ForSome};
ghost use Rattle.vs_outside.specs.{Faults.CountsFault, Host.IsOpen};
ghost use Rattle.vs_peer.specs.{Failing.host_failed, Asking.Asks, Asking.Answers, Waiting.Paused, Waiting.pauses_of};

use crate::stop::Stop;
use crate::stream::{read, write};
use crate::wait::gives_up;
use std::sync::Wait;
use vs_outside::{Gate, HostNet, StreamRead, StreamWrite};
use vs_uds::{OkLine, Step};

/// Writes the CONNECT line.
pub fn ask<R: Wait, H: HostNet, G: Gate>(
    rt: &R,
    host: &mut H,
    id: u64,
    line: &[u8],
    idle: u32,
    gate: &mut G,
) -> Result<(), Stop>
    requires open { ForSome (H.contents host.old) (IsOpen id) }
    ensures open { ForSome (H.contents host.new) (IsOpen id) }
    ensures asks { Asks id line.now (H.contents host.old) (H.contents host.new) result }
    ensures faults { CountsFault (host_failed result) (H.faults host.old) (H.faults host.new) }
    ensures pauses { Paused (pauses_of idle result) (G.pauses gate.old) (G.pauses gate.new) }
{
    let mut at = 0;
    let mut waited = 0;
    for _ in rt.forever() {
        if at == line.len() {
            return Ok(());
        }
        match write(host, id, &line[at..]) {
            StreamWrite::Took(n) => {
                at += n;
                waited = 0;
            }
            StreamWrite::Again => {
                if gives_up(&mut waited, idle, gate) {
                    return Err(Stop::Waited);
                }
            }
            StreamWrite::Closed => return Err(Stop::Refused),
            StreamWrite::Failed => return Err(Stop::Host),
        }
    }
    unreachable!()
}

/// Reads the OK line, byte by byte and no further, and gives its port.
pub fn answer<R: Wait, H: HostNet, G: Gate>(
    rt: &R,
    host: &mut H,
    id: u64,
    idle: u32,
    gate: &mut G,
) -> Result<u32, Stop>
    requires open { ForSome (H.contents host.old) (IsOpen id) }
    ensures open { ForSome (H.contents host.new) (IsOpen id) }
    ensures answers { Answers id (H.contents host.old) (H.contents host.new) result }
    ensures faults { CountsFault (host_failed result) (H.faults host.old) (H.faults host.new) }
    ensures pauses { Paused (pauses_of idle result) (G.pauses gate.old) (G.pauses gate.new) }
{
    let mut line = OkLine::new();
    let mut byte = [0];
    let mut waited = 0;
    for _ in rt.forever() {
        match read(host, id, &mut byte) {
            StreamRead::Got(_) => match line.feed(byte[0]) {
                Step::More => waited = 0,
                Step::Port(port) => return Ok(port),
                Step::Bad => return Err(Stop::Refused),
            },
            StreamRead::Again => {
                if gives_up(&mut waited, idle, gate) {
                    return Err(Stop::Waited);
                }
            }
            StreamRead::End => return Err(Stop::Refused),
            StreamRead::Failed => return Err(Stop::Host),
        }
    }
    unreachable!()
}
