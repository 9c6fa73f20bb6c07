//! What passes once a client was answered: the bytes of its source one way, and what comes to its sink the other.
ghost use Rattle.std.specs.{Prelude.◌≡◌, Option.ForSome};
ghost use Rattle.vs_outside.specs.{Faults.CountsFault, Host.IsOpen};
ghost use Rattle.vs_peer.specs.{Failing.{host_failed, sink_failed}, Exchanging.{Exchanges, Steps, comes_to}, Sending.{GoesOn, IsSending}, Waiting.{Paused, pauses_of}};

use crate::receive::{Came, receive};
use crate::send::{Sending, Side};
use crate::stop::Stop;
use crate::wait::gives_up;
use std::sync::Wait;
use vs_outside::{Gate, HostNet, Sink};

/// What a step comes to.
#[derive(Clone, Copy, Debug, PartialEq, Eq)]
pub enum Progress {
    /// Nothing more comes, and nothing more is sent.
    Done,
    /// Some bytes moved.
    Moved,
    /// Nothing moved.
    Still,
}

/// Sends these bytes, and gives what comes to the sink, to the end of both.
pub fn exchange<R: Wait, H: HostNet, K: Sink, G: Gate>(
    rt: &R,
    host: &mut H,
    id: u64,
    bytes: &[u8],
    idle: u32,
    gate: &mut G,
    out: &mut K,
) -> Result<(), Stop>
    requires open { ForSome (H.contents host.old) (IsOpen id) }
    ensures exchanges { Exchanges id bytes.now
        (H.contents host.old) (H.contents host.new) (K.contents out.old) (K.contents out.new) result }
    ensures host_faults { CountsFault (host_failed result) (H.faults host.old) (H.faults host.new) }
    ensures sink_faults { CountsFault (sink_failed result) (K.faults out.old) (K.faults out.new) }
    ensures pauses { Paused (pauses_of idle result) (G.pauses gate.old) (G.pauses gate.new) }
{
    let mut sending = Sending {
        sent: 0,
        side: Side::Open,
    };
    let mut waited = 0;
    for _ in rt.forever() {
        match step(host, id, bytes, &mut sending, out)? {
            Progress::Done => return Ok(()),
            Progress::Moved => waited = 0,
            Progress::Still => {
                if gives_up(&mut waited, idle, gate) {
                    return Err(Stop::Waited);
                }
            }
        }
    }
    unreachable!()
}

// One write of unsent bytes, and one read.
fn step<H: HostNet, K: Sink>(
    host: &mut H,
    id: u64,
    bytes: &[u8],
    sending: &mut Sending,
    out: &mut K,
) -> Result<Progress, Stop>
    requires open { ForSome (H.contents host.old) (IsOpen id) }
    requires sending { IsSending id bytes.now sending.old (H.contents host.old) }
    ensures open { ForSome (H.contents host.new) (IsOpen id) }
    ensures sending { IsSending id bytes.now sending.new (H.contents host.new) }
    ensures goes_on { GoesOn sending.old sending.new }
    ensures steps { Steps id bytes.now sending.old sending.new
        (H.contents host.old) (H.contents host.new) (K.contents out.old) (K.contents out.new) result }
    ensures host_faults { CountsFault (host_failed result) (H.faults host.old) (H.faults host.new) }
    ensures sink_faults { CountsFault (sink_failed result) (K.faults out.old) (K.faults out.new) }
{
    let sent = sending.step(host, id, bytes)?;
    let came = receive(host, id, out)?;
    Ok(comes_to(sending.side, sent, came))
}

// What a step comes to, in which bytes were sent or weren't, and this came.
fn comes_to(side: Side, sent: bool, came: Came) -> Progress
    ensures { result ≡ comes_to side sent came }
{
    match came {
        Came::End if side != Side::Open => Progress::Done,
        Came::Bytes => Progress::Moved,
        _ if sent => Progress::Moved,
        _ => Progress::Still,
    }
}
