//! Giving bytes to a sink, whole.
ghost use Rattle.std.specs.Prelude.{◌≡◌, OnOk, OnErr, true};
ghost use Rattle.vs_outside.specs.Faults.{CountsFault};
ghost use Rattle.vs_peer.specs.Pieces.{Emits, EmitsSome};

use vs_outside::{Sink, SinkWrite};

/// A call of the sink failed, and counted a fault.
#[derive(Clone, Copy, Debug, PartialEq, Eq)]
pub struct SinkFault;

/// Gives all bytes to the sink, in as many pieces as it takes them. Where a call fails, nothing more is given.
pub fn emit<K: Sink>(out: &mut K, bytes: &[u8]) -> Result<(), SinkFault>
    ensures all { OnOk result (Emits (K.contents out.old) (K.contents out.new) bytes.now) }
    ensures no_fault { OnOk result (K.faults out.new ≡ K.faults out.old) }
    ensures some { OnErr result (EmitsSome (K.contents out.old) (K.contents out.new) bytes.now) }
    ensures fault { OnErr result (CountsFault true (K.faults out.old) (K.faults out.new)) }
{
    let mut at = 0;
    while at < bytes.len() {
        match out.write(&bytes[at..]) {
            SinkWrite::Took(n) => at += n,
            SinkWrite::Failed => return Err(SinkFault),
        }
    }
    Ok(())
}
