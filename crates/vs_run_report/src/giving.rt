//! Giving a text to a sink, line by line.

ghost use Rattle.std.specs.Prelude.{◌≡◌, ◌<◌, ◌≤◌, OnErr, OnOk, length, true};
ghost use Rattle.vs_outside.specs.Faults.{CountsFault};
ghost use Rattle.vs_peer.specs.Pieces.{Emits, EmitsSome};

use vs_outside::Sink;
use vs_peer::{SinkFault, emit};

// The end of a line.
const LF: u8 = b'\n';

// How many bytes the first line of a text has, its LF included; all, where there is no LF.
fn first_line(text: &[u8]) -> usize
    requires { 0 < length text.now }
    ensures some { 0 < result }
    ensures within { result ≤ length text.now }
{
    match text.iter().position(|byte| *byte == LF) {
        Some(at) => at + 1,
        None => text.len(),
    }
}

/// Gives a text to the sink, each of its lines by itself, LF included. Where a call of the sink fails, nothing more is given.
pub fn give_by_lines<K: Sink>(text: &[u8], out: &mut K) -> Result<(), SinkFault>
    ensures all { OnOk result (Emits (K.contents out.old) (K.contents out.new) text.now) }
    ensures no_fault { OnOk result (K.faults out.new ≡ K.faults out.old) }
    ensures some { OnErr result (EmitsSome (K.contents out.old) (K.contents out.new) text.now) }
    ensures fault { OnErr result (CountsFault true (K.faults out.old) (K.faults out.new)) }
{
    let mut at = 0;
    while at < text.len() {
        let rest = &text[at..];
        let n = first_line(rest);
        emit(out, &rest[..n])?;
        at += n;
    }
    Ok(())
}
