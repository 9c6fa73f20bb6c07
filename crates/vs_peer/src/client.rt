//! A client of the mapping, from its source's first byte to its status.
ghost use Rattle.std.specs.Prelude.{◌≡◌, true};
ghost use Rattle.vs_peer.specs.{Statuses.{NoFault, Says, is_faultless}, Ends.{EndsAs, EndsUnread, Meets, PeerEnds}};

use crate::converse::converse;
use crate::sink::{SinkFault, emit};
use crate::source::{ReadError, SOURCE_MAX, read_source};
use crate::stop::Stop;
use crate::text::waited_line;
use std::alloc::AllocGlobal;
use std::sync::Wait;
use vs_outside::{Gate, HostNet, Sink, Source};

/// The status of a client that is done.
pub const DONE: u8 = 0;

/// The status of a source of more than `SOURCE_MAX` bytes.
pub const BAD_SOURCE: u8 = 2;

/// The status of a source of which a call failed.
pub const READ_FAULT: u8 = 3;

/// The status of a sink of which a call failed. Nothing more is written.
pub const SINK_FAULT: u8 = 4;

/// The status of a client that waited long enough.
pub const WAITED: u8 = 5;

/// The status of a host of which a call failed.
pub const HOST_FAULT: u8 = 6;

/// The status of a client that wasn't answered by an OK line.
pub const REFUSED: u8 = 8;

/// The status of want of memory.
pub const NO_MEMORY: u8 = 9;

/// A client of the mapping (Firecracker's vsock documentation). It reads all of its source, dials the base path, writes `CONNECT PORT` and
/// reads the OK line byte by byte; writes `port HOSTPORT` to `out`; then makes, in each step, one write of at most 4,096 unsent bytes and
/// one read of at most 4,096 bytes, which go to `out`. When all is sent it shuts its write side; a write that finds the stream closed ends
/// the sending. The status is
///
/// - 0: nothing more came, and all was sent or the stream was closed.
/// - 2: the source gave more than `SOURCE_MAX` bytes, and `line 0 TooLong` was written.
/// - 3: a call of `source` failed, and `read fault` was written.
/// - 4: a call of `out` failed, and nothing more was written.
/// - 5: nothing moved in `idle` steps in a row, with a pause of `gate` each, and `waited IDLE` was written behind what came before.
/// - 6: a dial, a read or a write of `host` failed, and `host fault` was written behind what came before.
/// - 8: nobody listens at the base path, or no OK line came, and `peer refused` was written.
/// - 9: memory ran out, and `no memory` was written.
///
/// It goes on while its stream moves, so it may never return.
pub fn peer<R: AllocGlobal + Wait, S: Source, K: Sink, H: HostNet, G: Gate>(
    rt: &R,
    base: &str,
    port: u32,
    idle: u32,
    source: &mut S,
    host: &mut H,
    gate: &mut G,
    out: &mut K,
) -> u8
    // What the status says of source, host and sink; there is no other status.
    ensures says { Says base.now port idle
        (record {
          source = S.contents source.old;
          host = H.contents host.old;
          out = K.contents out.old;
          source_faults = S.faults source.old;
          host_faults = H.faults host.old;
          sink_faults = K.faults out.old;
          pauses = G.pauses gate.old;
        })
        (record {
          source = S.contents source.new;
          host = H.contents host.new;
          out = K.contents out.new;
          source_faults = S.faults source.new;
          host_faults = H.faults host.new;
          sink_faults = K.faults out.new;
          pauses = G.pauses gate.new;
        })
        result }
    // Where no call of source, host and sink failed.
    ensures faultless { NoFault
        (record {
          source = S.contents source.old;
          host = H.contents host.old;
          out = K.contents out.old;
          source_faults = S.faults source.old;
          host_faults = H.faults host.old;
          sink_faults = K.faults out.old;
          pauses = G.pauses gate.old;
        })
        (record {
          source = S.contents source.new;
          host = H.contents host.new;
          out = K.contents out.new;
          source_faults = S.faults source.new;
          host_faults = H.faults host.new;
          sink_faults = K.faults out.new;
          pauses = G.pauses gate.new;
        })
        → is_faultless result ≡ true }
{
    run(rt, base, port, idle, source, host, gate, out)
}

// The same, by the steps that it takes.
fn run<R: AllocGlobal + Wait, S: Source, K: Sink, H: HostNet, G: Gate>(
    rt: &R,
    base: &str,
    port: u32,
    idle: u32,
    source: &mut S,
    host: &mut H,
    gate: &mut G,
    out: &mut K,
) -> u8
    ensures ends { PeerEnds base.now port idle
        (record {
          source = S.contents source.old;
          host = H.contents host.old;
          out = K.contents out.old;
          source_faults = S.faults source.old;
          host_faults = H.faults host.old;
          sink_faults = K.faults out.old;
          pauses = G.pauses gate.old;
        })
        (record {
          source = S.contents source.new;
          host = H.contents host.new;
          out = K.contents out.new;
          source_faults = S.faults source.new;
          host_faults = H.faults host.new;
          sink_faults = K.faults out.new;
          pauses = G.pauses gate.new;
        })
        result }
{
    let bytes = match read_source(rt.alloc(), source) {
        Ok(bytes) => bytes,
        Err(error) => return unread(out, error),
    };
    if bytes.len() > SOURCE_MAX {
        return ended(out, b"line 0 TooLong\n", BAD_SOURCE);
    }
    converse_to_end(rt, base, port, &bytes, idle, host, gate, out)
}

// Says why the source wasn't read.
fn unread<K: Sink>(out: &mut K, error: ReadError) -> u8
    ensures { EndsUnread (K.contents out.old) (K.contents out.new) (K.faults out.old) (K.faults out.new) error result }
{
    match error {
        ReadError::Fault => ended(out, b"read fault\n", READ_FAULT),
        ReadError::OutOfMemory => ended(out, b"no memory\n", NO_MEMORY),
    }
}

// Sends these bytes, and answers the status.
fn converse_to_end<R: Wait, H: HostNet, K: Sink, G: Gate>(
    rt: &R,
    base: &str,
    port: u32,
    bytes: &[u8],
    idle: u32,
    host: &mut H,
    gate: &mut G,
    out: &mut K,
) -> u8
    ensures meets { Meets base.now port bytes.now idle
        (H.contents host.old) (H.contents host.new) (H.faults host.old) (H.faults host.new)
        (G.pauses gate.old) (G.pauses gate.new) (K.contents out.old) (K.contents out.new) (K.faults out.old) (K.faults out.new) result }
{
    match converse(rt, host, base, port, bytes, idle, gate, out) {
        Ok(()) => DONE,
        Err(Stop::Waited) => ended(out, waited_line(idle).as_str().as_bytes(), WAITED),
        Err(Stop::Host) => ended(out, b"host fault\n", HOST_FAULT),
        Err(Stop::Refused) => ended(out, b"peer refused\n", REFUSED),
        Err(Stop::Sink) => SINK_FAULT,
    }
}

// Writes the last line, and answers the status; that of the sink, where it fails.
fn ended<K: Sink>(out: &mut K, line: &[u8], status: u8) -> u8
    ensures { EndsAs (K.contents out.old) (K.contents out.new) (K.faults out.old) (K.faults out.new) line.now status result }
{
    match emit(out, line) {
        Ok(()) => status,
        Err(SinkFault) => SINK_FAULT,
    }
}
