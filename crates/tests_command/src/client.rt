//! The one call of the client of the mapping.

use std::alloc::AllocGlobal;
use std::sync::Wait;
use vs_outside::{Gate, HostNet, MemSink, MemSource};
use vs_peer::peer;

/// The status of a client of the guest's port 70.
pub fn client<R: AllocGlobal + Wait, H: HostNet, G: Gate>(
    rt: &R,
    path: &str,
    idle: u32,
    source: &mut MemSource,
    host: &mut H,
    gate: &mut G,
    sink: &mut MemSink,
) -> u8 {
    peer(rt, path, 70, idle, source, host, gate, sink)
}
