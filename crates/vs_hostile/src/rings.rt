//! The rings of a hostile guest: three queues from the lowest address of its memory on.

ghost use Rattle.std.specs.Prelude.{◌≡◌, ◌≤◌, ◌<◌, IfOk};
ghost use Rattle.vs_layout.specs.{Layout.AreInside, Layout.queue_areas_of, Span.span_end};
ghost use Rattle.vs_hostile.specs.Rings.{are_placed, rings_of};

use crate::whole::WholeSide;
use std::alloc::{AllocError, Global};
use vs_guest_mem::PlainMem;
use vs_layout::{QueueAreas, Span, areas, next_queue, queue_areas};
use vs_ring_plain::device::DeviceSide;

/// The most descriptors of a queue.
const MAX_SIZE: u16 = 256;

/// The highest lowest address of the memory: 2^62.
const MAX_BASE: u64 = 4_611_686_018_427_387_904;

/// The most bytes of the memory.
const MAX_MEMORY: u64 = 1_048_576;

/// Makes a memory whose bytes are all 0, and the device's end of three queues of n descriptors in it; none where they don't fit. The
/// only error is want of memory.
pub fn make_rings(alloc: Global, memory: Span, n: u16) -> Result<Option<WholeSide>, AllocError>
    ensures { IfOk result (λ ring. ring ≡ rings_of memory n) }
{
    if !are_placed(memory, n) {
        return Ok(None);
    }
    let areas = placed(memory, n);
    let mem = PlainMem::new(alloc, memory.at, memory.len)?;
    let side = DeviceSide::new(alloc, mem, areas, n, false)?;
    Ok(Some(WholeSide::new(side)))
}

// Whether three queues of n descriptors lie in the memory.
fn are_placed(memory: Span, n: u16) -> bool
    ensures { result ≡ are_placed memory n }
{
    n > 0
        && n <= MAX_SIZE
        && memory.at <= MAX_BASE
        && memory.len <= MAX_MEMORY
        && queues_end(memory.at, n) - memory.at <= memory.len
}

// Where three queues of n descriptors from an address on end.
fn queues_end(at: u64, n: u16) -> u64
    requires low { at ≤ MAX_BASE }
    ensures end { result ≡ (queue_areas_of at n).event.end }
    ensures behind { at ≤ result }
{
    queue_areas(at, n).event.end
}

// The three queues, all of whose areas lie in the memory.
fn placed(memory: Span, n: u16) -> QueueAreas
    requires low { memory.at ≤ MAX_BASE }
    requires fits { (queue_areas_of memory.at n).event.end ≤ span_end memory }
    ensures exact { result ≡ queue_areas_of memory.at n }
    ensures rx { AreInside result.rx n memory }
    ensures tx { AreInside result.tx n memory }
    ensures event { AreInside result.event n memory }
{
    let rx = areas(memory.at, n);
    let tx = areas(next_queue(&rx), n);
    let event = areas(next_queue(&tx), n);
    QueueAreas { rx, tx, event }
}
