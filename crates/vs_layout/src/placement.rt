//! Where this project places queues: the areas of a queue one after another, and the three queues likewise.
ghost use Rattle.std.specs.{Prelude.{◌≡◌, ◌≤◌, ◌<◌, ◌+◌, ◌%◌, ◌^◌}, Int.next_multiple_of};
ghost use Rattle.vs_layout.specs.{Layout.{areas_of, queue_areas_of, desc_area, avail_area, used_area, IsPlaced}, Span.span_end};

use crate::place::Areas;

/// Places a queue of n entries at an address: descriptors, available ring, used ring, each at the next address that
/// its alignment allows (Virtio 1.2, section 2.7).
pub fn areas(at: u64, n: u16) -> Areas
    requires fits { (areas_of at n).end < 2 ^ 64 }
    ensures exact { result ≡ areas_of at n }
    ensures placed { at % 16 ≡ 0 → IsPlaced result n }
    ensures ordered { (span_end (desc_area result n) ≤ result.avail) × (span_end (avail_area result n) ≤ result.used)
        × (span_end (used_area result n) ≡ result.end) }
{
    let avail = at + 16 * n as u64;
    let used = (avail + 6 + 2 * n as u64).next_multiple_of(4);
    Areas {
        desc: at,
        avail,
        used,
        end: used + 6 + 8 * n as u64,
    }
}

/// Where the queue behind these areas begins: at the next multiple of 16.
pub fn next_queue(areas: &Areas) -> u64
    requires fits { next_multiple_of areas.now.end 16 < 2 ^ 64 }
    ensures exact { result ≡ next_multiple_of areas.now.end 16 }
    ensures aligned { result % 16 ≡ 0 }
    ensures behind { areas.now.end ≤ result }
{
    areas.end.next_multiple_of(16)
}

/// The areas of the device's three queues (Virtio 1.2, section 5.10.2).
#[derive(Clone, Copy, Debug, PartialEq, Eq)]
pub struct QueueAreas {
    pub rx: Areas,
    pub tx: Areas,
    pub event: Areas,
}

/// Places the three queues, of n entries each, one after another: rx, tx, event.
pub fn queue_areas(at: u64, n: u16) -> QueueAreas
    requires fits { (queue_areas_of at n).event.end < 2 ^ 64 }
    ensures exact { result ≡ queue_areas_of at n }
    ensures placed { at % 16 ≡ 0 → IsPlaced result.rx n × IsPlaced result.tx n × IsPlaced result.event n }
    ensures ordered { (result.rx.end ≤ result.tx.desc) × (result.tx.end ≤ result.event.desc) }
{
    let rx = areas(at, n);
    let tx = areas(next_queue(&rx), n);
    let event = areas(next_queue(&tx), n);
    QueueAreas { rx, tx, event }
}

/// The three queues of 8 entries from address 4096 on.
pub fn worked_example()
    ensures rx { (queue_areas_of 4096 8).rx ≡ record { desc = 4096; avail = 4224; used = 4248; end = 4318 } }
    ensures tx { (queue_areas_of 4096 8).tx ≡ record { desc = 4320; avail = 4448; used = 4472; end = 4542 } }
    ensures event { (queue_areas_of 4096 8).event ≡ record { desc = 4544; avail = 4672; used = 4696; end = 4766 } }
{}
