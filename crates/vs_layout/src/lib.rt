//! The split ring in memory (Virtio 1.2, section 2.7): where a queue's three areas and their entries lie, and the bytes of
//! descriptors and used elements.
#![tactic(auto)]

pub mod entry;
pub mod place;
pub mod placement;
pub mod span;

pub use entry::{DESC_LEN, Desc, INDIRECT, NEXT, USED_ELEM_LEN, UsedElem, WRITE};
pub use place::Areas;
pub use placement::{QueueAreas, areas, next_queue, queue_areas};
pub use span::Span;
