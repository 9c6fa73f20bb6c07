//! Rings whose two ends one thread lends in turn.

use std::alloc::{AllocError, Global};
use vs_ring_list::ListRings;
use vs_ring_port::{DeviceRing, DriverRing};
use vs_ring_shared::SharedRings;

/// Both ends of the three virtqueues, as one value on one thread. Whichever rings they are, they are seen as the pages in flight and what
/// each end did so far, and of that each end exposes just what it exposes of list rings: so each call has the same answer.
pub trait BothEnds: DriverRing + DeviceRing {
    ghost use Rattle.std.specs.Prelude.{◌≡◌, IfOk};
    ghost use Rattle.vs_ring_list.specs.Ends.{Ends, IsQueueSize, empty_ends};
    ghost use Rattle.vs_both_ends.specs.Seen.{IsDeviceOf, IsDriverOf};

    /// The pages in flight, and what each end did so far.
    ghost ends: { Self → Ends };

    /// Rings of which each queue has `n` places, with nothing in them, the CID 3 and empty logs. `n` is 8, 16, 32, 64, 128 or 256.
    ///
    /// The only error is want of memory.
    fn make(alloc: Global, n: u16) -> Result<Self, AllocError>
        requires { IsQueueSize n }
        ensures { IfOk result (λ rings. ends rings ≡ empty_ends n) };

    /// The driver's end shows what list rings show.
    ghost driver: { (rings : Self) → IsDriverOf (ends rings) (Self.DriverRing.size rings) (Self.flight rings) (Self.staged rings)
        (Self.DriverRing.contents rings) };

    /// And so does the device's.
    ghost device: { (rings : Self) → IsDeviceOf (ends rings) (Self.DeviceRing.size rings) (Self.held rings)
        (Self.DeviceRing.contents rings) };
}

impl BothEnds for ListRings {
    ghost use Rattle.std.specs.Prelude.{refl};

    ghost ends = { λ rings. rings };

    fn make(alloc: Global, n: u16) -> Result<ListRings, AllocError> {
        ListRings::new(alloc, n)
    }

    ghost driver = { λ rings. record { size_is = refl; flight_is = refl; staged_is = refl; exposes = refl } };

    ghost device = { λ rings. record { size_is = refl; held_is = refl; exposes = refl } };
}

impl BothEnds for SharedRings {
    ghost use Rattle.std.specs.Prelude.{refl};

    ghost ends = { λ rings. rings };

    fn make(alloc: Global, n: u16) -> Result<SharedRings, AllocError> {
        SharedRings::new(alloc, n)
    }

    ghost driver = { λ rings. record { size_is = refl; flight_is = refl; staged_is = refl; exposes = refl } };

    ghost device = { λ rings. record { size_is = refl; held_is = refl; exposes = refl } };
}
