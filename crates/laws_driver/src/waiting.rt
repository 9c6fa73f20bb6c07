//! A stage of a poll that ends for want of a page has loaded the device's index.

ghost use Rattle.std.specs.Prelude.{◌<◌, ◌≤◌, length};
ghost use Rattle.vs_contents.specs.Contents.{Relates};
ghost use Rattle.vs_limits.specs.declared.TheConstants.{DRIVER_REPLIES_FULL};
ghost use Rattle.vs_ring_port.specs.{Contents.RingContents, Known.StopsAt, declared.queue.Queue.TheVariants.{Event, Rx, Tx}};
ghost use Rattle.vs_driver_parts.specs.{Conversations.{Round, reap_all, take_all, take_event, take_packet}, Playing.Plays, State.DriverState};

/// Over a ring that tells what the driver knows. Events and packets are taken until no page comes back, unless as many were taken as the
/// ring has places, or too many replies are owed; and transmit pages while some are in flight. A stage that so ended for want of a page
/// loaded the queue's index in that call, and the last load showed no page that isn't taken.
pub fn law_of_waiting()
    ensures events { (s : DriverState) (c d : RingContents) (r : Round) → Plays (take_all Event take_event s) c r d → r.count < s.size
        → length r.state.replies ≤ DRIVER_REPLIES_FULL → Relates c.known d.known (StopsAt Event) }
    ensures packets { (s : DriverState) (c d : RingContents) (r : Round) → Plays (take_all Rx take_packet s) c r d → r.count < s.size
        → length r.state.replies < DRIVER_REPLIES_FULL → Relates c.known d.known (StopsAt Rx) }
    ensures pages { (s t : DriverState) (c d : RingContents) → Plays (reap_all s) c t d → 0 < t.in_flight
        → Relates c.known d.known (StopsAt Tx) }
{}
