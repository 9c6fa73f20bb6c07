//! What holds of conversations over every ring that exposes its lists and logs.
ghost use Rattle.std.specs.Prelude.{◌≡◌, [], length, Some, None};
ghost use Rattle.vs_guest_mem.specs.Memory.{Memory};
ghost use Rattle.vs_contents.specs.CallTree.{CallTree, Leads, played};
ghost use Rattle.vs_ring_port.specs.{Contents.{DeviceAnswer, DeviceCall, RingContents}, DeviceCalls.{DeviceAllows, device_answer}, DriverCalls.{DriverAllows, DriverAnswer}};
ghost use Rattle.vs_ring_port.specs.DriverCalls.{DriverCall, driver_answer};
ghost use Rattle.vs_ring_list.specs.Ends.{Ends, empty_ends};
ghost use Rattle.laws_plain_rings.specs.{Exposed.first_ends, Parts.pages_start, Seen.{ShowsDevice, ShowsDriver}};

/// Over a ring that exposes its lists and logs a conversation of either end has one outcome, which the lists and that end's log give:
/// whichever ring it is. So it has the same one over standard rings as over list rings, and leaves the same lists and logs.
pub fn law_of_conversations<A>()
    ensures driver { (tree : CallTree DriverCall DriverAnswer A) (w : Ends) (old new : RingContents) (x : A)
        → ShowsDriver w old → Leads DriverAllows tree old x new
        → let r = played driver_answer tree (w.lists, w.driver) in
        (r.0 ≡ x) × ShowsDriver (record w { lists = r.1.0; driver = r.1.1 }) new }
    ensures device { (tree : CallTree DeviceCall DeviceAnswer A) (w : Ends) (old new : RingContents) (x : A)
        → ShowsDevice w old → Leads DeviceAllows tree old x new
        → let r = played device_answer tree (w.lists, w.device) in
        (r.0 ≡ x) × ShowsDevice (record w { lists = r.1.0; device = r.1.1 }) new }
    ensures same_driver { (tree : CallTree DriverCall DriverAnswer A) (w : Ends) (old new old2 new2 : RingContents) (x y : A)
        → ShowsDriver w old → ShowsDriver w old2 → Leads DriverAllows tree old x new → Leads DriverAllows tree old2 y new2
        → (x ≡ y) × (v : Ends) × ShowsDriver v new × ShowsDriver v new2 }
    ensures same_device { (tree : CallTree DeviceCall DeviceAnswer A) (w : Ends) (old new old2 new2 : RingContents) (x y : A)
        → ShowsDevice w old → ShowsDevice w old2 → Leads DeviceAllows tree old x new → Leads DeviceAllows tree old2 y new2
        → (x ≡ y) × (v : Ends) × ShowsDevice v new × ShowsDevice v new2 }
{}

/// Queues of 8 places from address 4096 on end at 4766, and their 24 pages begin at 8192. In 131,072 bytes these have room, and the ends
/// are known from the first call on; in 65,536 bytes they have none, and nothing is known. Nor is it of queues of 3 places, whose places
/// an index modulo 2^16 doesn't tell.
pub fn worked_examples()
    ensures pages { (m : Memory) → m.base ≡ 4096 → length m.bytes ≡ 131072 → pages_start m 4766 8 ≡ Some 8192 }
    ensures known { (m : Memory) → m.base ≡ 4096 → length m.bytes ≡ 131072 → m.changes ≡ [] → first_ends m 4096 8 ≡ Some (empty_ends 8) }
    ensures no_room { (m : Memory) → m.base ≡ 4096 → length m.bytes ≡ 65536 → m.changes ≡ [] → first_ends m 4096 8 ≡ None }
    ensures odd_size { (m : Memory) → m.base ≡ 4096 → length m.bytes ≡ 131072 → m.changes ≡ [] → first_ends m 4096 3 ≡ None }
{}
