//! What a transport reset leaves, at the step at which an end takes it.

ghost use Rattle.laws_world.specs.{World.{Beginning, World, opening}, Events.{Event, GuestTakes, Reset, happens, is_guest_cid, run, works_on}};
ghost use Rattle.std.specs.Prelude.{◌≡◌, ℕ, nat_lt, false, true, List, [], length, Some, None};
ghost use Rattle.vs_driver_parts.specs.Receiving.{is_reset_event};
ghost use Rattle.vs_limits.specs.declared.TheConstants.{DRIVER_REPLIES_FULL};
ghost use Rattle.vs_outside.specs.Host.{HostContents};
ghost use Rattle.vs_ring_port.specs.Lists.{oldest};
ghost use Rattle.laws_proxy.specs.Resets.{IsEmptied};
ghost use Rattle.vs_ring_port.specs.declared.queue.Queue.TheVariants as queue;

/// A transport reset of a device whose ring didn't fail leaves its table, its owed replies and the proxy's handshakes empty. After any list
/// of events the driver's table is empty right after the step that takes the event of a transport reset (Virtio 1.2, section 5.10.6.7).
pub fn law_of_emptied_tables()
    ensures device { (cid : ℕ) (w : World) → is_guest_cid cid ≡ true → w.proxy.device.failed ≡ None →
        IsEmptied (happens (Reset cid) w).proxy }
    ensures driver { (how : Beginning) (host : HostContents) (es : List Event) (page : List ℕ) → let w = run es (opening how host) in
        works_on queue.Event w.rings.driver.staged ≡ true → nat_lt DRIVER_REPLIES_FULL (length w.driver.replies) ≡ false
        → oldest w.rings.lists.event.back ≡ Some page → is_reset_event page ≡ true
        → (happens (GuestTakes queue.Event) w).driver.table.entries ≡ [] }
{}
