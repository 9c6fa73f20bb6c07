//! Laws of the world, over every list of events.

ghost use Rattle.laws_world.specs.{World.{Beginning, World, first_cid, opening}, Events.{Event, happens, is_at_rest, is_guest_cid, run}, Pipes.IsFresh, Plays.guest_line};
ghost use Rattle.laws_world.specs.{Plays.{poll_line, reset_line}, Steps.Leads, Sides.{Runs, both_of}};
ghost use Rattle.vs_flow.specs.{Connection.Connection, declared.flow.Flow.Flow};
ghost use Rattle.std.specs.Prelude.{◌≡◌, ℕ, ◌-◌, ◌^◌, ◌≤◌, ◌||◌, min, false, true, List, [], ◌∷◌, length, All, None};
ghost use Rattle.vs_limits.specs.declared.TheConstants.{BUF_ALLOC_MAX, ASSIGNED_FIRST};
ghost use Rattle.vs_conn.specs.End.{ConnectionEnd, is_refused, verdict_of};
ghost use Rattle.laws_history.specs.declared.packet.Packet.{Packet};
ghost use Rattle.laws_tables.specs.{Both.{at, start}, Quiet.IsQuietOn, Ends.{begun_flows, flows_of, is_among, new_flows, replied}, Matches.Matches, Steps.{HasEnd, is_overrun}};
ghost use Rattle.vs_outside.specs.Host.{HostContents};
ghost use Rattle.vs_page.specs.{Fair.{IsFairLog, IsPrefixOf, payload_got, payload_put}, Log.{Device, Driver, HasGotAll, IsNextPacket, Log, Role, flow_got}, Open.{is_dropped, is_open}};
ghost use Rattle.vs_page.specs.declared.log.LogEntry.TheVariants.{Mark};
ghost use Rattle.vs_ring_list.specs.Sound.{IsTied};
ghost use Rattle.laws_driver.specs.Carried.Calls.{GuestCall, is_right};
ghost use Rattle.laws_device.specs.{Dropped.dropped_in, Streams.is_waiting_for_request};

/// After any list of events what each end got is what the other put first, packets on tx and on rx and ids of events; and what was put and
/// not got is just what the pages between them hold. So the payload that an end got on a connection is a prefix of the payload that the
/// other put there.
pub fn law_of_queues()
    ensures tied { (how : Beginning) (host : HostContents) (es : List Event) → let r = (run es (opening how host)).rings in
        IsTied r.lists r.driver.entries r.device.entries }
    ensures driver_got { (how : Beginning) (host : HostContents) (es : List Event) → let r = (run es (opening how host)).rings in
        HasGotAll r.driver.entries r.device.entries }
    ensures device_got { (how : Beginning) (host : HostContents) (es : List Event) → let r = (run es (opening how host)).rings in
        HasGotAll r.device.entries r.driver.entries }
    ensures payload_to_guest { (how : Beginning) (host : HostContents) (es : List Event) (k : Connection) → let r = (run es (opening how host)).rings in
        IsPrefixOf (payload_got Driver k r.driver.entries) (payload_put Device k r.device.entries) }
    ensures payload_to_host { (how : Beginning) (host : HostContents) (es : List Event) (k : Connection) → let r = (run es (opening how host)).rings in
        IsPrefixOf (payload_got Device k r.device.entries) (payload_put Driver k r.driver.entries) }
{}

/// Each event is some of the small steps of two ends of many connections, each where it may happen: one that puts or takes a packet is among them
/// just where the event does. So what holds over every order of these steps holds after any list of events. Packets that the driver staged
/// count as put.
pub fn law_of_events()
    ensures each { (how : Beginning) (host : HostContents) (es : List Event) (e : Event) → let w = run es (opening how host) in
        Runs (both_of w) (both_of (happens e w)) }
    ensures all { (how : Beginning) (host : HostContents) (es : List Event)
        → Runs (start first_cid how.first ASSIGNED_FIRST) (both_of (run es (opening how host))) }
{}

/// After any list of events both ends match their logs, and both logs are fair: the payload put is within the credit that the peer gave, a
/// connection begins by its one REQUEST, and so on (Virtio 1.2, section 5.10.6).
pub fn law_of_logs()
    ensures driver { (how : Beginning) (host : HostContents) (es : List Event) → let b = both_of (run es (opening how host)) in
        Matches Driver first_cid b.driver.part b.driver.log }
    ensures device { (how : Beginning) (host : HostContents) (es : List Event) → let b = both_of (run es (opening how host)) in
        Matches Device first_cid b.device.part b.device.log }
    ensures driver_fair { (how : Beginning) (host : HostContents) (es : List Event) → IsFairLog Driver (both_of (run es (opening how host))).driver.log }
    ensures device_fair { (how : Beginning) (host : HostContents) (es : List Event) → IsFairLog Device (both_of (run es (opening how host))).device.log }
{}

/// After any list of events each table holds just the connections that the log of its end left open: of the device's those that have
/// begun, the others ask for their flow and have not put their REQUEST: where the host had no streams at first, the flows of its open streams
/// on which the log began fewer connections than there are streams. None is from before a transport reset: where the newest entry of a log is
/// one, none has begun (Virtio 1.2, section 5.10.6.7). Of a flow that an end keeps, to use it again, nothing is under way: the other end has no
/// connection on it and owes it nothing, and each got all that was put.
pub fn law_of_tables()
    ensures driver { (how : Beginning) (host : HostContents) (es : List Event) (f : Flow) → let b = both_of (run es (opening how host)) in
        is_among f (flows_of b.driver.part.entries) ≡ is_open Driver first_cid f b.driver.log (is_among f (replied b.driver.part.replies)) }
    ensures device { (how : Beginning) (host : HostContents) (es : List Event) (f : Flow) → let b = both_of (run es (opening how host)) in
        is_among f (flows_of b.device.part.entries)
        ≡ (is_open Device first_cid f b.device.log (is_among f (replied b.device.part.replies)) || is_among f (new_flows b.device.part.entries)) }
    ensures streams { (how : Beginning) (host : HostContents) (es : List Event) (f : Flow) → IsFresh host → let w = run es (opening how host) in
        let b = both_of w in
        is_among f (flows_of b.device.part.entries)
        ≡ (is_open Device first_cid f b.device.log (is_among f (replied b.device.part.replies)) || is_waiting_for_request f w.host b.device.log) }
    ensures driver_reset { (how : Beginning) (host : HostContents) (es : List Event) (cid : ℕ) (older : Log) → let b = both_of (run es (opening how host)) in
        b.driver.log ≡ Mark cid ∷ older → begun_flows b.driver.part.entries ≡ [] }
    ensures device_reset { (how : Beginning) (host : HostContents) (es : List Event) (cid : ℕ) (older : Log) → let b = both_of (run es (opening how host)) in
        b.device.log ≡ Mark cid ∷ older → begun_flows b.device.part.entries ≡ [] }
    ensures kept { (how : Beginning) (host : HostContents) (es : List Event) (role : Role) (f : Flow) → let b = both_of (run es (opening how host)) in
        is_among f (at role b).part.clean ≡ true → IsQuietOn role f b }
{}

/// After any list of events the next packet is never refused where it is of a connection: by the driver none, by the device none that it
/// doesn't drop. The device has room for its payload in any case (Virtio 1.2, section 5.10.6.3).
pub fn law_of_next_packets()
    ensures driver { (how : Beginning) (host : HostContents) (es : List Event) (p : Packet) (e : ConnectionEnd) → let b = both_of (run es (opening how host)) in
        IsNextPacket b.driver.log b.device.log p → HasEnd (flow_got Driver p) e b.driver.part → is_refused (verdict_of e p.header) ≡ false }
    ensures device { (how : Beginning) (host : HostContents) (es : List Event) (p : Packet) (e : ConnectionEnd) → let b = both_of (run es (opening how host)) in
        IsNextPacket b.device.log b.driver.log p → HasEnd (flow_got Device p) e b.device.part
        → is_dropped Device b.device.part.cid p.header ≡ false → is_refused (verdict_of e p.header) ≡ false }
    ensures room { (how : Beginning) (host : HostContents) (es : List Event) (p : Packet) (e : ConnectionEnd) → let b = both_of (run es (opening how host)) in
        IsNextPacket b.device.log b.driver.log p → HasEnd (flow_got Device p) e b.device.part → is_overrun (verdict_of e p.header) ≡ false }
{}

/// After any list of events no packet of a known flow was refused by the driver, and none held more payload than the device had room for.
/// What is unread of a connection, at the guest or on its way to the host's stream, is within its buffer space (Virtio 1.2, section
/// 5.10.6.3).
pub fn law_of_credit()
    ensures broken { (how : Beginning) (host : HostContents) (es : List Event) → (run es (opening how host)).driver.broken ≡ 0 }
    ensures overrun { (how : Beginning) (host : HostContents) (es : List Event) → (run es (opening how host)).proxy.device.overrun ≡ 0 }
    ensures unread { (how : Beginning) (host : HostContents) (es : List Event) →
        All (λ e. (length e.value.unread ≤ e.value.end.credit.alloc) × (e.value.end.credit.alloc ≤ BUF_ALLOC_MAX))
        (run es (opening how host)).driver.table.entries }
    ensures pending { (how : Beginning) (host : HostContents) (es : List Event) →
        All (λ e. (length e.value.pending ≤ e.value.end.credit.alloc) × (e.value.end.credit.alloc ≤ BUF_ALLOC_MAX))
        (run es (opening how host)).proxy.device.table.entries }
{}

/// After any list of events the device counted just the packets of its log that it drops, each by the guest's CID of then, and its ring
/// never failed. The count stands still at the last number of 64 bits.
pub fn law_of_counts()
    ensures dropped { (how : Beginning) (host : HostContents) (es : List Event) → let w = run es (opening how host) in
        w.proxy.device.dropped ≡ min (dropped_in first_cid w.rings.device.entries) (2 ^ 64 - 1) }
    ensures unfailed { (how : Beginning) (host : HostContents) (es : List Event) → (run es (opening how host)).proxy.device.failed ≡ None }
{}

/// Each call of the guest's, whole, is a list of events, with that reply in the journal: a connect and a send take back the pages that the
/// device returned, one by one, before they need one. So is a poll, after which nothing is staged.
pub fn law_of_guest_calls()
    ensures call { (call : GuestCall) (w : World) → is_at_rest w.rings.driver.staged ≡ true → is_right call ≡ true
        → Leads w (guest_line call w).0 }
    ensures poll { (w : World) → is_at_rest w.rings.driver.staged ≡ true → Leads w (poll_line w).0 }
    ensures polled { (w : World) → is_at_rest w.rings.driver.staged ≡ true → is_at_rest (poll_line w).0.rings.driver.staged ≡ true }
{}

/// A transport reset that the proxy makes is an event.
pub fn law_of_resets()
    ensures { (cid : ℕ) (w : World) → is_guest_cid cid ≡ true → Leads w (reset_line cid w).0 }
{}
