//! Laws of the device over any ring that tells its log, honest or not.

ghost use Rattle.std.specs.{Prelude.{◌≡◌, ◌<◌, ◌^◌, ℕ, Bool, true, false, List, Some, None, Result}};
ghost use Rattle.vs_contents.specs.CallTree.{Done};
ghost use Rattle.vs_header.specs.{Packet.header_bytes, declared.TheConstants.HEADER_LEN};
ghost use Rattle.vs_limits.specs.declared.TheConstants.{GUEST_CID_MIN};
ghost use Rattle.vs_flow.specs.declared.{flow.Flow.Flow, table.TableFault.TableFault};
ghost use Rattle.laws_tables.specs.{Heard.{AsksOnceLog, IsOrderedLog}, Steps.IsNextFlow};
ghost use Rattle.vs_page.specs.{Held.packet_held, Log.Device, Open.is_open};
ghost use Rattle.vs_ring_port.specs.{Contents.RingContents, EndLog.EndLog, declared.{device_ring.Chain.Chain, failure.Failure.{Failure, TheVariants.PayloadShort}}};
ghost use Rattle.vs_device_parts.specs.{Calls.Situation, Playing.Runs, Receiving.{fill_rx_of, pay_event_of}, State.{DeviceState, new_device}};
ghost use Rattle.vs_device_parts.specs.{Streams.{Writing, pump_of, tick_of}, Transmitting.{failing, on_header, take_tx_of}, Turns.{open_of, reset_of, table_shown}};
ghost use Rattle.vs_device_parts.specs.{Growing.after_grow, declared.answers.{Filled.Filled, Taken.Taken}};
ghost use Rattle.laws_device.specs.{Honest.{IsFitFlow, IsFresh, IsLeftOpen, ends_of_state, port_after}, Told.{IsTold, IsToldWith}, Worked.{dialed_flow, short_log, short_request}};
ghost use Rattle.vs_device_parts.specs.declared.answers.Taken.TheVariants as taken;

/// Whole calls over any ring that tells its log and any host, whatever the guest puts there: after each the device's table has exactly the flows
/// that the log left open, less those to which an RST is owed as a reply, and those of clients whose REQUEST isn't put, where packets come in order
/// and the ring didn't fail. So they come where each flow's first packet is its only REQUEST, from the side that asks on it, and nothing is got
/// behind a marked RST on a flow on which the device asked; that the log is fair isn't asked (Virtio 1.2, section 5.10.6).
pub fn law_of_told_tables()
    ensures new { (port cid : ℕ) (base : List ℕ) (c : RingContents) → cid < 2 ^ 64 → IsFresh c → IsToldWith cid port (new_device cid base) c }
    ensures take_tx { (first port : ℕ) (s : DeviceState) (a b : Situation) (x : DeviceState × Taken) → IsToldWith first port s a.ring
        → Runs (take_tx_of s) a x b → IsToldWith first port x.0 b.ring }
    ensures pay_event { (first port : ℕ) (s : DeviceState) (a b : Situation) (x : DeviceState × Result Bool Failure) → IsToldWith first port s a.ring
        → Runs (pay_event_of s) a x b → IsToldWith first port x.0 b.ring }
    ensures fill_rx { (first port : ℕ) (s : DeviceState) (a b : Situation) (x : DeviceState × Result Filled Failure) → IsToldWith first port s a.ring
        → Runs (fill_rx_of s) a x b → IsToldWith first port x.0 b.ring }
    ensures reset { (first port cid : ℕ) (s : DeviceState) (a b : Situation) (x : DeviceState × Result (Unit {0}) Failure) → cid < 2 ^ 64
        → IsToldWith first port s a.ring → Runs (reset_of cid s) a x b → IsToldWith first port x.0 b.ring }
    ensures table { (first port : ℕ) (s : DeviceState) (l : EndLog) → IsTold first port s l → s.failed ≡ None → IsOrderedLog Device l.entries
        → IsLeftOpen first s (table_shown s) l }
    ensures once { (first port : ℕ) (s : DeviceState) (l : EndLog) → IsTold first port s l → s.failed ≡ None → AsksOnceLog Device l.entries
        → IsLeftOpen first s (table_shown s) l }
{}

/// The calls that make none on the ring keep it so.
pub fn law_of_other_told()
    ensures tick { (first port now : ℕ) (s t : DeviceState) (a b : Situation) → IsToldWith first port s a.ring → Runs (tick_of now s) a t b
        → IsToldWith first port t b.ring }
    ensures pump_out { (first port : ℕ) (s : DeviceState) (a b : Situation) (w : Writing) → IsToldWith first port s a.ring → Runs (pump_of s) a w b
        → IsToldWith first port w.state b.ring }
    ensures opened { (first port stream : ℕ) (flow : Flow) (s : DeviceState) (a b : Situation) (x : DeviceState × Result ℕ TableFault)
        → IsNextFlow Device flow (ends_of_state port s) → IsFitFlow flow → IsToldWith first port s a.ring → Runs (open_of flow stream s) a x b
        → IsToldWith first (port_after flow port x.1) x.0 b.ring }
    ensures grow { (first port slot alloc : ℕ) (s : DeviceState) (c : RingContents) → IsToldWith first port s c
        → IsToldWith first port (after_grow slot alloc s) c }
{}

/// Why nothing is said of a device whose ring failed: the page of a REQUEST that tells a byte of payload holds the packet, and its log is in order
/// and leaves its flow open; but the page is shorter than its header tells, so the device takes none of it.
pub fn worked_short_page()
    ensures held { packet_held (header_bytes short_request.header) ≡ Some short_request }
    ensures ordered { IsOrderedLog Device short_log }
    ensures open { is_open Device GUEST_CID_MIN dialed_flow short_log false ≡ true }
    ensures fails { (chain : Chain) (s : DeviceState) → let c : Chain = record chain { readable = HEADER_LEN } in
        let f = PayloadShort 1 0 in on_header c short_request.header s ≡ Done (failing f s, taken.Failed f) }
{}
