//! Laws of the proxy over any ring that tells its log, honest or not.

ghost use Rattle.std.specs.{Option.ForSome, Prelude.{◌≡◌, ◌<◌, ◌≤◌, ◌^◌, ℕ, List, None, Result}};
ghost use Rattle.vs_flow.specs.declared.flow.Flow.{Flow};
ghost use Rattle.vs_limits.specs.declared.TheConstants.{ASSIGNED_FIRST};
ghost use Rattle.vs_page.specs.Log.{Device};
ghost use Rattle.vs_ring_port.specs.{Contents.RingContents, declared.failure.Failure.Failure};
ghost use Rattle.vs_device_parts.specs.{Calls.Situation, Playing.Runs, Turns.table_shown};
ghost use Rattle.laws_tables.specs.Heard.{AsksOnceLog, IsOrderedLog};
ghost use Rattle.laws_device.specs.Honest.{IsFresh, IsLeftOpen};
ghost use Rattle.vs_proxy_parts.specs.{Growing.after_flow_grow, State.ProxyState, Turns.{new_proxy_at, proxy_reset_of, turn_of}, declared.answers.Turn.Turn};
ghost use Rattle.laws_proxy.specs.Told.{IsProxyTold};

/// A turn, a reset and a raise over any ring that tells its log and any host, whatever the guest puts there: after each the device's table has
/// exactly the flows that the log left open, less those to which an RST is owed as a reply, and those of clients whose REQUEST isn't put, where
/// packets come in order and the ring didn't fail; that the log is fair isn't asked. So they come where each flow's first packet is its only
/// REQUEST, from the side that asks on it, and nothing is got behind a marked RST on a flow on which the device asked (Virtio 1.2, section 5.10.6).
pub fn law_of_told_turns()
    ensures new { (cid : ℕ) (base : List ℕ) (port : ℕ) (c : RingContents) → cid < 2 ^ 64 → ASSIGNED_FIRST ≤ port → IsFresh c
        → IsProxyTold cid (new_proxy_at cid base port) c }
    ensures turn { (first size now : ℕ) (s : ProxyState) (a b : Situation) (x : ProxyState × Turn) → IsProxyTold first s a.ring
        → Runs (turn_of size now s) a x b → IsProxyTold first x.0 b.ring }
    ensures reset { (first cid : ℕ) (s : ProxyState) (a b : Situation) (x : ProxyState × Result (Unit {0}) Failure) → cid < 2 ^ 64
        → IsProxyTold first s a.ring → Runs (proxy_reset_of cid s) a x b → IsProxyTold first x.0 b.ring }
    ensures grow { (first alloc : ℕ) (flow : Flow) (s : ProxyState) (c : RingContents) → IsProxyTold first s c
        → IsProxyTold first (after_flow_grow flow alloc s) c }
    ensures table { (first : ℕ) (s : ProxyState) (c : RingContents) → IsProxyTold first s c → s.device.failed ≡ None
        → ForSome c.log (λ l. IsOrderedLog Device l.entries → IsLeftOpen first s.device (table_shown s.device) l) }
    ensures once { (first : ℕ) (s : ProxyState) (c : RingContents) → IsProxyTold first s c → s.device.failed ≡ None
        → ForSome c.log (λ l. AsksOnceLog Device l.entries → IsLeftOpen first s.device (table_shown s.device) l) }
{}
