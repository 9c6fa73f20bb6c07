//! Laws of a driver and a device that settle.

ghost use Rattle.std.specs.Prelude.{◌≡◌, ◌⊎◌, ℕ, List, [], Some};
ghost use Rattle.vs_contents.specs.Contents.{Relates};
ghost use Rattle.vs_flow.specs.Table.{IsTable};
ghost use Rattle.vs_limits.specs.declared.TheConstants.{FIRST_CID};
ghost use Rattle.vs_ring_port.specs.{Contents.RingContents, EndLog.EndLog};
ghost use Rattle.vs_ring_shared.specs.Sights.{DeviceSight, Sight, device_contents};
ghost use Rattle.vs_driver_parts.specs.{Conversations.poll_of, Playing.Plays, State.DriverState, declared.answers.Polled.Polled};
ghost use Rattle.vs_device_parts.specs.{Calls.Situation, Playing.Runs};
ghost use Rattle.laws_device.specs.Honest.{ends_of_state};
ghost use Rattle.laws_rest.specs.Rest.{OwesNothing};
ghost use Rattle.vs_proxy_parts.specs.{State.ProxyState, Turns.{new_proxy, turn_of}, declared.answers.{Turn.Turn, Turned.Turned}};
ghost use Rattle.laws_settled.specs.{Begun.{DropsNone, IsBegun, Start, start_with}, Settled.{AreOver, IsSettled, IsSteady, LacksPages}};
ghost use Rattle.vs_proxy_parts.specs.declared.answers.Turn.TheVariants as turn;

/// A new proxy under the first CID of shared rings is steady, with rings on which nothing passed, and each turn leaves it so: no reset is made,
/// all its packets come from the host, and it holds of each connection just the bytes that its end counts as unread.
pub fn law_of_steady_turns()
    ensures new { (base : List ℕ) (a : Situation) (l : EndLog) → a.ring.log ≡ Some l → l.entries ≡ [] → l.held ≡ []
        → IsSteady (new_proxy FIRST_CID base) a }
    ensures turn { (size now : ℕ) (s : ProxyState) (a b : Situation) (x : ProxyState × Turn) → IsSteady s a
        → Runs (turn_of size now s) a x b → IsSteady x.0 b }
{}

/// A turn that put nothing leaves nothing owed at the device, unless it stopped for want of a page. Over any ring and any host.
pub fn law_of_quiet_turns()
    ensures { (port size now : ℕ) (s : ProxyState) (a b : Situation) (x : ProxyState × Turn) (t : Turned) → Runs (turn_of size now s) a x b
        → x.1 ≡ turn.Turned t → t.put ≡ 0 → IsTable x.0.device.table → OwesNothing (ends_of_state port x.0.device) ⊎ LacksPages x.0.device b.ring }
{}

/// A poll that took nothing took no page of rx back.
pub fn law_of_quiet_takes()
    ensures { (s t : DriverState) (c d : RingContents) (p : Polled) → Plays (poll_of s) c (t, p) d → p.took ≡ 0
        → Relates c.known d.known (λ old new. new.rx.taken ≡ old.rx.taken) }
{}

/// When the last round is over, both ends are at rest.
pub fn law_of_settled()
    ensures { (n : ℕ) (d : DriverState) (driver : Sight) (p : ProxyState) (device : DeviceSight) → AreOver n d driver p device
        → IsSettled d driver p device }
{}

/// A new proxy, with rings on which nothing passed, begins with its base path and the host as it is. A turn of a steady one leaves what it began with: it
/// keeps that path; it dropped nothing, as long as each packet that it got has the guest's CID and goes to the host (Virtio 1.2, section 5.10.6); its device counted a fault
/// only where one more call of the host failed than at first; and the bytes of its connections are those that the host's streams took and gave,
/// where none of these had a label at first. At rest it dropped nothing.
pub fn law_of_begun()
    ensures new { (base : List ℕ) (a : Situation) (l : EndLog) → a.ring.log ≡ Some l → l.entries ≡ []
        → IsBegun (start_with base a.host a.faults) (new_proxy FIRST_CID base) a }
    ensures turn { (size now : ℕ) (s : ProxyState) (a b : Situation) (x : ProxyState × Turn) → IsSteady s a → Runs (turn_of size now s) a x b
        → (start : Start) → IsBegun start s a → IsBegun start x.0 b }
    ensures rest { (d : DriverState) (driver : Sight) (p : ProxyState) (device : DeviceSight) → IsSettled d driver p device
        → DropsNone p (device_contents device) → p.device.dropped ≡ 0 }
{}
