//! Rounds until nothing moves. Then both ends are at rest.

ghost use Rattle.std.specs.Prelude.{◌≡◌, ◌≤◌, false, true, IfOk, IfSome, OnOk, OnSome};
ghost use Rattle.vs_ring_port.specs.Chains.{chains_of};
ghost use Rattle.vs_ring_shared.specs.{Countings.met_between, Sights.device_contents};
ghost use Rattle.vs_device_parts.specs.Playing.{IsItsRing, situation};
ghost use Rattle.laws_settled.specs.{Begun.StaysBegun, Settled.IsSettled, Settled.IsSteady};
ghost use Rattle.vs_settle.specs.Rounds.{IsCounted, LastRound};

use crate::rounds::round;
use std::sync::Wait;
use vs_apps::guests::{Guests, RunName, laws_of_guests};
use vs_apps::threads::OutOfMemory;
use vs_outside::{Clock, HostNet};
use vs_proxy::Proxy;
use vs_ring_port::{DeviceRing, Queue};
use vs_ring_shared::{DeviceEnd, Met, laws_of_device_end};

// Whether a round was the last one: it moved nothing, no transmit page is in flight, and the device has all receive pages.
fn is_last(moved: bool, in_flight: u16, given: u16, size: u16) -> bool
    ensures { result ≡ true → (moved ≡ false) × (in_flight ≡ 0) × (size ≤ given) }
{
    !moved && in_flight == 0 && given >= size
}

// A round. Answers whether it was the last one.
fn go_round<N: RunName, H: HostNet>(
    guests: &mut Guests<N>,
    proxy: &mut Proxy,
    ring: &mut DeviceEnd<N>,
    host: &mut H,
    now: u64,
) -> Result<bool, OutOfMemory>
    requires ring { IsItsRing (chains_of ring.old.held) proxy.old.device }
    requires steady { IsSteady proxy.old (situation (device_contents ring.old) (H.contents host.old) (H.faults host.old)) }
    ensures ring { OnOk result (IsItsRing (chains_of ring.new.held) proxy.new.device) }
    ensures steady { OnOk result (IsSteady proxy.new (situation (device_contents ring.new) (H.contents host.new) (H.faults host.new))) }
    ensures begun { OnOk result (StaysBegun proxy.old (situation (device_contents ring.old) (H.contents host.old) (H.faults host.old))
        proxy.new (situation (device_contents ring.new) (H.contents host.new) (H.faults host.new))) }
    ensures last { IfOk result (λ is_last. is_last ≡ true
        → LastRound N.script guests.new proxy.new ring.new (H.contents host.new) (H.faults host.new) × IsCounted guests.new ring.new) }
{
    let moved = round(guests, proxy, ring, host, now)?;
    let in_flight = guests.in_flight();
    let given = ring.given(Queue::Rx);
    let size = ring.size();
    Ok(is_last(moved, in_flight, given, size))
}

// What is told once the last round is over: how many packets and events each end put and got.
fn meet_last<N: RunName, H: HostNet>(
    guests: &mut Guests<N>,
    proxy: &Proxy,
    ring: &mut DeviceEnd<N>,
    host: &H,
) -> Met
    requires ring { IsItsRing (chains_of ring.old.held) proxy.now.device }
    requires steady { IsSteady proxy.now (situation (device_contents ring.old) (H.contents host.now) (H.faults host.now)) }
    requires last { LastRound N.script guests.old proxy.now ring.old (H.contents host.now) (H.faults host.now) }
    requires counted { IsCounted guests.old ring.old }
    ensures ring { IsItsRing (chains_of ring.new.held) proxy.now.device }
    ensures steady { IsSteady proxy.now (situation (device_contents ring.new) (H.contents host.now) (H.faults host.now)) }
    ensures begun { StaysBegun proxy.now (situation (device_contents ring.old) (H.contents host.now) (H.faults host.now))
        proxy.now (situation (device_contents ring.new) (H.contents host.now) (H.faults host.now)) }
    ensures rest { IsSettled guests.new.driver guests.new.end proxy.now ring.new }
    ensures last { LastRound N.script guests.new proxy.now ring.new (H.contents host.now) (H.faults host.now) }
    ensures numbers { result ≡ met_between guests.new.end.log ring.new.sight.log }
{
    let met = guests.meet(ring);
    laws_of_guests(guests);
    laws_of_device_end(ring);
    met
}

// A round, and where it was the last one what is told then.
fn last_round<N: RunName, H: HostNet>(
    guests: &mut Guests<N>,
    proxy: &mut Proxy,
    ring: &mut DeviceEnd<N>,
    host: &mut H,
    now: u64,
) -> Result<Option<Met>, OutOfMemory>
    requires ring { IsItsRing (chains_of ring.old.held) proxy.old.device }
    requires steady { IsSteady proxy.old (situation (device_contents ring.old) (H.contents host.old) (H.faults host.old)) }
    ensures ring { OnOk result (IsItsRing (chains_of ring.new.held) proxy.new.device) }
    ensures steady { OnOk result (IsSteady proxy.new (situation (device_contents ring.new) (H.contents host.new) (H.faults host.new))) }
    ensures begun { OnOk result (StaysBegun proxy.old (situation (device_contents ring.old) (H.contents host.old) (H.faults host.old))
        proxy.new (situation (device_contents ring.new) (H.contents host.new) (H.faults host.new))) }
    ensures rest { IfOk result (λ o. OnSome o (IsSettled guests.new.driver guests.new.end proxy.new ring.new)) }
    ensures last { IfOk result (λ o. OnSome o (LastRound N.script guests.new proxy.new ring.new (H.contents host.new) (H.faults host.new))) }
    ensures numbers { IfOk result (λ o. IfSome o (λ met. met ≡ met_between guests.new.end.log ring.new.sight.log)) }
{
    let over = go_round(guests, proxy, ring, host, now)?;
    if over {
        let met = meet_last(guests, proxy, ring, host);
        return Ok(Some(met));
    }
    Ok(None)
}

/// Rounds of the apps, the device and the driver, until one moved nothing that began with a transmit page free: a step of each app, a turn, and
/// a poll, where each end is told of what the other did between them. Then each app is done or waited in its last step, no packet is in a ring,
/// nothing is owed at either end, and both tables hold the same connections, each Live at both ends. Answers how many packets and events each
/// end put and got, modulo 2^64. It runs on while something moves.
///
/// The only error is want of memory.
pub fn settle<W: Wait, N: RunName, H: HostNet, C: Clock>(
    rt: &W,
    guests: &mut Guests<N>,
    proxy: &mut Proxy,
    ring: &mut DeviceEnd<N>,
    host: &mut H,
    clock: &mut C,
) -> Result<Met, OutOfMemory>
    requires ring { IsItsRing (chains_of ring.old.held) proxy.old.device }
    requires steady { IsSteady proxy.old (situation (device_contents ring.old) (H.contents host.old) (H.faults host.old)) }
    ensures ring { OnOk result (IsItsRing (chains_of ring.new.held) proxy.new.device) }
    ensures steady { OnOk result (IsSteady proxy.new (situation (device_contents ring.new) (H.contents host.new) (H.faults host.new))) }
    ensures begun { OnOk result (StaysBegun proxy.old (situation (device_contents ring.old) (H.contents host.old) (H.faults host.old))
        proxy.new (situation (device_contents ring.new) (H.contents host.new) (H.faults host.new))) }
    ensures rest { OnOk result (IsSettled guests.new.driver guests.new.end proxy.new ring.new) }
    ensures last { OnOk result (LastRound N.script guests.new proxy.new ring.new (H.contents host.new) (H.faults host.new)) }
    ensures numbers { IfOk result (λ met. met ≡ met_between guests.new.end.log ring.new.sight.log) }
{
    for _ in rt.forever() {
        if let Some(met) = last_round(guests, proxy, ring, host, clock.now())? {
            return Ok(met);
        }
    }
    unreachable!()
}
