//! A round: a step of each app, a turn of the device, a poll of the driver. What each end did is told to the other between them.

ghost use Rattle.std.specs.Prelude.{◌≡◌, ◌<◌, ◌||◌, false, length, IfOk, OnOk};
ghost use Rattle.vs_ring_port.specs.Chains.{chains_of};
ghost use Rattle.vs_ring_shared.specs.Sights.{device_contents};
ghost use Rattle.vs_device_parts.specs.Playing.{IsItsRing, Runs, situation};
ghost use Rattle.vs_proxy_parts.specs.Turns.{turn_of};
ghost use Rattle.laws_apps.specs.{Runs.poll_moved, Rounds.{AllStand, Stands, StandsOnce}};
ghost use Rattle.laws_settled.specs.{Begun.StaysBegun, Settled.IsSteady};
ghost use Rattle.vs_apps.specs.Guests.{run_in};
ghost use Rattle.vs_settle.specs.Rounds.{LastRound, no_turn, turn_moved};
ghost use Rattle.vs_proxy_parts.specs.declared.answers.Turn.TheVariants as turn;

use vs_apps::guests::{Guests, RunName, laws_of_guests};
use vs_apps::threads::OutOfMemory;
use vs_apps_parts::progress::Stepped;
use vs_driver::Polled;
use vs_outside::HostNet;
use vs_proxy::{Proxy, Turn};
use vs_ring_shared::DeviceEnd;

// Whether a poll took or put anything, and whether a turn did.
fn has_polled(polled: Polled) -> bool
    ensures { result ≡ poll_moved polled }
{
    0 < polled.took || 0 < polled.posted || polled.reset
}

fn has_turned(turn: Turn) -> bool
    ensures { result ≡ turn_moved turn }
{
    match turn {
        Turn::Turned(t) => {
            0 < t.took
                || 0 < t.put
                || 0 < t.read
                || 0 < t.wrote
                || 0 < t.opened
                || 0 < t.closed
                || 0 < t.hands
                || t.event
        }
        Turn::Failed(_) => true,
    }
}

// Whether anything moved: in the steps, in the turn, or in the poll.
fn any(stepped: bool, turned: bool, polled: bool) -> bool
    ensures { result ≡ (stepped || (turned || polled)) }
{
    stepped || turned || polled
}

// Whether a step moved anything, where its poll did or not.
fn has_stepped(stepped: Stepped, polled: bool) -> Result<bool, OutOfMemory>
    ensures { IfOk result (λ moved. moved ≡ false → Stands stepped × (polled ≡ false)) }
{
    match stepped {
        Stepped::OutOfMemory => Err(OutOfMemory),
        Stepped::Moved => Ok(true),
        Stepped::Waiting(_) => Ok(polled),
        Stepped::Done => Ok(polled),
    }
}

// A step of app `k`. Answers whether it moved anything.
fn step_one<N: RunName>(guests: &mut Guests<N>, k: usize) -> Result<bool, OutOfMemory>
    requires { k < length N.script }
    ensures { IfOk result (λ moved. moved ≡ false → StandsOnce N.script k (run_in guests.old) (run_in guests.new)) }
{
    let (stepped, polled) = guests.step(k);
    has_stepped(stepped, polled)
}

// A step of each app. Answers whether one moved anything.
fn step_all<N: RunName>(guests: &mut Guests<N>) -> Result<bool, OutOfMemory>
    ensures { IfOk result (λ moved. moved ≡ false → AllStand N.script (length N.script) (run_in guests.old) (run_in guests.new)) }
{
    let mut moved = false;
    for k in 0..guests.count() {
        let one = step_one(guests, k)?;
        moved = any(moved, one, false);
    }
    Ok(moved)
}

/// A turn. Answers whether it moved anything.
pub fn turn<N: RunName, H: HostNet>(
    proxy: &mut Proxy,
    ring: &mut DeviceEnd<N>,
    host: &mut H,
    now: u64,
) -> bool
    requires ring { IsItsRing (chains_of ring.old.held) proxy.old.device }
    requires steady { IsSteady proxy.old (situation (device_contents ring.old) (H.contents host.old) (H.faults host.old)) }
    ensures ring { IsItsRing (chains_of ring.new.held) proxy.new.device }
    ensures steady { IsSteady proxy.new (situation (device_contents ring.new) (H.contents host.new) (H.faults host.new)) }
    ensures begun { StaysBegun proxy.old (situation (device_contents ring.old) (H.contents host.old) (H.faults host.old))
        proxy.new (situation (device_contents ring.new) (H.contents host.new) (H.faults host.new)) }
    ensures runs { result ≡ false → Runs (turn_of ring.old.sight.size now proxy.old)
        (situation (device_contents ring.old) (H.contents host.old) (H.faults host.old)) (proxy.new, turn.Turned no_turn)
        (situation (device_contents ring.new) (H.contents host.new) (H.faults host.new)) }
{
    let turned = proxy.turn(ring, host, now);
    has_turned(turned)
}

/// A round. Answers whether it moved anything, or began with a transmit page in flight.
///
/// The only error is want of memory.
pub(crate) fn round<N: RunName, H: HostNet>(
    guests: &mut Guests<N>,
    proxy: &mut Proxy,
    ring: &mut DeviceEnd<N>,
    host: &mut H,
    now: u64,
) -> Result<bool, OutOfMemory>
    requires ring { IsItsRing (chains_of ring.old.held) proxy.old.device }
    requires steady { IsSteady proxy.old (situation (device_contents ring.old) (H.contents host.old) (H.faults host.old)) }
    ensures ring { OnOk result (IsItsRing (chains_of ring.new.held) proxy.new.device) }
    ensures steady { OnOk result (IsSteady proxy.new (situation (device_contents ring.new) (H.contents host.new) (H.faults host.new))) }
    ensures begun { OnOk result (StaysBegun proxy.old (situation (device_contents ring.old) (H.contents host.old) (H.faults host.old))
        proxy.new (situation (device_contents ring.new) (H.contents host.new) (H.faults host.new))) }
    ensures last { IfOk result (λ moved. moved ≡ false → LastRound N.script guests.new proxy.new ring.new (H.contents host.new) (H.faults host.new)) }
{
    guests.note(ring);
    let in_flight = guests.in_flight();
    laws_of_guests(guests);
    let stepped = step_all(guests)?;
    laws_of_guests(guests);
    guests.note(ring);
    let turned = turn(proxy, ring, host, now);
    guests.note(ring);
    let polled = guests.poll();
    let moved = any(stepped, turned, has_polled(polled));
    Ok(any(in_flight > 0, moved, false))
}
