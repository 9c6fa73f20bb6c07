//! Turns and resets of the device over rings in a guest's memory and a host in memory, each with the one end that it leads to.

ghost use Rattle.std.specs.Prelude.{◌≡◌, ◌≤◌, IfOk};
ghost use Rattle.vs_limits.specs.declared.TheConstants.{GUEST_CID_MIN, GUEST_CID_MAX};
ghost use Rattle.vs_contents.specs.CallTree.{played};
ghost use Rattle.vs_device_parts.specs.Playing.{IsItsRing};
ghost use Rattle.vs_proxy_parts.specs.Turns.{proxy_reset_of, turn_of};
ghost use Rattle.vs_ring_plain.specs.Device.{chains_held};
ghost use Rattle.vs_hostile.specs.{Answers.answer_around, Ready.IsServing};

use crate::whole::WholeSide;
use laws_proxy::laws::law_of_order;
use std::alloc::AllocError;
use vs_outside::MemHost;
use vs_proxy::{Proxy, Turn};
use vs_ring_port::Failure;

/// A turn of the device. The error is want of memory, which the host found in this turn or before.
pub fn take_turn(
    ring: &mut WholeSide,
    proxy: &mut Proxy,
    host: &mut MemHost,
    now: u64,
) -> Result<Turn, AllocError>
    requires ring { IsItsRing (chains_held ring.old) proxy.old.device }
    requires serving { IsServing proxy.old host.old.contents }
    ensures played { IfOk result (λ t. played answer_around (turn_of ring.old.size now proxy.old) record {
      ring = ring.old;
      host = host.old.contents;
    } ≡ ((proxy.new, t), record { ring = ring.new; host = host.new.contents })) }
    ensures ring { IsItsRing (chains_held ring.new) proxy.new.device }
    ensures serving { IsServing proxy.new host.new.contents }
{
    law_of_order();
    let turn = proxy.turn(ring, host, now);
    if host.starved() {
        return Err(AllocError);
    }
    Ok(turn)
}

/// A transport reset of the device to a guest's CID. The error is want of memory, which the host found before.
pub fn reset_all(
    ring: &mut WholeSide,
    proxy: &mut Proxy,
    host: &mut MemHost,
    cid: u64,
) -> Result<Result<(), Failure>, AllocError>
    requires cid { (GUEST_CID_MIN ≤ cid) × (cid ≤ GUEST_CID_MAX) }
    requires ring { IsItsRing (chains_held ring.old) proxy.old.device }
    requires serving { IsServing proxy.old host.old.contents }
    ensures played { IfOk result (λ r. played answer_around (proxy_reset_of cid proxy.old) record {
      ring = ring.old;
      host = host.old.contents;
    } ≡ ((proxy.new, r), record { ring = ring.new; host = host.new.contents })) }
    ensures ring { IsItsRing (chains_held ring.new) proxy.new.device }
    ensures serving { IsServing proxy.new host.new.contents }
{
    law_of_order();
    let answer = proxy.reset(ring, host, cid);
    if host.starved() {
        return Err(AllocError);
    }
    Ok(answer)
}
