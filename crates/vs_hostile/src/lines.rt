//! The lines of a hostile guest's script once its rings are there: what each does, and what it prints.

ghost use Rattle.std.specs.Prelude.{◌≡◌, ◌≤◌, ◌&&◌, ◌++◌, ℕ, nat_le, IfOk, IsTrue, OnOk, string_bytes};
ghost use Rattle.vs_ring_plain.specs.Device.{chains_held};
ghost use Rattle.vs_device_parts.specs.{Playing.IsItsRing, State.DeviceState};
ghost use Rattle.vs_report.specs.HostLines.{ok_text};
ghost use Rattle.vs_script.specs.{Hostile.hostile_view, Outside.outside_view};
ghost use Rattle.vs_hostile.specs.{Answer.{looked_text, said_text}, Guest.{guest_writes, looked}, Ready.{IsServing, with_rings}, Run.{outside_does, over_rings}};
ghost use Rattle.vs_script.specs.Outside as outside;

use crate::guest::write_line;
use crate::turns::{reset_all, take_turn};
use crate::whole::WholeSide;
use std::alloc::{AllocError, Global};
use std::fmt::Write;
use vs_limits::{GUEST_CID_MAX, GUEST_CID_MIN};
use vs_outside::{Clock, MemHost, StepClock};
use vs_proxy::{Proxy, Turn};
use vs_report::bytes::push_data;
use vs_report::device_lines::{push_growth, push_reset, push_turn};
use vs_report::host_lines::{client, host_line, push_ok};
use vs_script::{HostileLine, OutsideLine};

// `turn`
fn turn_line(
    ring: &mut WholeSide,
    proxy: &mut Proxy,
    host: &mut MemHost,
    now: u64,
    text: &mut String,
) -> Result<(), AllocError>
    requires ring { IsItsRing (chains_held ring.old) proxy.old.device }
    requires serving { IsServing proxy.old host.old.contents }
    ensures state { OnOk result (with_rings ring.new proxy.new host.new.contents now
        ≡ (outside_does outside.Turn ring.old (with_rings ring.old proxy.old host.old.contents now)).0) }
    ensures printed { OnOk result (string_bytes text.new ≡ string_bytes text.old
        ++ said_text (outside_does outside.Turn ring.old (with_rings ring.old proxy.old host.old.contents now)).1) }
    ensures ring { IsItsRing (chains_held ring.new) proxy.new.device }
    ensures serving { IsServing proxy.new host.new.contents }
{
    let turn = take_turn(ring, proxy, host, now)?;
    push_turn(text, turn)
}

// `reset CID`
fn reset_line(
    ring: &mut WholeSide,
    proxy: &mut Proxy,
    host: &mut MemHost,
    cid: u32,
    text: &mut String,
) -> Result<(), AllocError>
    requires ring { IsItsRing (chains_held ring.old) proxy.old.device }
    requires serving { IsServing proxy.old host.old.contents }
    ensures state { (now : ℕ) → OnOk result (with_rings ring.new proxy.new host.new.contents now
        ≡ (outside_does (outside.Reset cid) ring.old (with_rings ring.old proxy.old host.old.contents now)).0) }
    ensures printed { (now : ℕ) → OnOk result (string_bytes text.new ≡ string_bytes text.old
        ++ said_text (outside_does (outside.Reset cid) ring.old (with_rings ring.old proxy.old host.old.contents now)).1) }
    ensures ring { IsItsRing (chains_held ring.new) proxy.new.device }
    ensures serving { IsServing proxy.new host.new.contents }
{
    if !is_cid(cid) {
        return push_ok(text);
    }
    let answer = reset_all(ring, proxy, host, cid as u64)?;
    push_reset(text, answer)
}

// Whether it is the CID of a guest.
fn is_cid(cid: u32) -> bool
    ensures test { result ≡ (nat_le GUEST_CID_MIN cid && nat_le cid GUEST_CID_MAX) }
    ensures range { IsTrue result → (GUEST_CID_MIN ≤ cid) × (cid ≤ GUEST_CID_MAX) }
{
    cid >= GUEST_CID_MIN && cid <= GUEST_CID_MAX
}

// A line on the guest's memory.
#[tactic(auto, using(crate::proofs::Hosting::writes_keep))]
fn guest_line(ring: &mut WholeSide, line: &HostileLine, text: &mut String) -> Result<(), AllocError>
    ensures state { OnOk result (ring.new ≡ guest_writes (hostile_view line.now) ring.old) }
    ensures printed { OnOk result (string_bytes text.new ≡ string_bytes text.old ++ ok_text) }
    ensures ring { (s : DeviceState) → IsItsRing (chains_held ring.old) s → OnOk result (IsItsRing (chains_held ring.new) s) }
{
    write_line(*text.allocator(), &mut ring.side, line)?;
    push_ok(text)
}

// `look ADDR N`
fn look(ring: &WholeSide, addr: u64, len: u8, text: &mut String) -> Result<(), AllocError>
    ensures { OnOk result (string_bytes text.new ≡ string_bytes text.old ++ looked_text (looked addr len ring.now)) }
{
    let bytes = look_at(*text.allocator(), ring, addr, len as usize)?;
    write!(text, "bytes ")?;
    push_data(text, &bytes)?;
    write!(text, "\n")
}

// Bytes of the memory, where all of them lie in it.
fn look_at(alloc: Global, ring: &WholeSide, addr: u64, len: usize) -> Result<Vec<u8>, AllocError>
    ensures { IfOk result (λ bytes. bytes.items ≡ looked addr len ring.now) }
{
    if !ring.side.mem().is_inside(addr, len as u64) {
        return Ok(Vec::new(alloc));
    }
    let mut out = vec![in alloc; 0; len]?;
    ring.side.get(addr, &mut out);
    Ok(out)
}

/// Runs a line, and appends what it prints. The only error is want of memory.
pub fn rings_line(
    ring: &mut WholeSide,
    proxy: &mut Proxy,
    host: &mut MemHost,
    clock: &mut StepClock,
    line: &HostileLine,
    text: &mut String,
) -> Result<(), AllocError>
    requires ring { IsItsRing (chains_held ring.old) proxy.old.device }
    requires serving { IsServing proxy.old host.old.contents }
    ensures state { OnOk result (with_rings ring.new proxy.new host.new.contents clock.new
        ≡ (over_rings (hostile_view line.now) ring.old (with_rings ring.old proxy.old host.old.contents clock.old)).0) }
    ensures printed { OnOk result (string_bytes text.new ≡ string_bytes text.old
        ++ said_text (over_rings (hostile_view line.now) ring.old (with_rings ring.old proxy.old host.old.contents clock.old)).1) }
    ensures ring { OnOk result (IsItsRing (chains_held ring.new) proxy.new.device) }
    ensures serving { OnOk result (IsServing proxy.new host.new.contents) }
{
    match line {
        HostileLine::Look { addr, len } => look(ring, *addr, *len, text),
        HostileLine::Outside(line) => outside_line(ring, proxy, host, clock, line, text),
        HostileLine::Memory { .. } => guest_line(ring, line, text),
        HostileLine::Rings { .. } => guest_line(ring, line, text),
        HostileLine::Write { .. } => guest_line(ring, line, text),
        HostileLine::Desc { .. } => guest_line(ring, line, text),
        HostileLine::Give { .. } => guest_line(ring, line, text),
        HostileLine::Index { .. } => guest_line(ring, line, text),
        HostileLine::Packet { .. } => guest_line(ring, line, text),
        HostileLine::Before { .. } => guest_line(ring, line, text),
    }
}

/// Runs a line on what surrounds the guest, and appends what it prints. The only error is want of memory.
pub fn outside_line(
    ring: &mut WholeSide,
    proxy: &mut Proxy,
    host: &mut MemHost,
    clock: &mut StepClock,
    line: &OutsideLine,
    text: &mut String,
) -> Result<(), AllocError>
    requires ring { IsItsRing (chains_held ring.old) proxy.old.device }
    requires serving { IsServing proxy.old host.old.contents }
    ensures state { OnOk result (with_rings ring.new proxy.new host.new.contents clock.new
        ≡ (outside_does (outside_view line.now) ring.old (with_rings ring.old proxy.old host.old.contents clock.old)).0) }
    ensures printed { OnOk result (string_bytes text.new ≡ string_bytes text.old
        ++ said_text (outside_does (outside_view line.now) ring.old (with_rings ring.old proxy.old host.old.contents clock.old)).1) }
    ensures ring { OnOk result (IsItsRing (chains_held ring.new) proxy.new.device) }
    ensures serving { OnOk result (IsServing proxy.new host.new.contents) }
{
    match line {
        OutsideLine::Turn => {
            let now = clock.now();
            turn_line(ring, proxy, host, now, text)
        }
        OutsideLine::Reset { cid } => reset_line(ring, proxy, host, *cid, text),
        OutsideLine::Tick { ms } => {
            clock.tick(*ms as u64);
            push_ok(text)
        }
        OutsideLine::Grow { stream, alloc } => {
            let answer = proxy.grow_stream(host, *stream as u64, *alloc);
            push_growth(text, answer)
        }
        OutsideLine::Client => client(host, text),
        OutsideLine::Host(line) => host_line(host, line, text),
    }
}
