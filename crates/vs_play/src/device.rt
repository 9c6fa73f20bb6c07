//! The lines on the device with its proxy: what each does over the rings and the host, with the one end that it leads to, and what it prints.

ghost use Rattle.std.specs.Prelude.{◌≡◌, ◌≤◌, IfOk, OnOk, false, length, string_bytes};
ghost use Rattle.vs_limits.specs.declared.TheConstants.{GUEST_CID_MIN, GUEST_CID_MAX};
ghost use Rattle.vs_device_parts.specs.Turns.{table_shown};
ghost use Rattle.vs_proxy_parts.specs.Turns.{new_proxy, proxy_reset_of, turn_of};
ghost use Rattle.vs_report.specs.DeviceLines.{reset_text, turn_text};
ghost use Rattle.laws_world.specs.World.{first_cid, opened_host};
ghost use Rattle.vs_play.specs.{Answer.base_path, Ready.IsServed, Told.Serves};

use std::alloc::{AllocError, Global};
use vs_both_ends::BothEnds;
use vs_limits::FIRST_CID;
use vs_outside::MemHost;
use vs_proxy::Proxy;
use vs_report::device_lines::{push_reset, push_turn};

// The base path of the host's sockets in a play.
const BASE_PATH: &str = "v.sock";

/// A proxy just made, of the first guest. The only error is want of memory.
pub fn new(alloc: Global) -> Result<Proxy, AllocError>
    ensures { IfOk result (λ proxy. proxy ≡ new_proxy first_cid base_path) }
{
    Proxy::new(alloc, FIRST_CID, BASE_PATH)
}

/// A host at which nobody listens. The only error is want of memory.
pub fn new_host(alloc: Global) -> Result<MemHost, AllocError>
    ensures { IfOk result (λ host. host.contents ≡ opened_host base_path) }
{
    MemHost::new(alloc, BASE_PATH)
}

/// `turn`, at the moment `now`, in milliseconds. The only error is want of memory, also where the host found none in a dial or a write.
pub fn turn<R: BothEnds>(
    proxy: &mut Proxy,
    rings: &mut R,
    host: &mut MemHost,
    now: u64,
    text: &mut String,
) -> Result<(), AllocError>
    requires served { IsServed proxy.old (R.ends rings.old) host.old.contents }
    ensures { OnOk result (Serves (turn_of (R.ends rings.old).lists.size now proxy.old) turn_text proxy.new (R.ends rings.old) (R.ends rings.new)
        host.old.contents host.new.contents (string_bytes text.old) (string_bytes text.new)) }
{
    let answer = proxy.turn(rings, host, now);
    fed(host)?;
    push_turn(text, answer)
}

/// `reset CID`: a transport reset. The guest's CID is this one from now on, 3 to 4,294,967,294. The only error is want of memory, also where
/// the host found none in a dial or a write before.
pub fn reset<R: BothEnds>(
    proxy: &mut Proxy,
    rings: &mut R,
    host: &mut MemHost,
    cid: u32,
    text: &mut String,
) -> Result<(), AllocError>
    requires cid { (GUEST_CID_MIN ≤ cid) × (cid ≤ GUEST_CID_MAX) }
    requires served { IsServed proxy.old (R.ends rings.old) host.old.contents }
    ensures { OnOk result (Serves (proxy_reset_of cid proxy.old) reset_text proxy.new (R.ends rings.old) (R.ends rings.new)
        host.old.contents host.new.contents (string_bytes text.old) (string_bytes text.new)) }
{
    let answer = proxy.reset(rings, host, cid as u64);
    fed(host)?;
    push_reset(text, answer)
}

/// How many entries the device's table has.
pub fn device_entries(proxy: &Proxy) -> usize
    ensures { result ≡ length (table_shown proxy.now.device) }
{
    proxy.table().count()
}

// The host found memory in each dial and each write. The only error is that it didn't.
fn fed(host: &MemHost) -> Result<(), AllocError>
    ensures { OnOk result (host.now.contents.starved ≡ false) }
{
    if host.starved() {
        return Err(AllocError);
    }
    Ok(())
}
