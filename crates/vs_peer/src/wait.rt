//! For how many steps in a row a client waits.
ghost use Rattle.std.specs.Prelude.{◌≡◌, nat_le};
ghost use Rattle.vs_outside.specs.Faults.{one_more};
ghost use Rattle.vs_peer.specs.Waiting.{after_still};

use vs_outside::Gate;

/// One more step in a row in which nothing moved, with a pause. Answers whether it is the `idle`th one, with which the client stops.
pub fn gives_up<G: Gate>(waited: &mut u32, idle: u32, gate: &mut G) -> bool
    ensures steps { waited.new ≡ after_still waited.old }
    ensures pauses { G.pauses gate.new ≡ one_more (G.pauses gate.old) }
    ensures stops { result ≡ nat_le idle waited.new }
{
    gate.pause();
    *waited = waited.saturating_add(1);
    *waited >= idle
}
