//! Laws of connections between guests, which something stands between that keeps none of them: plain RSTs come also before any REQUEST.

ghost use Rattle.std.specs.Prelude.{◌≡◌, ◌+◌, ◌≤◌, false, [], ◌∷◌};
ghost use Rattle.laws_history.specs.{Again.{AllowsNow, IsFairAll, present}, Beside.{AllowsBeside, IsFairBeside, MayPutBeside, steadied}, BesideExample.{answering, asking, request, response, stray}};
ghost use Rattle.laws_history.specs.History.{Answerer, Asker, Entry, Got, HasGot, History, IsNext, MayPut, Put, Side, gots, peer, puts};
ghost use Rattle.laws_history.specs.{Packets.{allowance, bytes, forwarded_by, is_request, is_rst, size}, declared.packet.Packet.Packet};

/// Two ends of a pair, of which one asks each time: the next packet of the other's keeps the history fair between guests, whatever plain RSTs
/// came between.
pub fn law_of_two_ends_beside()
    ensures { (side : Side) (mine other : History) (p : Packet) → IsFairBeside side mine → IsFairBeside (peer side) other
        → IsNext mine other p → HasGot other mine → IsFairBeside side (Got p ∷ mine) }
{}

/// What is fair is fair between guests; and what is fair between guests is fair without its plain RSTs.
pub fn laws_beside()
    ensures fair { (side : Side) (h : History) → IsFairAll side h → IsFairBeside side h }
    ensures steadied { (side : Side) (h : History) → IsFairBeside side h → IsFairAll side (steadied h) }
    // What the stronger rules allow, the weaker do.
    ensures allows { (side : Side) (h : History) (entry : Entry) → IsFairBeside side h → AllowsNow side (present h) entry
        → AllowsBeside side (present h) entry }
{}

/// Credit between guests, on the present connection: the payload put, this packet's included, is within what the newest packet got gives, and
/// what is said to be forwarded is at most the payload got. Both hold of packets got, too (Virtio 1.2, section 5.10.6.3).
pub fn laws_of_credit_beside()
    ensures credit { (side : Side) (h : History) (p : Packet) → IsFairBeside side (Put p ∷ h) → is_request p ≡ false → is_rst p ≡ false
        → let now = present h in bytes (puts now) + size p ≤ allowance (gots now) }
    ensures forwarded { (side : Side) (h : History) (p : Packet) → IsFairBeside side (Put p ∷ h) → is_request p ≡ false → is_rst p ≡ false
        → let now = present h in forwarded_by (puts now) p ≤ bytes (gots now) }
    ensures room { (side : Side) (h : History) (p : Packet) → IsFairBeside side (Got p ∷ h) → is_request p ≡ false → is_rst p ≡ false
        → let now = present h in bytes (gots now) + size p ≤ allowance (puts now) }
    ensures told { (side : Side) (h : History) (p : Packet) → IsFairBeside side (Got p ∷ h) → is_request p ≡ false → is_rst p ≡ false
        → let now = present h in forwarded_by (gots now) p ≤ bytes (puts now) }
    ensures put { (side : Side) (h : History) → IsFairBeside side h → let now = present h in bytes (puts now) ≤ allowance (gots now) }
    ensures got { (side : Side) (h : History) → IsFairBeside side h → let now = present h in bytes (gots now) ≤ allowance (puts now) }
{}

/// Why the rules between guests are others, by example. An RST that comes before any REQUEST is fair there alone. Where it is under way while
/// the REQUEST is put, the end that asks gets it on its connection, and a RESPONSE after it. Both ends are fair between guests; by the rules
/// beside a host that RESPONSE would follow an RST.
pub fn examples_beside()
    ensures stray { IsFairBeside Asker (Got stray ∷ []) }
    ensures unfair { IsFairAll Asker (Got stray ∷ []) → ⊥ }
    ensures answers { IsFairBeside Answerer answering }
    ensures asks { IsFairBeside Asker asking }
    ensures follows { MayPut Answerer (stray ∷ []) (request ∷ []) response → ⊥ }
    // Only a plain RST comes so: no RESPONSE does.
    ensures response { MayPutBeside Answerer [] [] response → ⊥ }
{}
