//! Laws of histories: what fairness gives, and the lemma of two ends.

ghost use Rattle.std.specs.Prelude.{◌≡◌, ◌+◌, ◌<◌, ◌≤◌, true, false, List, [], ◌∷◌, ◌++◌};
ghost use Rattle.laws_history.specs.{declared.packet.Packet.Packet, History.{Allows, Entry, Got, HasGot, History, IsFair, IsNext, IsOpening, Put, Side, gots, peer, puts}};
ghost use Rattle.laws_history.specs.Packets.{allowance, bytes, forwarded_by, is_rst, is_rw, has, tells, shuts_send, size, told_alloc, told_forwarded};
ghost use Rattle.vs_limits.specs.declared.TheConstants.{BUF_ALLOC, BUF_ALLOC_MAX};

/// What fairness says of a connection's credit and order. Its first entry is its REQUEST. The payload put, at each packet put, is within the
/// credit advertised by the newest packet got, and what is said to be forwarded is at most the payload got; both hold of packets got, too. Of
/// those put the buffer space begins at `BUF_ALLOC`, never falls, and is at most `BUF_ALLOC_MAX`, and no payload follows a SHUTDOWN that says
/// 'no more is sent'.
pub fn laws_of_fairness()
    ensures opening { (side : Side) (h : History) (entry : Entry) → IsFair side (h ++ entry ∷ []) → IsOpening side entry }
    ensures credit { (side : Side) (h : History) (p : Packet) → IsFair side (Put p ∷ h) → is_rst p ≡ false
        → bytes (puts h) + size p ≤ allowance (gots h) }
    ensures forwarded { (side : Side) (h : History) → IsFair side h → told_forwarded (puts h) ≤ bytes (gots h) }
    ensures room { (side : Side) (h : History) (p : Packet) → IsFair side (Got p ∷ h) → is_rst p ≡ false
        → bytes (gots h) + size p ≤ allowance (puts h) }
    ensures told { (side : Side) (h : History) (p : Packet) → IsFair side (Got p ∷ h) → is_rst p ≡ false
        → forwarded_by (gots h) p ≤ bytes (puts h) }
    ensures space { (side : Side) (h : History) (p : Packet) → IsFair side (Put p ∷ h) → is_rst p ≡ false
        → (has tells (puts h) ≡ false → p.header.buf_alloc ≡ BUF_ALLOC) × (told_alloc (puts h) ≤ p.header.buf_alloc)
        × (p.header.buf_alloc ≤ BUF_ALLOC_MAX) }
    ensures shut { (side : Side) (h : History) (p : Packet) → IsFair side (Put p ∷ h) → is_rw p ≡ true → has shuts_send (puts h) ≡ false }
{}

/// Two ends of one connection, one of which asks. What each got is what the other put first, and both histories are fair. Then the next
/// packet of the other's is allowed here: it is one that this end must not refuse, its payload fits in what this end advertised, and it
/// says at most as much was forwarded as this end put.
pub fn law_of_two_ends()
    ensures allowed { (side : Side) (mine other : History) (p : Packet) → IsFair side mine → IsFair (peer side) other
        → IsNext mine other p → HasGot other mine → Allows side mine (Got p) }
{}
