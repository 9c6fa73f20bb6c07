//! Laws of connections that use one pair of ports one after another.

ghost use Rattle.std.specs.Prelude.{◌≡◌, ◌∷◌};
ghost use Rattle.laws_history.specs.{Again.{AllowsNext, AllowsNow, IsClean, IsFairAll, now_got, now_put, present}, History.{Answerer, Asker, Entry, Got, HasGot, History, IsFair}};
ghost use Rattle.laws_history.specs.{History.{IsNext, Side, gots, peer, puts}, declared.packet.Packet.Packet};

/// Two ends of a pair, of which one asks each time: the next packet of the other's keeps the history fair.
pub fn law_of_two_ends_again()
    ensures { (side : Side) (mine other : History) (p : Packet) → IsFairAll side mine → IsFairAll (peer side) other
        → IsNext mine other p → HasGot other mine → IsFairAll side (Got p ∷ mine) }
{}

/// The entries from the newest REQUEST on are a fair history of one connection, and have the packets that the rules take for its.
pub fn law_of_the_present()
    ensures fair { (side : Side) (h : History) → IsFairAll side h → IsFair side (present h) }
    ensures put { (side : Side) (h : History) → IsFairAll side h → puts (present h) ≡ now_put side (puts h) (gots h) }
    ensures got { (side : Side) (h : History) → IsFairAll side h → gots (present h) ≡ now_got side (puts h) (gots h) }
{}

/// What an end may put or get next is a matter of the present connection alone: a REQUEST where nothing passed or the connection is over
/// cleanly, anything else by the rules of one connection.
pub fn law_of_now()
    ensures now { (side : Side) (h : History) (entry : Entry) → IsFairAll side h → AllowsNext side h entry
        → AllowsNow side (present h) entry }
    ensures next { (side : Side) (h : History) (entry : Entry) → IsFairAll side h → AllowsNow side (present h) entry
        → AllowsNext side h entry }
{}

/// Where a connection is over cleanly at its asker, each end got all that the other put: no packet of the pair is under way.
pub fn law_of_quiet_pairs()
    ensures came { (mine other : History) → IsFairAll Asker mine → IsFairAll Answerer other → HasGot mine other → HasGot other mine
        → IsClean (puts (present mine)) (gots (present mine)) → puts other ≡ gots mine }
    ensures went { (mine other : History) → IsFairAll Asker mine → IsFairAll Answerer other → HasGot mine other → HasGot other mine
        → IsClean (puts (present mine)) (gots (present mine)) → puts mine ≡ gots other }
{}
