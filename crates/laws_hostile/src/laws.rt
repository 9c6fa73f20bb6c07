//! What a hostile guest can't do to the host's streams, whatever it writes into the memory of the device's rings, and whenever.

ghost use Rattle.std.specs.Prelude.{◌≡◌, List, [], ◌∷◌};
ghost use Rattle.vs_script.specs.Hostile.{Hostile};
ghost use Rattle.vs_hostile.specs.{Answer.state_after, Run.beginning};
ghost use Rattle.laws_hostile.specs.{Isolated.IsSafe, Isolated.delivered_to, Recorded.calls_of, Worked.changed_lines, Worked.two_lines};

/// After any lines of a hostile script each stream was given a prefix of its OK line and the payloads delivered on its own connection; at
/// no time have two streams the connection of one flow; and the payload put on a flow is what was taken of the streams of that flow, each
/// byte once and in order. Once the ring failed, each turn and each reset tells the failure again, and all stays: the proxy, the memory,
/// the host and its streams.
pub fn law_of_isolation()
    ensures { (lines : List Hostile) → IsSafe lines }
{}

/// Runs that are computed: an RW whose length the guest changes once the device read it, of which the one byte of the length that was
/// read is delivered; and two connections, where a byte on a flow that isn't open and one from another CID are delivered to none.
pub fn worked_isolation()
    ensures changed { delivered_to 1 (calls_of changed_lines beginning []) ≡ 120 ∷ [] }
    ensures first { delivered_to 1 (calls_of two_lines beginning []) ≡ 97 ∷ [] }
    ensures second { delivered_to 2 (calls_of two_lines beginning []) ≡ 98 ∷ [] }
    ensures dropped { (state_after two_lines beginning).proxy.device.dropped ≡ 1 }
{}
