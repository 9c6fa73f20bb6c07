//! A driver's poll that puts nothing, and where its packets go.

ghost use Rattle.std.specs.Prelude.{◌≡◌, ◌<◌, ◌≤◌, ◌^◌, ℕ, true, List, Result};
ghost use Rattle.vs_flow.specs.Table.{IsTable};
ghost use Rattle.vs_ring_port.specs.Contents.{RingContents};
ghost use Rattle.vs_limits.specs.declared.TheConstants.{LAST_PORT};
ghost use Rattle.vs_driver_parts.specs.{Conversations.{connect_of, new_of, poll_of, send_of}, Playing.Plays, State.DriverState, declared.answers.ConnectError.ConnectError};
ghost use Rattle.vs_driver_parts.specs.declared.answers.{Polled.Polled, Sent.Sent};
ghost use Rattle.laws_driver.specs.Honest.{IsFresh, IsHonestWith, ends_of_state};
ghost use Rattle.laws_rest.specs.Rest.{IsRoutedWith, OwesNothing};

/// After a poll that put nothing, and left a transmit page free, the driver owes nothing, whatever its ring answered.
pub fn law_of_quiet_polls()
    ensures { (s t : DriverState) (c d : RingContents) (p : Polled) → Plays (poll_of s) c (t, p) d → p.posted ≡ 0 → t.in_flight < t.size
        → IsTable t.table → OwesNothing (ends_of_state t) }
{}

/// Over an honest ring that tells its log each packet that the driver puts has the guest's CID of that point and goes to the host, as long as
/// all packets that it got come from there. The calls that make no use of the ring leave the log as it is.
pub fn law_of_routes()
    ensures new { (size port id : ℕ) (c d : RingContents) (s : DriverState) → port ≤ LAST_PORT → IsFresh c → Plays (new_of size port id) c s d
        → IsRoutedWith s.cid d }
    ensures connect { (first host : ℕ) (s : DriverState) (c d : RingContents) (x : DriverState × Result ℕ ConnectError) → host < 2 ^ 32
        → IsHonestWith true first s c → IsRoutedWith first c → Plays (connect_of host s) c x d → IsRoutedWith first d }
    ensures send { (first id : ℕ) (bytes : List ℕ) (s : DriverState) (c d : RingContents) (x : DriverState × Sent)
        → IsHonestWith true first s c → IsRoutedWith first c → Plays (send_of id bytes s) c x d → IsRoutedWith first d }
    ensures poll { (first : ℕ) (s : DriverState) (c d : RingContents) (x : DriverState × Polled) → IsHonestWith true first s c
        → IsRoutedWith first c → Plays (poll_of s) c x d → IsRoutedWith first d }
{}
