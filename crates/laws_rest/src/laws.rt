//! Laws of driver and device at rest.

ghost use Rattle.std.specs.Prelude.{◌≡◌, ◌≤◌, ℕ, false, length, true};
ghost use Rattle.vs_conn.specs.{End.ConnectionEnd, Shut.is_both};
ghost use Rattle.vs_credit.specs.Credit.{free_of, unread_of};
ghost use Rattle.vs_flow.specs.declared.flow.Flow.{Flow};
ghost use Rattle.vs_limits.specs.declared.TheConstants.{HOST_CID};
ghost use Rattle.vs_page.specs.Log.{Role, other_role, packets_got, packets_put};
ghost use Rattle.laws_tables.specs.{Both.{Both, MayRun, at}, Ends.{flows_of, is_among}, Examples.{guest_cid, guest_flow}, Steps.HasEnd};
ghost use Rattle.laws_rest.specs.{Examples.{fresh, losing, lost, opened_twice, resting}, Pages.{AllGiven, AreTied, NoneInFlight, Queued}, Rest.{ArePaired, IsAtRest, IsWithHost}};
ghost use Rattle.laws_rest.specs.Rest.{OwesNothing, over_half};

/// At rest both tables hold the same flows with the host, and each such connection is Live at both ends, which know of each other what each
/// told, also where flows were used before. Where all connections are with the host, the tables have as many.
pub fn law_of_rest()
    ensures same_flows { (first : ℕ) (b : Both) (f : Flow) → f.peer ≡ HOST_CID → IsAtRest first b
        → is_among f (flows_of b.driver.part.entries) ≡ is_among f (flows_of b.device.part.entries) }
    ensures paired { (role : Role) (first : ℕ) (b : Both) (f : Flow) (e : ConnectionEnd) → f.peer ≡ HOST_CID → IsAtRest first b
        → HasEnd f e (at role b).part → (other : ConnectionEnd) × HasEnd f other (at (other_role role) b).part × ArePaired e other }
    ensures as_many { (first : ℕ) (b : Both) → ((role : Role) → IsWithHost (at role b).part) → IsAtRest first b
        → length b.driver.part.entries ≡ length b.device.part.entries }
{}

/// What the waits of an application rest on. Where nothing is unread at an end that didn't shut both directions, its peer has credit, so that
/// it looks for more. Where an end has no credit, and its peer still sends or receives, its peer holds more than half of the first buffer space.
pub fn law_of_waits()
    ensures empty { (e other : ConnectionEnd) → ArePaired e other → unread_of e.credit ≡ 0 → is_both e.own ≡ false
        → over_half ≤ free_of other.credit }
    ensures no_credit { (e other : ConnectionEnd) → ArePaired e other → free_of e.credit ≡ 0 → is_both other.own ≡ false
        → over_half ≤ unread_of other.credit }
{}

/// Why the law asks that no packet is dropped. Both ends may come to this, each got all that the other put, and neither owes anything; and
/// the driver's table has a flow that the device's has not.
pub fn counterexample()
    ensures may { MayRun losing fresh }
    ensures to_host { packets_put lost.driver.log ≡ packets_got lost.device.log }
    ensures to_guest { packets_put lost.device.log ≡ packets_got lost.driver.log }
    ensures driver_owes { OwesNothing lost.driver.part }
    ensures device_owes { OwesNothing lost.device.part }
    ensures driver_has { is_among guest_flow (flows_of lost.driver.part.entries) ≡ true }
    ensures device_has_not { is_among guest_flow (flows_of lost.device.part.entries) ≡ false }
{}

/// Where no page that the driver gave is in flight, the device took all of them. Where the device has as many to write into as are in flight,
/// the driver took back all that the device gave back.
pub fn law_of_pages()
    ensures there { (q : Queued) → AreTied q → NoneInFlight q → q.driver_gave ≡ q.device_took }
    ensures back { (n : ℕ) (q : Queued) → AreTied q → AllGiven n q → q.device_gave ≡ q.driver_took }
{}

/// Both ends come to rest with a connection, on a flow that was used before.
pub fn example()
    ensures may { MayRun opened_twice fresh }
    ensures at_rest { IsAtRest guest_cid resting }
    ensures has { is_among guest_flow (flows_of resting.driver.part.entries) ≡ true }
{}
