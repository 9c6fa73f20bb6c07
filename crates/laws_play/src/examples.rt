//! Worked examples: what the laws of plays say of scripts, as their definitions compute it.

ghost use Rattle.std.specs.Prelude.{◌≡◌, [], ◌∷◌, None, Some};
ghost use Rattle.vs_play.specs.Examples.{client, resets};
ghost use Rattle.laws_play.specs.Worked.{client_flow, client_told, closed_between, counted_on, first_flow, first_names, first_told, flows_after};
ghost use Rattle.laws_play.specs.Worked.{last_flow, late_request, refused, second_flow, told_on};
ghost use Rattle.vs_driver_parts.specs.declared.answers.ConnectionState.TheVariants as seen;

/// A client of the host that talks with the guest, and a transport reset: the bytes of connections both ways, and the flows of both tables.
/// Ids and their flows: of a connection that was refused, and after a close. A packet that is late for a reset is dropped, and a call of the
/// host fails: each is counted once.
pub fn worked_examples()
    ensures client { told_on client 1 client_flow ≡ client_told }
    ensures client_tables { flows_after client ≡ (client_flow ∷ [], client_flow ∷ []) }
    ensures resets { told_on resets 1 first_flow ≡ first_told }
    ensures named { first_names refused ≡ (Some first_flow, None, seen.Gone) }
    ensures named_again { first_names closed_between ≡ (None, Some second_flow, seen.Unknown) }
    ensures reset_tables { flows_after resets ≡ (last_flow ∷ [], last_flow ∷ []) }
    ensures counted { counted_on late_request ≡ record { dropped = 1; dropped_by_log = 1; faults = 1; told_to_fail = 1 } }
{}
