//! The order in which connections are served: those after the slot that last put a packet come first.

ghost use Rattle.std.specs.Prelude.{◌≡◌, ◌≤◌, ◌<◌, ◌++◌, AllPairs, length, drop, take, filter, nat_lt, nat_le};
ghost use Rattle.vs_device_parts.specs.Receiving.{round_from};

use vs_flow::Slot;

/// The place of the first slot of a round.
pub fn first_from(last: Option<Slot>, slots: &[Slot]) -> usize
    requires rising { AllPairs (λ j k. j < k) slots.now }
    ensures most { result ≤ length slots.now }
    ensures round { round_from last slots.now ≡ drop result slots.now ++ take result slots.now }
{
    match last {
        Some(last) => up_to(last, slots),
        None => 0,
    }
}

// How many slots are at most `last`.
fn up_to(last: Slot, slots: &[Slot]) -> usize
    requires rising { AllPairs (λ j k. j < k) slots.now }
    ensures most { result ≤ length slots.now }
    ensures above { filter (λ slot. nat_lt last slot) slots.now ≡ drop result slots.now }
    ensures others { filter (λ slot. nat_le slot last) slots.now ≡ take result slots.now }
{
    slots.partition_point(|slot| *slot <= last)
}
