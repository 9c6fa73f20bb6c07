//! The status that a hostile guest's run ends with.

ghost use Rattle.std.specs.Prelude.{◌≡◌};
ghost use Rattle.vs_hostile.specs.Answer.{status_of};

use vs_ring_port::Failure;

/// The status: 7 where the device failed, else 0.
pub fn status(failure: Option<Failure>) -> u8
    ensures { result ≡ status_of failure }
{
    match failure {
        Some(_) => 7,
        None => 0,
    }
}
