//! Counts of a poll.

ghost use Rattle.std.specs.Prelude.{◌≡◌, false};

/// What a stage of a poll did so far.
#[derive(Clone, Copy, Debug, PartialEq, Eq)]
pub struct Tally {
    /// Pages taken, or packets put.
    pub count: u32,
    /// Whether a transport reset was taken.
    pub reset: bool,
}

impl Tally {
    /// Nothing yet.
    pub fn none() -> Tally
        ensures { result ≡ record { count = 0; reset = false } }
    {
        Tally {
            count: 0,
            reset: false,
        }
    }
}
