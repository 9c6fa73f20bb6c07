//! What a run began with, as its type knows it.

use std::marker::Brand;
use vs_apps::guests::RunName;

/// Which run it is, its base path, and what its host was like when it began. Each call of a program picks them.
pub trait StartName: RunName {
    ghost use Rattle.laws_settled.specs.Begun.{Start};

    /// The base path of the host's sockets; what the host exposed before the first step, and how many of its calls had failed.
    ghost start: { Start };
}

impl StartName for Brand {
    ghost use Rattle.std.specs.Prelude.{None, []};

    ghost start = { record { base = []; contents = None; faults = 0 } };
}
