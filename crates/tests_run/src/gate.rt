//! A gate that lets another thread run where a step moved nothing.

ghost use Rattle.std.specs.Prelude.{◌≡◌};

use std::marker::Model;
use std::thread;
use vs_outside::Gate;

/// A gate that holds nothing up, and never sleeps.
#[derive(Drop)]
pub struct YieldGate {
    pauses: u64,
}

impl Model for YieldGate {
    ghost use Rattle.std.specs.Prelude.{ℕ};

    ghost Value = { ℕ };

    ghost view = { λ g. g.pauses };
}

impl YieldGate {
    /// A gate without pauses.
    pub fn new() -> YieldGate
        ensures { result ≡ 0 }
    {
        YieldGate { pauses: 0 }
    }
}

impl Gate for YieldGate {
    ghost pauses = { λ g. g };

    fn before(&self, app: usize, step: u64) {}

    fn holding(&self, app: usize) {}

    fn turned(&self, n: u64) {}

    fn pause(&mut self) {
        self.pauses = self.pauses.saturating_add(1);
        thread::yield_now();
    }
}
