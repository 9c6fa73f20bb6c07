//! Gates that hold a call up until another thread went on.

use std::sync::atomic::{AtomicU64, Ordering};
use std::{hint, thread};
use vs_outside::Gate;

/// How often a gate looks before it gives up.
const LOOKS: u32 = 1_000_000;

/// What the threads of a run tell one another.
#[derive(Drop)]
pub struct Told {
    /// How many steps the second app began.
    steps: AtomicU64,
    /// How many turns the device made.
    turns: AtomicU64,
    /// Whether what a gate waited for came.
    came: AtomicU64,
}

impl Told {
    /// Nothing happened yet.
    pub fn new() -> Told {
        Told {
            steps: AtomicU64::new(0),
            turns: AtomicU64::new(0),
            came: AtomicU64::new(0),
        }
    }

    /// Whether what a gate waited for came.
    pub fn came(&self) -> bool {
        self.came.load(Ordering::SeqCst) != 0
    }

    // Waits until a word is at least this, and notes whether it came to that.
    fn wait_for(&self, word: &AtomicU64, least: u64) {
        for look in 0..LOOKS {
            if word.load(Ordering::SeqCst) >= least {
                self.came.store(1, Ordering::SeqCst);
                return;
            }
            if look % 100 == 0 {
                thread::yield_now();
            } else {
                hint::spin_loop();
            }
        }
    }
}

/// What the first app's first step waits for.
#[derive(Clone, Copy)]
pub enum WaitsFor {
    /// Before it takes the lock, that a call of the second app was answered.
    SecondApp,
    /// While it holds the lock, that the device makes one more turn.
    Turn,
}

/// A gate of one thread of a run.
#[derive(Drop)]
pub struct HoldingGate<'a> {
    told: &'a Told,
    waits_for: WaitsFor,
    pauses: u64,
}

impl<'a> HoldingGate<'a> {
    /// A gate that holds up the first app's first step.
    pub fn new(told: &'a Told, waits_for: WaitsFor) -> HoldingGate<'a> {
        HoldingGate {
            told,
            waits_for,
            pauses: 0,
        }
    }
}

impl<'a> Gate for HoldingGate<'a> {
    ghost pauses = { λ g. g.pauses };

    fn before(&self, app: usize, step: u64) {
        if app == 1 {
            self.told.steps.store(step, Ordering::SeqCst);
        }
        if app == 0 && step == 1 && matches!(self.waits_for, WaitsFor::SecondApp) {
            self.told.wait_for(&self.told.steps, 2);
        }
    }

    fn holding(&self, app: usize) {
        if app == 0 && !self.told.came() && matches!(self.waits_for, WaitsFor::Turn) {
            let turns = self.told.turns.load(Ordering::SeqCst);
            self.told
                .wait_for(&self.told.turns, turns.saturating_add(1));
        }
    }

    fn turned(&self, n: u64) {
        self.told.turns.store(n, Ordering::SeqCst);
    }

    fn pause(&mut self) {
        self.pauses = self.pauses.saturating_add(1);
        thread::yield_now();
    }
}
