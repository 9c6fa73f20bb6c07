//! The gate of a real run.
ghost use Rattle.std.specs.Prelude.{◌≡◌};

use crate::moves::Moves;
use std::cell::Cell;
use std::marker::Model;
use std::thread;
use std::time::{Clock, Duration, Instant};
use vs_outside::Gate;

/// So many pauses in a row keep the processor and look again after a moment: a sleep takes longer than it is asked for, and where the other
/// side moves soon that would be the longer wait.
const LOOKS: u32 = 16;

/// How often such a pause reads the clock, which takes about five microseconds in all.
const READINGS: u32 = 160;

/// So many pauses behind them give up the processor at once, for a microsecond, which is as short as the system's clock allows.
const SHORT_PAUSES: u32 = 16;

/// So many pauses behind them take twice as long each as the one before. Those after them take a millisecond.
const LONGER_PAUSES: u32 = 10;

/// So many pauses, the first of a thread, are sleeps in any case: a new thread often gets the processor of the one that made it, and they
/// share it until one of them sleeps.
const FIRST_SLEEPS: u64 = 4;

/// A pause behind more steps or turns than these since the last one is a sleep in any case: where so much moves at once, as much comes meanwhile.
/// A queue of 16 pages, all of which would have moved long before the sleep is over, gives at most 17.
const MANY_STEPS: u32 = 18;

/// A gate that holds nothing up, for one thread. A step that moved nothing is made again at once, and where some of these are in a row the
/// thread sleeps the longer the more they are, so that one that waits for long takes next to no processor time.
///
/// Pauses are in a row unless something moved between two of them: the gate was told of a second step or turn there, or bytes moved on the
/// streams of the host beside it.
#[derive(Drop)]
pub struct BackoffGate<R> {
    rt: R,
    pauses: u64,
    // how many pauses there were in a row
    row: u32,
    // how many steps and turns there were since the last pause
    steps: Cell<u32>,
    // what moves on a host's streams, and how often it did until the last pause
    moves: Option<Moves>,
    moved: u64,
}

impl<R> Model for BackoffGate<R> {
    ghost use Rattle.std.specs.Prelude.{ℕ};

    ghost Value = { ℕ };

    ghost view = { λ g. g.pauses };
}

impl<R: Clock> BackoffGate<R> {
    /// A gate without pauses, for a thread that tells it of its steps or turns.
    pub fn new(rt: R) -> BackoffGate<R>
        ensures { result ≡ 0 }
    {
        BackoffGate {
            rt,
            pauses: 0,
            row: 0,
            steps: Cell::new(0),
            moves: None,
            moved: 0,
        }
    }

    /// A gate without pauses, for a thread that moves bytes on the streams of a host.
    pub fn beside(rt: R, moves: Moves) -> BackoffGate<R>
        ensures { result ≡ 0 }
    {
        let mut gate = BackoffGate::new(rt);
        gate.moves = Some(moves);
        gate
    }

    // Whether anything moved since the last pause, behind which there were so many steps and turns.
    fn has_moved(&mut self, steps: u32) -> bool
        ensures { self.new ≡ self.old }
    {
        let moved = self.moves.as_ref().map_or(0, |moves| moves.count());
        let more = moved != self.moved;
        self.moved = moved;
        steps > 1 || more
    }

    // One more step or turn.
    fn count_step(&self) {
        self.steps.set(self.steps.get().saturating_add(1));
    }
}

impl<R: Clock> Gate for BackoffGate<R> {
    ghost pauses = { λ g. g };

    fn before(&self, app: usize, step: u64) {}

    fn holding(&self, app: usize) {
        self.count_step();
    }

    fn turned(&self, n: u64) {
        self.count_step();
    }

    fn pause(&mut self) {
        self.pauses = self.pauses.saturating_add(1);
        let steps = self.steps.replace(0);
        if self.has_moved(steps) {
            self.row = 0;
        }
        match sleeps_behind(self.pauses, steps, self.row) {
            None => look_again(&self.rt),
            Some(sleeps) => thread::sleep(&self.rt, sleep_behind(sleeps)),
        }
        self.row = self.row.saturating_add(1);
    }
}

// A moment in which the processor is kept, and no memory is touched that another thread writes: a thread that looks as often as it can takes
// from the others what they write, and holds them up. (`spin_loop` is no instruction here.)
fn look_again<R: Clock>(rt: &R) {
    for _ in 0..READINGS {
        let _ = Instant::now(rt);
    }
}

// Behind how many sleeps in a row the next pause sleeps, or none where it looks again: it is one of so many pauses, behind so many steps and turns
// and behind so many pauses in a row.
fn sleeps_behind(pauses: u64, steps: u32, row: u32) -> Option<u32> {
    if pauses <= FIRST_SLEEPS || steps > MANY_STEPS {
        Some(0)
    } else {
        row.checked_sub(LOOKS)
    }
}

// How long a sleep is behind so many in a row.
fn sleep_behind(sleeps: u32) -> Duration {
    let longer = sleeps.saturating_sub(SHORT_PAUSES);
    if longer < LONGER_PAUSES {
        Duration::from_micros(1u64 << longer)
    } else {
        Duration::from_millis(1)
    }
}
