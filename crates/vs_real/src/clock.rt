//! The machine's clock.
ghost use Rattle.std.specs.Prelude.{◌≡◌};

use crate::moves::Moves;
use std::io;
use std::time::{Clock, Instant};
use vs_outside::Clock as OutsideClock;

/// So many calls in a row are answered by the moment that was read last, while bytes move.
const KEPT: u32 = 15;

/// The machine's clock, in milliseconds since it was made. A moment that can't be read is the one before. Beside a host, it is read in one call
/// of 16 alone while bytes move there, since turns that move bytes follow each other within microseconds.
#[derive(Drop)]
pub struct MachineClock<R> {
    rt: R,
    start: Instant,
    last: u64,
    // what moves on a host's streams, how often it did until the last call, and how many calls in a row were answered without reading
    moves: Option<Moves>,
    moved: u64,
    kept: u32,
}

impl<R: Clock> MachineClock<R> {
    /// A clock that is made now. The error is that of reading the machine's.
    pub fn new(rt: R) -> io::Result<MachineClock<R>>
    where
        R: Drop,
    {
        let start = Instant::now(&rt)?;
        Ok(MachineClock {
            rt,
            start,
            last: 0,
            moves: None,
            moved: 0,
            kept: 0,
        })
    }

    /// The same, for turns of a device that moves bytes on the streams of a host.
    pub fn beside(rt: R, moves: Moves) -> io::Result<MachineClock<R>>
    where
        R: Drop,
    {
        let mut clock = MachineClock::new(rt)?;
        clock.moves = Some(moves);
        Ok(clock)
    }

    // Whether the last moment serves for this call.
    fn keeps(&mut self) -> bool
        ensures { self.new.last ≡ self.old.last }
    {
        let moved = self.moves.as_ref().map_or(0, |moves| moves.count());
        let keeps = moved != self.moved && self.kept < KEPT;
        self.moved = moved;
        self.kept = if keeps { self.kept + 1 } else { 0 };
        keeps
    }
}

impl<R: Clock> OutsideClock for MachineClock<R> {
    ghost moment = { λ c. c.last };

    fn now(&mut self) -> u64 {
        if self.keeps() {
            return self.last;
        }
        if let Ok(passed) = self.start.elapsed(&self.rt) {
            let ms = u64::try_from(passed.as_millis()).unwrap_or(u64::MAX);
            self.last = self.last.max(ms);
        }
        self.last
    }
}
