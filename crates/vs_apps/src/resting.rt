//! An app's thread that rests: once an app waited long, the caller makes its steps between the device's turns, as long as these move nothing.
//! So a run in which all wait wakes one thread by the system's timer, and not one for each app.

ghost use Rattle.std.specs.Prelude.{◌≡◌, IfOk, vec_len};

use std::alloc::{AllocError, Global};
use std::sync::Wait;
use std::sync::atomic::{AtomicU32, AtomicU64, Ordering};
use std::thread::Parker;

/// After so many waits in a row the thread of an app rests.
pub const RESTING: u32 = 512;

/// And after so many more, where it went on since something moved and the app waits still.
pub const RESTING_AGAIN: u32 = 4;

/// How an app goes on: how many steps it made, how many of these waited in a row, and whether it has ended.
#[derive(Clone, Copy)]
pub struct Pace {
    pub steps: u64,
    pub waits: u32,
    pub ended: bool,
}

/// Before the first step.
pub const STANDING: Pace = Pace {
    steps: 0,
    waits: 0,
    ended: false,
};

const GOING: u64 = 0;

const AT_REST: u64 = 1;

/// What the thread of an app and the caller share of its rest. While the thread rests the pace is the caller's, and else the thread's own.
#[derive(Drop)]
pub struct Rest {
    state: AtomicU64,
    steps: AtomicU64,
    waits: AtomicU32,
    ended: AtomicU64,
    parker: Parker,
}

impl Rest {
    fn new() -> Rest {
        Rest {
            state: AtomicU64::new(GOING),
            steps: AtomicU64::new(0),
            waits: AtomicU32::new(0),
            ended: AtomicU64::new(0),
            parker: Parker::new(),
        }
    }

    /// Whether the thread rests.
    pub fn is_on(&self) -> bool {
        self.state.load(Ordering::SeqCst) == AT_REST
    }

    /// How the app goes on.
    pub fn pace(&self) -> Pace {
        Pace {
            steps: self.steps.load(Ordering::SeqCst),
            waits: self.waits.load(Ordering::SeqCst),
            ended: self.ended.load(Ordering::SeqCst) != 0,
        }
    }

    /// The app goes on so.
    pub fn set_pace(&self, pace: Pace) {
        self.steps.store(pace.steps, Ordering::SeqCst);
        self.waits.store(pace.waits, Ordering::SeqCst);
        self.ended.store(u64::from(pace.ended), Ordering::SeqCst);
    }

    /// The thread rests, until the caller ends that. It doesn't where no more turns are made: whoever ends all rests says so first.
    pub fn begin<W: Wait>(&self, rt: &W, over: &AtomicU64, pace: Pace) -> Pace {
        self.set_pace(pace);
        self.state.store(AT_REST, Ordering::SeqCst);
        if over.load(Ordering::SeqCst) != 0 {
            self.state.store(GOING, Ordering::SeqCst);
            return pace;
        }
        for _ in rt.forever() {
            self.parker.park(rt);
            if !self.is_on() {
                return self.pace();
            }
        }
        unreachable!()
    }

    /// The thread goes on.
    pub fn end(&self) {
        self.state.store(GOING, Ordering::SeqCst);
        self.parker.unpark();
    }
}

/// A place for the rest of each of so many apps.
pub fn rests(alloc: Global, count: usize) -> Result<Vec<Rest>, AllocError>
    ensures { IfOk result (λ rests. vec_len rests ≡ count) }
{
    let mut rests = Vec::with_capacity(alloc, count)?;
    for _ in 0..count {
        rests.push(Rest::new())?;
    }
    Ok(rests)
}

/// All threads go on.
pub fn end_rests(rests: &[Rest]) {
    for rest in rests {
        if rest.is_on() {
            rest.end();
        }
    }
}
