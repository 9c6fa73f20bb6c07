//! The apps of a run, each on a thread of its own, beside a device on the caller's.

ghost use Rattle.std.specs.Prelude.{◌≡◌, ◌<◌, ◌≤◌, ℕ, IfOk, length, vec_len};
ghost use Rattle.vs_limits.specs.declared.TheConstants.{FIRST_CID};
ghost use Rattle.laws_apps.specs.Runs.{IsRunOf};
ghost use Rattle.vs_apps.specs.Guests.{run_in};

use crate::guests::{Guests, RunName, laws_of_guests};
use crate::resting::{Pace, RESTING, RESTING_AGAIN, Rest, STANDING, end_rests, rests};
use std::alloc::Global;
use std::sync::atomic::{AtomicU64, Ordering};
use std::sync::{Mutex, Wait};
use std::thread;
use std::thread::Threads;
use vs_apps_parts::progress::Stepped;
use vs_outside::Gate;

/// Want of memory.
#[derive(Clone, Copy, Drop)]
pub struct OutOfMemory;

/// A device that is turned beside the apps.
pub trait Turning {
    ghost use Rattle.std.specs.Prelude.{◌≡◌, ℕ};

    /// The name of the borrow of what was lent to it.
    ghost lent: { Self → ℕ };

    /// A turn. It answers whether anything moved.
    fn turn(&mut self) -> bool
        ensures lent { lent self.new ≡ lent self.old };
}

/// So many further steps an app makes at most while its thread has the lock, and no more than there are other apps, which may wait for it.
const FURTHER: usize = 15;

// At which instruction an app is, where that hasn't asked for its connection.
fn place_of<N: RunName>(guests: &Guests<N>, k: usize) -> Option<usize> {
    let progress = guests.apps().get(k)?.progress;
    if progress.asked {
        None
    } else {
        Some(progress.at)
    }
}

// What comes of a step: the app ends where it is done, or waited so many steps in a row. It answers whether the app waits.
fn count_step(pace: &mut Pace, stepped: Stepped, idle: u32) -> Result<bool, OutOfMemory> {
    pace.steps = pace.steps.saturating_add(1);
    match stepped {
        Stepped::Moved => pace.waits = 0,
        Stepped::Done => pace.ended = true,
        Stepped::OutOfMemory => return Err(OutOfMemory),
        Stepped::Waiting(_) => {
            pace.waits = pace.waits.saturating_add(1);
            pace.ended = pace.waits >= idle;
            return Ok(true);
        }
    }
    Ok(false)
}

// A step under the lock, and at most so many further ones, as long as each moves bytes of the instruction that the first one was at. It answers
// whether the app waits.
fn step_locked<W: Wait, N: RunName, G: Gate>(
    rt: &W,
    lock: &Mutex<Guests<N>>,
    k: usize,
    pace: &mut Pace,
    further: usize,
    idle: u32,
    gate: &G,
) -> Result<bool, OutOfMemory>
    requires { k < length N.script }
{
    let mut guests = lock.lock(rt);
    let place = place_of(&guests, k);
    let others = guests.count().saturating_sub(1);
    for _ in 0..further.min(others) {
        gate.holding(k);
        let waits = count_step(pace, guests.step(k).0, idle)?;
        if waits || pace.ended || place_of(&guests, k) != place {
            return Ok(waits);
        }
    }
    gate.holding(k);
    count_step(pace, guests.step(k).0, idle)
}

// The next steps of an app, with a pause where the last one waits.
fn go_on<W: Wait, N: RunName, G: Gate>(
    rt: &W,
    lock: &Mutex<Guests<N>>,
    k: usize,
    pace: &mut Pace,
    further: usize,
    idle: u32,
    gate: &mut G,
) -> Result<(), OutOfMemory>
    requires { k < length N.script }
{
    gate.before(k, pace.steps.saturating_add(1));
    if step_locked(rt, lock, k, pace, further, idle, gate)? {
        gate.pause();
    }
    Ok(())
}

/// The steps of an app, under the lock, until the app is done or waited `idle` steps in a row. Up to 15 steps that only go on with the bytes of
/// an instruction, and no more than there are other apps, follow another under one lock. The gate's `before` is called each time before the lock
/// is taken, `holding` at each step, `pause` at each that waits.
///
/// The only error is want of memory.
pub fn worker<W: Wait, N: RunName, G: Gate>(
    rt: &W,
    lock: &Mutex<Guests<N>>,
    k: usize,
    idle: u32,
    gate: &mut G,
) -> Result<(), OutOfMemory>
    requires { k < length N.script }
{
    work_and_rest(rt, lock, None, k, idle, gate)
}

// The same for a thread that may rest, as long as it isn't said that no more turns are made.
fn work_and_rest<W: Wait, N: RunName, G: Gate>(
    rt: &W,
    lock: &Mutex<Guests<N>>,
    rest: Option<(&Rest, &AtomicU64)>,
    k: usize,
    idle: u32,
    gate: &mut G,
) -> Result<(), OutOfMemory>
    requires { k < length N.script }
{
    let mut pace = STANDING;
    let mut awake = RESTING;
    for _ in rt.forever() {
        go_on(rt, lock, k, &mut pace, FURTHER, idle, gate)?;
        if pace.waits == 0 {
            awake = RESTING;
        }
        match rest {
            Some((rest, over)) if !pace.ended && pace.waits >= awake => {
                pace = rest.begin(rt, over, pace);
                awake = pace.waits.saturating_add(RESTING_AGAIN);
            }
            _ => {}
        }
        if pace.ended {
            return Ok(());
        }
    }
    unreachable!()
}

// A step of each app whose thread rests, where no other thread has the lock. The thread goes on where the app does, or has ended.
fn step_resting<N: RunName>(
    lock: &Mutex<Guests<N>>,
    rests: &Vec<Rest>,
    idle: u32,
) -> Result<(), OutOfMemory>
    requires { vec_len rests.now ≤ length N.script }
{
    if !rests.iter().any(|rest| rest.is_on()) {
        return Ok(());
    }
    let Some(mut guests) = lock.try_lock() else {
        return Ok(());
    };
    for k in 0..rests.len() {
        let rest = &rests[k];
        if rest.is_on() {
            let mut pace = rest.pace();
            let waits = count_step(&mut pace, guests.step(k).0, idle)?;
            rest.set_pace(pace);
            if !waits || pace.ended {
                rest.end();
            }
        }
    }
    Ok(())
}

// An app of which no thread could be started is the caller's own.
#[derive(Clone, Copy)]
struct Own {
    mine: bool,
    pace: Pace,
}

// A step of each app that is the caller's own and hasn't ended.
fn step_all_own<W: Wait, N: RunName, G: Gate>(
    rt: &W,
    lock: &Mutex<Guests<N>>,
    own: &mut Vec<Own>,
    idle: u32,
    gate: &mut G,
) -> Result<(), OutOfMemory>
    requires { vec_len own.old ≤ length N.script }
    ensures { vec_len own.new ≡ vec_len own.old }
{
    for k in 0..own.len() {
        if own[k].mine && !own[k].pace.ended {
            go_on(rt, lock, k, &mut own[k].pace, 0, idle, gate)?;
        }
    }
    Ok(())
}

// How many of the caller's own apps have ended.
fn own_ended(own: &[Own]) -> u64 {
    own.iter().filter(|app| app.mine && app.pace.ended).count() as u64
}

// What the threads share beside the guests: how many workers have ended, whether one wanted memory, and whether no more turns are made.
#[derive(Drop)]
struct Shared {
    ended: AtomicU64,
    wants: AtomicU64,
    over: AtomicU64,
}

// Turns until all apps have ended, with a step of each of the caller's own apps between turns, and behind one that moved nothing of each app whose
// thread rests. Where one moves something all threads go on.
fn turn_all<W: Wait, N: RunName, D: Turning, G: Gate>(
    rt: &W,
    lock: &Mutex<Guests<N>>,
    shared: &Shared,
    own: &mut Vec<Own>,
    rests: &Vec<Rest>,
    device: &mut D,
    idle: u32,
    gate: &mut G,
) -> Result<(), OutOfMemory>
    requires own { vec_len own.old ≤ length N.script }
    requires rests { vec_len rests.now ≤ length N.script }
    ensures lent { D.lent device.new ≡ D.lent device.old }
{
    let mut turns = 0u64;
    for _ in rt.forever() {
        let moved = device.turn();
        turns = turns.saturating_add(1);
        gate.turned(turns);
        step_all_own(rt, lock, own, idle, gate)?;
        let ended = own_ended(own.as_slice()).saturating_add(shared.ended.load(Ordering::SeqCst));
        if ended >= own.len() as u64 {
            return Ok(());
        }
        if moved {
            end_rests(rests.as_slice());
        } else {
            step_resting(lock, rests, idle)?;
            gate.pause();
        }
    }
    unreachable!()
}

// A worker, which tells that it has ended, and whether it wanted memory.
fn work<W: Wait, N: RunName, G: Gate>(
    rt: &W,
    lock: &Mutex<Guests<N>>,
    shared: &Shared,
    rests: &Vec<Rest>,
    k: usize,
    idle: u32,
    gate: &mut G,
)
    requires { k < length N.script }
{
    let rest = rests.get(k).map(|rest| (rest, &shared.over));
    if work_and_rest(rt, lock, rest, k, idle, gate).is_err() {
        shared.wants.store(1, Ordering::SeqCst);
    }
    shared.ended.fetch_add(1, Ordering::SeqCst);
}

// The threads of the apps, each with a gate, and the device beside them.
fn work_all<'x, W: Threads + Wait + Sync, N: RunName + Send, D: Turning, G: Gate + Send + Drop>(
    rt: &'x W,
    lock: &'x Mutex<Guests<N>>,
    shared: &'x Shared,
    rests: &'x Vec<Rest>,
    own: Vec<Own>,
    device: &mut D,
    idle: u32,
    gates: Vec<G>,
    gate: G,
)
    requires own { vec_len own ≤ length N.script }
    requires rests { vec_len rests.now ≤ length N.script }
    ensures lent { D.lent device.new ≡ D.lent device.old }
{
    let _device = thread::scope(
        thread::scope_env(),
        rt,
        move |scope|
            requires own { vec_len own ≤ length N.script }
            requires rests { vec_len rests.now ≤ length N.script }
            ensures same { result.ghost_name ≡ device.entry.ghost_name }
            ensures lent { D.lent result.now ≡ D.lent device.entry.now }
        {
            let mut own = own;
            let mut gates = gates;
            let mut gate = gate;
            for k in 0..own.len() {
                let Some(mut own_gate) = gates.pop() else {
                    own[k].mine = true;
                    continue;
                };
                let started = scope.spawn(
                    move ||
                        requires { k < length N.script }
                    { work(rt, lock, shared, rests, k, idle, &mut own_gate) },
                );
                if started.is_err() {
                    own[k].mine = true;
                }
            }
            if turn_all(
                rt,
                lock,
                shared,
                &mut own,
                rests,
                &mut *device,
                idle,
                &mut gate,
            )
            .is_err()
            {
                shared.wants.store(1, Ordering::SeqCst);
            }
            shared.over.store(1, Ordering::SeqCst);
            end_rests(rests.as_slice());
            device
        },
    );
}

/// Runs all apps, each on a thread of its own, beside the device, which the caller's thread turns until all apps have ended: an app ends where
/// it is done or waited `idle` steps in a row. Each thread takes a gate off the end of `gates`; an app that has none, or of which no thread
/// could be started, is stepped by the caller between turns, with the caller's gate; and so is one that waited 512 steps in a row, behind each turn
/// that moved nothing, until something moves, while its thread rests: no gate is told of these steps. The guests come out of their lock with all that
/// their type says, and the device with what was lent to it.
///
/// The only error is want of memory.
pub fn run_all<W: Threads + Wait + Sync, N: RunName + Send, D: Turning, G: Gate + Send + Drop>(
    rt: &W,
    alloc: Global,
    guests: Guests<N>,
    device: &mut D,
    idle: u32,
    gates: Vec<G>,
    gate: G,
) -> Result<Guests<N>, OutOfMemory>
    ensures run { IfOk result (λ guests. IsRunOf FIRST_CID N.script (run_in guests)) }
    ensures lent { D.lent device.new ≡ D.lent device.old }
{
    let count = guests.count();
    let Ok(own) = vec![in alloc; Own {
        mine: false,
        pace: STANDING
    }; count] else {
        return Err(OutOfMemory);
    };
    let Ok(rests) = rests(alloc, count) else {
        return Err(OutOfMemory);
    };
    let lock = Mutex::new(guests);
    let shared = Shared {
        ended: AtomicU64::new(0),
        wants: AtomicU64::new(0),
        over: AtomicU64::new(0),
    };
    work_all(rt, &lock, &shared, &rests, own, device, idle, gates, gate);
    if shared.wants.load(Ordering::SeqCst) != 0 {
        return Err(OutOfMemory);
    }
    let guests = lock.into_inner();
    laws_of_guests(&guests);
    Ok(guests)
}
