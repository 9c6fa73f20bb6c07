//! A step of an app: a poll, and then the calls of the instruction that the app is at.

ghost use Rattle.std.specs.Prelude.{◌≡◌, ◌+◌, ◌<◌, ◌≤◌, ◌^◌, ℕ, Bool, nat_lt, if◌then◌else◌, Some, List, [], ◌∷◌, slice_get, slice_index_or, vec_len};
ghost use Rattle.vs_script.specs.{App.instruction_view, Data.{bytes_of, content_of, size_of}};
ghost use Rattle.vs_ring_port.specs.{Contents.RingContents, Counts.Counts};
ghost use Rattle.vs_driver_parts.specs.Playing.{IsRingOf};
ghost use Rattle.laws_driver.specs.Honest.{IsHonest, IsHonestWith};
ghost use Rattle.vs_apps_parts.specs.{Scripts.{AreRight, IsRight, RunScript, acts_of, calls_next, id_of, recv_next, script_of, send_next}, Journals.data_at, Told.listed};
ghost use Rattle.vs_apps_parts.specs.{Told.told_list, declared.{journal.TheConstants.NOTED, progress.{AppState.AppState, TheConstants.SLICE}}};
ghost use Rattle.laws_apps.specs.{Runs.{Acts, Steps, no_app, poll_moved}, Calls.{CallsAs, HasRoom, MakesAll, run_of}};
ghost use Rattle.laws_driver.specs.Carried.Calls as call;

use crate::calls::{accept, close, connect, grow, listen, look_at, shutdown};
use crate::receiving::recv;
use crate::sending::send_next;
use vs_apps_parts::journal::Journal;
use vs_apps_parts::progress::{AppState, Progress, SLICE, Stepped, slice_left};
use vs_apps_parts::told::{Heard, Told};
use vs_driver::{Driver, Polled};
use vs_ring_port::DriverRing;
use vs_script::{App, Data, Instruction};

// The connect of an app, or the look at the connection that it asked for.
fn ask<R: DriverRing>(
    driver: &mut Driver,
    ring: &mut R,
    journal: &mut Journal,
    app: usize,
    progress: Progress,
    port: u32,
) -> Told
    requires ring { IsRingOf (R.size ring.old) (R.flight ring.old) (R.staged ring.old) driver.old }
    requires honest { IsHonest driver.old (R.contents ring.old) }
    requires room { HasRoom 1 journal.old }
    ensures ring { IsRingOf (R.size ring.new) (R.flight ring.new) (R.staged ring.new) driver.new }
    ensures honest { (hosts : Bool) (first : ℕ) → IsHonestWith hosts first driver.old (R.contents ring.old) → IsHonestWith hosts first driver.new (R.contents ring.new) }
    ensures calls { (script : RunScript) (apps : List AppState)
        → CallsAs script app (if progress.asked then call.LookAt (id_of progress) else call.Connect port) result
        (run_of driver.old (R.contents ring.old) apps journal.old)
        (run_of driver.new (R.contents ring.new) apps journal.new) }
    ensures room { journal.old.room ≤ journal.new.room + 1 }
{
    if progress.asked {
        look_at(driver, journal, app, progress.id())
    } else {
        connect(driver, ring, journal, app, port)
    }
}

// The next receive of an instruction that takes so many bytes in all.
fn recv_next(
    driver: &mut Driver,
    journal: &mut Journal,
    app: usize,
    progress: Progress,
    len: usize,
    buffer: &mut [u8; SLICE],
) -> Told
    requires room { HasRoom 1 journal.old }
    ensures ring { (n : ℕ) (flown staged : Counts) → IsRingOf n flown staged driver.old → IsRingOf n flown staged driver.new }
    ensures honest { (hosts : Bool) (first : ℕ) (c : RingContents) → IsHonestWith hosts first driver.old c → IsHonestWith hosts first driver.new c }
    ensures calls { (script : RunScript) (c : RingContents) (apps : List AppState) → CallsAs script app (recv_next len progress) result
        (run_of driver.old c apps journal.old) (run_of driver.new c apps journal.new) }
    ensures room { journal.old.room ≤ journal.new.room + 1 }
{
    recv(
        driver,
        journal,
        app,
        progress.id(),
        slice_left(progress.got, len),
        buffer,
    )
}

// The send of an exchange, where bytes are left to send.
fn send_left<R: DriverRing>(
    driver: &mut Driver,
    ring: &mut R,
    journal: &mut Journal,
    app: usize,
    progress: Progress,
    content: &Data,
    buffer: &mut [u8; SLICE],
) -> Option<Told>
    requires ring { IsRingOf (R.size ring.old) (R.flight ring.old) (R.staged ring.old) driver.old }
    requires honest { IsHonest driver.old (R.contents ring.old) }
    requires room { HasRoom 1 journal.old }
    ensures ring { IsRingOf (R.size ring.new) (R.flight ring.new) (R.staged ring.new) driver.new }
    ensures honest { (hosts : Bool) (first : ℕ) → IsHonestWith hosts first driver.old (R.contents ring.old) → IsHonestWith hosts first driver.new (R.contents ring.new) }
    ensures calls { (script : RunScript) (apps : List AppState)
        → data_at progress.at (acts_of app script) ≡ bytes_of (content_of content.now)
        → MakesAll script app
        (if nat_lt progress.sent (size_of (content_of content.now)) then send_next (content_of content.now) progress ∷ [] else []) (listed result)
        (run_of driver.old (R.contents ring.old) apps journal.old)
        (run_of driver.new (R.contents ring.new) apps journal.new) }
    ensures room { journal.old.room ≤ journal.new.room + 1 }
{
    if progress.sent < content.len() {
        Some(send_next(driver, ring, journal, app, progress, content, buffer))
    } else {
        None
    }
}

// The receive of an exchange, where bytes are missing.
fn recv_left(
    driver: &mut Driver,
    journal: &mut Journal,
    app: usize,
    progress: Progress,
    len: usize,
    buffer: &mut [u8; SLICE],
) -> Option<Told>
    requires room { HasRoom 1 journal.old }
    ensures ring { (n : ℕ) (flown staged : Counts) → IsRingOf n flown staged driver.old → IsRingOf n flown staged driver.new }
    ensures honest { (hosts : Bool) (first : ℕ) (c : RingContents) → IsHonestWith hosts first driver.old c → IsHonestWith hosts first driver.new c }
    ensures calls { (script : RunScript) (c : RingContents) (apps : List AppState)
        → MakesAll script app (if nat_lt progress.got len then recv_next len progress ∷ [] else []) (listed result)
        (run_of driver.old c apps journal.old) (run_of driver.new c apps journal.new) }
    ensures room { journal.old.room ≤ journal.new.room + 1 }
{
    if progress.got < len {
        Some(recv_next(driver, journal, app, progress, len, buffer))
    } else {
        None
    }
}

// The calls of the instruction that an app is at.
fn make_calls<R: DriverRing>(
    driver: &mut Driver,
    ring: &mut R,
    journal: &mut Journal,
    app: usize,
    progress: Progress,
    instruction: &Instruction,
    buffer: &mut [u8; SLICE],
) -> Heard
    requires right { IsRight (instruction_view instruction.now) }
    requires ring { IsRingOf (R.size ring.old) (R.flight ring.old) (R.staged ring.old) driver.old }
    requires honest { IsHonest driver.old (R.contents ring.old) }
    requires room { HasRoom 2 journal.old }
    ensures ring { IsRingOf (R.size ring.new) (R.flight ring.new) (R.staged ring.new) driver.new }
    ensures honest { (hosts : Bool) (first : ℕ) → IsHonestWith hosts first driver.old (R.contents ring.old) → IsHonestWith hosts first driver.new (R.contents ring.new) }
    ensures calls { (script : RunScript) (apps : List AppState)
        → slice_get (acts_of app script) progress.at ≡ Some (instruction_view instruction.now)
        → MakesAll script app (calls_next (instruction_view instruction.now) progress) (told_list result)
        (run_of driver.old (R.contents ring.old) apps journal.old) (run_of driver.new (R.contents ring.new) apps journal.new) }
    ensures room { journal.old.room ≤ journal.new.room + 2 }
{
    let id = progress.id();
    match instruction {
        Instruction::Connect { port } => Heard::one(ask(
            driver, ring, journal, app, progress, *port,
        )),
        Instruction::Listen { port } => Heard::one(listen(driver, journal, app, *port)),
        Instruction::Accept { port } => Heard::one(accept(driver, journal, app, *port)),
        Instruction::Send { content } => Heard::one(send_next(
            driver, ring, journal, app, progress, content, buffer,
        )),
        Instruction::Recv { len } => Heard::one(recv_next(
            driver,
            journal,
            app,
            progress,
            *len as usize,
            buffer,
        )),
        Instruction::Drain => Heard::one(recv(driver, journal, app, id, SLICE, buffer)),
        Instruction::Exchange { content } => {
            let first = send_left(driver, ring, journal, app, progress, content, buffer);
            let second = recv_left(driver, journal, app, progress, content.len(), buffer);
            Heard { first, second }
        }
        Instruction::Shutdown { bits } => Heard::one(shutdown(driver, journal, app, id, *bits)),
        Instruction::Grow { alloc } => Heard::one(grow(driver, journal, app, id, *alloc)),
        Instruction::Close => Heard::one(close(driver, journal, app, id)),
    }
}

// The calls of the instruction that an app is at, and what comes of them: the app goes on, or the wait is noted.
fn carry_out<R: DriverRing>(
    driver: &mut Driver,
    ring: &mut R,
    apps: &mut Vec<AppState>,
    journal: &mut Journal,
    k: usize,
    state: AppState,
    instruction: &Instruction,
    buffer: &mut [u8; SLICE],
) -> Stepped
    requires right { IsRight (instruction_view instruction.now) }
    requires app { k < vec_len apps.old }
    requires state { state ≡ slice_index_or apps.old.items k no_app }
    requires next { state.progress.at + 1 < 2 ^ 64 }
    requires ring { IsRingOf (R.size ring.old) (R.flight ring.old) (R.staged ring.old) driver.old }
    requires honest { IsHonest driver.old (R.contents ring.old) }
    requires room { HasRoom NOTED journal.old }
    ensures ring { IsRingOf (R.size ring.new) (R.flight ring.new) (R.staged ring.new) driver.new }
    ensures acts { (script : RunScript) → slice_get (acts_of k script) state.progress.at ≡ Some (instruction_view instruction.now)
        → Acts script k result (run_of driver.old (R.contents ring.old) apps.old.items journal.old)
        (run_of driver.new (R.contents ring.new) apps.new.items journal.new) }
{
    let heard = make_calls(
        driver,
        ring,
        journal,
        k,
        state.progress,
        instruction,
        buffer,
    );
    match heard.wait() {
        Some(why) => {
            let place = journal.note_wait(state.waiting, k, why);
            apps[k] = AppState {
                progress: state.progress,
                waiting: Some(place),
            };
            Stepped::Waiting(why)
        }
        None => {
            apps[k] = AppState {
                progress: state.progress.after(instruction, heard),
                waiting: heard.waiting(state.waiting),
            };
            Stepped::Moved
        }
    }
}

// What an app does behind the poll of its step.
fn act<R: DriverRing>(
    driver: &mut Driver,
    ring: &mut R,
    apps: &mut Vec<AppState>,
    journal: &mut Journal,
    script: &Vec<App>,
    k: usize,
    buffer: &mut [u8; SLICE],
) -> Stepped
    requires right { AreRight (script_of script.now.items) }
    requires apps { vec_len apps.old ≡ vec_len script.now }
    requires app { k < vec_len apps.old }
    requires ring { IsRingOf (R.size ring.old) (R.flight ring.old) (R.staged ring.old) driver.old }
    requires honest { IsHonest driver.old (R.contents ring.old) }
    requires room { HasRoom NOTED journal.old }
    ensures ring { IsRingOf (R.size ring.new) (R.flight ring.new) (R.staged ring.new) driver.new }
    ensures acts { Acts (script_of script.now.items) k result (run_of driver.old (R.contents ring.old) apps.old.items journal.old)
        (run_of driver.new (R.contents ring.new) apps.new.items journal.new) }
{
    let state = apps[k];
    match script[k].instructions.get(state.progress.at) {
        None => Stepped::Done,
        Some(instruction) => carry_out(driver, ring, apps, journal, k, state, instruction, buffer),
    }
}

// Whether a poll took or put anything.
fn has_moved(polled: Polled) -> bool
    ensures { result ≡ poll_moved polled }
{
    0 < polled.took || 0 < polled.posted || polled.reset
}

/// A step of an app: a poll, and then the calls of the instruction that the app is at, each noted in the journal unless it told to wait; where
/// all told so, the wait is noted. Nothing is done where memory is wanted, or the bytes of the run can't be counted in 64 bits. It answers too
/// whether the poll moved anything. Bytes go by way of the buffer.
pub fn step<R: DriverRing>(
    driver: &mut Driver,
    ring: &mut R,
    apps: &mut Vec<AppState>,
    journal: &mut Journal,
    script: &Vec<App>,
    k: usize,
    buffer: &mut [u8; SLICE],
) -> (Stepped, bool)
    requires right { AreRight (script_of script.now.items) }
    requires apps { vec_len apps.old ≡ vec_len script.now }
    requires app { k < vec_len apps.old }
    requires ring { IsRingOf (R.size ring.old) (R.flight ring.old) (R.staged ring.old) driver.old }
    requires honest { IsHonest driver.old (R.contents ring.old) }
    ensures ring { IsRingOf (R.size ring.new) (R.flight ring.new) (R.staged ring.new) driver.new }
    ensures steps { Steps (script_of script.now.items) k result.0 result.1
        (run_of driver.old (R.contents ring.old) apps.old.items journal.old) (run_of driver.new (R.contents ring.new) apps.new.items journal.new) }
{
    if journal.reserve().is_err() {
        return (Stepped::OutOfMemory, false);
    }
    let polled = driver.poll(ring);
    let stepped = act(driver, ring, apps, journal, script, k, buffer);
    (stepped, has_moved(polled))
}
