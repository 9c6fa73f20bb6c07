//! The calls of apps on the driver, each noted.

ghost use Rattle.std.specs.Prelude.{◌≡◌, ◌+◌, ◌≤◌, ℕ, Bool, List, length};
ghost use Rattle.vs_ring_port.specs.{Contents.RingContents, Counts.Counts};
ghost use Rattle.vs_driver_parts.specs.Playing.{IsRingOf};
ghost use Rattle.laws_driver.specs.{Honest.{IsHonest, IsHonestWith}, Carried.Calls.{flow_accepted, flow_opened}};
ghost use Rattle.vs_apps_parts.specs.{Journals.data_at, Scripts.{RunScript, acts_of, slice_of}, declared.progress.AppState.AppState};
ghost use Rattle.laws_apps.specs.Calls.{CallsAs, HasRoom, run_of};
ghost use Rattle.laws_driver.specs.Carried.Calls as call;

use vs_apps_parts::journal::{Called, Journal};
use vs_apps_parts::told::Told;
use vs_driver::{Accepted, ConnId, ConnectError, Driver};
use vs_flow::Flow;
use vs_ring_port::DriverRing;

/// `connect PORT`
pub fn connect<R: DriverRing>(
    driver: &mut Driver,
    ring: &mut R,
    journal: &mut Journal,
    app: usize,
    port: u32,
) -> Told
    requires ring { IsRingOf (R.size ring.old) (R.flight ring.old) (R.staged ring.old) driver.old }
    requires honest { IsHonest driver.old (R.contents ring.old) }
    requires room { HasRoom 1 journal.old }
    ensures ring { IsRingOf (R.size ring.new) (R.flight ring.new) (R.staged ring.new) driver.new }
    ensures honest { (hosts : Bool) (first : ℕ) → IsHonestWith hosts first driver.old (R.contents ring.old) → IsHonestWith hosts first driver.new (R.contents ring.new) }
    ensures calls { (script : RunScript) (apps : List AppState) → CallsAs script app (call.Connect port) result
        (run_of driver.old (R.contents ring.old) apps journal.old)
        (run_of driver.new (R.contents ring.new) apps journal.new) }
    ensures room { journal.new.room + 1 ≡ journal.old.room }
{
    let answer = driver.connect(ring, port);
    let flow = flow_opened(driver, answer);
    journal.note_call(app, Called::Connect { port, answer, flow })
}

// The flow of the connection that a connect opened, and of one that an accept gave.
fn flow_opened(driver: &Driver, answer: Result<ConnId, ConnectError>) -> Option<Flow>
    ensures { result ≡ flow_opened answer driver.now }
{
    match answer {
        Ok(id) => driver.flow(id),
        Err(_) => None,
    }
}

fn flow_accepted(driver: &Driver, answer: Accepted) -> Option<Flow>
    ensures { result ≡ flow_accepted answer driver.now }
{
    match answer {
        Accepted::Conn(id) => driver.flow(id),
        _ => None,
    }
}

/// `listen PORT`
pub fn listen(driver: &mut Driver, journal: &mut Journal, app: usize, port: u32) -> Told
    requires room { HasRoom 1 journal.old }
    ensures ring { (n : ℕ) (flown staged : Counts) → IsRingOf n flown staged driver.old → IsRingOf n flown staged driver.new }
    ensures honest { (hosts : Bool) (first : ℕ) (c : RingContents) → IsHonestWith hosts first driver.old c → IsHonestWith hosts first driver.new c }
    ensures calls { (script : RunScript) (c : RingContents) (apps : List AppState) → CallsAs script app (call.Listen port) result
        (run_of driver.old c apps journal.old) (run_of driver.new c apps journal.new) }
    ensures room { journal.new.room + 1 ≡ journal.old.room }
{
    let answer = driver.listen(port);
    journal.note_call(app, Called::Listen { port, answer })
}

/// `accept PORT`
pub fn accept(driver: &mut Driver, journal: &mut Journal, app: usize, port: u32) -> Told
    requires room { HasRoom 1 journal.old }
    ensures ring { (n : ℕ) (flown staged : Counts) → IsRingOf n flown staged driver.old → IsRingOf n flown staged driver.new }
    ensures honest { (hosts : Bool) (first : ℕ) (c : RingContents) → IsHonestWith hosts first driver.old c → IsHonestWith hosts first driver.new c }
    ensures calls { (script : RunScript) (c : RingContents) (apps : List AppState) → CallsAs script app (call.Accept port) result
        (run_of driver.old c apps journal.old) (run_of driver.new c apps journal.new) }
    ensures room { journal.new.room + 1 ≡ journal.old.room }
{
    let answer = driver.accept(port);
    let flow = flow_accepted(driver, answer);
    journal.note_call(app, Called::Accept { port, answer, flow })
}

/// `close`
pub fn close(driver: &mut Driver, journal: &mut Journal, app: usize, id: ConnId) -> Told
    requires room { HasRoom 1 journal.old }
    ensures ring { (n : ℕ) (flown staged : Counts) → IsRingOf n flown staged driver.old → IsRingOf n flown staged driver.new }
    ensures honest { (hosts : Bool) (first : ℕ) (c : RingContents) → IsHonestWith hosts first driver.old c → IsHonestWith hosts first driver.new c }
    ensures calls { (script : RunScript) (c : RingContents) (apps : List AppState) → CallsAs script app (call.Close id) result
        (run_of driver.old c apps journal.old) (run_of driver.new c apps journal.new) }
    ensures room { journal.new.room + 1 ≡ journal.old.room }
{
    let answer = driver.close(id);
    journal.note_call(app, Called::Close { id, answer })
}

/// `shutdown B`
pub fn shutdown(
    driver: &mut Driver,
    journal: &mut Journal,
    app: usize,
    id: ConnId,
    bits: u8,
) -> Told
    requires bits { (1 ≤ bits) × (bits ≤ 3) }
    requires room { HasRoom 1 journal.old }
    ensures ring { (n : ℕ) (flown staged : Counts) → IsRingOf n flown staged driver.old → IsRingOf n flown staged driver.new }
    ensures honest { (hosts : Bool) (first : ℕ) (c : RingContents) → IsHonestWith hosts first driver.old c → IsHonestWith hosts first driver.new c }
    ensures calls { (script : RunScript) (c : RingContents) (apps : List AppState) → CallsAs script app (call.Shutdown id bits) result
        (run_of driver.old c apps journal.old) (run_of driver.new c apps journal.new) }
    ensures room { journal.new.room + 1 ≡ journal.old.room }
{
    let answer = driver.shutdown(id, bits);
    journal.note_call(app, Called::Shutdown { id, bits, answer })
}

/// `grow N`
pub fn grow(driver: &mut Driver, journal: &mut Journal, app: usize, id: ConnId, alloc: u32) -> Told
    requires room { HasRoom 1 journal.old }
    ensures ring { (n : ℕ) (flown staged : Counts) → IsRingOf n flown staged driver.old → IsRingOf n flown staged driver.new }
    ensures honest { (hosts : Bool) (first : ℕ) (c : RingContents) → IsHonestWith hosts first driver.old c → IsHonestWith hosts first driver.new c }
    ensures calls { (script : RunScript) (c : RingContents) (apps : List AppState) → CallsAs script app (call.Grow id alloc) result
        (run_of driver.old c apps journal.old) (run_of driver.new c apps journal.new) }
    ensures room { journal.new.room + 1 ≡ journal.old.room }
{
    let answer = driver.grow(id, alloc);
    journal.note_call(app, Called::Grow { id, alloc, answer })
}

/// The look at a connection that was asked for.
pub fn look_at(driver: &Driver, journal: &mut Journal, app: usize, id: ConnId) -> Told
    requires room { HasRoom 1 journal.old }
    ensures calls { (script : RunScript) (c : RingContents) (apps : List AppState) → CallsAs script app (call.LookAt id) result
        (run_of driver.now c apps journal.old) (run_of driver.now c apps journal.new) }
    ensures room { journal.new.room + 1 ≡ journal.old.room }
{
    let answer = driver.state(id);
    journal.note_call(app, Called::LookAt { id, answer })
}

/// A send of `bytes`, which stand in the data of the app's instruction at place `at`, from byte `from` on.
pub fn send<R: DriverRing>(
    driver: &mut Driver,
    ring: &mut R,
    journal: &mut Journal,
    app: usize,
    id: ConnId,
    at: usize,
    from: usize,
    bytes: &[u8],
) -> Told
    requires ring { IsRingOf (R.size ring.old) (R.flight ring.old) (R.staged ring.old) driver.old }
    requires honest { IsHonest driver.old (R.contents ring.old) }
    requires room { HasRoom 1 journal.old }
    ensures ring { IsRingOf (R.size ring.new) (R.flight ring.new) (R.staged ring.new) driver.new }
    ensures honest { (hosts : Bool) (first : ℕ) → IsHonestWith hosts first driver.old (R.contents ring.old) → IsHonestWith hosts first driver.new (R.contents ring.new) }
    ensures calls { (script : RunScript) (apps : List AppState)
        → slice_of from (length bytes.now) (data_at at (acts_of app script)) ≡ bytes.now
        → CallsAs script app (call.Send id bytes.now) result
        (run_of driver.old (R.contents ring.old) apps journal.old)
        (run_of driver.new (R.contents ring.new) apps journal.new) }
    ensures room { journal.new.room + 1 ≡ journal.old.room }
{
    let answer = driver.send(ring, id, bytes);
    journal.note_call(
        app,
        Called::Send {
            id,
            at,
            from,
            len: bytes.len(),
            answer,
        },
    )
}
