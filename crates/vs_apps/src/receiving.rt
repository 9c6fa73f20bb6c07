//! A receive of an app, noted.

ghost use Rattle.std.specs.Prelude.{◌≡◌, ◌+◌, ◌≤◌, ℕ, Bool, List, length, take};
ghost use Rattle.vs_contents.specs.CallTree.{Done};
ghost use Rattle.vs_ring_port.specs.{Contents.RingContents, Counts.Counts};
ghost use Rattle.vs_driver_parts.specs.{Connections.got_count, Playing.{IsRingOf, SamePages}};
ghost use Rattle.laws_driver.specs.{Honest.IsHonestWith, Carried.Calls.makes_call};
ghost use Rattle.vs_apps_parts.specs.{Scripts.RunScript, declared.progress.{AppState.AppState, TheConstants.SLICE}};
ghost use Rattle.laws_apps.specs.Calls.{CallsAs, HasRoom, run_of};
ghost use Rattle.laws_driver.specs.Carried.Calls as call;

use vs_apps_parts::journal::Journal;
use vs_apps_parts::progress::SLICE;
use vs_apps_parts::told::Told;
use vs_driver::{ConnId, Driver, Received};

// Receives as many bytes of a connection as the buffer holds, and tells how many stand in front of it.
fn received(driver: &mut Driver, id: ConnId, buffer: &mut [u8]) -> (Received, usize)
    ensures pages { SamePages driver.old driver.new }
    ensures honest { (hosts : Bool) (first : ℕ) (c : RingContents) → IsHonestWith hosts first driver.old c → IsHonestWith hosts first driver.new c }
    ensures made { makes_call (call.Recv id (length buffer.old)) driver.old ≡ Done (driver.new, (result.0, take result.1 buffer.new)) }
    ensures count { result.1 ≡ got_count result.0 }
    ensures within { result.1 ≤ length buffer.new }
    ensures few { result.1 ≤ length buffer.old }
{
    let answer = driver.recv(id, buffer);
    let n = answer.count().min(buffer.len());
    (answer, n)
}

// A receive into this buffer.
fn receive_by(
    driver: &mut Driver,
    journal: &mut Journal,
    app: usize,
    id: ConnId,
    buffer: &mut [u8],
) -> Told
    requires few { length buffer.old ≤ SLICE }
    requires room { HasRoom 1 journal.old }
    ensures ring { (n : ℕ) (flown staged : Counts) → IsRingOf n flown staged driver.old → IsRingOf n flown staged driver.new }
    ensures honest { (hosts : Bool) (first : ℕ) (c : RingContents) → IsHonestWith hosts first driver.old c → IsHonestWith hosts first driver.new c }
    ensures calls { (script : RunScript) (c : RingContents) (apps : List AppState) → CallsAs script app (call.Recv id (length buffer.old)) result
        (run_of driver.old c apps journal.old) (run_of driver.new c apps journal.new) }
    ensures room { journal.new.room + 1 ≡ journal.old.room }
{
    let len = buffer.len();
    let (answer, n) = received(driver, id, buffer);
    journal.note_received(app, id, len, answer, &buffer[..n])
}

/// A receive of at most `len` bytes, by way of this buffer.
pub fn recv(
    driver: &mut Driver,
    journal: &mut Journal,
    app: usize,
    id: ConnId,
    len: usize,
    buffer: &mut [u8; SLICE],
) -> Told
    requires few { len ≤ SLICE }
    requires room { HasRoom 1 journal.old }
    ensures ring { (n : ℕ) (flown staged : Counts) → IsRingOf n flown staged driver.old → IsRingOf n flown staged driver.new }
    ensures honest { (hosts : Bool) (first : ℕ) (c : RingContents) → IsHonestWith hosts first driver.old c → IsHonestWith hosts first driver.new c }
    ensures calls { (script : RunScript) (c : RingContents) (apps : List AppState) → CallsAs script app (call.Recv id len) result
        (run_of driver.old c apps journal.old) (run_of driver.new c apps journal.new) }
    ensures room { journal.new.room + 1 ≡ journal.old.room }
{
    receive_by(driver, journal, app, id, &mut buffer[..len])
}
