//! The next send of an app.

ghost use Rattle.std.specs.Prelude.{◌≡◌, ◌+◌, ℕ, Bool, List};
ghost use Rattle.vs_script.specs.Data.{bytes_of, content_of};
ghost use Rattle.vs_driver_parts.specs.Playing.{IsRingOf};
ghost use Rattle.laws_driver.specs.Honest.{IsHonest, IsHonestWith};
ghost use Rattle.vs_apps_parts.specs.{Journals.data_at, Scripts.{RunScript, acts_of, send_next}, declared.progress.AppState.AppState};
ghost use Rattle.laws_apps.specs.Calls.{CallsAs, HasRoom, run_of};

use crate::calls::send;
use vs_apps_parts::journal::Journal;
use vs_apps_parts::progress::{Progress, SLICE};
use vs_apps_parts::told::Told;
use vs_driver::Driver;
use vs_ring_port::DriverRing;
use vs_script::Data;

/// The next send of the instruction that an app is at, whose data these are, by way of this buffer.
pub fn send_next<R: DriverRing>(
    driver: &mut Driver,
    ring: &mut R,
    journal: &mut Journal,
    app: usize,
    progress: Progress,
    content: &Data,
    buffer: &mut [u8; SLICE],
) -> Told
    requires ring { IsRingOf (R.size ring.old) (R.flight ring.old) (R.staged ring.old) driver.old }
    requires honest { IsHonest driver.old (R.contents ring.old) }
    requires room { HasRoom 1 journal.old }
    ensures ring { IsRingOf (R.size ring.new) (R.flight ring.new) (R.staged ring.new) driver.new }
    ensures honest { (hosts : Bool) (first : ℕ) → IsHonestWith hosts first driver.old (R.contents ring.old) → IsHonestWith hosts first driver.new (R.contents ring.new) }
    ensures calls { (script : RunScript) (apps : List AppState)
        → data_at progress.at (acts_of app script) ≡ bytes_of (content_of content.now)
        → CallsAs script app (send_next (content_of content.now) progress) result
        (run_of driver.old (R.contents ring.old) apps journal.old)
        (run_of driver.new (R.contents ring.new) apps journal.new) }
    ensures room { journal.new.room + 1 ≡ journal.old.room }
{
    let n = content.copy_to(progress.sent, buffer);
    send(
        driver,
        ring,
        journal,
        app,
        progress.id(),
        progress.at,
        progress.sent,
        &buffer[..n],
    )
}
