//! The guests of a run, which a lock keeps: their type names the rings and the script.

ghost use Rattle.std.specs.Prelude.{◌≡◌, ◌<◌, ◌≤◌, [], IfOk, length};
ghost use Rattle.vs_limits.specs.declared.TheConstants.{FIRST_CID, FIRST_PORT, LAST_PORT};
ghost use Rattle.vs_ring_port.specs.declared.queue.Queue.{Queue};
ghost use Rattle.vs_driver_parts.specs.Playing.{IsRingOf};
ghost use Rattle.vs_apps_parts.specs.Scripts.{AreRight, script_of};
ghost use Rattle.vs_ring_rule.specs.declared.view.Past.{Past};
ghost use Rattle.vs_ring_shared.specs.{Countings.met_between, Meetings.{AreOneTable, after_hearing, what_it_did}, Sights.{empty_sight, flight_of, sight_in, staged_of}};
ghost use Rattle.laws_apps.specs.{Ports.ArePortsFrom, Runs.{IsRunOf, PollsTo, Steps}};
ghost use Rattle.vs_apps.specs.Guests.{run_in};

use crate::steps::step;
use std::alloc::{AllocError, Global};
use std::marker::{Brand, Model};
use vs_apps_parts::journal::Journal;
use vs_apps_parts::progress::{AppState, Progress, SLICE, Stepped};
use vs_driver::{Driver, Polled};
use vs_ring_port::{DriverRing, Queue};
use vs_ring_shared::{DeviceEnd, DriverEnd, Met, RingName, laws_of_driver_end, meet, note};
use vs_script::App;

/// Which run it is: its rings, its script, and the guest's first port. Each call of a program picks them.
pub trait RunName: RingName {
    ghost use Rattle.std.specs.Prelude.{ℕ};
    ghost use Rattle.vs_apps_parts.specs.Scripts.{RunScript};

    /// The script, as plain data.
    ghost script: { RunScript };

    /// The guest port of the first connection that a connect opens.
    ghost first: { ℕ };
}

impl RunName for Brand {
    ghost use Rattle.std.specs.Prelude.{[]};

    ghost script = { [] };

    ghost first = { 0 };
}

/// The driver and its end of the rings, the apps, and the journal. They are a run of the script that the type names.
#[derive(Drop)]
pub struct Guests<N: RunName> {
    driver: Driver,
    end: DriverEnd<N>,
    script: Vec<App>,
    apps: Vec<AppState>,
    journal: Journal,
    // What sends and receives copy by way of. It is never cleared: a step that waits costs little.
    buffer: [u8; SLICE],
}

impl<N: RunName> Model for Guests<N> {
    ghost use Rattle.std.specs.Prelude.{◌≡◌};
    ghost use Rattle.vs_apps_parts.specs.Scripts.{script_of};
    ghost use Rattle.vs_apps.specs.Guests.{AreGuests, GuestsState, guests_with};

    ghost Value = { GuestsState };

    ghost view = { λ g. guests_with g.driver g.end g.apps.items g.journal };

    ghost invariant = { λ g. (script_of g.script.items ≡ N.script) × AreGuests N.first N.script (guests_with g.driver g.end g.apps.items g.journal) };
}

/// What the type says of guests: their driver was made under the first CID of shared rings. The calls of each app are, in order, its
/// instructions. What the journal says was sent on a connection is the payload that the log put there; and what it says was received, with
/// the bytes that are unread behind, is the payload that was got there, until an app says that it receives no more there or closes it. The
/// connections that connects opened have, the oldest first, the guest ports from the first on, one after another up to the last port. All
/// receive and event pages are in flight.
pub fn laws_of_guests<N: RunName>(guests: &Guests<N>)
    ensures run { IsRunOf FIRST_CID N.script (run_in guests.now) }
    ensures right { AreRight N.script }
    ensures ports { ArePortsFrom N.first guests.now.entries }
    ensures ring { let g = guests.now in IsRingOf g.end.size (flight_of g.end) (staged_of g.end) g.driver }
    ensures size { 0 < guests.now.end.size }
    ensures taken { (queue : Queue) → let q = sight_in queue guests.now.end in length q.got ≤ length q.put }
{
    let _apps = guests.apps.len();
    laws_of_driver_end(&guests.end);
}

impl<N: RunName> Guests<N> {
    /// Guests that did nothing yet, over an end of rings in which nothing was put, with the guest's first port, which is the name's, 1,024 to
    /// 1,073,741,823. The device's end, in whose log nothing stands, is told what the driver did.
    ///
    /// The only error is want of memory.
    pub fn new(
        alloc: Global,
        script: Vec<App>,
        end: DriverEnd<N>,
        device: &mut DeviceEnd<N>,
        first: u32,
    ) -> Result<Guests<N>, AllocError>
        requires first { (FIRST_PORT ≤ first) × (first ≤ LAST_PORT) }
        requires own { first ≡ N.first }
        requires script { script_of script.items ≡ N.script }
        requires right { AreRight N.script }
        requires fresh { end ≡ empty_sight N.ring end.size }
        requires silent { device.old.sight.log ≡ [] }
        ensures told { (past : Past) × (device.new ≡ record device.old { sight = after_hearing past device.old.sight }) }
        ensures entries { IfOk result (λ guests. guests.entries ≡ []) }
        ensures bytes { IfOk result (λ guests. guests.bytes ≡ []) }
    {
        let mut end = end;
        let driver = Driver::new_at(alloc, &mut end, first, 1)?;
        note(&mut end, device);
        let begun = AppState {
            progress: Progress::begun(),
            waiting: None,
        };
        let apps = vec![in alloc; begun; script.len()]?;
        Ok(Guests {
            driver,
            end,
            script,
            apps,
            journal: Journal::new(alloc),
            buffer: [0; SLICE],
        })
    }

    /// The driver.
    pub fn driver(&self) -> &Driver
        ensures { result.now ≡ self.now.driver }
    {
        &self.driver
    }

    /// The apps, each as far as it is.
    pub fn apps(&self) -> &[AppState]
        ensures { result.now ≡ self.now.apps }
    {
        self.apps.as_slice()
    }

    /// The journal.
    pub fn journal(&self) -> &Journal
        ensures entries { result.now.entries ≡ self.now.entries }
        ensures bytes { result.now.bytes ≡ self.now.bytes }
    {
        &self.journal
    }

    /// The script.
    pub fn script(&self) -> &[App]
        ensures { script_of result.now ≡ N.script }
    {
        self.script.as_slice()
    }

    /// How many apps there are.
    pub fn count(&self) -> usize
        ensures { result ≡ length N.script }
    {
        self.script.len()
    }

    /// A step of app `k`, counted from 0: a poll, and then the calls of the instruction that the app is at. It answers too whether the poll took
    /// or put anything. Nothing is done where memory is wanted, or the bytes of the run can't be counted in 64 bits.
    pub fn step(&mut self, k: usize) -> (Stepped, bool)
        requires { k < length N.script }
        ensures { Steps N.script k result.0 result.1 (run_in self.old) (run_in self.new) }
    {
        step(
            &mut self.driver,
            &mut self.end,
            &mut self.apps,
            &mut self.journal,
            &self.script,
            k,
            &mut self.buffer,
        )
    }

    /// A poll of the driver.
    pub fn poll(&mut self) -> Polled
        ensures { PollsTo result (run_in self.old) (run_in self.new) }
    {
        self.driver.poll(&mut self.end)
    }

    /// Pages of the transmit queue that didn't come back.
    pub fn in_flight(&self) -> u16
        ensures { result ≡ (flight_of self.now.end).tx }
    {
        self.end.in_flight(Queue::Tx)
    }

    /// Tells the driver's end and the device's what the other did so far.
    pub fn note(&mut self, device: &mut DeviceEnd<N>)
        ensures driver { self.new ≡ record self.old { end = after_hearing (what_it_did device.old.sight) self.old.end } }
        ensures device { device.new ≡ record device.old { sight = after_hearing (what_it_did self.old.end) device.old.sight } }
        ensures fits { AreOneTable self.old.end device.old.sight }
    {
        note(&mut self.end, device);
    }

    /// The same, with how many packets and events each end put and got, modulo 2^64.
    pub fn meet(&mut self, device: &mut DeviceEnd<N>) -> Met
        ensures driver { self.new ≡ record self.old { end = after_hearing (what_it_did device.old.sight) self.old.end } }
        ensures device { device.new ≡ record device.old { sight = after_hearing (what_it_did self.old.end) device.old.sight } }
        ensures fits { AreOneTable self.old.end device.old.sight }
        ensures numbers { result ≡ met_between self.old.end.log device.old.sight.log }
    {
        meet(&mut self.end, device)
    }
}
