//! The two ends. Each carries the name of its rings in its type, so that an end that comes out of a lock or off a thread is known to be of
//! that `make`.
ghost use Rattle.std.specs.Prelude.{◌≡◌, ◌+◌, ◌<◌, ◌≤◌, [], IfOk, length};
ghost use Rattle.vs_page.specs.Fair.{IsFairLog};
ghost use Rattle.vs_ring_port.specs.{Chains.held_of, declared.queue.{Queue.Queue, TheConstants.QUEUE_SIZE_MAX}};
ghost use Rattle.vs_ring_shared.specs.{Countings.met_between, Meetings.{AreOneTable, after_hearing, what_it_did}, Ports.IsRingSize, Sights.{empty_sight, sight_in}};
ghost use Rattle.vs_page.specs.Log as log;

use crate::counters::Met;
use crate::device_side::{DeviceSide, laws_of_device_side};
use crate::driver_side::{DriverSide, laws_of_driver_side};
use crate::making::make_sides;
use crate::meeting::{count_sides, note_sides};
use std::alloc::{AllocError, Global};
use std::marker::{Brand, Model, PhantomData};
use vs_page::Page;
use vs_ring_port::{Chain, DeviceRing, DriverRing, Next, NoDescriptor, Queue, Reaped};

/// Which rings they are. Each call of a program picks it.
pub trait RingName {
    ghost use Rattle.atomic_table.specs.Seated.{TableId};

    /// The rings' identity, which both ends of one `make` have.
    ghost ring: { TableId };
}

impl RingName for Brand {
    ghost use Rattle.std.specs.Prelude.{[]};

    ghost ring = { record { words = 0; slots = 0; views_name = 0; atom = 0; block = 0; offset = 0; slot_names = [] } };
}

/// Rings that were made and have no name yet. Seen as their identity and their size.
#[derive(Drop)]
pub struct NewRings {
    driver: DriverSide,
    device: DeviceSide,
}

impl Model for NewRings {
    ghost use Rattle.vs_ring_shared.specs.NewRings.{IsNew, Made, made};

    ghost Value = { Made };

    ghost view = { made };

    ghost invariant = { IsNew };
}

/// Rings of which each queue has `size` descriptors, in which nothing was put, with the CID 3. `size` is a power of two, 1 to 32,768 (Virtio
/// 1.2, section 2.7).
///
/// The only error is want of memory.
pub fn make(alloc: Global, size: u16) -> Result<NewRings, AllocError>
    requires { IsRingSize size }
    ensures { IfOk result (λ rings. rings.size ≡ size) }
{
    let (driver, device) = make_sides(alloc, size)?;
    Ok(NewRings { driver, device })
}

/// The driver's end of the rings of a name. Seen as the rings' identity and size, its log and what it was told of the device's, and the pages
/// of each queue that it gave, took back and staged.
#[derive(Drop)]
pub struct DriverEnd<N: RingName> {
    side: DriverSide,
    of: PhantomData<N>,
}

impl<N: RingName> Model for DriverEnd<N> {
    ghost use Rattle.std.specs.Prelude.{◌≡◌};
    ghost use Rattle.vs_ring_shared.specs.Sights.{Sight};

    ghost Value = { Sight };

    ghost view = { λ r. r.side };

    ghost invariant = { λ r. r.side.table ≡ N.ring };
}

/// The device's end of the rings of a name. Seen as the rings' identity and size, its log and what it was told of the driver's, the pages of
/// each queue that it took and gave back, and the chains that it holds.
#[derive(Drop)]
pub struct DeviceEnd<N: RingName> {
    side: DeviceSide,
    of: PhantomData<N>,
}

impl<N: RingName> Model for DeviceEnd<N> {
    ghost use Rattle.std.specs.Prelude.{◌≡◌};
    ghost use Rattle.vs_ring_shared.specs.Sights.{DeviceSight};

    ghost Value = { DeviceSight };

    ghost view = { λ r. r.side };

    ghost invariant = { λ r. r.side.sight.table ≡ N.ring };
}

/// The two ends of new rings, under a name.
pub fn named<N: RingName>(rings: NewRings) -> (DriverEnd<N>, DeviceEnd<N>)
    requires { rings.table ≡ N.ring }
    ensures driver { result.0 ≡ empty_sight N.ring rings.size }
    ensures device { result.1 ≡ record { sight = empty_sight N.ring rings.size; held = [] } }
{
    let NewRings { driver, device } = rings;
    (
        DriverEnd {
            side: driver,
            of: PhantomData,
        },
        DeviceEnd {
            side: device,
            of: PhantomData,
        },
    )
}

/// What is true of a driver's end between any two calls. It is of the rings of its name. Its log is fair; it took back no more pages of a
/// queue than it gave; and at most as many are in flight, staged ones included, as the queue has descriptors.
pub fn laws_of_driver_end<N: RingName>(end: &DriverEnd<N>)
    ensures ring { end.now.table ≡ N.ring }
    ensures size { (0 < end.now.size) × (end.now.size ≤ QUEUE_SIZE_MAX) }
    ensures fair { IsFairLog log.Driver end.now.log }
    ensures taken { (queue : Queue) → let q = sight_in queue end.now in length q.got ≤ length q.put }
    ensures in_flight { (queue : Queue) → let q = sight_in queue end.now in length q.put + length q.staged ≤ length q.got + end.now.size }
{
    laws_of_driver_side(&end.side);
}

/// What is true of a device's end between any two calls: it is of the rings of its name, its log is fair, and the chains that it holds are the
/// pages of each queue that it took and didn't give back.
pub fn laws_of_device_end<N: RingName>(end: &DeviceEnd<N>)
    ensures ring { end.now.sight.table ≡ N.ring }
    ensures size { (0 < end.now.sight.size) × (end.now.sight.size ≤ QUEUE_SIZE_MAX) }
    ensures fair { IsFairLog log.Device end.now.sight.log }
    ensures held { (queue : Queue) → let q = sight_in queue end.now.sight in length q.put + held_of queue end.now.held ≡ length q.got }
{
    laws_of_device_side(&end.side);
}

/// Tells each end what the other did so far: what it loads from then on shows at least that. What they did fits, since both are of one
/// `make`: they have one name.
pub fn note<N: RingName>(driver: &mut DriverEnd<N>, device: &mut DeviceEnd<N>)
    ensures driver { driver.new ≡ after_hearing (what_it_did device.old.sight) driver.old }
    ensures device { device.new ≡ record device.old { sight = after_hearing (what_it_did driver.old) device.old.sight } }
    ensures fits { AreOneTable driver.old device.old.sight }
{
    laws_of_driver_side(&driver.side);
    laws_of_device_side(&device.side);
    note_sides(&mut driver.side, &mut device.side);
}

/// The same, with how many packets and events each end put and got, modulo 2^64.
pub fn meet<N: RingName>(driver: &mut DriverEnd<N>, device: &mut DeviceEnd<N>) -> Met
    ensures driver { driver.new ≡ after_hearing (what_it_did device.old.sight) driver.old }
    ensures device { device.new ≡ record device.old { sight = after_hearing (what_it_did driver.old) device.old.sight } }
    ensures fits { AreOneTable driver.old device.old.sight }
    ensures numbers { result ≡ met_between driver.old.log device.old.sight.log }
{
    let met = count_sides(&driver.side, &device.side);
    note(driver, device);
    met
}

impl<N: RingName> DriverRing for DriverEnd<N> {
    ghost use Rattle.std.specs.Prelude.{true};
    ghost use Rattle.vs_ring_shared.specs.Sights.{driver_contents, flight_of, staged_of};

    ghost size = { λ r. r.size };

    ghost flight = { flight_of };

    ghost staged = { staged_of };

    ghost contents = { driver_contents };

    ghost kicks = { λ r queue. true };

    fn size(&self) -> u16 {
        self.side.size()
    }

    #[inline(always)]
    fn stage(&mut self, queue: Queue, page: Page) -> Result<(), (NoDescriptor, Page)> {
        laws_of_driver_side(&self.side);
        self.side.stage_page(queue, page)?;
        Ok(())
    }

    #[inline(always)]
    fn publish(&mut self, queue: Queue) {
        laws_of_driver_side(&self.side);
        self.side.publish_staged(queue);
    }

    #[inline(always)]
    fn reap(&mut self, queue: Queue) -> Reaped {
        laws_of_driver_side(&self.side);
        let Some(page) = self.side.reap_page(queue) else {
            return Reaped::None;
        };
        Reaped::Back(page)
    }

    fn cid(&mut self) -> u64 {
        laws_of_driver_side(&self.side);
        self.side.load_cid()
    }

    fn in_flight(&self, queue: Queue) -> u16 {
        self.side.in_flight(queue)
    }

    fn kick(&self, _queue: Queue) -> bool {
        true
    }
}

impl<N: RingName> DeviceRing for DeviceEnd<N> {
    ghost use Rattle.std.specs.Prelude.{true};
    ghost use Rattle.vs_ring_port.specs.Chains.{chains_of};
    ghost use Rattle.vs_ring_shared.specs.Sights.{device_contents};

    ghost size = { λ r. r.sight.size };

    ghost held = { λ r. chains_of r.held };

    ghost contents = { device_contents };

    ghost kicks = { λ r queue. true };

    fn size(&self) -> u16 {
        self.side.size()
    }

    #[inline(always)]
    fn next(&mut self, queue: Queue) -> Next {
        let Some(chain) = self.side.take_next(queue) else {
            return Next::None;
        };
        Next::Chain(chain)
    }

    fn readable(&self, chain: &Chain) -> u64 {
        chain.readable
    }

    fn writable(&self, chain: &Chain) -> u64 {
        chain.writable
    }

    #[inline(always)]
    fn read(&mut self, chain: &Chain, at: u64, out: &mut [u8]) {
        laws_of_device_side(&self.side);
        self.side.read_from(chain, at, out);
    }

    #[inline(always)]
    fn write(&mut self, chain: &Chain, at: u64, bytes: &[u8]) {
        laws_of_device_side(&self.side);
        self.side.write_into(chain, at, bytes);
    }

    #[inline(always)]
    fn done(&mut self, chain: Chain, len: u32) {
        laws_of_device_side(&self.side);
        self.side.give_back(chain, len);
    }

    fn given(&mut self, queue: Queue) -> u16 {
        laws_of_device_side(&self.side);
        self.side.count_given(queue)
    }

    fn publish_cid(&mut self, cid: u64) {
        laws_of_device_side(&self.side);
        self.side.store_cid(cid);
    }

    fn kick(&self, _queue: Queue) -> bool {
        true
    }
}
