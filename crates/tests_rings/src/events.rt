//! Events between threads: the driver's end on a thread of its own, or behind a lock that two threads take.

ghost use Rattle.std.specs.Prelude.{◌≡◌};
ghost use Rattle.vs_ring_port.specs.{Counts.at, declared.queue.Queue.Queue};
ghost use Rattle.vs_ring_shared.specs.{Countings.met_between, Meetings.AreOneTable, Ports.IsRingSize, Sights.Sight, Sights.staged_of};

use std::alloc::{AllocError, Global};
use std::hint;
use std::marker::{Brand, Model};
use std::sync::{Mutex, Wait};
use std::test::Fail;
use std::thread::{Threads, join};
use vs_page::Page;
use vs_ring_port::{DeviceRing, DriverRing, Next, Queue, Reaped};
use vs_ring_shared::{DeviceEnd, DriverEnd, Met, NewRings, RingName, make, meet, named};

/// A driver's end of which no page of event is staged. It counts the events, and those that held their number.
#[derive(Drop)]
struct Poster<N: RingName> {
    end: DriverEnd<N>,
    got: u32,
    right: u32,
}

impl<N: RingName> Model for Poster<N> {
    ghost use Rattle.std.specs.Prelude.{◌≡◌};
    ghost use Rattle.vs_ring_port.specs.{Counts.at, declared.queue.Queue.TheVariants.Event};
    ghost use Rattle.vs_ring_shared.specs.Sights.{Sight, staged_of};

    ghost Value = { Sight };

    ghost view = { λ p. p.end };

    ghost invariant = { λ p. at Event (staged_of p.end) ≡ 0 };
}

/// Gives an empty page to the device, to write an event into.
fn post<N: RingName>(driver: &mut DriverEnd<N>, page: Page) -> bool
    requires { at Queue.Event (staged_of driver.old) ≡ 0 }
    ensures { at Queue.Event (staged_of driver.new) ≡ 0 }
{
    if driver.stage(Queue::Event, page).is_err() {
        return false;
    }
    driver.publish(Queue::Event);
    true
}

/// Whether a page holds just this number.
fn holds(page: &Page, number: u32) -> bool {
    let bytes = page.bytes();
    bytes.len() == 4 && u32::from_le_bytes([bytes[0], bytes[1], bytes[2], bytes[3]]) == number
}

impl<N: RingName> Poster<N> {
    /// Posts a page.
    fn post(&mut self, page: Page) -> bool {
        post(&mut self.end, page)
    }

    /// Gets an event, if there is one, and posts its page again.
    fn pass(&mut self) -> bool {
        let Reaped::Back(mut page) = self.end.reap(Queue::Event) else {
            return false;
        };
        if holds(&page, self.got) {
            self.right = self.right.wrapping_add(1);
        }
        self.got = self.got.wrapping_add(1);
        page.clear();
        post(&mut self.end, page)
    }
}

/// Gets `count` events. Answers how many held their number.
fn drive<N: RingName, R: Wait>(rt: &R, poster: &mut Poster<N>, count: u32) -> u32 {
    for _ in rt.forever() {
        if poster.got >= count {
            break;
        }
        if !poster.pass() {
            hint::spin_loop();
        }
    }
    poster.right
}

/// Gets `count` events under the lock.
fn drive_locked<N: RingName, R: Wait>(rt: &R, lock: &Mutex<Poster<N>>, count: u32) {
    let mut got: u32 = 0;
    for _ in rt.forever() {
        if got >= count {
            break;
        }
        let mut poster = lock.lock(rt);
        if poster.pass() {
            got += 1;
        } else {
            hint::spin_loop();
        }
    }
}

/// Sends an event of this number, if there is a page for it.
fn serve_one<N: RingName>(device: &mut DeviceEnd<N>, number: u32) -> bool {
    match device.next(Queue::Event) {
        Next::Chain(chain) => {
            device.write(&chain, 0, &number.to_le_bytes());
            device.done(chain, 4);
            true
        }
        _ => false,
    }
}

/// Sends the numbers below `count`.
fn serve<N: RingName, R: Wait>(rt: &R, device: &mut DeviceEnd<N>, count: u32) {
    let mut next: u32 = 0;
    for _ in rt.forever() {
        if next >= count {
            break;
        }
        if serve_one(device, next) {
            next += 1;
        } else {
            hint::spin_loop();
        }
    }
}

/// New rings with so many pages for events.
fn opened<N: RingName>(
    alloc: Global,
    rings: NewRings,
    pages: u16,
) -> Result<(Poster<N>, DeviceEnd<N>), AllocError>
    requires { rings.table ≡ N.ring }
{
    let (end, device) = named::<N>(rings);
    let mut poster = Poster {
        end,
        got: 0,
        right: 0,
    };
    for _ in 0..pages {
        poster.post(Page::new(alloc)?);
    }
    Ok((poster, device))
}

/// Two threads pass `count` numbers. Answers how many came as they were sent, in order.
fn relay<N: RingName + Send, R: Threads + Wait + Sync>(
    rt: &R,
    mut poster: Poster<N>,
    mut device: DeviceEnd<N>,
    count: u32,
) -> u32 {
    let (right, ()) = join(
        rt,
        || -> u32 { drive(rt, &mut poster, count) },
        || serve(rt, &mut device, count),
    );
    right
}

/// Two threads get events under the lock, and a third one sends them.
fn work<'x, N: RingName + Send, R: Threads + Wait + Sync>(
    rt: &'x R,
    lock: &'x Mutex<Poster<N>>,
    device: &mut DeviceEnd<N>,
    half: u32,
) {
    join(
        rt,
        || {
            join(
                rt,
                || drive_locked(rt, lock, half),
                || drive_locked(rt, lock, half),
            );
        },
        || serve(rt, device, half.saturating_mul(2)),
    );
}

/// Twice `half` events pass between three threads. Once these have ended the ends meet: the numbers answered are those of two logs that
/// fit, of ends of one table.
fn relay_locked<N: RingName + Send, R: Threads + Wait + Sync>(
    rt: &R,
    poster: Poster<N>,
    mut device: DeviceEnd<N>,
    half: u32,
) -> Met
    ensures { (d : Sight) × (e : Sight) × AreOneTable d e × (result ≡ met_between d.log e.log) }
{
    let lock = Mutex::new(poster);
    work(rt, &lock, &mut device, half);
    let Poster {
        end: mut driver,
        got: _,
        right: _,
    } = lock.into_inner();
    meet(&mut driver, &mut device)
}

/// How a test passes its numbers.
#[derive(Clone, Copy)]
enum Way {
    /// One by one, on one thread.
    OneByOne,
    /// Between two threads.
    TwoThreads,
}

/// One thread sends and gets `count` numbers, one by one. Answers how many came as they were sent.
fn one_by_one<N: RingName>(mut poster: Poster<N>, mut device: DeviceEnd<N>, count: u32) -> u32 {
    for number in 0..count {
        serve_one(&mut device, number);
        poster.pass();
    }
    poster.right
}

/// How many of `count` numbers come as they were sent, in order, over new rings.
fn passed<N: RingName + Send, R: Threads + Wait + Sync>(
    rt: &R,
    alloc: Global,
    rings: NewRings,
    pages: u16,
    way: Way,
    count: u32,
) -> Result<u32, AllocError>
    requires { rings.table ≡ N.ring }
{
    let (poster, device) = opened::<N>(alloc, rings, pages)?;
    match way {
        Way::OneByOne => Ok(one_by_one(poster, device, count)),
        Way::TwoThreads => Ok(relay(rt, poster, device, count)),
    }
}

/// Whether all of `count` numbers do, over rings of which each queue has `size` descriptors.
fn all_pass<R: Threads + Wait + Sync>(
    rt: &R,
    alloc: Global,
    size: u16,
    pages: u16,
    way: Way,
    count: u32,
) -> Result<bool, AllocError>
    requires { IsRingSize size }
{
    let rings = make(alloc, size)?;
    Ok(passed::<Brand, R>(rt, alloc, rings, pages, way, count)? == count)
}

/// The numbers of ends that meet after twice `half` events under a lock.
fn met<N: RingName + Send, R: Threads + Wait + Sync>(
    rt: &R,
    alloc: Global,
    rings: NewRings,
    half: u32,
) -> Result<Met, AllocError>
    requires { rings.table ≡ N.ring }
{
    let (poster, device) = opened::<N>(alloc, rings, 8)?;
    Ok(relay_locked(rt, poster, device, half))
}

#[test]
fn two_threads_pass_events_over_eight_pages(rt: HostRuntime) -> Result<(), Fail> {
    assert!(rt; all_pass(&rt, rt.alloc(), 8, 8, Way::TwoThreads, 1_000_000)?);
    Ok(())
}

#[test]
fn two_threads_pass_events_over_256_pages(rt: HostRuntime) -> Result<(), Fail> {
    assert!(rt; all_pass(&rt, rt.alloc(), 256, 256, Way::TwoThreads, 1_000_000)?);
    Ok(())
}

#[test]
fn indices_pass_65_536(rt: HostRuntime) -> Result<(), Fail> {
    assert!(rt; all_pass(&rt, rt.alloc(), 8, 1, Way::OneByOne, 70_000)?);
    Ok(())
}

#[test]
fn ends_of_a_name_meet_after_events_under_a_lock(rt: HostRuntime) -> Result<(), Fail> {
    let rings = make(rt.alloc(), 8)?;
    let met = met::<Brand, HostRuntime>(&rt, rt.alloc(), rings, 20_000)?;
    let right = Met {
        tx_put: 0,
        tx_got: 0,
        rx_put: 0,
        rx_got: 0,
        ev_put: 40_000,
        ev_got: 40_000,
    };
    assert!(rt; met == right);
    Ok(())
}
