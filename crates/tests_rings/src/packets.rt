//! Packets between two threads over shared rings, and ends that meet.

ghost use Rattle.std.specs.Prelude.{◌≡◌, ◌+◌, ◌∷◌, [], true, false};
ghost use Rattle.vs_page.specs.{Fair.IsFairLog, Held.IsWhole, Log.Driver, declared.log.LogEntry.TheVariants.PutPacket};
ghost use Rattle.vs_header.specs.Op.{op_number};
ghost use Rattle.vs_ring_shared.specs.Ports.{IsRingSize};
ghost use Rattle.tests_rings.specs.Senders.{bare, numbered};

use std::alloc::{AllocError, Global};
use std::hint;
use std::marker::{Brand, Model};
use std::sync::Wait;
use std::test::Fail;
use std::thread::{Threads, join};
use vs_header::{HEADER_LEN, Header, Kind, Op};
use vs_limits::BUF_ALLOC;
use vs_page::{Page, put_packet};
use vs_ring_port::{DeviceRing, DriverRing, Next, Queue, Reaped};
use vs_ring_shared::{
    DeviceEnd, DriverEnd, Met, NewRings, RingName, laws_of_driver_end, make, meet, named,
};

/// A header of the one connection, of this operation and with a number in its buf_alloc.
fn numbered(op: Op, number: u32) -> Header
    ensures { result ≡ numbered (op_number op) number }
{
    Header {
        src_cid: 3,
        dst_cid: 2,
        src_port: 1024,
        dst_port: 52,
        len: 0,
        kind: Kind::Stream.number(),
        op: op.number(),
        flags: 0,
        buf_alloc: number,
        fwd_cnt: 0,
    }
}

/// Puts a packet without payload, and answers whether a descriptor was free for it.
fn put<N: RingName>(driver: &mut DriverEnd<N>, mut page: Page, header: &Header) -> bool
    requires none_staged { driver.old.tx.staged ≡ [] }
    requires whole { IsWhole (bare header.now) }
    requires fair { IsFairLog Driver (PutPacket (bare header.now) ∷ driver.old.log) }
    ensures none_staged { driver.new.tx.staged ≡ [] }
    ensures put { result ≡ true → driver.new.log ≡ PutPacket (bare header.now) ∷ driver.old.log }
    ensures full { result ≡ false → driver.new.log ≡ driver.old.log }
{
    put_packet(&mut page, header, &[]);
    if driver.stage(Queue::Tx, page).is_err() {
        return false;
    }
    driver.publish(Queue::Tx);
    true
}

/// The driver's end, once it put the REQUEST. No page is staged on tx.
#[derive(Drop)]
struct Sender<N: RingName> {
    end: DriverEnd<N>,
}

impl<N: RingName> Model for Sender<N> {
    ghost use Rattle.tests_rings.specs.Senders.{IsSending};
    ghost use Rattle.vs_ring_shared.specs.Sights.{Sight};

    ghost Value = { Sight };

    ghost view = { λ s. s.end };

    ghost invariant = { λ s. IsSending s.end };
}

impl<N: RingName> Sender<N> {
    /// Puts the REQUEST.
    fn ask(mut driver: DriverEnd<N>, page: Page) -> Option<Sender<N>>
        requires nothing { driver.log ≡ [] }
        requires none_staged { driver.tx.staged ≡ [] }
    {
        if !put(&mut driver, page, &numbered(Op::Request, BUF_ALLOC)) {
            return None;
        }
        Some(Sender { end: driver })
    }

    /// Puts an RST of this number.
    fn send(&mut self, page: Page, number: u32) -> bool {
        laws_of_driver_end(&self.end);
        put(&mut self.end, page, &numbered(Op::Rst, number))
    }

    /// Gets back a page that the device read.
    fn take_back(&mut self) -> Option<Page> {
        match self.end.reap(Queue::Tx) {
            Reaped::Back(page) => Some(page),
            Reaped::None => None,
        }
    }
}

/// Sends the numbers from `next` on that are below `count`, each in a page that came back.
fn send_all<N: RingName, R: Wait>(rt: &R, sender: &mut Sender<N>, mut next: u32, count: u32) {
    for _ in rt.forever() {
        if next >= count {
            break;
        }
        match sender.take_back() {
            Some(page) => {
                if !sender.send(page, next) {
                    break;
                }
                next += 1;
            }
            None => hint::spin_loop(),
        }
    }
}

/// Whether it is the header of the packet of this number: 0 is the REQUEST's.
fn is_numbered(header: &Header, number: u32) -> bool {
    if number == 0 {
        *header == numbered(Op::Request, BUF_ALLOC)
    } else {
        *header == numbered(Op::Rst, number)
    }
}

/// Takes the next packet, if there is one, and answers whether it is the one of this number.
fn receive_one<N: RingName>(device: &mut DeviceEnd<N>, number: u32) -> Option<bool> {
    let Next::Chain(chain) = device.next(Queue::Tx) else {
        return None;
    };
    let mut bytes = [0; HEADER_LEN];
    device.read(&chain, 0, &mut bytes);
    device.done(chain, 0);
    Some(is_numbered(&Header::decode(&bytes), number))
}

/// Takes `count` packets. Answers how many came as they were sent, in order.
fn receive_all<N: RingName, R: Wait>(rt: &R, device: &mut DeviceEnd<N>, count: u32) -> u32 {
    let mut next: u32 = 0;
    let mut right: u32 = 0;
    for _ in rt.forever() {
        if next >= count {
            break;
        }
        match receive_one(device, next) {
            Some(is_right) => {
                if is_right {
                    right = right.wrapping_add(1);
                }
                next += 1;
            }
            None => hint::spin_loop(),
        }
    }
    right
}

/// Two threads pass `count` packets over queues of `size` descriptors. Answers how many came as they were sent, in order.
fn relay<N: RingName + Send, R: Threads + Wait + Sync>(
    rt: &R,
    mut sender: Sender<N>,
    mut device: DeviceEnd<N>,
    first: u32,
    count: u32,
) -> u32 {
    let ((), right) = join(
        rt,
        || send_all(rt, &mut sender, first, count),
        || -> u32 { receive_all(rt, &mut device, count) },
    );
    right
}

/// New rings of which each queue has `size` descriptors, with the REQUEST and then as many RSTs under way as there is room for.
fn opened<N: RingName>(
    alloc: Global,
    rings: NewRings,
    size: u16,
) -> Result<Option<(Sender<N>, DeviceEnd<N>)>, AllocError>
    requires { rings.table ≡ N.ring }
{
    let (driver, device) = named::<N>(rings);
    let Some(mut sender) = Sender::ask(driver, Page::new(alloc)?) else {
        return Ok(None);
    };
    for number in 1..size {
        sender.send(Page::new(alloc)?, u32::from(number));
    }
    Ok(Some((sender, device)))
}

/// Two threads pass `count` packets over new rings. Answers whether all came as they were sent, in order.
fn passed<N: RingName + Send, R: Threads + Wait + Sync>(
    rt: &R,
    alloc: Global,
    rings: NewRings,
    size: u16,
    count: u32,
) -> Result<bool, AllocError>
    requires { rings.table ≡ N.ring }
{
    match opened::<N>(alloc, rings, size)? {
        Some((sender, device)) => Ok(relay(rt, sender, device, u32::from(size), count) == count),
        None => Ok(false),
    }
}

/// The same over rings of which each queue has `size` descriptors.
fn all_pass<R: Threads + Wait + Sync>(
    rt: &R,
    alloc: Global,
    size: u16,
    count: u32,
) -> Result<bool, AllocError>
    requires { IsRingSize size }
{
    let rings = make(alloc, size)?;
    passed::<Brand, R>(rt, alloc, rings, size, count)
}

#[test]
fn two_threads_pass_packets_over_eight_pages(rt: HostRuntime) -> Result<(), Fail> {
    assert!(rt; all_pass(&rt, rt.alloc(), 8, 1_000_000)?);
    Ok(())
}

#[test]
fn two_threads_pass_packets_over_256_pages(rt: HostRuntime) -> Result<(), Fail> {
    assert!(rt; all_pass(&rt, rt.alloc(), 256, 1_000_000)?);
    Ok(())
}

/// One packet passes, and the ends meet.
fn pass_and_meet<N: RingName>(rings: NewRings, page: Page) -> Option<Met>
    requires { rings.table ≡ N.ring }
{
    let (mut driver, mut device) = named::<N>(rings);
    if !put(&mut driver, page, &numbered(Op::Request, BUF_ALLOC)) {
        return None;
    }
    receive_one(&mut device, 0)?;
    Some(meet(&mut driver, &mut device))
}

#[test]
fn ends_meet_after_a_packet(rt: HostRuntime) -> Result<(), Fail> {
    let rings = make(rt.alloc(), 8)?;
    let met = Met {
        tx_put: 1,
        tx_got: 1,
        rx_put: 0,
        rx_got: 0,
        ev_put: 0,
        ev_got: 0,
    };
    assert!(rt; pass_and_meet::<Brand>(rings, Page::new(rt.alloc())?) == Some(met));
    Ok(())
}
