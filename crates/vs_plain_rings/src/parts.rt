//! Both ends of standard rings: the device's with the memory, and the driver's of each queue.
ghost use Rattle.std.specs.Prelude.{◌≡◌, ◌<◌, ◌≤◌, ◌+◌, ◌-◌, ◌*◌, ◌%◌, ◌^◌, [], length, Contains, IfOk, IfErr, IfNone, OnOk, OnErr, OnSome};
ghost use Rattle.std.specs.Prelude.{IfSome, None, Some, nat_le, if◌then◌else◌, IsTrue, is_ok};
ghost use Rattle.vs_limits.specs.declared.TheConstants.{GUEST_CID_MIN, GUEST_CID_MAX};
ghost use Rattle.vs_guest_mem.specs.Memory.{after_write, is_inside};
ghost use Rattle.vs_layout.specs.Layout.{queue_areas_of};
ghost use Rattle.vs_page.specs.declared.page.TheConstants.{PAGE_LEN};
ghost use Rattle.vs_ring_port.specs.declared.queue.TheConstants.{QUEUE_SIZE_MAX};
ghost use Rattle.vs_ring_port.specs.Contents.{Take, Read, Write, Return, Given};
ghost use Rattle.vs_ring_plain.specs.Device.{answer_to, areas_at, chains_held, with_change};
ghost use Rattle.vs_plain_driver.specs.Queue.{flight_in, reaped_page};
ghost use Rattle.laws_plain_rings.specs.Parts.{
  driver_at,
  new_parts,
  pages_behind,
  pages_start,
  published_parts,
  reaped_parts,
  staged_parts,
  used_in,
  with_parts_memory,
};

use std::alloc::{AllocError, Global};
use std::marker::Model;
use vs_guest_mem::{AddrRange, PlainMem};
use vs_layout::queue_areas;
use vs_limits::FIRST_CID;
use vs_page::{PAGE_LEN, Page};
use vs_plain_driver::DriverQueue;
use vs_ring_plain::device::DeviceSide;
use vs_ring_port::{Chain, Next, Queue};

/// Both ends of the three queues in a guest's memory. All memory is taken when they are made.
#[derive(Drop)]
pub struct Parts {
    device: DeviceSide,
    rx: DriverQueue,
    tx: DriverQueue,
    event: DriverQueue,
    cid: u64,
}

impl Model for Parts {
    ghost use Rattle.laws_plain_rings.specs.Parts.{PartsState};

    ghost Value = { PartsState };

    ghost use Rattle.vs_plain_rings.specs.View.{parts_in, IsInOrder};

    ghost view = { parts_in };

    ghost invariant = { IsInOrder };
}

impl Parts {
    /// Both ends of queues of `n` descriptors each, whose areas lie in a memory one after another from `base` on, and behind them the
    /// pages, as far as these lie in the memory too. Flags, index and event word of both rings of each queue are set to 0.
    ///
    /// The only error is want of memory.
    pub fn new(
        alloc: Global,
        mem: PlainMem,
        base: u64,
        n: u16,
        indirect: bool,
    ) -> Result<Parts, AllocError>
        requires nonzero { 0 < n }
        requires limit { n ≤ QUEUE_SIZE_MAX }
        requires from { mem.base ≤ base }
        requires to { (queue_areas_of base n).event.end ≤ mem.base + length mem.bytes }
        ensures { IfOk result (λ p. p ≡ new_parts mem base n indirect) }
    {
        let top = mem.base() + mem.size();
        let areas = queue_areas(base, n);
        let pages = pages_from(top, areas.event.end, n);
        let step = PAGE_LEN as u64 * n as u64;
        let tx_pages = behind(pages, step);
        let event_pages = behind(pages, 2 * step);
        let mut device = DeviceSide::new(alloc, mem, areas, n, indirect)?;
        let rx = DriverQueue::new(alloc, &mut device, Queue::Rx, pages)?;
        let tx = DriverQueue::new(alloc, &mut device, Queue::Tx, tx_pages)?;
        let event = DriverQueue::new(alloc, &mut device, Queue::Event, event_pages)?;
        device.clear(Queue::Rx);
        device.clear(Queue::Tx);
        device.clear(Queue::Event);
        Ok(Parts {
            device,
            rx,
            tx,
            event,
            cid: FIRST_CID,
        })
    }

    /// The device's end.
    pub fn device(&self) -> &DeviceSide
        ensures { result.now ≡ self.now.device }
    {
        &self.device
    }

    /// The guest's CID.
    pub fn cid(&self) -> u64
        ensures value { result ≡ self.now.cid }
        ensures low { 3 ≤ result }
        ensures high { result ≤ GUEST_CID_MAX }
    {
        self.cid
    }

    /// Pages of a queue that were staged and not reaped.
    pub fn in_flight(&self, queue: Queue) -> u16
        ensures value { result ≡ flight_in (driver_at queue self.now) }
        ensures within { result ≤ self.now.device.size }
        ensures staged { (driver_at queue self.now).staged ≤ result }
    {
        match queue {
            Queue::Rx => self.rx.in_flight(),
            Queue::Tx => self.tx.in_flight(),
            Queue::Event => self.event.in_flight(),
        }
    }

    /// Stages a page, which comes back where no descriptor is free.
    pub fn stage(&mut self, queue: Queue, page: Page) -> Result<(), Page>
        ensures ok { OnOk result (self.new ≡ staged_parts queue page self.old) }
        ensures room { OnOk result (flight_in (driver_at queue self.old) < self.old.device.size) }
        ensures more { OnOk result (flight_in (driver_at queue self.new) ≡ flight_in (driver_at queue self.old) + 1) }
        ensures full { OnErr result (flight_in (driver_at queue self.old) ≡ self.old.device.size) }
        ensures page_back { IfErr result (λ back. back ≡ page) }
        ensures same { OnErr result (self.new ≡ self.old) }
    {
        match queue {
            Queue::Rx => self.rx.stage(&mut self.device, queue, page),
            Queue::Tx => self.tx.stage(&mut self.device, queue, page),
            Queue::Event => self.event.stage(&mut self.device, queue, page),
        }
    }

    /// Publishes the pages staged on a queue.
    pub fn publish(&mut self, queue: Queue)
        ensures { self.new ≡ published_parts queue self.old }
    {
        match queue {
            Queue::Rx => self.rx.publish(&mut self.device, queue),
            Queue::Tx => self.tx.publish(&mut self.device, queue),
            Queue::Event => self.event.publish(&mut self.device, queue),
        }
    }

    /// Gets back the page that the next element of the used ring names.
    pub fn reap(&mut self, queue: Queue) -> Option<Page>
        ensures page { let p = self.old in
            result ≡ reaped_page (areas_at queue p.device.areas) (driver_at queue p) p.device.memory (used_in queue p) }
        ensures after { self.new ≡ reaped_parts queue self.old }
        ensures less { OnSome result (flight_in (driver_at queue self.old) ≡ flight_in (driver_at queue self.new) + 1) }
        ensures published { OnSome result ((driver_at queue self.old).staged < flight_in (driver_at queue self.old)) }
        ensures none { IfNone result (self.new ≡ self.old) }
    {
        match queue {
            Queue::Rx => self.rx.reap(&self.device, queue),
            Queue::Tx => self.tx.reap(&self.device, queue),
            Queue::Event => self.event.reap(&self.device, queue),
        }
    }

    /// Takes the next chain of a queue.
    pub fn take(&mut self, queue: Queue) -> Next
        ensures exact { answer_to (Take queue) self.old.device ≡ (result, self.new.device) }
        ensures rest { self.new ≡ record self.old { device = self.new.device } }
    {
        self.device.take(queue)
    }

    /// Reads the bytes of a chain from place `at` on.
    pub fn read(&mut self, chain: &Chain, at: u64, out: &mut [u8])
        requires is_held { Contains (chains_held self.old.device) chain.now }
        requires in_range { at + length out.old ≤ chain.now.readable }
        ensures exact { answer_to (Read chain.now at (length out.old)) self.old.device ≡ (out.new, self.new.device) }
        ensures rest { self.new ≡ record self.old { device = self.new.device } }
    {
        self.device.read_chain(chain, at, out);
    }

    /// Writes into a chain from place `at` on.
    pub fn write(&mut self, chain: &Chain, at: u64, bytes: &[u8])
        requires is_held { Contains (chains_held self.old.device) chain.now }
        requires in_range { at + length bytes.now ≤ chain.now.writable }
        ensures exact { answer_to (Write chain.now at bytes.now) self.old.device ≡ (tt, self.new.device) }
        ensures rest { self.new ≡ record self.old { device = self.new.device } }
    {
        self.device.write_chain(chain, at, bytes);
    }

    /// Returns a chain into which `len` bytes were written.
    pub fn give_back(&mut self, chain: Chain, len: u32)
        requires is_held { Contains (chains_held self.old.device) chain }
        ensures exact { answer_to (Return chain len) self.old.device ≡ (tt, self.new.device) }
        ensures rest { self.new ≡ record self.old { device = self.new.device } }
    {
        self.device.give_back(chain, len);
    }

    /// How many chains of a queue are given and not returned.
    pub fn given(&mut self, queue: Queue) -> u16
        ensures exact { answer_to (Given queue) self.old.device ≡ (result, self.new.device) }
        ensures rest { self.new ≡ record self.old { device = self.new.device } }
        ensures within { result ≤ self.old.device.size }
    {
        self.device.given_of(queue)
    }

    /// Sets the guest's CID.
    pub fn publish_cid(&mut self, cid: u64)
        requires low { GUEST_CID_MIN ≤ cid }
        requires high { cid ≤ GUEST_CID_MAX }
        ensures { self.new ≡ record self.old { cid = cid } }
    {
        self.cid = cid;
    }

    /// Writes bytes as somebody else does. `AddrRange` where a byte lies outside the memory; all is as before then.
    pub fn poke(&mut self, addr: u64, bytes: &[u8]) -> Result<(), AddrRange>
        ensures ok { is_ok result ≡ is_inside self.old.device.memory addr (length bytes.now) }
        ensures written { OnOk result (self.new ≡ with_parts_memory (after_write self.old.device.memory addr bytes.now) self.old) }
        ensures err { IfErr result (λ e. e ≡ record { addr = addr; len = length bytes.now }) }
        ensures unchanged { OnErr result (self.new ≡ self.old) }
    {
        self.device.poke(addr, bytes)
    }

    /// Adds a change: bytes that somebody else writes before the nth access of the device from now on, 1 being the next one. Takes
    /// memory; without it all is as before.
    pub fn change_before(
        &mut self,
        alloc: Global,
        nth: u64,
        addr: u64,
        bytes: &[u8],
    ) -> Result<(), AllocError>
        requires later { 1 ≤ nth }
        requires inside { IsTrue (is_inside self.old.device.memory addr (length bytes.now)) }
        ensures ok { OnOk result (self.new ≡ with_parts_memory (with_change self.old.device.memory record {
          nth = nth;
          addr = addr;
          bytes = bytes.now;
        }) self.old) }
        ensures err { OnErr result (self.new ≡ self.old) }
    {
        self.device.change_before(alloc, nth, addr, bytes)
    }
}

// Where the pages begin that lie behind the areas, where 3n of them lie below `top`.
pub(crate) fn pages_from(top: u64, end: u64, n: u16) -> Option<u64>
    requires { end ≤ top }
    ensures exact { let at = end + (PAGE_LEN - end % PAGE_LEN) % PAGE_LEN in
        result ≡ (if nat_le (at + 3 * (PAGE_LEN * n)) top then Some at else None) }
{
    let page = PAGE_LEN as u64;
    let pad = (page - end % page) % page;
    if pad + 3 * (page * n as u64) <= top - end {
        Some(end + pad)
    } else {
        None
    }
}

// So many bytes further on.
fn behind(pages: Option<u64>, more: u64) -> Option<u64>
    requires { IfSome pages (λ at. at + more < 2 ^ 64) }
    ensures { result ≡ pages_behind pages more }
{
    let at = pages?;
    Some(at + more)
}
