//! Standard rings as both traits.
ghost use Rattle.std.specs.{Prelude.{◌≡◌, ◌<◌, ◌≤◌, ◌+◌, ◌^◌, [], length, if◌then◌else◌, None, Some, IfOk, IfErr, OnOk, OnErr, IsTrue, is_ok}, Option.ForSome};
ghost use Rattle.vs_guest_mem.specs.Memory.{after_write, is_inside};
ghost use Rattle.vs_layout.specs.Layout.{queue_areas_of};
ghost use Rattle.vs_ring_port.specs.{declared.queue.TheConstants.QUEUE_SIZE_MAX, DriverCalls.page_of};
ghost use Rattle.vs_ring_plain.specs.Device.{with_change};
ghost use Rattle.laws_plain_rings.specs.{Exposed.{are_alone, first_ends}, Parts.{new_parts, with_parts_memory}, Tie.{AreWordsZero, IsLaid, areas_of, start_of}};
ghost use Rattle.vs_page.specs.{Fair.IsFairLog, Log.{Device, Driver, HasGotAll}};
ghost use Rattle.vs_plain_rings.specs.Counted.{AreCounted};

use crate::parts::{Parts, pages_from};
use laws_ring_journal::{Call, Journal};
use std::alloc::{AllocError, Global};
use std::marker::Model;
use vs_guest_mem::{AddrRange, PlainMem};
use vs_layout::queue_areas;
use vs_page::Page;
use vs_ring_port::{Chain, DeviceRing, DriverRing, Next, NoDescriptor, Queue, Reaped};

/// Both ends of the three virtqueues in a guest's memory, which one thread lends to each end in turn. Seen as both ends with their memory,
/// and, while they alone change it, as the lists of pages in flight and what each of them did so far. What each call makes of both ends and
/// of the memory's bytes stands among its clauses, whoever changes these.
///
/// All memory is taken when they are made.
#[derive(Drop)]
pub struct PlainRings {
    parts: Parts,
    journal: Journal,
}

impl Model for PlainRings {
    ghost use Rattle.laws_plain_rings.specs.Exposed.{BothEnds};

    ghost Value = { BothEnds };

    ghost use Rattle.vs_plain_rings.specs.Rings.{ends_in, IsTiedInside};

    ghost view = { ends_in };

    ghost invariant = { IsTiedInside };
}

impl PlainRings {
    /// Rings of which each queue has `n` places, in a memory from `base` on: descriptors, available ring and used ring of rx, tx and
    /// event, and behind them the pages, as far as these lie in the memory too. `indirect` says whether indirect descriptors were agreed
    /// on.
    ///
    /// Where the pages lie in the memory, no change from outside is to come, and `n` is a power of two, the rings expose their lists and
    /// logs and are honest, until somebody else changes the memory.
    ///
    /// The only error is want of memory.
    pub fn new(
        alloc: Global,
        mem: PlainMem,
        base: u64,
        n: u16,
        indirect: bool,
    ) -> Result<PlainRings, AllocError>
        requires nonzero { 0 < n }
        requires limit { n ≤ QUEUE_SIZE_MAX }
        requires from { mem.base ≤ base }
        requires to { (queue_areas_of base n).event.end ≤ mem.base + length mem.bytes }
        ensures parts { IfOk result (λ r. r.parts ≡ new_parts mem base n indirect) }
        ensures ends { IfOk result (λ r. r.ends ≡ first_ends mem base n) }
    {
        let journal = first_journal(is_alone(&mem, base, n));
        let parts = Parts::new(alloc, mem, base, n, indirect)?;
        Ok(PlainRings { parts, journal })
    }

    /// The memory.
    pub fn mem(&self) -> &PlainMem
        ensures { result.now ≡ self.now.parts.device.memory }
    {
        self.parts.device().mem()
    }

    /// Writes bytes as somebody else does, without an access of the device: from then on the rings expose neither lists nor logs, and
    /// aren't honest. `AddrRange` where a byte lies outside the memory; all is as before then.
    pub fn poke(&mut self, addr: u64, bytes: &[u8]) -> Result<(), AddrRange>
        ensures ok { is_ok result ≡ is_inside self.old.parts.device.memory addr (length bytes.now) }
        ensures written { OnOk result (self.new.parts
            ≡ with_parts_memory (after_write self.old.parts.device.memory addr bytes.now) self.old.parts) }
        ensures unknown { OnOk result (self.new.ends ≡ None) }
        ensures err { IfErr result (λ e. e ≡ record { addr = addr; len = length bytes.now }) }
        ensures unchanged { OnErr result (self.new ≡ self.old) }
    {
        self.parts.poke(addr, bytes)?;
        self.journal = self.journal.then(&Call::Outside);
        Ok(())
    }

    /// Adds a change: bytes that somebody else writes before the nth access of the device from now on, 1 being the next one. The rings
    /// expose neither lists nor logs from now on, and aren't honest. Takes memory; without it all is as before.
    pub fn change_before(
        &mut self,
        alloc: Global,
        nth: u64,
        addr: u64,
        bytes: &[u8],
    ) -> Result<(), AllocError>
        requires later { 1 ≤ nth }
        requires inside { IsTrue (is_inside self.old.parts.device.memory addr (length bytes.now)) }
        ensures ok { OnOk result (self.new.parts ≡ with_parts_memory (with_change self.old.parts.device.memory record {
          nth = nth;
          addr = addr;
          bytes = bytes.now;
        }) self.old.parts) }
        ensures unknown { OnOk result (self.new.ends ≡ None) }
        ensures err { OnErr result (self.new ≡ self.old) }
    {
        self.parts.change_before(alloc, nth, addr, bytes)?;
        self.journal = self.journal.then(&Call::Outside);
        Ok(())
    }
}

/// What is true of standard rings between any two calls, while they alone change their memory. Both logs are fair, and what each end got
/// is what the other put first: packets on tx and rx, ids on event. What the ends count is what the lists say. The three areas of each queue
/// and the pages of all three lie in the memory, and no two of them have a byte in common (Virtio 1.2, section 2.7). Flags and event words
/// of both rings of each queue are 0 (sections 2.7.6 to 2.7.10).
pub fn laws_of_standard_rings(rings: &PlainRings)
    ensures driver_fair { ForSome rings.now.ends (λ w. IsFairLog Driver w.driver.entries) }
    ensures device_fair { ForSome rings.now.ends (λ w. IsFairLog Device w.device.entries) }
    ensures driver_got { ForSome rings.now.ends (λ w. HasGotAll w.driver.entries w.device.entries) }
    ensures device_got { ForSome rings.now.ends (λ w. HasGotAll w.device.entries w.driver.entries) }
    ensures counted { ForSome rings.now.ends (AreCounted rings.now.parts) }
    ensures apart { let p = rings.now.parts in
        ForSome rings.now.ends (λ _. IsLaid p.device.size (areas_of p) (start_of p) p.device.memory) }
    ensures words { ForSome rings.now.ends (λ _. AreWordsZero rings.now.parts) }
{
    let _cid = rings.parts.cid();
}

/// Whether the two ends alone change the memory.
fn is_alone(mem: &PlainMem, base: u64, n: u16) -> bool
    requires nonzero { 0 < n }
    requires limit { n ≤ QUEUE_SIZE_MAX }
    requires to { (queue_areas_of base n).event.end ≤ mem.now.base + length mem.now.bytes }
    ensures exact { result ≡ are_alone mem.now base n }
    ensures fits { mem.now.base + length mem.now.bytes < 2 ^ 64 }
{
    let top = mem.base() + mem.size();
    let areas = queue_areas(base, n);
    mem.is_still() && pages_from(top, areas.event.end, n).is_some() && 65_536 % n as u32 == 0
}

/// No call was made yet, if the calls are to be known.
fn first_journal(known: bool) -> Journal
    ensures { result.calls ≡ (if known then Some [] else None) }
{
    let journal = Journal::new();
    if known {
        journal
    } else {
        journal.then(&Call::Outside)
    }
}

/// What `reap` found.
fn reaped(page: Option<Page>) -> Reaped
    ensures { page_of result ≡ page }
{
    match page {
        Some(page) => Reaped::Back(page),
        None => Reaped::None,
    }
}

impl DriverRing for PlainRings {
    ghost use Rattle.std.specs.Prelude.{IfNone, OnSome, true};
    ghost use Rattle.vs_header.specs.declared.TheConstants.{HEADER_LEN};
    ghost use Rattle.vs_ring_port.specs.{Counts.{at, one_more, without_queue}, DriverCalls.{Stage, Publish, Reap, LoadCid, DriverAllows, CanPublish, CanStage}};
    ghost use Rattle.vs_ring_port.specs.declared.queue.Queue.{Queue};
    ghost use Rattle.vs_plain_driver.specs.Queue.{reaped_page};
    ghost use Rattle.laws_plain_rings.specs.{Exposed.driver_contents, Parts.{driver_at, parts_flight, parts_staged, published_parts, reaped_parts, staged_parts, used_in}};

    ghost size = { λ r. r.parts.device.size };

    ghost flight = { λ r. parts_flight r.parts };

    ghost staged = { λ r. parts_staged r.parts };

    ghost contents = { driver_contents };

    ghost kicks = { λ r queue. true };

    fn size(&self) -> u16 {
        self.parts.device().size()
    }

    fn stage(&mut self, queue: Queue, page: Page) -> Result<(), (NoDescriptor, Page)>
        requires header { queue ≡ Queue.Tx → HEADER_LEN ≤ length page }
        requires packet { CanStage queue page (driver_contents self.old) }
        ensures parts { OnOk result (self.new.parts ≡ staged_parts queue page self.old.parts) }
        ensures room { OnOk result (at queue (parts_flight self.old.parts) < self.old.parts.device.size) }
        ensures in_flight { OnOk result (parts_flight self.new.parts ≡ one_more queue (parts_flight self.old.parts)) }
        ensures staged { OnOk result (parts_staged self.new.parts ≡ one_more queue (parts_staged self.old.parts)) }
        ensures contents { OnOk result (DriverAllows (Stage queue page) tt (driver_contents self.old) (driver_contents self.new)) }
        ensures full { OnErr result (at queue (parts_flight self.old.parts) ≡ self.old.parts.device.size) }
        ensures refused { IfErr result (λ (refusal, _). refusal.in_flight ≡ self.old.parts.device.size) }
        ensures page_back { IfErr result (λ (_, back). back ≡ page) }
        ensures same { OnErr result (self.new ≡ self.old) }
        ensures same_size { self.new.parts.device.size ≡ self.old.parts.device.size }
    {
        let in_flight = self.parts.in_flight(queue);
        let _within = page.bytes();
        let journal = self.journal.then(&Call::Stage(queue, &page));
        match self.parts.stage(queue, page) {
            Ok(()) => {
                self.journal = journal;
                Ok(())
            }
            Err(page) => Err((NoDescriptor { in_flight }, page)),
        }
    }

    fn publish(&mut self, queue: Queue)
        requires fair { CanPublish queue (driver_contents self.old) }
        ensures parts { self.new.parts ≡ published_parts queue self.old.parts }
        ensures contents { DriverAllows (Publish queue) tt (driver_contents self.old) (driver_contents self.new) }
        ensures flight { parts_flight self.new.parts ≡ parts_flight self.old.parts }
        ensures staged { parts_staged self.new.parts ≡ without_queue queue (parts_staged self.old.parts) }
        ensures same_size { self.new.parts.device.size ≡ self.old.parts.device.size }
    {
        self.parts.publish(queue);
        self.journal = self.journal.then(&Call::Publish(queue));
    }

    fn reap(&mut self, queue: Queue) -> Reaped
        ensures page { let p = self.old.parts in
            page_of result ≡ reaped_page (areas_of p queue) (driver_at queue p) p.device.memory (used_in queue p) }
        ensures parts { self.new.parts ≡ reaped_parts queue self.old.parts }
        ensures back { OnSome (page_of result) (parts_flight self.old.parts ≡ one_more queue (parts_flight self.new.parts)) }
        ensures none { IfNone (page_of result) (parts_flight self.new.parts ≡ parts_flight self.old.parts) }
        ensures published { OnSome (page_of result) (at queue (parts_staged self.old.parts) < at queue (parts_flight self.old.parts)) }
        ensures within { at queue (parts_flight self.old.parts) ≤ self.old.parts.device.size }
        ensures staged { parts_staged self.new.parts ≡ parts_staged self.old.parts }
        ensures contents { DriverAllows (Reap queue) (page_of result) (driver_contents self.old) (driver_contents self.new) }
        ensures same_size { self.new.parts.device.size ≡ self.old.parts.device.size }
    {
        let _within = self.parts.in_flight(queue);
        let page = self.parts.reap(queue);
        self.journal = self.journal.then(&Call::Reap(queue));
        reaped(page)
    }

    fn cid(&mut self) -> u64
        ensures value { result ≡ self.old.parts.cid }
        ensures parts { self.new.parts ≡ self.old.parts }
        ensures contents { DriverAllows LoadCid result (driver_contents self.old) (driver_contents self.new) }
    {
        self.journal = self.journal.then(&Call::LoadCid);
        self.parts.cid()
    }

    fn in_flight(&self, queue: Queue) -> u16 {
        self.parts.in_flight(queue)
    }

    fn kick(&self, _queue: Queue) -> bool {
        true
    }
}

impl DeviceRing for PlainRings {
    ghost use Rattle.std.specs.Prelude.{Contains, IfSome, true};
    ghost use Rattle.vs_limits.specs.declared.TheConstants.{GUEST_CID_MIN, GUEST_CID_MAX};
    ghost use Rattle.vs_ring_port.specs.{Chains.{IsLongEnough, chain_of, held_after, without}, Contents.{Take, Read, Write, Return, Given, PublishCid}, DeviceCalls.CanReturn};
    ghost use Rattle.vs_ring_port.specs.DeviceCalls.{DeviceAllows, LeavesNoGap};
    ghost use Rattle.vs_ring_plain.specs.Device.{answer_to, chains_held};
    ghost use Rattle.laws_plain_rings.specs.Exposed.{device_contents};

    ghost size = { λ r. r.parts.device.size };

    ghost held = { λ r. chains_held r.parts.device };

    ghost contents = { device_contents };

    ghost kicks = { λ r queue. true };

    fn size(&self) -> u16 {
        self.parts.device().size()
    }

    fn next(&mut self, queue: Queue) -> Next
        ensures exact { answer_to (Take queue) self.old.parts.device ≡ (result, self.new.parts.device) }
        ensures rest { self.new.parts ≡ record self.old.parts { device = self.new.parts.device } }
        ensures held { chains_held self.new.parts.device ≡ held_after result (chains_held self.old.parts.device) }
        ensures queue { IfSome (chain_of result) (λ chain. chain.queue ≡ queue) }
        ensures long_enough { IfSome (chain_of result) (IsLongEnough queue) }
        ensures contents { DeviceAllows (Take queue) result (device_contents self.old) (device_contents self.new) }
        ensures same_size { self.new.parts.device.size ≡ self.old.parts.device.size }
    {
        let next = self.parts.take(queue);
        self.journal = self.journal.then(&Call::Take(queue));
        next
    }

    fn readable(&self, chain: &Chain) -> u64 {
        chain.readable
    }

    fn writable(&self, chain: &Chain) -> u64 {
        chain.writable
    }

    fn read(&mut self, chain: &Chain, at: u64, out: &mut [u8])
        requires is_held { Contains (chains_held self.old.parts.device) chain.now }
        requires in_range { at + length out.old ≤ chain.now.readable }
        ensures exact { answer_to (Read chain.now at (length out.old)) self.old.parts.device ≡ (out.new, self.new.parts.device) }
        ensures rest { self.new.parts ≡ record self.old.parts { device = self.new.parts.device } }
        ensures held { chains_held self.new.parts.device ≡ chains_held self.old.parts.device }
        ensures contents { DeviceAllows (Read chain.now at (length out.old)) out.new (device_contents self.old)
            (device_contents self.new) }
        ensures same_size { self.new.parts.device.size ≡ self.old.parts.device.size }
    {
        self.parts.read(chain, at, out);
    }

    fn write(&mut self, chain: &Chain, at: u64, bytes: &[u8])
        requires is_held { Contains (chains_held self.old.parts.device) chain.now }
        requires in_range { at + length bytes.now ≤ chain.now.writable }
        requires no_gap { LeavesNoGap chain.now at (device_contents self.old) }
        ensures exact { answer_to (Write chain.now at bytes.now) self.old.parts.device ≡ (tt, self.new.parts.device) }
        ensures rest { self.new.parts ≡ record self.old.parts { device = self.new.parts.device } }
        ensures held { chains_held self.new.parts.device ≡ chains_held self.old.parts.device }
        ensures contents { DeviceAllows (Write chain.now at bytes.now) tt (device_contents self.old) (device_contents self.new) }
        ensures same_size { self.new.parts.device.size ≡ self.old.parts.device.size }
    {
        self.parts.write(chain, at, bytes);
        self.journal = self.journal.then(&Call::Write(chain, at, bytes));
    }

    fn done(&mut self, chain: Chain, len: u32)
        requires is_held { Contains (chains_held self.old.parts.device) chain }
        requires written { CanReturn chain len (device_contents self.old) }
        ensures exact { answer_to (Return chain len) self.old.parts.device ≡ (tt, self.new.parts.device) }
        ensures rest { self.new.parts ≡ record self.old.parts { device = self.new.parts.device } }
        ensures held { chains_held self.new.parts.device ≡ without chain (chains_held self.old.parts.device) }
        ensures contents { DeviceAllows (Return chain len) tt (device_contents self.old) (device_contents self.new) }
        ensures same_size { self.new.parts.device.size ≡ self.old.parts.device.size }
    {
        let journal = self.journal.then(&Call::Return(&chain, len));
        self.parts.give_back(chain, len);
        self.journal = journal;
    }

    fn given(&mut self, queue: Queue) -> u16
        ensures exact { answer_to (Given queue) self.old.parts.device ≡ (result, self.new.parts.device) }
        ensures rest { self.new.parts ≡ record self.old.parts { device = self.new.parts.device } }
        ensures held { chains_held self.new.parts.device ≡ chains_held self.old.parts.device }
        ensures contents { DeviceAllows (Given queue) result (device_contents self.old) (device_contents self.new) }
        ensures within { result ≤ self.old.parts.device.size }
        ensures same_size { self.new.parts.device.size ≡ self.old.parts.device.size }
    {
        self.parts.given(queue)
    }

    fn publish_cid(&mut self, cid: u64)
        requires low { GUEST_CID_MIN ≤ cid }
        requires high { cid ≤ GUEST_CID_MAX }
        ensures parts { self.new.parts ≡ record self.old.parts { cid = cid } }
        ensures contents { DeviceAllows (PublishCid cid) tt (device_contents self.old) (device_contents self.new) }
    {
        self.parts.publish_cid(cid);
        self.journal = self.journal.then(&Call::PublishCid(cid));
    }

    fn kick(&self, _queue: Queue) -> bool {
        true
    }
}
