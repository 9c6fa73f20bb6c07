//! The device's side of shared rings: what an end of a name, and rings on one thread, stand on.
ghost use Rattle.std.specs.Prelude.{◌≡◌, ◌≤◌, ◌<◌, ◌+◌, Contains, IfNone, IfSome, drop, length, take};
ghost use Rattle.vs_page.specs.{Fair.IsFairLog, Overwriting.overwritten};
ghost use Rattle.vs_ring_port.specs.Chains.{IsLongEnough, bytes_in, chains_of, held_of, with_bytes};
ghost use Rattle.vs_ring_port.specs.{EndLog.entries_returned, declared.queue.Queue.Queue, declared.queue.TheConstants.QUEUE_SIZE_MAX};
ghost use Rattle.vs_ring_shared.specs.Sights.{Counts, TakesNone, TakesOne, after_resetting, after_returning, sight_in};
ghost use Rattle.vs_page.specs.Log as log;

use crate::counters::DeviceCounters;
use crate::device_queue::{DeviceQueue, look, return_chain, take_chain};
use crate::held::HeldPages;
use crate::port::Port;
use std::marker::Model;
use vs_ring_port::{Chain, Queue};

/// The device's side. Seen as the table that it belongs to, the rings' size, its log and what it was told of the driver's,
/// the pages of each queue that it took and gave back, and the chains that it holds.
#[derive(Drop)]
pub(crate) struct DeviceSide {
    pub(crate) port: Port,
    pub(crate) rx: DeviceQueue,
    pub(crate) tx: DeviceQueue,
    pub(crate) event: DeviceQueue,
    pub(crate) held: HeldPages,
    pub(crate) counters: DeviceCounters,
}

impl Model for DeviceSide {
    ghost use Rattle.vs_ring_shared.specs.Sights.{DeviceSight};

    ghost Value = { DeviceSight };

    ghost use Rattle.vs_ring_shared.specs.Sides.{IsDeviceSide, device_sight};

    ghost view = { device_sight };

    ghost invariant = { IsDeviceSide };
}

impl DeviceSide {
    /// Descriptors of each queue.
    pub fn size(&self) -> u16
        ensures value { result ≡ self.now.sight.size }
        ensures nonzero { 0 < result }
        ensures limit { result ≤ QUEUE_SIZE_MAX }
    {
        self.port.size as u16
    }

    /// Takes the page that the driver gave first of those not yet taken, as a chain. The available index is loaded where all pages that it
    /// showed before were taken. `None` comes exactly where it then shows as many pages as were taken: all that it was told of is among them.
    #[inline(always)]
    pub fn take_next(&mut self, queue: Queue) -> Option<Chain>
        ensures none { IfNone result (TakesNone queue self.old self.new) }
        ensures chain { IfSome result (λ chain. TakesOne queue chain self.old self.new) }
        ensures long_enough { IfSome result (IsLongEnough queue) }
        ensures fair { IsFairLog log.Device self.new.sight.log }
    {
        match queue {
            Queue::Rx => take_chain(&mut self.port, &mut self.rx, &mut self.held, queue),
            Queue::Tx => {
                let chain = take_chain(&mut self.port, &mut self.tx, &mut self.held, queue)?;
                self.counters.tx_got = self.counters.tx_got.wrapping_add(1);
                Some(chain)
            }
            Queue::Event => take_chain(&mut self.port, &mut self.event, &mut self.held, queue),
        }
    }

    /// Reads the bytes of a chain from place `at` on, as many as `out` has.
    #[inline(always)]
    pub fn read_from(&self, chain: &Chain, at: u64, out: &mut [u8])
        requires is_held { Contains (chains_of self.now.held) chain.now }
        requires in_range { at + length out.old ≤ chain.now.readable }
        ensures { out.new ≡ take (length out.old) (drop at (bytes_in chain.now self.now.held)) }
    {
        let bytes = self.held.bytes(chain);
        let from = at as usize;
        let part = &bytes[from..from + out.len()];
        out.copy_from_slice(part);
    }

    /// Writes into a chain from place `at` on, over what was written there before. No gap may be left before `at`.
    #[inline(always)]
    pub fn write_into(&mut self, chain: &Chain, at: u64, bytes: &[u8])
        requires is_held { Contains (chains_of self.old.held) chain.now }
        requires in_range { at + length bytes.now ≤ chain.now.writable }
        requires no_gap { at ≤ length (bytes_in chain.now self.old.held) }
        ensures { let held = self.old.held in
            self.new ≡ record self.old { held = with_bytes chain.now (overwritten (bytes_in chain.now held) at bytes.now) held } }
    {
        self.held.write(chain, at as usize, bytes);
    }

    /// Returns a chain with the first `len` of its bytes. The log with what these hold has to be fair.
    #[inline(always)]
    pub fn give_back(&mut self, chain: Chain, len: u32)
        requires is_held { Contains (chains_of self.old.held) chain }
        requires fair { let page = take len (bytes_in chain self.old.held) in
            IsFairLog log.Device (entries_returned chain.queue page self.old.sight.log) }
        ensures { self.new ≡ after_returning chain (take len (bytes_in chain self.old.held)) self.old }
    {
        match chain.queue {
            Queue::Rx => {
                let more = return_chain(&mut self.port, &mut self.rx, &mut self.held, chain, len);
                self.counters.rx_put = self.counters.rx_put.wrapping_add(more);
            }
            Queue::Tx => {
                return_chain(&mut self.port, &mut self.tx, &mut self.held, chain, len);
            }
            Queue::Event => {
                let more = return_chain(
                    &mut self.port,
                    &mut self.event,
                    &mut self.held,
                    chain,
                    len,
                );
                self.counters.ev_put = self.counters.ev_put.wrapping_add(more);
            }
        }
    }

    /// Pages of a queue that were given and not given back, held ones included, by an index that it loads.
    pub fn count_given(&mut self, queue: Queue) -> u16
        ensures { Counts queue result self.old self.new }
    {
        match queue {
            Queue::Rx => look(&mut self.port, &mut self.rx, queue),
            Queue::Tx => look(&mut self.port, &mut self.tx, queue),
            Queue::Event => look(&mut self.port, &mut self.event, queue),
        }
    }

    /// Publishes the guest's CID: the log gets a mark.
    pub fn store_cid(&mut self, cid: u64)
        ensures { self.new ≡ after_resetting cid self.old }
    {
        self.port.reset(cid);
    }
}

/// What is true of it between any two calls. Its log is fair, and the chains that it holds are the pages of each queue that it took and didn't
/// give back.
pub(crate) fn laws_of_device_side(side: &DeviceSide)
    ensures size { (0 < side.now.sight.size) × (side.now.sight.size ≤ QUEUE_SIZE_MAX) }
    ensures fair { IsFairLog log.Device side.now.sight.log }
    ensures held { (queue : Queue) → let q = sight_in queue side.now.sight in length q.put + held_of queue side.now.held ≡ length q.got }
{
    let _size = side.port.size;
}
