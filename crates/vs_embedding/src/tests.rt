//! A guest that sleeps until the monitor interrupts it.

use crate::{Collector, Monitor, NewError, Popped, Served, Virtqueues};
use std::alloc::Global;
use std::test::Fail;
use vs_ring_port::Queue;

// The virtqueues of a guest that gave one chain, of the event queue: its four bytes, whether it came back, and the CID in the
// configuration.
#[derive(Drop)]
struct Sleeper {
    given: bool,
    event: [u8; 4],
    used: bool,
    cid: u64,
}

impl Sleeper {
    // What its driver does when it's interrupted: it learns of a transport reset, and reads its CID anew.
    fn learns(&self) -> Option<u64> {
        if self.used && matches!(self.event, [0, 0, 0, 0]) {
            Some(self.cid)
        } else {
            None
        }
    }
}

impl Virtqueues for Sleeper {
    fn pop(&mut self, queue: Queue) -> Popped {
        match queue {
            Queue::Event if self.given => {
                self.given = false;
                Popped::Chain {
                    place: 0,
                    readable: 0,
                    writable: 4,
                }
            }
            _ => Popped::None,
        }
    }

    fn read(&mut self, _queue: Queue, _place: u16, _at: u64, _out: &mut [u8]) {}

    fn write(&mut self, _queue: Queue, _place: u16, _at: u64, bytes: &[u8]) {
        if let [a, b, c, d] = bytes {
            self.event = [*a, *b, *c, *d];
        }
    }

    fn push_used(&mut self, _queue: Queue, _place: u16, _len: u32) {
        self.used = true;
    }

    fn waiting(&mut self, _queue: Queue) -> u16 {
        0
    }

    fn set_cid(&mut self, cid: u64) {
        self.cid = cid;
    }
}

// The monitor's device over such a guest.
fn monitor(alloc: Global) -> Result<Monitor<Sleeper, Collector>, NewError> {
    let queues = Sleeper {
        given: true,
        event: [9, 9, 9, 9],
        used: false,
        cid: 3,
    };
    Monitor::new(alloc, queues, 8, Collector::new("v.sock_514"), 3, "v.sock")
}

// Whether a round interrupts the guest.
fn interrupts(monitor: &mut Monitor<Sleeper, Collector>, now: u64) -> bool {
    match monitor.serve(now) {
        Served::Turned { interrupt, .. } => interrupt,
        Served::NeedsReset(_) => false,
    }
}

// Whether it's interrupted once, after a transport reset, and learns the new CID then.
fn learns_by_an_interrupt(monitor: &mut Monitor<Sleeper, Collector>) -> bool {
    let before = interrupts(monitor, 0);
    let reset = monitor.transport_reset(9).is_ok();
    let told = interrupts(monitor, 1);
    let learned = monitor.queues().learns() == Some(9);
    let later = interrupts(monitor, 2);
    !before && reset && told && learned && !later
}

#[test]
fn a_transport_reset_reaches_a_guest_that_sleeps(rt: HostRuntime) -> Result<(), Fail> {
    let made = monitor(rt.alloc());
    let Ok(mut monitor) = made else {
        assert!(rt; false);
        return Ok(());
    };
    assert!(rt; learns_by_an_interrupt(&mut monitor));
    Ok(())
}
