//! A poll of the driver's ring: events and packets are taken, pages come back, and what is owed is put (Virtio 1.2, section 5.10.6).

ghost use Rattle.std.specs.Prelude.{ℕ, Bool};
ghost use Rattle.vs_driver_parts.specs.{Conversations.poll_of, Playing.IsRingOf, Playing.Plays};
ghost use Rattle.laws_driver.specs.Honest.{IsHonest, IsHonestWith};

use crate::driver::Driver;
use vs_driver_parts::answers::Polled;
use vs_ring_port::DriverRing;

impl Driver {
    /// Takes what the device returned and puts what is owed, in this order: events, while 64 or fewer replies are owed; packets, while fewer
    /// than 64 are; transmit pages come back; owed replies are put, and then what each connection owes, by rising slot, while pages are free.
    ///
    /// The answer tells how many pages came from the receive queue, how many packets were put, and whether a transport reset was taken.
    pub fn poll<R: DriverRing>(&mut self, ring: &mut R) -> Polled
        requires ring { IsRingOf (R.size ring.old) (R.flight ring.old) (R.staged ring.old) self.old }
        requires honest { IsHonest self.old (R.contents ring.old) }
        ensures ring { IsRingOf (R.size ring.new) (R.flight ring.new) (R.staged ring.new) self.new }
        ensures calls { Plays (poll_of self.old) (R.contents ring.old) (self.new, result) (R.contents ring.new) }
        ensures honest { (hosts : Bool) (first : ℕ) → IsHonestWith hosts first self.old (R.contents ring.old) → IsHonestWith hosts first self.new (R.contents ring.new) }
    {
        let events = self.take_events(ring);
        let packets = self.take_packets(ring);
        self.reap_all(ring);
        let put = self.put_all(ring);
        Polled {
            took: packets.count,
            posted: put.count,
            reset: events.reset,
        }
    }
}
