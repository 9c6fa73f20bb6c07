//! Single steps of the driver, each of which moves one page at most: what it does in one event of the world.

ghost use Rattle.std.specs.Prelude.{◌≡◌, ℕ, Bool};
ghost use Rattle.vs_ring_port.specs.declared.queue.Queue.TheVariants.{Tx};
ghost use Rattle.vs_driver_parts.specs.{Conversations.publish_of, Playing.{IsAtWork, IsRingOf, Plays}, Steps.{connects, sends, stages_owed, stages_reply, takes_page}};
ghost use Rattle.laws_driver.specs.{Honest.{IsHonest, IsHonestWith}, Staged.{IsAtWorkWith, IsWorkingWith}};

use crate::driver::Driver;
use vs_driver_parts::answers::{ConnId, ConnectError, Sent};
use vs_driver_parts::tally::Tally;
use vs_flow::Slot;
use vs_limits::HOST_CID;
use vs_ring_port::{DriverRing, Queue};

/// Pages staged on the queue in work and not published.
pub fn staged(driver: &Driver) -> u16
    ensures { result ≡ driver.now.staged }
{
    driver.pages.staged()
}

/// Takes one page of a queue, and does what it asks: an event while 64 or fewer replies are owed, a packet while fewer are. Its page is
/// staged again. A transmit page just comes back to the driver.
pub fn take_page<R: DriverRing>(driver: &mut Driver, ring: &mut R, queue: Queue)
    requires ring { IsAtWork queue (R.size ring.old) (R.flight ring.old) (R.staged ring.old) driver.old }
    requires honest { IsAtWorkWith queue driver.old (R.contents ring.old) }
    ensures ring { IsAtWork queue (R.size ring.new) (R.flight ring.new) (R.staged ring.new) driver.new }
    ensures calls { Plays (takes_page queue driver.old) (R.contents ring.old) driver.new (R.contents ring.new) }
    ensures same_size { R.size ring.new ≡ R.size ring.old }
    ensures honest { (hosts : Bool) (first : ℕ) → IsWorkingWith queue hosts first driver.old (R.contents ring.old)
        → IsWorkingWith queue hosts first driver.new (R.contents ring.new) }
{
    let mut tally = Tally::none();
    match queue {
        Queue::Rx => {
            driver.take_packet(ring, &mut tally);
        }
        Queue::Tx => {
            driver.reap(ring);
        }
        Queue::Event => {
            driver.take_event(ring, &mut tally);
        }
    }
}

/// Stages the oldest owed reply, if there is one and a page is free.
pub fn stage_reply<R: DriverRing>(driver: &mut Driver, ring: &mut R)
    requires ring { IsAtWork Tx (R.size ring.old) (R.flight ring.old) (R.staged ring.old) driver.old }
    requires honest { IsAtWorkWith Tx driver.old (R.contents ring.old) }
    ensures ring { IsAtWork Tx (R.size ring.new) (R.flight ring.new) (R.staged ring.new) driver.new }
    ensures calls { Plays (stages_reply driver.old) (R.contents ring.old) driver.new (R.contents ring.new) }
    ensures same_size { R.size ring.new ≡ R.size ring.old }
    ensures honest { (hosts : Bool) (first : ℕ) → IsWorkingWith Tx hosts first driver.old (R.contents ring.old) → IsWorkingWith Tx hosts first driver.new (R.contents ring.new) }
{
    let mut tally = Tally::none();
    driver.put_reply(ring, &mut tally);
}

/// Stages a packet that the connection in a slot owes, if it owes one and a page is free.
pub fn stage_owed<R: DriverRing>(driver: &mut Driver, ring: &mut R, slot: Slot)
    requires ring { IsAtWork Tx (R.size ring.old) (R.flight ring.old) (R.staged ring.old) driver.old }
    requires honest { IsAtWorkWith Tx driver.old (R.contents ring.old) }
    ensures ring { IsAtWork Tx (R.size ring.new) (R.flight ring.new) (R.staged ring.new) driver.new }
    ensures calls { Plays (stages_owed slot driver.old) (R.contents ring.old) driver.new (R.contents ring.new) }
    ensures same_size { R.size ring.new ≡ R.size ring.old }
    ensures honest { (hosts : Bool) (first : ℕ) → IsWorkingWith Tx hosts first driver.old (R.contents ring.old) → IsWorkingWith Tx hosts first driver.new (R.contents ring.new) }
{
    let mut tally = Tally::none();
    driver.put_owed(ring, slot, &mut tally);
}

/// Publishes the pages that are staged on a queue.
pub fn publish<R: DriverRing>(driver: &mut Driver, ring: &mut R, queue: Queue)
    requires ring { IsAtWork queue (R.size ring.old) (R.flight ring.old) (R.staged ring.old) driver.old }
    requires honest { IsAtWorkWith queue driver.old (R.contents ring.old) }
    ensures ring { IsRingOf (R.size ring.new) (R.flight ring.new) (R.staged ring.new) driver.new }
    ensures calls { Plays (publish_of queue driver.old) (R.contents ring.old) driver.new (R.contents ring.new) }
    ensures same_size { R.size ring.new ≡ R.size ring.old }
    ensures honest { (hosts : Bool) (first : ℕ) → IsWorkingWith queue hosts first driver.old (R.contents ring.old) → IsHonestWith hosts first driver.new (R.contents ring.new) }
{
    driver.publish(ring, queue);
}

/// Asks for a connection, as `connect` does, on the pages as they stand: none is taken back.
pub fn connect<R: DriverRing>(
    driver: &mut Driver,
    ring: &mut R,
    host_port: u32,
) -> Result<ConnId, ConnectError>
    requires ring { IsRingOf (R.size ring.old) (R.flight ring.old) (R.staged ring.old) driver.old }
    requires honest { IsHonest driver.old (R.contents ring.old) }
    ensures ring { IsRingOf (R.size ring.new) (R.flight ring.new) (R.staged ring.new) driver.new }
    ensures calls { Plays (connects host_port driver.old) (R.contents ring.old) (driver.new, result) (R.contents ring.new) }
    ensures same_size { R.size ring.new ≡ R.size ring.old }
    ensures honest { (hosts : Bool) (first : ℕ) → IsHonestWith hosts first driver.old (R.contents ring.old) → IsHonestWith hosts first driver.new (R.contents ring.new) }
{
    match driver.connect_refusal(HOST_CID, host_port) {
        Some(refusal) => Err(refusal),
        None => driver.connect_with_page(ring, HOST_CID, host_port),
    }
}

/// Sends bytes, as `send` does, on the pages as they stand: none is taken back.
pub fn send<R: DriverRing>(driver: &mut Driver, ring: &mut R, id: ConnId, bytes: &[u8]) -> Sent
    requires ring { IsRingOf (R.size ring.old) (R.flight ring.old) (R.staged ring.old) driver.old }
    requires honest { IsHonest driver.old (R.contents ring.old) }
    ensures ring { IsRingOf (R.size ring.new) (R.flight ring.new) (R.staged ring.new) driver.new }
    ensures calls { Plays (sends id bytes.now driver.old) (R.contents ring.old) (driver.new, result) (R.contents ring.new) }
    ensures same_size { R.size ring.new ≡ R.size ring.old }
    ensures honest { (hosts : Bool) (first : ℕ) → IsHonestWith hosts first driver.old (R.contents ring.old) → IsHonestWith hosts first driver.new (R.contents ring.new) }
{
    match driver.ready_to_send(id, bytes) {
        Ok((slot, most)) => driver.send_with_page(ring, slot, &bytes[..most]),
        Err(answer) => answer,
    }
}
