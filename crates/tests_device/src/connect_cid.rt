//! Connections with another guest.

ghost use Rattle.vs_driver_parts.specs.Playing.{IsRingOf};
ghost use Rattle.laws_driver.specs.Honest.{IsHonest};

use crate::counting_ring::{CountingRing, Pages};
use std::alloc::{AllocError, Global};
use std::test::Fail;
use vs_driver::{ConnId, ConnectError, ConnectionState, Driver};
use vs_flow::Flow;
use vs_header::{Header, Kind, Op};
use vs_limits::{ASSIGNED_FIRST, FIRST_PORT};
use vs_page::{Page, put_packet};
use vs_ring_port::DriverRing;

// Whether a connect answers this.
fn answers<R: DriverRing>(
    driver: &mut Driver,
    ring: &mut R,
    cid: u64,
    port: u32,
    answer: Result<ConnId, ConnectError>,
) -> bool
    requires ring { IsRingOf (R.size ring.old) (R.flight ring.old) (R.staged ring.old) driver.old }
    requires honest { IsHonest driver.old (R.contents ring.old) }
    ensures ring { IsRingOf (R.size ring.new) (R.flight ring.new) (R.staged ring.new) driver.new }
    ensures honest { IsHonest driver.new (R.contents ring.new) }
{
    driver.connect_cid(ring, cid, port) == answer
}

// Whether a CID that no peer has is refused.
fn refuses<R: DriverRing>(driver: &mut Driver, ring: &mut R, cid: u64) -> bool
    requires ring { IsRingOf (R.size ring.old) (R.flight ring.old) (R.staged ring.old) driver.old }
    requires honest { IsHonest driver.old (R.contents ring.old) }
    ensures ring { IsRingOf (R.size ring.new) (R.flight ring.new) (R.staged ring.new) driver.new }
    ensures honest { IsHonest driver.new (R.contents ring.new) }
{
    answers(driver, ring, cid, 70, Err(ConnectError::BadCid { cid }))
}

// Whether the CIDs that no peer has are refused, and a port that the device assigns of the host alone, for a guest whose CID is 3.
fn asks_one<R: DriverRing>(driver: &mut Driver, ring: &mut R) -> bool
    requires ring { IsRingOf (R.size ring.old) (R.flight ring.old) (R.staged ring.old) driver.old }
    requires honest { IsHonest driver.old (R.contents ring.old) }
    ensures ring { IsRingOf (R.size ring.new) (R.flight ring.new) (R.staged ring.new) driver.new }
    ensures honest { IsHonest driver.new (R.contents ring.new) }
{
    let assigned = ConnectError::BadPort {
        port: ASSIGNED_FIRST,
    };
    let own = refuses(driver, ring, 3);
    let zero = refuses(driver, ring, 0);
    let one = refuses(driver, ring, 1);
    let high = refuses(driver, ring, 4_294_967_295);
    let host = answers(driver, ring, 2, ASSIGNED_FIRST, Err(assigned));
    let guest = answers(driver, ring, 4, ASSIGNED_FIRST, Ok(1));
    own && zero && one && high && host && guest
}

// A page with a RESPONSE from the guest 4 for this CID.
fn response(alloc: Global, cid: u64) -> Result<Page, AllocError> {
    let mut page = Page::new(alloc)?;
    let header = Header {
        src_cid: 4,
        dst_cid: cid,
        src_port: ASSIGNED_FIRST,
        dst_port: FIRST_PORT,
        len: 0,
        kind: Kind::Stream.number(),
        op: Op::Response.number(),
        flags: 0,
        buf_alloc: 65_536,
        fwd_cnt: 0,
    };
    put_packet(&mut page, &header, &[]);
    Ok(page)
}

// The state in which a connection with the guest 4 is, where the guest has the CID 3, once a RESPONSE came that is for this CID.
fn answered(alloc: Global, cid: u64) -> Result<Option<ConnectionState>, AllocError> {
    let mut returned = Vec::new(alloc);
    returned.push(response(alloc, cid)?)?;
    let mut ring = CountingRing {
        rx: Pages::new(returned),
        tx: Pages::new(Vec::new(alloc)),
        event: Pages::new(Vec::new(alloc)),
    };
    let mut driver = Driver::new(alloc, &mut ring)?;
    let asked = asks_one(&mut driver, &mut ring);
    let polled = driver.poll(&mut ring);
    let flow = Flow {
        guest: FIRST_PORT,
        host: ASSIGNED_FIRST,
        peer: 4,
    };
    let is_right = asked && polled.took == 1 && driver.flow(1) == Some(flow);
    Ok(is_right.then_some(driver.state(1)))
}

#[test]
fn a_guest_is_asked(rt: HostRuntime) -> Result<(), Fail> {
    assert!(rt; answered(rt.alloc(), 3)? == Some(ConnectionState::Live));
    Ok(())
}

#[test]
fn a_packet_for_another_cid_is_dropped(rt: HostRuntime) -> Result<(), Fail> {
    assert!(rt; answered(rt.alloc(), 9)? == Some(ConnectionState::Asked));
    Ok(())
}
