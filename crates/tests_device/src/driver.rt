//! The last guest port.

ghost use Rattle.vs_driver_parts.specs.Playing.{IsRingOf};
ghost use Rattle.laws_driver.specs.Honest.{IsHonest};

use std::alloc::Global;
use std::test::Fail;
use vs_driver::{ConnId, ConnectError, Driver};
use vs_flow::Flow;
use vs_limits::{ASSIGNED_FIRST, LAST_PORT};
use vs_ring_list::ListRings;
use vs_ring_port::DriverRing;

// Whether a connect answers this.
fn answers<R: DriverRing>(
    driver: &mut Driver,
    ring: &mut R,
    port: u32,
    answer: Result<ConnId, ConnectError>,
) -> bool
    requires ring { IsRingOf (R.size ring.old) (R.flight ring.old) (R.staged ring.old) driver.old }
    requires honest { IsHonest driver.old (R.contents ring.old) }
    ensures ring { IsRingOf (R.size ring.new) (R.flight ring.new) (R.staged ring.new) driver.new }
    ensures honest { IsHonest driver.new (R.contents ring.new) }
{
    driver.connect(ring, port) == answer
}

// Whether a port that the device assigns is refused, and the last guest port is given once.
fn gives_one<R: DriverRing>(driver: &mut Driver, ring: &mut R) -> bool
    requires ring { IsRingOf (R.size ring.old) (R.flight ring.old) (R.staged ring.old) driver.old }
    requires honest { IsHonest driver.old (R.contents ring.old) }
{
    let assigned = ConnectError::BadPort {
        port: ASSIGNED_FIRST,
    };
    let spent = ConnectError::PortsSpent {
        port: LAST_PORT,
        id: 1,
    };
    let flow = Flow::to_host(LAST_PORT, 52);
    let refused = answers(driver, ring, ASSIGNED_FIRST, Err(assigned));
    let given = answers(driver, ring, 52, Ok(1));
    let none_left = answers(driver, ring, 52, Err(spent));
    refused && given && none_left && driver.flow(1) == Some(flow)
}

// The same of a driver that has one guest port left.
fn gives_the_last(alloc: Global) -> Result<bool, Fail> {
    let mut rings = ListRings::new(alloc, 8)?;
    let mut driver = Driver::new_at(alloc, &mut rings, LAST_PORT, 1)?;
    Ok(gives_one(&mut driver, &mut rings))
}

#[test]
fn the_last_port_is_given_once(rt: HostRuntime) -> Result<(), Fail> {
    assert!(rt; gives_the_last(rt.alloc())?);
    Ok(())
}
