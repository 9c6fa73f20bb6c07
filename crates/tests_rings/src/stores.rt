//! The stores of the available index: pages that are staged together are given by one.

ghost use Rattle.std.specs.Prelude.{◌≡◌, ◌+◌, ◌<◌, ◌≤◌, [], IfOk, is_some, true};
ghost use Rattle.vs_limits.specs.declared.TheConstants.{STAGED_MAX};

use std::alloc::{AllocError, Global};
use std::marker::Brand;
use std::test::Fail;
use vs_page::Page;
use vs_ring_port::{DeviceRing, DriverRing, Queue};
use vs_ring_shared::{DeviceEnd, DriverEnd, NewRings, RingName, make, named};

/// Stages so many empty pages on rx, those for which a descriptor is free, and publishes them: one store of the available index. Answers
/// whether one was free for each.
fn publish_pages<N: RingName>(
    driver: &mut DriverEnd<N>,
    alloc: Global,
    count: u16,
) -> Result<bool, AllocError>
    requires none_staged { driver.old.rx.staged ≡ [] }
    requires some { 0 < count }
    requires few { count ≤ STAGED_MAX }
    ensures none_staged { IfOk result (λ all. driver.new.rx.staged ≡ []) }
    ensures one_store { IfOk result (λ all. all ≡ true → driver.new.rx.stores ≡ driver.old.rx.stores + 1) }
{
    let mut all = true;
    for _ in 0..count {
        if driver.stage(Queue::Rx, Page::new(alloc)?).is_err() {
            all = false;
        }
    }
    driver.publish(Queue::Rx);
    Ok(all)
}

/// Twenty pages in two goes, of sixteen and of four: two stores. Answers how many the device finds given after each.
fn publish_twenty<N: RingName>(
    driver: &mut DriverEnd<N>,
    device: &mut DeviceEnd<N>,
    alloc: Global,
) -> Result<Option<(u16, u16)>, AllocError>
    requires none_staged { driver.old.rx.staged ≡ [] }
    ensures two_stores { IfOk result (λ given. is_some given ≡ true → driver.new.rx.stores ≡ driver.old.rx.stores + 2) }
{
    if !publish_pages(driver, alloc, 16)? {
        return Ok(None);
    }
    let sixteen = device.given(Queue::Rx);
    if !publish_pages(driver, alloc, 4)? {
        return Ok(None);
    }
    let twenty = device.given(Queue::Rx);
    Ok(Some((sixteen, twenty)))
}

/// The same over new rings.
fn twenty_given<N: RingName>(alloc: Global, rings: NewRings) -> Result<bool, AllocError>
    requires { rings.table ≡ N.ring }
{
    let (mut driver, mut device) = named::<N>(rings);
    let given = publish_twenty(&mut driver, &mut device, alloc)?;
    Ok(given == Some((16, 20)))
}

#[test]
fn twenty_pages_are_given_by_two_stores(rt: HostRuntime) -> Result<(), Fail> {
    let rings = make(rt.alloc(), 32)?;
    assert!(rt; twenty_given::<Brand>(rt.alloc(), rings)?);
    Ok(())
}
