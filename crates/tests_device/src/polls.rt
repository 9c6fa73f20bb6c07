//! The stores of the available index that one poll makes.

use crate::counting_ring::{CountingRing, Pages};
use std::alloc::{AllocError, Global};
use std::test::Fail;
use vs_driver::Driver;
use vs_page::Page;

// Twenty packets of another CID.
fn packets(alloc: Global) -> Result<Vec<Page>, AllocError> {
    let mut pages = Vec::new(alloc);
    for _ in 0..20 {
        let mut page = Page::new(alloc)?;
        page.write(0, &[0; 44]);
        pages.push(page)?;
    }
    Ok(pages)
}

// Making a driver gives 32 pages, by two stores. A poll takes the packets that wait, and makes two more stores, of 16 pages and of 4.
fn is_given_by_two_stores(alloc: Global) -> Result<bool, AllocError> {
    let mut ring = CountingRing {
        rx: Pages::new(packets(alloc)?),
        tx: Pages::new(Vec::new(alloc)),
        event: Pages::new(Vec::new(alloc)),
    };
    let mut driver = Driver::new(alloc, &mut ring)?;
    let polled = driver.poll(&mut ring);
    Ok(polled.took == 20 && ring.rx.stores() == [16, 16, 16, 4].as_slice())
}

#[test]
fn a_poll_gives_twenty_pages_by_two_stores(rt: HostRuntime) -> Result<(), Fail> {
    assert!(rt; is_given_by_two_stores(rt.alloc())?);
    Ok(())
}
