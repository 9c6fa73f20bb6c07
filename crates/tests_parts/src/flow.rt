//! The table of flows.

use std::alloc::{AllocError, Global};
use vs_flow::{Flow, FlowTable};
use vs_limits::HOST_CID;

const FIRST: Flow = Flow {
    guest: 1024,
    host: 52,
    peer: HOST_CID,
};

const SECOND: Flow = Flow {
    guest: 1025,
    host: 52,
    peer: HOST_CID,
};

// Whether a table of two places is full with two entries, and finds the one that is left.
fn comes_and_goes(alloc: Global) -> Result<bool, AllocError> {
    let mut table = FlowTable::new(alloc, 2)?;
    let inserted = table.insert(FIRST, 10) == Ok(0) && table.insert(SECOND, 20) == Ok(1);
    let full = !table.has_place();
    let removed = table.remove(0) == Some(10);
    Ok(inserted && full && removed && table.by_flow(SECOND) == Some(1))
}

#[test]
fn entries_come_and_go(rt: HostRuntime) {
    assert!(rt; matches!(comes_and_goes(rt.alloc()), Ok(true)));
}
