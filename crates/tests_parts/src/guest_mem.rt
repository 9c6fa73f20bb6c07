//! A memory that changes between accesses.

use std::alloc::{AllocError, Global};
use vs_guest_mem::PlainMem;

// Whether two changes come before the second access, in their order, and none before the first.
fn changes(alloc: Global) -> Result<bool, AllocError> {
    let mut mem = PlainMem::new(alloc, 4096, 16)?;
    mem.change_before(alloc, 2, 4101, &[7, 7])?;
    mem.change_before(alloc, 2, 4102, &[8])?;
    let mut first = [9; 4];
    let mut second = [9; 4];
    let read = mem.read(4100, &mut first).is_ok() && mem.read(4100, &mut second).is_ok();
    Ok(read && first == [0; 4] && second == [0, 7, 8, 0])
}

#[test]
fn changes_come_before_their_access(rt: HostRuntime) {
    assert!(rt; matches!(changes(rt.alloc()), Ok(true)));
}
