//! The bytes of a bounded queue.

use std::alloc::{AllocError, Global};
use vs_buffer::ByteFifo;

// Whether bytes come out in the order in which they were put, also where they wrap round the end of the memory.
fn bytes_wrap(alloc: Global) -> Result<bool, AllocError> {
    let mut fifo = ByteFifo::new(alloc, 8)?;
    let mut out = [0; 7];
    fifo.put(b"abcdef");
    fifo.drop_front(4);
    fifo.put(b"ghijk");
    Ok(fifo.take_into(&mut out) == 7 && out == *b"efghijk")
}

#[test]
fn bytes_come_out_in_order(rt: HostRuntime) {
    assert!(rt; matches!(bytes_wrap(rt.alloc()), Ok(true)));
}
