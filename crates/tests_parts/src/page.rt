//! The packet in a page.

use std::alloc::{AllocError, Global};
use vs_header::{Header, Op};
use vs_page::{Page, packet_in, packet_payload, put_packet};

// Whether a page gives back the packet that was put.
fn keeps_its_packet(alloc: Global) -> Result<bool, AllocError> {
    let header = Header {
        src_cid: 3,
        dst_cid: 2,
        src_port: 1024,
        dst_port: 52,
        len: 5,
        kind: 1,
        op: Op::Rw.number(),
        flags: 0,
        buf_alloc: 65536,
        fwd_cnt: 0,
    };
    let mut page = Page::new(alloc)?;
    put_packet(&mut page, &header, b"hello");
    Ok(packet_in(&page) == Some(header) && packet_payload(&page, &header) == Some(b"hello"))
}

#[test]
fn a_page_holds_the_packet_that_was_put(rt: HostRuntime) {
    assert!(rt; matches!(keeps_its_packet(rt.alloc()), Ok(true)));
}
