//! The bytes of a header.

use vs_header::{Header, Kind, Op};

// The bytes of a REQUEST, written out by hand from the standard's layout.
const REQUEST: [u8; 44] = [
    0x03, 0, 0, 0, 0, 0, 0, 0, 0x02, 0, 0, 0, 0, 0, 0, 0, 0x00, 0x04, 0, 0, 0x34, 0, 0, 0, 0, 0, 0,
    0, 0x01, 0, 0x01, 0, 0, 0, 0, 0, 0x00, 0x00, 0x01, 0x00, 0, 0, 0, 0,
];

// Its fields.
fn request() -> Header {
    Header {
        src_cid: 3,
        dst_cid: 2,
        src_port: 1024,
        dst_port: 52,
        len: 0,
        kind: Kind::Stream.number(),
        op: Op::Request.number(),
        flags: 0,
        buf_alloc: 65536,
        fwd_cnt: 0,
    }
}

#[test]
fn request_to_and_from_bytes(rt: HostRuntime) {
    assert!(rt; request().encode() == REQUEST && Header::decode(&REQUEST) == request());
}
