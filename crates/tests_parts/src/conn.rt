//! An end of a connection that gets more payload than it has room for.

use vs_conn::{End, Owed, Verdict, Why};
use vs_credit::Overrun;
use vs_header::{Header, Kind, Op};
use vs_limits::BUF_ALLOC;

// A stream packet of a peer that has 40,000 bytes of space and forwarded none.
fn packet(op: Op, len: u32) -> Header {
    Header {
        src_cid: 2,
        dst_cid: 3,
        src_port: 52,
        dst_port: 1024,
        len,
        kind: Kind::Stream.number(),
        op: op.number(),
        flags: 0,
        buf_alloc: 40_000,
        fwd_cnt: 0,
    }
}

// What the packet is whose payload is one byte longer than the space.
fn too_long() -> Verdict {
    let mut end = End::answer(Kind::Stream, BUF_ALLOC, &packet(Op::Request, 0));
    if end.owes() == Some(Owed::Response) {
        end.paid(Owed::Response);
    }
    end.on_packet(&packet(Op::Rw, BUF_ALLOC + 1))
}

#[test]
fn too_much_payload_is_refused(rt: HostRuntime) {
    let overrun = Overrun {
        len: BUF_ALLOC + 1,
        room: BUF_ALLOC,
    };
    assert!(rt; too_long() == Verdict::Rst(Why::Overrun(overrun)));
}
