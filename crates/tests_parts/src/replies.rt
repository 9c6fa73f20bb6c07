//! Replies that are owed.

use std::alloc::{AllocError, Global};
use vs_flow::Flow;
use vs_header::Kind;
use vs_replies::{Full, Replies, Reply};

// The reply on a flow of the host's port 52.
fn reply(guest: u32) -> Reply {
    Reply {
        flow: Flow {
            guest,
            host: 52,
            peer: 2,
        },
        kind: Kind::Stream,
    }
}

// Whether two replies are owed in their order, and there is no room for a third.
fn keeps_order(alloc: Global) -> Result<bool, AllocError> {
    let mut replies = Replies::new(alloc, 2)?;
    let owed = replies.owe(reply(2000)) == Ok(()) && replies.owe(reply(2001)) == Ok(());
    let full = replies.owe(reply(2002)) == Err(Full { n: 2 });
    Ok(owed && full && replies.front() == Some(reply(2000)))
}

#[test]
fn replies_are_owed_in_order(rt: HostRuntime) {
    assert!(rt; matches!(keeps_order(rt.alloc()), Ok(true)));
}
