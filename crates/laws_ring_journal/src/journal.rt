//! A list of calls that grows by one with each call, and that can be given up.
ghost use Rattle.std.specs.Prelude.{◌≡◌, [], Some};
ghost use base.Fml.{ftrue};
ghost use Rattle.laws_ring_journal.specs.History.{History, history_code};

use std::marker::Model;
use vs_page::Page;
use vs_ring_port::{Chain, Queue};

/// The calls made so far, newest first, or nothing once the journal was given up. Only contracts see them.
#[derive(Drop)]
pub struct Journal {
    pub ghost calls: { History } by { history_code },
}

impl Model for Journal {
    ghost also_owns = { λ _. ftrue };
}

/// A call that changes what is in flight, or what an end did.
#[derive(Clone, Copy, Drop)]
pub enum Call<'a> {
    /// The driver stages a page.
    Stage(Queue, &'a Page),
    /// The driver publishes those staged on a queue.
    Publish(Queue),
    /// The driver reaps a page, or none.
    Reap(Queue),
    /// The driver loads the guest's CID.
    LoadCid,
    /// The device takes a chain, or none.
    Take(Queue),
    /// The device writes into a chain from a place on.
    Write(&'a Chain, u64, &'a [u8]),
    /// The device returns a chain with so many bytes.
    Return(&'a Chain, u32),
    /// The device publishes the guest's CID.
    PublishCid(u64),
    /// Somebody else changes the rings: from now on nothing is known of them.
    Outside,
}

impl Journal {
    ghost use Rattle.laws_ring_journal.specs.Noted.{noted};

    /// A journal of no call.
    pub fn new() -> Journal
        ensures { result.calls ≡ Some [] }
    {
        Journal {}
    }

    /// The journal with one more call.
    pub fn then(&self, _call: &Call<'_>) -> Journal
        ensures { result.calls ≡ noted self.now.calls _call.now }
    {
        Journal {}
    }
}
