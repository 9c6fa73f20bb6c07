//! A connection that has left the driver's table, and whose id isn't closed: its unread bytes stay.

ghost use Rattle.std.specs.Prelude.{◌≡◌, ◌≤◌, ◌==◌, ◌++◌, length, min, take, drop};
ghost use Rattle.vs_conn.specs.End.{view_of};
ghost use Rattle.vs_limits.specs.declared.TheConstants.{BUF_ALLOC_MAX};
ghost use Rattle.vs_driver_parts.specs.Room.{IsSpare};

use crate::answers::ConnId;
use std::marker::Model;
use vs_buffer::ByteFifo;
use vs_conn::{End, EndView};
use vs_flow::Flow;

/// A connection that is over.
#[derive(Drop)]
pub struct Gone {
    id: ConnId,
    flow: Flow,
    end: End,
    unread: ByteFifo,
}

impl Model for Gone {
    ghost use Rattle.std.specs.Prelude.{◌≤◌};
    ghost use Rattle.vs_limits.specs.declared.TheConstants.{BUF_ALLOC_MAX};
    ghost use Rattle.vs_driver_parts.specs.State.{GoneConnection};

    ghost Value = { GoneConnection };

    ghost view = { λ g. record { id = g.id; flow = g.flow; end = g.end; unread = g.unread.bytes } };

    ghost invariant = { λ g. BUF_ALLOC_MAX ≤ g.unread.capacity };
}

impl Gone {
    /// The connection with this id, flow, end and unread bytes.
    pub fn new(id: ConnId, flow: Flow, end: End, unread: ByteFifo) -> Gone
        requires room { BUF_ALLOC_MAX ≤ unread.capacity }
        ensures { result ≡ record { id = id; flow = flow; end = end; unread = unread.bytes } }
    {
        Gone {
            id,
            flow,
            end,
            unread,
        }
    }

    /// Whether it has this id.
    pub fn has_id(&self, id: ConnId) -> bool
        ensures { result ≡ (self.now.id == id) }
    {
        self.id == id
    }

    /// Its flow.
    pub fn flow(&self) -> Flow
        ensures { result ≡ self.now.flow }
    {
        self.flow
    }

    /// What its end showed last.
    pub fn end(&self) -> EndView
        ensures { result ≡ view_of self.now.end }
    {
        self.end.view()
    }

    /// Whether no byte is unread.
    pub fn is_empty(&self) -> bool
        ensures { result ≡ (length self.now.unread == 0) }
    {
        self.unread.is_empty()
    }

    /// Moves the first unread bytes to the front of `out`, as many as it holds. The rest of `out` stays.
    pub fn read(&mut self, out: &mut [u8]) -> usize
        ensures count { result ≡ min (length out.old) (length self.old.unread) }
        ensures moved { out.new ≡ take result self.old.unread ++ drop result out.old }
        ensures left { self.new ≡ record self.old { unread = drop (length out.old) self.old.unread } }
    {
        self.unread.take_into(out)
    }

    /// Its buffer, emptied.
    pub fn into_spare(self) -> ByteFifo
        ensures { IsSpare result }
    {
        let mut unread = self.unread;
        unread.clear();
        unread
    }
}
