//! The driver: its connections, the ports that it listens on, what it owes to unknown flows, and its transmit pages.

use std::marker::Model;
use vs_driver_parts::listeners::Listeners;
use vs_driver_parts::pages::Pages;
use vs_driver_parts::slots::Slots;
use vs_replies::Replies;

/// The guest's driver of a socket device (Virtio 1.2, section 5.10.6). The ring is lent to each call that needs it, and must be the one that
/// the driver was made with. All memory is taken when the driver is made.
#[derive(Drop)]
pub struct Driver {
    pub(crate) cid: u64,
    pub(crate) slots: Slots,
    pub(crate) listeners: Listeners,
    pub(crate) replies: Replies,
    pub(crate) broken: u64,
    pub(crate) pages: Pages,
}

impl Model for Driver {
    ghost use Rattle.std.specs.Prelude.{◌≡◌, ◌≤◌};
    ghost use Rattle.vs_limits.specs.declared.TheConstants.{DRIVER_REPLIES};
    ghost use Rattle.vs_driver_parts.specs.State.{DriverState};

    ghost Value = { DriverState };

    ghost view = { λ d. record {
      cid = d.cid;
      size = d.pages.size;
      next_port = d.slots.next_port;
      next_id = d.slots.next_id;
      last_port = d.slots.last_port;
      last_id = d.slots.last_id;
      table = d.slots.table;
      gone = d.slots.gone;
      clean = d.slots.clean;
      listeners = d.listeners;
      replies = d.replies.owed;
      broken = d.broken;
      in_flight = d.pages.in_flight;
      staged = d.pages.staged;
    } };

    ghost invariant = { λ d. (d.replies.capacity ≡ DRIVER_REPLIES) × (d.pages.in_flight ≤ d.pages.size) };
}
