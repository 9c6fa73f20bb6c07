//! The ports that are listened on, and the connections that wait there to be accepted.

ghost use Rattle.std.specs.{Prelude.{◌≡◌, ◌+◌, ◌≤◌, [], true, false, length, nat_le, is_some, IfOk}, Option.option_map_or};
ghost use Rattle.indexmap.specs.IndexMap.{index_map_len, spare, IsEmpty};
ghost use Rattle.vs_limits.specs.declared.TheConstants.{LISTENERS, WAITING};
ghost use Rattle.vs_driver_parts.specs.{Listening.{listener_on, with_waiting, waiting_too, without_id, has_place, with_port}, Connections.without_listener, ListenerFields.others};

use crate::answers::ConnId;
use arrayvec::ArrayVec;
use indexmap::IndexMap;
use std::alloc::{AllocError, Global};
use std::marker::Model;
use std::mem;
use vs_limits::{LISTENERS, WAITING};

// Each port with the ids of the connections that wait there, oldest first.
type Ports = IndexMap<u32, ArrayVec<ConnId, WAITING>>;

/// The ports that are listened on, in the order in which that began. A port is there once.
#[derive(Drop)]
pub struct Listeners {
    ports: Ports,
    // Empty, with room for all: a map that forgets a single port may have lost that port's room, so what stays moves here.
    twin: Ports,
}

impl Model for Listeners {
    ghost use Rattle.std.specs.Prelude.{List};
    ghost use Rattle.vs_driver_parts.specs.State.{Listener};

    ghost Value = { List Listener };

    ghost use Rattle.vs_driver_parts.specs.ListenerFields.{listeners_of, AreListened};

    ghost view = { λ l. listeners_of l.ports.entries };

    ghost invariant = { AreListened };
}

#[tactic(auto, using(crate::proofs::ListenerChanges::found))]
impl Listeners {
    /// No port is listened on. There is room for all that may be.
    pub fn new(alloc: Global) -> Result<Listeners, AllocError>
        ensures { IfOk result (λ l. l ≡ []) }
    {
        let ports = IndexMap::with_capacity(alloc, LISTENERS)?;
        Ok(Listeners {
            ports,
            twin: IndexMap::with_capacity(alloc, LISTENERS)?,
        })
    }

    /// Whether a port is listened on.
    pub fn is_listened(&self, port: u32) -> bool
        ensures { result ≡ is_some (listener_on port self.now) }
    {
        self.ports.contains_key(&port)
    }

    /// Whether as many ports are listened on as may be.
    pub fn is_full(&self) -> bool
        ensures { result ≡ nat_le LISTENERS (length self.now) }
    {
        self.ports.len() >= LISTENERS
    }

    /// Listens on a port.
    pub fn listen(&mut self, port: u32)
        requires new { is_some (listener_on port self.old) ≡ false }
        requires room { nat_le LISTENERS (length self.old) ≡ false }
        ensures { self.new ≡ with_port port self.old }
    {
        self.ports.insert(port, ArrayVec::new()).unwrap();
    }

    /// Whether a place is free on a port's list.
    pub fn has_place(&self, port: u32) -> bool
        ensures { result ≡ has_place port self.now }
    {
        match self.ports.get(&port) {
            Some(waiting) => !waiting.is_full(),
            None => false,
        }
    }

    /// The ids of the connections that wait on a port, oldest first.
    pub fn waiting(&self, port: u32) -> &[ConnId]
        ensures { result.now ≡ option_map_or (λ l. l.waiting) (listener_on port self.now) [] }
    {
        match self.ports.get(&port) {
            Some(waiting) => waiting.as_slice(),
            None => &[],
        }
    }

    /// A copy of these ids.
    pub fn all_waiting(&self, port: u32) -> ArrayVec<ConnId, WAITING>
        ensures { result.items ≡ option_map_or (λ l. l.waiting) (listener_on port self.now) [] }
    {
        match self.ports.get(&port) {
            Some(waiting) => waiting.clone().unwrap(),
            None => ArrayVec::new(),
        }
    }

    /// A connection waits on a port, after all others.
    pub fn wait(&mut self, port: u32, id: ConnId)
        requires place { has_place port self.old ≡ true }
        ensures { self.new ≡ with_waiting port (waiting_too id) self.old }
    {
        match self.ports.get_mut(&port) {
            Some(waiting) => {
                waiting.push(id);
            }
            None => {}
        }
    }

    /// A connection waits on a port no more.
    pub fn leave(&mut self, port: u32, id: ConnId)
        ensures { self.new ≡ with_waiting port (without_id id) self.old }
    {
        match self.ports.get_mut(&port) {
            Some(waiting) => {
                waiting.retain(|other| *other != id);
            }
            None => {}
        }
    }

    /// A port is listened on no more.
    pub fn unlisten(&mut self, port: u32)
        ensures { self.new ≡ without_listener port self.old }
    {
        move_others(&mut self.ports, &mut self.twin, port);
        mem::swap(&mut self.ports, &mut self.twin);
    }
}

// Moves all but one port, in their order.
fn move_others(from: &mut Ports, to: &mut Ports, port: u32)
    requires empty { IsEmpty to.old }
    requires room { index_map_len from.old ≤ spare to.old }
    ensures moved { to.new.entries ≡ others port from.old.entries }
    ensures emptied { IsEmpty from.new }
    ensures room { index_map_len from.old + spare from.old ≤ spare from.new }
    ensures room_there { spare to.old ≤ index_map_len to.new + spare to.new }
{
    let all = from.len();
    for (listened, waiting) in from.drain(..all) {
        if listened != port {
            to.insert(listened, waiting).unwrap();
        }
    }
}
