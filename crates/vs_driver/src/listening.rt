//! Listening on ports, and accepting the connections that wait there (Virtio 1.2, section 5.10.6.4).

ghost use Rattle.std.specs.Prelude.{◌≡◌, ℕ, Bool, OnOk, OnErr, Some, is_some};
ghost use Rattle.vs_driver_parts.specs.Listening.{listen_of, listening, accept_of, after_accept, is_answered, next_accepted};
ghost use Rattle.vs_ring_port.specs.Contents.{RingContents};
ghost use Rattle.laws_driver.specs.Honest.{IsHonestWith};

use crate::driver::Driver;
use vs_driver_parts::answers::{Accepted, ConnId, ListenError};
use vs_limits::LISTENERS;

impl Driver {
    /// Listens on a guest port: a REQUEST of the host for it opens a connection, which waits to be accepted.
    ///
    /// `Taken` comes exactly where the port is listened on, `Full` exactly where 16 other ports are. Then nothing changes.
    pub fn listen(&mut self, port: u32) -> Result<(), ListenError>
        ensures answer { result ≡ listen_of port self.old }
        ensures listens { OnOk result (self.new ≡ listening port self.old) }
        ensures unchanged { OnErr result (self.new ≡ self.old) }
        ensures honest { (hosts : Bool) (first : ℕ) (c : RingContents) → IsHonestWith hosts first self.old c → IsHonestWith hosts first self.new c }
    {
        if self.listeners.is_listened(port) {
            return Err(ListenError::Taken);
        }
        if self.listeners.is_full() {
            return Err(ListenError::Full {
                listeners: LISTENERS as u32,
            });
        }
        self.listeners.listen(port);
        Ok(())
    }

    /// Accepts the connection that has waited longest on a port of those whose RESPONSE was put. It waits no more.
    ///
    /// `NotListening` comes exactly where nobody listens on the port, `None` exactly where no such connection waits there.
    pub fn accept(&mut self, port: u32) -> Accepted
        ensures answer { result ≡ accept_of port self.old }
        ensures accepted { self.new ≡ after_accept port self.old }
        ensures honest { (hosts : Bool) (first : ℕ) (c : RingContents) → IsHonestWith hosts first self.old c → IsHonestWith hosts first self.new c }
    {
        if !self.listeners.is_listened(port) {
            return Accepted::NotListening;
        }
        match self.next_accepted(port) {
            Some(id) => {
                self.listeners.leave(port, id);
                Accepted::Conn(id)
            }
            None => Accepted::None,
        }
    }

    // The connection that is accepted next on a port.
    fn next_accepted(&self, port: u32) -> Option<ConnId>
        ensures { result ≡ next_accepted port self.now }
    {
        let waiting = self.listeners.waiting(port);
        waiting.iter().find(|id| self.is_answered(**id)).copied()
    }

    // Whether the RESPONSE of a connection was put.
    fn is_answered(&self, id: ConnId) -> bool
        ensures { result ≡ is_answered self.now id }
    {
        match self.slots.known(id) {
            Some(connection) => !connection.is_unanswered(),
            None => self.slots.gone_as(id).is_some(),
        }
    }
}
