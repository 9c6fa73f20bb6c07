//! Opening a connection from the guest, to the host or to another guest (Virtio 1.2, section 5.10.6.4).

ghost use Rattle.std.specs.Prelude.{◌≡◌, ℕ, ◌==◌, ◌&&◌, ◌||◌, ◌<◌, Bool, Some, None, Err, IfOk, IfErr};
ghost use Rattle.vs_conn.specs.{End.asked, Headers.owed_header};
ghost use Rattle.vs_header.specs.declared.Kind.TheVariants.{Stream};
ghost use Rattle.vs_flow.specs.declared.flow.Flow.{Flow};
ghost use Rattle.vs_limits.specs.declared.TheConstants.{BUF_ALLOC, HOST_CID};
ghost use Rattle.vs_driver_parts.specs.{declared.answers.ConnectError.ConnectError, Connections.{connect_refusal, connected, is_bad_cid, next_flow, route_to_host}};
ghost use Rattle.vs_driver_parts.specs.{Conversations.{connect_cid_of, connect_of, connect_to, connect_with_page}, Playing.{IsRingOf, MayPublishAll, Plays}};
ghost use Rattle.vs_driver.specs.Outcomes.{FindsNoPage, Opens, OpensCid, Refuses, RefusesCid};
ghost use Rattle.laws_driver.specs.Honest.{IsHonest, IsHonestWith};
ghost use Rattle.vs_conn.specs.declared.end.Owed.TheVariants as owed;

use crate::driver::Driver;
use vs_conn::{End, Owed};
use vs_driver_parts::answers::{ConnId, ConnectError};
use vs_driver_parts::route::route_to_host;
use vs_flow::{Flow, is_assigned};
use vs_header::{Header, Kind};
use vs_limits::{BUF_ALLOC, DRIVER_CONNECTIONS, GUEST_CID_MAX, HOST_CID, LAST_ID};
use vs_ring_port::DriverRing;

impl Driver {
    /// Asks the host for a connection to one of its ports, and gives the connection its id. The answer comes with a later `poll`. Pages that
    /// the device returned are taken back before one is needed.
    ///
    /// In this order: `BadPort` comes exactly where the device assigns the port itself, `Full` exactly where 64 slots are held, `PortsSpent`
    /// exactly where the last guest port was given and no connection to the host port may be followed by another on its ports, or the last id
    /// was given, and `NoDescriptor` exactly where as many transmit pages are in flight as the queue has descriptors.
    pub fn connect<R: DriverRing>(
        &mut self,
        ring: &mut R,
        host_port: u32,
    ) -> Result<ConnId, ConnectError>
        requires ring { IsRingOf (R.size ring.old) (R.flight ring.old) (R.staged ring.old) self.old }
        requires honest { IsHonest self.old (R.contents ring.old) }
        ensures ring { IsRingOf (R.size ring.new) (R.flight ring.new) (R.staged ring.new) self.new }
        ensures calls { Plays (connect_of host_port self.old) (R.contents ring.old) (self.new, result) (R.contents ring.new) }
        ensures honest { (hosts : Bool) (first : ℕ) → IsHonestWith hosts first self.old (R.contents ring.old)
            → IsHonestWith hosts first self.new (R.contents ring.new) }
        ensures opened { IfOk result (Opens HOST_CID host_port self.old self.new) }
        ensures refused { IfErr result (Refuses HOST_CID host_port self.old self.new) }
    {
        self.connect_to(ring, HOST_CID, host_port)
    }

    /// Asks the guest that has a CID, or the host, which has the CID 2, for a connection to one of its ports, and gives the connection its id.
    /// A guest has a CID from 3 to 4,294,967,294 (Virtio 1.2, section 5.10.4). With the CID 2 it is `connect`.
    ///
    /// In this order: `BadCid` comes exactly where the CID is the guest's own, 0, 1, or above 4,294,967,294, and nothing changes then; the
    /// other errors come as those of `connect`, `BadPort` only for the CID 2.
    pub fn connect_cid<R: DriverRing>(
        &mut self,
        ring: &mut R,
        cid: u64,
        port: u32,
    ) -> Result<ConnId, ConnectError>
        requires ring { IsRingOf (R.size ring.old) (R.flight ring.old) (R.staged ring.old) self.old }
        requires honest { IsHonest self.old (R.contents ring.old) }
        ensures ring { IsRingOf (R.size ring.new) (R.flight ring.new) (R.staged ring.new) self.new }
        ensures calls { Plays (connect_cid_of cid port self.old) (R.contents ring.old) (self.new, result) (R.contents ring.new) }
        ensures honest { (hosts : Bool) (first : ℕ) → IsHonestWith hosts first self.old (R.contents ring.old)
            → IsHonestWith ((cid == HOST_CID) && hosts) first self.new (R.contents ring.new) }
        ensures opened { IfOk result (OpensCid cid port self.old self.new) }
        ensures refused { IfErr result (RefusesCid cid port self.old self.new) }
    {
        if self.is_bad_cid(cid) {
            return Err(ConnectError::BadCid { cid });
        }
        self.connect_to(ring, cid, port)
    }

    // Whether no peer has a CID.
    fn is_bad_cid(&self, cid: u64) -> bool
        ensures { result ≡ is_bad_cid cid self.now }
    {
        cid == self.cid || cid < HOST_CID || cid > GUEST_CID_MAX as u64
    }

    // Asks a peer for a connection to one of its ports.
    fn connect_to<R: DriverRing>(
        &mut self,
        ring: &mut R,
        peer: u64,
        port: u32,
    ) -> Result<ConnId, ConnectError>
        requires ring { IsRingOf (R.size ring.old) (R.flight ring.old) (R.staged ring.old) self.old }
        requires honest { IsHonest self.old (R.contents ring.old) }
        ensures ring { IsRingOf (R.size ring.new) (R.flight ring.new) (R.staged ring.new) self.new }
        ensures calls { Plays (connect_to peer port self.old) (R.contents ring.old) (self.new, result) (R.contents ring.new) }
        ensures honest { (hosts : Bool) (first : ℕ) → IsHonestWith hosts first self.old (R.contents ring.old)
            → IsHonestWith ((peer == HOST_CID) && hosts) first self.new (R.contents ring.new) }
        ensures opened { IfOk result (Opens peer port self.old self.new) }
        ensures refused { IfErr result (Refuses peer port self.old self.new) }
    {
        if let Some(refusal) = self.connect_refusal(peer, port) {
            return Err(refusal);
        }
        self.reap_all(ring);
        self.connect_with_page(ring, peer, port)
    }

    /// Why a connect is refused before a page is looked for.
    pub(crate) fn connect_refusal(&self, peer: u64, port: u32) -> Option<ConnectError>
        ensures { result ≡ connect_refusal peer port self.now }
    {
        if peer == HOST_CID && is_assigned(port) {
            return Some(ConnectError::BadPort { port });
        }
        if self.slots.held() >= DRIVER_CONNECTIONS {
            return Some(ConnectError::Full {
                slots: DRIVER_CONNECTIONS as u32,
            });
        }
        if self.slots.next_flow(peer, port).is_none() || self.slots.next_id() > LAST_ID as u64 {
            let (port, id) = self.slots.last();
            return Some(ConnectError::PortsSpent { port, id });
        }
        None
    }

    /// Puts the REQUEST of a new connection, if a page is free.
    pub(crate) fn connect_with_page<R: DriverRing>(
        &mut self,
        ring: &mut R,
        peer: u64,
        port: u32,
    ) -> Result<ConnId, ConnectError>
        requires ring { IsRingOf (R.size ring.old) (R.flight ring.old) (R.staged ring.old) self.old }
        requires free { connect_refusal peer port self.old ≡ None }
        requires may { MayPublishAll (connect_with_page peer port self.old) (R.contents ring.old) }
        ensures ring { IsRingOf (R.size ring.new) (R.flight ring.new) (R.staged ring.new) self.new }
        ensures same_size { R.size ring.new ≡ R.size ring.old }
        ensures calls { Plays (connect_with_page peer port self.old) (R.contents ring.old) (self.new, result) (R.contents ring.new) }
        ensures opened { IfOk result (Opens peer port self.old self.new) }
        ensures refused { IfErr result (FindsNoPage self.old self.new) }
    {
        if !self.pages.has_page() {
            return Err(ConnectError::NoDescriptor {
                in_flight: self.pages.in_flight(),
            });
        }
        let header = self.request_header(peer, port);
        self.post_header(ring, &header);
        Ok(self.open(peer, port))
    }

    // Opens the connection whose REQUEST was put.
    fn open(&mut self, peer: u64, port: u32) -> ConnId
        requires free { connect_refusal peer port self.old ≡ None }
        ensures opened { self.new ≡ connected peer port self.old }
        ensures id { result ≡ self.old.next_id }
    {
        let flow = self.next_flow(peer, port);
        self.slots.open_asked(flow)
    }

    // The flow of the next connection to a port of a peer, where there is one.
    fn next_flow(&self, peer: u64, port: u32) -> Flow
        requires free { connect_refusal peer port self.now ≡ None }
        ensures { result ≡ next_flow peer port self.now }
    {
        match self.slots.next_flow(peer, port) {
            Some(flow) => flow,
            None => unreachable!(),
        }
    }

    // The header of the REQUEST of the next connection.
    fn request_header(&self, peer: u64, port: u32) -> Header
        requires free { connect_refusal peer port self.now ≡ None }
        ensures { result ≡ owed_header (asked Stream BUF_ALLOC) (route_to_host self.now.cid (next_flow peer port self.now)) owed.Request }
    {
        let flow = self.next_flow(peer, port);
        End::ask(Kind::Stream, BUF_ALLOC).owed_header(route_to_host(self.cid, flow), Owed::Request)
    }
}
