//! Flows whose ports may be used again, since both ends closed the connection cleanly.
ghost use Rattle.std.specs.Prelude.{◌≡◌, ◌≤◌, ◌==◌, [], IfOk, position};
ghost use Rattle.vs_limits.specs.declared.TheConstants.{CLEAN_PAIRS};
ghost use Rattle.vs_flow.specs.{CleanPairs.{comes_from, goes_to, kept, of_host, oldest, without_oldest}, Flow.same_flow};

use crate::flow::Flow;
use std::alloc::{AllocError, Global};
use std::marker::Model;
use vs_limits::{CLEAN_PAIRS, HOST_CID};

/// The flows whose connections were closed cleanly, the oldest first: no packet of them is on its way, so a connection may use such a pair
/// of ports again. At most `CLEAN_PAIRS` are kept.
#[derive(Drop)]
pub struct CleanPairs {
    flows: Vec<Flow>,
}

impl Model for CleanPairs {
    ghost use Rattle.std.specs.Prelude.{List};
    ghost use Rattle.vs_flow.specs.declared.flow.Flow.{Flow};

    ghost Value = { List Flow };

    ghost use Rattle.vs_flow.specs.CleanPairFields.{HasRoom};

    ghost view = { λ c. c.flows.items };

    ghost invariant = { HasRoom };
}

impl CleanPairs {
    /// Keeps no flow. The room for all is made here, and no other call takes memory.
    pub fn new(alloc: Global) -> Result<CleanPairs, AllocError>
        ensures empty { IfOk result (λ c. c ≡ []) }
    {
        Ok(CleanPairs {
            flows: Vec::with_capacity(alloc, CLEAN_PAIRS)?,
        })
    }

    /// Keeps a flow as the newest. Where `CLEAN_PAIRS` are kept, the oldest goes.
    pub fn keep(&mut self, flow: Flow)
        ensures kept { self.new ≡ kept CLEAN_PAIRS flow self.old }
    {
        if self.flows.len() >= CLEAN_PAIRS {
            self.flows.remove(0);
        }
        self.flows.push_reserved(flow);
    }

    /// The oldest flow to a port of a peer, or `None` where no flow goes there.
    pub fn oldest_to(&self, peer: u64, port: u32) -> Option<Flow>
        ensures { result ≡ oldest (goes_to peer port) self.now }
    {
        let place = place_to(&self.flows, peer, port)?;
        Some(self.flows[place])
    }

    /// The oldest flow from a guest port, or `None` where no flow goes from there.
    pub fn oldest_from(&self, guest: u32) -> Option<Flow>
        ensures { result ≡ oldest (comes_from guest) self.now }
    {
        let place = place_from(&self.flows, guest)?;
        Some(self.flows[place])
    }

    /// Keeps a flow no more. Where it is kept twice, the older one goes.
    pub fn remove(&mut self, flow: Flow)
        ensures { self.new ≡ without_oldest (same_flow flow) self.old }
    {
        if let Some(place) = place_of(&self.flows, flow) {
            self.flows.remove(place);
        }
    }

    /// Keeps the flows with the host alone.
    pub fn keep_host(&mut self)
        ensures { self.new ≡ of_host self.old }
    {
        self.flows.retain(|flow| flow.peer == HOST_CID);
    }
}

// The place of the oldest flow to a port of a peer.
fn place_to(flows: &[Flow], peer: u64, port: u32) -> Option<usize>
    ensures { result ≡ position (goes_to peer port) flows.now }
{
    flows
        .iter()
        .position(|flow| flow.peer == peer && flow.host == port)
}

// The place of the oldest flow from a guest port.
fn place_from(flows: &[Flow], guest: u32) -> Option<usize>
    ensures { result ≡ position (comes_from guest) flows.now }
{
    flows.iter().position(|flow| flow.guest == guest)
}

// The place of a flow.
fn place_of(flows: &[Flow], flow: Flow) -> Option<usize>
    ensures { result ≡ position (same_flow flow) flows.now }
{
    flows.iter().position(|other| flow == *other)
}
