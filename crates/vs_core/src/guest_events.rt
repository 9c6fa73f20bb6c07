//! What the guest does in the world: the moves of its driver, one page at a time, and its calls, each on the pages as they stand.

ghost use Rattle.std.specs.Prelude.{◌≡◌, ◌≤◌, IfOk, true};
ghost use Rattle.vs_contents.specs.CallTree.{Done};
ghost use Rattle.vs_ring_port.specs.EndLog.{pages_at};
ghost use Rattle.vs_ring_list.specs.Ends.{Ends};
ghost use Rattle.laws_world.specs.Events.{GuestCalls, GuestPays, GuestPublishes, GuestReplies, GuestTakes, is_at_rest, none_staged, works_on};
ghost use Rattle.laws_driver.specs.Carried.Calls.{makes_call};
ghost use Rattle.vs_core.specs.{Ready.{Happens, IsDrivenAtWork, IsReady}, Views.{HasBits, Steps, call_view}};
ghost use Rattle.laws_driver.specs.Carried.Calls as call;

use crate::event::{GuestCall, Reply};
use crate::world::World;
use std::alloc::{AllocError, Global};
use vs_driver::{ConnId, Driver, Received, steps};
use vs_flow::Slot;
use vs_ring_list::ListRings;
use vs_ring_port::Queue;

impl World {
    /// The driver takes a page of a queue, and stages it again.
    pub(crate) fn guest_takes(&mut self, queue: Queue)
        requires ready { IsReady self.old }
        ensures { Happens (GuestTakes queue) self.old self.new }
    {
        if works_on(&self.rings, queue) {
            steps::take_page(&mut self.driver, &mut self.rings, queue);
        }
    }

    /// The driver stages the oldest reply that it owes.
    pub(crate) fn guest_replies(&mut self)
        requires ready { IsReady self.old }
        ensures { Happens GuestReplies self.old self.new }
    {
        if works_on(&self.rings, Queue::Tx) {
            steps::stage_reply(&mut self.driver, &mut self.rings);
        }
    }

    /// The driver stages what the connection in a slot owes.
    pub(crate) fn guest_pays(&mut self, slot: Slot)
        requires ready { IsReady self.old }
        ensures { Happens (GuestPays slot) self.old self.new }
    {
        if works_on(&self.rings, Queue::Tx) {
            steps::stage_owed(&mut self.driver, &mut self.rings, slot);
        }
    }

    /// The driver publishes the pages that are staged on a queue.
    pub(crate) fn guest_publishes(&mut self, queue: Queue)
        requires ready { IsReady self.old }
        ensures { Happens (GuestPublishes queue) self.old self.new }
    {
        if works_on(&self.rings, queue) {
            steps::publish(&mut self.driver, &mut self.rings, queue);
        }
    }

    /// The guest makes a call. The only error is want of memory.
    pub(crate) fn guest_calls(
        &mut self,
        alloc: Global,
        call: &GuestCall,
    ) -> Result<Reply, AllocError>
        requires ready { IsReady self.old }
        requires bits { HasBits (GuestCalls (call_view call.now)) }
        ensures { IfOk result (Steps (GuestCalls (call_view call.now)) self.old self.new) }
    {
        if is_at_rest(&self.rings) {
            self.call(alloc, call)
        } else {
            Ok(Reply::None)
        }
    }

    // A call, where no page is staged.
    fn call(&mut self, alloc: Global, call: &GuestCall) -> Result<Reply, AllocError>
        requires ready { IsReady self.old }
        requires rest { is_at_rest self.old.rings.driver.staged ≡ true }
        requires bits { HasBits (GuestCalls (call_view call.now)) }
        ensures { IfOk result (Steps (GuestCalls (call_view call.now)) self.old self.new) }
    {
        match call {
            GuestCall::Connect(port) => Ok(self.connect(*port)),
            GuestCall::Listen(port) => Ok(self.listen(*port)),
            GuestCall::Unlisten(port) => Ok(self.unlisten(*port)),
            GuestCall::Accept(port) => Ok(self.accept(*port)),
            GuestCall::Send(id, bytes) => Ok(self.send(*id, bytes)),
            GuestCall::Recv(id, len) => self.recv(alloc, *id, *len),
            GuestCall::Shutdown(id, bits) => Ok(self.shutdown(*id, *bits)),
            GuestCall::Grow(id, alloc) => Ok(self.grow(*id, *alloc)),
            GuestCall::Close(id) => Ok(self.close(*id)),
            GuestCall::LookAt(id) => Ok(self.look_at(*id)),
        }
    }

    // The guest asks for a connection.
    fn connect(&mut self, port: u32) -> Reply
        requires ready { IsReady self.old }
        requires rest { is_at_rest self.old.rings.driver.staged ≡ true }
        ensures { Steps (GuestCalls (call.Connect port)) self.old self.new result }
    {
        Reply::Connected(steps::connect(&mut self.driver, &mut self.rings, port))
    }

    // It listens on a port.
    fn listen(&mut self, port: u32) -> Reply
        requires ready { IsReady self.old }
        requires rest { is_at_rest self.old.rings.driver.staged ≡ true }
        ensures { Steps (GuestCalls (call.Listen port)) self.old self.new result }
    {
        Reply::Listened(self.driver.listen(port))
    }

    // It listens on a port no more.
    fn unlisten(&mut self, port: u32) -> Reply
        requires ready { IsReady self.old }
        requires rest { is_at_rest self.old.rings.driver.staged ≡ true }
        ensures { Steps (GuestCalls (call.Unlisten port)) self.old self.new result }
    {
        Reply::Unlistened(self.driver.unlisten(port).is_ok())
    }

    // It accepts a connection.
    fn accept(&mut self, port: u32) -> Reply
        requires ready { IsReady self.old }
        requires rest { is_at_rest self.old.rings.driver.staged ≡ true }
        ensures { Steps (GuestCalls (call.Accept port)) self.old self.new result }
    {
        Reply::Accepted(self.driver.accept(port))
    }

    // It sends bytes on a connection.
    fn send(&mut self, id: ConnId, bytes: &[u8]) -> Reply
        requires ready { IsReady self.old }
        requires rest { is_at_rest self.old.rings.driver.staged ≡ true }
        ensures { Steps (GuestCalls (call.Send id bytes.now)) self.old self.new result }
    {
        Reply::Sent(steps::send(&mut self.driver, &mut self.rings, id, bytes))
    }

    // It receives at most so many bytes of a connection. The only error is want of memory, and then nothing changes.
    fn recv(&mut self, alloc: Global, id: ConnId, len: usize) -> Result<Reply, AllocError>
        requires ready { IsReady self.old }
        requires rest { is_at_rest self.old.rings.driver.staged ≡ true }
        ensures { IfOk result (Steps (GuestCalls (call.Recv id len)) self.old self.new) }
    {
        let (answer, bytes) = received(alloc, &mut self.driver, id, len)?;
        Ok(Reply::Received(answer, bytes))
    }

    // It shuts directions of a connection.
    fn shutdown(&mut self, id: ConnId, bits: u8) -> Reply
        requires ready { IsReady self.old }
        requires rest { is_at_rest self.old.rings.driver.staged ≡ true }
        requires bits { (1 ≤ bits) × (bits ≤ 3) }
        ensures { Steps (GuestCalls (call.Shutdown id bits)) self.old self.new result }
    {
        Reply::Shut(self.driver.shutdown(id, bits))
    }

    // It raises the buffer space of a connection.
    fn grow(&mut self, id: ConnId, alloc: u32) -> Reply
        requires ready { IsReady self.old }
        requires rest { is_at_rest self.old.rings.driver.staged ≡ true }
        ensures { Steps (GuestCalls (call.Grow id alloc)) self.old self.new result }
    {
        Reply::Grown(self.driver.grow(id, alloc))
    }

    // It closes a connection.
    fn close(&mut self, id: ConnId) -> Reply
        requires ready { IsReady self.old }
        requires rest { is_at_rest self.old.rings.driver.staged ≡ true }
        ensures { Steps (GuestCalls (call.Close id)) self.old self.new result }
    {
        Reply::Closed(self.driver.close(id))
    }

    // It asks how a connection stands.
    fn look_at(&mut self, id: ConnId) -> Reply
        requires ready { IsReady self.old }
        requires rest { is_at_rest self.old.rings.driver.staged ≡ true }
        ensures { Steps (GuestCalls (call.LookAt id)) self.old self.new result }
    {
        Reply::Looked(self.driver.state(id))
    }
}

// What a receive answers, and the bytes that it gives. The only error is want of memory, and then nothing changes.
fn received(
    alloc: Global,
    driver: &mut Driver,
    id: ConnId,
    len: usize,
) -> Result<(Received, Vec<u8>), AllocError>
    ensures made { IfOk result (λ r. makes_call (call.Recv id len) driver.old ≡ Done (driver.new, (r.0, r.1.items))) }
    ensures driven { (e : Ends) → is_at_rest e.driver.staged ≡ true → IsDrivenAtWork driver.old e → IsDrivenAtWork driver.new e }
{
    let mut out = vec![in alloc; 0; len]?;
    let answer = driver.recv(id, &mut out);
    out.truncate(answer.count());
    Ok((answer, out))
}

// Whether no page of a queue is staged.
fn none_staged(rings: &ListRings, queue: Queue) -> bool
    ensures { result ≡ none_staged (pages_at queue rings.now.driver.staged) }
{
    rings.staged(queue) == 0
}

// Whether the driver may work on a queue: no page of another is staged.
fn works_on(rings: &ListRings, queue: Queue) -> bool
    ensures { result ≡ works_on queue rings.now.driver.staged }
{
    match queue {
        Queue::Rx => none_staged(rings, Queue::Tx) && none_staged(rings, Queue::Event),
        Queue::Tx => none_staged(rings, Queue::Rx) && none_staged(rings, Queue::Event),
        Queue::Event => none_staged(rings, Queue::Rx) && none_staged(rings, Queue::Tx),
    }
}

// Whether no page is staged.
fn is_at_rest(rings: &ListRings) -> bool
    ensures { result ≡ is_at_rest rings.now.driver.staged }
{
    none_staged(rings, Queue::Rx)
        && none_staged(rings, Queue::Tx)
        && none_staged(rings, Queue::Event)
}
