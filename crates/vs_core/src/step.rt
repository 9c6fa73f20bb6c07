//! Events, one after another.

ghost use Rattle.laws_world.specs.{World.{from_lowest, opened_host, opening}, Events.run};
ghost use Rattle.std.specs.{Prelude.{◌≡◌, ◌≤◌, IfOk, Ok, length, map}, List.All};
ghost use Rattle.vs_ring_list.specs.Ends.{IsQueueSize};
ghost use Rattle.vs_uds.specs.declared.path.TheConstants.{BASE_MAX};
ghost use Rattle.vs_core.specs.{Ready.{IsReady, shown}, Views.{HasBits, Steps, event_view}};
ghost use Rattle.vs_core.specs.declared.event.Reply.TheVariants as reply;

use crate::event::{Event, Reply};
use crate::world::World;
use std::alloc::{AllocError, Global};

impl World {
    /// An event happens. One that isn't possible leaves the world as it is, and only a call of the guest's is answered.
    ///
    /// The only error is want of memory, and then the world may not go on.
    pub fn step(&mut self, alloc: Global, event: &Event) -> Result<Reply, AllocError>
        requires ready { IsReady self.old }
        requires bits { HasBits (event_view event.now) }
        ensures { IfOk result (Steps (event_view event.now) self.old self.new) }
    {
        match event {
            Event::GuestCalls(call) => self.guest_calls(alloc, call),
            Event::GuestTakes(queue) => silent(Ok(self.guest_takes(*queue))),
            Event::GuestReplies => silent(Ok(self.guest_replies())),
            Event::GuestPays(slot) => silent(Ok(self.guest_pays(*slot))),
            Event::GuestPublishes(queue) => silent(Ok(self.guest_publishes(*queue))),
            Event::DeviceTakes(queue) => silent(self.device_takes(*queue)),
            Event::DeviceReturns(chain) => silent(self.device_returns(chain)),
            Event::DevicePutsEvent(chain) => silent(self.device_puts_event(chain)),
            Event::DeviceReplies => silent(self.device_replies()),
            Event::DeviceReads(slot) => silent(self.device_reads(*slot)),
            Event::DevicePays(slot) => silent(self.device_pays(*slot)),
            Event::DeviceWrites(slot) => silent(self.device_writes(*slot)),
            Event::DeviceShutsWrite(slot) => silent(self.device_shuts_write(*slot)),
            Event::DeviceGrows(flow, alloc) => silent(Ok(self.device_grows(*flow, *alloc))),
            Event::ProxyAccepts => silent(self.proxy_accepts()),
            Event::ProxyReads(stream) => silent(self.proxy_reads(*stream)),
            Event::Moment(now) => silent(Ok(self.moment(*now))),
            Event::TimesOut(slot) => silent(self.times_out(*slot)),
            Event::HandshakeTimesOut(stream) => silent(self.handshake_times_out(*stream)),
            Event::Reset(cid) => silent(self.reset(*cid)),
            Event::HostListens(port) => silent(self.host_listens(*port)),
            Event::HostUnlistens(port) => silent(self.host_unlistens(*port)),
            Event::ClientConnects => silent(self.client_connects()),
            Event::HostWrites(stream, bytes) => silent(self.host_writes(*stream, bytes)),
            Event::HostTakes(stream, n) => silent(Ok(self.host_takes(*stream, *n))),
            Event::HostEnds(stream) => silent(Ok(self.host_ends(*stream))),
            Event::HostCloses(stream) => silent(Ok(self.host_closes(*stream))),
            Event::HostFails(n) => silent(self.host_fails(*n)),
        }
    }
}

// What an event that isn't a call answers.
fn silent(done: Result<(), AllocError>) -> Result<Reply, AllocError>
    ensures { IfOk result (λ told. (done ≡ Ok tt) × (told ≡ reply.None)) }
{
    done?;
    Ok(Reply::None)
}

/// A run of events from the world in which nothing has happened yet, over queues of `n` pages, which is 8, 16, 32, 64, 128 or 256, and with a
/// base path of 1 to 90 bytes. The only error is want of memory.
pub fn run(alloc: Global, n: u16, base: &str, events: &[Event]) -> Result<World, AllocError>
    requires size { IsQueueSize n }
    requires base { (1 ≤ length base.now) × (length base.now ≤ BASE_MAX) }
    requires bits { All (λ e. HasBits (event_view e)) events.now }
    ensures world { IfOk result (λ world. world ≡ shown (run (map event_view events.now) (opening (from_lowest n) (opened_host base.now)))) }
    ensures ready { IfOk result IsReady }
{
    let mut world = World::new(alloc, n, base)?;
    for event in events {
        world.step(alloc, event)?;
    }
    Ok(world)
}
