//! Bytes of the guest come to a program of the host, and bytes of the program to the guest, one page move at a time.

ghost use Rattle.std.specs.Prelude.{OnOk};
ghost use Rattle.vs_core.specs.{Ready.IsReady, Views.HasBits, Views.event_view};

use std::alloc::{AllocError, Global};
use vs_core::{Event, GuestCall, Reply, World, run};
use vs_driver::Received;
use vs_ring_port::Queue;

// An event happens.
fn step(alloc: Global, world: &mut World, event: Event) -> Result<(), AllocError>
    requires ready { IsReady world.old }
    requires bits { HasBits (event_view event) }
    ensures ready { OnOk result (IsReady world.new) }
{
    world.step(alloc, &event)?;
    Ok(())
}

// The guest connects to a program of the host.
fn connect(alloc: Global, world: &mut World) -> Result<(), AllocError>
    requires ready { IsReady world.old }
    ensures ready { OnOk result (IsReady world.new) }
{
    step(alloc, world, Event::GuestCalls(GuestCall::Connect(52)))?;
    step(alloc, world, Event::DeviceTakes(Queue::Tx))?;
    step(alloc, world, Event::DeviceTakes(Queue::Rx))?;
    step(alloc, world, Event::DevicePays(0))?;
    step(alloc, world, Event::GuestTakes(Queue::Rx))?;
    step(alloc, world, Event::GuestPublishes(Queue::Rx))
}

// It sends two bytes, which the program reads.
fn send(alloc: Global, world: &mut World) -> Result<(), AllocError>
    requires ready { IsReady world.old }
    ensures ready { OnOk result (IsReady world.new) }
{
    let bytes = vec![in alloc; 1, 2]?;
    step(alloc, world, Event::GuestCalls(GuestCall::Send(1, bytes)))?;
    step(alloc, world, Event::DeviceTakes(Queue::Tx))?;
    step(alloc, world, Event::DeviceWrites(0))
}

// The program writes three, which the driver takes.
fn answer(alloc: Global, world: &mut World) -> Result<(), AllocError>
    requires ready { IsReady world.old }
    ensures ready { OnOk result (IsReady world.new) }
{
    let bytes = vec![in alloc; 7, 8, 9]?;
    step(alloc, world, Event::HostWrites(1, bytes))?;
    step(alloc, world, Event::DeviceTakes(Queue::Rx))?;
    step(alloc, world, Event::DeviceReads(0))?;
    step(alloc, world, Event::GuestTakes(Queue::Rx))?;
    step(alloc, world, Event::GuestPublishes(Queue::Rx))
}

// Whether the program read the two bytes.
fn is_read(world: &World) -> bool {
    match world.streams() {
        [stream] => {
            let read = stream.read_after_ok();
            read.count == 2 && read.front[..2] == [1, 2]
        }
        _ => false,
    }
}

// Whether the guest receives the three.
fn is_received(alloc: Global, world: &mut World) -> Result<bool, AllocError>
    requires { IsReady world.old }
{
    let reply = world.step(alloc, &Event::GuestCalls(GuestCall::Recv(1, 16)))?;
    match &reply {
        Reply::Received(answer, bytes) => {
            Ok(*answer == Received::Got(3) && bytes.as_slice() == [7, 8, 9].as_slice())
        }
        _ => Ok(false),
    }
}

// Whether both come through.
fn are_carried(alloc: Global, world: &mut World) -> Result<bool, AllocError>
    requires { IsReady world.old }
{
    connect(alloc, world)?;
    send(alloc, world)?;
    answer(alloc, world)?;
    Ok(is_read(world) && is_received(alloc, world)?)
}

// The same in a world at whose host a program listens.
fn is_carried(alloc: Global) -> Result<bool, AllocError> {
    let mut world = run(alloc, 8, "v.sock", &[Event::HostListens(52)])?;
    are_carried(alloc, &mut world)
}

#[test]
fn bytes_both_ways(rt: HostRuntime) {
    assert!(rt; matches!(is_carried(rt.alloc()), Ok(true)));
}
