//! Runs of apps.

ghost use Rattle.vs_ring_shared.specs.Ports.{IsRingSize};

use crate::gates::{HoldingGate, Told, WaitsFor};
use crate::running::run_hellos;
use std::alloc::{AllocError, AllocGlobal};
use std::sync::Wait;
use std::test::Fail;
use std::thread::Threads;
use vs_load::load::load;
use vs_outside::{FreeGate, StepClock};
use vs_run_apps::whole::RunError;

/// What the report of a run says of which no connection is left.
const AT_REST: &str = "\nguest open 0\ndevice open 0\n";

/// Whether a run of so many apps, each with a thread of its own, is done and leaves nothing open.
fn is_done<R: AllocGlobal + Threads + Wait + Sync>(
    rt: &R,
    apps: u32,
    queue: u16,
) -> Result<bool, AllocError>
    requires { IsRingSize queue }
{
    let mut gates = Vec::new(rt.alloc());
    for _ in 0..apps {
        gates.push(FreeGate::new())?;
    }
    let (ended, sink) = run_hellos(rt, apps, queue, 0, gates, FreeGate::new())?;
    let printed = String::from_utf8_lossy(rt.alloc(), sink.bytes())?;
    Ok(matches!(ended, Ok(0)) && printed.as_str().contains(AT_REST))
}

/// Whether a run of two apps is done, in which the first one's first step is held up until something came, and whether that came.
fn is_held_up<R: AllocGlobal + Threads + Wait + Sync>(
    rt: &R,
    waits_for: WaitsFor,
) -> Result<bool, AllocError> {
    let told = Told::new();
    let mut gates = Vec::new(rt.alloc());
    for _ in 0..2 {
        gates.push(HoldingGate::new(&told, waits_for))?;
    }
    let (ended, _sink) = run_hellos(rt, 2, 8, 0, gates, HoldingGate::new(&told, waits_for))?;
    Ok(matches!(ended, Ok(0)) && told.came())
}

/// The same of a load of two apps, which each get back what they send.
fn is_load_held_up<R: AllocGlobal + Threads + Wait + Sync>(
    rt: &R,
    waits_for: WaitsFor,
) -> Result<bool, AllocError> {
    let told = Told::new();
    let mut gates = Vec::new(rt.alloc());
    for _ in 0..2 {
        gates.push(HoldingGate::new(&told, waits_for))?;
    }
    let gate = HoldingGate::new(&told, waits_for);
    let line = load(
        rt,
        rt.alloc(),
        1,
        2,
        100,
        8,
        &mut StepClock::new(),
        gates,
        gate,
    )?;
    Ok(told.came() && line.as_str() == "conns 2 bytes 200 matched 200\n")
}

/// Whether a run ends without a report because the host doesn't start.
fn is_refused<R: AllocGlobal + Threads + Wait + Sync>(rt: &R) -> Result<bool, AllocError> {
    let gates = Vec::new(rt.alloc());
    let (ended, sink) = run_hellos(rt, 1, 8, 1, gates, FreeGate::new())?;
    Ok(matches!(ended, Err(RunError::NotStarted)) && sink.bytes().is_empty())
}

#[test]
fn call_one_waits_for_call_two(rt: HostRuntime) -> Result<(), Fail> {
    assert!(rt; is_held_up(&rt, WaitsFor::SecondApp)?);
    assert!(rt; is_load_held_up(&rt, WaitsFor::SecondApp)?);
    Ok(())
}

#[test]
fn device_turns_while_a_guest_call_holds_the_lock(rt: HostRuntime) -> Result<(), Fail> {
    assert!(rt; is_held_up(&rt, WaitsFor::Turn)?);
    assert!(rt; is_load_held_up(&rt, WaitsFor::Turn)?);
    Ok(())
}

#[test]
fn a_host_that_does_not_start_ends_the_run(rt: HostRuntime) -> Result<(), Fail> {
    assert!(rt; is_refused(&rt)?);
    Ok(())
}

#[test]
fn one_connection_over_queues_of_8(rt: HostRuntime) -> Result<(), Fail> {
    assert!(rt; is_done(&rt, 1, 8)?);
    Ok(())
}

#[test]
fn connections_of_64_apps_over_queues_of_8(rt: HostRuntime) -> Result<(), Fail> {
    assert!(rt; is_done(&rt, 64, 8)?);
    Ok(())
}

#[test]
fn connections_of_64_apps_over_queues_of_256(rt: HostRuntime) -> Result<(), Fail> {
    assert!(rt; is_done(&rt, 64, 256)?);
    Ok(())
}
