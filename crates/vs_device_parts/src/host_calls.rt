//! The device's calls on the host, each as it stands in a conversation.

ghost use Rattle.std.specs.{Prelude.length, Option.ForSome};
ghost use Rattle.vs_outside.specs.Host.{IsOpen, TakesSome};
ghost use Rattle.vs_device_parts.specs.{Calls.{Label, Dial, WriteStream, ShutWrite, CloseStream}, Playing.AllowsOnHost};

use vs_flow::Flow;
use vs_outside::{Dialed, HostNet, StreamWrite};

/// Dials a path.
pub fn dial<H: HostNet>(host: &mut H, path: &str, flow: Flow) -> Dialed
    ensures { AllowsOnHost (Dial path.now flow) result (H.contents host.old) (H.faults host.old) (H.contents host.new) (H.faults host.new) }
{
    host.dial(path, flow)
}

/// Labels an open stream.
pub fn label<H: HostNet>(host: &mut H, stream: u64, flow: Flow)
    requires open { ForSome (H.contents host.old) (IsOpen stream) }
    ensures { AllowsOnHost (Label stream flow) tt (H.contents host.old) (H.faults host.old) (H.contents host.new) (H.faults host.new) }
{
    host.label(stream, flow);
}

/// Writes to an open stream.
pub fn write<H: HostNet>(host: &mut H, stream: u64, bytes: &[u8]) -> StreamWrite
    requires open { ForSome (H.contents host.old) (IsOpen stream) }
    ensures calls { AllowsOnHost (WriteStream stream bytes.now) result (H.contents host.old) (H.faults host.old) (H.contents host.new) (H.faults host.new) }
    ensures some { TakesSome result (length bytes.now) }
{
    host.write(stream, bytes)
}

/// Shuts the write side of an open stream.
pub fn shut_write<H: HostNet>(host: &mut H, stream: u64)
    requires open { ForSome (H.contents host.old) (IsOpen stream) }
    ensures { AllowsOnHost (ShutWrite stream) tt (H.contents host.old) (H.faults host.old) (H.contents host.new) (H.faults host.new) }
{
    host.shut_write(stream);
}

/// Closes an open stream.
pub fn close<H: HostNet>(host: &mut H, stream: u64)
    requires open { ForSome (H.contents host.old) (IsOpen stream) }
    ensures { AllowsOnHost (CloseStream stream) tt (H.contents host.old) (H.faults host.old) (H.contents host.new) (H.faults host.new) }
{
    host.close(stream);
}
