//! One write to a stream, or one read of it, by what passes.
ghost use Rattle.std.specs.{Prelude.◌≤◌, Prelude.length, Option.ForSome};
ghost use Rattle.vs_outside.specs.{Faults.CountsFault, Host.IsOpen, Host.ReadsSome, Host.TakesSome, Host.read_failed, Host.write_failed};
ghost use Rattle.vs_peer.specs.Passing.{ReadPasses, WritePasses};

use vs_outside::{HostNet, StreamRead, StreamWrite};

/// Writes the first ones of these bytes.
pub fn write<H: HostNet>(host: &mut H, id: u64, bytes: &[u8]) -> StreamWrite
    requires some { 1 ≤ length bytes.now }
    requires open { ForSome (H.contents host.old) (IsOpen id) }
    ensures open { ForSome (H.contents host.new) (IsOpen id) }
    ensures some { TakesSome result (length bytes.now) }
    ensures passes { WritePasses id bytes.now result (H.contents host.old) (H.contents host.new) }
    ensures faults { CountsFault (write_failed result) (H.faults host.old) (H.faults host.new) }
{
    host.write(id, bytes)
}

/// Reads the next bytes into the front of `out`.
pub fn read<H: HostNet>(host: &mut H, id: u64, out: &mut [u8]) -> StreamRead
    requires open { ForSome (H.contents host.old) (IsOpen id) }
    ensures open { ForSome (H.contents host.new) (IsOpen id) }
    ensures some { ReadsSome result (length out.new) }
    ensures passes { ReadPasses id out.new result (H.contents host.old) (H.contents host.new) }
    ensures faults { CountsFault (read_failed result) (H.faults host.old) (H.faults host.new) }
{
    host.read(id, out)
}
