//! The proxy's calls on the host for handshakes, each as it stands in a conversation.

ghost use Rattle.std.specs.{Prelude.◌∷◌, Prelude.[], Option.ForSome};
ghost use Rattle.vs_outside.specs.Host.{IsOpen, ReadsSome};
ghost use Rattle.vs_device_parts.specs.{Calls.Accept, Calls.CloseStream, Calls.ReadStream, Filling.bytes_read, Playing.AllowsOnHost};

use vs_outside::{Accepted, HostNet, StreamRead};

/// Accepts the client that waits longest.
pub fn accept<H: HostNet>(host: &mut H) -> Accepted
    ensures { AllowsOnHost Accept result (H.contents host.old) (H.faults host.old) (H.contents host.new) (H.faults host.new) }
{
    host.accept()
}

/// Reads one byte of an open stream. The byte counts only where one was read.
pub fn read_byte<H: HostNet>(host: &mut H, stream: u64) -> (StreamRead, u8)
    requires open { ForSome (H.contents host.old) (IsOpen stream) }
    ensures allowed { AllowsOnHost (ReadStream stream 1) (result.0, bytes_read result.0 (result.1 ∷ [])) (H.contents host.old) (H.faults host.old) (H.contents host.new) (H.faults host.new) }
    ensures some { ReadsSome result.0 1 }
{
    let mut byte = [0];
    let answer = host.read(stream, &mut byte);
    (answer, byte[0])
}

/// Closes an open stream.
pub fn close<H: HostNet>(host: &mut H, stream: u64)
    requires open { ForSome (H.contents host.old) (IsOpen stream) }
    ensures { AllowsOnHost (CloseStream stream) tt (H.contents host.old) (H.faults host.old) (H.contents host.new) (H.faults host.new) }
{
    host.close(stream);
}
