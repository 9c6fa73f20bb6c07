//! A host's streams, as the proxy uses them (Firecracker's vsock documentation).
ghost use Rattle.std.specs.{Prelude.{◌≡◌, ℕ, Option, length}, Bool.⊤, Option.ForSome};
ghost use Rattle.vs_contents.specs.Contents.{Exposes};
ghost use Rattle.vs_outside.specs.{Faults.CountsFault, Host.{HostContents, IsOpen, start_failed, start_answer, after_start, accept_failed, accept_answer, after_accept}};
ghost use Rattle.vs_outside.specs.Host.{dial_failed, IsDialed, after_dial, after_label, read_failed, ReadsSome, IsRead, after_read, write_failed, TakesSome, IsWritten};
ghost use Rattle.vs_outside.specs.Host.{after_write, after_shut_write, after_close};

use vs_flow::Flow;

/// Whether the proxy was given a stream, and whether it closed it.
#[derive(Clone, Copy, Debug, PartialEq, Eq)]
pub enum StreamState {
    /// A client made the stream, and it isn't accepted yet.
    Waiting,
    /// An accept or a dial gave it.
    Open,
    /// The proxy closed it.
    Closed,
}

/// What a start is answered by.
#[derive(Clone, Copy, Debug, PartialEq, Eq)]
pub enum Started {
    /// Clients can connect to the base path.
    Ready,
    /// The call failed, and a fault is counted.
    Failed,
}

/// What an accept is answered by.
#[derive(Clone, Copy, Debug, PartialEq, Eq)]
pub enum Accepted {
    /// A client's stream, by its id.
    Stream(u64),
    /// No client waits.
    None,
    /// The call failed, and a fault is counted.
    Failed,
}

/// What a dial is answered by.
#[derive(Clone, Copy, Debug, PartialEq, Eq)]
pub enum Dialed {
    /// A new stream, by its id.
    Stream(u64),
    /// Nobody listens at the path.
    Refused,
    /// The call failed, and a fault is counted.
    Failed,
}

/// What a read of a stream is answered by.
#[derive(Clone, Copy, Debug, PartialEq, Eq)]
pub enum StreamRead {
    /// So many bytes were read: at least one, where there was room for one.
    Got(usize),
    /// There are no bytes, and no more come.
    End,
    /// There are no bytes now.
    Again,
    /// The call failed, and a fault is counted.
    Failed,
}

/// What a write to a stream is answered by.
#[derive(Clone, Copy, Debug, PartialEq, Eq)]
pub enum StreamWrite {
    /// The stream took so many of the bytes: at least one, where there was one.
    Took(usize),
    /// The stream takes nothing now.
    Again,
    /// The host closed the stream.
    Closed,
    /// The call failed, and a fault is counted.
    Failed,
}

/// A host's streams. Each has an id of its own, which is never given twice.
///
/// A call that fails changes nothing but the count of faults, what it uses up of the calls that are to fail, and, where it
/// wasn't one of these, that the host found no memory. An accept and a read fail only on purpose.
pub trait HostNet {
    /// How many calls failed so far.
    ghost faults: { Self → ℕ };

    /// The host's streams and listeners, where it exposes them.
    ghost contents: { Self → Option HostContents };

    /// Binds the base path, at which clients connect. What is there isn't removed.
    fn start(&mut self, path: &str) -> Started
        ensures counts { CountsFault (start_failed result) (faults self.old) (faults self.new) }
        ensures exact { Exposes (contents self.old) (contents self.new) (λ c. result ≡ start_answer c) after_start };

    /// Gives the oldest client that isn't accepted yet.
    fn accept(&mut self) -> Accepted
        ensures counts { CountsFault (accept_failed result) (faults self.old) (faults self.new) }
        ensures exact { Exposes (contents self.old) (contents self.new) (λ c. result ≡ accept_answer c) (after_accept result) };

    /// Makes a new stream to whoever listens at the path, and labels it with that flow.
    fn dial(&mut self, path: &str, flow: Flow) -> Dialed
        ensures counts { CountsFault (dial_failed result) (faults self.old) (faults self.new) }
        ensures exact { Exposes (contents self.old) (contents self.new) (IsDialed path.now result) (after_dial flow result) };

    /// Labels a stream that the proxy was given and hasn't closed. The call is counted.
    fn label(&mut self, id: u64, flow: Flow)
        requires { ForSome (contents self.old) (IsOpen id) }
        ensures counts { faults self.new ≡ faults self.old }
        ensures exact { Exposes (contents self.old) (contents self.new) (λ _. ⊤) (after_label id flow) };

    /// Reads the next bytes of a stream that the proxy was given and hasn't closed, into the front of `out`.
    fn read(&mut self, id: u64, out: &mut [u8]) -> StreamRead
        requires { ForSome (contents self.old) (IsOpen id) }
        ensures some { ReadsSome result (length out.new) }
        ensures counts { CountsFault (read_failed result) (faults self.old) (faults self.new) }
        ensures exact { Exposes (contents self.old) (contents self.new) (IsRead id result out.new) (after_read id result) };

    /// Writes the first ones of these bytes to a stream that the proxy was given and hasn't closed.
    fn write(&mut self, id: u64, bytes: &[u8]) -> StreamWrite
        requires { ForSome (contents self.old) (IsOpen id) }
        ensures some { TakesSome result (length bytes.now) }
        ensures counts { CountsFault (write_failed result) (faults self.old) (faults self.new) }
        ensures exact { Exposes (contents self.old) (contents self.new)
            (IsWritten id (length bytes.now) result) (after_write id bytes.now result) };

    /// Shuts the side that the proxy writes to, of a stream that it was given and hasn't closed. The call is counted.
    fn shut_write(&mut self, id: u64)
        requires { ForSome (contents self.old) (IsOpen id) }
        ensures counts { faults self.new ≡ faults self.old }
        ensures exact { Exposes (contents self.old) (contents self.new) (λ _. ⊤) (after_shut_write id) };

    /// Closes a stream that the proxy was given and hasn't closed.
    fn close(&mut self, id: u64)
        requires { ForSome (contents self.old) (IsOpen id) }
        ensures counts { faults self.new ≡ faults self.old }
        ensures exact { Exposes (contents self.old) (contents self.new) (λ _. ⊤) (after_close id) };
}
