//! A host in memory whose streams are echoes.

ghost use Rattle.std.specs.{Prelude.{◌≡◌, ◌<◌, ◌+◌, ◌↔◌, [], IfOk, IsTrue, MatchOption, None, OnErr, Some, length, string_bytes}, List.All};
ghost use Rattle.vs_header.specs.declared.Kind.TheVariants.{Stream};
ghost use Rattle.vs_outside.specs.{Faults.{CountsFault, one_more}, Host.{IsOpen, IsRead, IsWritten, ReadsSome, TakesSome, after_close, after_label, after_read, after_shut_write}};
ghost use Rattle.vs_outside.specs.{Host.{after_write, is_listened, oldest_client, read_failed, stream_at, write_failed}, HostProgram.{adds_dialed, port_path, starves}};
ghost use Rattle.vs_echo.specs.Echo.{IsEcho, new_echo};

use crate::echo_stream::EchoStream;
use itoa::Buffer;
use std::alloc::{AllocError, Global};
use std::marker::Model;
use vs_flow::Flow;
use vs_outside::{Accepted, Dialed, HostNet, Started, StreamRead, StreamWrite};

/// A host in memory that listens on one port, and gives back what its streams are given. They have the ids 1, 2, 3 and so on. It fails where a
/// dial finds no memory.
#[derive(Drop)]
pub struct EchoHost {
    base: String,
    listening: String,
    streams: Vec<EchoStream>,
    starved: bool,
    label_calls: u64,
    shut_write_calls: u64,
    faults: u64,
}

impl Model for EchoHost {
    ghost use Rattle.std.specs.{Prelude.{[], ◌∷◌, length, string_bytes}, List.{All, range_with_len}};
    ghost use Rattle.vs_outside.specs.HostProgram.{HostMemory};
    ghost use Rattle.vs_echo.specs.Echo.{IsEcho, echoing};

    ghost Value = { HostMemory };

    ghost view = { λ m. record {
      contents = record {
        base = string_bytes m.base;
        streams = m.streams.items;
        labelled = range_with_len 1 (length m.streams.items);
        listening = string_bytes m.listening ∷ [];
        prepared = echoing;
        to_fail = [];
        starts_to_fail = [];
        starved = m.starved;
        label_calls = m.label_calls;
        shut_write_calls = m.shut_write_calls;
      };
      faults = m.faults;
    } };

    ghost invariant = { λ m. All IsEcho m.streams.items };
}

/// What came back of each stream, and then what waits, is what was given to it: so what came back is a prefix of that.
pub fn law_of_echoes(host: &EchoHost)
    ensures { All IsEcho host.now.contents.streams }
{
    let _count = host.streams.len();
}

impl EchoHost {
    /// A host without streams at which that port alone is listened on.
    pub fn new(alloc: Global, base: &str, port: u32) -> Result<EchoHost, AllocError>
        ensures { IfOk result (λ host. host ≡ new_echo base.now port) }
    {
        Ok(EchoHost {
            base: String::from_str(alloc, base)?,
            listening: port_path(alloc, base, port)?,
            streams: Vec::new(alloc),
            starved: false,
            label_calls: 0,
            shut_write_calls: 0,
            faults: 0,
        })
    }

    /// The streams by rising id.
    pub fn streams(&self) -> &[EchoStream]
        ensures { result.now ≡ self.now.contents.streams }
    {
        &self.streams
    }

    /// Whether the proxy was given the stream of that id, and hasn't closed it.
    pub fn is_open(&self, id: u64) -> bool
        ensures { IsTrue result ↔ IsOpen id self.now.contents }
    {
        match self.place(id) {
            Some(place) => self.streams[place].is_open(),
            None => false,
        }
    }

    /// The place of the stream of that id among the streams.
    fn place(&self, id: u64) -> Option<usize>
        ensures { MatchOption result (stream_at id self.now.contents ≡ None)
            (λ place. (id ≡ place + 1) × (place < length self.now.contents.streams)) }
    {
        if id == 0 || id > self.streams.len() as u64 {
            return None;
        }
        Some(id as usize - 1)
    }

    /// Whether a dial found no memory, and failed.
    pub fn starved(&self) -> bool
        ensures { result ≡ self.now.contents.starved }
    {
        self.starved
    }

    /// How many calls failed so far.
    pub fn faults(&self) -> u64
        ensures { result ≡ self.now.faults }
    {
        self.faults
    }

    // No call is to fail, and no client waits.
    fn law_of_calls(&self)
        ensures to_fail { self.now.contents.to_fail ≡ [] }
        ensures starts { self.now.contents.starts_to_fail ≡ [] }
        ensures clients { oldest_client self.now.contents ≡ None }
    {
        let _count = self.streams.len();
    }

    /// Counts a call that failed for want of memory.
    fn starve(&mut self)
        ensures { self.new ≡ starves self.old }
    {
        self.starved = true;
        self.faults = one_more(self.faults);
    }

    /// Whether the path is that of the port.
    fn is_listened(&self, path: &str) -> bool
        ensures { result ≡ is_listened path.now self.now.contents }
    {
        self.listening.as_str() == path
    }

    /// Makes the stream of a dial. Where there is no memory for it, all is as before.
    fn add_dialed(&mut self, flow: Flow) -> Result<u64, AllocError>
        ensures id { IfOk result (λ id. id ≡ length self.old.contents.streams + 1) }
        ensures ok { IfOk result (λ id. self.new ≡ record self.old { contents = adds_dialed flow id self.old.contents }) }
        ensures err { OnErr result (self.new ≡ self.old) }
    {
        let stream = EchoStream::dialed(*self.streams.allocator(), flow)?;
        self.streams.push(stream)?;
        Ok(self.streams.len() as u64)
    }
}

impl HostNet for EchoHost {
    ghost faults = { λ m. m.faults };

    ghost contents = { λ m. Some m.contents };

    fn start(&mut self, path: &str) -> Started {
        self.law_of_calls();
        Started::Ready
    }

    fn accept(&mut self) -> Accepted {
        self.law_of_calls();
        Accepted::None
    }

    fn dial(&mut self, path: &str, flow: Flow) -> Dialed {
        self.law_of_calls();
        if !self.is_listened(path) {
            return Dialed::Refused;
        }
        match self.add_dialed(flow) {
            Ok(id) => Dialed::Stream(id),
            Err(_) => {
                self.starve();
                Dialed::Failed
            }
        }
    }

    fn label(&mut self, id: u64, flow: Flow)
        requires { IsOpen id self.old.contents }
        ensures { self.new ≡ record self.old { contents = after_label id flow self.old.contents } }
    {
        self.label_calls = one_more(self.label_calls);
        self.streams[id as usize - 1].set_label(flow);
    }

    fn read(&mut self, id: u64, out: &mut [u8]) -> StreamRead
        requires { IsOpen id self.old.contents }
        ensures some { ReadsSome result (length out.new) }
        ensures counts { CountsFault (read_failed result) self.old.faults self.new.faults }
        ensures exact { IsRead id result out.new self.old.contents }
        ensures after { self.new.contents ≡ after_read id result self.old.contents }
    {
        self.streams[id as usize - 1].read(out)
    }

    fn write(&mut self, id: u64, bytes: &[u8]) -> StreamWrite
        requires { IsOpen id self.old.contents }
        ensures some { TakesSome result (length bytes.now) }
        ensures counts { CountsFault (write_failed result) self.old.faults self.new.faults }
        ensures exact { IsWritten id (length bytes.now) result self.old.contents }
        ensures after { self.new.contents ≡ after_write id bytes.now result self.old.contents }
    {
        self.streams[id as usize - 1].write(bytes)
    }

    fn shut_write(&mut self, id: u64)
        requires { IsOpen id self.old.contents }
        ensures { self.new ≡ record self.old { contents = after_shut_write id self.old.contents } }
    {
        self.shut_write_calls = one_more(self.shut_write_calls);
        self.streams[id as usize - 1].shut_write();
    }

    fn close(&mut self, id: u64)
        requires { IsOpen id self.old.contents }
        ensures { self.new ≡ record self.old { contents = after_close id self.old.contents } }
    {
        self.streams[id as usize - 1].close();
    }
}

/// A count after one more. It stands still at its last value.
fn one_more(count: u64) -> u64
    ensures { result ≡ one_more count }
{
    count.saturating_add(1)
}

/// The text of a port's path: the base path, `_`, and the port in decimal.
fn port_path(alloc: Global, base: &str, port: u32) -> Result<String, AllocError>
    ensures { IfOk result (λ text. string_bytes text ≡ port_path base.now port Stream) }
{
    let mut text = String::from_str(alloc, base)?;
    text.push('_')?;
    text.push_str(Buffer::new().format(port))?;
    Ok(text)
}
