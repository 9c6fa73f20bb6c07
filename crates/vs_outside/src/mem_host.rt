//! A host in memory, whose programs are played by calls of its own.
ghost use Rattle.std.specs.Prelude.{◌≡◌, ◌<◌, ◌+◌, ◌∷◌, [], not, length, filter, bytes_eq, string_bytes, MatchOption, None, Some, IsTrue, ◌↔◌, position, IfSome, IfOk, OnOk, OnErr};
ghost use Rattle.std.specs.List.{list_any};
ghost use Rattle.vs_outside.specs.{Faults.{CountsFault, one_more}, Host.{IsOpen, fails_now, is_waiting, stream_at, with_stream, after_label, read_failed, ReadsSome, IsRead}};
ghost use Rattle.vs_outside.specs.{Host.{after_read, write_failed, TakesSome, IsWritten, after_write, after_shut_write, after_close}, HostProgram.{plain, new_host, port_path}};
ghost use Rattle.vs_outside.specs.HostProgram.{after_listen, after_unlisten, after_client, has_stream, host_write_answer, after_host_write, allowed, ended, closed, after_fail};
ghost use Rattle.vs_outside.specs.HostProgram.{after_fail_start, changed, after_call, starves, adds_dialed};

use crate::fail_list::FailList;
use crate::host_net::{Accepted, Dialed, HostNet, Started, StreamRead, StreamState, StreamWrite};
use crate::mem_stream::{HostWritten, MemStream, PreparedStream, StreamChange};
use itoa::Buffer;
use std::alloc::{AllocError, Global};
use std::marker::Model;
use vs_flow::Flow;
use vs_header::Kind;

/// A path that is listened on.
#[derive(Drop)]
pub(crate) struct ListenedPath {
    text: String,
}

impl Model for ListenedPath {
    ghost use Rattle.std.specs.Prelude.{List, ℕ, string_bytes};

    ghost Value = { List ℕ };

    ghost view = { λ p. string_bytes p.text };
}

impl ListenedPath {
    /// The path as text.
    fn as_str(&self) -> &str
        ensures { result.now ≡ self.now }
    {
        self.text.as_str()
    }
}

/// A host in memory. Its streams have the ids 1, 2, 3 and so on, in the order in which clients and dials make them. It fails
/// where it is to fail, and where a dial or a write found no memory, or can count no more.
#[derive(Drop)]
pub struct MemHost {
    base: String,
    streams: Vec<MemStream>,
    /// Room for the id of each stream that has no label yet.
    labelled: Vec<u64>,
    listening: Vec<ListenedPath>,
    prepared: PreparedStream,
    to_fail: FailList,
    starts_to_fail: FailList,
    starved: bool,
    label_calls: u64,
    shut_write_calls: u64,
    faults: u64,
}

impl Model for MemHost {
    ghost use Rattle.std.specs.Prelude.{◌≤◌, ◌+◌, string_bytes, vec_len, vec_capacity};
    ghost use Rattle.vs_outside.specs.HostProgram.{HostMemory, unlabelled};

    ghost Value = { HostMemory };

    ghost view = { λ m. record {
      contents = record {
        base = string_bytes m.base;
        streams = m.streams.items;
        labelled = m.labelled.items;
        listening = m.listening.items;
        prepared = m.prepared;
        to_fail = m.to_fail;
        starts_to_fail = m.starts_to_fail;
        starved = m.starved;
        label_calls = m.label_calls;
        shut_write_calls = m.shut_write_calls;
      };
      faults = m.faults;
    } };

    ghost invariant = { λ m. vec_len m.labelled + unlabelled m.streams.items ≤ vec_capacity m.labelled };
}

impl MemHost {
    /// A host without streams at which nothing is listened on.
    pub fn new(alloc: Global, base: &str) -> Result<MemHost, AllocError>
        ensures { IfOk result (λ host. host ≡ new_host base.now [] plain) }
    {
        MemHost::prepared(alloc, base, Vec::new(alloc), PreparedStream::plain(alloc))
    }

    /// A host without streams at which these paths are listened on, and whose dials make streams like that one.
    pub(crate) fn prepared(
        alloc: Global,
        base: &str,
        listening: Vec<ListenedPath>,
        prepared: PreparedStream,
    ) -> Result<MemHost, AllocError>
        ensures { IfOk result (λ host. host ≡ new_host base.now listening.items prepared) }
    {
        Ok(MemHost {
            base: String::from_str(alloc, base)?,
            streams: Vec::new(alloc),
            labelled: Vec::new(alloc),
            listening,
            prepared,
            to_fail: FailList::new(alloc),
            starts_to_fail: FailList::new(alloc),
            starved: false,
            label_calls: 0,
            shut_write_calls: 0,
            faults: 0,
        })
    }

    /// The streams by rising id.
    pub fn streams(&self) -> &[MemStream]
        ensures { result.now ≡ self.now.contents.streams }
    {
        &self.streams
    }

    /// Whether the proxy was given the stream of that id, and hasn't closed it.
    pub fn is_open(&self, id: u64) -> bool
        ensures { IsTrue result ↔ IsOpen id self.now.contents }
    {
        match self.place(id) {
            Some(place) => self.streams[place].state() == StreamState::Open,
            None => false,
        }
    }

    /// Whether a dial or a write found no memory, or can count no more, and failed.
    pub fn starved(&self) -> bool
        ensures { result ≡ self.now.contents.starved }
    {
        self.starved
    }

    /// How many calls failed so far.
    pub fn faults(&self) -> u64
        ensures { result ≡ self.now.faults }
    {
        self.faults
    }

    /// Listens on a port for sockets of that kind, at their path. Where there is no memory for it, all is as before.
    pub fn listen(&mut self, port: u32, kind: Kind) -> Result<(), AllocError>
        ensures ok { OnOk result (self.new ≡ record self.old { contents = after_listen port kind self.old.contents }) }
        ensures err { OnErr result (self.new ≡ self.old) }
    {
        let text = port_path(*self.streams.allocator(), &self.base, port, kind)?;
        self.listening.push(ListenedPath { text })?;
        Ok(())
    }

    /// Listens on a port for sockets of that kind no more. Where there is no memory for the path's text, all is as before.
    pub fn unlisten(&mut self, port: u32, kind: Kind) -> Result<(), AllocError>
        ensures ok { OnOk result (self.new ≡ record self.old { contents = after_unlisten port kind self.old.contents }) }
        ensures err { OnErr result (self.new ≡ self.old) }
    {
        let text = port_path(*self.streams.allocator(), &self.base, port, kind)?;
        remove_path(&mut self.listening, &text);
        Ok(())
    }

    /// A client connects to the base path. Its stream, whose id is the answer, waits to be accepted. Where there is no memory for
    /// it, all is as before.
    pub fn client(&mut self) -> Result<u64, AllocError>
        ensures id { IfOk result (λ id. id ≡ length self.old.contents.streams + 1) }
        ensures ok { OnOk result (self.new ≡ record self.old { contents = after_client self.old.contents }) }
        ensures err { OnErr result (self.new ≡ self.old) }
    {
        self.labelled.reserve(self.streams.len() + 1)?;
        self.streams
            .push(MemStream::client(*self.labelled.allocator()))?;
        Ok(self.streams.len() as u64)
    }

    /// The host's program writes bytes to a stream. Where there is no memory for them, or all that it wrote there can't be counted in 64
    /// bits, all is as before.
    #[tactic(auto, using(crate::proofs::Streams::stream_there, crate::proofs::Streams::set_same))]
    pub fn host_write(&mut self, id: u64, bytes: &[u8]) -> Result<HostWritten, AllocError>
        ensures answer { IfOk result (λ answer. answer ≡ host_write_answer id self.old.contents) }
        ensures ok { IfOk result (λ answer. self.new ≡ record self.old {
          contents = after_host_write id bytes.now answer self.old.contents;
        }) }
        ensures err { OnErr result (self.new ≡ self.old) }
    {
        match self.place(id) {
            Some(place) => {
                if self.streams[place].is_over() {
                    return Ok(HostWritten::Ended);
                }
                self.streams[place].append(bytes)?;
                Ok(HostWritten::Ok)
            }
            None => Ok(HostWritten::NoStream),
        }
    }

    /// The host's program takes `n` bytes more of a stream; before the first time it takes all. Answers whether there is such a
    /// stream.
    pub fn allow(&mut self, id: u64, n: usize) -> bool
        ensures found { result ≡ has_stream id self.old.contents }
        ensures after { self.new ≡ record self.old { contents = with_stream id (allowed usize.MAX n) self.old.contents } }
    {
        self.change(id, StreamChange::Allow(n))
    }

    /// The host's program ends a stream: it writes no more. Answers whether there is such a stream.
    pub fn end(&mut self, id: u64) -> bool
        ensures found { result ≡ has_stream id self.old.contents }
        ensures after { self.new ≡ record self.old { contents = with_stream id ended self.old.contents } }
    {
        self.change(id, StreamChange::End)
    }

    /// The host's program closes a stream: it takes nothing more. Answers whether there is such a stream.
    pub fn closed(&mut self, id: u64) -> bool
        ensures found { result ≡ has_stream id self.old.contents }
        ensures after { self.new ≡ record self.old { contents = with_stream id closed self.old.contents } }
    {
        self.change(id, StreamChange::CloseByHost)
    }

    /// Changes a stream so. Answers whether there is such a stream.
    fn change(&mut self, id: u64, change: StreamChange) -> bool
        ensures found { result ≡ has_stream id self.old.contents }
        ensures after { self.new ≡ record self.old { contents = with_stream id (changed usize.MAX change) self.old.contents } }
    {
        match self.place(id) {
            Some(place) => {
                self.streams[place].change(change);
                true
            }
            None => false,
        }
    }

    /// The nth accept, dial, read or write from now fails, counted from 1. Where there is no memory to note it, all is as before.
    pub fn fail(&mut self, n: u64) -> Result<(), AllocError>
        ensures ok { OnOk result (self.new ≡ record self.old { contents = after_fail n self.old.contents }) }
        ensures err { OnErr result (self.new ≡ self.old) }
    {
        self.to_fail.add(n)
    }

    /// The nth start from now fails, counted from 1. Where there is no memory to note it, all is as before.
    pub fn fail_start(&mut self, n: u64) -> Result<(), AllocError>
        ensures ok { OnOk result (self.new ≡ record self.old { contents = after_fail_start n self.old.contents }) }
        ensures err { OnErr result (self.new ≡ self.old) }
    {
        self.starts_to_fail.add(n)
    }

    /// Counts the accept, dial, read or write that is made now. Answers whether it is to fail, and counts that fault.
    #[inline(always)]
    fn fails(&mut self) -> bool
        ensures answer { result ≡ fails_now self.old.contents }
        ensures after { self.new ≡ after_call result self.old }
    {
        let fails = self.to_fail.call();
        if fails {
            self.faults = self.faults.saturating_add(1);
        }
        fails
    }

    /// Counts a call that found no memory, or can count no more.
    fn starve(&mut self)
        ensures { self.new ≡ starves self.old }
    {
        self.starved = true;
        self.faults = self.faults.saturating_add(1);
    }

    /// Makes the stream of a dial. Where there is no memory for it, all is as before.
    fn add_dialed(&mut self, flow: Flow) -> Result<u64, AllocError>
        ensures id { IfOk result (λ id. id ≡ length self.old.contents.streams + 1) }
        ensures ok { IfOk result (λ id. self.new ≡ record self.old { contents = adds_dialed flow id self.old.contents }) }
        ensures err { OnErr result (self.new ≡ self.old) }
    {
        let stream = MemStream::dialed(*self.labelled.allocator(), flow, &self.prepared)?;
        self.labelled.reserve(self.streams.len() + 1)?;
        self.streams.push(stream)?;
        let id = self.streams.len() as u64;
        self.labelled.push_reserved(id);
        Ok(id)
    }

    /// The place of the oldest client's stream that waits to be accepted.
    fn oldest_client(&self) -> Option<usize>
        ensures first { result ≡ position is_waiting self.now.contents.streams }
        ensures fits { IfSome result (λ place. place < u64.MAX) }
    {
        self.streams.iter().position(|stream| stream.is_waiting())
    }

    /// The place of the stream of that id among the streams.
    fn place(&self, id: u64) -> Option<usize>
        ensures { MatchOption result (stream_at id self.now.contents ≡ None)
            (λ place. (id ≡ place + 1) × (place < length self.now.contents.streams)) }
    {
        if id == 0 || id > self.streams.len() as u64 {
            return None;
        }
        Some(id as usize - 1)
    }
}

impl HostNet for MemHost {
    ghost faults = { λ m. m.faults };

    ghost contents = { λ m. Some m.contents };

    fn start(&mut self, path: &str) -> Started {
        if self.starts_to_fail.call() {
            self.faults = self.faults.saturating_add(1);
            return Started::Failed;
        }
        Started::Ready
    }

    fn accept(&mut self) -> Accepted {
        if self.fails() {
            return Accepted::Failed;
        }
        match self.oldest_client() {
            Some(place) => {
                let id = place as u64 + 1;
                self.change(id, StreamChange::Accept);
                Accepted::Stream(id)
            }
            None => Accepted::None,
        }
    }

    fn dial(&mut self, path: &str, flow: Flow) -> Dialed {
        if self.fails() {
            return Dialed::Failed;
        }
        if !is_listened(&self.listening, path) {
            return Dialed::Refused;
        }
        match self.add_dialed(flow) {
            Ok(id) => Dialed::Stream(id),
            Err(_) => {
                self.starve();
                Dialed::Failed
            }
        }
    }

    fn label(&mut self, id: u64, flow: Flow)
        requires { IsOpen id self.old.contents }
        ensures { self.new ≡ record self.old { contents = after_label id flow self.old.contents } }
    {
        self.label_calls = one_more(self.label_calls);
        if !self.streams[id as usize - 1].set_label(flow) {
            return;
        }
        self.labelled.push_reserved(id);
    }

    #[inline(always)]
    fn read(&mut self, id: u64, out: &mut [u8]) -> StreamRead
        requires { IsOpen id self.old.contents }
        ensures some { ReadsSome result (length out.new) }
        ensures counts { CountsFault (read_failed result) self.old.faults self.new.faults }
        ensures exact { IsRead id result out.new self.old.contents }
        ensures after { self.new.contents ≡ after_read id result self.old.contents }
    {
        if self.fails() {
            return StreamRead::Failed;
        }
        self.streams[id as usize - 1].read(out)
    }

    fn write(&mut self, id: u64, bytes: &[u8]) -> StreamWrite
        requires { IsOpen id self.old.contents }
        ensures some { TakesSome result (length bytes.now) }
        ensures counts { CountsFault (write_failed result) self.old.faults self.new.faults }
        ensures exact { IsWritten id (length bytes.now) result self.old.contents }
        ensures after { self.new.contents ≡ after_write id bytes.now result self.old.contents }
    {
        if self.fails() {
            return StreamWrite::Failed;
        }
        let stream = &mut self.streams[id as usize - 1];
        match stream.write(bytes) {
            Ok(answer) => answer,
            Err(_) => {
                self.starve();
                StreamWrite::Failed
            }
        }
    }

    fn shut_write(&mut self, id: u64)
        requires { IsOpen id self.old.contents }
        ensures { self.new ≡ record self.old { contents = after_shut_write id self.old.contents } }
    {
        self.shut_write_calls = one_more(self.shut_write_calls);
        self.change(id, StreamChange::ShutWrite);
    }

    fn close(&mut self, id: u64)
        requires { IsOpen id self.old.contents }
        ensures { self.new ≡ record self.old { contents = after_close id self.old.contents } }
    {
        self.change(id, StreamChange::Close);
    }
}

/// A count after one more. It stands still at its last value.
fn one_more(count: u64) -> u64
    ensures { result ≡ one_more count }
{
    count.saturating_add(1)
}

/// The text of a port's path: the base path, `_`, and the port in decimal; for messages with `.seq` behind it.
fn port_path(alloc: Global, base: &str, port: u32, kind: Kind) -> Result<String, AllocError>
    ensures { IfOk result (λ text. string_bytes text ≡ port_path base.now port kind) }
{
    let mut text = String::from_str(alloc, base)?;
    text.push('_')?;
    text.push_str(Buffer::new().format(port))?;
    match kind {
        Kind::Stream => (),
        Kind::Seqpacket => text.push_str(".seq")?,
    }
    Ok(text)
}

/// That path alone.
pub(crate) fn one_path(alloc: Global, path: &str) -> Result<Vec<ListenedPath>, AllocError>
    ensures { IfOk result (λ paths. paths.items ≡ path.now ∷ []) }
{
    let mut paths = Vec::with_capacity(alloc, 1)?;
    let text = String::from_str(alloc, path)?;
    paths.push_reserved(ListenedPath { text });
    Ok(paths)
}

/// Whether the path is one of those.
fn is_listened(paths: &[ListenedPath], path: &str) -> bool
    ensures { result ≡ list_any (λ p. bytes_eq p path.now) paths.now }
{
    paths.iter().any(|p| p.as_str() == path)
}

/// Takes the path out.
fn remove_path(paths: &mut Vec<ListenedPath>, path: &str)
    ensures { paths.new.items ≡ filter (λ p. not (bytes_eq p path.now)) paths.old.items }
{
    paths.retain(|p| p.as_str() != path);
}
