//! A source, a sink, a clock and a gate in memory.
ghost use Rattle.std.specs.Prelude.{◌≡◌, ◌≤◌, ◌+◌, ◌++◌, ◌∷◌, [], min, length, Some, OnOk, OnErr};
ghost use Rattle.vs_outside.specs.{InOut.{ReadsSome, ReadsNext, TakesSome}, MemIo.{new_source, read_answer, after_read, new_sink, IsWritten, after_write}};

use crate::fail_list::FailList;
use crate::in_out::{Clock, Gate, Sink, SinkWrite, Source, SourceRead};
use std::alloc::{AllocError, Global};
use std::marker::Model;

/// A source in memory.
#[derive(Drop)]
pub struct MemSource {
    bytes: Vec<u8>,
    at: usize,
    piece: usize,
    to_fail: FailList,
    faults: u64,
}

impl Model for MemSource {
    ghost use Rattle.std.specs.Prelude.{◌≤◌, drop, vec_len};
    ghost use Rattle.vs_outside.specs.MemIo.{SourceMemory};

    ghost Value = { SourceMemory };

    ghost view = { λ s. record { left = drop s.at s.bytes.items; piece = s.piece; to_fail = s.to_fail; faults = s.faults } };

    ghost invariant = { λ s. (s.at ≤ vec_len s.bytes) × (1 ≤ s.piece) };
}

impl MemSource {
    /// A source of these bytes, of which a call reads at most `piece`, which is at least 1. No call is to fail.
    pub fn new(alloc: Global, bytes: Vec<u8>, piece: usize) -> MemSource
        requires { 1 ≤ piece }
        ensures { result ≡ new_source bytes.items piece }
    {
        MemSource {
            bytes,
            at: 0,
            piece,
            to_fail: FailList::new(alloc),
            faults: 0,
        }
    }

    /// The nth read from now fails. Where there is no memory to note it, all is as before.
    pub fn fail(&mut self, n: u64) -> Result<(), AllocError>
        ensures ok { OnOk result (self.new ≡ record self.old { to_fail = self.old.to_fail ++ n ∷ [] }) }
        ensures err { OnErr result (self.new ≡ self.old) }
    {
        self.to_fail.add(n)
    }

    /// How many calls failed so far.
    pub fn faults(&self) -> u64
        ensures { result ≡ self.now.faults }
    {
        self.faults
    }
}

impl Source for MemSource {
    ghost faults = { λ s. s.faults };

    ghost contents = { λ s. Some s.left };

    fn read(&mut self, out: &mut [u8]) -> SourceRead
        ensures some { ReadsSome result (length out.new) }
        ensures next { ReadsNext result out.new self.old.left }
        ensures answer { result ≡ read_answer (length out.old) self.old }
        ensures after { self.new ≡ after_read result self.old }
    {
        if self.to_fail.call() {
            self.faults = self.faults.saturating_add(1);
            return SourceRead::Failed;
        }
        let left = &self.bytes[self.at..];
        if left.is_empty() {
            return SourceRead::End;
        }
        let n = self.piece.min(out.len().min(left.len()));
        out[..n].copy_from_slice(&left[..n]);
        self.at += n;
        SourceRead::Got(n)
    }
}

/// A sink in memory.
#[derive(Drop)]
pub struct MemSink {
    bytes: Vec<u8>,
    piece: usize,
    to_fail: FailList,
    faults: u64,
}

impl Model for MemSink {
    ghost use Rattle.std.specs.Prelude.{◌≤◌};
    ghost use Rattle.vs_outside.specs.MemIo.{SinkMemory};

    ghost Value = { SinkMemory };

    ghost view = { λ s. record { written = s.bytes.items; piece = s.piece; to_fail = s.to_fail; faults = s.faults } };

    ghost invariant = { λ s. 1 ≤ s.piece };
}

impl MemSink {
    /// A sink without bytes, of which a call takes at most `piece`, which is at least 1. No call is to fail.
    pub fn new(alloc: Global, piece: usize) -> MemSink
        requires { 1 ≤ piece }
        ensures { result ≡ new_sink piece }
    {
        MemSink {
            bytes: Vec::new(alloc),
            piece,
            to_fail: FailList::new(alloc),
            faults: 0,
        }
    }

    /// The nth write from now fails. Where there is no memory to note it, all is as before.
    pub fn fail(&mut self, n: u64) -> Result<(), AllocError>
        ensures ok { OnOk result (self.new ≡ record self.old { to_fail = self.old.to_fail ++ n ∷ [] }) }
        ensures err { OnErr result (self.new ≡ self.old) }
    {
        self.to_fail.add(n)
    }

    /// The bytes written so far.
    pub fn bytes(&self) -> &[u8]
        ensures { result.now ≡ self.now.written }
    {
        &self.bytes
    }

    /// How many calls failed so far.
    pub fn faults(&self) -> u64
        ensures { result ≡ self.now.faults }
    {
        self.faults
    }
}

impl Sink for MemSink {
    ghost faults = { λ s. s.faults };

    ghost contents = { λ s. Some s.written };

    fn write(&mut self, bytes: &[u8]) -> SinkWrite
        ensures some { TakesSome result (length bytes.now) }
        ensures answer { IsWritten (length bytes.now) result self.old }
        ensures after { self.new ≡ after_write bytes.now result self.old }
    {
        let n = self.piece.min(bytes.len());
        if self.to_fail.call() || self.bytes.extend_from_slice(&bytes[..n]).is_err() {
            self.faults = self.faults.saturating_add(1);
            return SinkWrite::Failed;
        }
        SinkWrite::Took(n)
    }
}

/// A clock that is moved by hand, in milliseconds.
#[derive(Drop)]
pub struct StepClock {
    moment: u64,
}

impl Model for StepClock {
    ghost use Rattle.std.specs.Prelude.{ℕ};

    ghost Value = { ℕ };

    ghost view = { λ c. c.moment };
}

impl StepClock {
    /// A clock at the moment 0.
    pub fn new() -> StepClock
        ensures { result ≡ 0 }
    {
        StepClock { moment: 0 }
    }

    /// Moves the clock on by so many milliseconds, to the last moment at most.
    pub fn tick(&mut self, ms: u64)
        ensures { self.new ≡ min u64.MAX (self.old + ms) }
    {
        self.moment = self.moment.saturating_add(ms);
    }
}

impl Clock for StepClock {
    ghost moment = { λ c. c };

    fn now(&mut self) -> u64
        ensures value { result ≡ self.old }
        ensures same { self.new ≡ self.old }
    {
        self.moment
    }
}

/// A gate that holds nothing up, and counts its pauses.
#[derive(Drop)]
pub struct FreeGate {
    pauses: u64,
}

impl Model for FreeGate {
    ghost use Rattle.std.specs.Prelude.{ℕ};

    ghost Value = { ℕ };

    ghost view = { λ g. g.pauses };
}

impl FreeGate {
    /// A gate without pauses.
    pub fn new() -> FreeGate
        ensures { result ≡ 0 }
    {
        FreeGate { pauses: 0 }
    }

    /// How many pauses were made so far.
    pub fn pauses(&self) -> u64
        ensures { result ≡ self.now }
    {
        self.pauses
    }
}

impl Gate for FreeGate {
    ghost pauses = { λ g. g };

    fn before(&self, app: usize, step: u64) {}

    fn holding(&self, app: usize) {}

    fn turned(&self, n: u64) {}

    fn pause(&mut self) {
        self.pauses = self.pauses.saturating_add(1);
    }
}
