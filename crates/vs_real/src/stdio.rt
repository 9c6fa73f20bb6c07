//! Standard input as a source, standard output as a sink.
use crate::again;
use std::io::{Read, Write};
use vs_outside::{Sink, SinkWrite, Source, SourceRead};

/// A reader as a source. Each error is a fault, and is counted.
#[derive(Drop)]
pub struct ReadSource<R> {
    reader: R,
    faults: u64,
}

impl<R: Read> ReadSource<R> {
    /// The source that reads from this reader, without a fault so far.
    pub fn new(reader: R) -> ReadSource<R> {
        ReadSource { reader, faults: 0 }
    }
}

impl<R: Read> Source for ReadSource<R> {
    ghost use Rattle.std.specs.Prelude.{None};

    ghost faults = { λ s. s.faults };

    ghost contents = { λ _. None };

    fn read(&mut self, out: &mut [u8]) -> SourceRead {
        match again::read(&mut self.reader, out) {
            Ok(0) => SourceRead::End,
            Ok(n) => SourceRead::Got(n),
            Err(_) => {
                self.faults = self.faults.saturating_add(1);
                SourceRead::Failed
            }
        }
    }
}

/// A writer as a sink. Each error, and each write that takes nothing, is a fault, and is counted.
#[derive(Drop)]
pub struct WriteSink<W> {
    writer: W,
    faults: u64,
}

impl<W: Write> WriteSink<W> {
    /// The sink that writes to this writer, without a fault so far.
    pub fn new(writer: W) -> WriteSink<W> {
        WriteSink { writer, faults: 0 }
    }
}

impl<W: Write> Sink for WriteSink<W> {
    ghost use Rattle.std.specs.Prelude.{None};

    ghost faults = { λ s. s.faults };

    ghost contents = { λ _. None };

    fn write(&mut self, bytes: &[u8]) -> SinkWrite {
        match again::write(&mut self.writer, bytes) {
            Ok(n) if n > 0 => SinkWrite::Took(n),
            _ => {
                self.faults = self.faults.saturating_add(1);
                SinkWrite::Failed
            }
        }
    }
}
