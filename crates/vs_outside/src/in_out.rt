//! Where bytes are read from and written to, the clock, and the gate.
ghost use Rattle.std.specs.{Prelude.{◌≡◌, ◌≤◌, ℕ, Option, List, length}, Bool.⊤};
ghost use Rattle.vs_contents.specs.Contents.{Exposes};
ghost use Rattle.vs_outside.specs.{Faults.{CountsFault, one_more}, InOut.{read_failed, ReadsSome, ReadsNext, left_after, write_failed, TakesSome, written_after}};

/// What a read of a source is answered by.
#[derive(Clone, Copy, Debug, PartialEq, Eq)]
pub enum SourceRead {
    /// So many bytes were read: at least one, where there was room for one.
    Got(usize),
    /// There are no more bytes.
    End,
    /// The call failed, and a fault is counted.
    Failed,
}

/// What a write to a sink is answered by.
#[derive(Clone, Copy, Debug, PartialEq, Eq)]
pub enum SinkWrite {
    /// The sink took so many of the bytes: at least one, where there was one.
    Took(usize),
    /// The call failed, and a fault is counted.
    Failed,
}

/// Where bytes are read from, as a script.
pub trait Source {
    /// How many calls failed so far.
    ghost faults: { Self → ℕ };

    /// The bytes that are left, where the source exposes them.
    ghost contents: { Self → Option (List ℕ) };

    /// Reads the next bytes into the front of `out`. A read that fails changes nothing but the count of faults.
    fn read(&mut self, out: &mut [u8]) -> SourceRead
        ensures some { ReadsSome result (length out.new) }
        ensures counts { CountsFault (read_failed result) (faults self.old) (faults self.new) }
        ensures next { Exposes (contents self.old) (contents self.new) (ReadsNext result out.new) (left_after result) };
}

/// Where bytes are written to, as a report.
pub trait Sink {
    /// How many calls failed so far.
    ghost faults: { Self → ℕ };

    /// The bytes written so far, where the sink exposes them.
    ghost contents: { Self → Option (List ℕ) };

    /// Writes the first ones of these bytes behind those written so far. A write that fails changes nothing but the count of
    /// faults.
    fn write(&mut self, bytes: &[u8]) -> SinkWrite
        ensures some { TakesSome result (length bytes.now) }
        ensures counts { CountsFault (write_failed result) (faults self.old) (faults self.new) }
        ensures adds { Exposes (contents self.old) (contents self.new) (λ _. ⊤) (written_after result bytes.now) };
}

/// A clock, which can't fail.
pub trait Clock {
    /// The moment that was told last, in milliseconds.
    ghost moment: { Self → ℕ };

    /// The moment now, in milliseconds. It never falls.
    fn now(&mut self) -> u64
        ensures told { moment self.new ≡ result }
        ensures never_falls { moment self.old ≤ result };
}

/// What a run on threads passes before and after its steps, so that a test can hold one up there. Nothing is answered, so no
/// result depends on it.
pub trait Gate {
    /// How many pauses were made so far. The count stands still at the last number of 64 bits.
    ghost pauses: { Self → ℕ };

    /// An app is about to take the lock for a step of its own, the steps of each app counted from 1.
    fn before(&self, app: usize, step: u64);

    /// An app holds the lock.
    fn holding(&self, app: usize);

    /// The device made its nth turn, counted from 1.
    fn turned(&self, n: u64);

    /// A step or a turn moved nothing.
    fn pause(&mut self)
        ensures counts { pauses self.new ≡ one_more (pauses self.old) };
}
