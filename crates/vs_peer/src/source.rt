//! Reading all of a source.
ghost use Rattle.std.specs.Prelude.{IfOk};
ghost use Rattle.vs_outside.specs.Faults.{CountsFault};
ghost use Rattle.vs_peer.specs.{Failing.source_failed, Pieces.ReadsAll};

use std::alloc::{AllocError, Global};
use vs_outside::{Source, SourceRead};

/// The most bytes that a source gives.
pub const SOURCE_MAX: usize = 1_048_576;

/// Why a source wasn't read.
#[derive(Clone, Copy, Debug, PartialEq, Eq)]
pub enum ReadError {
    /// A call of the source failed, and counted a fault.
    Fault,
    /// Memory ran out.
    OutOfMemory,
}

impl From<AllocError> for ReadError {
    ghost use Rattle.std.specs.Prelude.{◌≡◌};
    ghost use Rattle.vs_peer.specs.declared.source.ReadError.TheVariants.{OutOfMemory};

    ghost from_gives = { λ _ e. e ≡ OutOfMemory };

    fn from(_: AllocError) -> ReadError {
        ReadError::OutOfMemory
    }
}

/// Bytes that one call of the source gives at most.
const PIECE: usize = 4096;

/// Reads the source to its end, or until it gave more than `SOURCE_MAX` bytes.
pub fn read_source<S: Source>(alloc: Global, source: &mut S) -> Result<Vec<u8>, ReadError>
    ensures bytes { IfOk result (λ bytes. ReadsAll (S.contents source.old) bytes.items) }
    ensures faults { CountsFault (source_failed result) (S.faults source.old) (S.faults source.new) }
{
    let mut bytes = Vec::new(alloc);
    let mut piece = [0; PIECE];
    while bytes.len() <= SOURCE_MAX {
        match source.read(&mut piece) {
            SourceRead::Got(n) => bytes.extend_from_slice(&piece[..n])?,
            SourceRead::End => return Ok(bytes),
            SourceRead::Failed => return Err(ReadError::Fault),
        }
    }
    Ok(bytes)
}
