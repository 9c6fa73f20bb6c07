//! Bytes as hex digits.

ghost use Rattle.std.specs.Prelude.{◌≡◌, IfOk, option_map, vec_items};
ghost use Rattle.vs_script.specs.Field.{hex_of};

use hex::FromHexError;
use std::alloc::{AllocError, Global};

/// The most hex digits of a word of bytes.
pub const MAX_HEX: usize = 4096;

/// The bytes that a word of 2 to 4,096 hex digits writes, two digits a byte.
pub fn hex_bytes(alloc: Global, word: &[u8]) -> Result<Option<Vec<u8>>, AllocError>
    ensures { IfOk result (λ found. option_map vec_items found ≡ hex_of word.now) }
{
    if word.len() < 2 || word.len() > MAX_HEX {
        return Ok(None);
    }
    match hex::decode(alloc, word) {
        Ok(bytes) => Ok(Some(bytes)),
        Err(fault) => match fault {
            FromHexError::OutOfMemory => Err(AllocError),
            _ => Ok(None),
        },
    }
}
