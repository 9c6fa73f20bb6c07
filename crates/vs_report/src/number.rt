//! A number behind a text.

ghost use Rattle.std.specs.Prelude.{◌≡◌, ◌++◌, OnOk, string_bytes, codes, decimal};

use itoa::Buffer;
use std::alloc::AllocError;

/// Appends a text, and a number behind it.
pub fn push_number(out: &mut String, before: &str, number: u64) -> Result<(), AllocError>
    ensures { OnOk result (string_bytes out.new ≡ string_bytes out.old ++ (before.now ++ decimal number)) }
{
    out.push_str(before)?;
    out.push_str(Buffer::new().format(number))
}

/// The same, and LF.
pub fn push_last(out: &mut String, before: &str, number: u64) -> Result<(), AllocError>
    ensures { OnOk result (string_bytes out.new ≡ string_bytes out.old ++ (before.now ++ decimal number ++ codes "\n")) }
{
    push_number(out, before, number)?;
    out.push_str("\n")
}
