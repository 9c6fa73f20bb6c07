//! Bytes as they are printed in a line.

ghost use Rattle.std.specs.Prelude.{◌≡◌, ◌++◌, OnOk, List, ℕ, string_bytes};
ghost use Rattle.hex.specs.Hex.{encode_lower};
ghost use Rattle.vs_excerpt.specs.Excerpt.{excerpt_of};
ghost use Rattle.vs_report.specs.Bytes.{data_text, counted_text, excerpt_text, shown_text, some_text};

use crate::number::push_number;
use std::alloc::AllocError;
use vs_excerpt::{AT_EACH_END, Excerpt, MAX_IN_FULL};

/// Appends bytes as they are printed: `-` for none, the hex digits of up to 64 bytes, and of more than that those of the first 16, `..` and
/// those of the last 16.
pub fn push_data(out: &mut String, bytes: &[u8]) -> Result<(), AllocError>
    ensures { OnOk result (string_bytes out.new ≡ string_bytes out.old ++ data_text bytes.now) }
{
    match bytes {
        [] => out.push_str("-"),
        _ => push_some(out, bytes),
    }
}

/// Appends how many bytes there are, and the bytes as they are printed, by an excerpt of them.
pub fn push_excerpt(out: &mut String, excerpt: &Excerpt) -> Result<(), AllocError>
    ensures { OnOk result (string_bytes out.new ≡ string_bytes out.old ++ excerpt_text excerpt.now) }
{
    push_number(out, "", excerpt.count)?;
    out.push_str(" ")?;
    push_shown(out, excerpt)
}

/// What is printed by an excerpt of bytes is what is printed of these bytes.
pub fn law_of_excerpts()
    ensures { (bytes : List ℕ) → excerpt_text (excerpt_of bytes) ≡ counted_text bytes }
{}

// Appends the bytes by an excerpt of them.
fn push_shown(out: &mut String, excerpt: &Excerpt) -> Result<(), AllocError>
    ensures { OnOk result (string_bytes out.new ≡ string_bytes out.old ++ shown_text excerpt.now) }
{
    if excerpt.count == 0 {
        return out.push_str("-");
    }
    if excerpt.count <= MAX_IN_FULL as u64 {
        return push_hex(out, &excerpt.front[..excerpt.count as usize]);
    }
    push_hex(out, &excerpt.front[..AT_EACH_END])?;
    out.push_str("..")?;
    push_hex(out, &excerpt.back)
}

// Appends bytes, all of them or their two ends.
fn push_some(out: &mut String, bytes: &[u8]) -> Result<(), AllocError>
    ensures { OnOk result (string_bytes out.new ≡ string_bytes out.old ++ some_text bytes.now) }
{
    if bytes.len() <= MAX_IN_FULL {
        return push_hex(out, bytes);
    }
    push_hex(out, &bytes[..AT_EACH_END])?;
    out.push_str("..")?;
    push_hex(out, &bytes[bytes.len() - AT_EACH_END..])
}

// Appends two hex digits for each byte.
fn push_hex(out: &mut String, bytes: &[u8]) -> Result<(), AllocError>
    ensures { OnOk result (string_bytes out.new ≡ string_bytes out.old ++ encode_lower bytes.now) }
{
    let digits = hex::encode(*out.allocator(), bytes)?;
    out.push_str(&digits)
}
