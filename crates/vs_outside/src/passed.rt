//! What is kept of the bytes that went one way on a stream, behind the line with which a client's handshake begins.
ghost use Rattle.std.specs.Prelude.{◌≡◌, ◌<◌, ◌+◌, ◌^◌, ◌==◌, ◌++◌, ◌||◌, Bool, true, [], if◌then◌else◌, length, position, IfSome};
ghost use Rattle.vs_outside.specs.{HostBytes.{after_line, has_line}, KeptBytes.IsKept};
ghost use Rattle.vs_excerpt.specs.Excerpt.{excerpt_of};

use vs_excerpt::Excerpt;
use vs_excerpt::bytes_given::{BytesGiven, Piece};

/// The byte that ends a line, LF.
const LINE_END: u8 = b'\n';

/// The bytes that went one way on a stream: only contracts see them all.
#[derive(Drop)]
pub(crate) struct Passed {
    pub(crate) bytes: BytesGiven,
    /// What is kept of them, without the line of a client's handshake.
    pub(crate) kept: Excerpt,
    /// Whether no byte of that line is to come: it is whole, or the proxy dialled the stream.
    pub(crate) line_over: bool,
}

impl Passed {
    /// No byte, before the line of a handshake or where none comes.
    pub(crate) fn none(line_over: bool) -> Passed
        ensures bytes { result.bytes.items ≡ [] }
        ensures kept { result.kept ≡ excerpt_of [] }
        ensures line { result.line_over ≡ line_over }
    {
        Passed {
            bytes: BytesGiven::new(),
            kept: Excerpt::none(),
            line_over,
        }
    }

    /// Whether so many more can be counted in 64 bits.
    pub(crate) fn has_room_for(&self, more: usize) -> bool
        ensures { result ≡ true → self.now.kept.count + more < 2 ^ 64 }
    {
        self.kept.count <= u64::MAX - more as u64
    }

    /// These bytes go by.
    pub(crate) fn pass(&mut self, bytes: &[u8])
        requires fits { self.old.kept.count + length bytes.now < 2 ^ 64 }
        ensures bytes { self.new.bytes.items ≡ self.old.bytes.items ++ bytes.now }
        ensures kept { (by_client : Bool) → IsKept by_client self.old.bytes.items self.old.kept self.old.line_over
            → IsKept by_client self.new.bytes.items self.new.kept self.new.line_over }
    {
        let behind = behind_line(self.line_over, bytes);
        self.kept = self.kept.then(behind);
        self.line_over = is_line_over(self.line_over, bytes);
        self.bytes = self.bytes.then(&Piece { bytes });
    }
}

/// What stands behind the line in bytes that come next: all of them once it is over.
fn behind_line(line_over: bool, bytes: &[u8]) -> &[u8]
    ensures { result.now ≡ (if line_over then bytes.now else after_line bytes.now) }
{
    if line_over { bytes } else { after_line(bytes) }
}

/// Whether the line is over once these bytes came.
fn is_line_over(line_over: bool, bytes: &[u8]) -> bool
    ensures { result ≡ (line_over || has_line bytes.now) }
{
    line_over || has_line(bytes)
}

/// Whether a line ends in the bytes.
fn has_line(bytes: &[u8]) -> bool
    ensures { result ≡ has_line bytes.now }
{
    bytes.iter().any(|b| *b == LINE_END)
}

/// The bytes after the first line; none while the line isn't whole.
fn after_line(bytes: &[u8]) -> &[u8]
    ensures { result.now ≡ after_line bytes.now }
{
    match line_end(bytes) {
        Some(place) => bytes.split_at(place + 1).1,
        None => &[],
    }
}

/// Where the first LF stands.
fn line_end(bytes: &[u8]) -> Option<usize>
    ensures first { result ≡ position (λ b. b == LINE_END) bytes.now }
    ensures within { IfSome result (λ place. place < length bytes.now) }
{
    bytes.iter().position(|b| *b == LINE_END)
}
