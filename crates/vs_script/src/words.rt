//! The words of a line, and the fields that they write, read from left to right.

ghost use Rattle.std.specs.{Prelude.{true, false, ◌≡◌, ◌≤◌, ◌<◌, ◌∷◌, [], ◌==◌, ℕ, bytes_eq, not, length, drop, IfOk, IfErr, MatchOption, Ok, Err}, List.list_all};
ghost use Rattle.std.specs.List.{position_or_len};
ghost use Rattle.vs_script.specs.{Text.{words_of, is_empty, is_graphic}, Data.content_of, Field.{word, keyword, number, number16, number32, number64, port, id, fill, content}};
ghost use Rattle.vs_script.specs.{Field.{only, IsFault}, declared.fault.Why.TheVariants.BadWord};

use crate::data::{Data, Fill};
use crate::fault::{LineFault, Why};
use crate::hex_word::hex_bytes;
use crate::number::number_in;
use std::alloc::Global;
use std::marker::Model;

/// Both bits of a shutdown.
pub const MAX_BITS: u8 = 3;

/// The words of a line that are still to be read. After a fault they are of no use.
#[derive(Drop)]
pub struct Words<'a> {
    rest: &'a [u8],
}

impl<'a> Model for Words<'a> {
    ghost use Rattle.std.specs.Prelude.{List, ℕ};
    ghost use Rattle.vs_script.specs.Text.{words_of};

    ghost Value = { List (List ℕ) };

    ghost view = { λ w. words_of w.rest.now };
}

impl<'a> Words<'a> {
    /// The words of a line.
    pub fn of(line: &'a [u8]) -> Words<'a>
        ensures { result ≡ words_of line.now }
    {
        Words { rest: line }
    }

    /// The next word.
    pub fn word(&mut self) -> Result<&'a [u8], Why>
        ensures ok { IfOk result (λ w. word self.old ≡ Ok (w.now, self.new)) }
        ensures fault { IfErr result (λ why. word self.old ≡ Err why) }
    {
        let Some((word, rest)) = next_word(self.rest) else {
            return Err(Why::BadWord);
        };
        self.rest = rest;
        if is_printable(word) {
            Ok(word)
        } else {
            Err(Why::BadWord)
        }
    }

    /// The next word, which is this one.
    pub fn keyword(&mut self, name: &[u8]) -> Result<(), Why>
        ensures ok { IfOk result (λ done. keyword name.now self.old ≡ Ok (done, self.new)) }
        ensures fault { IfErr result (λ why. keyword name.now self.old ≡ Err why) }
    {
        let word = self.word()?;
        if is(word, name) {
            Ok(())
        } else {
            Err(Why::BadWord)
        }
    }

    /// That no word is left.
    pub fn end(&mut self) -> Result<(), Why>
        ensures ok { IfOk result (λ _. is_empty self.old ≡ true) }
        ensures fault { IfErr result (λ why. (why ≡ BadWord) × (is_empty self.old ≡ false)) }
    {
        match next_word(self.rest) {
            None => Ok(()),
            Some(_) => Err(Why::BadWord),
        }
    }

    /// A number from `low` to `high`.
    pub fn number(&mut self, low: u64, high: u64) -> Result<u64, Why>
        ensures ok { IfOk result (λ n. number low high self.old ≡ Ok (n, self.new)) }
        ensures range { IfOk result (λ n. (low ≤ n) × (n ≤ high)) }
        ensures fault { IfErr result (λ why. number low high self.old ≡ Err why) }
    {
        let word = self.word()?;
        number_in(word, low, high).ok_or(Why::BadNumber)
    }

    /// A number of 32 bits from `low` to `high`.
    pub fn number32(&mut self, low: u32, high: u32) -> Result<u32, Why>
        ensures ok { IfOk result (λ n. number low high self.old ≡ Ok (n, self.new)) }
        ensures range { IfOk result (λ n. (low ≤ n) × (n ≤ high)) }
        ensures fault { IfErr result (λ why. number low high self.old ≡ Err why) }
    {
        let n = self.number(u64::from(low), u64::from(high))?;
        Ok(n as u32)
    }

    /// A number of 16 bits from `low` to `high`.
    pub fn number16(&mut self, low: u16, high: u16) -> Result<u16, Why>
        ensures ok { IfOk result (λ n. number low high self.old ≡ Ok (n, self.new)) }
        ensures range { IfOk result (λ n. (low ≤ n) × (n ≤ high)) }
        ensures fault { IfErr result (λ why. number low high self.old ≡ Err why) }
    {
        let n = self.number(u64::from(low), u64::from(high))?;
        Ok(n as u16)
    }

    /// A number of 8 bits from `low` to `high`.
    pub fn number8(&mut self, low: u8, high: u8) -> Result<u8, Why>
        ensures ok { IfOk result (λ n. number low high self.old ≡ Ok (n, self.new)) }
        ensures range { IfOk result (λ n. (low ≤ n) × (n ≤ high)) }
        ensures fault { IfErr result (λ why. number low high self.old ≡ Err why) }
    {
        let n = self.number(u64::from(low), u64::from(high))?;
        Ok(n as u8)
    }

    /// A number of 64 bits.
    pub fn any64(&mut self) -> Result<u64, Why>
        ensures ok { IfOk result (λ n. number64 self.old ≡ Ok (n, self.new)) }
        ensures fault { IfErr result (λ why. number64 self.old ≡ Err why) }
    {
        self.number(0, u64::MAX)
    }

    /// A number of 32 bits.
    pub fn any32(&mut self) -> Result<u32, Why>
        ensures ok { IfOk result (λ n. number32 self.old ≡ Ok (n, self.new)) }
        ensures fault { IfErr result (λ why. number32 self.old ≡ Err why) }
    {
        self.number32(0, u32::MAX)
    }

    /// A number of 16 bits.
    pub fn any16(&mut self) -> Result<u16, Why>
        ensures ok { IfOk result (λ n. number16 self.old ≡ Ok (n, self.new)) }
        ensures fault { IfErr result (λ why. number16 self.old ≡ Err why) }
    {
        self.number16(0, u16::MAX)
    }

    /// C or H, which names a connection or a stream: a number of 32 bits from 1 on.
    pub fn id(&mut self) -> Result<u32, Why>
        ensures ok { IfOk result (λ n. id self.old ≡ Ok (n, self.new)) }
        ensures fault { IfErr result (λ why. id self.old ≡ Err why) }
    {
        self.number32(1, u32::MAX)
    }

    /// PORT, of 32 bits, and no word more.
    pub fn only_port(&mut self) -> Result<u32, Why>
        ensures { result ≡ only port self.old }
    {
        self.only_number32(0, u32::MAX)
    }

    /// C or H, and no word more.
    pub fn only_id(&mut self) -> Result<u32, Why>
        ensures { result ≡ only id self.old }
    {
        self.only_number32(1, u32::MAX)
    }

    /// A number of 32 bits from `low` to `high`, and no word more.
    pub fn only_number32(&mut self, low: u32, high: u32) -> Result<u32, Why>
        ensures { result ≡ only (number low high) self.old }
    {
        let n = self.number32(low, high)?;
        self.end()?;
        Ok(n)
    }

    /// A number of 8 bits from `low` to `high`, and no word more.
    pub fn only_number8(&mut self, low: u8, high: u8) -> Result<u8, Why>
        ensures { result ≡ only (number low high) self.old }
    {
        let n = self.number8(low, high)?;
        self.end()?;
        Ok(n)
    }

    /// A number of 16 bits, and no word more.
    pub fn only_any16(&mut self) -> Result<u16, Why>
        ensures { result ≡ only number16 self.old }
    {
        let n = self.any16()?;
        self.end()?;
        Ok(n)
    }

    /// DATA, where `fill` fills at most `limit` bytes, and no word more.
    pub fn only_content(&mut self, alloc: Global, limit: u32) -> Result<Data, LineFault>
        ensures ok { IfOk result (λ found. only (content limit) self.old ≡ Ok (content_of found)) }
        ensures fault { IfErr result (IsFault (only (content limit) self.old)) }
    {
        let content = self.content(alloc, limit)?;
        self.end()?;
        Ok(content)
    }

    /// DATA, where `fill` fills at most `limit` bytes.
    pub fn content(&mut self, alloc: Global, limit: u32) -> Result<Data, LineFault>
        ensures ok { IfOk result (λ found. content limit self.old ≡ Ok (content_of found, self.new)) }
        ensures fault { IfErr result (IsFault (content limit self.old)) }
    {
        let word = self.word()?;
        if is(word, b"-") {
            Ok(Data::Given(Vec::new(alloc)))
        } else if is(word, b"fill") {
            Ok(self.fill(limit)?)
        } else {
            match hex_bytes(alloc, word)? {
                Some(bytes) => Ok(Data::Given(bytes)),
                None => Err(LineFault::Refused(Why::BadHex)),
            }
        }
    }

    /// `fill N S` behind its first word: N is at most `limit`.
    fn fill(&mut self, limit: u32) -> Result<Data, Why>
        ensures ok { IfOk result (λ found. fill limit self.old ≡ Ok (content_of found, self.new)) }
        ensures fault { IfErr result (λ why. fill limit self.old ≡ Err why) }
    {
        let n = self.number32(0, limit)?;
        let start = self.number8(0, u8::MAX)?;
        Ok(Data::Fill(Fill { n, start }))
    }
}

/// Whether a word is this text.
pub fn is(word: &[u8], text: &[u8]) -> bool
    ensures { result ≡ bytes_eq word.now text.now }
{
    word == text
}

/// Whether each byte of a word is printable ASCII.
fn is_printable(word: &[u8]) -> bool
    ensures { result ≡ list_all is_graphic word.now }
{
    word.iter().all(|b| is_graphic(*b))
}

/// Whether a byte is printable ASCII, and no space.
fn is_graphic(byte: u8) -> bool
    ensures { result ≡ is_graphic byte }
{
    33 <= byte && byte <= 126
}

/// The place of the first such byte, or the length where there is none.
pub fn place_of(bytes: &[u8], byte: u8) -> usize
    ensures place { result ≡ position_or_len (λ b. b == byte) bytes.now }
    ensures within { result ≤ length bytes.now }
{
    bytes.iter().position(|b| *b == byte).unwrap_or(bytes.len())
}

/// A line without the spaces that it begins with.
fn trimmed(line: &[u8]) -> &[u8]
    ensures { result.now ≡ drop (position_or_len (λ b. not (b == 32)) line.now) line.now }
{
    let start = line.iter().position(|b| *b != b' ').unwrap_or(line.len());
    &line[start..]
}

/// The first word of a line, and the line behind it, where there is a word.
pub fn next_word(line: &[u8]) -> Option<(&[u8], &[u8])>
    ensures { MatchOption result (words_of line.now ≡ []) (λ found.
        words_of line.now ≡ found.0.now ∷ words_of found.1.now) }
{
    let line = trimmed(line);
    if line.is_empty() {
        return None;
    }
    Some(line.split_at(place_of(line, b' ')))
}
