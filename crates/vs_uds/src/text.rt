//! A short text that lies in the value itself.
ghost use Rattle.std.specs.Prelude.{◌≡◌};

use arrayvec::ArrayString;
use std::marker::Model;

/// A text of at most `MOST` bytes. It takes no memory.
#[derive(Drop)]
pub struct Text<const MOST: usize> {
    text: ArrayString<MOST>,
}

impl<const MOST: usize> Model for Text<MOST> {
    ghost use Rattle.std.specs.Prelude.{List, ℕ};

    ghost Value = { List ℕ };

    ghost view = { λ t. t.text.bytes };
}

impl<const MOST: usize> Text<MOST> {
    /// A text of these bytes.
    pub(crate) fn new(text: ArrayString<MOST>) -> Text<MOST>
        ensures { result ≡ text.entry.bytes }
    {
        Text { text }
    }

    /// The text.
    pub fn as_str(&self) -> &str
        ensures { result.now ≡ self.now }
    {
        self.text.as_str()
    }

    /// The bytes of the text.
    pub fn as_bytes(&self) -> &[u8]
        ensures { result.now ≡ self.now }
    {
        self.text.as_str().as_bytes()
    }
}
