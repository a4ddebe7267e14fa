ghost use Rattle.std.specs.Prelude.{◌≡◌, ◌<◌, ◌≤◌, ◌+◌, ◌++◌, ◌∷◌, ◌↔◌, [], ℕ, List, IsTrue, length, take};
ghost use Rattle.xrc_edge.specs.declared.limits.TheConstants.{LONGEST_TEXT};

use crate::limits::LONGEST_TEXT;
use std::marker::Model;

/// A text that is put together piece by piece. It takes no memory, and has at most `LONGEST_TEXT` bytes. Contracts see the list of its
/// bytes.
#[derive(Drop)]
pub struct Text {
    bytes: [u8; LONGEST_TEXT],
    used: usize,
}

impl Model for Text {
    ghost Value = { List ℕ };

    ghost view = { λ text. take text.used text.bytes };

    ghost invariant = { λ text. text.used ≤ LONGEST_TEXT };
}

impl Text {
    /// The text with no bytes.
    pub fn make() -> Text
        ensures { result ≡ [] }
    {
        Text {
            bytes: [0; LONGEST_TEXT],
            used: 0,
        }
    }

    pub fn is_empty(&self) -> bool
        ensures { IsTrue result ↔ (self.now ≡ []) }
    {
        self.used == 0
    }

    pub fn clear(&mut self)
        ensures { self.new ≡ [] }
    {
        self.used = 0;
    }

    /// Puts a byte at the end.
    pub fn push(&mut self, byte: u8)
        requires { length self.old < LONGEST_TEXT }
        ensures { self.new ≡ self.old ++ byte ∷ [] }
    {
        self.bytes[self.used] = byte;
        self.used += 1;
    }

    /// Puts bytes at the end.
    pub fn add(&mut self, bytes: &[u8])
        requires { length self.old + length bytes.now ≤ LONGEST_TEXT }
        ensures { self.new ≡ self.old ++ bytes.now }
    {
        let end = self.used + bytes.len();
        self.bytes[self.used..end].copy_from_slice(bytes);
        self.used = end;
    }

    /// The bytes of the text.
    pub fn as_bytes(&self) -> &[u8]
        ensures { result.now ≡ self.now }
    {
        &self.bytes[..self.used]
    }
}
