ghost use Rattle.std.specs.Prelude.{◌≡◌, ◌≤◌, ◌+◌, ◌++◌, [], ◌∷◌, ℕ, List, length, decimal};

use itoa::Buffer;
use std::marker::Model;
use xrc_edge::Text;

/// A line that is put together piece by piece. It takes no memory, and has at most 160 bytes. Contracts see the list of its bytes.
#[derive(Drop)]
pub struct TextLine {
    text: Text,
}

impl Model for TextLine {
    ghost Value = { List ℕ };

    ghost view = { λ line. line.text };

    ghost invariant = { λ line. length line.text ≤ 160 };
}

impl TextLine {
    /// The line with no bytes.
    pub fn make() -> TextLine
        ensures { result ≡ [] }
    {
        TextLine { text: Text::make() }
    }

    /// Puts a text after what stands in the line.
    pub fn add(&mut self, text: &[u8])
        requires { length self.old + length text.now ≤ 160 }
        ensures text { self.new ≡ self.old ++ text.now }
        ensures size { length self.new ≡ length self.old + length text.now }
    {
        self.text.add(text);
    }

    /// Puts a space and a number in decimal digits after what stands in the line.
    pub fn add_number(&mut self, number: u64)
        requires { length self.old ≤ 119 }
        ensures text { self.new ≡ self.old ++ 32 ∷ decimal number }
        ensures short { length self.new ≤ length self.old + 41 }
    {
        let mut digits = Buffer::new();
        self.add(b" ");
        self.add(digits.format(number).as_bytes());
    }

    /// What stands in the line.
    pub fn as_bytes(&self) -> &[u8]
        ensures { result.now ≡ self.now }
    {
        self.text.as_bytes()
    }
}
