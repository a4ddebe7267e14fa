ghost use Rattle.std.specs.Prelude.{◌≡◌, ◌≤◌, ◌++◌, ◌∷◌, ◌↔◌, ◌==◌, [], ℕ, List, IsTrue, length};
ghost use Rattle.xrc_edge.specs.declared.limits.TheConstants.{LONGEST_LINE};
ghost use Rattle.std.specs.List.{position};
ghost use Rattle.consistency.specs.Courses.{first_line};

use std::marker::Model;
use xrc_edge::Text;

/// What was heard of a line, with its line feed: at most `LONGEST_TEXT` bytes. It takes no memory. Contracts see the list of its bytes.
#[derive(Drop)]
pub struct LineText {
    text: Text,
}

impl Model for LineText {
    ghost Value = { List ℕ };

    ghost view = { λ line. line.text };
}

impl LineText {
    /// The text of a line of which nothing was heard yet.
    pub fn make() -> LineText
        ensures { result ≡ [] }
    {
        LineText { text: Text::make() }
    }

    /// What was heard, with the line feed.
    pub fn as_bytes(&self) -> &[u8]
        ensures { result.now ≡ self.now }
    {
        self.text.as_bytes()
    }

    /// What was heard before the line feed.
    pub fn line(&self) -> &[u8]
        ensures { result.now ≡ first_line self.now }
    {
        let bytes = self.as_bytes();
        let end = feed_place(bytes).unwrap_or(bytes.len());
        &bytes[..end]
    }

    pub(crate) fn is_empty(&self) -> bool
        ensures { IsTrue result ↔ (self.now ≡ []) }
    {
        self.text.is_empty()
    }

    pub(crate) fn clear(&mut self)
        ensures { self.new ≡ [] }
    {
        self.text.clear();
    }

    pub(crate) fn push(&mut self, byte: u8)
        requires { length self.old ≤ LONGEST_LINE }
        ensures { self.new ≡ self.old ++ byte ∷ [] }
    {
        self.text.push(byte);
    }
}

// The place of the first line feed.
fn feed_place(bytes: &[u8]) -> Option<usize>
    ensures { result ≡ position (λ byte. byte == 10) bytes.now }
{
    bytes.iter().position(|byte| *byte == b'\n')
}
