//! What was written last, kept beside the writing.

ghost use Rattle.std.specs.Prelude.{◌≡◌, ◌≤◌, [], ℕ, List, length, take};
ghost use Rattle.xrc_edge.specs.declared.limits.TheConstants.{LONGEST_TEXT};

use std::cell::RefCell;
use std::io;
use std::io::Write;
use std::marker::Model;
use xrc_edge::{LONGEST_TEXT, Text};

/// The front of what was written last, `LONGEST_TEXT` bytes at most. Contracts see the list of its bytes.
#[derive(Drop)]
pub struct LastSaid {
    text: Text,
}

impl Model for LastSaid {
    ghost Value = { List ℕ };

    ghost view = { λ last. last.text };

    ghost invariant = { λ last. length last.text ≤ LONGEST_TEXT };
}

impl LastSaid {
    /// Nothing was written.
    pub fn make() -> LastSaid
        ensures { result ≡ [] }
    {
        LastSaid { text: Text::make() }
    }

    /// These bytes were written.
    #[tactic(auto, using(std::proofs::lemmas::List::take_min))]
    pub(crate) fn keep(&mut self, bytes: &[u8])
        ensures { self.new ≡ take LONGEST_TEXT bytes.now }
    {
        let length = LONGEST_TEXT.min(bytes.len());
        self.text.clear();
        self.text.add(&bytes[..length]);
    }

    /// The bytes that are kept.
    pub fn as_bytes(&self) -> &[u8]
        ensures { result.now ≡ self.now }
    {
        self.text.as_bytes()
    }
}

/// A writer whose last bytes are kept.
#[derive(Drop)]
pub struct Overheard<'a, W: Write + Drop> {
    inner: W,
    last: &'a RefCell<LastSaid>,
}

impl<'a, W: Write + Drop> Overheard<'a, W> {
    /// The writer, and where to keep what it takes.
    pub fn new(inner: W, last: &'a RefCell<LastSaid>) -> Overheard<'a, W> {
        Overheard { inner, last }
    }
}

impl<'a, W: Write + Drop> Write for Overheard<'a, W> {
    fn write(&mut self, buf: &[u8]) -> io::Result<usize> {
        let count = self.inner.write(buf)?;
        // A writer that is full takes nothing, and what it took last stays.
        if count > 0
            && let Ok(mut last) = self.last.try_borrow_mut()
        {
            last.keep(&buf[..count]);
        }
        Ok(count)
    }

    fn flush(&mut self) -> io::Result<()> {
        self.inner.flush()
    }
}
