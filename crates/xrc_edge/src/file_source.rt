ghost use Rattle.std.specs.Prelude.{◌≡◌, ℕ, None};

use crate::{Failed, Source};
use std::io::{ErrorKind, Read};
use std::marker::Model;

// A signal may interrupt a read again and again; a reader that does nothing else is at fault.
const TRIES: u32 = 16;

/// Any reader of std as a source. It tells no bytes, and counts the reads that fail; contracts see it as this count. A read
/// that a signal interrupts is tried again.
#[derive(Drop)]
pub struct FileSource<R: Read + Drop> {
    inner: R,
    faults: u64,
}

impl<R: Read + Drop> Model for FileSource<R> {
    ghost Value = { ℕ };

    ghost view = { λ s. s.faults };
}

impl<R: Read + Drop> FileSource<R> {
    /// A source with no fault yet.
    pub fn new(inner: R) -> Self
        ensures { result ≡ 0 }
    {
        FileSource { inner, faults: 0 }
    }
}

impl<R: Read + Drop> Source for FileSource<R> {
    ghost left = { λ s. None };

    ghost faults = { λ faults. faults };

    fn pull(&mut self, into: &mut [u8]) -> Result<usize, Failed> {
        for _ in 0..TRIES {
            match self.inner.read(into) {
                Ok(count) => return Ok(count),
                Err(error) if error.kind() == ErrorKind::Interrupted => {}
                Err(_) => break,
            }
        }
        self.faults = self.faults.saturating_add(1);
        Err(Failed)
    }
}
