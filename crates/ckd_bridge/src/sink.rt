//! Where bytes are put one after another.

ghost use Rattle.std.specs.Prelude.{◌≡◌, ℕ, List, Option, None, OnOk};
ghost use Rattle.xrc_edge.specs.Causes.{HasCause};
ghost use Rattle.ckd_bridge.specs.Sinks.{Appends};

use std::io::Write;
use std::marker::Model;
use xrc_edge::Failed;

/// Takes bytes one after another, and counts its faults.
pub trait Sink {
    /// The bytes that were put, where told.
    ghost written: { Self → Option (List ℕ) };

    ghost faults: { Self → ℕ };

    /// Puts bytes after those that were put. A call that fails may have put a front of them.
    fn put(&mut self, bytes: &[u8]) -> Result<(), Failed>
        ensures written { OnOk result (Appends bytes.now (written self.old) (written self.new)) }
        ensures cause { HasCause (faults self.old) (faults self.new) result };
}

/// Any writer of std as a sink. It tells no bytes; contracts see it as its count of faults.
#[derive(Drop)]
pub struct FileSink<W: Write + Drop> {
    inner: W,
    faults: u64,
}

impl<W: Write + Drop> Model for FileSink<W> {
    ghost Value = { ℕ };

    ghost view = { λ s. s.faults };
}

impl<W: Write + Drop> FileSink<W> {
    /// A sink with no fault yet.
    pub fn new(inner: W) -> Self
        ensures { result ≡ 0 }
    {
        FileSink { inner, faults: 0 }
    }
}

impl<W: Write + Drop> Sink for FileSink<W> {
    ghost written = { λ s. None };

    ghost faults = { λ faults. faults };

    fn put(&mut self, bytes: &[u8]) -> Result<(), Failed> {
        match self.inner.write_all(bytes) {
            Ok(()) => Ok(()),
            Err(_) => {
                self.faults = self.faults.saturating_add(1);
                Err(Failed)
            }
        }
    }
}
