//! A source in memory that never fails.

ghost use Rattle.std.specs.Prelude.{◌≡◌, ◌<◌, Some, length};
ghost use Rattle.xrc_edge.specs.Causes.{HasCause};
ghost use Rattle.xrc_edge.specs.MemorySources.{MemoryState};
ghost use Rattle.xrc_edge.specs.Pulls.{FitsIn, Gives};
ghost use Rattle.xrc_cli.specs.Generating.{HasNoMarks};

use std::marker::Model;
use xrc_edge::{Failed, MemorySource, Source};

/// A source in memory of which no call is marked to fail. So it never fails, and its count of faults is 0 by definition.
#[derive(Drop)]
pub(crate) struct UnfailingSource {
    source: MemorySource,

    ghost unmarked: { HasNoMarks source },
}

impl Model for UnfailingSource {
    ghost Value = { MemoryState };

    ghost view = { λ s. s.source };
}

impl UnfailingSource {
    /// The same source.
    pub(crate) fn new(source: MemorySource) -> UnfailingSource
        requires { HasNoMarks source }
        ensures { result ≡ source }
    {
        UnfailingSource { source }
    }
}

impl Source for UnfailingSource {
    ghost left = { λ s. Some s.left };

    ghost faults = { λ s. 0 };

    fn pull(&mut self, into: &mut [u8]) -> Result<usize, Failed>
        requires { 0 < length into.old }
        ensures room { FitsIn result (length into.old) }
        ensures same_room { length into.new ≡ length into.old }
        ensures bytes { Gives (Some self.old.left) (Some self.new.left) result into.new }
        ensures cause { HasCause 0 0 result }
    {
        match self.source.pull(into) {
            Ok(count) => Ok(count),
            Err(Failed) => unreachable!(),
        }
    }
}
