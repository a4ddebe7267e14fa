//! Chains of blocks, and why bytes are refused.

ghost use Rattle.std.specs.Prelude.{◌≡◌};

use std::marker::Model;

/// Blocks of a region that hold bytes. Contracts see its first block and its length. A chain that is dropped leaves its blocks
/// taken: they come back by `Region::give` alone.
#[derive(Debug, Drop)]
pub struct Chain {
    pub(crate) first: u32,
    pub(crate) len: u64,
}

impl Model for Chain {
    ghost use Rattle.block_region.specs.Regions.{ChainState};

    ghost Value = { ChainState };

    ghost view = { λ chain. record { first = chain.first; len = chain.len } };
}

impl Chain {
    /// The number of its bytes.
    pub fn len(&self) -> u64
        ensures { result ≡ self.now.len }
    {
        self.len
    }
}

/// Bytes that need more blocks than are free.
#[derive(Clone, Copy, Debug, PartialEq, Eq)]
pub struct Full {
    /// The blocks that the bytes need.
    pub needed: u32,
    /// The blocks that are free.
    pub free: u32,
}
