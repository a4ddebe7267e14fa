//! The block, in which memory is taken.

/// The bytes of a block.
pub const BLOCK: usize = 512;
