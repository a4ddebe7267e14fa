//! Room in a queue.

/// Records, and blocks.
#[derive(Clone, Copy, Debug, PartialEq, Eq)]
pub struct Room {
    pub records: u32,
    pub blocks: u32,
}
