use crate::memory_disk::MemoryDisk;
use std::snapshot::Snapshot;

/// A volume's place. A volume that is lent is remembered as it was, which takes no memory.
#[derive(Drop)]
pub(crate) enum Shelf {
    Here(MemoryDisk),
    Lent {
        length: u64,
        // The tick at which it was lent.
        at: u64,
        was: Snapshot<MemoryDisk>,
    },
    // It was lent before the plant's past began, and is never back.
    Away(u64),
}
