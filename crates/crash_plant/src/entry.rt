use crate::PlainDisk;
use std::snapshot::Snapshot;

/// What a call did to a disk.
#[derive(Clone, Copy)]
pub(crate) enum Done {
    // So many bytes from a place on may have been written, or some of them.
    Write { place: u64, count: u64 },
    Sync,
}

/// A call in the record of a disk. It began at a moment and was done at another: a crash between may have come before it or
/// after it. What the disk held then takes no memory.
#[derive(Drop)]
pub(crate) struct PastCall {
    pub(crate) since: u64,
    pub(crate) till: u64,
    pub(crate) done: Done,
    pub(crate) after: Snapshot<PlainDisk>,
}
