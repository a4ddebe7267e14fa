//! The files that a command reads.

use crash_plant::Disk;

/// The files that a command reads, which stay as they are. A command that reads one file alone has an empty second.
#[derive(Drop)]
pub struct Files<D: Disk + Drop> {
    pub first: D,
    pub second: D,
}
