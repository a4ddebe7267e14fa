//! What a copy works with, made before anything is written.

ghost use Rattle.std.specs.Prelude.{◌≡◌, ◌≤◌, [], length, vec_capacity, IfOk};
ghost use Rattle.third_copy.specs.Pairs.{AreCopyToolsReady};

use ckd_track::Slot;
use pair_table::PairTable;
use std::alloc::Global;
use volume_copy::CopyJob;
use xrc_edge::NoMemory;

/// A buffer for one track, and lists with a place for each row.
#[derive(Drop)]
pub(crate) struct CopyTools {
    pub(crate) slot: Slot,
    pub(crate) jobs: Vec<CopyJob>,
    pub(crate) done: Vec<u16>,
    pub(crate) failed: Vec<u16>,
}

impl CopyTools {
    /// Tools for the rows of a table.
    pub(crate) fn make(alloc: Global, table: &PairTable) -> Result<CopyTools, NoMemory>
        ensures { IfOk result (λ tools. AreCopyToolsReady table.now.rows tools) }
    {
        let rows = usize::from(table.len());
        let slot = Slot::make(alloc)?;
        let jobs = Vec::with_capacity(alloc, rows)?;
        let done = Vec::with_capacity(alloc, rows)?;
        let failed = Vec::with_capacity(alloc, rows)?;
        Ok(CopyTools {
            slot,
            jobs,
            done,
            failed,
        })
    }
}
