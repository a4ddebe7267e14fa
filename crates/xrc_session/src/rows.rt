//! Rows as they were before a command.

ghost use Rattle.std.specs.Prelude.{◌≡◌, ◌≤◌, [], IfOk, vec_capacity};
ghost use Rattle.pair_table.specs.declared.limits.TheConstants.{MOST_ROWS};

use pair_table::{MOST_ROWS, PairRow, PairTable};
use std::alloc::Global;
use xrc_edge::NoMemory;

/// Room for the rows of a table, which is taken once.
#[derive(Drop)]
pub(crate) struct RowsBefore {
    rows: Vec<PairRow>,
    ghost room: { MOST_ROWS ≤ vec_capacity rows },
}

impl RowsBefore {
    /// Room for as many rows as a table may have; none stands there.
    pub(crate) fn make(alloc: Global) -> Result<RowsBefore, NoMemory>
        ensures { IfOk result (λ before. before.rows.items ≡ []) }
    {
        Ok(RowsBefore {
            rows: Vec::with_capacity(alloc, MOST_ROWS)?,
        })
    }

    /// Copies the rows of a table in place of those that stand here.
    pub(crate) fn copy(&mut self, table: &PairTable)
        ensures { self.new.rows.items ≡ table.now.rows }
    {
        self.rows.clear();
        for row in table.rows() {
            self.rows.push_reserved(*row);
        }
    }

    pub(crate) fn as_slice(&self) -> &[PairRow]
        ensures { result.now ≡ self.now.rows.items }
    {
        self.rows.as_slice()
    }
}
