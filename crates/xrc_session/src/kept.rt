//! What a session keeps beside its site.

ghost use Rattle.std.specs.Prelude.{◌≡◌, ◌≤◌, Some, IfOk};
ghost use Rattle.xrc_edge.specs.declared.limits.TheConstants.{MOST_CONTROLS};
ghost use Rattle.group_state.specs.Groups.{new_group};

use crate::rows::RowsBefore;
use ckd_track::{BLOCKS_OF_QUEUE, WRITES_OF_RUN};
use group_state::GroupState;
use pair_table::Names;
use std::alloc::Global;
use xrc_edge::NoMemory;

/// What a session keeps beside its site: the names that commands speak of, what readers and mover share, and the rows before the
/// command of a line.
#[derive(Drop)]
pub(crate) struct SessionParts {
    pub(crate) names: Names,
    /// None only while readers and mover are at work, and after a stop.
    pub(crate) group: Option<GroupState>,
    pub(crate) before: RowsBefore,
}

impl SessionParts {
    /// What a session of so many controllers begins with.
    pub(crate) fn make(alloc: Global, names: Names, controls: u16) -> Result<SessionParts, NoMemory>
        requires { (1 ≤ controls) × (controls ≤ MOST_CONTROLS) }
        ensures names { IfOk result (λ kept. kept.names ≡ names) }
        ensures group { IfOk result (λ kept. kept.group ≡ Some (new_group controls WRITES_OF_RUN BLOCKS_OF_QUEUE)) }
    {
        let (records, blocks) = (WRITES_OF_RUN as u32, BLOCKS_OF_QUEUE as u32);
        Ok(SessionParts {
            names,
            group: Some(GroupState::make(alloc, controls, records, blocks)?),
            before: RowsBefore::make(alloc)?,
        })
    }
}
