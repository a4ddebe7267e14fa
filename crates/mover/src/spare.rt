//! The buffer of groups, which the first lane keeps from epoch to epoch.

ghost use Rattle.std.specs.Prelude.{◌≡◌, ◌≤◌, length, IfOk};
ghost use Rattle.xrc_edge.specs.declared.limits.TheConstants.{MOST_CONTROLS};

use crate::lane::Lane;
use pending_queue::Formed;
use std::alloc::Global;
use xrc_edge::NoMemory;

/// The buffer that the first lane keeps, or a new one.
pub(crate) fn take_formed<S>(alloc: Global, lanes: &mut [Lane<S>]) -> Result<Formed, NoMemory>
    requires few { length lanes.old ≤ MOST_CONTROLS }
    ensures same { lanes.new ≡ lanes.old }
    ensures room { IfOk result (λ formed. formed.controls ≡ length lanes.old) }
{
    let controls = lanes.len() as u16;
    if lanes.is_empty() {
        return Formed::make(alloc, controls);
    }
    match lanes[0].take_spare() {
        Some(formed) if formed.controls() == controls => Ok(formed),
        _ => Formed::make(alloc, controls),
    }
}

/// Keeps the buffer with the first lane.
pub(crate) fn keep_formed<S>(lanes: &mut [Lane<S>], formed: Formed)
    ensures { lanes.new ≡ lanes.old }
{
    if !lanes.is_empty() {
        lanes[0].keep_spare(formed);
    }
}
