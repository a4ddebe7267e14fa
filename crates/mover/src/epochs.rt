//! An epoch.

ghost use Rattle.std.specs.Prelude.{◌≡◌};
ghost use Rattle.mover.specs.Moves.{MoverWorks};
ghost use Rattle.mover.specs.Rounds.{AreLanesOf};
ghost use Rattle.mover.specs.Epochs.{EpochGoes, IfReached, MayBeginEpoch, ReachedBy, end_result};

use crate::ends::{EpochEnd, RoundsEnd};
use crate::gate::Gate;
use crate::lane::Lane;
use crate::round::rounds;
use crash_plant::Plant;
use group_state::GroupState;
use site_store::Site;
use std::alloc::Global;
use std::sync::Wait;
use std::thread::Threads;
use tod_stamp::Stamp;
use turn_group::TurnGroup;
use xrc_edge::Source;

/// Brings a session to a limit: every write up to it on a carried volume is in a group that was logged and applied, and every wanted
/// track is copied.
///
/// After `Store` or `NoMemory` the lanes and the site may not be used again, and the group state is gone.
pub fn epoch<R: Threads + Wait + Sync, S: Source + Send, P: Plant, G: Gate + Sync>(
    rt: &R,
    alloc: Global,
    gate: &G,
    limit: Stamp,
    lanes: &mut [Lane<S>],
    group: GroupState,
    site: &mut Site<P::Volume>,
    plant: &mut P,
) -> EpochEnd
    requires lanes { AreLanesOf group limit.0 lanes.old }
    requires may { MayBeginEpoch P.tells limit.0 group site.old (P.state plant.old) }
    // Whatever it answers.
    ensures goes { EpochGoes P.tells S.left S.faults limit.0 group lanes.old lanes.new site.old site.new (P.state plant.old) (P.state plant.new) result }
    ensures works { MoverWorks P.tells site.old site.new (P.state plant.old) (P.state plant.new) (end_result result) }
    // At the limit.
    ensures reached { IfReached result (λ next. ReachedBy P.tells S.left limit.0 group lanes.old lanes.new site.old next site.new (P.state plant.new)) }
{
    let Ok((table, mut seat, mut seats)) = TurnGroup::make(alloc, group) else {
        return EpochEnd::NoMemory;
    };
    let end = rounds(
        rt, alloc, gate, limit, lanes, &table, &mut seat, &mut seats, site, plant,
    );
    let state = table.close(seat, seats);
    match end {
        RoundsEnd::Reached => EpochEnd::Reached(state),
        RoundsEnd::Store(error) => EpochEnd::Store(error),
        RoundsEnd::NoMemory => EpochEnd::NoMemory,
    }
}
