//! Laws: the shared state, the lanes and the rows fit each other again after a command's change.

ghost use Rattle.xrc_session.specs.Joins.{ChangesStayForReaders, EpochsComeToRest, EpochsMayBeginLater, KeptRowsAreKnown};
ghost use Rattle.xrc_session.specs.Joins.{LanesStandAfterChanges, LanesStandLater, NamedVolumesStay, RestsAfterCommands, RowsStandAfterLogs};

use crash_plant::Plant;
use mover::Lane;
use xrc_edge::Source;

/// An epoch that may begin up to a limit may begin up to each later one, with the same lanes.
pub fn limits_rise<S, P: Plant>(lanes: &[Lane<S>], plant: &P)
    ensures lanes { LanesStandLater lanes.now }
    ensures begins { EpochsMayBeginLater P.tells (P.state plant.now) }
{}

/// The calls of a command's change leave how far each controller has reported, whether it still reports, and the last cut. So the lanes
/// are still the controllers', if the volume of the row that the change adds is one of its lane's header.
pub fn lanes_stand_after_changes<S>(lanes: &[Lane<S>])
    ensures stays { ChangesStayForReaders }
    ensures lanes { LanesStandAfterChanges lanes.now }
{}

/// The volumes that are named are those of the lanes' headers as long as the lanes stay the same, as they do in an epoch.
pub fn named_volumes_stay<S>(old: &[Lane<S>], new: &[Lane<S>])
    ensures { NamedVolumesStay old.now new.now }
{}

/// A mover that begins with a state that keeps volumes for rows knows these rows.
pub fn kept_rows_are_known()
    ensures { KeptRowsAreKnown }
{}

/// Rows stand after the calls of an epoch, whatever the traces are. An epoch that reaches its limit comes to rest there: the last cut and
/// the time that is meant are the limit, the lanes are the controllers', the next epoch may begin, and a change may be taken over.
pub fn epochs_come_to_rest<S: Source, P: Plant>(old: &P, new: &P)
    ensures logs { RowsStandAfterLogs }
    ensures rest { EpochsComeToRest P.tells S.left S.faults (P.state old.now) (P.state new.now) }
{}

/// A session at rest at a time is at rest again after a command at that time whose change was logged and taken over, if each failure of a
/// volume with a row was told.
pub fn rests_after_commands<S, P: Plant>(lanes: &[Lane<S>], old: &P, new: &P)
    ensures { RestsAfterCommands P.tells old.now new.now lanes.now (P.state old.now) (P.state new.now) }
{}
