//! Laws: what is mapped of suspended rows is what they owe.

ghost use Rattle.xrc_session.specs.Maps.{CallsKeepMaps, MapsAreWhole, MapsBegin, MapsGrow, NewGroupsKeepMaps};
ghost use Rattle.xrc_session.specs.MapsLaws.{MapsOwedAfterEpochs};
ghost use Rattle.xrc_session.specs.MapsOwed.{MapsOwedAfterLogs};
ghost use Rattle.xrc_session.specs.MapsTaken.{MapsOwedAfterChanges};

use crash_plant::Plant;
use xrc_edge::Source;

/// Writes that wait are stamped above the last cut, and the map of a volume that is carried has no track. A new state begins so, and each call
/// keeps it.
pub fn calls_keep_maps()
    ensures first { NewGroupsKeepMaps }
    ensures calls { CallsKeepMaps }
{}

/// Over a log that its traces feed, the map of a dropped volume gets the tracks that are written meanwhile. It has every track if the volume is
/// dropped with all of them. If a volume is dropped without, because its row is suspended, its map has the tracks that are written from the
/// row's suspension on.
pub fn maps_follow_traces()
    ensures grow { MapsGrow }
    ensures whole { MapsAreWhole }
    ensures begin { MapsBegin }
{}

/// Where the maps have what rows owe in a run, they do so after a log that leads to another point of the run.
pub fn maps_are_owed_after_logs()
    ensures { MapsOwedAfterLogs }
{}

/// So they do after an epoch that reached its limit.
pub fn maps_are_owed_after_epochs<S: Source, P: Plant>(old: &P, new: &P)
    ensures { MapsOwedAfterEpochs P.tells S.left S.faults (P.state old.now) (P.state new.now) }
{}

/// So they do after a command's change that was taken over.
pub fn maps_are_owed_after_changes()
    ensures { MapsOwedAfterChanges }
{}
