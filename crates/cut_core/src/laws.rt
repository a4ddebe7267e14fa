//! The theorem on cuts, and laws of histories and floors that no call states.

ghost use Rattle.cut_core.specs.Cuts.{NoLateWrite, GroupsAreComplete, CopiesAreBetween};
ghost use Rattle.cut_core.specs.LeastCuts.{FloorsAreAbove, LeastIsLegal, LeastIsGreatest};
ghost use Rattle.cut_core.specs.Maps.{MapsHold};
ghost use Rattle.cut_core.specs.Fates.{EachOnce};

/// The theorem on cuts. No write joins late: after a form, every joined write has a stamp above its cut. So the writes of a
/// group are exactly the carried ones between its cuts that no drop took out, and a copied track of a group has a stamp from
/// the cut before to the group's.
pub fn cut_theorem()
    ensures no_late_write { NoLateWrite }
    ensures complete { GroupsAreComplete }
    ensures copies { CopiesAreBetween }
{}

/// The least of a limit and all live floors is a legal cut, and the greatest up to that limit.
pub fn least_floors_are_cuts()
    ensures above { FloorsAreAbove }
    ensures legal { LeastIsLegal }
    ensures greatest { LeastIsGreatest }
{}

/// A controller's part of the groups and what still waits are its carried entries that no drop took out, in order, each once.
pub fn each_entry_once()
    ensures { EachOnce }
{}

/// The map of a dropped volume holds all its tracks where a drop said so, else those whose entries were taken out or written
/// since.
pub fn maps_hold()
    ensures { MapsHold }
{}
