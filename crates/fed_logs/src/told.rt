//! The laws of reported tracks.

ghost use Rattle.fed_logs.specs.ToldLaws.{StepsKeep, DoneIsTold};

/// What is held of a settled track, changed by what waits, is what was reported of it; and each of the calls keeps that. So an epoch
/// needs no history before its start.
pub fn steps_keep_told()
    ensures { StepsKeep }
{}

/// A group makes of each settled track, of which no copied track waits after it, the primary's at its cut.
pub fn done_is_told()
    ensures { DoneIsTold }
{}
