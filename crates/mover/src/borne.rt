//! The laws of deeds that bear.

ghost use Rattle.mover.specs.BorneLaws.{SeenDeedsShowPoints, SeenDeedsBear, BegunDeedsBear, BegunDeedsPassPoints, DoneDeedsPassPoints, StandsForRowsAgain};
ghost use Rattle.mover.specs.Records.{AfterMarksAreSteps, RecordsAreSteps};

use crash_plant::Plant;

/// What a choice shows after the first deeds of the work for a line is the point that is meant then, and it bears the point's time.
pub fn seen_deeds_bear<P: Plant>(start: &P)
    ensures shows { SeenDeedsShowPoints (P.state start.now) }
    ensures bears { SeenDeedsBear (P.state start.now) }
{}

/// Each moment of the work for a line bears. It passes the points of its deeds, each of which comes next on the way to the line's time.
pub fn begun_deeds_bear<P: Plant>(old: &P, new: &P)
    ensures moments { BegunDeedsBear (P.state old.now) (P.state new.now) }
    ensures begun { BegunDeedsPassPoints (P.state old.now) (P.state new.now) }
    ensures done { DoneDeedsPassPoints (P.state old.now) (P.state new.now) }
{}

/// After the whole work the shared state stands for the rows again, so that the next one may begin.
pub fn done_deeds_stand<P: Plant>(old: &P, new: &P)
    ensures { StandsForRowsAgain (P.state old.now) (P.state new.now) }
{}

/// The record of a group that a fed log gave is a step from a point, by itself and after a mark that was made for it. Its breaks are the breaks
/// of the traces, at its cut.
pub fn records_are_steps()
    ensures plain { RecordsAreSteps }
    ensures after_mark { AfterMarksAreSteps }
{}
