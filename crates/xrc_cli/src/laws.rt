//! The laws of runs and copies that end with a status, and the numbers of all limits.

ghost use Rattle.xrc_cli.specs.Laws.{CopiesHoldPrimaries, RunsAreComplete};
ghost use Rattle.xrc_cli.specs.Limits.{AreLimitsFixed};

use crash_plant::Plant;
use xrc_edge::Source;

/// A run in which nothing calls for a stop is done, but for want of memory and for numbers that are spent.
pub fn runs_are_complete<S: Source, P: Plant>(old: &P, new: &P)
    ensures { P.tells → RunsAreComplete P.tells P.state S.left S.faults old.now new.now }
{}

/// The third copy of a site whose devices show a point of a run holds the primaries' tracks at the point's time, on the target of each pair
/// that isn't told as failed.
pub fn copies_hold_primaries<P: Plant>(old: &P, new: &P)
    ensures { P.tells → CopiesHoldPrimaries P.tells (P.state old.now) (P.state new.now) }
{}

/// Each limit is its number. All other contracts cite a limit by its name, so a limit that is changed is refused here.
pub fn limits_are_fixed()
    ensures { AreLimitsFixed }
{}
