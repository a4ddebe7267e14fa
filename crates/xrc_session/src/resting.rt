//! Laws: the site is at rest again after a command's change and after a mark.

ghost use Rattle.xrc_session.specs.Resting.{ChangesKeepTracks, DeedsPassPoints, DeedsShowPoints, DoneDeedsPassAll, DoneDeedsShowLast, IdleMarksExceptNoMore, MarksKeepTracks};
ghost use Rattle.xrc_session.specs.Resting.{ExceptedAfterChangesAreOwed, RowsStandAfterChanges, RowsStandAfterCommands, SitesStandAfterDeeds};
ghost use Rattle.xrc_session.specs.Resting.{MarksBeginWalks, NothingIsWalked};
ghost use Rattle.xrc_session.specs.Resting.{CommandsComeAfterChanges, CommandsComeAfterMarks};
ghost use Rattle.xrc_session.specs.Resting.{CommandsMayBeLogged, IdleAfterChanges, IdleAfterMarks, ToldAfterChanges, ToldAfterCommands, ToldAfterMarks};

use crash_plant::Plant;

/// Each failure of a volume with a row is told after a command, after its change once this was logged, and after a mark.
pub fn failures_are_told<P: Plant>(old: &P, new: &P)
    ensures commands { ToldAfterCommands }
    ensures changes { ToldAfterChanges old.now new.now (P.state old.now) }
    ensures marks { ToldAfterMarks old.now new.now }
{}

/// The change of a command to an idle site may be logged, and the site is idle after it. So it is after a mark.
pub fn sites_are_idle_again<P: Plant>(old: &P, new: &P)
    ensures logged { CommandsMayBeLogged P.tells (P.state old.now) }
    ensures changes { IdleAfterChanges P.tells old.now new.now (P.state old.now) (P.state new.now) }
    ensures marks { IdleAfterMarks P.tells old.now new.now (P.state old.now) (P.state new.now) }
{}

/// Another command may come after a change that was logged, and after a mark.
pub fn commands_come_again<P: Plant>(old: &P, new: &P)
    ensures changes { CommandsComeAfterChanges old.now new.now (P.state old.now) }
    ensures marks { CommandsComeAfterMarks old.now new.now }
{}

/// A command's change leaves that the shared state stands for the rows: what the command, its record, and a mark that the record needs
/// first except of a row is owed once the change was taken over.
pub fn rows_stand_after_changes<P: Plant>(old: &P, new: &P)
    ensures commands { RowsStandAfterCommands (P.state old.now) }
    ensures owed { ExceptedAfterChangesAreOwed P.tells (P.state old.now) (P.state new.now) }
    ensures stand { RowsStandAfterChanges P.tells (P.state old.now) (P.state new.now) }
    ensures site { SitesStandAfterDeeds (P.state new.now) }
{}

/// A command's record, a mark that it needs first, and a mark that tells failures have no entry, and after them a row is duplex only if
/// it was. So each choice shows the point after those that are done: each duplex row's device still holds its primary's tracks.
pub fn points_are_shown_after_changes<P: Plant>(old: &P, new: &P)
    ensures changes { ChangesKeepTracks P.tells (P.state old.now) (P.state new.now) }
    ensures marks { MarksKeepTracks }
    ensures idle { IdleMarksExceptNoMore (P.state old.now) (P.state new.now) }
    ensures shown { DeedsShowPoints (P.state old.now) }
    ensures begun { DeedsPassPoints (P.state old.now) (P.state new.now) }
    ensures done { DoneDeedsPassAll (P.state old.now) (P.state new.now) }
    ensures last { DoneDeedsShowLast (P.state old.now) (P.state new.now) }
{}

/// After a mark the walk is empty: the mark names the spot of the next record, and no record stands there.
pub fn walks_begin_at_marks<P: Plant>(old: &P, new: &P)
    ensures marks { MarksBeginWalks old.now new.now }
    ensures walk { NothingIsWalked (P.state new.now) }
{}
