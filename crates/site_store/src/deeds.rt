//! The laws of deeds.

ghost use Rattle.site_store.specs.DeedLaws.{DeedsAreChanges, DeedsBeginAfter, DeedsGoOn, DeedsLeaveInTurn, DeedsNeverGoBack, DoneDeedsAreMeant, DoneDeedsHaveBegun, DoneDeedsLeaveContent, EachDeedHasItsMoment, EntriesChangeTheirTracks, EntriesGoByRowsBefore};
ghost use Rattle.site_store.specs.DeedLaws.{FirstDeedsAreSeen, MarksAreMeant, MeansAreAfter, MoreDeedsMayFollow, MoreMayBeExcepted, NoCallDoesNoDeed, OneDeedBegins, OneDeedFollows, OneDeedIsDone, OnlyEntriesChangeContent, PointsAreFirstDeeds, ReadsAndSyncsAreNoDeed, SameContentIsNoDeed, SameSightIsNoDeed, SightsCompose, TimesNeverFall, WholeImagesEndExceptions};

use crash_plant::Plant;

/// What deeds leave of a meaning, of tracks and of exceptions, deed by deed.
pub fn deeds_leave_in_turn()
    ensures means { MeansAreAfter }
    ensures mark { MarksAreMeant }
    ensures turn { DeedsLeaveInTurn }
{}

/// Content is changed by entries alone, on the devices that rows before their group name. A whole image ends an exception.
pub fn entries_alone_change_content()
    ensures only { OnlyEntriesChangeContent }
    ensures tracks { EntriesChangeTheirTracks }
    ensures before { EntriesGoByRowsBefore }
    ensures whole { WholeImagesEndExceptions }
{}

/// The time that is meant never falls, where each deed comes in time.
pub fn times_never_fall()
    ensures { TimesNeverFall }
{}

/// Rows after deeds come by their timed changes in turn.
pub fn deeds_are_changes()
    ensures { DeedsAreChanges }
{}

/// What is meant once deeds are done, and the content that they leave.
pub fn deeds_are_meant<P: Plant>(old: &P, new: &P)
    ensures means { DoneDeedsAreMeant (P.state old.now) (P.state new.now) }
    ensures content { DoneDeedsLeaveContent (P.state old.now) (P.state new.now) }
{}

/// Deeds of calls one after another are deeds in turn, at every moment.
pub fn deeds_go_on<P: Plant>(old: &P, mid: &P, new: &P)
    ensures sights { SightsCompose (P.state old.now) (P.state mid.now) }
    ensures done { DeedsGoOn (P.state old.now) (P.state mid.now) (P.state new.now) }
    ensures begun { DeedsBeginAfter (P.state old.now) (P.state mid.now) (P.state new.now) }
{}

/// Calls that show what was before them do no deed.
pub fn no_deed_is_done<P: Plant>(old: &P, new: &P)
    ensures none { NoCallDoesNoDeed (P.state old.now) }
    ensures same { SameSightIsNoDeed (P.state old.now) (P.state new.now) }
    ensures content { SameContentIsNoDeed (P.state old.now) (P.state new.now) }
    ensures reads { ReadsAndSyncsAreNoDeed (P.state old.now) (P.state new.now) }
{}

/// One deed is done, or begins, by what each choice of each moment shows.
pub fn one_deed_is_done<P: Plant>(old: &P, new: &P)
    ensures begins { OneDeedBegins (P.state old.now) (P.state new.now) }
    ensures done { OneDeedIsDone (P.state old.now) (P.state new.now) }
    ensures follows { OneDeedFollows (P.state old.now) (P.state new.now) }
{}

/// Deeds that are done have begun. Those that begin may be the first of more. Fewer tracks may be told.
pub fn deeds_begin<P: Plant>(old: &P, new: &P)
    ensures begun { DoneDeedsHaveBegun (P.state old.now) (P.state new.now) }
    ensures more { MoreDeedsMayFollow (P.state old.now) (P.state new.now) }
    ensures excepted { MoreMayBeExcepted (P.state old.now) (P.state new.now) }
{}

/// At each moment some first deeds are seen, and their number never falls. Each deed has a moment of its own.
pub fn deeds_are_seen<P: Plant>(old: &P, new: &P)
    ensures points { PointsAreFirstDeeds }
    ensures first { FirstDeedsAreSeen (P.state old.now) (P.state new.now) }
    ensures each { EachDeedHasItsMoment (P.state old.now) (P.state new.now) }
    ensures never_back { DeedsNeverGoBack (P.state old.now) (P.state new.now) }
{}
