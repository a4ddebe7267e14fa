//! The laws of logs.

ghost use Rattle.fed_logs.specs.LogLaws.{FedReportTruth, LogsBear, ReachedHolds, LiveEntriesInTurn, TimesRise, BreaksCome};
ghost use Rattle.fed_logs.specs.ShownBreaks.{ShownBreaksAreTheTraces, GroupsBreakAtCuts, NewGroupsAreUnbroken, LogsBreakAsTraces, OtherCallsKeepBreaks};
ghost use Rattle.fed_logs.specs.ShownBreaks.{BreaksToComeAreAwaited, AllBreaksAreToCome, LaterBreaksAreToCome, OtherCallsAwaitBreaks};

/// A fed call reports what is true of the primary. So a log whose readers are fed, and whose mover keeps its deeds, bears after each
/// deed; and at its end holds what the next one begins with.
pub fn logs_bear()
    ensures fed { FedReportTruth }
    ensures bear { LogsBear }
    ensures reached { ReachedHolds }
{}

/// Deeds of which each part has entries of live rows alone have such entries.
pub fn live_entries_in_turn()
    ensures { LiveEntriesInTurn }
{}

/// The time that is meant never falls.
pub fn times_rise()
    ensures { TimesRise }
{}

/// Every break with a time below the one that is meant was reported by a group, at its own time.
pub fn breaks_come()
    ensures { BreaksCome }
{}

/// Each break that a form of a fed log shows is the break of its controller's trace, with the trace's cause, at the form's cut. The log has to begin
/// with controllers that broke as their traces do. A new state does so, the log ends so, and the calls between two logs keep it so.
pub fn shown_breaks_are_the_traces()
    ensures shown { ShownBreaksAreTheTraces }
    ensures groups { GroupsBreakAtCuts }
    ensures first { NewGroupsAreUnbroken }
    ensures logs { LogsBreakAsTraces }
    ensures others { OtherCallsKeepBreaks }
{}

/// Breaks to come are awaited. In a new state all are to come. If the breaks that readers report in a log are below its limit, the others are still
/// to come at its end, and the calls between two logs keep it so.
pub fn later_breaks_are_to_come()
    ensures awaited { BreaksToComeAreAwaited }
    ensures first { AllBreaksAreToCome }
    ensures logs { LaterBreaksAreToCome }
    ensures others { OtherCallsAwaitBreaks }
{}
