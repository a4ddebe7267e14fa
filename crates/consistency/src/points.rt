//! The laws of points.

ghost use Rattle.consistency.specs.PointLaws.{CommandsAreAnswered, CommandsAreCounted, CommandsAreSteps, CommandsMayBeMeant, DuplexIsByMoments, EndedMayBeMeant, EndedPointsStay, EndingsAreCounted, EndingsMayBeMeant, EndsAreCommanded, EndsAreEnded, HitsStayCounted, HitsStayWhole, InactiveAreAnswered};
ghost use Rattle.consistency.specs.PointLaws.{LeadsAreToward, LeadsGoOn, LeadsToItself, LegsAreCounted, LegsAreHit, LegsAreMarked, LegsBegin, LegsBeginAfterCommands, LegsBeginAfterEnds, LegsGoOn, LegsMayBeMeant, MarkedHitsAreCounted, MarkedRowsStand, MarksAreCommanded, MarksAreCounted, MarksMayBeMeant, NeverDuplexOweAll, OthersOweAll};
ghost use Rattle.consistency.specs.PointLaws.{PointsAreSeen, PointsBearThroughout, PointsGoInARow, PointsRise, PointsStayPassed, RepliesSayAccepted, RepliesSayBefore, ResumedPairsAskForChanges, StagesMayBeMeant, SuspendedOweChanges, ToldPointsAreWalked, UnhitCoursesAreFunctions, WaysMayBeMeant};
ghost use Rattle.consistency.specs.FlagLaws.{CommandsMayBeMeantInTime, EndingsMayBeMeantInTime, FlagsInTimeMayBe, LegsMayBeMeantInTime, MarksMayBeMeantInTime, StagesMayBeMeantInTime, WaysMayBeMeantInTime};
ghost use Rattle.consistency.specs.ReplyLaws.{CommandsAreAnsweredExactly, CoursesHaveNames, ExactRepliesAreReplies, ExactRepliesSayTimes, ExactRepliesSayUpTo, ExactRepliesTellApart, InactiveAreAnsweredExactly, PassagesGoOn, RepliesFail, RepliesGoOn, ReplyLinesTellApart, ReportsComeFirst, RunsBegin, WorksGoOn};

use crash_plant::Plant;

/// Changes of rows lead from point to point. Where they lead whole, with each break that came due, the rows are on their way.
pub fn changes_lead_on()
    ensures itself { LeadsToItself }
    ensures on { LeadsGoOn }
    ensures hits { HitsStayWhole }
    ensures toward { LeadsAreToward }
{}

/// Points on the way to the time of a line, one after another, may each be meant. A mark that a command's record needs first comes right
/// before the command. The ending point comes right after the command of an accepted end, and nothing changes after it.
pub fn ways_lead_on()
    ensures begins { LegsBegin }
    ensures goes_on { LegsGoOn }
    ensures hit { LegsAreHit }
    ensures marked { LegsAreMarked }
    ensures follow { MarksAreCommanded }
    ensures rise { PointsRise }
    ensures ends { EndsAreEnded }
    ensures commanded { EndsAreCommanded }
    ensures ended { EndedPointsStay }
    ensures meant { LegsMayBeMeant }
    ensures each { WaysMayBeMeant }
{}

/// Each device was hit at most as often as it failed. A hit in a mark that a command's record needs first counts, also if the command takes
/// the row away; and it counts once, if it stands after the command again.
pub fn hits_are_counted()
    ensures stay { HitsStayCounted }
    ensures more { MarkedHitsAreCounted }
    ensures leg { LegsAreCounted }
    ensures mark { MarksAreCounted }
    ensures command { CommandsAreCounted }
    ensures ending { EndingsAreCounted }
{}

/// The points of a line's command, of a mark that its record needs first, of the end of the session and of a stage may be meant. The line is
/// a step of the rows, after which the rows that the mark hit stand as the hits left them.
pub fn commands_lead_on()
    ensures meant { CommandsMayBeMeant }
    ensures mark { MarksMayBeMeant }
    ensures stand { MarkedRowsStand }
    ensures step { CommandsAreSteps }
    ensures ending { EndingsMayBeMeant }
    ensures ended { EndedMayBeMeant }
    ensures stage { StagesMayBeMeant }
{}

/// Points that may be meant have the ended flag in time: it is 1 once the session has ended, or at the time of an accepted end.
pub fn flags_are_in_time()
    ensures flag { FlagsInTimeMayBe }
    ensures leg { LegsMayBeMeantInTime }
    ensures ways { WaysMayBeMeantInTime }
    ensures command { CommandsMayBeMeantInTime }
    ensures mark { MarksMayBeMeantInTime }
    ensures ending { EndingsMayBeMeantInTime }
    ensures stage { StagesMayBeMeantInTime }
{}

/// Lines are answered at the ends of legs, one after another, and before the start and after the end by their commands alone.
pub fn lines_are_answered()
    ensures answered { CommandsAreAnswered }
    ensures inactive { InactiveAreAnswered }
    ensures next { LegsBeginAfterCommands }
    ensures ended { LegsBeginAfterEnds }
    ensures told { RepliesSayAccepted }
    ensures before { RepliesSayBefore }
{}

/// The exact reply to a line, with a report before it where the line is an accepted query, is a reply to the line. No time that it says is
/// later than that of the session after the line. The tables of a course have names where all that its run may name has. A
/// text is the exact reply to lines of one time and one command's word alone, of which all or none are refused, for one reason.
pub fn replies_are_exact()
    ensures names { CoursesHaveNames }
    ensures reply { ExactRepliesAreReplies }
    ensures report { ReportsComeFirst }
    ensures times { ExactRepliesSayTimes }
    ensures up_to { ExactRepliesSayUpTo }
    ensures apart { ReplyLinesTellApart }
    ensures exact { ExactRepliesTellApart }
{}

/// Lines whose reply is exact are answered.
pub fn lines_are_answered_exactly()
    ensures answered { CommandsAreAnsweredExactly }
    ensures inactive { InactiveAreAnsweredExactly }
{}

/// A run of which no volume fails is determined by what its lines ask.
pub fn unhit_courses_are_functions()
    ensures { UnhitCoursesAreFunctions }
{}

/// A run goes on between its calls: through work on devices, where each choice shows a point that may be meant, and with each exact reply.
/// A reply that the console takes in part ends it, and each of its moments bears.
pub fn runs_go_on<P: Plant>(plant: &P)
    ensures begins { RunsBegin (P.state plant.now) }
    ensures works { (first old : P) → WorksGoOn (P.state first) (P.state old) (P.state plant.now) }
    ensures passages { (first old : P) → PassagesGoOn (P.state first) (P.state old) (P.state plant.now) }
    ensures replies { P.tells → (first old : P) → RepliesGoOn P.tells (P.state first) (P.state old) (P.state plant.now) }
    ensures fail { P.tells → (first old : P) → RepliesFail P.tells (P.state first) (P.state old) (P.state plant.now) }
{}

/// Calls of a plant pass points in a row, and each of their moments bears where each point may be meant.
pub fn points_are_passed<P: Plant>(plant: &P)
    ensures row { PointsGoInARow (P.state plant.now) }
    ensures seen { PointsAreSeen (P.state plant.now) }
    ensures bear { PointsBearThroughout (P.state plant.now) }
{}

/// Points that a plant's devices went through stay passed while later calls keep the past.
pub fn points_stay_passed<P: Plant>(old: &P, new: &P)
    ensures { PointsStayPassed (P.state old.now) (P.state new.now) }
{}

/// A pair that was suspended while duplex owes the tracks written since. The points that were passed tell whether it was duplex. The points
/// that a reply speaks of are those up to a moment before its command, so that its tracks are the owed ones.
pub fn owed_tracks_are_told<P: Plant>(plant: &P)
    ensures duplex { DuplexIsByMoments (P.state plant.now) }
    ensures owed { SuspendedOweChanges (P.state plant.now) }
    ensures told { ToldPointsAreWalked (P.state plant.now) }
{}

/// Rows that owe all tracks, and pairs that are added again and ask for the changed ones.
pub fn rows_owe_all()
    ensures others { OthersOweAll }
    ensures never_duplex { NeverDuplexOweAll }
    ensures resumed { ResumedPairsAskForChanges }
{}
