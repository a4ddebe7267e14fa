//! The laws of feeds.

ghost use Rattle.fed_logs.specs.FeedLaws.{NoCallReadsNothing, CallsReadInTurn, StepsReadOn, NoCallBreaks, CallsBreakBelowInTurn, CopiesReportNoBreak, NoCallGoesUpTo, CallsGoUpToInTurn, CopiesGoUpTo, FloorsAreByCalls, ReportingIsByCalls, ReadTracksAreThePrimary, NothingIsReadFirst, HeadersBeginTraces};

/// Calls on a feed one after another read on.
pub fn calls_read_in_turn()
    ensures none { NoCallReadsNothing }
    ensures then { CallsReadInTurn }
{}

/// Each step of a reader reads on, however its trace turns out.
pub fn steps_read_on()
    ensures { StepsReadOn }
{}

/// Calls on a feed one after another report breaks below a limit if each does. Where none is made, and where a track is copied, none is
/// reported.
pub fn calls_break_below()
    ensures none { NoCallBreaks }
    ensures then { CallsBreakBelowInTurn }
    ensures copied { CopiesReportNoBreak }
{}

/// Calls on a feed one after another go as far towards a limit as the trace lets them, if each does. Where none is made, and where a track is copied,
/// it is so for every limit.
pub fn calls_go_up_to_limits()
    ensures none { NoCallGoesUpTo }
    ensures then { CallsGoUpToInTurn }
    ensures copied { CopiesGoUpTo }
{}

/// After a run the calls of a controller's reader report the controller's floor, and whether the controller still reports.
pub fn calls_report_controls()
    ensures floors { FloorsAreByCalls }
    ensures reporting { ReportingIsByCalls }
{}

/// A primary has the tracks of the trace at its time.
pub fn read_tracks()
    ensures { ReadTracksAreThePrimary }
{}

/// At the start of a trace nothing was read of it, and after the header of a source's bytes its trace starts.
pub fn first_feed()
    ensures nothing { NothingIsReadFirst }
    ensures begins { HeadersBeginTraces }
{}
