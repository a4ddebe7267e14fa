//! The laws of runs.

ghost use Rattle.group_state.specs.HistoryLaws.{RunsAreHistories, FormsGiveGroups, BreaksWereReported, CopiesWereReported, DonePlansAreShown, SizesAreTold, NumbersAreKept, ResumesOweMapped, NoLateJoin, FormsAreComplete, FormsShowOwnParts};

/// A run of calls is a legal history, and what the state keeps after it is the history's: floors, breaks, the last cut, what is
/// carried, wanted and mapped, and what waits. So the theorem on cuts speaks of this state.
pub fn runs_are_histories()
    ensures { RunsAreHistories }
{}

/// What a form shows is the history's group at the least of its limit and all live floors, with the break of each controller that
/// this form ends, as a call reported it, with the content of each copied track that a call gave, and each volume whose plan is done
/// after it, once.
pub fn forms_give_groups()
    ensures groups { FormsGiveGroups }
    ensures breaks { BreaksWereReported }
    ensures copies { CopiesWereReported }
    ensures done { DonePlansAreShown }
{}

/// A volume that is kept is of as many tracks, in its map and in its plan, as the plan with which it began to be carried last. No
/// two volumes of a controller have one number, and each controller stands under its own.
pub fn sizes_are_told()
    ensures sizes { SizesAreTold }
    ensures numbers { NumbersAreKept }
{}

/// A resume reports how many of the volume's tracks the history before it has mapped.
pub fn resumes_owe_mapped()
    ensures { ResumesOweMapped }
{}

/// The theorem on cuts, of runs. After a form no batch joins with a write whose stamp is at most the form's cut, and the writes
/// that a form shows are all carried ones with stamps above the cut before and at most its own that no drop took out.
pub fn runs_keep_to_cuts()
    ensures no_late_join { NoLateJoin }
    ensures complete { FormsAreComplete }
{}

/// A form takes from each controller what was due there, in order.
pub fn forms_show_own_parts()
    ensures { FormsShowOwnParts }
{}
