//! The laws of times that are borne.

ghost use Rattle.consistency.specs.Laws.{OneTime, RepliesAreAnswers, StepsAreFunctions, TimesAreNotEarlier, TimesAreNotLater};

/// A choice of images bears one time at most: none before the one that was replied last, and none past a line that was heard, unless the
/// session has ended.
pub fn one_time()
    ensures one { OneTime }
    ensures not_before { TimesAreNotEarlier }
    ensures not_past { TimesAreNotLater }
{}

/// Without a hit the rows before a line's command are determined.
pub fn steps_are_functions()
    ensures { StepsAreFunctions }
{}

/// Where a run stands as many lines are answered as replies were said.
pub fn replies_are_answers()
    ensures { RepliesAreAnswers }
{}
