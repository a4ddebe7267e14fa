//! The laws of runs, breaks and hands.

ghost use Rattle.sidefile.specs.Runs.{RunsAreAll};
ghost use Rattle.sidefile.specs.Laws.{BreaksAreTheBreak, HandedAreTheFirst};

/// The runs in a row are the entries.
pub fn runs_are_all()
    ensures { RunsAreAll }
{}

/// A hand that is a break is the trace's break, whatever was handed over before.
pub fn breaks_are_the_break()
    ensures { BreaksAreTheBreak }
{}

/// The batches of hands one after another are the first runs, in order, each once.
pub fn handed_are_the_first()
    ensures { HandedAreTheFirst }
{}
