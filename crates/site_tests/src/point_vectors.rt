//! Worked points of sessions: what the definitions give for them.

ghost use Rattle.site_tests.specs.PointVectors.{CutRowIsWorked, EndedRowIsWorked, FailingRowIsWorked, MarkedRowIsWorked, ResumedMarkIsWorked, ResumedRowIsWorked};

/// Points of a pair that is added again, of volumes that fail, also in a mark for a command's record, of the end, and of a cut trace.
pub fn worked_points()
    ensures resumed { ResumedRowIsWorked }
    ensures failing { FailingRowIsWorked }
    ensures marked { MarkedRowIsWorked }
    ensures resumed_mark { ResumedMarkIsWorked }
    ensures ended { EndedRowIsWorked }
    ensures cut { CutRowIsWorked }
{}
