//! Whether a controller still reports.

ghost use Rattle.std.specs.Prelude.{◌≡◌, if◌then◌else◌};
ghost use Rattle.group_state.specs.Controls.{phase_after, reported_cause};

use ckd_track::Cause;
use tod_stamp::Stamp;

/// A controller reports until it breaks, and counts for the cut until its break is reported.
#[derive(Clone, Copy, Debug, PartialEq, Eq)]
pub enum Phase {
    Unbroken,
    Broken(Cause),
    Reported,
}

impl Phase {
    /// The cause of the break that a form with this cut reports, of a controller with this floor.
    pub fn cause_at(self, cut: Stamp, floor: Stamp) -> Option<Cause>
        ensures { result ≡ reported_cause cut floor self }
    {
        match self {
            Phase::Broken(cause) if floor.0 == cut.0 => Some(cause),
            _ => None,
        }
    }

    /// The phase after a form with this cut.
    pub fn after(self, cut: Stamp, floor: Stamp) -> Phase
        ensures { result ≡ phase_after cut floor self }
    {
        match self {
            Phase::Broken(_) if floor.0 == cut.0 => Phase::Reported,
            _ => self,
        }
    }
}
