//! What is kept of one controller.

ghost use Rattle.std.specs.Prelude.{◌≡◌};
ghost use Rattle.cut_core.specs.Floors.{reported_after_form, lesser_floor};

use tod_stamp::Stamp;

/// Whether a controller still reports, has broken, or has broken and counts no longer.
#[derive(Clone, Copy, Debug, PartialEq, Eq)]
pub enum ReportedPhase {
    Unbroken,
    Broken,
    Done,
}

/// The time up to which a controller has reported, and its phase.
#[derive(Clone, Copy, Debug, PartialEq, Eq)]
pub struct Told {
    pub floor: Stamp,
    pub phase: ReportedPhase,
}

impl Told {
    /// A broken controller whose break time is the cut counts no longer.
    pub fn after_form(self, cut: Stamp) -> Told
        ensures { result ≡ reported_after_form cut.0 self }
    {
        match self.phase {
            ReportedPhase::Broken if cut.0 == self.floor.0 => Told {
                floor: self.floor,
                phase: ReportedPhase::Done,
            },
            _ => self,
        }
    }

    /// The lesser of a cut and this floor, where the floor counts.
    pub fn lesser(self, cut: u64) -> u64
        ensures { result ≡ lesser_floor self cut }
    {
        match self.phase {
            ReportedPhase::Unbroken | ReportedPhase::Broken => cut.min(self.floor.0),
            ReportedPhase::Done => cut,
        }
    }
}
