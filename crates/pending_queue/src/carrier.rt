//! Which writes of a batch are carried.

ghost use Rattle.std.specs.Prelude.{◌≡◌, Bool, true};
ghost use Rattle.ckd_track.specs.declared.write.Write.{Write as WriteIs};

use ckd_track::Write;

/// Says which writes of a batch are carried. The others are not put into a queue.
pub trait Carrier {
    ghost carries: { Self → WriteIs → Bool };

    fn carries(&self, write: &Write) -> bool
        ensures { result ≡ carries self.now write.now };
}

/// Carries every write.
pub struct Everything;

impl Carrier for Everything {
    ghost carries = { λ _ _. true };

    fn carries(&self, _write: &Write) -> bool {
        true
    }
}
