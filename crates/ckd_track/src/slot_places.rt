//! Where slots lie on a volume.

ghost use Rattle.std.specs.Prelude.{◌≡◌};
ghost use Rattle.ckd_track.specs.SlotPlaces.{slot_place};

use crate::layout::{FIRST_SLOT, SLOT_LENGTH};

/// The place of a track's slot on a volume.
pub fn slot_place(track: u32) -> u64
    ensures { result ≡ slot_place track }
{
    FIRST_SLOT + u64::from(track) * SLOT_LENGTH as u64
}
