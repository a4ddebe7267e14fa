//! The slot that counts_for.

ghost use Rattle.std.specs.Prelude.{◌≡◌, ◌≤◌, ◌+◌, drop, IfOk};
ghost use Rattle.xrc_edge.specs.Causes.{HasCause};
ghost use Rattle.ckd_track.specs.declared.layout.TheConstants.{FIRST_SLOT};
ghost use Rattle.crash_plant.specs.declared.device.Device.TheVariants.{Volume};
ghost use Rattle.crash_plant.specs.Moments.{on, Follows, Same};
ghost use Rattle.crash_plant.specs.Calls.{IsThere, WorksOn};
ghost use Rattle.copy_progress.specs.Slots.{AreProgressSlots, IsSlotSeen, greater_of, chosen_progress};

use crate::Progress;
use crate::layout::{FIRST, SECOND, SLOT};
use crate::slot::{Seen, Slots, decode};
use crash_plant::{Device, Plant};
use xrc_edge::Failed;

/// Reads the slot at a place.
pub(crate) fn read_slot<P: Plant>(plant: &mut P, device: u16, place: u64) -> Result<Seen, Failed>
    requires there { IsThere (P.state plant.old) (Volume device) }
    requires range { place + 43 ≤ (P.state plant.old).lengths (Volume device) }
    ensures slot { P.tells → IfOk result (λ seen. IsSlotSeen (drop place ((P.state plant.old).bytes (Volume device))) seen) }
    ensures same { P.tells → (P.state plant.new).bytes (Volume device) ≡ (P.state plant.old).bytes (Volume device) }
    ensures moments { P.tells → Follows Same (on (P.state plant.old) (Volume device)) (on (P.state plant.new) (Volume device)) }
    ensures only { WorksOn P.tells (λ d. d ≡ Volume device) (P.state plant.old) (P.state plant.new) }
    ensures cause { HasCause ((P.state plant.old).faults (Volume device)) ((P.state plant.new).faults (Volume device)) result }
{
    let mut bytes = [0; SLOT];
    plant.read(Device::Volume(device), place, &mut bytes)?;
    Ok(decode(&bytes))
}

/// Reads both slots.
pub(crate) fn read_slots<P: Plant>(plant: &mut P, device: u16) -> Result<Slots, Failed>
    requires there { IsThere (P.state plant.old) (Volume device) }
    requires long { FIRST_SLOT ≤ (P.state plant.old).lengths (Volume device) }
    ensures slots { P.tells → IfOk result (λ slots. AreProgressSlots ((P.state plant.old).bytes (Volume device)) slots) }
    ensures same { P.tells → (P.state plant.new).bytes (Volume device) ≡ (P.state plant.old).bytes (Volume device) }
    ensures moments { P.tells → Follows Same (on (P.state plant.old) (Volume device)) (on (P.state plant.new) (Volume device)) }
    ensures only { WorksOn P.tells (λ d. d ≡ Volume device) (P.state plant.old) (P.state plant.new) }
    ensures cause { HasCause ((P.state plant.old).faults (Volume device)) ((P.state plant.new).faults (Volume device)) result }
{
    let first = read_slot(plant, device, FIRST)?;
    let second = read_slot(plant, device, SECOND)?;
    Ok(Slots { first, second })
}

/// The one with the greater number, the first where they are equal.
fn chosen(first: Option<Progress>, second: Option<Progress>) -> Option<Progress>
    ensures { result ≡ greater_of first second }
{
    match (first, second) {
        (Some(first), Some(second)) => {
            if first.number < second.number {
                Some(second)
            } else {
                Some(first)
            }
        }
        (Some(first), None) => Some(first),
        (None, second) => second,
    }
}

/// The progress that is chosen on a target: that of the slot with an open gate that keeps the table and has the greater number.
pub(crate) fn read_progress<P: Plant>(
    plant: &mut P,
    device: u16,
) -> Result<Option<Progress>, Failed>
    requires there { IsThere (P.state plant.old) (Volume device) }
    requires long { FIRST_SLOT ≤ (P.state plant.old).lengths (Volume device) }
    ensures chosen { P.tells → IfOk result (λ found. found ≡ chosen_progress ((P.state plant.old).bytes (Volume device))) }
    ensures same { P.tells → (P.state plant.new).bytes (Volume device) ≡ (P.state plant.old).bytes (Volume device) }
    ensures moments { P.tells → Follows Same (on (P.state plant.old) (Volume device)) (on (P.state plant.new) (Volume device)) }
    ensures only { WorksOn P.tells (λ d. d ≡ Volume device) (P.state plant.old) (P.state plant.new) }
    ensures cause { HasCause ((P.state plant.old).faults (Volume device)) ((P.state plant.new).faults (Volume device)) result }
{
    let slots = read_slots(plant, device)?;
    Ok(chosen(slots.first.progress, slots.second.progress))
}
