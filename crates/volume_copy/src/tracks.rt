//! One track, read from its slot on the source and written to that on the target.

ghost use Rattle.std.specs.Prelude.{◌≡◌, ◌<◌, ◌≤◌, length, IfOk, OnOk, Some};
ghost use Rattle.ckd_track.specs.declared.layout.TheConstants.{SLOT_LENGTH};
ghost use Rattle.ckd_track.specs.Images.{image};
ghost use Rattle.ckd_track.specs.SlotPlaces.{slot_end, slot_place, slot_track};
ghost use Rattle.crash_plant.specs.declared.device.Device.TheVariants.{Volume};
ghost use Rattle.crash_plant.specs.Bytes.{Torn};
ghost use Rattle.crash_plant.specs.Moments.{on, Follows, Same};
ghost use Rattle.crash_plant.specs.Calls.{IsThere, WorksOn};
ghost use Rattle.xrc_edge.specs.Causes.{HasCause};
ghost use Rattle.volume_copy.specs.Copying.{IsCopyReady, IsOfCopy, WorksOnCopy};
ghost use Rattle.volume_copy.specs.Faults.{FailsAmong};
ghost use Rattle.volume_copy.specs.Targets.{IsCopyOf, IsHeld, WritesTargetSlots};

use crate::CopyJob;
use ckd_track::{SLOT_LENGTH, Slot, slot_place};
use crash_plant::{Device, Plant};
use xrc_edge::Failed;

/// Reads the track that its slot on a volume holds. False where it holds none. It is a call of its own, so that no other pays for the
/// long buffer.
#[inline(never)]
fn read_track<P: Plant>(
    plant: &mut P,
    source: u16,
    track: u32,
    slot: &mut Slot,
) -> Result<bool, Failed>
    requires there { IsThere (P.state plant.old) (Volume source) }
    requires range { slot_end track ≤ (P.state plant.old).lengths (Volume source) }
    ensures held { P.tells → IfOk result (λ held. IsHeld (slot_track ((P.state plant.old).bytes (Volume source)) track) held slot.new) }
    ensures same { P.tells → (P.state plant.new).bytes (Volume source) ≡ (P.state plant.old).bytes (Volume source) }
    ensures moments { P.tells → Follows Same (on (P.state plant.old) (Volume source)) (on (P.state plant.new) (Volume source)) }
    ensures only { WorksOn P.tells (λ d. d ≡ Volume source) (P.state plant.old) (P.state plant.new) }
    ensures cause { HasCause ((P.state plant.old).faults (Volume source)) ((P.state plant.new).faults (Volume source)) result }
{
    let mut bytes = [0; SLOT_LENGTH];
    plant.read(Device::Volume(source), slot_place(track), &mut bytes)?;
    match slot.load(&bytes) {
        Ok(_) => Ok(true),
        Err(_) => Ok(false),
    }
}

/// Writes a track's image into its slot.
fn write_image<P: Plant>(plant: &mut P, target: u16, track: u32, slot: &Slot) -> Result<(), Failed>
    requires there { IsThere (P.state plant.old) (Volume target) }
    requires range { slot_end track ≤ (P.state plant.old).lengths (Volume target) }
    ensures copied { P.tells → OnOk result (IsCopyOf (Some slot.now) ((P.state plant.new).bytes (Volume target)) track) }
    ensures short { length (image slot.now) ≤ SLOT_LENGTH }
    ensures torn { P.tells → Torn (slot_place track) (length (image slot.now)) ((P.state plant.old).bytes (Volume target)) ((P.state plant.new).bytes (Volume target)) }
    ensures moments { P.tells → Follows (Torn (slot_place track) (length (image slot.now))) (on (P.state plant.old) (Volume target)) (on (P.state plant.new) (Volume target)) }
    ensures only { WorksOn P.tells (λ d. d ≡ Volume target) (P.state plant.old) (P.state plant.new) }
    ensures cause { HasCause ((P.state plant.old).faults (Volume target)) ((P.state plant.new).faults (Volume target)) result }
{
    plant.write(Device::Volume(target), slot_place(track), slot.bytes())
}

/// Copies a track. Where the source's slot holds none, the target's stays.
pub(crate) fn copy_track<P: Plant>(
    plant: &mut P,
    job: &CopyJob,
    track: u32,
    slot: &mut Slot,
) -> Result<(), Failed>
    requires ready { IsCopyReady (P.state plant.old) job.now }
    requires within { track < job.now.claim.tracks }
    ensures works { WorksOnCopy P.tells job.now.source job.now.target (WritesTargetSlots (slot_track ((P.state plant.old).bytes (Volume job.now.source))) (slot_place track) SLOT_LENGTH) (P.state plant.old) (P.state plant.new) }
    ensures copied { P.tells → OnOk result (IsCopyOf (slot_track ((P.state plant.old).bytes (Volume job.now.source)) track) ((P.state plant.new).bytes (Volume job.now.target)) track) }
    ensures fails { FailsAmong (IsOfCopy job.now.source job.now.target) (P.state plant.old).faults (P.state plant.new).faults result }
{
    let held = read_track(plant, job.source, track, slot)?;
    if held {
        return write_image(plant, job.target, track, slot);
    }
    Ok(())
}
