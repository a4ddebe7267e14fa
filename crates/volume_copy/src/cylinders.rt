//! One cylinder: its tracks are copied and synced, and then that is noted.

ghost use Rattle.std.specs.Prelude.{◌≡◌, ◌<◌, ◌≤◌, ◌+◌, ◌*◌, ℕ, OnOk};
ghost use Rattle.xrc_edge.specs.declared.limits.TheConstants.{TRACKS_OF_CYLINDER};
ghost use Rattle.ckd_track.specs.declared.layout.TheConstants.{CYLINDER_LENGTH};
ghost use Rattle.ckd_track.specs.SlotPlaces.{slot_place, slot_track};
ghost use Rattle.crash_plant.specs.declared.device.Device.TheVariants.{Volume};
ghost use Rattle.crash_plant.specs.Moments.{on, IsDurable};
ghost use Rattle.volume_copy.specs.Copying.{IsCopyReady, IsOfCopy, WorksOnCopy};
ghost use Rattle.volume_copy.specs.Faults.{FailsAmong};
ghost use Rattle.volume_copy.specs.Targets.{CopiesTo, IsCopyOf, HasCylindersDone, WritesTargetSlots, progress_after};

use crate::CopyJob;
use crate::tracks::copy_track;
use ckd_track::Slot;
use copy_progress::{Claim, Progress, sync_and_note};
use crash_plant::Plant;
use xrc_edge::{Failed, TRACKS_OF_CYLINDER};

/// How many tracks are copied, with the bounds of its type.
fn tracks_of(claim: &Claim) -> u32
    ensures { result ≡ claim.now.tracks }
{
    claim.tracks
}

/// The progress that tells that a cylinder is done, and all before it.
fn progress_after(claim: &Claim, cylinder: u32) -> Progress
    requires { TRACKS_OF_CYLINDER * (cylinder + 1) ≤ claim.now.tracks }
    ensures { result ≡ progress_after claim.now cylinder }
{
    let tracks = tracks_of(claim);
    Progress {
        number: u64::from(cylinder) + 1,
        session: claim.session,
        time: claim.time,
        primary: claim.primary,
        tracks,
        next: TRACKS_OF_CYLINDER * (cylinder + 1),
    }
}

/// Copies the tracks of a cylinder.
fn copy_tracks<P: Plant>(
    plant: &mut P,
    job: &CopyJob,
    cylinder: u32,
    slot: &mut Slot,
) -> Result<(), Failed>
    requires ready { IsCopyReady (P.state plant.old) job.now }
    requires within { TRACKS_OF_CYLINDER * (cylinder + 1) ≤ job.now.claim.tracks }
    ensures works { WorksOnCopy P.tells job.now.source job.now.target (WritesTargetSlots (slot_track ((P.state plant.old).bytes (Volume job.now.source))) (slot_place (TRACKS_OF_CYLINDER * cylinder)) CYLINDER_LENGTH) (P.state plant.old) (P.state plant.new) }
    ensures copied { P.tells → OnOk result ((x : ℕ) → TRACKS_OF_CYLINDER * cylinder ≤ x → x < TRACKS_OF_CYLINDER * (cylinder + 1) → IsCopyOf (slot_track ((P.state plant.old).bytes (Volume job.now.source)) x) ((P.state plant.new).bytes (Volume job.now.target)) x) }
    ensures fails { FailsAmong (IsOfCopy job.now.source job.now.target) (P.state plant.old).faults (P.state plant.new).faults result }
{
    let tracks = tracks_of(&job.claim);
    let first = TRACKS_OF_CYLINDER * cylinder;
    let end = first + TRACKS_OF_CYLINDER;
    for track in first..end {
        copy_track(plant, job, track, slot)?;
    }
    Ok(())
}

/// Copies a cylinder, syncs it, and notes that it is done.
pub(crate) fn copy_cylinder<P: Plant>(
    plant: &mut P,
    job: &CopyJob,
    cylinder: u32,
    slot: &mut Slot,
) -> Result<(), Failed>
    requires ready { IsCopyReady (P.state plant.old) job.now }
    requires within { TRACKS_OF_CYLINDER * (cylinder + 1) ≤ job.now.claim.tracks }
    requires durable { P.tells → IsDurable (on (P.state plant.old) (Volume job.now.target)) }
    requires stands { P.tells → HasCylindersDone job.now.claim ((P.state plant.old).bytes (Volume job.now.target)) cylinder }
    ensures works { WorksOnCopy P.tells job.now.source job.now.target (CopiesTo job.now.claim (slot_track ((P.state plant.old).bytes (Volume job.now.source)))) (P.state plant.old) (P.state plant.new) }
    ensures durable { P.tells → OnOk result (IsDurable (on (P.state plant.new) (Volume job.now.target))) }
    ensures stands { P.tells → OnOk result (HasCylindersDone job.now.claim ((P.state plant.new).bytes (Volume job.now.target)) (cylinder + 1)) }
    ensures fails { FailsAmong (IsOfCopy job.now.source job.now.target) (P.state plant.old).faults (P.state plant.new).faults result }
{
    copy_tracks(plant, job, cylinder, slot)?;
    let next = progress_after(&job.claim, cylinder);
    sync_and_note(plant, job.target, &next)
}
