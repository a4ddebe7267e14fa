//! A volume, from where its copy stands on to its end.

ghost use Rattle.std.specs.Prelude.{◌≡◌, OnOk};
ghost use Rattle.ckd_track.specs.SlotPlaces.{slot_track};
ghost use Rattle.crash_plant.specs.declared.device.Device.TheVariants.{Volume};
ghost use Rattle.crash_plant.specs.Moments.{on, IsDurable};
ghost use Rattle.copy_progress.specs.Copies.{done};
ghost use Rattle.volume_copy.specs.Copying.{IsCopyReady, IsOfCopy, WorksOnCopy};
ghost use Rattle.volume_copy.specs.Faults.{FailsAmong};
ghost use Rattle.volume_copy.specs.Targets.{CopiesTo};

use crate::CopyJob;
use crate::begin::begin_copy;
use crate::cylinders::copy_cylinder;
use ckd_track::Slot;
use crash_plant::Plant;
use xrc_edge::{Failed, TRACKS_OF_CYLINDER};

/// Copies a volume to its target, cylinder by cylinder, from where the target's progress stands. The progress of another copy is
/// cleared first. A slot of the source that holds no track leaves the target's as it is.
///
/// It can be stopped at any moment, and done again.
pub fn copy_volume<P: Plant>(plant: &mut P, job: &CopyJob, slot: &mut Slot) -> Result<(), Failed>
    requires ready { IsCopyReady (P.state plant.old) job.now }
    // At every moment all that is done is copied, if it was so in each image at first. The source is only read.
    ensures works { WorksOnCopy P.tells job.now.source job.now.target (CopiesTo job.now.claim (slot_track ((P.state plant.old).bytes (Volume job.now.source)))) (P.state plant.old) (P.state plant.new) }
    // After Ok all tracks are done, in every image.
    ensures done { P.tells → OnOk result (done job.now.claim ((P.state plant.new).bytes (Volume job.now.target)) ≡ job.now.claim.tracks) }
    ensures durable { P.tells → OnOk result (IsDurable (on (P.state plant.new) (Volume job.now.target))) }
    // It fails only where the count of one of the two rose, by one, and then no other count changed.
    ensures fails { FailsAmong (IsOfCopy job.now.source job.now.target) (P.state plant.old).faults (P.state plant.new).faults result }
{
    let cylinders = job.claim.tracks / TRACKS_OF_CYLINDER;
    let first = begin_copy(plant, job)?;
    for cylinder in first..cylinders {
        copy_cylinder(plant, job, cylinder, slot)?;
    }
    Ok(())
}
