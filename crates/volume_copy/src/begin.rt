//! How far a target has come when its copy begins.

ghost use Rattle.std.specs.Prelude.{◌≡◌, IfOk, OnOk};
ghost use Rattle.ckd_track.specs.SlotPlaces.{slot_track};
ghost use Rattle.crash_plant.specs.declared.device.Device.TheVariants.{Volume};
ghost use Rattle.crash_plant.specs.Moments.{on, IsDurable};
ghost use Rattle.volume_copy.specs.Copying.{IsCopyReady, IsOfCopy, WorksOnCopy};
ghost use Rattle.volume_copy.specs.Faults.{FailsAmong};
ghost use Rattle.volume_copy.specs.Targets.{CopiesTo, HasCylindersDone};

use crate::CopyJob;
use copy_progress::{clear_progress, done};
use crash_plant::{Device, Plant};
use xrc_edge::{Failed, TRACKS_OF_CYLINDER};

/// Syncs a target, and gives how many cylinders are done. Where none is, the progress of another copy is cleared.
pub(crate) fn begin_copy<P: Plant>(plant: &mut P, job: &CopyJob) -> Result<u32, Failed>
    requires ready { IsCopyReady (P.state plant.old) job.now }
    ensures works { WorksOnCopy P.tells job.now.source job.now.target (CopiesTo job.now.claim (slot_track ((P.state plant.old).bytes (Volume job.now.source)))) (P.state plant.old) (P.state plant.new) }
    ensures durable { P.tells → OnOk result (IsDurable (on (P.state plant.new) (Volume job.now.target))) }
    ensures stands { P.tells → IfOk result (λ cylinders. HasCylindersDone job.now.claim ((P.state plant.new).bytes (Volume job.now.target)) cylinders) }
    ensures fails { FailsAmong (IsOfCopy job.now.source job.now.target) (P.state plant.old).faults (P.state plant.new).faults result }
{
    plant.sync(Device::Volume(job.target))?;
    let next = done(plant, job.target, &job.claim)?;
    if next == 0 {
        clear_progress(plant, job.target)?;
        return Ok(0);
    }
    Ok(next / TRACKS_OF_CYLINDER)
}
