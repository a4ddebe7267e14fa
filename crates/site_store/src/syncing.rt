//! The volumes that were written since a mark, synced before the next one.

ghost use Rattle.std.specs.Prelude.{◌≡◌, true, false, length, IsTrue};
ghost use Rattle.applier.specs.Returns.{OnlyReads, WorksOnLent};
ghost use Rattle.crash_plant.specs.declared.device.Device.TheVariants.{Volume as VolumeDevice};
ghost use Rattle.crash_plant.specs.Calls.{IsThere, NoneLent};
ghost use Rattle.crash_plant.specs.Moments.{IsDurable, on};
ghost use Rattle.site_store.specs.Jobs.{are_home_from};
ghost use Rattle.site_store.specs.Marking.{IsAmong, Syncs};
ghost use Rattle.site_store.specs.Syncing.{AreSynced, JobFailsAlone, JobsFail};

use applier::{SyncPace, give_back_all, lend_all, sync_some};
use crash_plant::{Device, Plant};
use std::thread::Threads;
use xrc_journal::VolumeJob;

/// Syncs each volume that was written and whose job hasn't failed, side by side unless syncs are quick. If a sync fails, the job is
/// marked failed.
pub(crate) fn sync_written<R: Threads + Sync, P: Plant>(
    rt: &R,
    plant: &mut P,
    pace: &mut SyncPace,
    jobs: &mut [VolumeJob<P::Volume>],
    written: &[bool],
)
    requires home { NoneLent (P.state plant.old) }
    requires volumes { length jobs.old ≡ (P.state plant.old).volumes }
    requires flags { length written.now ≡ length jobs.old }
    requires jobs { IsTrue (are_home_from 0 jobs.old) }
    ensures jobs { IsTrue (are_home_from 0 jobs.new) }
    ensures syncs { OnlyReads P.tells (P.state plant.old) (P.state plant.new) }
    ensures durable { AreSynced P.tells written.now jobs.new (P.state plant.new) }
    ensures failed { JobsFail jobs.old jobs.new (P.state plant.old).faults (P.state plant.new).faults }
    ensures home { NoneLent (P.state plant.new) }
    ensures only { WorksOnLent P.tells (IsAmong written.now) (P.state plant.old) (P.state plant.new) }
{
    lend_all(plant, jobs, written);
    sync_some(rt, pace, jobs);
    give_back_all(plant, jobs);
}

/// Syncs a volume if it was written and its job hasn't failed.
fn sync_one<P: Plant>(plant: &mut P, job: &mut VolumeJob<P::Volume>, is_written: bool)
    requires { IsThere (P.state plant.old) (VolumeDevice job.old.device) }
    ensures job { job.new ≡ record job.old { failed = job.new.failed } }
    ensures syncs { Syncs P.tells (λ d. (d ≡ VolumeDevice job.old.device) × (is_written ≡ true)) (P.state plant.old) (P.state plant.new) }
    ensures durable { P.tells → is_written ≡ true → job.new.failed ≡ false → IsDurable (on (P.state plant.new) (VolumeDevice job.old.device)) }
    ensures cause { JobFailsAlone job.old job.new (P.state plant.old).faults (P.state plant.new).faults }
{
    if is_written && !job.failed {
        job.failed = plant.sync(Device::Volume(job.device)).is_err();
    }
}

/// The same, one volume after another.
pub(crate) fn sync_in_turn<P: Plant>(
    plant: &mut P,
    jobs: &mut [VolumeJob<P::Volume>],
    written: &[bool],
)
    requires home { NoneLent (P.state plant.old) }
    requires volumes { length jobs.old ≡ (P.state plant.old).volumes }
    requires flags { length written.now ≡ length jobs.old }
    requires jobs { IsTrue (are_home_from 0 jobs.old) }
    ensures jobs { IsTrue (are_home_from 0 jobs.new) }
    ensures syncs { Syncs P.tells (IsAmong written.now) (P.state plant.old) (P.state plant.new) }
    ensures durable { AreSynced P.tells written.now jobs.new (P.state plant.new) }
    ensures failed { JobsFail jobs.old jobs.new (P.state plant.old).faults (P.state plant.new).faults }
{
    for place in 0..jobs.len() {
        sync_one(plant, &mut jobs[place], written[place]);
    }
}
