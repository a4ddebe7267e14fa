//! The jobs of a copy, done one after another.

ghost use Rattle.std.specs.Prelude.{◌≡◌, ◌≤◌, [], length, vec_capacity, filter, not, true, false};
ghost use Rattle.ckd_track.specs.SlotPlaces.{slot_track};
ghost use Rattle.crash_plant.specs.declared.device.Device.{Device as AnyDevice};
ghost use Rattle.crash_plant.specs.declared.device.Device.TheVariants.{Volume};
ghost use Rattle.pair_table.specs.Devices.{is_among};
ghost use Rattle.xrecover.specs.Pairs.{duplex_devices};
ghost use Rattle.xrecover.specs.Works.{Works};
ghost use Rattle.volume_copy.specs.Copying.{IsCopyReady, IsOfCopy, WorksOnCopy};
ghost use Rattle.volume_copy.specs.Faults.{FailsAt};
ghost use Rattle.volume_copy.specs.Targets.{CopiesTo};
ghost use Rattle.third_copy.specs.Jobs.{AreJobsReady, CopiesJobs, EndsJobs, IsJobDone};

use ckd_track::Slot;
use crash_plant::Plant;
use pair_table::{DeviceList, PairTable};
use volume_copy::{CopyJob, copy_volume};

/// Whether a device is on a list.
fn is_among(devices: &DeviceList, device: u16) -> bool
    ensures { result ≡ is_among device devices.now }
{
    devices.as_slice().contains(&device)
}

/// Whether a device isn't on a list.
fn is_missing(devices: &DeviceList, device: u16) -> bool
    ensures { result ≡ not (is_among device devices.now) }
{
    !is_among(devices, device)
}

/// Copies the volume of a job, unless it failed before. True where it is copied.
fn copy_unless_failed<P: Plant>(plant: &mut P, job: &CopyJob, failed: bool, slot: &mut Slot) -> bool
    requires ready { IsCopyReady (P.state plant.old) job.now }
    ensures left { failed ≡ true → (result ≡ false) × (plant.new ≡ plant.old) }
    ensures works { failed ≡ false → WorksOnCopy P.tells job.now.source job.now.target (CopiesTo job.now.claim (slot_track ((P.state plant.old).bytes (Volume job.now.source)))) (P.state plant.old) (P.state plant.new) }
    ensures done { P.tells → result ≡ true → IsJobDone (P.state plant.new) job.now }
    ensures counts { result ≡ true → (d : AnyDevice) → (P.state plant.new).faults d ≡ (P.state plant.old).faults d }
    ensures fails { failed ≡ false → result ≡ false → FailsAt (IsOfCopy job.now.source job.now.target) (P.state plant.old).faults (P.state plant.new).faults }
{
    if failed {
        return false;
    }
    match copy_volume(plant, job, slot) {
        Ok(()) => true,
        Err(_) => false,
    }
}

/// Copies the volumes of jobs to their targets, but of those that failed before, and lists those that are copied. One that fails doesn't
/// end the others.
pub(crate) fn copy_jobs<P: Plant>(
    plant: &mut P,
    jobs: &[CopyJob],
    failed: &DeviceList,
    done: Vec<u16>,
    slot: &mut Slot,
) -> DeviceList
    requires ready { AreJobsReady (P.state plant.old) jobs.now }
    requires empty { done.items ≡ [] }
    requires places { length jobs.now ≤ vec_capacity done }
    ensures works { Works P.tells (CopiesJobs failed.now jobs.now (λ d. slot_track ((P.state plant.old).bytes (Volume d)))) (P.state plant.old) (P.state plant.new) }
    ensures ends { EndsJobs P.tells jobs.now failed.now result (P.state plant.old) (P.state plant.new) }
{
    let mut done = done;
    for job in jobs {
        let has_failed = is_among(failed, job.source);
        if copy_unless_failed(plant, job, has_failed, slot) {
            done.push_reserved(job.source);
        }
    }
    DeviceList::of(done)
}

/// The devices of the duplex pairs that aren't on a list, in the order of the rows.
pub(crate) fn others_of(table: &PairTable, done: &DeviceList, others: Vec<u16>) -> DeviceList
    requires empty { others.items ≡ [] }
    requires places { length table.now.rows ≤ vec_capacity others }
    ensures { result ≡ filter (λ v. not (is_among v done.now)) (duplex_devices table.now.rows) }
{
    let mut others = others;
    for place in 0..table.len() {
        let row = *table.row(place).unwrap();
        if row.state.is_duplex() {
            let is_other = is_missing(done, row.device);
            if is_other {
                others.push_reserved(row.device);
            }
        }
    }
    DeviceList::of(others)
}
