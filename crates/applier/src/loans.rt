//! Lending the volumes of jobs, and giving them back.

ghost use Rattle.std.specs.Prelude.{◌≡◌, ◌<◌, ℕ, List, length, map, false, true, None, Some, All, slice_index_or, IfSome, IsSome};
ghost use Rattle.crash_plant.specs.Calls.{IsLentOne, IsThere, Lends, NoneLent, TakesBack};
ghost use Rattle.crash_plant.specs.declared.device.Device.TheVariants.{Volume};
ghost use Rattle.xrc_journal.specs.declared.job.VolumeJob.{VolumeJob};
ghost use Rattle.applier.specs.Returns.{AreBack, AreRead, OnlyReads};
ghost use Rattle.applier.specs.Disks.{AreApart, without_disk};
ghost use Rattle.applier.specs.Loans.{AreOut, LendsWhere};

use crash_plant::Plant;
use std::mem;
use xrc_journal::VolumeJob;

/// Lends a job its volume where this is wanted and the job hasn't failed.
fn lend_where<P: Plant>(plant: &mut P, job: &mut VolumeJob<P::Volume>, wanted: bool)
    requires home { IsThere (P.state plant.old) (Volume job.old.device) }
    requires idle { job.old.disk ≡ None }
    ensures job { LendsWhere wanted job.old job.new }
    ensures nothing { job.new.disk ≡ None → (plant.new ≡ plant.old) × (job.new ≡ job.old) }
    ensures tells { IsSome job.new.disk → P.tells → P.Volume.tells }
    ensures lent { IfSome job.new.disk (λ disk. Lends P.tells job.old.device (P.state plant.old) (P.state plant.new) (P.Volume.state disk)) }
{
    if !wanted || job.failed {
        return;
    }
    match mem::replace(&mut job.disk, Some(plant.lend(job.device))) {
        None => {}
        Some(_) => unreachable!(),
    }
}

/// Lends each job that is wanted and hasn't failed the volume of its device.
pub fn lend_all<P: Plant>(plant: &mut P, jobs: &mut [VolumeJob<P::Volume>], wanted: &[bool])
    requires home { NoneLent (P.state plant.old) }
    requires there { All (λ job. job.device < (P.state plant.old).volumes) jobs.old }
    requires apart { AreApart jobs.old }
    requires idle { All (λ job. job.disk ≡ None) jobs.old }
    requires wanted { length wanted.now ≡ length jobs.old }
    ensures same { length jobs.new ≡ length jobs.old }
    ensures jobs { (i : ℕ) (d : VolumeJob P.Volume) → i < length jobs.old → LendsWhere (slice_index_or wanted.now i false) (slice_index_or jobs.old i d) (slice_index_or jobs.new i d) }
    ensures out { AreOut P.tells P.Volume.tells P.Volume.state (P.state plant.old) (P.state plant.new) jobs.new jobs.new }
{
    for i in 0..jobs.len() {
        lend_where(plant, &mut jobs[i], wanted[i]);
    }
}

/// Gives back the disk of a job that has one.
fn give_back_own<P: Plant>(plant: &mut P, job: &mut VolumeJob<P::Volume>)
    requires lent { IfSome job.old.disk (λ disk. IsLentOne P.tells job.old.device (P.state plant.old) (P.Volume.state disk)) }
    ensures job { job.new ≡ without_disk job.old }
    ensures nothing { job.old.disk ≡ None → plant.new ≡ plant.old }
    ensures back { IfSome job.old.disk (λ disk. TakesBack P.tells job.old.device (P.state plant.old) (P.state plant.new) (P.Volume.state disk)) }
{
    if let Some(disk) = job.disk.take() {
        plant.give_back(job.device, disk);
    }
}

/// Gives back each job's disk.
pub fn give_back_all<P: Plant>(plant: &mut P, jobs: &mut [VolumeJob<P::Volume>])
    requires out { (start : P) × (lent : List (VolumeJob P.Volume)) × AreOut P.tells P.Volume.tells P.Volume.state (P.state start) (P.state plant.old) lent jobs.old }
    ensures jobs { jobs.new ≡ map without_disk jobs.old }
    ensures home { NoneLent (P.state plant.new) }
    ensures back { (start : P) (lent : List (VolumeJob P.Volume)) → AreOut P.tells P.Volume.tells P.Volume.state (P.state start) (P.state plant.old) lent jobs.old → AreBack P.tells P.Volume.state (P.state start) (P.state plant.new) lent jobs.old }
    ensures read { (start : P) (lent : List (VolumeJob P.Volume)) → AreOut P.tells P.Volume.tells P.Volume.state (P.state start) (P.state plant.old) lent jobs.old → AreRead P.Volume.tells P.Volume.state lent jobs.old → OnlyReads P.tells (P.state start) (P.state plant.new) }
{
    for job in jobs.iter_mut() {
        give_back_own(plant, job);
    }
}
