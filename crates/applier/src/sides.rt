//! Work on volumes, side by side.

ghost use Rattle.std.specs.Prelude.{◌≡◌, ◌<◌, ℕ, All, length, slice_index_or};
ghost use Rattle.applier.specs.Sides.{AppliesToJob, HasItsSlots, HoldsOfEach, SyncsJob};

use crate::cuts::{Work, work_on_each};
use crate::rising::apply_part;
use crash_plant::Disk;
use std::thread::Threads;
use xrc_journal::{Body, VolumeJob};

/// From so many bytes of a body on its volumes are written side by side. Fewer are written sooner than a thread starts.
const MANY_BYTES: usize = 131_072;

/// A body that is applied.
#[derive(Drop)]
struct Applying<'a> {
    body: &'a Body,
}

impl<'a, D: Disk> Work<D> for Applying<'a> {
    ghost may = { λ work. HasItsSlots D.state work.body.now.items };

    ghost leaves = { λ work. AppliesToJob D.state D.tells work.body.now.items };

    fn work_on(&self, jobs: &mut [VolumeJob<D>]) {
        apply_part(self.body, jobs);
    }
}

/// Syncs.
#[derive(Drop)]
struct Syncing;

impl<D: Disk> Work<D> for Syncing {
    ghost may = { λ work job. Unit {0} };

    ghost leaves = { λ work. SyncsJob D.state D.tells };

    fn work_on(&self, jobs: &mut [VolumeJob<D>]) {
        sync_each(jobs);
    }
}

/// Syncs a job's volume, where it is lent. If the sync fails, the job is marked failed. A failed job is left alone.
fn sync_lent<D: Disk>(job: &mut VolumeJob<D>)
    ensures { SyncsJob D.state D.tells job.old job.new }
{
    if job.failed {
        return;
    }
    if let Some(disk) = &mut job.disk {
        job.failed = disk.sync().is_err();
    }
}

/// Does what `sync_all` does, one volume after another in this thread.
pub(crate) fn sync_each<D: Disk>(jobs: &mut [VolumeJob<D>])
    ensures { HoldsOfEach (SyncsJob D.state D.tells) jobs.old jobs.new }
{
    for place in 0..jobs.len() {
        sync_lent(&mut jobs[place]);
    }
}

/// Applies a body to the volume of each job that has its disk and hasn't failed, as `apply_volume` does. These volumes are worked
/// on side by side, in at most four threads with the caller's: of two such volumes each has one, and a thread goes through the body
/// once for all of its volumes where the jobs stand in order of their devices. Every other job is left as it is. If no thread can
/// be started, one part is worked on after another. A crash may still take what was written, until the volumes are synced.
pub fn apply_all<R: Threads + Sync, D: Disk + Send>(rt: &R, body: &Body, jobs: &mut [VolumeJob<D>])
    requires { All (HasItsSlots D.state body.now.items) jobs.old }
    ensures same { length jobs.new ≡ length jobs.old }
    ensures each { (i : ℕ) (d : _) → i < length jobs.old → AppliesToJob D.state D.tells body.now.items (slice_index_or jobs.old i d) (slice_index_or jobs.new i d) }
{
    work_on_each(rt, &Applying { body }, jobs);
}

/// Does the same, side by side only where the body has so many bytes that threads pay: less than 131,072 are written in this thread.
pub fn apply_body<R: Threads + Sync, D: Disk + Send>(rt: &R, body: &Body, jobs: &mut [VolumeJob<D>])
    requires { All (HasItsSlots D.state body.now.items) jobs.old }
    ensures same { length jobs.new ≡ length jobs.old }
    ensures each { (i : ℕ) (d : _) → i < length jobs.old → AppliesToJob D.state D.tells body.now.items (slice_index_or jobs.old i d) (slice_index_or jobs.new i d) }
{
    if body.bytes().len() < MANY_BYTES {
        apply_part(body, jobs);
    } else {
        apply_all(rt, body, jobs);
    }
}

/// Syncs the volume of each job that has its disk and hasn't failed, side by side as `apply_all` works on them. If the sync fails,
/// the job is marked failed. Every other job is left as it is.
pub fn sync_all<R: Threads + Sync, D: Disk + Send>(rt: &R, jobs: &mut [VolumeJob<D>])
    ensures same { length jobs.new ≡ length jobs.old }
    ensures each { (i : ℕ) (d : _) → i < length jobs.old → SyncsJob D.state D.tells (slice_index_or jobs.old i d) (slice_index_or jobs.new i d) }
{
    work_on_each(rt, &Syncing, jobs);
}
