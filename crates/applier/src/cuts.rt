//! Work on jobs, cut into parts that run side by side.

ghost use Rattle.std.specs.Prelude.{◌≡◌, ◌≤◌, All, length};
ghost use denote.Param.Send.{IsSend, IsSync};
ghost use Rattle.applier.specs.Sides.{HoldsOfEach, has_work};

use std::thread::{Threads, join_mut};
use xrc_journal::VolumeJob;

/// How often work is cut in two. So at most four threads run, with the caller's.
const CUTS: u32 = 2;

/// Work on the volumes of jobs.
pub(crate) trait Work<D> {
    ghost use Rattle.xrc_journal.specs.declared.job.VolumeJob.{VolumeJob};

    /// When it may be done on a job.
    ghost may: { Self → VolumeJob D → Type 0 };

    /// What it leaves of a job.
    ghost leaves: { Self → VolumeJob D → VolumeJob D → Type 0 };

    /// Does it on each job, in this thread.
    fn work_on(&self, jobs: &mut [VolumeJob<D>])
        requires { All (may self.now) jobs.old }
        ensures { HoldsOfEach (leaves self.now) jobs.old jobs.new };
}

/// Whether there is work on a job: it has its disk and hasn't failed.
fn has_work<D>(job: &VolumeJob<D>) -> bool
    ensures { result ≡ has_work job.now }
{
    job.disk.is_some() && !job.failed
}

/// On how many jobs there is work.
pub(crate) fn count_work<D>(jobs: &[VolumeJob<D>]) -> usize {
    jobs.iter().filter(|job| has_work(job)).count()
}

/// The place after so many jobs on which there is work.
pub(crate) fn place_after<D>(jobs: &[VolumeJob<D>], count: usize) -> usize
    ensures { result ≤ length jobs.now }
{
    let mut passed = 0;
    for place in 0..jobs.len() {
        if passed == count {
            return place;
        }
        if has_work(&jobs[place]) {
            passed += 1;
        }
    }
    jobs.len()
}

/// Does the work on each job. It is cut so often where half of the jobs with work stand on each side, if there are two.
#[cycle(parts)]
fn work_in_parts<R: Threads + Sync, D: Send, W: Work<D> + Sync>(
    rt: &R,
    work: &W,
    jobs: &mut [VolumeJob<D>],
    cuts: u32,
)
    requires { All (W.may work.now) jobs.old }
    ensures { HoldsOfEach (W.leaves work.now) jobs.old jobs.new }
{
    let count = count_work(jobs);
    if cuts == 0 || count < 2 {
        work.work_on(jobs);
        return;
    }
    let (front, back) = jobs.split_at_mut(place_after(jobs, count / 2));
    work_on_both(rt, work, front, back, cuts - 1);
}

/// Does the work on both parts, one of them in a thread of its own.
#[cycle(parts)]
fn work_on_both<R: Threads + Sync, D: Send, W: Work<D> + Sync>(
    rt: &R,
    work: &W,
    front: &mut [VolumeJob<D>],
    back: &mut [VolumeJob<D>],
    cuts: u32,
)
    requires front { All (W.may work.now) front.old }
    requires back { All (W.may work.now) back.old }
    ensures front { HoldsOfEach (W.leaves work.now) front.old front.new }
    ensures back { HoldsOfEach (W.leaves work.now) back.old back.new }
{
    let mut first = ||
        requires { IsSync R.row × IsSync W.row × IsSend D.row × All (W.may work.now) front.now }
        ensures { HoldsOfEach (W.leaves work.entry.now) front.entry.now front.exit.now }
    { work_in_parts(rt, work, front, cuts) };
    let mut second = ||
        requires { IsSync R.row × IsSync W.row × IsSend D.row × All (W.may work.now) back.now }
        ensures { HoldsOfEach (W.leaves work.entry.now) back.entry.now back.exit.now }
    { work_in_parts(rt, work, back, cuts) };
    join_mut(rt, &mut first, &mut second);
}

/// Does the work on each job, side by side.
pub(crate) fn work_on_each<R: Threads + Sync, D: Send, W: Work<D> + Sync>(
    rt: &R,
    work: &W,
    jobs: &mut [VolumeJob<D>],
)
    requires { All (W.may work.now) jobs.old }
    ensures { HoldsOfEach (W.leaves work.now) jobs.old jobs.new }
{
    work_in_parts(rt, work, jobs, CUTS);
}
