//! Two of three volumes lent at once, worked on and given back: what a read and a crash give then, with calls that fail, with
//! a stop on a volume that is lent, and with no volume wanted.

ghost use Rattle.std.specs.Prelude.{◌≡◌, ◌<◌, ◌≤◌, ℕ, All, None, false, true, length, map};
ghost use Rattle.crash_plant.specs.Calls.{NoneLent};
ghost use Rattle.crash_plant.specs.MemoryPlant.{memory_state};
ghost use Rattle.crash_plant.specs.PlainPlant.{plain_state};
ghost use Rattle.applier.specs.Disks.{AreApart, OnDisks};
ghost use Rattle.applier.specs.Loans.{AreWorkedOn, WorkedOn};

use crate::fixtures::{assert_holds, assert_same, plain, planned, read_at};
use applier::{VolumeJob, give_back_all, lend_all};
use crash_plant::{Device, Disk, MemoryPlant, PlainPlant, Plant};
use std::alloc::Global;
use std::process::Abort;
use test_fixtures::fail_at;
use xrc_edge::Failed;

/// The first bytes of a volume.
type Front = [u8; 8];

const NOTHING: Front = [0; 8];

const WRITTEN: Front = *b"\0\0WXYZ\0\0";

const OUTER: [bool; 3] = [true, false, true];

const NONE: [bool; 3] = [false; 3];

/// A job on a volume, which failed before or didn't.
fn job<D>(rt: &impl Abort, alloc: Global, device: u16, failed: bool) -> VolumeJob<D>
    ensures device { result.device ≡ device }
    ensures disk { result.disk ≡ None }
{
    let mut job = VolumeJob::make(alloc, device).expect(rt, "memory");
    job.failed = failed;
    job
}

/// A job on each volume.
pub(crate) fn three_jobs<D>(rt: &impl Abort, alloc: Global, failed: [bool; 3]) -> [VolumeJob<D>; 3]
    ensures there { All (λ job. job.device < 3) result }
    ensures apart { AreApart result }
    ensures idle { All (λ job. job.disk ≡ None) result }
{
    [
        job(rt, alloc, 0, failed[0]),
        job(rt, alloc, 1, failed[1]),
        job(rt, alloc, 2, failed[2]),
    ]
}

/// Ends a job, which has no disk, and says whether it failed.
pub(crate) fn end<D>(rt: &impl Abort, job: VolumeJob<D>) -> bool {
    let VolumeJob {
        device: _,
        disk,
        slot: _,
        failed,
    } = job;
    match disk {
        None => failed,
        Some(_) => panic!(rt; "a job has its disk still"),
    }
}

/// Writes a word and reads it back. It says whether both calls were done.
fn put_word<D: Disk>(rt: &impl Abort, disk: &mut D, word: &[u8; 4]) -> bool
    ensures { WorkedOn D.tells (D.state disk.old) (D.state disk.new) }
{
    assert!(rt; disk.length() == 64);
    if disk.write(2, word).is_err() {
        return false;
    }
    let mut found = [0; 4];
    if disk.read(2, &mut found).is_err() {
        return false;
    }
    assert_eq!(rt; found, *word);
    true
}

/// Writes a word to the disk of a job that has one. The volume of number 0 is synced.
fn work<D: Disk>(rt: &impl Abort, job: &mut VolumeJob<D>, word: &[u8; 4])
    ensures device { job.new.device ≡ job.old.device }
    ensures disk { OnDisks (λ was is. WorkedOn D.tells (D.state was) (D.state is)) job.old.disk job.new.disk }
{
    if let Some(disk) = &mut job.disk {
        job.failed = !put_word(rt, disk, word);
        if job.device == 0 && disk.sync().is_err() {
            job.failed = true;
        }
    }
}

fn work_all<D: Disk>(rt: &impl Abort, jobs: &mut [VolumeJob<D>], word: &[u8; 4])
    ensures { AreWorkedOn D.tells D.state jobs.old jobs.new }
{
    for job in jobs.iter_mut() {
        work(rt, job, word);
    }
}

/// Lends the volumes that are wanted, writes a word to each and gives them back.
fn run<P: Plant>(
    rt: &impl Abort,
    plant: &mut P,
    jobs: &mut [VolumeJob<P::Volume>],
    wanted: [bool; 3],
    word: &[u8; 4],
)
    requires home { NoneLent (P.state plant.old) }
    requires three { length jobs.old ≡ 3 }
    requires there { All (λ job. job.device < 3) jobs.old }
    requires apart { AreApart jobs.old }
    requires idle { All (λ job. job.disk ≡ None) jobs.old }
    ensures { NoneLent (P.state plant.new) }
{
    assert!(rt; plant.volumes() == 3);
    lend_all(plant, jobs, &wanted);
    work_all(rt, jobs, word);
    give_back_all(plant, jobs);
}

/// Runs on a plant with a past with three jobs, of which some failed before. They end so.
fn run_jobs(
    rt: &impl Abort,
    alloc: Global,
    plant: &mut MemoryPlant,
    wanted: [bool; 3],
    failed: [bool; 3],
    word: &[u8; 4],
    ends: [bool; 3],
)
    requires { NoneLent (memory_state plant.old) }
    ensures { NoneLent (memory_state plant.new) }
{
    let mut jobs = three_jobs(rt, alloc, failed);
    run(rt, plant, &mut jobs, wanted, word);
    let [first, second, third] = jobs;
    let found = [end(rt, first), end(rt, second), end(rt, third)];
    assert_same(rt, &found, &ends, word);
}

/// Writes the word to the outer volumes of a plant without a past.
fn run_plain(rt: &impl Abort, alloc: Global, plant: &mut PlainPlant)
    requires { NoneLent (plain_state plant.old) }
    ensures { NoneLent (plain_state plant.new) }
{
    let mut jobs = three_jobs(rt, alloc, NONE);
    run(rt, plant, &mut jobs, OUTER, b"WXYZ");
    let [first, second, third] = jobs;
    let found = [end(rt, first), end(rt, second), end(rt, third)];
    assert_same(rt, &found, &NONE, &"without a past");
}

/// The volumes begin so.
fn assert_fronts<P: Plant>(rt: &impl Abort, plant: &mut P, expected: &[Front; 3])
    requires { NoneLent (P.state plant.old) }
    ensures { NoneLent (P.state plant.new) }
{
    assert_holds(rt, plant, Device::Volume(0), 0, &expected[0]);
    assert_holds(rt, plant, Device::Volume(1), 0, &expected[1]);
    assert_holds(rt, plant, Device::Volume(2), 0, &expected[2]);
}

/// A crash leaves the volumes so.
fn assert_left(
    rt: &impl Abort,
    alloc: Global,
    plant: &MemoryPlant,
    choice: &[u8],
    expected: &[Front; 3],
)
    requires { NoneLent (memory_state plant.now) }
{
    let mut left = plant.crash(alloc, choice).expect(rt, "memory");
    assert_fronts(rt, &mut left, expected);
}

#[test]
fn two_of_three_volumes_are_worked_on(rt: HostRuntime) {
    let alloc = rt.alloc();
    let mut plant = plain(&rt, alloc, 3);
    run_plain(&rt, alloc, &mut plant);
    assert_fronts(&rt, &mut plant, &[WRITTEN, NOTHING, WRITTEN]);
}

#[test]
fn a_crash_fills_what_is_open_on_each(rt: HostRuntime) {
    let alloc = rt.alloc();
    let mut plant = planned(&rt, alloc, 3, &[]);
    run_jobs(&rt, alloc, &mut plant, OUTER, NONE, b"WXYZ", NONE);
    assert_fronts(&rt, &mut plant, &[WRITTEN, NOTHING, WRITTEN]);
    let rows: [(&[u8], Front); 3] = [
        (&[], NOTHING),
        (&[1], [0, 0, 1, 1, 1, 1, 0, 0]),
        (&[0xff], [0, 0, 0xff, 0xff, 0xff, 0xff, 0, 0]),
    ];
    for (choice, open) in rows {
        assert_left(&rt, alloc, &plant, choice, &[WRITTEN, NOTHING, open]);
    }
}

#[test]
fn no_volume_is_wanted(rt: HostRuntime) {
    let alloc = rt.alloc();
    let stop = fail_at(Some(Device::Volume(0)), 0, true);
    let mut plant = planned(&rt, alloc, 3, &[stop]);
    run_jobs(&rt, alloc, &mut plant, NONE, NONE, b"WXYZ", NONE);
    assert_left(&rt, alloc, &plant, &[1], &[NOTHING; 3]);
}

#[test]
fn a_volume_whose_read_fails_is_lent_no_more(rt: HostRuntime) {
    let alloc = rt.alloc();
    let read = fail_at(Some(Device::Volume(2)), 1, false);
    let mut plant = planned(&rt, alloc, 3, &[read]);
    let last = [false, false, true];
    run_jobs(&rt, alloc, &mut plant, OUTER, NONE, b"WXYZ", last);
    run_jobs(&rt, alloc, &mut plant, [true; 3], last, b"abcd", last);
    let other = *b"\0\0abcd\0\0";
    assert_fronts(&rt, &mut plant, &[other, other, WRITTEN]);
}

#[test]
fn a_stop_on_a_lent_volume_begins_for_the_others_once_it_is_back(rt: HostRuntime) {
    let alloc = rt.alloc();
    let stop = fail_at(Some(Device::Volume(0)), 0, true);
    let mut plant = planned(&rt, alloc, 3, &[stop]);
    let first = [true, false, false];
    run_jobs(&rt, alloc, &mut plant, [true; 3], NONE, b"WXYZ", first);
    let found = read_at(&rt, &mut plant, Device::Volume(1), 0, &mut [0; 8]);
    assert_same(&rt, &found, &Err(Failed), &"another volume");
    let open = [0, 0, 1, 1, 1, 1, 0, 0];
    assert_left(&rt, alloc, &plant, &[1], &[open; 3]);
    run_jobs(&rt, alloc, &mut plant, OUTER, NONE, b"abcd", OUTER);
}
