//! Volumes worked on side by side: disks that wait for each other, and volumes of which one fails.

ghost use Rattle.std.specs.Prelude.{◌≡◌, ◌<◌, ◌≤◌, List, [], ◌∷◌, All, None, length};
ghost use Rattle.ckd_track.specs.declared.rec.Rec.{Rec};
ghost use Rattle.crash_plant.specs.Calls.{NoneLent};
ghost use Rattle.crash_plant.specs.MemoryPlant.{memory_state};
ghost use Rattle.xrc_journal.specs.Items.Item.{Image};
ghost use Rattle.applier.specs.Disks.{AreApart};
ghost use Rattle.applier.specs.Sides.{HasItsSlots};

use crate::fixtures::{assert_holds, assert_same, assert_there};
use crate::loans::{end, three_jobs};
use applier::{VolumeJob, apply_all, give_back_all, lend_all, sync_all};
use ckd_track::Slot;
use crash_plant::{Device, Disk, MemoryPlant, PlainDisk, Plant};
use std::alloc::Global;
use std::process::Abort;
use std::sync::atomic::{AtomicBool, Ordering};
use std::thread::{Threads, yield_now};
use test_fixtures::{fail_at, failing, zeros};
use xrc_edge::Failed;
use xrc_journal::Body;

/// What a slot begins with.
type Front = [u8; 8];

/// A track with record 1, which has the bytes A and B.
const IMAGE: Front = *b"\0\x01\x01\0\0\x02AB";

const NOTHING: Front = [0; 8];

/// What a write of the image that fails leaves.
const TORN: Front = *b"\0\x01\x01\0\0\0\0\0";

const FILLED: Front = [0xff; 8];

/// The place of the slot of track 0.
const PLACE: u64 = 512;

/// The length of a volume with that slot alone.
const LENGTH: u64 = 57_856;

/// How often a write looks whether the other one has begun.
const TURNS: u32 = 100_000_000;

/// After so many turns another thread may run.
const PAUSE: u32 = 1_000;

/// A body with an image of track 0 of volumes 0 and 2.
fn two_images(rt: &impl Abort, alloc: Global) -> Body
    ensures { (slot : List Rec) × (result.items ≡ Image 0 0 slot ∷ Image 2 0 slot ∷ []) }
{
    let mut slot = Slot::make(alloc).expect(rt, "memory");
    assert!(rt; slot.load(&IMAGE).is_ok());
    assert!(rt; slot.bytes().len() == 8);
    let mut body = Body::make(alloc, 100).expect(rt, "memory");
    body.put_image(0, 0, &slot);
    body.put_image(2, 0, &slot);
    body
}

/// The job's disk has the slot of track 0; or the job has none, and failed or is one of volume 1.
fn assert_room<D: Disk>(rt: &impl Abort, job: &VolumeJob<D>)
    ensures { (slot : List Rec) → HasItsSlots D.state (Image 0 0 slot ∷ Image 2 0 slot ∷ []) job.now }
{
    match &job.disk {
        Some(disk) => assert!(rt; disk.length() >= LENGTH),
        None => assert!(rt; job.failed || job.device == 1),
    }
}

/// The jobs have room for the images of such a body.
fn assert_rooms<D: Disk>(rt: &impl Abort, _body: &Body, jobs: &[VolumeJob<D>])
    requires { (slot : List Rec) × (_body.now.items ≡ Image 0 0 slot ∷ Image 2 0 slot ∷ []) }
    ensures { All (HasItsSlots D.state _body.now.items) jobs.now }
{
    for job in jobs {
        assert_room(rt, job);
    }
}

/// A disk whose write waits until that of another one has begun.
#[derive(Drop)]
struct WaitingDisk<'a> {
    disk: PlainDisk,
    has_begun: &'a AtomicBool,
    other: &'a AtomicBool,
    // Whether the other write began in time.
    has_met: bool,
}

/// Says that the own write has begun, and waits until the other one has. False where that takes too long.
fn meet(own: &AtomicBool, other: &AtomicBool) -> bool {
    own.store(true, Ordering::SeqCst);
    for turn in 0..TURNS {
        if other.load(Ordering::SeqCst) {
            return true;
        }
        if turn % PAUSE == 0 {
            yield_now();
        }
    }
    false
}

impl<'a> Disk for WaitingDisk<'a> {
    ghost use Rattle.crash_plant.specs.PlainPlant.{disk_standing};
    ghost use Rattle.std.specs.Prelude.{refl};

    ghost state = { λ waiting. disk_standing waiting.disk };

    ghost tells = { Unit {0} };

    ghost read_is_image = { λ waiting told. refl };

    ghost length_told = { λ waiting told. refl };

    fn length(&self) -> u64 {
        self.disk.length()
    }

    fn read(&mut self, place: u64, into: &mut [u8]) -> Result<(), Failed> {
        self.disk.read(place, into)
    }

    fn write(&mut self, place: u64, bytes: &[u8]) -> Result<(), Failed> {
        self.has_met = meet(self.has_begun, self.other);
        self.disk.write(place, bytes)
    }

    fn sync(&mut self) -> Result<(), Failed> {
        self.disk.sync()
    }
}

/// The one volume of a plant of its own.
fn volume(rt: &impl Abort, alloc: Global) -> PlainDisk {
    let mut plant = zeros(alloc, (0, 0), (1, LENGTH), b"").expect(rt, "memory");
    assert_there(rt, &plant, Device::Volume(0));
    plant.lend(0)
}

/// A job whose disk waits.
fn waiting_job<'a>(
    rt: &impl Abort,
    alloc: Global,
    device: u16,
    has_begun: &'a AtomicBool,
    other: &'a AtomicBool,
) -> VolumeJob<WaitingDisk<'a>> {
    let mut job = VolumeJob::make(alloc, device).expect(rt, "memory");
    job.disk = Some(WaitingDisk {
        disk: volume(rt, alloc),
        has_begun,
        other,
        has_met: false,
    });
    job
}

/// The job's write met the other one, and the image is in its slot.
fn assert_met(rt: &impl Abort, job: &mut VolumeJob<WaitingDisk<'_>>) {
    assert!(rt; !job.failed);
    let device = job.device;
    let Some(waiting) = &mut job.disk else {
        panic!(rt; "a job has no disk");
    };
    assert!(rt; waiting.has_met);
    assert!(rt; waiting.length() == LENGTH);
    let mut found = NOTHING;
    assert!(rt; waiting.read(PLACE, &mut found).is_ok());
    assert_same(rt, &found, &IMAGE, &device);
}

/// Two volumes whose writes wait for each other, and two jobs that have no disk.
fn work_waiting<R: Threads + Sync + Abort>(
    rt: &R,
    alloc: Global,
    body: &Body,
    first: &AtomicBool,
    second: &AtomicBool,
)
    requires { (slot : List Rec) × (body.now.items ≡ Image 0 0 slot ∷ Image 2 0 slot ∷ []) }
{
    let mut jobs = [
        waiting_job(rt, alloc, 0, first, second),
        waiting_job(rt, alloc, 2, second, first),
        VolumeJob::make(alloc, 1).expect(rt, "memory"),
        VolumeJob::make(alloc, 1).expect(rt, "memory"),
    ];
    assert_rooms(rt, body, &jobs);
    apply_all(rt, body, &mut jobs);
    assert_met(rt, &mut jobs[0]);
    assert_met(rt, &mut jobs[1]);
}

#[test]
fn two_disks_wait_for_each_other(rt: HostRuntime) {
    let alloc = rt.alloc();
    let body = two_images(&rt, alloc);
    let first = AtomicBool::new(false);
    let second = AtomicBool::new(false);
    work_waiting(&rt, alloc, &body, &first, &second);
}

/// A call of a volume that fails, the volumes that are wanted, which jobs have failed at the end, and what their slots of track 0
/// begin with then: as they are read, and as a crash leaves them that fills what is open.
type Row = (
    Option<(u16, u64)>,
    [bool; 3],
    [bool; 3],
    [Front; 3],
    [Front; 3],
);

const ALL: [bool; 3] = [true; 3];

const NONE: [bool; 3] = [false; 3];

const DONE: [Front; 3] = [IMAGE, NOTHING, IMAGE];

/// A body has items of volumes 0 and 2. So volume 1 is synced alone, where it is lent.
const ROWS: [Row; 6] = [
    (None, ALL, NONE, DONE, DONE),
    (
        Some((2, 0)),
        ALL,
        [false, false, true],
        [IMAGE, NOTHING, TORN],
        [IMAGE, NOTHING, FILLED],
    ),
    (
        Some((0, 1)),
        ALL,
        [true, false, false],
        DONE,
        [FILLED, NOTHING, IMAGE],
    ),
    (Some((1, 0)), ALL, [false, true, false], DONE, DONE),
    // The first call that fails is one after those that are made here and the one that reads the slot.
    (Some((1, 1)), [true, false, true], NONE, DONE, DONE),
    (Some((2, 3)), ALL, NONE, DONE, DONE),
];

/// Lends the volumes that are wanted, applies the body to them, syncs them, and gives them back.
fn work_lent<R: Threads + Sync + Abort, P: Plant>(
    rt: &R,
    plant: &mut P,
    body: &Body,
    jobs: &mut [VolumeJob<P::Volume>],
    wanted: [bool; 3],
)
    requires home { NoneLent (P.state plant.old) }
    requires three { length jobs.old ≡ 3 }
    requires there { All (λ job. job.device < 3) jobs.old }
    requires apart { AreApart jobs.old }
    requires idle { All (λ job. job.disk ≡ None) jobs.old }
    requires items { (slot : List Rec) × (body.now.items ≡ Image 0 0 slot ∷ Image 2 0 slot ∷ []) }
    ensures { NoneLent (P.state plant.new) }
{
    assert!(rt; plant.volumes() == 3);
    lend_all(plant, jobs, &wanted);
    assert_rooms(rt, body, jobs);
    apply_all(rt, body, jobs);
    sync_all(rt, jobs);
    give_back_all(plant, jobs);
}

/// The slots of track 0 begin so.
fn assert_slots<P: Plant>(rt: &impl Abort, plant: &mut P, expected: &[Front; 3])
    requires { NoneLent (P.state plant.old) }
    ensures { NoneLent (P.state plant.new) }
{
    assert_holds(rt, plant, Device::Volume(0), PLACE, &expected[0]);
    assert_holds(rt, plant, Device::Volume(1), PLACE, &expected[1]);
    assert_holds(rt, plant, Device::Volume(2), PLACE, &expected[2]);
}

/// A plant of three volumes with its past, of which this call fails.
fn three_volumes(rt: &impl Abort, alloc: Global, fail: Option<(u16, u64)>) -> MemoryPlant
    ensures { NoneLent (memory_state result) }
{
    let plain = zeros(alloc, (1, 64), (3, LENGTH), b"").expect(rt, "memory");
    match fail {
        Some((number, call)) => {
            let fails = [fail_at(Some(Device::Volume(number)), call, false)];
            failing(alloc, plain, &fails).expect(rt, "memory")
        }
        None => failing(alloc, plain, &[]).expect(rt, "memory"),
    }
}

/// Works on the volumes that are wanted, and says which jobs have failed at the end.
fn work_jobs<R: Threads + Sync + Abort>(
    rt: &R,
    alloc: Global,
    plant: &mut MemoryPlant,
    body: &Body,
    wanted: [bool; 3],
) -> [bool; 3]
    requires home { NoneLent (memory_state plant.old) }
    requires items { (slot : List Rec) × (body.now.items ≡ Image 0 0 slot ∷ Image 2 0 slot ∷ []) }
    ensures { NoneLent (memory_state plant.new) }
{
    let mut jobs = three_jobs(rt, alloc, NONE);
    work_lent(rt, plant, body, &mut jobs, wanted);
    let [first, second, third] = jobs;
    [end(rt, first), end(rt, second), end(rt, third)]
}

fn run<R: Threads + Sync + Abort>(rt: &R, alloc: Global, row: &Row) {
    let (fail, wanted, ends, read, left) = *row;
    let mut plant = three_volumes(rt, alloc, fail);
    let body = two_images(rt, alloc);
    let found = work_jobs(rt, alloc, &mut plant, &body, wanted);
    assert_same(rt, &found, &ends, &fail);
    assert_slots(rt, &mut plant, &read);
    let mut crashed = plant.crash(alloc, &[0xff]).expect(rt, "memory");
    assert_slots(rt, &mut crashed, &left);
}

#[test]
fn volumes_are_written_and_synced_side_by_side(rt: HostRuntime) {
    for row in &ROWS {
        run(&rt, rt.alloc(), row);
    }
}
