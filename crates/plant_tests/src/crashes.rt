//! What a crash leaves of the devices of a plant: after writes and syncs, after calls that failed, and of volumes that were lent.

ghost use Rattle.std.specs.Prelude.{◌≡◌, ◌≤◌};
ghost use Rattle.crash_plant.specs.Calls.{NoneLent};
ghost use Rattle.crash_plant.specs.MemoryPlant.{memory_state};
ghost use Rattle.crash_plant.specs.Moments.{SamePast};

use crate::fixtures::{assert_holds, assert_there, planned, sync_at, write_at};
use crash_plant::{Device, Disk, Fail, MemoryPlant, Plant};
use std::alloc::Global;
use std::process::Abort;
use test_fixtures::fail_at;
use xrc_edge::Failed;

/// What is done to a journal before a crash.
#[derive(Clone, Copy)]
enum Step<'a> {
    Write(u64, &'a [u8]),
    Sync,
}

const JOURNAL: Device = Device::Journal(0);

const WORD: Step<'static> = Step::Write(2, b"WXYZ");

fn take_step<P: Plant>(rt: &impl Abort, plant: &mut P, step: Step<'_>) -> Result<(), Failed>
    requires { NoneLent (P.state plant.old) }
    ensures { NoneLent (P.state plant.new) }
{
    match step {
        Step::Write(place, bytes) => write_at(rt, plant, JOURNAL, place, bytes),
        Step::Sync => sync_at(rt, plant, JOURNAL),
    }
}

/// A device holds these bytes at its front once the plant crashed.
fn leaves(
    rt: &impl Abort,
    alloc: Global,
    plant: &MemoryPlant,
    device: Device,
    choice: &[u8],
    expected: &[u8; 10],
)
    requires { NoneLent (memory_state plant.now) }
{
    let mut left = plant.crash(alloc, choice).expect(rt, "memory");
    assert_holds(rt, &mut left, device, 0, expected);
}

/// A call of the journal that fails, the steps on it, what a crash leaves in open ranges, and the journal's front then.
type Row = (
    Option<u64>,
    &'static [Step<'static>],
    &'static [u8],
    &'static [u8; 10],
);

const SYNC: Step<'static> = Step::Sync;

/// Ranges that overlap, and that lie within one another, in the order of the calls; ranges that a sync closed; and calls that
/// failed, which leave their ranges open.
const ROWS: [Row; 12] = [
    (None, &[], &[1], &[0; 10]),
    (None, &[WORD], &[], &[0; 10]),
    (None, &[WORD], &[1], &[0, 0, 1, 1, 1, 1, 0, 0, 0, 0]),
    (
        None,
        &[WORD],
        &[0xff],
        &[0, 0, 0xff, 0xff, 0xff, 0xff, 0, 0, 0, 0],
    ),
    (
        None,
        &[WORD, Step::Write(4, b"WXYZ")],
        &[1, 2, 3],
        &[0, 0, 1, 2, 1, 2, 3, 1, 0, 0],
    ),
    (
        None,
        &[WORD, Step::Write(3, b"ab")],
        &[1, 2, 3],
        &[0, 0, 1, 1, 2, 1, 0, 0, 0, 0],
    ),
    (
        None,
        &[Step::Write(3, b"ab"), WORD],
        &[1, 2, 3],
        &[0, 0, 1, 2, 3, 1, 0, 0, 0, 0],
    ),
    (None, &[WORD, SYNC], &[0xff], b"\0\0WXYZ\0\0\0\0"),
    (
        None,
        &[WORD, SYNC, Step::Write(4, b"ab")],
        &[1],
        b"\0\0WX\x01\x01\0\0\0\0",
    ),
    (Some(0), &[WORD], &[1], &[0, 0, 1, 1, 1, 1, 0, 0, 0, 0]),
    (Some(0), &[WORD, SYNC], &[1], b"\0\0WX\0\0\0\0\0\0"),
    (
        Some(1),
        &[WORD, SYNC],
        &[1],
        &[0, 0, 1, 1, 1, 1, 0, 0, 0, 0],
    ),
];

/// Takes the steps on a journal and crashes.
fn run(rt: &impl Abort, alloc: Global, row: &Row) {
    let (call, steps, choice, expected) = *row;
    let mut plant = match call {
        Some(call) => planned(rt, alloc, 2, &[fail_at(Some(JOURNAL), call, false)]),
        None => planned(rt, alloc, 2, &[]),
    };
    for step in steps {
        let _ = take_step(rt, &mut plant, *step);
    }
    leaves(rt, alloc, &plant, JOURNAL, choice, expected);
    leaves(rt, alloc, &plant, Device::State, choice, &[0; 10]);
}

#[test]
fn a_crash_fills_the_open_ranges(rt: HostRuntime) {
    for row in &ROWS {
        run(&rt, rt.alloc(), row);
    }
}

/// Writes bytes to a volume that is lent.
fn write_own<D: Disk>(rt: &impl Abort, volume: &mut D, place: u64, bytes: &[u8])
    ensures past { D.tells → SamePast (D.state volume.old) (D.state volume.new) }
    ensures length { (D.state volume.new).length_is ≡ (D.state volume.old).length_is }
    ensures faults { (D.state volume.old).faults ≤ (D.state volume.new).faults }
{
    let length = volume.length();
    assert!(rt; place <= length && bytes.len() as u64 <= length - place);
    assert!(rt; volume.write(place, bytes).is_ok());
}

fn sync_own<D: Disk>(rt: &impl Abort, volume: &mut D)
    ensures past { D.tells → SamePast (D.state volume.old) (D.state volume.new) }
    ensures length { (D.state volume.new).length_is ≡ (D.state volume.old).length_is }
    ensures faults { (D.state volume.old).faults ≤ (D.state volume.new).faults }
{
    assert!(rt; volume.sync().is_ok());
}

/// Writes to a volume that is lent for it, and syncs it between.
fn work_lent(rt: &impl Abort, plant: &mut MemoryPlant, number: u16)
    requires { NoneLent (memory_state plant.old) }
    ensures { NoneLent (memory_state plant.new) }
{
    assert_there(rt, plant, Device::Volume(number));
    let mut volume = plant.lend(number);
    write_own(rt, &mut volume, 2, b"WXYZ");
    sync_own(rt, &mut volume);
    write_own(rt, &mut volume, 4, b"ab");
    plant.give_back(number, volume);
}

/// Writes to two volumes in turn while both are lent, and syncs them. The second is written to once more.
fn work_both(rt: &impl Abort, plant: &mut MemoryPlant)
    requires { NoneLent (memory_state plant.old) }
    ensures { NoneLent (memory_state plant.new) }
{
    assert_there(rt, plant, Device::Volume(0));
    assert_there(rt, plant, Device::Volume(1));
    let mut first = plant.lend(0);
    let mut second = plant.lend(1);
    write_own(rt, &mut second, 2, b"WX");
    write_own(rt, &mut first, 2, b"ab");
    sync_own(rt, &mut second);
    sync_own(rt, &mut first);
    write_own(rt, &mut second, 4, b"YZ");
    plant.give_back(0, first);
    plant.give_back(1, second);
}

#[test]
fn two_volumes_are_lent_at_once(rt: HostRuntime) {
    let alloc = rt.alloc();
    let mut plant = planned(&rt, alloc, 2, &[]);
    work_both(&rt, &mut plant);
    leaves(
        &rt,
        alloc,
        &plant,
        Device::Volume(0),
        &[1],
        b"\0\0ab\0\0\0\0\0\0",
    );
    leaves(
        &rt,
        alloc,
        &plant,
        Device::Volume(1),
        &[1],
        b"\0\0WX\x01\x01\0\0\0\0",
    );
}

#[test]
fn what_is_written_while_a_volume_is_lent_is_open(rt: HostRuntime) {
    let alloc = rt.alloc();
    let mut plant = planned(&rt, alloc, 2, &[]);
    let first = Device::Volume(0);
    let second = Device::Volume(1);
    assert!(rt; write_at(&rt, &mut plant, first, 8, b"q").is_ok());
    work_lent(&rt, &mut plant, 0);
    assert!(rt; write_at(&rt, &mut plant, first, 0, b"p").is_ok());
    leaves(&rt, alloc, &plant, first, &[1], b"\x01\0WX\x01\x01\0\0q\0");
    leaves(&rt, alloc, &plant, second, &[1], &[0; 10]);
    work_lent(&rt, &mut plant, 1);
    leaves(&rt, alloc, &plant, second, &[1], b"\0\0WX\x01\x01\0\0\0\0");
}
