//! Groups turned into bodies, over a volume of each of two plants: entries of two devices and several tracks, each read failing
//! in turn, a job that had failed, and no entries.

ghost use Rattle.std.specs.Prelude.{◌≡◌, ◌≤◌, find, IsSomeAnd};
ghost use Rattle.std.specs.List.{All};
ghost use Rattle.crash_plant.specs.Calls.{NoneLent};
ghost use Rattle.crash_plant.specs.MemoryPlant.{memory_state};
ghost use Rattle.crash_plant.specs.MemoryVolume.{volume_standing};
ghost use Rattle.image_former.specs.Entries.{entry_device, is_row_of, row_device};

use crate::entries::{add, format, update, whole};
use crate::fixtures::{assert_same, first_row, put_row, second_row, session};
use ckd_track::Slot;
use crash_plant::{Device, Disk, MemoryPlant, MemoryVolume, Plant};
use image_former::form_body;
use pair_table::{PairState, PairTable};
use pending_queue::{EntryHead, Formed};
use std::alloc::Global;
use std::process::Abort;
use test_fixtures::{fail_at, failing, put, zeros};
use xrc_journal::{Body, VolumeJob};

/// The most bytes of a test's items.
const ROOM: u32 = 600_000;

/// The length of a volume that ends with the slot of track 3.
const FOUR_TRACKS: u64 = 229_888;

/// Volume 7 of controller 0 has its secondary on device 0, and volume 5 on device 1.
fn worked_table(rt: &impl Abort, alloc: Global) -> PairTable {
    let mut table = PairTable::make(alloc, session(rt)).expect(rt, "memory");
    put_row(rt, alloc, &mut table, first_row(rt, 7));
    let second = second_row(rt, 5, 1, 1, PairState::Duplex);
    put_row(rt, alloc, &mut table, second);
    table
}

/// The device of the row of an entry.
fn found_device(table: &PairTable, head: EntryHead) -> Option<u16>
    ensures { result ≡ row_device (find (is_row_of head) table.now.rows) }
{
    let row = table.rows().iter().find(|row| row.control == head.control
        && row.volume == head.volume);
    row.map(|row| row.device)
}

/// Each entry is on one of the first four tracks of device 0 or 1.
fn assert_low(rt: &impl Abort, formed: &Formed, table: &PairTable)
    ensures tracks { All (λ entry. entry.head.track ≤ 3) formed.now.entries }
    ensures devices { All (λ entry. IsSomeAnd (entry_device table.now.rows entry) (λ device. device ≤ 1)) formed.now.entries }
{
    for place in 0..formed.count() {
        let head = formed.head(place);
        assert!(rt; head.track <= 3);
        let device = found_device(table, head).expect(rt, "a row");
        assert!(rt; device <= 1);
    }
}

/// A group with no entries.
fn empty_group(rt: &impl Abort, alloc: Global) -> Formed
    ensures { result.controls ≡ 1 }
{
    Formed::make(alloc, 1).expect(rt, "memory")
}

/// On device 0 two updates of track 0, a format of track 1, which holds no track, and a whole of track 2 that is updated. On device
/// 1 an update of track 0, and of track 3 a format between two wholes.
fn worked_group(rt: &impl Abort, alloc: Global) -> Formed
    ensures { result.controls ≡ 1 }
{
    let mut formed = empty_group(rt, alloc);
    let out = &mut formed;
    add(rt, alloc, out, (7, 0), 10, update(rt, alloc, b"XY"));
    add(rt, alloc, out, (5, 0), 11, update(rt, alloc, b"P"));
    add(rt, alloc, out, (7, 1), 12, format(rt, alloc, b"CD"));
    add(rt, alloc, out, (7, 0), 13, update(rt, alloc, b"Z"));
    add(rt, alloc, out, (7, 2), 14, whole(rt, alloc, b"EF"));
    add(rt, alloc, out, (5, 3), 15, whole(rt, alloc, b"GH"));
    add(rt, alloc, out, (5, 3), 16, format(rt, alloc, b"IJ"));
    add(rt, alloc, out, (7, 2), 17, update(rt, alloc, b"K"));
    add(rt, alloc, out, (5, 3), 18, whole(rt, alloc, b"LM"));
    formed
}

/// A plant with a volume, of which this call fails, where one is given. Slot 0 has record 1 with the bytes A and B, and no other slot
/// holds a track.
fn filled(rt: &impl Abort, alloc: Global, call: Option<u64>) -> MemoryPlant
    ensures { NoneLent (memory_state result) }
{
    let volume = Device::Volume(0);
    let made = zeros(alloc, (2, 200), (1, FOUR_TRACKS), b"");
    let mut plain = made.expect(rt, "memory");
    assert!(rt; put(&mut plain, volume, 512, &[0, 1, 1, 0, 0, 2, 0x41, 0x42]));
    assert!(rt; put(&mut plain, volume, 57_856, &[7; 8]));
    let planned = match call {
        Some(call) => failing(alloc, plain, &[fail_at(Some(volume), call, false)]),
        None => failing(alloc, plain, &[]),
    };
    planned.expect(rt, "memory")
}

/// A job for a device on a volume of which this call fails.
fn job(
    rt: &impl Abort,
    alloc: Global,
    device: u16,
    call: Option<u64>,
    failed: bool,
) -> VolumeJob<MemoryVolume>
    ensures device { result.device ≡ device }
    ensures disk { IsSomeAnd result.disk (λ volume. (volume_standing volume).length_is ≡ FOUR_TRACKS) }
{
    let mut plant = filled(rt, alloc, call);
    assert!(rt; plant.volumes() == 1);
    let slot = Slot::make(alloc).expect(rt, "memory");
    let volume = plant.lend(0);
    assert!(rt; volume.length() == FOUR_TRACKS);
    VolumeJob {
        device,
        disk: Some(volume),
        slot,
        failed,
    }
}

/// Calls of the two volumes that fail, whether their jobs had failed, the body that is formed, and whether the jobs have failed
/// then.
type Row<'a> = (
    (Option<u64>, Option<u64>),
    (bool, bool),
    &'a [u8],
    (bool, bool),
);

/// Forms a group over two volumes.
fn forms(rt: &impl Abort, alloc: Global, formed: &Formed, row: &Row<'_>) {
    let (calls, failed, expected, marks) = *row;
    let table = worked_table(rt, alloc);
    assert_low(rt, formed, &table);
    assert!(rt; formed.count() <= 10);
    let first = job(rt, alloc, 0, calls.0, failed.0);
    let second = job(rt, alloc, 1, calls.1, failed.1);
    let mut jobs = [first, second];
    let mut body = Body::make(alloc, ROOM).expect(rt, "memory");
    form_body(formed, &table, &mut jobs, &mut body);
    assert_same(rt, &body.bytes(), &expected, row);
    assert_same(rt, &(jobs[0].failed, jobs[1].failed), &marks, row);
}

/// The images of device 0: track 0 with both updates, track 1 formatted, track 2 as the whole and its update left it.
const FIRST: [u8; 45] = [
    1, 0, 0, 0, 0, 0, 0, 0, 1, 1, 0, 0, 2, 0x5A, 0, 1, 0, 0, 0, 0, 0, 1, 0, 1, 1, 0, 0, 2, 0x43,
    0x44, 1, 0, 0, 0, 0, 0, 2, 0, 1, 1, 0, 0, 2, 0x4B, 0,
];

/// The images of device 1: track 0 updated, and the last whole of track 3.
const SECOND: [u8; 30] = [
    1, 0, 1, 0, 0, 0, 0, 0, 1, 1, 0, 0, 2, 0x50, 0, 1, 0, 1, 0, 0, 0, 3, 0, 1, 1, 0, 0, 2, 0x4C,
    0x4D,
];

/// All of them, in the order of the first entries on their tracks.
const BOTH: [u8; 75] = [
    1, 0, 0, 0, 0, 0, 0, 0, 1, 1, 0, 0, 2, 0x5A, 0, 1, 0, 1, 0, 0, 0, 0, 0, 1, 1, 0, 0, 2, 0x50, 0,
    1, 0, 0, 0, 0, 0, 1, 0, 1, 1, 0, 0, 2, 0x43, 0x44, 1, 0, 0, 0, 0, 0, 2, 0, 1, 1, 0, 0, 2, 0x4B,
    0, 1, 0, 1, 0, 0, 0, 3, 0, 1, 1, 0, 0, 2, 0x4C, 0x4D,
];

/// None had failed.
const GOOD: (bool, bool) = (false, false);

/// No call fails; the images of a volume whose read fails are left out, and the reads of both are done again after one of them failed;
/// a slot whose front holds no track is read once more, and no volume oftener than so; and a job that had failed is left alone.
const WORKED: [Row<'static>; 10] = [
    ((None, None), GOOD, &BOTH, GOOD),
    ((Some(0), None), GOOD, &SECOND, (true, false)),
    ((Some(1), None), GOOD, &SECOND, (true, false)),
    ((None, Some(0)), GOOD, &FIRST, (false, true)),
    ((Some(1), Some(1)), GOOD, &[], (true, true)),
    ((Some(2), None), GOOD, &SECOND, (true, false)),
    ((Some(3), Some(1)), GOOD, &BOTH, GOOD),
    ((Some(0), None), (true, false), &SECOND, (true, false)),
    ((None, Some(0)), (false, true), &FIRST, (false, true)),
    ((Some(0), Some(0)), (true, true), &[], (true, true)),
];

#[test]
fn each_track_has_the_image_that_its_entries_leave(rt: HostRuntime) {
    let alloc = rt.alloc();
    let formed = worked_group(&rt, alloc);
    for row in &WORKED {
        forms(&rt, alloc, &formed, row);
    }
}

#[test]
fn no_entries_and_whole_tracks_read_nothing(rt: HostRuntime) {
    let alloc = rt.alloc();
    let fails = (Some(0), Some(0));
    let mut formed = empty_group(&rt, alloc);
    forms(&rt, alloc, &formed, &(fails, GOOD, &[], GOOD));
    let image = [1, 0, 0, 0, 0, 0, 1, 0, 1, 1, 0, 0, 2, 0x43, 0x44];
    add(
        &rt,
        alloc,
        &mut formed,
        (7, 1),
        10,
        whole(&rt, alloc, b"CD"),
    );
    forms(&rt, alloc, &formed, &(fails, GOOD, &image, GOOD));
}
