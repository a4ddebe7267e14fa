//! A crash while a group is logged after another, and one while a group over two volumes is applied.

ghost use Rattle.std.specs.Prelude.{◌≡◌};
ghost use Rattle.crash_plant.specs.Calls.{NoneLent};
ghost use Rattle.crash_plant.specs.MemoryPlant.{memory_state};

use crate::calls::{apply, log, log_applied, mark};
use crate::entries::{add, update, whole};
use crate::fixtures::{
    CHOICES, DUPLEX, Left, assert_same, group, paired, plant, recovered_with, slots_left,
};
use crash_plant::{Device, MemoryPlant, Plant};
use pair_table::Level;
use pending_queue::Formed;
use site_store::StoreError;
use std::alloc::Global;
use std::process::Abort;
use std::thread::Threads;
use test_fixtures::fail_at;

/// The track of the entries.
const TRACK: u32 = 3;

/// A group with this cut, with the image of an entry of this stamp on the track of each of the first volumes.
fn images_of(rt: &impl Abort, alloc: Global, times: (u64, u64), volumes: u16) -> Formed
    ensures { result.controls ≡ 1 }
{
    let (cut, stamp) = times;
    let mut formed = group(rt, alloc, cut);
    for volume in 0..volumes {
        let kind = whole(rt, alloc, b"AB");
        add(rt, alloc, &mut formed, (volume, TRACK), stamp, kind);
    }
    formed
}

/// A group with the cut [80], with an update on the track.
fn second_group(rt: &impl Abort, alloc: Global) -> Formed
    ensures { result.controls ≡ 1 }
{
    let mut formed = group(rt, alloc, 0x80);
    let kind = update(rt, alloc, b"Z");
    add(rt, alloc, &mut formed, (0, TRACK), 0x6E, kind);
    formed
}

/// A group with the cut [6D] is logged, applied and marked, and then one with the cut [80] is logged.
fn log_two<R: Threads + Sync + Abort, P: Plant>(
    rt: &R,
    alloc: Global,
    plant: &mut P,
) -> Result<(), StoreError>
    requires { NoneLent (P.state plant.old) }
    ensures { NoneLent (P.state plant.new) }
{
    let mut site = paired(rt, alloc, plant, Level::Volume, 1, 1);
    let first = images_of(rt, alloc, (0x6D, 0x64), 1);
    log_applied(rt, plant, &mut site, &first).expect(rt, "a record");
    mark(rt, plant, &mut site).expect(rt, "a mark");
    log(rt, plant, &mut site, &second_group(rt, alloc))
}

/// The time is one of these, and the track is as it was then.
fn assert_one_of(rt: &impl Abort, left: &Left, times: &[u64]) {
    let content = if left.time == 0x6D { *b"AB" } else { [b'Z', 0] };
    assert!(rt; times.contains(&left.time));
    assert!(rt; left.states[0] == DUPLEX);
    assert!(rt; left.slots[0] == [0, 1, 1, 0, 0, 2, content[0], content[1]]);
}

/// Logs two groups, of which the second is stopped at a call of journal 0 or comes through.
fn stop_at<R: Threads + Sync + Abort>(
    rt: &R,
    alloc: Global,
    call: u64,
    expected: Result<(), StoreError>,
    times: &[u64],
) {
    let stop = fail_at(Some(Device::Journal(0)), call, true);
    let mut plant = plant(rt, alloc, 1, 1, &[stop]);
    assert_same(rt, &log_two(rt, alloc, &mut plant), &expected, &call);
    for choice in CHOICES {
        let left = recovered_with(rt, alloc, &plant, choice, TRACK).expect(rt, "a session");
        assert_one_of(rt, &left, times);
    }
}

// Journal 0 has 2 calls of the start and 5 each of the records of the pair and of the first group. A record's are the writes of
// its header and its body, a sync, the write of its gate, and a sync.

#[test]
fn a_crash_at_a_gate_leaves_the_time_before_or_after_it(rt: HostRuntime) {
    let alloc = rt.alloc();
    let stopped = Err(StoreError::Fault(Device::Journal(0)));
    for call in 12..15 {
        stop_at(&rt, alloc, call, stopped, &[0x6D]);
    }
    for call in 15..17 {
        stop_at(&rt, alloc, call, stopped, &[0x6D, 0x80]);
    }
    stop_at(&rt, alloc, 17, Ok(()), &[0x80]);
}

/// A group over two volumes is logged, and applied as far as failures let it.
#[tactic(auto, using(crate::proofs::Between::idle_home))]
fn apply_part<R: Threads + Sync + Abort, P: Plant>(rt: &R, alloc: Global, plant: &mut P)
    requires { NoneLent (P.state plant.old) }
    ensures { NoneLent (P.state plant.new) }
{
    let mut site = paired(rt, alloc, plant, Level::Volume, 2, 1);
    let formed = images_of(rt, alloc, (0x80, 0x74), 2);
    log(rt, plant, &mut site, &formed).expect(rt, "a record");
    apply(rt, plant, &mut site);
}

/// Each volume was stopped in the write of its slot, which a crash leaves open.
fn assert_torn(rt: &impl Abort, alloc: Global, plant: &MemoryPlant)
    requires { NoneLent (memory_state plant.now) }
{
    let slots = slots_left(rt, alloc, plant, &[0xFF], TRACK);
    assert!(rt; slots == [[0xFF; 8], [0xFF; 8], [0; 8]]);
}

/// Both rows are duplex at the group's time, and both volumes hold their images.
fn assert_both(rt: &impl Abort, left: &Left) {
    let image = [0, 1, 1, 0, 0, 2, b'A', b'B'];
    assert!(rt; left.time == 0x80);
    assert!(rt; left.states == [DUPLEX, DUPLEX, None]);
    assert!(rt; left.slots[0] == image && left.slots[1] == image);
}

// An image of a whole track is formed without a read, so that the first call of each volume is the write of its slot.

#[test]
fn a_crash_among_appliers_leaves_both_images(rt: HostRuntime) {
    let alloc = rt.alloc();
    let fails = [
        fail_at(Some(Device::Volume(0)), 0, true),
        fail_at(Some(Device::Volume(1)), 0, true),
    ];
    let mut plant = plant(&rt, alloc, 2, 1, &fails);
    apply_part(&rt, alloc, &mut plant);
    assert_torn(&rt, alloc, &plant);
    for choice in CHOICES {
        let left = recovered_with(&rt, alloc, &plant, choice, TRACK).expect(&rt, "a session");
        assert_both(&rt, &left);
    }
}
