//! Data sets that are used again: groups of which no two fit one set, a stop at each call of a mark that had to come before a record,
//! and a sync that fails in such a mark.

ghost use Rattle.std.specs.Prelude.{◌≡◌};
ghost use Rattle.crash_plant.specs.Calls.{NoneLent};

use crate::calls::{log, log_applied, suspend};
use crate::entries::{add, longest};
use crate::fixtures::{
    CHOICES, DUPLEX, Left, assert_same, group, paired, plant, recovered, suspended,
};
use crash_plant::{Device, Fail, Plant};
use pair_table::{Level, SuspendCause};
use pending_queue::Formed;
use site_store::StoreError;
use std::alloc::Global;
use std::process::Abort;
use std::thread::Threads;
use test_fixtures::fail_at;

/// Adds the longest image of a track of a volume, of bytes equal to the cut.
fn add_longest(rt: &impl Abort, alloc: Global, formed: &mut Formed, at: (u16, u32), cut: u8)
    requires { formed.old.controls ≡ 1 }
    ensures { formed.new.controls ≡ 1 }
{
    add(rt, alloc, formed, at, cut.into(), longest(rt, alloc, cut));
}

/// The longest images of the first tracks of volume 0, and of track 0 of volume 1 if this is wanted.
pub(crate) fn images(rt: &impl Abort, alloc: Global, cut: u8, tracks: u32, second: bool) -> Formed
    ensures { result.controls ≡ 1 }
{
    let mut formed = group(rt, alloc, cut.into());
    for track in 0..tracks {
        add_longest(rt, alloc, &mut formed, (0, track), cut);
    }
    if second {
        add_longest(rt, alloc, &mut formed, (1, 0), cut);
    }
    formed
}

/// Three groups, of which no two that follow one another fit one data set.
fn groups(rt: &impl Abort, alloc: Global) -> [Formed; 3] {
    [
        images(rt, alloc, 0x64, 32, false),
        images(rt, alloc, 0x65, 1, false),
        images(rt, alloc, 0x66, 32, false),
    ]
}

/// How far a run came: the time that was last told, and the next one.
#[derive(Drop)]
struct Came {
    told: u64,
    next: u64,
}

/// Logs and applies groups of one pair, and makes no mark of its own.
#[tactic(auto, using(crate::proofs::Between::idle_home))]
fn run<R: Threads + Sync + Abort, P: Plant>(
    rt: &R,
    alloc: Global,
    plant: &mut P,
    groups: &[Formed],
    came: &mut Came,
) -> Result<(), StoreError>
    requires { NoneLent (P.state plant.old) }
    ensures { NoneLent (P.state plant.new) }
{
    let mut site = paired(rt, alloc, plant, Level::Volume, 1, 3);
    for formed in groups {
        came.next = formed.cut().0;
        log_applied(rt, plant, &mut site, formed)?;
        came.told = came.next;
        suspend(rt, plant, &mut site, formed.cut())?;
    }
    Ok(())
}

/// A time between the one told and the next is recovered, with the content of that time.
fn assert_between(rt: &impl Abort, left: &Left, came: &Came) {
    assert!(rt; left.time == came.told || left.time == came.next);
    assert!(rt; left.states[0] == DUPLEX);
    assert!(rt; left.time < 0x64 || u64::from(left.slots[0][6]) == left.time);
}

/// Stops at a call of a device.
fn stop_at<R: Threads + Sync + Abort>(
    rt: &R,
    alloc: Global,
    (device, call): (Device, u64),
    groups: &[Formed],
) {
    let mut came = Came {
        told: 0x60,
        next: 0x60,
    };
    let mut plant = plant(rt, alloc, 1, 3, &[fail_at(Some(device), call, true)]);
    let result = run(rt, alloc, &mut plant, groups, &mut came);
    assert_same(rt, &result, &Err(StoreError::Fault(device)), &call);
    for choice in CHOICES {
        let left = recovered(rt, alloc, &plant, choice).expect(rt, "a session");
        assert_between(rt, &left, &came);
    }
}

/// Stops at each of these calls of a device.
fn stop_at_each<R: Threads + Sync + Abort>(
    rt: &R,
    alloc: Global,
    device: Device,
    calls: (u64, u64),
    groups: &[Formed],
) {
    for call in calls.0..calls.1 {
        stop_at(rt, alloc, (device, call), groups);
    }
}

/// Without a stop all groups are logged.
fn assert_whole<R: Threads + Sync + Abort>(rt: &R, alloc: Global, groups: &[Formed]) {
    let mut came = Came { told: 0, next: 0 };
    let mut plant = plant(rt, alloc, 1, 3, &[]);
    let result = run(rt, alloc, &mut plant, groups, &mut came);
    assert_same(rt, &result, &Ok(()), &"all groups");
    let left = recovered(rt, alloc, &plant, &[0xFF]).expect(rt, "a session");
    assert!(rt; left.time == 0x66 && left.slots[0][6] == 0x66);
}

// The control has 12 calls of the start, and the state 2. Then come those of the mark before the third group. Journal 0 has 2 calls of the
// start, 5 of the pair's record, 5 of the first group's and 4 of the switch to journal 1.

#[test]
fn a_stop_at_each_call_of_a_mark_before_a_record_leaves_a_time(rt: HostRuntime) {
    let alloc = rt.alloc();
    let groups = groups(&rt, alloc);
    assert_whole(&rt, alloc, &groups);
    stop_at_each(&rt, alloc, Device::State, (2, 4), &groups);
    stop_at_each(&rt, alloc, Device::Control, (12, 18), &groups);
    stop_at_each(&rt, alloc, Device::Journal(0), (16, 18), &groups);
}

/// Logs groups over two pairs, of whose second volume the sync fails in the mark before the third group's record.
fn log_three<R: Threads + Sync + Abort, P: Plant>(rt: &R, alloc: Global, plant: &mut P)
    requires { NoneLent (P.state plant.old) }
    ensures { NoneLent (P.state plant.new) }
{
    let mut site = paired(rt, alloc, plant, Level::Session, 2, 3);
    let groups = [
        images(rt, alloc, 0x64, 31, true),
        images(rt, alloc, 0x65, 1, false),
    ];
    for formed in &groups {
        log_applied(rt, plant, &mut site, formed).expect(rt, "a record");
    }
    let _stopped = log(rt, plant, &mut site, &images(rt, alloc, 0x66, 31, true));
}

/// What is left then.
fn fails_in_mark<R: Threads + Sync + Abort>(rt: &R, alloc: Global, fails: &[Fail]) -> Left {
    let mut plant = plant(rt, alloc, 2, 3, fails);
    log_three(rt, alloc, &mut plant);
    recovered(rt, alloc, &plant, &[]).expect(rt, "a session")
}

#[test]
fn a_sync_that_fails_in_a_mark_is_told_by_it_and_reaches_with_the_record(rt: HostRuntime) {
    let alloc = rt.alloc();
    let sync = fail_at(Some(Device::Volume(1)), 1, false);
    let device = Some(suspended(SuspendCause::Device, 0x65));
    let left = fails_in_mark(&rt, alloc, &[sync]);
    assert!(&rt; left.time == 0x66);
    let session = Some(suspended(SuspendCause::Session, 0x66));
    assert_same(&rt, &left.states, &[session, device, None], &"the record");
    // Stopped between the mark and the record, the other row is still duplex.
    let stop = fail_at(Some(Device::Journal(0)), 21, true);
    let left = fails_in_mark(&rt, alloc, &[sync, stop]);
    assert!(&rt; left.time == 0x65);
    assert_same(&rt, &left.states, &[DUPLEX, device, None], &"the mark");
}
