//! Crashes of a session whose readers and mover go on by steps: while a group is logged after another, and while a pair is copied.

ghost use Rattle.crash_plant.specs.Calls.{NoneLent};
ghost use Rattle.mover_tests.specs.Courses.{AreAtLimit, MayGoTo};

use crate::commands::{add_pair, say};
use crate::courses::{Course, begun, brought_on, failing_plant};
use crate::lanes::{add_lane, no_lanes, trace};
use crate::left::{CHOICES, DUPLEX, EMPTY, Left, recovered, slot};
use crate::steps::{log, log_applied, stepping};
use crate::traces::Event::Idle;
use crate::traces::whole;
use ckd_track::{Kind, Write};
use crash_plant::{Device, Fail, Plant};
use mover::FreePass;
use pair_table::{Level, PairState};
use site_store::StoreError;
use std::alloc::Global;
use std::process::Abort;
use std::sync::Wait;
use std::thread::Threads;
use test_fixtures::bytes_of;
use tod_stamp::Stamp;
use xrc_edge::MemorySource;

/// A session of one controller and one volume that started at [50], at [60]: a pair was just added. From now on failures are counted.
fn at_sixty<R: Threads + Wait + Sync + Abort, P: Plant>(
    rt: &R,
    alloc: Global,
    plant: &mut P,
) -> Course<MemorySource, P::Volume>
    requires { NoneLent (P.state plant.old) }
    ensures there { AreAtLimit 0x60 result.lanes.items result.group result.site }
    ensures may { MayGoTo P.tells 0x60 result.names result.lanes.items result.group result.site (P.state plant.new) }
{
    let (start, added) = (Stamp(0x50), Stamp(0x60));
    let mut lanes = no_lanes(alloc);
    add_lane(
        rt,
        alloc,
        &mut lanes,
        trace(rt, alloc, (1, 1), &[Idle(0x64)]),
    );
    let course = begun(rt, alloc, lanes, plant, Level::Volume, start);
    let course = brought_on(rt, alloc, &FreePass, course, plant, (start, start));
    let course = brought_on(rt, alloc, &FreePass, course, plant, (start, added));
    let course = add_pair(rt, alloc, course, plant, 1, added);
    say(rt, &course, plant, added);
    course
}

/// A write to track 3.
fn write(stamp: u64, kind: Kind) -> Write {
    Write {
        volume: 0,
        track: 3,
        stamp: Stamp(stamp),
        kind,
    }
}

/// An update of record 1.
fn update(rt: &impl Abort, alloc: Global, content: &[u8]) -> Kind {
    Kind::Update {
        number: 1,
        bytes: bytes_of(alloc, content).expect(rt, "memory"),
    }
}

/// After the copy and a group with the cut [6D], the batch of [64] with its time, a group with the cut [80] is logged.
fn log_two<R: Threads + Wait + Sync + Abort, P: Plant>(
    rt: &R,
    alloc: Global,
    plant: &mut P,
) -> Result<(), StoreError>
    requires { NoneLent (P.state plant.old) }
    ensures { NoneLent (P.state plant.new) }
{
    let course = at_sixty(rt, alloc, plant);
    let (mut shared, mut site) = stepping(rt, alloc, course, plant, Stamp(0x60));
    assert!(rt; shared.copy(rt, alloc, 0, 16) == 15);
    log_applied(rt, alloc, &mut shared, &mut site, plant, 0x80, (0x60, 15));
    let first = write(0x64, whole(rt, alloc, *b"AB"));
    shared.join(rt, alloc, 0, Some(first), 0x6D);
    log_applied(rt, alloc, &mut shared, &mut site, plant, 0x80, (0x6D, 1));
    let second = write(0x6E, update(rt, alloc, b"Z"));
    shared.join(rt, alloc, 0, Some(second), 0x80);
    log(rt, alloc, &mut shared, &mut site, plant, 0x80, (0x80, 1))
}

/// The time is one of these, and track 3 is as it was then.
fn assert_one_of(rt: &impl Abort, left: &Left, times: &[u64]) {
    let content = if left.time == 0x6D { *b"AB" } else { [b'Z', 0] };
    assert!(rt; times.contains(&left.time), "{}", left.time);
    assert!(rt; left.state == DUPLEX);
    assert!(rt; left.held.slots[2] == EMPTY && left.held.slots[3] == slot(content));
}

/// Stopped at this call of the journal, or after all of them, the time is one of these.
fn assert_stopped<R: Threads + Wait + Sync + Abort>(
    rt: &R,
    alloc: Global,
    call: u64,
    is_logged: bool,
    times: &[u64],
) {
    let stop = Fail {
        at: Some(Device::Journal(0)),
        said: 1,
        call,
        stop: true,
    };
    let mut plant = failing_plant(rt, alloc, 1, 1, &[stop]);
    assert!(rt; log_two(rt, alloc, &mut plant).is_ok() == is_logged);
    for choice in CHOICES {
        let left = recovered(rt, alloc, &plant, choice);
        assert_one_of(rt, &left, times);
    }
}

// Journal 0 has 5 calls each of the record of the copy and of the first group. A record's are the writes of its header and its body, a
// sync, the write of its gate, and a sync.

#[test]
fn a_crash_at_a_gate_leaves_the_cut_before_or_after_it(rt: HostRuntime) {
    let alloc = rt.alloc();
    for call in 10..13 {
        assert_stopped(&rt, alloc, call, false, &[0x6D]);
    }
    for call in 13..15 {
        assert_stopped(&rt, alloc, call, false, &[0x6D, 0x80]);
    }
    assert_stopped(&rt, alloc, 15, true, &[0x80]);
}

/// Seven tracks are joined at [60], and the others at [63]. The group up to [60] has the seven.
fn log_seven<R: Threads + Wait + Sync + Abort, P: Plant>(rt: &R, alloc: Global, plant: &mut P)
    requires { NoneLent (P.state plant.old) }
    ensures { NoneLent (P.state plant.new) }
{
    let course = at_sixty(rt, alloc, plant);
    let (mut shared, mut site) = stepping(rt, alloc, course, plant, Stamp(0x60));
    assert!(rt; shared.copy(rt, alloc, 0, 7) == 7);
    shared.raise(rt, 0, 0x63);
    assert!(rt; shared.copy(rt, alloc, 0, 16) == 8);
    let logged = log(rt, alloc, &mut shared, &mut site, plant, 0x60, (0x60, 7));
    logged.expect(rt, "a record");
}

#[test]
fn a_crash_while_tracks_are_copied_leaves_the_volume(rt: HostRuntime) {
    let alloc = rt.alloc();
    let mut plant = failing_plant(&rt, alloc, 1, 1, &[]);
    log_seven(&rt, alloc, &mut plant);
    for choice in CHOICES {
        let left = recovered(&rt, alloc, &plant, choice);
        assert!(&rt; left.time == 0x60 && left.state == Some(PairState::Copy));
        assert!(&rt; left.held.label == EMPTY && left.held.slots == [EMPTY; 15]);
    }
}
