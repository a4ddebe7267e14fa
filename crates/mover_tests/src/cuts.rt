//! The cut of two controllers, of which one has reported less than the other, by steps.

ghost use Rattle.std.specs.Prelude.{◌≡◌, length};
ghost use Rattle.crash_plant.specs.Calls.{NoneLent};
ghost use Rattle.mover_tests.specs.Courses.{AreAtLimit, AreOpened, MayGoTo};

use crate::commands::{add_pair, say};
use crate::courses::{Course, begun, brought_on, failing_plant};
use crate::lanes::{OpenLanes, add_lane, no_lanes, trace};
use crate::left::{CHOICES, DUPLEX, EMPTY, Left, recovered, slot};
use crate::steps::{log, stepping};
use crate::traces::Event::{self, Idle, Whole};
use crate::traces::whole;
use ckd_track::Write;
use crash_plant::{Device, Fail, Plant};
use mover::FreePass;
use pair_table::Level;
use site_store::StoreError;
use std::alloc::Global;
use std::process::Abort;
use std::sync::Wait;
use std::thread::Threads;
use tod_stamp::Stamp;
use xrc_edge::MemorySource;

/// What the first controller's trace has, whose volume is paired.
const FIRST: [Event; 2] = [Whole(0x10, 0, 0, *b"AB"), Whole(0x20, 0, 1, *b"CD")];

/// What the second one's has.
const SECOND: [Event; 3] = [Idle(0x12), Idle(0x16), Idle(0x30)];

fn two_lanes(rt: &impl Abort, alloc: Global) -> OpenLanes<MemorySource>
    ensures two { length result.all.items ≡ 2 }
    ensures opened { AreOpened result.all.items result.named.items }
{
    let mut lanes = no_lanes(alloc);
    add_lane(rt, alloc, &mut lanes, trace(rt, alloc, (1, 1), &FIRST));
    add_lane(rt, alloc, &mut lanes, trace(rt, alloc, (2, 1), &SECOND));
    lanes
}

/// A session over these traces that started at [4], at [9]: a pair was added at [8], and is duplex. From now on failures are counted.
fn at_nine<R: Threads + Wait + Sync + Abort, P: Plant>(
    rt: &R,
    alloc: Global,
    plant: &mut P,
) -> Course<MemorySource, P::Volume>
    requires { NoneLent (P.state plant.old) }
    ensures there { AreAtLimit 9 result.lanes.items result.group result.site }
    ensures may { MayGoTo P.tells 9 result.names result.lanes.items result.group result.site (P.state plant.new) }
{
    let (start, added, nine) = (Stamp(4), Stamp(8), Stamp(9));
    let lanes = two_lanes(rt, alloc);
    let course = begun(rt, alloc, lanes, plant, Level::Volume, start);
    let course = brought_on(rt, alloc, &FreePass, course, plant, (start, start));
    let course = brought_on(rt, alloc, &FreePass, course, plant, (start, added));
    let course = add_pair(rt, alloc, course, plant, 1, added);
    let course = brought_on(rt, alloc, &FreePass, course, plant, (added, nine));
    say(rt, &course, plant, nine);
    course
}

/// The pair is duplex, and its volume holds the writes up to the time, which is one of these.
fn assert_up_to(rt: &impl Abort, left: &Left, times: &[u64]) {
    let time = left.time;
    let first = if time >= 0x10 { slot(*b"AB") } else { EMPTY };
    let second = if time >= 0x20 { slot(*b"CD") } else { EMPTY };
    assert!(rt; times.contains(&time), "{time}");
    assert!(rt; left.state == DUPLEX);
    assert!(rt; left.held.slots[0] == first && left.held.slots[1] == second);
    assert!(rt; left.held.slots[2] == EMPTY);
}

/// A write of the first controller's trace.
fn write(rt: &impl Abort, alloc: Global, stamp: u64, track: u32, content: [u8; 2]) -> Write {
    Write {
        volume: 0,
        track,
        stamp: Stamp(stamp),
        kind: whole(rt, alloc, content),
    }
}

/// The first reader joins all of its trace, the second one only its run [12], and the group of the least floor is logged.
fn log_least<R: Threads + Wait + Sync + Abort, P: Plant>(
    rt: &R,
    alloc: Global,
    plant: &mut P,
) -> Result<(), StoreError>
    requires { NoneLent (P.state plant.old) }
    ensures { NoneLent (P.state plant.new) }
{
    let course = at_nine(rt, alloc, plant);
    let (mut shared, mut site) = stepping(rt, alloc, course, plant, Stamp(9));
    let first = write(rt, alloc, 0x10, 0, *b"AB");
    let second = write(rt, alloc, 0x20, 1, *b"CD");
    shared.join(rt, alloc, 0, Some(first), 0x1F);
    shared.join(rt, alloc, 0, Some(second), 0x40);
    shared.join(rt, alloc, 1, None, 0x15);
    log(rt, alloc, &mut shared, &mut site, plant, 0x40, (0x15, 1))
}

/// Stopped at this call of the journal, or after all of them, the time is one of these.
fn assert_stopped<R: Threads + Wait + Sync + Abort>(
    rt: &R,
    alloc: Global,
    call: u64,
    is_logged: bool,
    times: &[u64],
) {
    let stop = Fail {
        at: Some(Device::Journal(0)),
        said: 1,
        call,
        stop: true,
    };
    let mut plant = failing_plant(rt, alloc, 2, 1, &[stop]);
    assert!(rt; log_least(rt, alloc, &mut plant).is_ok() == is_logged);
    for choice in CHOICES {
        let left = recovered(rt, alloc, &plant, choice);
        assert_up_to(rt, &left, times);
    }
}

// A record's calls are the writes of its header and its body, a sync, the write of its gate, and a sync.

#[test]
fn the_cut_is_the_least_floor(rt: HostRuntime) {
    let alloc = rt.alloc();
    for call in 0..3 {
        assert_stopped(&rt, alloc, call, false, &[9]);
    }
    for call in 3..5 {
        assert_stopped(&rt, alloc, call, false, &[9, 0x15]);
    }
    assert_stopped(&rt, alloc, 5, true, &[0x15]);
}
