//! Plants in memory: other lengths, and calls that fail by plan.

ghost use Rattle.crash_plant.specs.Calls.{NoneLent};
ghost use Rattle.crash_plant.specs.MemoryPlant.{memory_state};

use crate::calls::{Call, PLACE, perform};
use crate::fixtures::{assert_holds, assert_same, plain, planned};
use crash_plant::{Device, Fail, MemoryPlant};
use std::alloc::Global;
use std::process::Abort;
use test_fixtures::{put, resized};

#[test]
fn a_device_is_cut_and_filled(rt: HostRuntime) {
    let alloc = rt.alloc();
    let volume = Device::Volume(0);
    let mut plant = plain(&rt, alloc, 2);
    assert!(rt; put(&mut plant, volume, 5, b"WXYZ"));
    assert!(rt; resized(alloc, &mut plant, volume, 7));
    assert!(rt; resized(alloc, &mut plant, volume, 20));
    assert_holds(&rt, &mut plant, volume, 5, b"WX\0\0");
    assert!(rt; !put(&mut plant, volume, 17, b"WXYZ"));
    assert!(rt; !resized(alloc, &mut plant, Device::Volume(2), 7));
}

/// Whether a call fails is what its letter says: it does with a cross.
fn assert_call(
    rt: &impl Abort,
    plant: &mut MemoryPlant,
    call: Call,
    letter: u8,
    case: &(Fail, usize),
)
    requires { NoneLent (memory_state plant.old) }
    ensures { NoneLent (memory_state plant.new) }
{
    let failed = perform(rt, plant, call).is_err();
    assert_same(rt, &failed, &(letter == b'x'), case);
}

/// Makes the calls on a plant with one failure. Those fail that have a cross, the others have a dot.
fn run(rt: &impl Abort, alloc: Global, fail: Fail, calls: &[Call], want: &[u8]) {
    let mut plant = planned(rt, alloc, 2, &[fail]);
    for (number, call) in calls.iter().enumerate() {
        assert!(rt; number < want.len());
        assert_call(rt, &mut plant, *call, want[number], &(fail, number));
    }
}

const STATE: Device = Device::State;

const VOLUME: Device = Device::Volume(1);

const ON_STATE: [Call; 5] = [
    Call::Read(STATE),
    Call::Write(STATE),
    Call::Sync(STATE),
    Call::Read(Device::Control),
    Call::Read(STATE),
];

const ON_CONSOLE: [Call; 5] = [
    Call::Hear,
    Call::Say,
    Call::Hear,
    Call::Sync(STATE),
    Call::Lent(0),
];

const LENT: [Call; 6] = [
    Call::Read(VOLUME),
    Call::Lent(1),
    Call::Lent(1),
    Call::Sync(VOLUME),
    Call::Lent(0),
    Call::Hear,
];

const SAID: [Call; 8] = [
    Call::Sync(STATE),
    Call::Say,
    Call::Sync(STATE),
    Call::Sync(STATE),
    Call::Say,
    Call::Sync(STATE),
    Call::Sync(STATE),
    Call::Sync(STATE),
];

/// The device of the failure, from how many bytes said on calls are counted, the call's number, and whether it stops the plant;
/// and the calls that are made, with those that fail.
type Row = (
    Option<Device>,
    u64,
    u64,
    bool,
    &'static [Call],
    &'static [u8],
);

const ROWS: [Row; 12] = [
    (Some(STATE), 0, 0, false, &ON_STATE, b"x...."),
    (Some(STATE), 0, 1, false, &ON_STATE, b".x..."),
    (Some(STATE), 0, 2, false, &ON_STATE, b"..x.."),
    (Some(STATE), 0, 0, true, &ON_STATE, b"xxxxx"),
    (Some(STATE), 0, 2, true, &ON_STATE, b"..xxx"),
    (Some(STATE), 0, 9, true, &ON_STATE, b"....."),
    (Some(Device::Journal(0)), 0, 0, true, &ON_STATE, b"....."),
    (None, 0, 1, false, &ON_CONSOLE, b".x..."),
    (None, 0, 0, true, &ON_CONSOLE, b"xxxxx"),
    (Some(VOLUME), 0, 1, false, &LENT, b".x...."),
    (Some(VOLUME), 0, 2, true, &LENT, b"..xxxx"),
    (Some(STATE), 5, 1, false, &SAID, b"......x."),
];

#[test]
fn calls_fail_by_plan(rt: HostRuntime) {
    for (at, said, call, stop, calls, want) in ROWS {
        let fail = Fail {
            at,
            said,
            call,
            stop,
        };
        run(&rt, rt.alloc(), fail, calls, want);
    }
}
