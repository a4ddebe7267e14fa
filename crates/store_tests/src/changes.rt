//! A command's change whose record needs a mark first, in which the sync of a volume fails.

ghost use Rattle.crash_plant.specs.Calls.{NoneLent};
ghost use Rattle.site_store.specs.IdleSites.{IsSiteIdle};

use crate::calls::{log_applied, put_row};
use crate::fixtures::{
    DUPLEX, Left, assert_same, paired, plant, recovered, row, state_of, suspended,
};
use crate::ring::images;
use crash_plant::{Device, Fail, Plant};
use pair_table::{Level, PairState, SuspendCause};
use site_store::Site;
use std::alloc::Global;
use std::process::Abort;
use std::thread::Threads;
use test_fixtures::fail_at;
use tod_stamp::Stamp;

/// Whether the row of the second volume tells its failure.
fn is_told<V>(site: &Site<V>) -> bool {
    state_of(site.table(), 1) != DUPLEX
}

/// Changes the first row again and again, until the data set is full and the failure is told, or a call is stopped.
#[tactic(auto, using(crate::proofs::Between::idle_home))]
fn change_until_told<P: Plant>(
    rt: &impl Abort,
    alloc: Global,
    plant: &mut P,
    site: &mut Site<P::Volume>,
)
    requires { IsSiteIdle P.tells site.old (P.state plant.old) }
    ensures { NoneLent (P.state plant.new) }
{
    for _ in 0..400 {
        let row = row(rt, 0, 3, PairState::Duplex);
        let Ok(()) = put_row(rt, alloc, plant, site, row, Stamp(0x66)) else {
            return;
        };
        if is_told(site) {
            return;
        }
    }
}

/// Logs groups over two pairs, and then changes of the first row, of which one needs a mark before its record.
fn fill_and_change<R: Threads + Sync + Abort, P: Plant>(rt: &R, alloc: Global, plant: &mut P)
    requires { NoneLent (P.state plant.old) }
    ensures { NoneLent (P.state plant.new) }
{
    let mut site = paired(rt, alloc, plant, Level::Session, 2, 3);
    let groups = [
        images(rt, alloc, 0x64, 31, true),
        images(rt, alloc, 0x65, 1, false),
        images(rt, alloc, 0x66, 31, false),
    ];
    for formed in &groups {
        log_applied(rt, plant, &mut site, formed).expect(rt, "a record");
    }
    change_until_told(rt, alloc, plant, &mut site);
}

/// What is left where the sync of the second volume fails in the mark.
fn fails_before_change<R: Threads + Sync + Abort>(rt: &R, alloc: Global, fails: &[Fail]) -> Left {
    let mut plant = plant(rt, alloc, 2, 3, fails);
    fill_and_change(rt, alloc, &mut plant);
    recovered(rt, alloc, &plant, &[]).expect(rt, "a session")
}

#[test]
fn a_mark_before_a_change_tells_failures_and_the_record_what_they_reach(rt: HostRuntime) {
    let alloc = rt.alloc();
    let sync = fail_at(Some(Device::Volume(1)), 1, false);
    let device = Some(suspended(SuspendCause::Device, 0x66));
    let left = fails_before_change(&rt, alloc, &[sync]);
    assert!(&rt; left.time == 0x66);
    let session = Some(suspended(SuspendCause::Session, 0x66));
    assert_same(&rt, &left.states, &[session, device, None], &"the record");
    // Stopped between the mark and the record, the other row is still duplex.
    let stop = fail_at(Some(Device::Journal(0)), 21, true);
    let left = fails_before_change(&rt, alloc, &[sync, stop]);
    assert!(&rt; left.time == 0x66);
    assert_same(&rt, &left.states, &[DUPLEX, device, None], &"the mark");
}
