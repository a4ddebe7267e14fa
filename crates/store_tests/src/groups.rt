//! A group over two volumes.

ghost use Rattle.crash_plant.specs.Calls.{NoneLent};
ghost use Rattle.crash_plant.specs.MemoryPlant.{memory_state};
ghost use Rattle.site_store.specs.IdleSites.{IsSiteIdle, IsSiteLogged};

use crate::calls::{apply, log, mark, step, suspend};
use crate::entries::whole;
use crate::fixtures::{DUPLEX, assert_same, group, group_of, paired, plant, recovered};
use crash_plant::{MemoryPlant, Plant};
use pair_table::Level;
use site_store::Site;
use std::alloc::Global;
use std::process::Abort;
use std::thread::Threads;
use tod_stamp::Stamp;

/// Logs a group with the cut [80] over two volumes.
fn log_both<P: Plant>(rt: &impl Abort, alloc: Global, plant: &mut P, site: &mut Site<P::Volume>)
    requires { IsSiteIdle P.tells site.old (P.state plant.old) }
    ensures { IsSiteLogged P.tells site.new (P.state plant.new) }
{
    let formed = group_of(rt, alloc, 0x80, 2, |volume| {
        whole(rt, alloc, if volume == 0 { b"AZ" } else { b"BZ" })
    });
    log(rt, plant, site, &formed).expect(rt, "a record");
}

/// Applies the group, and marks it.
fn apply_marked<R: Threads + Sync + Abort, P: Plant>(
    rt: &R,
    plant: &mut P,
    site: &mut Site<P::Volume>,
)
    requires { IsSiteLogged P.tells site.old (P.state plant.old) }
    ensures { IsSiteIdle P.tells site.new (P.state plant.new) }
{
    apply(rt, plant, site);
    suspend(rt, plant, site, Stamp(0x80)).expect(rt, "nothing");
    mark(rt, plant, site).expect(rt, "a mark");
}

/// The site is at this time, and so many groups were logged since its mark.
fn assert_at<V>(rt: &impl Abort, site: &Site<V>, time: u64, since: u32) {
    assert_same(rt, &site.time(), &Stamp(time), &"the time");
    assert_same(rt, &site.since(), &since, &"groups since the mark");
}

/// Both rows are duplex at the group's time, and both volumes hold their images.
fn assert_both<R: Threads + Sync + Abort>(rt: &R, alloc: Global, plant: &MemoryPlant, choice: &[u8])
    requires { NoneLent (memory_state plant.now) }
{
    let left = recovered(rt, alloc, plant, choice).expect(rt, "a session");
    assert!(rt; left.time == 0x80);
    assert_same(rt, &left.states, &[DUPLEX, DUPLEX, None], &choice);
    assert_same(rt, &left.slots[0], &[0, 1, 1, 0, 0, 2, b'A', b'Z'], &choice);
    assert_same(rt, &left.slots[1], &[0, 1, 1, 0, 0, 2, b'B', b'Z'], &choice);
}

#[tactic(auto, using(crate::proofs::Between::idle_home))]
#[test]
fn a_group_over_two_volumes_is_logged_applied_and_marked(rt: HostRuntime) {
    let alloc = rt.alloc();
    let mut plant = plant(&rt, alloc, 2, 1, &[]);
    let mut site = paired(&rt, alloc, &mut plant, Level::Volume, 2, 1);
    assert_at(&rt, &site, 0x60, 0);
    log_both(&rt, alloc, &mut plant, &mut site);
    assert_at(&rt, &site, 0x80, 1);
    // The group counts before it is applied.
    assert_both(&rt, alloc, &plant, &[0xFF]);
    apply_marked(&rt, &mut plant, &mut site);
    assert_at(&rt, &site, 0x80, 0);
    assert_both(&rt, alloc, &plant, &[]);
    let empty = group(&rt, alloc, 0x81);
    step(&rt, &mut plant, &mut site, &empty).expect(&rt, "an empty group");
    assert_at(&rt, &site, 0x81, 0);
}
