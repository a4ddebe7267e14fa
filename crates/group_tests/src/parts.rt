//! Sets of tracks, copy plans and chains of blocks: each call once, with ample memory.

ghost use Rattle.std.specs.Prelude.{◌≡◌, ◌<◌};
ghost use Rattle.copy_plan.specs.Plans.{with_joined, with_formed, fresh_plan};

use crate::fixtures::assert_same;
use block_region::{Full, Region};
use change_map::ChangeMap;
use copy_plan::CopyPlan;
use std::alloc::Global;
use std::process::Abort;

fn put(rt: &impl Abort, map: &mut ChangeMap, x: u32) {
    assert!(rt; x < map.tracks());
    map.set(x);
}

/// A set of these tracks alone.
fn set_of(rt: &impl Abort, alloc: Global, tracks: u32, had: &[u32]) -> ChangeMap {
    let mut map = ChangeMap::make(alloc, tracks).expect(rt, "memory");
    for x in had {
        put(rt, &mut map, *x);
    }
    map
}

/// So many tracks are in the set, and this is the first of them.
fn assert_set(rt: &impl Abort, map: &ChangeMap, count: u32, first: Option<u32>) {
    let found = (map.count(), map.next_from(0));
    assert_same(rt, &found, &(count, first), &map.tracks());
}

/// A set of the tracks up to a last one has the last track once it is united with a set that has it.
fn assert_united(rt: &impl Abort, alloc: Global, last: u32) {
    let tracks = last.saturating_add(1);
    let mut map = set_of(rt, alloc, tracks, &[1]);
    let other = set_of(rt, alloc, tracks, &[last]);
    assert!(rt; 1 < map.tracks() && last < map.tracks() && other.tracks() == map.tracks());
    map.or_with(&other);
    assert_set(rt, &map, 2, Some(1));
    assert!(rt; 1 < map.tracks() && last < map.tracks());
    map.clear(1);
    assert_set(rt, &map, 1, Some(last));
    map.set_all();
    assert_set(rt, &map, tracks, Some(0));
    map.clear_all();
    assert_set(rt, &map, 0, None);
}

/// Sets that end with a word and after one, with eight words and after them, and the set of the largest volume.
#[test]
fn sets_have_their_tracks(rt: HostRuntime) {
    for last in [63, 64, 511, 512, 14_999_999] {
        assert_united(&rt, rt.alloc(), last);
    }
}

fn join(rt: &impl Abort, plan: &mut CopyPlan, x: u32)
    ensures { plan.new ≡ with_joined plan.old x }
{
    assert!(rt; plan.wants(x));
    plan.joined(x);
}

fn form(rt: &impl Abort, plan: &mut CopyPlan, x: u32)
    requires { 0 < plan.old.joined }
    ensures { plan.new ≡ with_formed plan.old }
{
    assert!(rt; !plan.wants(x));
    plan.formed(x);
}

/// Begins a plan again, with the tracks of a map.
fn refill(rt: &impl Abort, plan: &mut CopyPlan, map: &mut ChangeMap)
    ensures { plan.new ≡ fresh_plan map.old }
{
    assert!(rt; map.tracks() == plan.tracks());
    plan.refill(map);
}

/// How many tracks a plan wants, the first of them, and whether it is done.
fn assert_plan(
    rt: &impl Abort,
    plan: &CopyPlan,
    wanted: u32,
    next: Option<u32>,
    done: bool,
    case: &str,
) {
    let found = (plan.wanted(), plan.next(), plan.done());
    assert_same(rt, &found, &(wanted, next, done), &case);
}

#[test]
fn a_plan_is_done_with_its_last_formed_track(rt: HostRuntime) {
    let alloc = rt.alloc();
    let mut plan = CopyPlan::first(alloc, 2).expect(&rt, "memory");
    assert_plan(&rt, &plan, 2, Some(0), false, "first");
    join(&rt, &mut plan, 0);
    join(&rt, &mut plan, 1);
    assert_plan(&rt, &plan, 0, None, false, "joined");
    form(&rt, &mut plan, 0);
    assert_plan(&rt, &plan, 0, None, false, "one formed");
    form(&rt, &mut plan, 1);
    assert_plan(&rt, &plan, 0, None, true, "formed");
    let mut map = set_of(&rt, alloc, 2, &[1]);
    refill(&rt, &mut plan, &mut map);
    assert_plan(&rt, &plan, 1, Some(1), false, "refilled");
    assert_set(&rt, &map, 0, None);
    let owed = CopyPlan::owed(set_of(&rt, alloc, 70, &[64]));
    assert_plan(&rt, &owed, 1, Some(64), false, "owed");
}

/// A chain of 512 bytes takes one block, and one of 513 takes two. A chain that is dropped leaves its blocks taken.
#[test]
fn chains_take_their_blocks(rt: HostRuntime) {
    let mut region = Region::make(rt.alloc(), 3).expect(&rt, "memory");
    let first = region.take(&[5; 512]).expect(&rt, "room");
    let second = region.take(&[9; 513]).expect(&rt, "room");
    assert_same(&rt, &(first.len(), second.len()), &(512, 513), &"lengths");
    let refused = region.take(&[7]).err();
    let full = Full { needed: 1, free: 0 };
    assert_same(&rt, &refused, &Some(full), &"full");
    let mut bytes = [0; 513];
    region.read_into(&second, &mut bytes);
    assert_same(&rt, &bytes, &[9; 513], &"bytes");
    region.give(second);
    assert_same(&rt, &region.free(), &2, &"given back");
}

#[test]
fn no_bytes_need_no_block(rt: HostRuntime) {
    let mut region = Region::make(rt.alloc(), 0).expect(&rt, "memory");
    let chain = region.take(&[]).expect(&rt, "no bytes");
    assert_same(&rt, &(chain.len(), region.free()), &(0, 0), &"none");
}
