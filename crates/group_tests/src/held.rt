//! A batch of the longest updates fills a controller.

ghost use Rattle.std.specs.Prelude.{◌≡◌, ◌<◌, ◌≤◌, IsTrue};
ghost use Rattle.ckd_track.specs.Effects.{keeps_rules};
ghost use Rattle.pending_queue.specs.Entries.{all_keep_rules};
ghost use Rattle.group_tests.specs.ReadyStates.{CarriesFirst, is_first_at, AreFirstAt};

use crate::fixtures::{assert_same, filled};
use change_map::ChangeMap;
use ckd_track::{Batch, Kind, Write, WriteList};
use copy_plan::CopyPlan;
use group_state::{Forming, GroupState, Joining};
use pending_queue::{Formed, Room};
use std::alloc::Global;
use std::process::Abort;
use tod_stamp::Stamp;

/// A state of one controller, with room for 32 of the longest updates, that carries its volume 0 of two tracks.
fn carried(rt: &impl Abort, alloc: Global) -> GroupState
    ensures { CarriesFirst 0 result }
{
    let mut state = GroupState::make(alloc, 1, 32, 3_552).expect(rt, "memory");
    let plan = CopyPlan::owed(ChangeMap::make(alloc, 2).expect(rt, "memory"));
    let map = ChangeMap::make(alloc, 2).expect(rt, "memory");
    let carried = state.carry(alloc, 0, 0, plan, map);
    carried.expect(rt, "memory");
    state
}

/// An update of the most bytes, of the first track.
fn longest_update(rt: &impl Abort, alloc: Global, at: u64) -> Write
    ensures rules { IsTrue (keeps_rules result.kind) }
    ensures first { IsTrue (is_first_at at result) }
{
    let bytes = filled(rt, alloc, 56_656);
    let kind = Kind::Update { number: 1, bytes };
    assert!(rt; kind.keeps_rules());
    Write {
        volume: 0,
        track: 0,
        stamp: Stamp(at),
        kind,
    }
}

/// A batch of 32 of the longest updates.
fn longest_updates(rt: &impl Abort, alloc: Global, at: u64) -> Batch
    ensures control { result.control ≡ 0 }
    ensures upto { result.upto ≡ record { 0 = at } }
    ensures rules { IsTrue (all_keep_rules result.writes) }
    ensures first { AreFirstAt at result.writes }
{
    let mut writes = WriteList::make(alloc);
    for _ in 0..32 {
        let write = longest_update(rt, alloc, at);
        writes.push(alloc, write).expect(rt, "memory");
    }
    Batch {
        control: 0,
        writes,
        upto: Stamp(at),
    }
}

/// Joins such a batch; None where it fits, and else the room that is named.
fn join(
    rt: &impl Abort,
    alloc: Global,
    state: &mut GroupState,
    before: u64,
    at: u64,
) -> Option<Room>
    requires ready { CarriesFirst before state.old }
    requires later { before < at }
    ensures { CarriesFirst at state.new }
{
    match state.join(longest_updates(rt, alloc, at)) {
        Joining::Joined => None,
        Joining::Held { batch, room } => {
            assert!(rt; batch.writes.len() == 32);
            Some(room)
        }
    }
}

/// Forms a group at a time that the controller has reported.
fn form(rt: &impl Abort, state: &mut GroupState, time: u64, out: &mut Formed)
    requires ready { CarriesFirst time state.old }
    requires room { 1 ≤ out.old.controls }
    ensures { CarriesFirst time state.new }
{
    assert_eq!(rt; state.form(Stamp(time), out), Forming::Formed);
}

#[test]
fn a_second_batch_is_held_until_a_form(rt: HostRuntime) {
    let alloc = rt.alloc();
    let mut state = carried(&rt, alloc);
    let mut out = Formed::make(alloc, 1).expect(&rt, "memory");
    let first = join(&rt, alloc, &mut state, 0, 1);
    let second = join(&rt, alloc, &mut state, 1, 2);
    form(&rt, &mut state, 2, &mut out);
    let third = join(&rt, alloc, &mut state, 2, 3);
    let none = Room {
        records: 0,
        blocks: 0,
    };
    let expected = [None, Some(none), None];
    assert_same(&rt, &[first, second, third], &expected, &"joined");
    assert_same(&rt, &out.count(), &32, &"formed");
    assert!(rt; 31 < out.count());
    assert_same(&rt, &out.entry(31).len(), &56_674, &"length");
}
