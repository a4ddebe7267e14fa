//! Worked runs of the shared state, with ample memory.

ghost use Rattle.std.specs.Prelude.{◌≡◌, ◌<◌, ◌≤◌, ◌∷◌, [], length, IsTrue};
ghost use Rattle.pending_queue.specs.Entries.{all_keep_rules};
ghost use Rattle.group_state.specs.Groups.{control_at};
ghost use Rattle.group_state.specs.SoundStates.{MayJoin, MayCarry};
ghost use Rattle.group_state.specs.Machine.{group_after};
ghost use Rattle.group_state.specs.Machine.Call.{Join, Copied, Form, Carry};
ghost use Rattle.group_state.specs.Runs.{MayCopy};
ghost use Rattle.group_tests.specs.CutVectors.{whole_on};
ghost use Rattle.group_tests.specs.StateVectors.{batch, none_wanted, both_wanted, update_of};

use crate::fixtures::{assert_same, batch_of, filled, one_write, slot_of_one, whole};
use change_map::ChangeMap;
use ckd_track::{Batch, Cause, Kind, Slot, Write, WriteList};
use copy_plan::CopyPlan;
use group_state::{CopyJoin, Forming, GroupState, Joining};
use pending_queue::{Formed, Room};
use std::alloc::Global;
use std::process::Abort;
use tod_stamp::Stamp;

/// Joins a batch that fits.
fn join(rt: &impl Abort, state: &mut GroupState, batch: Batch)
    requires control { batch.control < length state.old.controls }
    requires rules { IsTrue (all_keep_rules batch.writes) }
    requires legal { MayJoin (control_at state.old batch.control) batch }
    ensures { state.new ≡ group_after state.old (Join batch) }
{
    let joined = state.join(batch);
    assert!(rt; matches!(&joined, Joining::Joined));
}

/// Volume 0 of a controller begins to be carried with a plan of two tracks that wants none.
pub fn carry(rt: &impl Abort, alloc: Global, state: &mut GroupState, control: u16)
    requires control { control < length state.old.controls }
    requires may { MayCarry (control_at state.old control) 0 none_wanted }
    ensures { state.new ≡ group_after state.old (Carry control 0 none_wanted) }
{
    let plan = CopyPlan::owed(ChangeMap::make(alloc, 2).expect(rt, "memory"));
    let map = ChangeMap::make(alloc, 2).expect(rt, "memory");
    let carried = state.carry(alloc, control, 0, plan, map);
    carried.expect(rt, "memory");
}

/// Forms a group, which has a cut.
fn form(rt: &impl Abort, state: &mut GroupState, limit: u64, out: &mut Formed)
    requires limit { state.old.last.0 ≤ limit }
    requires room { length state.old.controls ≤ out.old.controls }
    ensures state { state.new ≡ group_after state.old (Form (record { 0 = limit })) }
    ensures room { out.new.controls ≡ out.old.controls }
{
    let formed = state.form(Stamp(limit), out);
    assert_eq!(rt; formed, Forming::Formed);
}

/// The cut that a form took, and controller and track of each entry that it gave.
fn assert_shown(rt: &impl Abort, out: &Formed, cut: u64, shown: &[(u16, u32)]) {
    assert_same(rt, &out.cut(), &Stamp(cut), &shown);
    assert!(rt; out.count() as usize == shown.len());
    for place in 0..out.count() {
        let head = out.head(place);
        let entry = (head.control, head.track);
        assert_same(rt, &entry, &shown[place as usize], &place);
    }
}

/// A batch of an update of 495 bytes, which needs two blocks.
fn long_update(rt: &impl Abort, alloc: Global) -> Batch
    ensures { result ≡ batch 0 (update_of 495 9 ∷ []) 9 }
{
    let kind = Kind::Update {
        number: 1,
        bytes: filled(rt, alloc, 495),
    };
    let write = Write {
        volume: 0,
        track: 0,
        stamp: Stamp(9),
        kind,
    };
    batch_of(rt, alloc, 0, write, 9)
}

/// A volume of controller 0 begins to be carried with a plan that wants both of its tracks.
pub fn carry_wanted(rt: &impl Abort, alloc: Global, state: &mut GroupState, volume: u16)
    requires control { 0 < length state.old.controls }
    requires may { MayCarry (control_at state.old 0) volume both_wanted }
    ensures { state.new ≡ group_after state.old (Carry 0 volume both_wanted) }
{
    let plan = CopyPlan::first(alloc, 2).expect(rt, "memory");
    let map = ChangeMap::make(alloc, 2).expect(rt, "memory");
    let carried = state.carry(alloc, 0, volume, plan, map);
    carried.expect(rt, "memory");
}

/// A wanted track of controller 0 that fits is copied at the floor.
fn copy(rt: &impl Abort, state: &mut GroupState, volume: u16, track: u32, at: u64, slot: &Slot)
    requires control { 0 < length state.old.controls }
    requires may { MayCopy (control_at state.old 0) volume track (record { 0 = at }) }
    ensures { state.new ≡ group_after state.old (Copied 0 volume track (record { 0 = at }) slot.now) }
{
    let copied = state.copied(0, volume, track, Stamp(at), slot);
    assert_eq!(rt; copied, CopyJoin::Joined);
}

/// A batch of three writes that empty tracks.
fn three_writes(rt: &impl Abort, alloc: Global) -> Batch
    ensures { result ≡ batch 0 (whole_on 0 0x10 ∷ whole_on 1 0x11 ∷ whole_on 0 0x12 ∷ []) 0x12 }
{
    let mut writes = WriteList::make(alloc);
    writes
        .push(alloc, whole(alloc, 0, 0x10))
        .expect(rt, "memory");
    writes
        .push(alloc, whole(alloc, 1, 0x11))
        .expect(rt, "memory");
    writes
        .push(alloc, whole(alloc, 0, 0x12))
        .expect(rt, "memory");
    Batch {
        control: 0,
        writes,
        upto: Stamp(0x12),
    }
}

/// The slower controller holds the cut back. A form without news gives nothing.
#[test]
fn the_cut_follows_the_slower_control(rt: HostRuntime) {
    let alloc = rt.alloc();
    let mut state = GroupState::make(alloc, 2, 32, 3_552).expect(&rt, "memory");
    let mut out = Formed::make(alloc, 2).expect(&rt, "memory");
    carry(&rt, alloc, &mut state, 0);
    join(&rt, &mut state, one_write(&rt, alloc, 0, 0, 0x10, 0x1F));
    join(&rt, &mut state, one_write(&rt, alloc, 0, 1, 0x20, 0x40));
    state.raise(1, Stamp(0x15));
    form(&rt, &mut state, 0x40, &mut out);
    assert_shown(&rt, &out, 0x15, &[(0, 0)]);
    state.raise(1, Stamp(0x40));
    form(&rt, &mut state, 0x40, &mut out);
    assert_shown(&rt, &out, 0x40, &[(0, 1)]);
    let formed = state.form(Stamp(0x40), &mut out);
    assert_same(&rt, &formed, &Forming::Nothing, &"formed again");
}

/// What a batch of two blocks is answered where a controller has two records and so many blocks, when its volume is carried.
fn assert_joined(rt: &impl Abort, alloc: Global, blocks: u32, held: Option<Room>)
    requires { blocks ≤ 3552 }
{
    let mut state = GroupState::make(alloc, 1, 2, blocks).expect(rt, "memory");
    carry(rt, alloc, &mut state, 0);
    let found = match state.join(long_update(rt, alloc)) {
        Joining::Joined => None,
        Joining::Held { batch: _, room } => Some(room),
    };
    assert_same(rt, &found, &held, &blocks);
}

/// A batch of two blocks is held where one is free, and joins where two are.
#[test]
fn a_batch_is_held_by_its_blocks(rt: HostRuntime) {
    let room = Room {
        records: 2,
        blocks: 1,
    };
    assert_joined(&rt, rt.alloc(), 1, Some(room));
    assert_joined(&rt, rt.alloc(), 2, None);
}

/// A track that isn't wanted is stale. The second copied track is held where one record is all the room.
#[test]
fn a_copied_track_is_stale_or_held(rt: HostRuntime) {
    let alloc = rt.alloc();
    let mut state = GroupState::make(alloc, 1, 1, 1).expect(&rt, "memory");
    let slot = Slot::make(alloc).expect(&rt, "memory");
    carry_wanted(&rt, alloc, &mut state, 0);
    let first = state.next_wanted(0);
    copy(&rt, &mut state, 0, 0, 0, &slot);
    let second = state.next_wanted(0);
    let stale = state.copied(0, 0, 0, Stamp(0), &slot);
    let held = state.copied(0, 0, 1, Stamp(0), &slot);
    let none = Room {
        records: 0,
        blocks: 0,
    };
    let wanted = [Some((0, 0)), Some((0, 1))];
    assert_same(&rt, &[first, second], &wanted, &"wanted");
    let copied = [CopyJoin::Stale, CopyJoin::Held(none)];
    assert_same(&rt, &[stale, held], &copied, &"copied");
}

/// What waited at a drop and what is written before the resume is wanted then, and copied.
#[test]
fn a_resumed_volume_copies_what_was_written(rt: HostRuntime) {
    let alloc = rt.alloc();
    let mut state = GroupState::make(alloc, 1, 32, 3_552).expect(&rt, "memory");
    let mut out = Formed::make(alloc, 1).expect(&rt, "memory");
    let slot = Slot::make(alloc).expect(&rt, "memory");
    carry(&rt, alloc, &mut state, 0);
    join(&rt, &mut state, one_write(&rt, alloc, 0, 0, 0x10, 0x10));
    state.drop_volume(0, 0, false);
    join(&rt, &mut state, one_write(&rt, alloc, 0, 1, 0x20, 0x20));
    let owed = state.resume(0, 0);
    copy(&rt, &mut state, 0, 0, 0x20, &slot);
    let second = state.next_wanted(0);
    copy(&rt, &mut state, 0, 1, 0x20, &slot);
    form(&rt, &mut state, 0x20, &mut out);
    assert_shown(&rt, &out, 0x20, &[(0, 0), (0, 1)]);
    let found = (owed, second, out.done_at(0));
    let expected = (2, Some((0, 1)), Some((0, 0)));
    assert_same(&rt, &found, &expected, &"owed, wanted and done");
}

/// The fourth entry of a group is the copied track of a volume with this image.
fn assert_last(rt: &impl Abort, out: &Formed, volume: u16, image: &[u8]) {
    assert!(rt; out.count() == 4 && 15 < out.entry(3).len());
    assert_same(rt, &out.head(3).volume, &volume, &"volume");
    assert_same(rt, &&out.entry(3)[15..], &image, &"image");
}

/// One form has all writes of a batch on one volume, the copied track of another, and two breaks at one time.
#[test]
fn two_volumes_and_two_breaks(rt: HostRuntime) {
    let alloc = rt.alloc();
    let mut state = GroupState::make(alloc, 3, 32, 3_552).expect(&rt, "memory");
    let mut out = Formed::make(alloc, 3).expect(&rt, "memory");
    let slot = slot_of_one(&rt, alloc, 3);
    carry(&rt, alloc, &mut state, 0);
    carry_wanted(&rt, alloc, &mut state, 1);
    join(&rt, &mut state, three_writes(&rt, alloc));
    let first = state.next_wanted(0);
    state.broken(1, Stamp(0x12), Cause::ReadFault);
    state.broken(2, Stamp(0x12), Cause::ReadFault);
    copy(&rt, &mut state, 1, 0, 0x12, &slot);
    let second = state.next_wanted(0);
    form(&rt, &mut state, 0x40, &mut out);
    let wanted = [Some((1, 0)), Some((1, 1))];
    assert_same(&rt, &[first, second], &wanted, &"wanted");
    assert_shown(&rt, &out, 0x12, &[(0, 0), (0, 1), (0, 0), (0, 0)]);
    assert_last(&rt, &out, 1, slot.bytes());
    let one = Some((1, Stamp(0x12), Cause::ReadFault));
    let two = Some((2, Stamp(0x12), Cause::ReadFault));
    let breaks = [out.break_at(0), out.break_at(1), out.break_at(2)];
    assert_same(&rt, &breaks, &[one, two, None], &"breaks");
    let done = [out.done_at(0), out.done_at(1)];
    assert_same(&rt, &done, &[Some((0, 0)), None], &"done");
}
