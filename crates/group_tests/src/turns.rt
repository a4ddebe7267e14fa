//! Seats in their turns: three readers beside the mover on threads, a reader that is held and joins in the next round, and every call
//! of a seat once.

ghost use Rattle.std.specs.Prelude.{◌≡◌, ◌<◌, ◌≤◌, ◌+◌, ◌∷◌, [], length, IsTrue};
ghost use Rattle.std.specs.Thread.{IsSync};
ghost use Rattle.group_state.specs.Machine.Call.{Join};
ghost use Rattle.group_state.specs.Answers.{run_reply};
ghost use Rattle.turn_group.specs.Seats.{SeatMayJoin, ReaderCalled};
ghost use Rattle.group_tests.specs.Turns.{started, ReadsUpTo, MovesUpTo};

use crate::fixtures::{assert_same, one_write};
use crate::runs::{carry, carry_wanted};
use ckd_track::{Batch, Cause, Slot};
use group_state::{CopyJoin, Forming, GroupState, Joining, RunJoin};
use pending_queue::{Formed, Room};
use std::alloc::Global;
use std::process::Abort;
use std::sync::Wait;
use std::thread::{Threads, join_mut};
use tod_stamp::Stamp;
use turn_group::{MoverSeat, ReaderSeat, TurnGroup};

/// How many batches each reader joins.
const BATCHES: u64 = 20;

/// A state of three controllers, each of which carries its volume 0 of two tracks.
fn three_controls(rt: &impl Abort, alloc: Global) -> GroupState
    ensures { result ≡ started }
{
    let mut state = GroupState::make(alloc, 3, 32, 3_552).expect(rt, "memory");
    carry(rt, alloc, &mut state, 0);
    carry(rt, alloc, &mut state, 1);
    carry(rt, alloc, &mut state, 2);
    state
}

/// Joins a batch of one write at each time from 1 on.
fn read_all<R: Abort + Wait>(rt: &R, alloc: Global, group: &TurnGroup, seat: &mut ReaderSeat)
    requires reads { ReadsUpTo group.now.table 0 seat.old }
    ensures reads { ReadsUpTo group.now.table BATCHES seat.new }
    ensures control { seat.new.control ≡ seat.old.control }
{
    let control = seat.control();
    for before in 0..BATCHES {
        let time = before + 1;
        let batch = one_write(rt, alloc, control, 1, time, time);
        let joined = group.join_batch_ref(rt, seat, &batch);
        assert_eq!(rt; joined, RunJoin::Joined);
    }
}

/// Notes the controller and the stamp of each entry that a group shows.
fn note_shown(rt: &impl Abort, out: &Formed, shown: &mut Vec<(u16, Stamp)>) {
    for place in 0..out.count() {
        let head = out.head(place);
        shown.push((head.control, head.stamp)).expect(rt, "memory");
    }
}

/// Forms groups while readers join, and notes what they show.
fn form_some<R: Abort + Wait>(
    rt: &R,
    group: &TurnGroup,
    seat: &mut MoverSeat,
    out: &mut Formed,
    shown: &mut Vec<(u16, Stamp)>,
)
    requires moves { MovesUpTo group.now.table BATCHES seat.old }
    requires room { 3 ≤ out.old.controls }
    ensures moves { MovesUpTo group.now.table BATCHES seat.new }
    ensures room { out.new.controls ≡ out.old.controls }
{
    for _ in 0..BATCHES {
        group.form(rt, seat, Stamp(BATCHES), out);
        note_shown(rt, out, shown);
    }
}

/// One reader beside the mover.
fn read_and_form<R: Abort + Threads + Wait + Sync>(
    rt: &R,
    alloc: Global,
    group: &TurnGroup,
    reader: &mut ReaderSeat,
    seat: &mut MoverSeat,
    out: &mut Formed,
    shown: &mut Vec<(u16, Stamp)>,
)
    requires reads { ReadsUpTo group.now.table 0 reader.old }
    requires moves { MovesUpTo group.now.table BATCHES seat.old }
    requires room { 3 ≤ out.old.controls }
    ensures reads { ReadsUpTo group.now.table BATCHES reader.new }
    ensures control { reader.new.control ≡ reader.old.control }
    ensures moves { MovesUpTo group.now.table BATCHES seat.new }
    ensures room { out.new.controls ≡ out.old.controls }
{
    join_mut(
        rt,
        &mut || -> ()
            requires { IsSync R.row × ReadsUpTo group.now.table 0 reader.now }
            ensures { ReadsUpTo group.entry.now.table BATCHES reader.exit.now × (reader.exit.now.control ≡ reader.entry.now.control) }
        { read_all(rt, alloc, group, reader) },
        &mut || -> ()
            requires { MovesUpTo group.now.table BATCHES seat.now × (3 ≤ out.now.controls) }
            ensures { MovesUpTo group.entry.now.table BATCHES seat.exit.now × (out.exit.now.controls ≡ out.entry.now.controls) }
        { form_some(rt, group, seat, out, shown) },
    );
}

/// Two readers beside each other.
fn read_both<R: Abort + Threads + Wait + Sync>(
    rt: &R,
    alloc: Global,
    group: &TurnGroup,
    first: &mut ReaderSeat,
    second: &mut ReaderSeat,
)
    requires first { ReadsUpTo group.now.table 0 first.old }
    requires second { ReadsUpTo group.now.table 0 second.old }
    ensures first { ReadsUpTo group.now.table BATCHES first.new × (first.new.control ≡ first.old.control) }
    ensures second { ReadsUpTo group.now.table BATCHES second.new × (second.new.control ≡ second.old.control) }
{
    join_mut(
        rt,
        &mut || -> ()
            requires { IsSync R.row × ReadsUpTo group.now.table 0 first.now }
            ensures { ReadsUpTo group.entry.now.table BATCHES first.exit.now × (first.exit.now.control ≡ first.entry.now.control) }
        { read_all(rt, alloc, group, first) },
        &mut || -> ()
            requires { ReadsUpTo group.now.table 0 second.now }
            ensures { ReadsUpTo group.entry.now.table BATCHES second.exit.now × (second.exit.now.control ≡ second.entry.now.control) }
        { read_all(rt, alloc, group, second) },
    );
}

/// Three readers and the mover, each on a thread.
fn read_three<R: Abort + Threads + Wait + Sync>(
    rt: &R,
    alloc: Global,
    group: &TurnGroup,
    first: &mut ReaderSeat,
    second: &mut ReaderSeat,
    third: &mut ReaderSeat,
    mover: &mut MoverSeat,
    out: &mut Formed,
    shown: &mut Vec<(u16, Stamp)>,
)
    requires first { ReadsUpTo group.now.table 0 first.old }
    requires second { ReadsUpTo group.now.table 0 second.old }
    requires third { ReadsUpTo group.now.table 0 third.old }
    requires moves { MovesUpTo group.now.table BATCHES mover.old }
    requires room { 3 ≤ out.old.controls }
    ensures first { ReadsUpTo group.now.table BATCHES first.new × (first.new.control ≡ first.old.control) }
    ensures second { ReadsUpTo group.now.table BATCHES second.new × (second.new.control ≡ second.old.control) }
    ensures third { ReadsUpTo group.now.table BATCHES third.new × (third.new.control ≡ third.old.control) }
    ensures moves { MovesUpTo group.now.table BATCHES mover.new }
    ensures room { out.new.controls ≡ out.old.controls }
{
    join_mut(
        rt,
        &mut || -> ()
            requires { IsSync R.row × ReadsUpTo group.now.table 0 first.now × ReadsUpTo group.now.table 0 second.now }
            ensures { ReadsUpTo group.entry.now.table BATCHES first.exit.now × (first.exit.now.control ≡ first.entry.now.control) × ReadsUpTo group.entry.now.table BATCHES second.exit.now × (second.exit.now.control ≡ second.entry.now.control) }
        { read_both(rt, alloc, group, first, second) },
        &mut || -> ()
            requires { IsSync R.row × ReadsUpTo group.now.table 0 third.now × MovesUpTo group.now.table BATCHES mover.now × (3 ≤ out.now.controls) }
            ensures { ReadsUpTo group.entry.now.table BATCHES third.exit.now × (third.exit.now.control ≡ third.entry.now.control) × MovesUpTo group.entry.now.table BATCHES mover.exit.now × (out.exit.now.controls ≡ out.entry.now.controls) }
        { read_and_form(rt, alloc, group, third, mover, out, shown) },
    );
}

/// The same calls one after another, each reader's in turn and then the mover's.
fn read_in_turn<R: Abort + Wait>(
    rt: &R,
    alloc: Global,
    group: &TurnGroup,
    first: &mut ReaderSeat,
    second: &mut ReaderSeat,
    third: &mut ReaderSeat,
    mover: &mut MoverSeat,
    out: &mut Formed,
    shown: &mut Vec<(u16, Stamp)>,
)
    requires first { ReadsUpTo group.now.table 0 first.old }
    requires second { ReadsUpTo group.now.table 0 second.old }
    requires third { ReadsUpTo group.now.table 0 third.old }
    requires moves { MovesUpTo group.now.table BATCHES mover.old }
    requires room { 3 ≤ out.old.controls }
    ensures first { ReadsUpTo group.now.table BATCHES first.new × (first.new.control ≡ first.old.control) }
    ensures second { ReadsUpTo group.now.table BATCHES second.new × (second.new.control ≡ second.old.control) }
    ensures third { ReadsUpTo group.now.table BATCHES third.new × (third.new.control ≡ third.old.control) }
    ensures moves { MovesUpTo group.now.table BATCHES mover.new }
    ensures room { out.new.controls ≡ out.old.controls }
{
    read_all(rt, alloc, group, first);
    read_all(rt, alloc, group, second);
    read_all(rt, alloc, group, third);
    form_some(rt, group, mover, out, shown);
}

/// What groups show of the batches of three readers, on threads or one after another.
fn shown_by<R: Abort + Threads + Wait + Sync>(
    rt: &R,
    alloc: Global,
    on_threads: bool,
) -> Vec<(u16, Stamp)> {
    let state = three_controls(rt, alloc);
    let mut out = Formed::make(alloc, 3).expect(rt, "memory");
    let mut shown = Vec::new(alloc);
    let (group, mut mover, mut seats) = TurnGroup::make(alloc, state).expect(rt, "memory");
    let mut a = seats.take(0).expect(rt, "seat");
    let mut b = seats.take(1).expect(rt, "seat");
    let mut c = seats.take(2).expect(rt, "seat");
    let (out, log) = (&mut out, &mut shown);
    if on_threads {
        read_three(
            rt, alloc, &group, &mut a, &mut b, &mut c, &mut mover, out, log,
        );
    } else {
        read_in_turn(
            rt, alloc, &group, &mut a, &mut b, &mut c, &mut mover, out, log,
        );
    }
    form_some(rt, &group, &mut mover, out, log);
    seats.put(a);
    seats.put(b);
    seats.put(c);
    let end = group.close(mover, seats);
    assert_same(rt, &end.controls(), &3, &"controls");
    shown
}

/// The groups show the same entries in the same order, however the threads' calls come between each other.
#[test]
fn readers_join_beside_the_mover(rt: HostRuntime) {
    let alloc = rt.alloc();
    let in_turn = shown_by(&rt, alloc, false);
    let on_threads = shown_by(&rt, alloc, true);
    assert_same(&rt, &(in_turn.len() as u64), &(3 * BATCHES), &"shown");
    assert_same(&rt, &on_threads, &in_turn, &"on threads");
}

/// Joins a batch that is held where it doesn't fit.
fn assert_joined<R: Abort + Wait>(
    rt: &R,
    group: &TurnGroup,
    seat: &mut ReaderSeat,
    batch: &Batch,
    expected: RunJoin,
)
    requires table { seat.old.table ≡ group.now.table }
    requires may { SeatMayJoin seat.old batch.now }
    ensures called { ReaderCalled seat.old (Join batch.now) (run_reply expected) seat.new }
{
    let joined = group.join_batch_ref(rt, seat, batch);
    assert_eq!(rt; joined, expected);
}

/// A batch that doesn't fit is held. It joins in the next round, once a group was formed.
#[test]
fn a_held_batch_joins_in_the_next_round(rt: HostRuntime) {
    let alloc = rt.alloc();
    let mut state = GroupState::make(alloc, 1, 1, 1).expect(&rt, "memory");
    carry(&rt, alloc, &mut state, 0);
    let mut out = Formed::make(alloc, 1).expect(&rt, "memory");
    let (group, mut mover, mut seats) = TurnGroup::make(alloc, state).expect(&rt, "memory");
    let mut seat = seats.take(0).expect(&rt, "seat");
    let none = Room {
        records: 0,
        blocks: 0,
    };
    let first = one_write(&rt, alloc, 0, 0, 1, 1);
    let second = one_write(&rt, alloc, 0, 1, 2, 2);
    assert_joined(&rt, &group, &mut seat, &first, RunJoin::Joined);
    assert_joined(&rt, &group, &mut seat, &second, RunJoin::Held(none));
    let formed = group.form(&rt, &mut mover, Stamp(2), &mut out);
    let found = (formed, out.count(), out.cut());
    assert_same(&rt, &found, &(Forming::Formed, 1, Stamp(1)), &"first round");
    assert_joined(&rt, &group, &mut seat, &second, RunJoin::Joined);
    let formed = group.form(&rt, &mut mover, Stamp(2), &mut out);
    let found = (formed, out.count(), out.cut());
    assert_same(&rt, &found, &(Forming::Formed, 1, Stamp(2)), &"next round");
    seats.put(seat);
    let end = group.close(mover, seats);
    assert_same(&rt, &end.controls(), &1, &"controls");
}

/// What the reader's and the mover's calls answer, each called once and a copied track twice.
#[test]
fn every_call_takes_its_turn(rt: HostRuntime) {
    let alloc = rt.alloc();
    let mut state = GroupState::make(alloc, 1, 32, 3_552).expect(&rt, "memory");
    carry_wanted(&rt, alloc, &mut state, 0);
    let slot = Slot::make(alloc).expect(&rt, "memory");
    let mut out = Formed::make(alloc, 1).expect(&rt, "memory");
    let (group, mut mover, mut seats) = TurnGroup::make(alloc, state).expect(&rt, "memory");
    let mut seat = seats.take(0).expect(&rt, "seat");
    let wanted = group.next_wanted(&rt, &mut seat);
    let copied = group.join_copy(&rt, &mut seat, 0, 0, Stamp(0), &slot);
    let stale = group.join_copy(&rt, &mut seat, 0, 0, Stamp(0), &slot);
    assert_same(&rt, &wanted, &Some((0, 0)), &"wanted");
    let expected = [CopyJoin::Joined, CopyJoin::Stale];
    assert_same(&rt, &[copied, stale], &expected, &"copied");
    let batch = one_write(&rt, alloc, 0, 0, 3, 4);
    let joined = group.join_batch(&rt, &mut seat, batch);
    assert!(rt; matches!(&joined, Joining::Joined));
    group.raise(&rt, &mut seat, Stamp(5));
    group.mark_broken(&rt, &mut seat, Stamp(7), Cause::ReadFault);
    group.drop_volume(&rt, &mut mover, 0, 0, false);
    let formed = group.form(&rt, &mut mover, Stamp(9), &mut out);
    let found = (formed, out.count(), out.break_at(0));
    let broke = Some((0, Stamp(7), Cause::ReadFault));
    assert_same(&rt, &found, &(Forming::Formed, 0, broke), &"formed");
    seats.put(seat);
    let end = group.close(mover, seats);
    assert_same(&rt, &end.next_wanted(0), &None, &"dropped");
}

/// A table of so many controllers has a seat for each, and gives back its state.
fn assert_made<R: Abort + Wait>(rt: &R, alloc: Global, controls: u16)
    requires some { 1 ≤ controls }
    requires few { controls ≤ 16 }
{
    let state = GroupState::make(alloc, controls, 1, 1).expect(rt, "memory");
    let (group, mover, mut seats) = TurnGroup::make(alloc, state).expect(rt, "memory");
    let last = seats.take(controls - 1).expect(rt, "seat");
    assert_same(rt, &last.control(), &(controls - 1), &"last seat");
    seats.put(last);
    let end = group.close(mover, seats);
    assert_same(rt, &end.controls(), &controls, &"controls");
}

#[test]
fn tables_have_a_seat_for_each_control(rt: HostRuntime) {
    for controls in [1, 16] {
        assert_made(&rt, rt.alloc(), controls);
    }
}
