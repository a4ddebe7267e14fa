//! Queues at their limits.

ghost use Rattle.std.specs.Prelude.{◌≡◌, ◌≤◌};
ghost use Rattle.pending_queue.specs.Entries.{last_stamp};

use crate::fixtures::{assert_same, batch_of, filled, slot_of_one, track_of_one};
use ckd_track::{Kind, Write};
use pending_queue::{EntryHead, Formed, Queue, Room};
use std::alloc::Global;
use std::process::Abort;
use tod_stamp::Stamp;

/// No room.
const NONE: Room = Room {
    records: 0,
    blocks: 0,
};

/// A write of this kind to a track of volume 5, at the time 9.
fn at_nine(track: u32, kind: Kind) -> Write {
    Write {
        volume: 5,
        track,
        stamp: Stamp(9),
        kind,
    }
}

/// An update of so many bytes.
fn update(rt: &impl Abort, alloc: Global, track: u32, count: usize) -> Write {
    let bytes = filled(rt, alloc, count);
    at_nine(track, Kind::Update { number: 1, bytes })
}

/// A whole track of one record that fills it.
fn longest(rt: &impl Abort, alloc: Global) -> Write {
    let track = track_of_one(rt, alloc, 56_656);
    at_nine(0, Kind::Whole { track })
}

/// Pushes a batch of one write at the time 9.
fn push(rt: &impl Abort, alloc: Global, queue: &mut Queue, write: Write) -> Result<(), Room>
    requires { last_stamp queue.old.state.waiting ≤ 9 }
    ensures { last_stamp queue.new.state.waiting ≤ 9 }
{
    assert!(rt; write.stamp.0 == 9 && write.kind.keeps_rules());
    let batch = batch_of(rt, alloc, 0, write, 9);
    queue.push_all(&batch)
}

/// A write is answered so, and leaves this room.
fn assert_pushed(
    rt: &impl Abort,
    alloc: Global,
    queue: &mut Queue,
    write: Write,
    expected: Result<(), Room>,
    free: Room,
)
    requires { last_stamp queue.old.state.waiting ≤ 9 }
    ensures { last_stamp queue.new.state.waiting ≤ 9 }
{
    let pushed = push(rt, alloc, queue, write);
    assert_same(rt, &(pushed, queue.free()), &(expected, free), &"pushed");
}

/// A queue of one record and so many blocks is too small for a write by one block, or fits it.
fn assert_needs(rt: &impl Abort, alloc: Global, write: Write, blocks: u32, fits: bool) {
    let mut queue = Queue::make(alloc, 0, 1, blocks).expect(rt, "memory");
    let room = Room { records: 1, blocks };
    let (expected, free) = if fits {
        (Ok(()), NONE)
    } else {
        (Err(room), room)
    };
    assert_pushed(rt, alloc, &mut queue, write, expected, free);
}

// 18 bytes stand before an update's content, and 21 before that of a whole track of one record.
#[test]
fn an_entry_needs_its_length_in_blocks(rt: HostRuntime) {
    let alloc = rt.alloc();
    assert_needs(&rt, alloc, update(&rt, alloc, 0, 494), 1, true);
    assert_needs(&rt, alloc, update(&rt, alloc, 0, 495), 1, false);
    assert_needs(&rt, alloc, update(&rt, alloc, 0, 495), 2, true);
    assert_needs(&rt, alloc, longest(&rt, alloc), 110, false);
    assert_needs(&rt, alloc, longest(&rt, alloc), 111, true);
}

/// Pops a queue of at most 32 entries into an empty group of two controllers.
fn pop(rt: &impl Abort, queue: &mut Queue, out: &mut Formed)
    requires { out.old.controls ≡ 2 }
{
    assert!(rt; queue.len() <= 32);
    assert!(rt; out.count() == 0);
    queue.pop_upto(Stamp(9), out);
}

/// The entry at a place has this head and this length.
fn assert_entry(rt: &impl Abort, out: &Formed, place: u32, head: EntryHead, length: usize) {
    assert!(rt; place < out.count());
    let found = (out.head(place), out.entry(place).len());
    assert_same(rt, &found, &(head, length), &place);
}

/// An entry of volume 5 at the time 9.
fn head_of(control: u16, track: u32, whole: bool) -> EntryHead {
    EntryHead {
        control,
        volume: 5,
        track,
        stamp: Stamp(9),
        whole,
    }
}

#[test]
fn thirty_two_of_the_longest_updates_fill_a_queue(rt: HostRuntime) {
    let alloc = rt.alloc();
    let mut queue = Queue::make(alloc, 0, 32, 3_552).expect(&rt, "memory");
    for track in 0..32 {
        let free = Room {
            records: 31 - track,
            blocks: 111 * (31 - track),
        };
        let write = update(&rt, alloc, track, 56_656);
        assert_pushed(&rt, alloc, &mut queue, write, Ok(()), free);
    }
    let write = update(&rt, alloc, 32, 0);
    assert_pushed(&rt, alloc, &mut queue, write, Err(NONE), NONE);
    let mut out = Formed::make(alloc, 2).expect(&rt, "memory");
    pop(&rt, &mut queue, &mut out);
    let all = Room {
        records: 32,
        blocks: 3_552,
    };
    assert_same(&rt, &queue.free(), &all, &"free again");
    assert_entry(&rt, &out, 31, head_of(0, 31, false), 56_674);
}

#[test]
fn a_copied_track_waits_as_a_whole_write(rt: HostRuntime) {
    let alloc = rt.alloc();
    let mut queue = Queue::make(alloc, 3, 1, 1).expect(&rt, "memory");
    // 15 bytes before the image, 2 of its count, and 4 before the record's content
    let slot = slot_of_one(&rt, alloc, 492);
    let room = queue.free();
    let long = queue.push_track(5, 7, Stamp(9), &slot);
    let slot = slot_of_one(&rt, alloc, 491);
    let pushed = queue.push_track(5, 7, Stamp(9), &slot);
    let second = queue.push_track(5, 8, Stamp(9), &slot);
    let expected = [Err(room), Ok(()), Err(NONE)];
    assert_same(&rt, &[long, pushed, second], &expected, &"pushed");
    let mut out = Formed::make(alloc, 2).expect(&rt, "memory");
    pop(&rt, &mut queue, &mut out);
    assert_entry(&rt, &out, 0, head_of(3, 7, true), 512);
    assert!(rt; 0 < out.count() && out.entry(0).len() == 512);
    let before = [4, 0, 0, 0, 0, 0, 0, 0, 9, 0, 5, 0, 0, 0, 7];
    assert_same(&rt, &&out.entry(0)[..15], &before.as_slice(), &"before");
    assert_same(&rt, &&out.entry(0)[15..], &slot.bytes(), &"image");
}
