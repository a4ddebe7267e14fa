//! A queue against a plain list of what waits, through pushes, pops and drops at random.

ghost use Rattle.std.specs.Prelude.{◌≡◌, ◌<◌, length};
ghost use Rattle.group_tests.specs.Trials.{AreTried};

use crate::fixtures::{assert_same, batch_of, filled};
use change_map::ChangeMap;
use ckd_track::{Kind, Write, entry_len};
use pending_queue::{EntryHead, Formed, Queue, Room};
use std::alloc::Global;
use std::process::Abort;
use tod_stamp::Stamp;

/// The volumes that are written have so many tracks.
const TRACKS: u32 = 4;

/// What the list keeps of an entry that waits: its head, and the length of its form.
type Kept = (EntryHead, u32);

/// The next number of a generator (xorshift) below a bound.
fn draw(seed: &mut u64, bound: u64) -> u64
    requires { 0 < bound }
    ensures { result < bound }
{
    *seed ^= *seed << 13;
    *seed ^= *seed >> 7;
    *seed ^= *seed << 17;
    *seed % bound
}

/// The room that a queue of 8 entries and 16 blocks has beside these entries.
fn room_beside(list: &[Kept]) -> Room {
    let mut room = Room {
        records: 8,
        blocks: 16,
    };
    for kept in list {
        room.records = room.records.saturating_sub(1);
        room.blocks = room.blocks.saturating_sub(kept.1.div_ceil(512));
    }
    room
}

/// The queue has the room that these entries leave.
fn assert_room(rt: &impl Abort, queue: &Queue, list: &[Kept], case: u64) {
    let found = (queue.len() as usize, queue.free());
    assert_same(rt, &found, &(list.len(), room_beside(list)), &case);
}

/// An update of fewer than 1,500 bytes at a time, of one of three volumes.
fn update_at(rt: &impl Abort, alloc: Global, seed: &mut u64, at: u64) -> Write
    ensures stamp { result.stamp ≡ record { 0 = at } }
    ensures track { result.track < TRACKS }
{
    let count = draw(seed, 1_500) as usize;
    let volume = draw(seed, 3) as u16;
    let track = draw(seed, 4) as u32;
    let bytes = filled(rt, alloc, count);
    let kind = Kind::Update { number: 1, bytes };
    Write {
        volume,
        track,
        stamp: Stamp(at),
        kind,
    }
}

/// Pushes a write. It is refused exactly where the list leaves too little room.
fn push(rt: &impl Abort, alloc: Global, queue: &mut Queue, list: &mut Vec<Kept>, write: Write)
    requires tried { AreTried write.stamp.0 TRACKS queue.old.state.waiting }
    requires track { write.track < TRACKS }
    ensures { AreTried write.stamp.0 TRACKS queue.new.state.waiting }
{
    assert!(rt; write.kind.keeps_rules());
    let len = entry_len(&write);
    let at = write.stamp;
    let head = EntryHead {
        control: 0,
        volume: write.volume,
        track: write.track,
        stamp: at,
        whole: false,
    };
    let free = room_beside(list.as_slice());
    let fits = 1 <= free.records && len.div_ceil(512) <= free.blocks;
    let batch = batch_of(rt, alloc, 0, write, at.0);
    let pushed = queue.push_all(&batch);
    let expected = if fits { Ok(()) } else { Err(free) };
    assert_same(rt, &pushed, &expected, &head);
    if fits {
        list.push((head, len)).expect(rt, "memory");
    }
}

/// Drops a volume. Its map has the tracks of its entries.
fn drop_volume(
    rt: &impl Abort,
    queue: &mut Queue,
    list: &mut Vec<Kept>,
    map: &mut ChangeMap,
    volume: u16,
    at: u64,
)
    requires tried { AreTried at TRACKS queue.old.state.waiting }
    requires tracks { length map.old ≡ TRACKS }
    ensures tried { AreTried at TRACKS queue.new.state.waiting }
    ensures tracks { length map.new ≡ TRACKS }
{
    map.clear_all();
    queue.drop_volume(volume, map);
    for track in 0..TRACKS {
        let expected = list
            .iter()
            .any(|kept| kept.0.volume == volume && kept.0.track == track);
        assert_same(rt, &map.has(track), &expected, &at);
    }
    list.retain(|kept| kept.0.volume != volume);
}

/// Pops what is due at a cut. The group has the list's entries up to it, in order.
fn pop(
    rt: &impl Abort,
    queue: &mut Queue,
    list: &mut Vec<Kept>,
    out: &mut Formed,
    cut: u64,
    at: u64,
)
    requires tried { AreTried at TRACKS queue.old.state.waiting }
    requires one { out.old.controls ≡ 1 }
    ensures tried { AreTried at TRACKS queue.new.state.waiting }
    ensures one { out.new.controls ≡ 1 }
{
    assert!(rt; queue.len() <= 32);
    out.begin(Stamp(cut));
    queue.pop_upto(Stamp(cut), out);
    let due = list.iter().filter(|kept| kept.0.stamp.0 <= cut).count();
    assert_same(rt, &(out.count() as usize), &due, &at);
    for place in 0..out.count() {
        let found = (out.head(place), out.entry(place).len());
        let kept = list
            .get(place as usize)
            .map(|kept| (kept.0, kept.1 as usize));
        assert_same(rt, &kept, &Some(found), &at);
    }
    list.retain(|kept| cut < kept.0.stamp.0);
}

#[test]
fn a_queue_keeps_what_a_plain_list_keeps(rt: HostRuntime) {
    let alloc = rt.alloc();
    let mut queue = Queue::make(alloc, 0, 8, 16).expect(&rt, "memory");
    let mut out = Formed::make(alloc, 1).expect(&rt, "memory");
    let mut map = ChangeMap::make(alloc, TRACKS).expect(&rt, "memory");
    let mut list = Vec::new(alloc);
    let mut seed = 1;
    let mut at = 0u64;
    for _ in 0..10_000 {
        at = at.saturating_add(draw(&mut seed, 2));
        let number = draw(&mut seed, 3);
        match draw(&mut seed, 8) {
            0 => drop_volume(&rt, &mut queue, &mut list, &mut map, number as u16, at),
            1 => pop(
                &rt,
                &mut queue,
                &mut list,
                &mut out,
                at.saturating_sub(number),
                at,
            ),
            _ => {
                let write = update_at(&rt, alloc, &mut seed, at);
                push(&rt, alloc, &mut queue, &mut list, write);
            }
        }
        assert_room(&rt, &queue, list.as_slice(), at);
    }
}
