//! Putting the entries of carried writes into a queue.

ghost use Rattle.std.specs.Prelude.{◌≡◌, ◌≤◌, ◌<◌, ◌^◌, ◌+◌, ◌++◌, ◌∷◌, [], length, filter, IsTrue};
ghost use Rattle.ckd_track.specs.Effects.{keeps_rules};
ghost use Rattle.ckd_track.specs.Entries.{longest_entry, queue_form};
ghost use Rattle.block_region.specs.Blocks.{blocks_of};
ghost use Rattle.block_region.specs.Regions.{free_blocks};
ghost use Rattle.pending_queue.specs.Entries.{entries_of, entry_of, copy_of, all_keep_rules};
ghost use Rattle.pending_queue.specs.Rooms.{blocks_needed, has_room, has_room_for_track};
ghost use Rattle.pending_queue.specs.Waitings.{SameMemory, room_left};

use crate::carrier::Carrier;
use crate::entry::{Effect, copy_len, head_of, put_copy};
use crate::head::EntryHead;
use crate::room::Room;
use crate::waiting::WaitingList;
use block_region::blocks_of;
use ckd_track::{Slot, Write, entry_len, put_entry};
use std::snapshot::Snapshot;

/// Whether the entries of the carried writes fit the free room.
pub fn fits<C: Carrier>(free: Room, writes: &[Write], carrier: &C) -> bool
    requires rules { IsTrue (all_keep_rules writes.now) }
    ensures { result ≡ has_room free (filter (C.carries carrier.now) writes.now) }
{
    count_carried(writes, carrier) <= free.records as usize
        && blocks_needed(writes, carrier) <= u64::from(free.blocks)
}

/// How many writes are carried.
fn count_carried<C: Carrier>(writes: &[Write], carrier: &C) -> usize
    ensures { result ≡ length (filter (C.carries carrier.now) writes.now) }
{
    let mut count = 0;
    for write in writes {
        if carrier.carries(write) {
            count += 1;
        }
    }
    count
}

/// The blocks that the entries of the carried writes need.
fn blocks_needed<C: Carrier>(writes: &[Write], carrier: &C) -> u64
    requires rules { IsTrue (all_keep_rules writes.now) }
    requires few { length (filter (C.carries carrier.now) writes.now) < 2 ^ 32 }
    ensures { result ≡ blocks_needed (filter (C.carries carrier.now) writes.now) }
{
    let mut blocks = 0;
    for write in writes {
        if carrier.carries(write) {
            blocks += u64::from(blocks_of(u64::from(entry_len(write))));
        }
    }
    blocks
}

/// Puts the entries of the carried writes after those that wait. `form` is a buffer of the longest entry.
pub fn push_entries<C: Carrier>(
    control: u16,
    writes: &[Write],
    carrier: &C,
    form: &mut [u8],
    waiting: &mut WaitingList,
)
    requires rules { IsTrue (all_keep_rules writes.now) }
    requires buffer { longest_entry ≤ length form.old }
    requires room { IsTrue (has_room (room_left waiting.old) (filter (C.carries carrier.now) writes.now)) }
    ensures pushed { waiting.new.entries ≡ waiting.old.entries ++ entries_of control (filter (C.carries carrier.now) writes.now) }
    ensures same { SameMemory waiting.old waiting.new }
    ensures buffer { length form.new ≡ length form.old }
{
    for write in writes {
        if carrier.carries(write) {
            push_write(control, write, form, waiting);
        }
    }
}

/// Puts the entry of a write after those that wait.
fn push_write(control: u16, write: &Write, form: &mut [u8], waiting: &mut WaitingList)
    requires rules { IsTrue (keeps_rules write.now.kind) }
    requires buffer { longest_entry ≤ length form.old }
    requires record { length waiting.old.entries < waiting.old.most }
    requires blocks { blocks_of (length (queue_form write.now)) ≤ free_blocks waiting.old.region }
    ensures pushed { waiting.new.entries ≡ waiting.old.entries ++ entry_of control write.now ∷ [] }
    ensures same { SameMemory waiting.old waiting.new }
    ensures free { free_blocks waiting.new.region + blocks_of (length (queue_form write.now)) ≡ free_blocks waiting.old.region }
    ensures buffer { length form.new ≡ length form.old }
{
    let len = entry_len(write) as usize;
    put_entry(write, form);
    let effect = Effect::Write(Snapshot::of(&write.kind));
    waiting.push(head_of(control, write), effect, &form[..len]);
}

/// Whether the entry of a copied track fits the free room.
pub fn track_fits(free: Room, slot: &Slot) -> bool
    ensures { result ≡ has_room_for_track free slot.now }
{
    free.records >= 1 && blocks_of(copy_len(slot) as u64) <= free.blocks
}

/// Puts the entry of a copied track after those that wait. `form` is a buffer of the longest entry.
pub fn push_copy(head: EntryHead, slot: &Slot, form: &mut [u8], waiting: &mut WaitingList)
    requires whole { IsTrue head.whole }
    requires buffer { longest_entry ≤ length form.old }
    requires room { IsTrue (has_room_for_track (room_left waiting.old) slot.now) }
    ensures pushed { waiting.new.entries ≡ waiting.old.entries ++ copy_of head slot.now ∷ [] }
    ensures same { SameMemory waiting.old waiting.new }
    ensures buffer { length form.new ≡ length form.old }
{
    let len = put_copy(head, slot, form);
    let effect = Effect::Copy(Snapshot::of(slot));
    waiting.push(head, effect, &form[..len]);
}
