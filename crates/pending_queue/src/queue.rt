//! Queues of a controller's writes.

ghost use Rattle.std.specs.Prelude.{◌≡◌, ◌≢◌, ◌≤◌, ◌<◌, ◌+◌, ◌↔◌, ◌++◌, ◌∷◌, [], length, filter, nat_lt, slice_index_or, false, IfOk, IfErr, IfSome, OnOk, OnErr, IsErr, IsSome, IsTrue};
ghost use Rattle.std.specs.List.{list_any, list_all};
ghost use Rattle.block_region.specs.Regions.{ChainState, Holds, block_count, free_blocks};
ghost use Rattle.pending_queue.specs.Entries.{WaitingEntry, entries_of, copy_of, copy_head, all_keep_rules, last_stamp, due, left, without_volume, entry_tracks, is_copy_of};
ghost use Rattle.pending_queue.specs.Rooms.{blocks_taken, has_room, has_room_for_track};
ghost use Rattle.pending_queue.specs.Maps.{with_tracks};
ghost use Rattle.pending_queue.specs.Queues.{empty_queue, with_more, with_waiting, free_room};
ghost use Rattle.pending_queue.specs.Waitings.{HasFormOf, SameMemory};
ghost use Rattle.pending_queue.specs.Groups.{HasRoomFor, with_entries};
ghost use Rattle.ckd_track.specs.Writes.{writes_never_fall};

use crate::carrier::{Carrier, Everything};
use crate::formed::Formed;
use crate::head::EntryHead;
use crate::moving::has_due;
use crate::pushing::{fits, push_copy, push_entries, track_fits};
use crate::room::Room;
use crate::waiting::WaitingList;
use block_region::{Chain, Region};
use change_map::ChangeMap;
use ckd_track::{Batch, LONGEST_ENTRY, Slot};
use std::alloc::Global;
use std::marker::Model;
use tod_stamp::Stamp;
use xrc_edge::NoMemory;

/// The writes of a controller that wait, in order, each with a chain of a region that has its queue form. Contracts see the entries
/// that wait and the room that there is for them as its state, and the region with the chains.
#[derive(Debug, Drop)]
pub struct Queue {
    control: u16,
    waiting: WaitingList,
    // A buffer of the longest entry, in which a form is spelled.
    form: Vec<u8>,
}

impl Model for Queue {
    ghost use Rattle.std.specs.Prelude.{◌≡◌, vec_len, IsTrue};
    ghost use Rattle.block_region.specs.Regions.{block_count};
    ghost use Rattle.ckd_track.specs.Entries.{longest_entry};
    ghost use Rattle.pending_queue.specs.Entries.{entries_never_fall};
    ghost use Rattle.pending_queue.specs.Queues.{QueueInRegion, queue_state};

    ghost Value = { QueueInRegion };

    ghost view = { λ queue. record { state = queue_state queue.control queue.waiting; region = queue.waiting.region; chains = queue.waiting.chains } };

    ghost invariant = { λ queue. IsTrue (entries_never_fall 0 queue.waiting.entries) × (vec_len queue.form ≡ longest_entry) };
}

impl Queue {
    /// An empty queue of a controller, with room for so many entries and for so many blocks. All its memory is taken here: no
    /// other call of a queue takes any.
    pub fn make(alloc: Global, control: u16, records: u32, blocks: u32) -> Result<Queue, NoMemory>
        ensures { IfOk result (λ queue. queue.state ≡ empty_queue control records blocks) }
    {
        Ok(Queue {
            control,
            waiting: WaitingList::make(alloc, records, blocks)?,
            form: vec![in alloc; 0u8; LONGEST_ENTRY]?,
        })
    }

    /// The room that is free. An entry takes one record, and its length in blocks, rounded up.
    pub fn free(&self) -> Room
        ensures room { result ≡ free_room self.now.state }
        ensures records { result.records + length self.now.state.waiting ≡ self.now.state.records }
        ensures blocks { result.blocks + blocks_taken self.now.state.waiting ≡ self.now.state.blocks }
    {
        self.waiting.free()
    }

    /// The controller whose writes wait.
    pub fn control(&self) -> u16
        ensures { result ≡ self.now.state.control }
    {
        self.control
    }

    /// The number of entries that wait.
    pub fn len(&self) -> u32
        ensures count { result ≡ length self.now.state.waiting }
        ensures within { result ≤ self.now.state.records }
    {
        self.waiting.len()
    }

    /// The head of the waiting entry at a place, counted from 0.
    pub fn head(&self, place: u32) -> EntryHead
        requires { place < length self.now.state.waiting }
        ensures { (other : WaitingEntry) → result ≡ (slice_index_or self.now.state.waiting place other).head }
    {
        self.waiting.head(place)
    }

    /// Whether the waiting entry at a place is a copied track.
    pub fn is_copy(&self, place: u32) -> bool
        requires { place < length self.now.state.waiting }
        ensures { (other : WaitingEntry) → result ≡ (slice_index_or self.now.state.waiting place other).is_copy }
    {
        self.waiting.is_copy(place)
    }

    /// The region that keeps the queue forms. Its blocks are those of the queue, and its free ones the queue's free room.
    pub fn region(&self) -> &Region
        ensures region { result.now ≡ self.now.region }
        ensures blocks { block_count result.now ≡ self.now.state.blocks }
        ensures free { free_blocks result.now ≡ (free_room self.now.state).blocks }
    {
        self.waiting.region()
    }

    /// The chain of the waiting entry at a place, counted from 0: `Region::read_into` copies the queue form from it. None exactly
    /// where no entry waits there.
    pub fn chain(&self, place: u32) -> Option<&Chain>
        ensures there { IsSome result ↔ (place < length self.now.state.waiting) }
        ensures listed { (other : ChainState) → IfSome result (λ chain. chain.now ≡ slice_index_or self.now.chains place other) }
        ensures held { IfSome result (λ chain. Holds self.now.region chain.now) }
        ensures form { (other : WaitingEntry) → IfSome result (λ chain. HasFormOf self.now.region chain.now (slice_index_or self.now.state.waiting place other)) }
        ensures len { (other : WaitingEntry) → IfSome result (λ chain. chain.now.len ≡ length (slice_index_or self.now.state.waiting place other).form) }
    {
        self.waiting.chain(place)
    }

    /// Whether a cut takes any entry.
    pub fn has_due(&self, cut: Stamp) -> bool
        ensures { IsTrue result ↔ (due cut self.now.state.waiting ≢ []) }
    {
        has_due(&self.waiting, cut)
    }

    /// Whether a cut leaves a copied track of a volume.
    pub fn has_copies_left(&self, volume: u16, cut: Stamp) -> bool
        ensures { result ≡ list_any (is_copy_of volume) (left cut self.now.state.waiting) }
    {
        for place in 0..self.waiting.len() {
            let head = self.waiting.head(place);
            if self.waiting.is_copy(place) && head.volume == volume && head.stamp.0 > cut.0 {
                return true;
            }
        }
        false
    }

    /// Puts the entries of all writes of a batch after those that wait, as `push_carried` does.
    pub fn push_all(&mut self, batch: &Batch) -> Result<(), Room>
        requires rules { IsTrue (all_keep_rules batch.now.writes) }
        requires stamps { IsTrue (writes_never_fall (last_stamp self.old.state.waiting) batch.now.writes) }
        ensures pushed { OnOk result (self.new.state ≡ with_more self.old.state (entries_of self.old.state.control batch.now.writes)) }
        ensures refused { OnErr result (self.new ≡ self.old) }
        ensures full { IsErr result ↔ (has_room (free_room self.old.state) batch.now.writes ≡ false) }
        ensures room { IfErr result (λ room. room ≡ free_room self.old.state) }
    {
        self.push_carried(batch, &Everything)
    }

    /// Puts the entries of a batch's carried writes after those that wait. Refused, with the free room, exactly where the free
    /// records or blocks are fewer than they need. After a refusal the queue is as before.
    pub fn push_carried<C: Carrier>(&mut self, batch: &Batch, carrier: &C) -> Result<(), Room>
        requires rules { IsTrue (all_keep_rules batch.now.writes) }
        requires stamps { IsTrue (writes_never_fall (last_stamp self.old.state.waiting) (filter (C.carries carrier.now) batch.now.writes)) }
        ensures pushed { OnOk result (self.new.state ≡ with_more self.old.state (entries_of self.old.state.control (filter (C.carries carrier.now) batch.now.writes))) }
        ensures refused { OnErr result (self.new ≡ self.old) }
        ensures full { IsErr result ↔ (has_room (free_room self.old.state) (filter (C.carries carrier.now) batch.now.writes) ≡ false) }
        ensures room { IfErr result (λ room. room ≡ free_room self.old.state) }
    {
        let writes = batch.writes.as_slice();
        let free = self.waiting.free();
        if !fits(free, writes, carrier) {
            return Err(free);
        }
        let form = self.form.as_mut_slice();
        push_entries(self.control, writes, carrier, form, &mut self.waiting);
        Ok(())
    }

    /// Puts a copied track after the entries that wait. Refused, with the free room, exactly where there is no free record, or
    /// where the free blocks are fewer than its entry needs. After a refusal the queue is as before.
    pub fn push_track(
        &mut self,
        volume: u16,
        track: u32,
        stamp: Stamp,
        slot: &Slot,
    ) -> Result<(), Room>
        requires last { last_stamp self.old.state.waiting ≤ stamp.0 }
        ensures pushed { OnOk result (self.new.state ≡ with_more self.old.state (copy_of (copy_head self.old.state.control volume track stamp) slot.now ∷ [])) }
        ensures refused { OnErr result (self.new ≡ self.old) }
        ensures full { IsErr result ↔ (has_room_for_track (free_room self.old.state) slot.now ≡ false) }
        ensures room { IfErr result (λ room. room ≡ free_room self.old.state) }
    {
        let free = self.waiting.free();
        if !track_fits(free, slot) {
            return Err(free);
        }
        let head = EntryHead {
            control: self.control,
            volume,
            track,
            stamp,
            whole: true,
        };
        push_copy(head, slot, self.form.as_mut_slice(), &mut self.waiting);
        Ok(())
    }

    /// Puts the tracks of a volume's entries into its map, and then takes these entries out.
    pub fn drop_volume(&mut self, volume: u16, map: &mut ChangeMap)
        requires tracks { IsTrue (list_all (λ x. nat_lt x (length map.old)) (entry_tracks volume self.old.state.waiting)) }
        ensures left { self.new.state ≡ with_waiting self.old.state (without_volume volume self.old.state.waiting) }
        ensures mapped { map.new ≡ with_tracks map.old (entry_tracks volume self.old.state.waiting) }
    {
        map_tracks(&self.waiting, volume, map);
        take_out(&mut self.waiting, volume);
    }

    /// Moves exactly the entries with a stamp at most the cut into a group, where they stand by stamp, controller and position. The
    /// blocks of their chains are free then.
    pub fn pop_upto(&mut self, cut: Stamp, out: &mut Formed)
        requires room { HasRoomFor out.old (length (due cut self.old.state.waiting)) }
        ensures popped { out.new ≡ with_entries out.old (due cut self.old.state.waiting) }
        ensures left { self.new.state ≡ with_waiting self.old.state (left cut self.old.state.waiting) }
        ensures front { due cut self.old.state.waiting ++ left cut self.old.state.waiting ≡ self.old.state.waiting }
    {
        out.take_due(cut, &mut self.waiting);
    }
}

/// Puts the tracks of a volume's entries into its map.
fn map_tracks(waiting: &WaitingList, volume: u16, map: &mut ChangeMap)
    requires tracks { IsTrue (list_all (λ x. nat_lt x (length map.old)) (entry_tracks volume waiting.now.entries)) }
    ensures { map.new ≡ with_tracks map.old (entry_tracks volume waiting.now.entries) }
{
    for place in 0..waiting.len() {
        let head = waiting.head(place);
        if head.volume == volume {
            map.set(head.track);
        }
    }
}

/// Takes out a volume's entries. Each of the others goes once from the front to the end.
fn take_out(waiting: &mut WaitingList, volume: u16)
    ensures left { waiting.new.entries ≡ without_volume volume waiting.old.entries }
    ensures same { SameMemory waiting.old waiting.new }
{
    for _ in 0..waiting.len() {
        if waiting.head(0).volume == volume {
            waiting.give_front();
        } else {
            waiting.turn_front();
        }
    }
}
