//! Entries that wait, each with a chain of blocks that has its form.

ghost use Rattle.std.specs.Prelude.{◌≡◌, ◌≤◌, ◌<◌, ◌+◌, ◌-◌, ◌↔◌, ◌++◌, ◌∷◌, [], length, take, drop, slice_index_or, IfOk, IfSome, IsSome};
ghost use Rattle.ckd_track.specs.Entries.{longest_entry};
ghost use Rattle.ckd_track.specs.Slots.{with_bytes};
ghost use Rattle.block_region.specs.Blocks.{blocks_of};
ghost use Rattle.block_region.specs.Regions.{ChainState, empty_region, chain_bytes, Holds, block_count, free_blocks};
ghost use Rattle.pending_queue.specs.Entries.{WaitingEntry, IsOfWrite, entry_by};
ghost use Rattle.pending_queue.specs.Rooms.{blocks_taken};
ghost use Rattle.pending_queue.specs.Waitings.{HasFormOf, IsGivenBy, SameMemory, room_left};

use crate::entry::Effect;
use crate::head::EntryHead;
use crate::room::Room;
use block_region::{Chain, Region};
use std::alloc::Global;
use std::collections::VecDeque;
use std::fmt;
use std::marker::Model;
use xrc_edge::NoMemory;

/// An entry that waits: what its write names, the chain that has its form, and what it does to its track.
#[derive(Drop)]
pub struct Waiting {
    head: EntryHead,
    chain: Chain,
    effect: Effect,
}

impl fmt::Debug for Waiting {
    fn fmt<W: fmt::Write>(&self, f: &mut fmt::Formatter<W>) -> fmt::Result {
        f.debug_struct("Waiting")
            .field("head", &self.head)
            .field("chain", &self.chain)
            .finish()
    }
}

/// Entries in order, with the region of their chains. All memory is taken when it is made.
#[derive(Debug, Drop)]
pub struct WaitingList {
    most: u32,
    region: Region,
    entries: VecDeque<Waiting>,
}

impl Model for WaitingList {
    ghost use Rattle.std.specs.VecDeque.{deque_capacity};
    ghost use Rattle.pending_queue.specs.Waitings.{WaitingState, AreChainsSound, chains_of, entries_in};

    ghost Value = { WaitingState };

    ghost view = { λ list. record { most = list.most; region = list.region; chains = chains_of list.entries.items; entries = entries_in list.region list.entries.items } };

    ghost invariant = { λ list. AreChainsSound list.most (deque_capacity list.entries) list.region list.entries.items };
}

impl WaitingList {
    /// No entries, with room for so many, whose forms take at most so many blocks.
    pub fn make(alloc: Global, most: u32, blocks: u32) -> Result<WaitingList, NoMemory>
        ensures { IfOk result (λ list. list ≡ record { most = most; region = empty_region blocks; chains = []; entries = [] }) }
    {
        Ok(WaitingList {
            most,
            region: Region::make(alloc, blocks)?,
            entries: VecDeque::with_capacity(alloc, most as usize)?,
        })
    }

    /// The room that is free.
    pub fn free(&self) -> Room
        ensures room { result ≡ room_left self.now }
        ensures records { result.records + length self.now.entries ≡ self.now.most }
        ensures blocks { result.blocks + blocks_taken self.now.entries ≡ block_count self.now.region }
    {
        Room {
            records: self.most - self.entries.len() as u32,
            blocks: self.region.free(),
        }
    }

    /// The number of entries.
    pub fn len(&self) -> u32
        ensures count { result ≡ length self.now.entries }
        ensures within { result ≤ self.now.most }
    {
        self.entries.len() as u32
    }

    /// The head of the entry at a place, counted from 0.
    pub fn head(&self, place: u32) -> EntryHead
        requires { place < length self.now.entries }
        ensures { (other : WaitingEntry) → result ≡ (slice_index_or self.now.entries place other).head }
    {
        self.entries[place as usize].head
    }

    /// Whether the entry at a place is a copied track.
    pub fn is_copy(&self, place: u32) -> bool
        requires { place < length self.now.entries }
        ensures { (other : WaitingEntry) → result ≡ (slice_index_or self.now.entries place other).is_copy }
    {
        self.entries[place as usize].effect.is_copy()
    }

    /// The region of the chains.
    pub fn region(&self) -> &Region
        ensures region { result.now ≡ self.now.region }
        ensures free { free_blocks self.now.region ≡ block_count self.now.region - blocks_taken self.now.entries }
    {
        &self.region
    }

    /// The chain of the entry at a place.
    pub fn chain(&self, place: u32) -> Option<&Chain>
        ensures there { IsSome result ↔ (place < length self.now.entries) }
        ensures listed { (other : ChainState) → IfSome result (λ chain. chain.now ≡ slice_index_or self.now.chains place other) }
        ensures held { IfSome result (λ chain. Holds self.now.region chain.now) }
        ensures form { (other : WaitingEntry) → IfSome result (λ chain. HasFormOf self.now.region chain.now (slice_index_or self.now.entries place other)) }
        ensures len { (other : WaitingEntry) → IfSome result (λ chain. chain.now.len ≡ length (slice_index_or self.now.entries place other).form) }
    {
        let waiting = self.entries.get(place as usize)?;
        Some(&waiting.chain)
    }

    /// Puts an entry after the others, and its form into a new chain.
    pub fn push(&mut self, head: EntryHead, effect: Effect, form: &[u8])
        requires write { IsOfWrite (entry_by head effect form.now) }
        requires short { length form.now ≤ longest_entry }
        requires record { length self.old.entries < self.old.most }
        requires blocks { blocks_of (length form.now) ≤ free_blocks self.old.region }
        ensures pushed { self.new.entries ≡ self.old.entries ++ entry_by head effect form.now ∷ [] }
        ensures same { SameMemory self.old self.new }
        ensures free { free_blocks self.new.region + blocks_of (length form.now) ≡ free_blocks self.old.region }
    {
        let chain = self.region.take(form).unwrap();
        self.entries.push_back_reserved(Waiting {
            head,
            chain,
            effect,
        });
    }

    /// Copies the first entry's form to a place, over the bytes there, and gives its length.
    pub fn copy_front(&self, out: &mut [u8], begin: usize) -> usize
        requires some { 0 < length self.now.entries }
        requires room { begin + longest_entry ≤ length out.old }
        ensures copied { (other : WaitingEntry) → out.new ≡ with_bytes begin (slice_index_or self.now.entries 0 other).form out.old }
        ensures len { (other : WaitingEntry) → result ≡ length (slice_index_or self.now.entries 0 other).form }
        ensures short { result ≤ longest_entry }
        ensures write { (other : WaitingEntry) → IsOfWrite (slice_index_or self.now.entries 0 other) }
    {
        let chain = &self.entries[0].chain;
        read_at(&self.region, chain, out, begin);
        chain.len() as usize
    }

    /// Takes the first entry out, and gives its chain back.
    pub fn give_front(&mut self) -> (EntryHead, Effect)
        requires { 0 < length self.old.entries }
        ensures given { (other : WaitingEntry) → IsGivenBy result.0 result.1 (slice_index_or self.old.entries 0 other) }
        ensures left { self.new.entries ≡ drop 1 self.old.entries }
        ensures same { SameMemory self.old self.new }
    {
        let Waiting {
            head,
            chain,
            effect,
        } = self.entries.pop_front().unwrap();
        self.region.give(chain);
        (head, effect)
    }

    /// Puts the first entry after the others.
    pub fn turn_front(&mut self)
        requires { 0 < length self.old.entries }
        ensures turned { self.new.entries ≡ drop 1 self.old.entries ++ take 1 self.old.entries }
        ensures same { SameMemory self.old self.new }
    {
        self.entries.rotate_left(1);
    }
}

/// Copies the bytes of a chain to a place, over the bytes there.
fn read_at(region: &Region, chain: &Chain, out: &mut [u8], begin: usize)
    requires held { Holds region.now chain.now }
    requires room { begin + chain.now.len ≤ length out.old }
    ensures { out.new ≡ with_bytes begin (chain_bytes region.now chain.now) out.old }
{
    let end = begin + chain.len() as usize;
    region.read_into(chain, &mut out[begin..end]);
}
