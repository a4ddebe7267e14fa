//! Entries that stand in a group, each with a part of one buffer that has its form.

ghost use Rattle.std.specs.Prelude.{◌≡◌, ℕ, ◌≤◌, ◌<◌, ◌+◌, ◌*◌, ◌++◌, ◌∷◌, [], length, take, drop, slice_get, slice_index_or, vec_len, vec_capacity, true, false, Some, IfOk, IfSome, IsTrue};
ghost use Rattle.ckd_track.specs.declared.layout.TheConstants.{WRITES_OF_RUN};
ghost use Rattle.pending_queue.specs.declared.placed.Placed.{Placed as PlacedIs};
ghost use Rattle.pending_queue.specs.Entries.{IsOfWrite, head_before, stands_before};
ghost use Rattle.pending_queue.specs.PlacedEntries.{placed_before};
ghost use Rattle.pending_queue.specs.Groups.{heads_in, forms_in};
ghost use Rattle.pending_queue.specs.Waitings.{SameMemory};
ghost use Rattle.xrc_edge.specs.Order.{in_order, is_in_order};

use crate::entry::Effect;
use crate::head::EntryHead;
use crate::waiting::WaitingList;
use ckd_track::{LONGEST_ENTRY, WRITES_OF_RUN};
use std::alloc::Global;
use std::fmt;
use std::marker::Model;
use xrc_edge::NoMemory;

/// An entry in a group: what its write names, what it does to its track, and where its form begins and how long it is.
#[derive(Drop)]
pub struct Placed {
    head: EntryHead,
    effect: Effect,
    begin: usize,
    len: usize,
}

impl fmt::Debug for Placed {
    fn fmt<W: fmt::Write>(&self, f: &mut fmt::Formatter<W>) -> fmt::Result {
        f.debug_struct("Placed")
            .field("head", &self.head)
            .field("begin", &self.begin)
            .field("len", &self.len)
            .finish()
    }
}

/// Entries in the order of a group, and the bytes of their forms in the order in which they came. All memory is taken when it
/// is made.
#[derive(Debug, Drop)]
pub struct PlacedList {
    controls: u16,
    entries: Vec<Placed>,
    bytes: Vec<u8>,
    used: usize,
}

impl Model for PlacedList {
    ghost use Rattle.std.specs.Prelude.{vec_capacity};
    ghost use Rattle.pending_queue.specs.PlacedEntries.{PlacedState, AreFormsSound, placed_entries};

    ghost Value = { PlacedState };

    ghost view = { λ list. record { controls = list.controls; entries = placed_entries list.bytes.items list.entries.items } };

    ghost invariant = { λ list. AreFormsSound list.controls (vec_capacity list.entries) list.bytes.items list.used list.entries.items };
}

impl PlacedList {
    /// No entries, with room for `WRITES_OF_RUN` of each of so many controllers.
    pub fn make(alloc: Global, controls: u16) -> Result<PlacedList, NoMemory>
        ensures { IfOk result (λ list. list ≡ record { controls = controls; entries = [] }) }
    {
        let most = WRITES_OF_RUN * controls as usize;
        Ok(PlacedList {
            controls,
            entries: Vec::with_capacity(alloc, most)?,
            bytes: vec![in alloc; 0u8; LONGEST_ENTRY * most]?,
            used: 0,
        })
    }

    /// Takes all entries out.
    pub fn clear(&mut self)
        ensures { self.new ≡ record { controls = self.old.controls; entries = [] } }
    {
        self.entries.clear();
        self.used = 0;
    }

    /// The number of controllers that there is room for.
    pub fn controls(&self) -> u16
        ensures controls { result ≡ self.now.controls }
        ensures few { length self.now.entries ≤ WRITES_OF_RUN * self.now.controls }
    {
        self.controls
    }

    /// The number of entries.
    pub fn count(&self) -> u32
        ensures { result ≡ length self.now.entries }
    {
        self.entries.len() as u32
    }

    /// The head of the entry at a place, counted from 0.
    pub fn head(&self, place: u32) -> EntryHead
        requires { place < length self.now.entries }
        ensures { slice_get (heads_in self.now.entries) place ≡ Some result }
    {
        self.entries[place as usize].head
    }

    /// The queue form of the entry at a place, counted from 0.
    pub fn form(&self, place: u32) -> &[u8]
        requires { place < length self.now.entries }
        ensures form { slice_get (forms_in self.now.entries) place ≡ Some result.now }
        ensures write { IfSome (slice_get self.now.entries place) IsOfWrite }
    {
        let placed = &self.entries[place as usize];
        &self.bytes.as_slice()[placed.begin..placed.begin + placed.len]
    }

    /// Moves the first entry that waits to its place. Its form goes after the others, before its chain is given back.
    pub fn place_front(&mut self, waiting: &mut WaitingList)
        requires some { 0 < length waiting.old.entries }
        requires ordered { IsTrue (is_in_order stands_before self.old.entries) }
        requires room { length self.old.entries < WRITES_OF_RUN * self.old.controls }
        ensures placed { self.new.entries ≡ in_order stands_before (self.old.entries ++ take 1 waiting.old.entries) }
        ensures left { waiting.new.entries ≡ drop 1 waiting.old.entries }
        ensures controls { self.new.controls ≡ self.old.controls }
        ensures same { SameMemory waiting.old waiting.new }
    {
        let begin = self.used;
        let len = waiting.copy_front(self.bytes.as_mut_slice(), begin);
        self.used = begin + len;
        let (head, effect) = waiting.give_front();
        let placed = Placed {
            head,
            effect,
            begin,
            len,
        };
        put_placed(&mut self.entries, placed);
    }
}

/// Whether an entry with the one head stands before one with the other, by stamp and controller.
fn head_before(one: EntryHead, other: EntryHead) -> bool
    ensures { result ≡ head_before one other }
{
    one.stamp < other.stamp || (one.stamp == other.stamp && one.control < other.control)
}

/// The place after the last entry that doesn't stand after one with this head. Mostly that is the end.
fn place_of(entries: &[Placed], head: EntryHead) -> usize
    requires { IsTrue (is_in_order placed_before entries.now) }
    ensures within { result ≤ length entries.now }
    ensures before { (k : ℕ) (other : PlacedIs) → k < result → head_before head (slice_index_or entries.now k other).head ≡ false }
    ensures after { (other : PlacedIs) → result < length entries.now → head_before head (slice_index_or entries.now result other).head ≡ true }
{
    match entries.last() {
        Some(last) if head_before(head, last.head) => {
            entries.partition_point(|other| !head_before(head, other.head))
        }
        _ => entries.len(),
    }
}

/// Puts an entry after the last that doesn't stand after it.
fn put_placed(entries: &mut Vec<Placed>, placed: Placed)
    requires ordered { IsTrue (is_in_order placed_before entries.old.items) }
    requires room { vec_len entries.old < vec_capacity entries.old }
    ensures put { entries.new.items ≡ in_order placed_before (entries.old.items ++ placed ∷ []) }
    ensures capacity { vec_capacity entries.old ≤ vec_capacity entries.new }
{
    let place = place_of(entries.as_slice(), placed.head);
    entries.insert(place, placed).unwrap();
}
