//! Formed groups.

ghost use Rattle.std.specs.Prelude.{◌≡◌, ◌<◌, ◌≤◌, ◌*◌, length, slice_get, Some, IfOk, IfSome, IsTrue};
ghost use Rattle.ckd_track.specs.declared.layout.TheConstants.{WRITES_OF_RUN};
ghost use Rattle.pending_queue.specs.Entries.{IsOfWrite, entries_never_fall, due, left};
ghost use Rattle.pending_queue.specs.Waitings.{SameMemory};
ghost use Rattle.pending_queue.specs.Groups.{empty_group, with_entries, with_break, with_done, HasRoomFor, HasRoomForBreaks, HasRoomForDone, heads, forms_of};

use crate::head::EntryHead;
use crate::moving::move_due;
use crate::placed::PlacedList;
use crate::waiting::WaitingList;
use ckd_track::Cause;
use std::alloc::Global;
use std::marker::Model;
use tod_stamp::Stamp;
use xrc_edge::NoMemory;

/// The numbers that a volume of a controller may have.
const VOLUME_NUMBERS: usize = 1 << 16;

/// A group that is formed at a cut: entries by stamp, controller and position, the breaks that are reported with it, and the
/// volumes whose plans are done after it. All its memory is taken when it is made.
#[derive(Debug, Drop)]
pub struct Formed {
    cut: Stamp,
    entries: PlacedList,
    breaks: Vec<(u16, Stamp, Cause)>,
    done: Vec<(u16, u16)>,
}

impl Model for Formed {
    ghost use Rattle.std.specs.Prelude.{vec_capacity};
    ghost use Rattle.pending_queue.specs.Groups.{FormedGroup, IsOrderSound};

    ghost Value = { FormedGroup };

    ghost view = { λ group. record { controls = group.entries.controls; cut = group.cut; entries = group.entries.entries; breaks = group.breaks.items; done = group.done.items } };

    ghost invariant = { λ group. IsOrderSound group.entries.controls (vec_capacity group.breaks) (vec_capacity group.done) group.entries.entries };
}

impl Formed {
    /// A buffer for the largest group of so many controllers: `WRITES_OF_RUN` entries and a break of each, and a done plan of each
    /// number that a volume may have. It is empty, at cut 0. No other call of a group takes memory.
    pub fn make(alloc: Global, controls: u16) -> Result<Formed, NoMemory>
        ensures { IfOk result (λ group. group ≡ empty_group controls (record { 0 = 0 })) }
    {
        Ok(Formed {
            cut: Stamp(0),
            entries: PlacedList::make(alloc, controls)?,
            breaks: Vec::with_capacity(alloc, controls as usize)?,
            done: Vec::with_capacity(alloc, VOLUME_NUMBERS * controls as usize)?,
        })
    }

    /// Empties the group, and gives it its cut.
    pub fn begin(&mut self, cut: Stamp)
        ensures { self.new ≡ empty_group self.old.controls cut }
    {
        self.cut = cut;
        self.entries.clear();
        self.breaks.clear();
        self.done.clear();
    }

    /// Reports the break of a controller, whose writes are known up to a time.
    pub fn add_break(&mut self, control: u16, upto: Stamp, cause: Cause)
        requires room { HasRoomForBreaks self.old 1 }
        ensures { self.new ≡ with_break self.old control upto cause }
    {
        self.breaks.push_reserved((control, upto, cause));
    }

    /// Says that the plan of a controller's volume is done.
    pub fn add_done(&mut self, control: u16, volume: u16)
        requires room { HasRoomForDone self.old 1 }
        ensures { self.new ≡ with_done self.old control volume }
    {
        self.done.push_reserved((control, volume));
    }

    /// Moves the entries with a stamp at most the cut from the front of a queue to their places.
    pub(crate) fn take_due(&mut self, cut: Stamp, waiting: &mut WaitingList)
        requires rising { IsTrue (entries_never_fall 0 waiting.old.entries) }
        requires room { HasRoomFor self.old (length (due cut waiting.old.entries)) }
        ensures moved { self.new ≡ with_entries self.old (due cut waiting.old.entries) }
        ensures left { waiting.new.entries ≡ left cut waiting.old.entries }
        ensures same { SameMemory waiting.old waiting.new }
    {
        move_due(waiting, cut, &mut self.entries);
    }

    /// The number of controllers that it was made for. It has at most `WRITES_OF_RUN` entries of each.
    pub fn controls(&self) -> u16
        ensures controls { result ≡ self.now.controls }
        ensures few { length self.now.entries ≤ WRITES_OF_RUN * self.now.controls }
    {
        self.entries.controls()
    }

    pub fn cut(&self) -> Stamp
        ensures { result ≡ self.now.cut }
    {
        self.cut
    }

    /// The number of entries.
    pub fn count(&self) -> u32
        ensures { result ≡ length self.now.entries }
    {
        self.entries.count()
    }

    /// The head of the entry at a place, counted from 0.
    pub fn head(&self, place: u32) -> EntryHead
        requires { place < length self.now.entries }
        ensures { slice_get (heads self.now) place ≡ Some result }
    {
        self.entries.head(place)
    }

    /// The queue form of the entry at a place, counted from 0.
    pub fn entry(&self, place: u32) -> &[u8]
        requires { place < length self.now.entries }
        ensures form { slice_get (forms_of self.now) place ≡ Some result.now }
        // It is that of a write, which the head speaks of.
        ensures write { IfSome (slice_get self.now.entries place) IsOfWrite }
    {
        self.entries.form(place)
    }

    /// Controller, time and cause of each break, in order of adding.
    pub fn breaks(&self) -> &[(u16, Stamp, Cause)]
        ensures { result.now ≡ self.now.breaks }
    {
        self.breaks.as_slice()
    }

    /// Controller and volume of each done plan, in order of adding.
    pub fn done(&self) -> &[(u16, u16)]
        ensures { result.now ≡ self.now.done }
    {
        self.done.as_slice()
    }

    /// Controller, time and cause of the break at a place, counted from 0; None exactly where none stands there.
    pub fn break_at(&self, place: u16) -> Option<(u16, Stamp, Cause)>
        ensures { result ≡ slice_get self.now.breaks place }
    {
        self.breaks.get(place as usize).copied()
    }

    /// Controller and volume of the done plan at a place, counted from 0; None exactly where none stands there.
    pub fn done_at(&self, place: u16) -> Option<(u16, u16)>
        ensures { result ≡ slice_get self.now.done place }
    {
        self.done.get(place as usize).copied()
    }
}
