//! A controller of a group state.

ghost use Rattle.std.specs.Prelude.{◌≡◌, ◌↔◌, ℕ, ◌≤◌, ◌+◌, ◌++◌, ◌∷◌, [], length, true, false, None, OnOk, OnErr, IfOk, IfErr, IsErr, IfSome, IsTrue};
ghost use Rattle.ckd_track.specs.declared.layout.TheConstants.{WRITES_OF_RUN};
ghost use Rattle.change_map.specs.Sets.{size};
ghost use Rattle.pending_queue.specs.Entries.{all_keep_rules, due};
ghost use Rattle.pending_queue.specs.Groups.{HasRoomFor, HasRoomForBreaks, with_entries, most_done_of_control};
ghost use Rattle.group_state.specs.Volumes.{volume_of, has_volume, is_wanted, next_wanted, owed};
ghost use Rattle.group_state.specs.Controls.{new_control, fits, fits_track, room_of, joined, copied, raised, broke, begun_volume, dropped, resumed, forgotten, formed, lesser, has_news, due_of, reported};
ghost use Rattle.group_state.specs.Groups.{with_news, HasRoomForNews};
ghost use Rattle.group_state.specs.SoundStates.{MayReport, MayJoin, MayCarry, is_track_within, is_dropped};

use crate::phase::Phase;
use crate::volume::Volume;
use crate::volumes::{
    Carried, drop_volume, form_copies, join_copy, next_wanted, note_writes, place_of, resume,
    show_done, wants,
};
use change_map::ChangeMap;
use ckd_track::{Batch, Cause, Slot};
use copy_plan::CopyPlan;
use pending_queue::{Formed, Queue, Room};
use std::alloc::Global;
use std::marker::Model;
use tod_stamp::Stamp;
use xrc_edge::NoMemory;

/// What is kept of a controller: its queue, the time up to which it has reported, whether it still reports, and its volumes.
#[derive(Debug, Drop)]
pub struct Control {
    queue: Queue,
    floor: Stamp,
    phase: Phase,
    volumes: Vec<Volume>,
}

impl Model for Control {
    ghost use Rattle.group_state.specs.Controls.{ControlState};
    ghost use Rattle.group_state.specs.SoundStates.{AreVolumesSound};

    ghost Value = { ControlState };

    ghost view = { λ c. record { queue = c.queue.state; floor = c.floor; phase = c.phase; volumes = c.volumes.items } };

    ghost invariant = { λ c. AreVolumesSound (record { queue = c.queue.state; floor = c.floor; phase = c.phase; volumes = c.volumes.items }) };
}

impl Control {
    /// A controller that has reported nothing, with room for so many entries and blocks.
    pub fn make(alloc: Global, control: u16, records: u32, blocks: u32) -> Result<Control, NoMemory>
        ensures { IfOk result (λ c. c ≡ new_control control records blocks) }
    {
        Ok(Control {
            queue: Queue::make(alloc, control, records, blocks)?,
            floor: Stamp(0),
            phase: Phase::Unbroken,
            volumes: Vec::new(alloc),
        })
    }

    /// Joins a batch, or refuses it as a whole.
    pub fn join(&mut self, batch: &Batch) -> Result<(), Room>
        requires rules { IsTrue (all_keep_rules batch.now.writes) }
        requires legal { MayJoin self.old batch.now }
        ensures joined { OnOk result (self.new ≡ joined batch.now self.old) }
        ensures refused { OnErr result (self.new ≡ self.old) }
        ensures full { IsErr result ↔ (fits self.old batch.now ≡ false) }
        ensures room { IfErr result (λ room. room ≡ room_of self.old) }
    {
        let carried = Carried {
            volumes: self.volumes.as_slice(),
        };
        self.queue.push_carried(batch, &carried)?;
        note_writes(self.volumes.as_mut_slice(), batch.writes.as_slice());
        self.floor = batch.upto;
        Ok(())
    }

    /// The least wanted track of the first volume that wants one.
    pub fn next_wanted(&self) -> Option<(u16, u32)>
        ensures next { result ≡ next_wanted self.now.volumes }
        ensures wanted { IfSome result (λ p. is_wanted p.0 p.1 self.now.volumes ≡ true) }
        ensures none { (result ≡ None) ↔ ((v x : ℕ) → is_wanted v x self.now.volumes ≡ false) }
    {
        next_wanted(self.volumes.as_slice())
    }

    /// The controller has no further write up to a time.
    pub fn raise(&mut self, upto: Stamp)
        requires legal { MayReport self.old upto }
        ensures { self.new ≡ raised upto self.old }
    {
        self.floor = upto;
    }

    /// The controller breaks at a time.
    pub fn broken(&mut self, upto: Stamp, cause: Cause)
        requires legal { MayReport self.old upto }
        ensures { self.new ≡ broke upto cause self.old }
    {
        self.floor = upto;
        self.phase = Phase::Broken(cause);
    }

    /// Whether a copy still has to read a track of a volume.
    pub fn wants(&self, number: u16, track: u32) -> bool
        ensures { result ≡ is_wanted number track self.now.volumes }
    {
        wants(self.volumes.as_slice(), number, track)
    }

    /// Joins a wanted track that was copied, or refuses it.
    pub fn copied(&mut self, number: u16, track: u32, at: Stamp, slot: &Slot) -> Result<(), Room>
        requires floor { at ≡ self.old.floor }
        requires wanted { is_wanted number track self.old.volumes ≡ true }
        requires track { IsTrue (is_track_within self.old.volumes number track) }
        ensures joined { OnOk result (self.new ≡ copied number track at slot.now self.old) }
        ensures refused { OnErr result (self.new ≡ self.old) }
        ensures full { IsErr result ↔ (fits_track self.old slot.now ≡ false) }
        ensures room { IfErr result (λ room. room ≡ room_of self.old) }
    {
        self.queue.push_track(number, track, at, slot)?;
        join_copy(self.volumes.as_mut_slice(), number, track);
        Ok(())
    }

    /// A volume begins to be carried.
    pub fn carry(&mut self, number: u16, plan: CopyPlan, map: ChangeMap) -> Result<(), NoMemory>
        requires may { MayCarry self.old number plan }
        requires sizes { length map ≡ length plan.wanted }
        ensures ok { OnOk result (self.new ≡ begun_volume number plan self.old) }
        ensures err { OnErr result (self.new ≡ self.old) }
    {
        let mut map = map;
        map.clear_all();
        self.volumes.push(Volume {
            number,
            carried: true,
            plan,
            map,
        })?;
        Ok(())
    }

    /// A volume is dropped, and its entries are taken out.
    pub fn drop_volume(&mut self, number: u16, all: bool)
        ensures { self.new ≡ dropped number all self.old }
    {
        drop_volume(self.volumes.as_mut_slice(), &mut self.queue, number, all);
    }

    /// The tracks of a dropped volume's map are wanted again. Tells how many.
    pub fn resume(&mut self, number: u16) -> u32
        requires dropped { IsTrue (is_dropped number self.old.volumes) }
        ensures owed { result ≡ owed number self.old.volumes }
        ensures mapped { IfSome (volume_of number self.old.volumes) (λ u. result ≡ size u.map) }
        ensures volume { self.new ≡ resumed number self.old }
    {
        resume(self.volumes.as_mut_slice(), number)
    }

    /// A dropped volume is forgotten.
    pub fn forget(&mut self, number: u16)
        requires dropped { IsTrue (is_dropped number self.old.volumes) }
        ensures { self.new ≡ forgotten number self.old }
    {
        let Some(place) = place_of(self.volumes.as_slice(), number) else {
            return;
        };
        self.volumes.remove(place);
    }

    /// A form with this cut takes what is due into the group, and reports a break at it.
    pub fn form(&mut self, cut: Stamp, out: &mut Formed)
        requires few { self.old.queue.records ≤ WRITES_OF_RUN }
        requires room { HasRoomFor out.old WRITES_OF_RUN }
        ensures group { out.new ≡ with_entries out.old (due_of cut self.old) }
        ensures few { length (due_of cut self.old) ≤ WRITES_OF_RUN }
        ensures control { self.new ≡ formed cut self.old }
    {
        form_copies(&self.queue, cut, self.volumes.as_mut_slice());
        self.queue.pop_upto(cut, out);
        self.phase = self.phase.after(cut, self.floor);
    }

    /// Whether a form with this cut takes an entry or reports a break.
    pub fn has_news(&self, cut: Stamp) -> bool
        ensures { result ≡ has_news cut self.now }
    {
        self.queue.has_due(cut) || self.phase.cause_at(cut, self.floor).is_some()
    }

    /// The lesser of a cut and the floor, where the controller counts.
    pub fn lesser(&self, cut: u64) -> u64
        ensures { result ≡ lesser cut self.now }
    {
        match self.phase {
            Phase::Unbroken | Phase::Broken(_) => cut.min(self.floor.0),
            Phase::Reported => cut,
        }
    }

    /// Shows the break that a form with this cut reports, and the volumes whose plans are done after it.
    pub fn announce(&self, cut: Stamp, out: &mut Formed)
        requires room { HasRoomForNews out.old 1 }
        ensures news { out.new ≡ with_news cut (self.now ∷ []) out.old }
        ensures breaks { length out.new.breaks ≤ length out.old.breaks + 1 }
        ensures done { length out.new.done ≤ length out.old.done + most_done_of_control }
    {
        let cause = self.phase.cause_at(cut, self.floor);
        show_break(self.queue.control(), self.floor, cause, out);
        show_done(self.volumes.as_slice(), &self.queue, cut, out);
    }
}

/// Shows a break, where there is one.
fn show_break(control: u16, floor: Stamp, cause: Option<Cause>, out: &mut Formed)
    requires room { HasRoomForBreaks out.old 1 }
    ensures { out.new ≡ record out.old { breaks = out.old.breaks ++ reported control floor cause } }
{
    if let Some(cause) = cause {
        out.add_break(control, floor, cause);
    }
}
