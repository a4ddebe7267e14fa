//! The state that the readers and the mover share.

ghost use Rattle.std.specs.Prelude.{◌≡◌, ◌↔◌, ℕ, ◌<◌, ◌≤◌, length, nat_lt, true, false, IfOk, IfSome, OnOk, OnErr, IsTrue};
ghost use Rattle.ckd_track.specs.declared.layout.TheConstants.{BLOCKS_OF_QUEUE, WRITES_OF_RUN};
ghost use Rattle.xrc_edge.specs.declared.limits.TheConstants.{MOST_CONTROLS};
ghost use Rattle.ckd_track.specs.declared.write.Batch.{Batch as BatchIs};
ghost use Rattle.change_map.specs.Sets.{size};
ghost use Rattle.pending_queue.specs.declared.room.Room.{Room};
ghost use Rattle.pending_queue.specs.Entries.{all_keep_rules};
ghost use Rattle.group_state.specs.declared.joining.Joining.TheVariants as joining;
ghost use Rattle.group_state.specs.declared.joining.RunJoin.TheVariants as running;
ghost use Rattle.group_state.specs.declared.joining.CopyJoin.TheVariants as copying;
ghost use Rattle.group_state.specs.declared.joining.Forming.TheVariants as formings;
ghost use Rattle.group_state.specs.Volumes.{volume_of, is_wanted, next_wanted, owed};
ghost use Rattle.group_state.specs.Controls.{is_reporting, fits, fits_track, room_of};
ghost use Rattle.group_state.specs.Groups.{new_group, control_at, cut_of, gives_nothing, shown_at, shown_in};
ghost use Rattle.group_state.specs.SoundStates.{IsGroupSound, MayReport, MayJoin, MayCarry, is_track_within, is_dropped};
ghost use Rattle.group_state.specs.Machine.{steps, Reply};
ghost use Rattle.group_state.specs.Machine.Call.{Join, NextWanted, Copied, Raise, Break, Form, Carry, Drop, Resume, Forget};
ghost use Rattle.group_state.specs.Machine.Reply.{Made, Wanted, Owed};
ghost use Rattle.group_state.specs.Answers.{join_reply, run_reply, copy_reply, form_reply};

use crate::control::Control;
use crate::forming::{announce, gives_nothing, least, take_due};
use crate::joining::{CopyJoin, Forming, Joining, RunJoin};
use change_map::ChangeMap;
use ckd_track::{Batch, Cause, Slot};
use copy_plan::CopyPlan;
use pending_queue::Formed;
use std::alloc::Global;
use std::marker::Model;
use tod_stamp::Stamp;
use xrc_edge::NoMemory;

/// The controllers of a session and the last cut, as one sequential machine. Contracts see for each controller the entries that
/// wait, its floor, whether it has broken, and its volumes with their plans and maps.
///
/// The calls have these conditions. The controller is below the number of controllers. A batch, a raise and a break come from a
/// controller that still reports, and not below its floor. A volume's tracks are below those of its plan.
#[derive(Debug, Drop)]
pub struct GroupState {
    controls: Vec<Control>,
    last: Stamp,
}

impl Model for GroupState {
    ghost use Rattle.group_state.specs.Groups.{Group};
    ghost use Rattle.group_state.specs.SoundStates.{IsGroupSound};

    ghost Value = { Group };

    ghost view = { λ s. record { controls = s.controls.items; last = s.last } };

    ghost invariant = { λ s. IsGroupSound (record { controls = s.controls.items; last = s.last }) };
}

impl GroupState {
    /// The state of so many controllers that have reported nothing. Each has room for so many entries and so many blocks.
    pub fn make(
        alloc: Global,
        controls: u16,
        records: u32,
        blocks: u32,
    ) -> Result<GroupState, NoMemory>
        requires some { 1 ≤ controls }
        requires few { controls ≤ MOST_CONTROLS }
        requires records { records ≤ WRITES_OF_RUN }
        requires blocks { blocks ≤ BLOCKS_OF_QUEUE }
        ensures { IfOk result (λ s. s ≡ new_group controls records blocks) }
    {
        let mut made = Vec::with_capacity(alloc, controls as usize)?;
        for k in 0..controls {
            made.push(Control::make(alloc, k, records, blocks)?)?;
        }
        Ok(GroupState {
            controls: made,
            last: Stamp(0),
        })
    }

    /// How many controllers there are.
    pub fn controls(&self) -> u16
        ensures count { result ≡ length self.now.controls }
        ensures some { 1 ≤ result }
        ensures few { result ≤ MOST_CONTROLS }
        // A group state is sound.
        ensures kept { IsGroupSound self.now }
    {
        self.controls.len() as u16
    }

    /// Joins a batch. Its writes on volumes that are carried wait, but for those on tracks that a copy still wants; those on
    /// dropped volumes go into the map. Held exactly where the carried writes don't fit the controller's free room. A batch that
    /// isn't joined comes back.
    pub fn join(&mut self, batch: Batch) -> Joining
        requires control { batch.control < length self.old.controls }
        requires rules { IsTrue (all_keep_rules batch.writes) }
        requires legal { MayJoin (control_at self.old batch.control) batch }
        ensures step { steps self.old (Join batch) (join_reply result) self.new }
        ensures held { result ≡ joining.Held batch (room_of (control_at self.old batch.control)) ↔ (fits (control_at self.old batch.control) batch ≡ false) }
        ensures back { (b : BatchIs) (room : Room) → result ≡ joining.Held b room → b ≡ batch }
    {
        match self.join_ref(&batch) {
            RunJoin::Joined => Joining::Joined,
            RunJoin::Held(room) => Joining::Held { batch, room },
        }
    }

    /// Joins a batch that is lent, as `join` does.
    pub fn join_ref(&mut self, batch: &Batch) -> RunJoin
        requires control { batch.now.control < length self.old.controls }
        requires rules { IsTrue (all_keep_rules batch.now.writes) }
        requires legal { MayJoin (control_at self.old batch.now.control) batch.now }
        ensures step { steps self.old (Join batch.now) (run_reply result) self.new }
        ensures held { result ≡ running.Held (room_of (control_at self.old batch.now.control)) ↔ (fits (control_at self.old batch.now.control) batch.now ≡ false) }
    {
        match self.controls[batch.control as usize].join(batch) {
            Ok(()) => RunJoin::Joined,
            Err(room) => RunJoin::Held(room),
        }
    }

    /// The volume and the track that a reader copies next; None exactly where no volume of the controller wants a track.
    pub fn next_wanted(&self, control: u16) -> Option<(u16, u32)>
        requires control { control < length self.now.controls }
        ensures step { steps self.now (NextWanted control) (Wanted result) self.now }
        ensures wanted { IfSome result (λ p. is_wanted p.0 p.1 (control_at self.now control).volumes ≡ true) }
        ensures none { (result ≡ None) ↔ ((v x : ℕ) → is_wanted v x (control_at self.now control).volumes ≡ false) }
    {
        self.controls[control as usize].next_wanted()
    }

    /// Joins a copied track at its controller's floor. Stale exactly where it isn't wanted; Held exactly where it is and doesn't
    /// fit the controller's free room. A track that isn't joined stays as it was.
    pub fn copied(
        &mut self,
        control: u16,
        volume: u16,
        track: u32,
        at: Stamp,
        slot: &Slot,
    ) -> CopyJoin
        requires control { control < length self.old.controls }
        requires reporting { IsTrue (is_reporting (control_at self.old control).phase) }
        requires floor { at ≡ (control_at self.old control).floor }
        requires track { IsTrue (is_track_within (control_at self.old control).volumes volume track) }
        ensures step { steps self.old (Copied control volume track at slot.now) (copy_reply result) self.new }
        ensures stale { (result ≡ copying.Stale) ↔ (is_wanted volume track (control_at self.old control).volumes ≡ false) }
        ensures held { (result ≡ copying.Held (room_of (control_at self.old control))) ↔ ((is_wanted volume track (control_at self.old control).volumes ≡ true) × (fits_track (control_at self.old control) slot.now ≡ false)) }
    {
        if !self.controls[control as usize].wants(volume, track) {
            return CopyJoin::Stale;
        }
        match self.controls[control as usize].copied(volume, track, at, slot) {
            Ok(()) => CopyJoin::Joined,
            Err(room) => CopyJoin::Held(room),
        }
    }

    /// A controller has no further write up to a time.
    pub fn raise(&mut self, control: u16, upto: Stamp)
        requires control { control < length self.old.controls }
        requires legal { MayReport (control_at self.old control) upto }
        ensures step { steps self.old (Raise control upto) Made self.new }
    {
        self.controls[control as usize].raise(upto);
    }

    /// A controller breaks at a time, up to which its writes are known.
    pub fn broken(&mut self, control: u16, upto: Stamp, cause: Cause)
        requires control { control < length self.old.controls }
        requires legal { MayReport (control_at self.old control) upto }
        ensures step { steps self.old (Break control upto cause) Made self.new }
    {
        self.controls[control as usize].broken(upto, cause);
    }

    /// A volume that was never carried, or was forgotten since, begins to be carried with a plan of which nothing is joined.
    /// Its map is cleared. After want of memory the state is as before.
    pub fn carry(
        &mut self,
        _alloc: Global,
        control: u16,
        volume: u16,
        plan: CopyPlan,
        map: ChangeMap,
    ) -> Result<(), NoMemory>
        requires control { control < length self.old.controls }
        requires may { MayCarry (control_at self.old control) volume plan }
        requires sizes { length map ≡ length plan.wanted }
        ensures step { OnOk result (steps self.old (Carry control volume plan) Made self.new) }
        ensures kept { OnErr result (self.new ≡ self.old) }
    {
        self.controls[control as usize].carry(volume, plan, map)
    }

    /// A volume is carried no longer, and its entries that wait are taken out. Its map then holds their tracks, or all.
    pub fn drop_volume(&mut self, control: u16, volume: u16, all: bool)
        requires control { control < length self.old.controls }
        ensures step { steps self.old (Drop control volume all) Made self.new }
    {
        self.controls[control as usize].drop_volume(volume, all);
    }

    /// A dropped volume is carried again. Exactly the tracks of its map are wanted; reports how many.
    pub fn resume(&mut self, control: u16, volume: u16) -> u32
        requires control { control < length self.old.controls }
        requires dropped { IsTrue (is_dropped volume (control_at self.old control).volumes) }
        ensures step { steps self.old (Resume control volume) (Owed result) self.new }
        ensures owed { IfSome (volume_of volume (control_at self.old control).volumes) (λ u. result ≡ size u.map) }
    {
        self.controls[control as usize].resume(volume)
    }

    /// A dropped volume is forgotten, with its plan and its map.
    pub fn forget(&mut self, control: u16, volume: u16)
        requires control { control < length self.old.controls }
        requires dropped { IsTrue (is_dropped volume (control_at self.old control).volumes) }
        ensures step { steps self.old (Forget control volume) Made self.new }
    {
        self.controls[control as usize].forget(volume);
    }

    /// Forms a group at the least of the limit and the floors of all controllers whose break isn't reported. Nothing exactly
    /// where this cut is the last one, no entry up to it waits, and no break at it is unreported.
    pub fn form(&mut self, limit: Stamp, out: &mut Formed) -> Forming
        requires limit { self.old.last.0 ≤ limit.0 }
        requires room { length self.old.controls ≤ out.old.controls }
        ensures step { steps self.old (Form limit) (form_reply result (shown_in out.new)) self.new }
        ensures nothing { (result ≡ formings.Nothing) ↔ (gives_nothing self.old limit ≡ true) }
        ensures room { out.new.controls ≡ out.old.controls }
    {
        let cut = least(self.controls.as_slice(), limit);
        let nothing = gives_nothing(self.controls.as_slice(), self.last, cut);
        out.begin(cut);
        announce(self.controls.as_slice(), cut, out);
        take_due(self.controls.as_mut_slice(), cut, out);
        self.last = cut;
        if nothing {
            Forming::Nothing
        } else {
            Forming::Formed
        }
    }
}
