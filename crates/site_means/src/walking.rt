//! The walk over a site's journals.

ghost use Rattle.std.specs.Prelude.{◌≡◌, ◌<◌, ◌↔◌, ℕ, unwrap_or, vec_len, IfOk, OnOk, IsErrOf, IsTrue, Ok, Err, None, true};
ghost use Rattle.crash_plant.specs.declared.device.Device.{Device as AnyDevice};
ghost use Rattle.crash_plant.specs.declared.device.Device.TheVariants.{Journal};
ghost use Rattle.crash_plant.specs.Moments.{IsDurable, on};
ghost use Rattle.crash_plant.specs.Calls.{NoneLent};
ghost use Rattle.pair_table.specs.Tables.{are_below};
ghost use Rattle.site_means.specs.declared.reading.FirstRead.TheVariants.{Synced};
ghost use Rattle.site_means.specs.declared.site_error.SiteError.{SiteError as SiteErrorValue};
ghost use Rattle.site_means.specs.declared.site_error.SiteError.TheVariants.{Damaged, Fault, TooSmall};
ghost use Rattle.site_means.specs.Images.{shape_of};
ghost use Rattle.site_means.specs.Walk.WalkStep.{Breaks};
ghost use Rattle.site_means.specs.Walk.{body_place, first_unfit, group_step, has_entered, step, switch_step};
ghost use Rattle.site_means.specs.Answers.{FaultsAreCounted, IsStore, ReadsAll, WhereTold};
ghost use Rattle.site_means.specs.Steps.{AreDurable, BeginsAt, HasEnteredOne, HoldsEveryBody, HavePlaces, IsDamage, OnlyDamage, AnswersStep, AnswersWalk, WalkStands, StandsAtSpot, TakesRows, moved_on, standing_of, walk_of};

use crate::reading::{FirstRead, SiteReading, settle};
use crate::rows::take_rows;
use crate::{Means, SiteError};
use control_set::Mark;
use crash_plant::{Device, FRONT, Plant, Spot};
use pair_table::{Level, PairTable};
use std::alloc::Global;
use tod_stamp::Stamp;
use xrc_edge::NoMemory;
use xrc_journal::{Body, WalkError, Walked, walk};

/// Where a walk stands.
#[derive(Drop)]
pub(crate) struct Walking {
    pub(crate) table: PairTable,
    /// The data sets that it has entered, in order.
    pub(crate) entered: Vec<u16>,
    pub(crate) at: Spot,
    /// The time of the record before.
    pub(crate) last: Stamp,
    /// The time of the last group, or of the mark.
    pub(crate) time: Stamp,
}

/// The damage at a place of a journal.
fn damaged(set: u16, place: u64) -> SiteError
    ensures { result ≡ Damaged (Journal set) place }
{
    SiteError::Damaged(Device::Journal(set), place)
}

impl Walking {
    /// The start of the walk from a mark, with the rows of its state slot.
    pub(crate) fn begin(alloc: Global, mark: &Mark, table: PairTable) -> Result<Walking, NoMemory>
        ensures { IfOk result (λ walking. BeginsAt mark.now table walking) }
    {
        let mut entered = Vec::new(alloc);
        entered.push(mark.at.set)?;
        Ok(Walking {
            table,
            entered,
            at: mark.at,
            last: mark.time,
            time: mark.time,
        })
    }

    /// Stands after a record of this time.
    fn move_on(&mut self, time: Stamp, after: Spot)
        ensures { self.new ≡ moved_on time after self.old }
    {
        self.at = after;
        self.last = time;
    }

    /// Goes on after a switch, where the next data set wasn't entered before.
    fn enter(&mut self, time: Stamp, after: Spot) -> Result<bool, SiteError>
        ensures passes { AnswersStep (switch_step (standing_of self.old) time.0 after) self.old self.new result }
        ensures at_spot { OnOk result (StandsAtSpot after self.old.table.rows self.new) }
        ensures others { OnlyDamage result }
    {
        if self.entered.contains(&after.set) {
            return Err(damaged(self.at.set, self.at.place));
        }
        match self.entered.push(after.set) {
            Ok(()) => {
                self.move_on(time, after);
                Ok(true)
            }
            Err(_) => Err(SiteError::NoMemory),
        }
    }

    /// Changes the rows by the items of a body, and gives the place of the first that doesn't fit them.
    fn take_rows(
        &mut self,
        alloc: Global,
        volumes: u16,
        body: &Body,
    ) -> Result<Option<u64>, NoMemory>
        ensures rows { IsTrue (are_below volumes self.old.table.rows) → HavePlaces self.old.at body.now.items → IfOk result (λ bad. TakesRows volumes (body_place self.old.at) body.now.items bad self.old.table self.new.table) }
        ensures below { IsTrue (are_below volumes self.old.table.rows) → IfOk result (λ bad. bad ≡ None → IsTrue (are_below volumes self.new.table.rows)) }
        ensures rest { self.new ≡ record self.old { table = self.new.table } }
    {
        match take_rows(alloc, volumes, &mut self.table, body)? {
            None => Ok(None),
            Some(offset) => Ok(Some(
                self.at
                    .place
                    .saturating_add(FRONT)
                    .saturating_add(offset as u64),
            )),
        }
    }

    /// Goes on after the group whose items were read.
    fn pass_group(
        &mut self,
        alloc: Global,
        volumes: u16,
        body: &Body,
        time: Stamp,
        after: Spot,
    ) -> Result<bool, SiteError>
        requires below { IsTrue (are_below volumes self.old.table.rows) }
        requires same_set { after.set ≡ self.old.at.set }
        requires here { has_entered self.old.at.set self.old.entered.items ≡ true }
        ensures passes { HavePlaces self.old.at body.now.items
            → AnswersStep (group_step (standing_of self.old) time.0 body.now.items after (first_unfit volumes (body_place self.old.at) self.old.table.rows body.now.items)) self.old self.new result }
        ensures at_spot { OnOk result (StandsAtSpot after self.new.table.rows self.new) }
        ensures below { OnOk result (IsTrue (are_below volumes self.new.table.rows)) }
        ensures others { OnlyDamage result }
    {
        match self.take_rows(alloc, volumes, body) {
            Ok(None) => {
                self.time = time;
                self.move_on(time, after);
                Ok(true)
            }
            Ok(Some(place)) => Err(damaged(self.at.set, place)),
            Err(NoMemory) => Err(SiteError::NoMemory),
        }
    }

    /// The first place at which a record breaks a rule, where an item at this place does, and the items before it were read.
    fn break_at(&mut self, alloc: Global, volumes: u16, body: &Body, place: u64) -> SiteError
        ensures passes { IsTrue (are_below volumes self.old.table.rows) → HavePlaces self.old.at body.now.items
            → AnswersStep (Breaks (unwrap_or (first_unfit volumes (body_place self.old.at) self.old.table.rows body.now.items) place)) self.old self.new (Err result) }
        ensures others { IsDamage result }
    {
        match self.take_rows(alloc, volumes, body) {
            Ok(None) => damaged(self.at.set, place),
            Ok(Some(before)) => damaged(self.at.set, before),
            Err(NoMemory) => SiteError::NoMemory,
        }
    }

    /// Reads the record at the spot, and goes on after it. False where there is none.
    fn step<P: Plant>(
        &mut self,
        alloc: Global,
        plant: &mut P,
        body: &mut Body,
    ) -> Result<bool, SiteError>
        requires home { NoneLent (P.state plant.old) }
        requires room { HoldsEveryBody (P.state plant.old) body.old.room }
        requires stands { WalkStands (P.state plant.old) self.old }
        ensures passes { P.tells → AnswersStep (step (shape_of (P.state plant.old)) (P.state plant.old).bytes (standing_of self.old)) self.old self.new result }
        ensures forth { IfOk result (λ more. more ≡ true → self.old.at.number < self.new.at.number) }
        ensures stands { OnOk result (WalkStands (P.state plant.new) self.new) }
        ensures room { body.new.room ≡ body.old.room }
        ensures short { (d : AnyDevice) (needed : ℕ) → ¬ IsErrOf result (TooSmall d needed) }
        ensures examined { (d : AnyDevice) → IsErrOf result (Fault d) → IsStore d }
        ensures fails { FaultsAreCounted (P.state plant.old).faults (P.state plant.new).faults result }
        ensures reads { ReadsAll P.tells (P.state plant.old) (P.state plant.new) }
    {
        let at = self.at;
        let volumes = plant.volumes();
        match walk(plant, at, self.last, body) {
            Ok(Walked::End) => Ok(false),
            Ok(Walked::Group { time, after }) => {
                self.pass_group(alloc, volumes, body, time, after)
            }
            Ok(Walked::Switch { time, after }) => self.enter(time, after),
            Err(WalkError::Damaged(_, place)) => { Err(self.break_at(alloc, volumes, body, place)) }
            Err(WalkError::Fault(set)) => Err(SiteError::Fault(Device::Journal(set))),
        }
    }

    /// Syncs the journal at the spot where this is asked for, if it isn't among the first data sets that the walk has entered. Gives
    /// how many these are.
    fn settle_here<P: Plant>(
        &self,
        plant: &mut P,
        settled: usize,
        first: FirstRead,
    ) -> Result<usize, SiteError>
        requires set { self.now.at.set < (P.state plant.old).journals }
        ensures all { IfOk result (λ settled. settled ≡ vec_len self.now.entered) }
        ensures durable { P.tells → first ≡ Synced → settled < vec_len self.now.entered → OnOk result (IsDurable (on (P.state plant.new) (Journal self.now.at.set))) }
        ensures fault { (e : SiteErrorValue) → IsErrOf result e → e ≡ Fault (Journal self.now.at.set) }
        ensures fails { FaultsAreCounted (P.state plant.old).faults (P.state plant.new).faults result }
        ensures reads { ReadsAll P.tells (P.state plant.old) (P.state plant.new) }
    {
        let count = self.entered.len();
        if settled < count {
            settle(plant, Device::Journal(self.at.set), first)?;
        }
        Ok(count)
    }

    /// Goes on to the end of the walk.
    pub(crate) fn finish<P: Plant>(
        &mut self,
        alloc: Global,
        plant: &mut P,
        body: &mut Body,
        first: FirstRead,
    ) -> Result<(), SiteError>
        requires home { NoneLent (P.state plant.old) }
        requires room { HoldsEveryBody (P.state plant.old) body.old.room }
        requires stands { WalkStands (P.state plant.old) self.old }
        ensures below { OnOk result (IsTrue (are_below (P.state plant.old).volumes self.new.table.rows)) }
        ensures reports { P.tells → AnswersWalk (walk_of (shape_of (P.state plant.old)) (P.state plant.old).bytes self.old) self.old self.new result }
        ensures short { (d : AnyDevice) (needed : ℕ) → ¬ IsErrOf result (TooSmall d needed) }
        ensures durable { P.tells → first ≡ Synced → HasEnteredOne self.old → WhereTold result (AreDurable (P.state plant.new) (walk_of (shape_of (P.state plant.old)) (P.state plant.old).bytes self.old).entered) }
        ensures examined { (d : AnyDevice) → IsErrOf result (Fault d) → IsStore d }
        ensures fails { FaultsAreCounted (P.state plant.old).faults (P.state plant.new).faults result }
        ensures reads { ReadsAll P.tells (P.state plant.old) (P.state plant.new) }
    {
        let mut settled = 0;
        loop {
            settled = self.settle_here(plant, settled, first)?;
            match self.step(alloc, plant, body) {
                Ok(true) => {}
                Ok(false) => return Ok(()),
                Err(error) => return Err(error),
            }
        }
    }

    /// What a walk that has ended means, from a mark and with the level of its state slot.
    pub(crate) fn reading(self, mark: &Mark, level: Level) -> SiteReading
        ensures mark { result.mark ≡ mark.now }
        ensures means { result.means ≡ record { session = mark.now.session; level = level; time = self.time; table = self.table; from = mark.now.at; ended = mark.now.ended } }
        ensures end { result.end ≡ self.at }
    {
        SiteReading {
            mark: *mark,
            means: Means {
                session: mark.session,
                level,
                time: self.time,
                table: self.table,
                from: mark.at,
                ended: mark.ended,
            },
            end: self.at,
        }
    }
}
