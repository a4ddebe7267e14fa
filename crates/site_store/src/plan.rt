//! What a record is of: a formed group, or rows; and how the two differ.

ghost use Rattle.std.specs.Prelude.{◌≡◌, ◌≤◌, true, map, IsTrue};
ghost use Rattle.xrc_edge.specs.declared.limits.TheConstants.{MOST_SITE_VOLUMES};
ghost use Rattle.pair_table.specs.Tables.{are_below, with_rows};
ghost use Rattle.record_rows.specs.ChangedRows.{rows_in_states};
ghost use Rattle.site_store.specs.Jobs.{are_home_from, has_job_failed};
ghost use Rattle.site_store.specs.Logging.{MayForm};
ghost use Rattle.site_store.specs.Plans.{FormsByPlan, IsLeftByForming, planned_cut, planned_entries, follows_mark, items_wait, next_states, planned_room, since_after};

use crate::changing::{form_change, names_rows};
use crate::group_rows::take_changed;
use crate::hits::{HitReach, Hits, take_hits};
use crate::logging::form_record;
use crash_plant::Plant;
use pair_table::{Change, PairTable};
use pending_queue::Formed;
use tod_stamp::Stamp;
use xrc_journal::{Body, VolumeJob};

/// What a record is of.
#[derive(Clone, Copy)]
pub(crate) enum Plan<'a> {
    /// A formed group, with the rows that change with it.
    Group(&'a Formed),
    /// The rows that a command's change names, at a cut; with `Change::Nothing` the hits of failed jobs alone.
    Command(Stamp, &'a Change),
}

impl<'a> Plan<'a> {
    /// The record's time.
    pub(crate) fn cut(&self) -> Stamp
        ensures { result ≡ planned_cut self.now }
    {
        match *self {
            Plan::Group(formed) => formed.cut(),
            Plan::Command(cut, _) => cut,
        }
    }

    /// Whether the record follows a mark that has to come first. Hits alone are told by that mark.
    pub(crate) fn follows_mark(&self, table: &PairTable) -> bool
        ensures { result ≡ follows_mark self.now table.now.rows }
    {
        match *self {
            Plan::Group(_) => true,
            Plan::Command(_, change) => names_rows(table, change),
        }
    }

    /// Whether its items wait to be applied.
    pub(crate) fn items_wait(&self) -> bool
        ensures { result ≡ items_wait self.now }
    {
        match *self {
            Plan::Group(_) => true,
            Plan::Command(_, _) => false,
        }
    }

    /// How often a group was logged since the mark, once the record was put.
    pub(crate) fn since_after(&self, since: u32) -> u32
        ensures { result ≡ since_after self.now since }
    {
        match *self {
            Plan::Group(_) => since.saturating_add(1),
            Plan::Command(_, _) => since,
        }
    }

    /// Gives the rows that the record changes their states after it.
    pub(crate) fn take_rows(&self, table: &mut PairTable, hits: &Hits)
        requires { IsTrue (are_below MOST_SITE_VOLUMES table.old.rows) }
        ensures { table.new ≡ with_rows table.old (rows_in_states (next_states self.now hits.now) table.old.rows) }
    {
        match *self {
            Plan::Group(formed) => take_changed(table, formed, hits),
            Plan::Command(_, _) => take_hits(table, hits),
        }
    }

    /// Forms the record: its own items, and after them the rows that hits change. For a group volumes are read, and `due` tells for
    /// which there are items.
    pub(crate) fn form<P: Plant>(
        &self,
        plant: &mut P,
        jobs: &mut [VolumeJob<P::Volume>],
        table: &PairTable,
        reach: HitReach,
        body: &mut Body,
        due: &mut [bool],
    ) -> Hits
        requires may { MayForm (planned_entries self.now) table.now.rows jobs.old due.old (P.state plant.old) }
        requires room { planned_room self.now ≤ body.old.room }
        ensures forms { FormsByPlan P.tells self.now reach table.now.rows (P.state plant.old) (P.state plant.new) body.old body.new due.new (map has_job_failed jobs.old) (map has_job_failed jobs.new) result }
        ensures idle { are_home_from 0 jobs.new ≡ true }
        ensures left { IsLeftByForming self.now plant.old plant.new (map has_job_failed jobs.old) (map has_job_failed jobs.new) }
    {
        match *self {
            Plan::Group(formed) => form_record(plant, jobs, table, reach, formed, body, due),
            Plan::Command(cut, change) => form_change(body, table, jobs, reach.level, cut, change),
        }
    }
}
