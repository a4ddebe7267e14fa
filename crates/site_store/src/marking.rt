//! The next mark.

ghost use Rattle.std.specs.Prelude.{◌≡◌, ◌≤◌, ◌<◌, ◌+◌, ◌-◌, ◌^◌, [], false, cond, length, map, replicate, OnOk, IfOk, IsErrOf};
ghost use Rattle.xrc_edge.specs.declared.limits.TheConstants.{MOST_SITE_VOLUMES};
ghost use Rattle.applier.specs.Returns.{WorksOnLent};
ghost use Rattle.crash_plant.specs.Calls.{Silent, WorksOn};
ghost use Rattle.pair_table.specs.Tables.{with_rows};
ghost use Rattle.record_rows.specs.Hits.{hit_now};
ghost use Rattle.record_rows.specs.Records.{rows_with_hits};
ghost use Rattle.site_store.specs.declared.store_error.StoreError.TheVariants.{Spent};
ghost use Rattle.site_store.specs.Causes.{FailByCounts, HasStoreCause};
ghost use Rattle.site_store.specs.Hits.{AreDevices};
ghost use Rattle.site_store.specs.Jobs.{has_job_failed};
ghost use Rattle.site_store.specs.Marking.{AllPutMark, DoesMark, IsMarked, MakesMark, MarkIsPut, Marks, MayMark, MayPutMark, MayWriteMark, after_next_mark, rows_at_mark, unit_of};
ghost use Rattle.site_store.specs.Records.{IsOfMark};
ghost use Rattle.site_store.specs.Sites.{next_mark};
ghost use Rattle.site_store.specs.Standing.{Leaves, StandsFast, none_excepted};

use crate::hits::{HitDevices, hit_devices, hits_at, take_hits};
use crate::placement::MOST;
use crate::syncing::{sync_in_turn, sync_written};
use crate::writing::put_mark;
use crate::{Site, StoreError};
use control_set::Mark;
use crash_plant::Plant;
use pair_table::{Level, PairTable};
use std::thread::Threads;
use xrc_journal::VolumeJob;

/// Suspends the rows of volumes that have failed, and the rows that these reach under the level `reach`, since the mark's time;
/// and writes the mark after its state.
fn put_rows<V, P: Plant>(
    plant: &mut P,
    jobs: &[VolumeJob<V>],
    levels: (Level, Level),
    table: &mut PairTable,
    mark: &Mark,
) -> Result<(), StoreError>
    requires jobs { (length jobs.now ≡ (P.state plant.old).volumes) × ((P.state plant.old).volumes ≤ MOST_SITE_VOLUMES) }
    requires may { MayWriteMark P.tells mark.now table.old (P.state plant.old) }
    ensures rows { table.new ≡ with_rows table.old (rows_with_hits levels.1 mark.now.time.0 (map has_job_failed jobs.now) table.old.rows) }
    ensures moments { P.tells → AllPutMark mark.now (record { level = levels.0; rows = table.new.rows }) (P.state plant.old) (P.state plant.new) }
    ensures put { P.tells → OnOk result (MarkIsPut mark.now (record { level = levels.0; rows = table.new.rows }) (P.state plant.new)) }
    ensures only { WorksOn P.tells IsMarked (P.state plant.old) (P.state plant.new) }
    ensures cause { HasStoreCause (P.state plant.old).faults (P.state plant.new).faults result }
    ensures unspent { ¬ IsErrOf result Spent }
{
    let (level, reach) = levels;
    let hits = hits_at(jobs, table, reach, mark.time);
    take_hits(table, &hits);
    put_mark(plant, level, table, mark)
}

/// The same with the rows that the devices tell: those of the table, unless this is ahead of them.
fn put_told_rows<V, P: Plant>(
    plant: &mut P,
    jobs: &[VolumeJob<V>],
    levels: (Level, Level),
    ahead: bool,
    table: &mut PairTable,
    told: &mut PairTable,
    mark: &Mark,
) -> Result<(), StoreError>
    requires jobs { (length jobs.now ≡ (P.state plant.old).volumes) × ((P.state plant.old).volumes ≤ MOST_SITE_VOLUMES) }
    requires may { MayWriteMark P.tells mark.now (cond ahead told.old table.old) (P.state plant.old) }
    ensures rows { cond ahead told.new.rows table.new.rows ≡ rows_with_hits levels.1 mark.now.time.0 (map has_job_failed jobs.now) (cond ahead told.old.rows table.old.rows) }
    ensures table { table.new ≡ cond ahead table.old (with_rows table.old (cond ahead told.new.rows table.new.rows)) }
    ensures table_session { table.new.session ≡ table.old.session }
    ensures told_session { told.new.session ≡ told.old.session }
    ensures moments { P.tells → AllPutMark mark.now (record { level = levels.0; rows = cond ahead told.new.rows table.new.rows }) (P.state plant.old) (P.state plant.new) }
    ensures put { P.tells → OnOk result (MarkIsPut mark.now (record { level = levels.0; rows = cond ahead told.new.rows table.new.rows }) (P.state plant.new)) }
    ensures only { WorksOn P.tells IsMarked (P.state plant.old) (P.state plant.new) }
    ensures cause { HasStoreCause (P.state plant.old).faults (P.state plant.new).faults result }
    ensures unspent { ¬ IsErrOf result Spent }
{
    if ahead {
        put_rows(plant, jobs, levels, told, mark)
    } else {
        put_rows(plant, jobs, levels, table, mark)
    }
}

impl<V> Site<V> {
    /// The next mark.
    fn next_mark(&self, ended: bool) -> Mark
        requires number { self.now.mark.number < 2 ^ 64 - 2 }
        requires slot { self.now.mark.state_slot ≤ 1 }
        ensures { result ≡ next_mark self.now ended }
    {
        Mark {
            number: self.mark.number + 1,
            session: self.table.session(),
            state_slot: 1 - self.mark.state_slot,
            at: self.journal.at,
            time: self.time,
            ended,
        }
    }

    /// Goes on from a mark that was made.
    fn take_mark(&mut self, mark: Mark)
        ensures { self.new ≡ record self.old { mark = mark; since = 0; waiting = []; written = replicate (length self.old.written) false } }
    {
        self.journal.marked = mark.at;
        self.mark = mark;
        self.since = 0;
        self.waits = false;
        self.due.fill(false);
        self.written.fill(false);
    }

    /// Makes the next mark, once the volumes that were written are synced. Its rows are those that the devices tell, with the hits of
    /// the volumes that have failed and, under the level `reach`, with the rows that these reach. A change that waits to be logged
    /// waits on.
    fn put_next_mark<P: Plant<Volume = V>>(
        &mut self,
        plant: &mut P,
        ended: bool,
        reach: Level,
    ) -> Result<(), StoreError>
        requires may { MayPutMark P.tells self.old (P.state plant.old) }
        ensures ok { OnOk result (self.new ≡ after_next_mark ended (rows_at_mark reach self.old self.old.failed) self.old.failed self.old) }
        ensures failed { self.new.failed ≡ self.old.failed }
        ensures leaves { OnOk result (Leaves P.tells (λ e. none_excepted) self.old self.new (P.state plant.old) (P.state plant.new)) }
        ensures makes { MakesMark P.tells ended (rows_at_mark reach self.old self.old.failed) self.old self.new (P.state plant.old) (P.state plant.new) result }
        ensures only { WorksOn P.tells IsMarked (P.state plant.old) (P.state plant.new) }
        ensures cause { HasStoreCause (P.state plant.old).faults (P.state plant.new).faults result }
        ensures unspent { ¬ IsErrOf result Spent }
    {
        let mark = self.next_mark(ended);
        let levels = (self.level, reach);
        put_told_rows(
            plant,
            &self.jobs,
            levels,
            self.ahead,
            &mut self.table,
            &mut self.told,
            &mark,
        )?;
        self.take_mark(mark);
        Ok(())
    }

    /// Makes the mark that comes before a record, or in its place, once the volumes that were written are synced one after another.
    /// Under the level `reach` its rows tell those that the failed volumes reach. Tells which devices are hit in it: a record that
    /// follows has to reach the others.
    pub(crate) fn mark_first<P: Plant<Volume = V>>(
        &mut self,
        plant: &mut P,
        reach: Level,
    ) -> Result<HitDevices, StoreError>
        requires fast { StandsFast P.tells self.old (P.state plant.old) }
        requires idle { self.old.waiting ≡ [] }
        requires number { self.old.mark.number < 2 ^ 64 - 2 }
        ensures ok { OnOk result (self.new ≡ after_next_mark self.old.mark.ended (rows_at_mark reach self.old self.new.failed) self.new.failed self.old) }
        ensures marked { IfOk result (λ marked. AreDevices (hit_now self.new.failed self.old.table.rows) marked) }
        ensures leaves { OnOk result (Leaves P.tells (λ e. none_excepted) self.old self.new (P.state plant.old) (P.state plant.new)) }
        ensures makes { MakesMark P.tells self.old.mark.ended (rows_at_mark reach self.old self.new.failed) self.old self.new (P.state plant.old) (P.state plant.new) (unit_of result) }
        ensures only { WorksOn P.tells (IsOfMark self.old) (P.state plant.old) (P.state plant.new) }
        ensures cause { HasStoreCause (P.state plant.old).faults (P.state plant.new).faults (unit_of result) }
        ensures unspent { ¬ IsErrOf result Spent }
        ensures failed { FailByCounts self.old.failed self.new.failed (P.state plant.old).faults (P.state plant.new).faults }
    {
        sync_in_turn(plant, &mut self.jobs, &self.written);
        let marked = hit_devices(&self.jobs, &self.table);
        let ended = self.mark.ended;
        self.put_next_mark(plant, ended, reach)?;
        Ok(marked)
    }

    /// Makes a mark at the spot of the next record. First the volumes that were written since the last mark and haven't failed are
    /// synced, side by side unless syncs are quick; then the other slot of the state is written, and then the mark. Its rows are those
    /// of the table, in which each volume that has failed by then has its row suspended since the site's time, with the rows
    /// that its failure reaches under the session's level.
    ///
    /// `Spent` comes exactly where the mark's number would be 2^64 - 1; nothing is called then. A `Fault` names the state or the
    /// control. After an error the site may not be used again.
    pub fn mark<R: Threads + Sync, P: Plant<Volume = V>>(
        &mut self,
        rt: &R,
        plant: &mut P,
        ended: bool,
    ) -> Result<(), StoreError>
        requires may { MayMark P.tells self.old (P.state plant.old) }
        ensures ok { Marks self.old self.new ended plant.old plant.new result }
        ensures leaves { OnOk result (Leaves P.tells (λ e. none_excepted) self.old self.new (P.state plant.old) (P.state plant.new)) }
        ensures moments { DoesMark P.tells self.old self.new ended (P.state plant.old) (P.state plant.new) result }
        ensures others { WorksOnLent P.tells (IsOfMark self.old) (P.state plant.old) (P.state plant.new) }
        ensures heard_said { P.tells → Silent (P.state plant.old) (P.state plant.new) }
        ensures cause { HasStoreCause (P.state plant.old).faults (P.state plant.new).faults result }
        ensures failed { FailByCounts self.old.failed self.new.failed (P.state plant.old).faults (P.state plant.new).faults }
    {
        if self.mark.number == MOST {
            return Err(StoreError::Spent);
        }
        sync_written(rt, plant, &mut self.pace, &mut self.jobs, &self.written);
        let level = self.level;
        self.put_next_mark(plant, ended, level)
    }
}
