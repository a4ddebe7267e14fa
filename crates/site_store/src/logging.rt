//! A formed group, logged.

ghost use Rattle.std.specs.Prelude.{◌≡◌, ◌≤◌, ◌+◌, ◌*◌, ℕ, List, true, length, map, IsErrOf, OnOk};
ghost use Rattle.xrc_journal.specs.declared.layout.TheConstants.{ROW_ITEM};
ghost use Rattle.pair_table.specs.declared.limits.TheConstants.{MOST_ROWS};
ghost use Rattle.applier.specs.Returns.{OnlyReads, WorksOnLent};
ghost use Rattle.crash_plant.specs.Calls.{NoneLent, Silent};
ghost use Rattle.site_store.specs.declared.store_error.StoreError.TheVariants.{Spent};
ghost use Rattle.site_store.specs.Causes.{FailByCounts, HasStoreCause};
ghost use Rattle.site_store.specs.Hits.{AreDevices, AreHits};
ghost use Rattle.site_store.specs.Jobs.{are_home_from, has_job_failed};
ghost use Rattle.site_store.specs.Logging.{FailByEntries, FormsRecord, IsOfEntries, IsOfLog, LogsGroup, MayForm, MayLog, StaysUnwritten};
ghost use Rattle.site_store.specs.Records.{VolumesStay};
ghost use Rattle.site_store.specs.Standing.{MayRecord, Leaves};

use crate::forming::form_group;
use crate::group_rows::put_changed;
use crate::hits::{HitReach, Hits, hits_after_mark};
use crate::plan::Plan;
use crate::{Site, StoreError};
use crash_plant::Plant;
use pair_table::PairTable;
use pending_queue::Formed;
use xrc_journal::{Body, VolumeJob};

/// Forms the record of a group: the images of its tracks, and after them the rows that change with it. Volumes whose reads
/// fail are left out, and are hit with the record; so are the rows that they reach, and those that are due since a mark. Tells
/// for which volumes there are items.
pub(crate) fn form_record<P: Plant>(
    plant: &mut P,
    jobs: &mut [VolumeJob<P::Volume>],
    table: &PairTable,
    reach: HitReach,
    formed: &Formed,
    body: &mut Body,
    due: &mut [bool],
) -> Hits
    requires may { MayForm formed.now.entries table.now.rows jobs.old due.old (P.state plant.old) }
    requires room { 56670 * length formed.now.entries + MOST_ROWS * ROW_ITEM ≤ body.old.room }
    ensures forms { FormsRecord P.tells formed.now table.now.rows (P.state plant.old) body.old body.new due.new (map has_job_failed jobs.new) result }
    ensures hits { (marked : List ℕ) → AreDevices marked reach.marked → AreHits reach.level formed.now.cut (map has_job_failed jobs.new) marked table.now.rows result }
    ensures idle { are_home_from 0 jobs.new ≡ true }
    ensures fails { FailByCounts (map has_job_failed jobs.old) (map has_job_failed jobs.new) (P.state plant.old).faults (P.state plant.new).faults }
    ensures by_entries { FailByEntries table.now.rows formed.now.entries (map has_job_failed jobs.old) (map has_job_failed jobs.new) }
    ensures reads { OnlyReads P.tells (P.state plant.old) (P.state plant.new) }
    ensures home { NoneLent (P.state plant.new) }
    ensures only { WorksOnLent P.tells (IsOfEntries table.now.rows formed.now.entries) (P.state plant.old) (P.state plant.new) }
{
    form_group(plant, jobs, table, formed, body, due);
    let hits = hits_after_mark(jobs, table, reach.level, formed.cut(), &reach.marked);
    put_changed(body, table, formed, &hits);
    hits
}

impl<V> Site<V> {
    /// Logs a formed group by one record: an image of each track that has an entry, as the entries leave it, and the rows that
    /// change with the group. A row whose controller breaks is suspended since the break's time; else one whose plan is done becomes
    /// duplex, and one that waited is copied. Volumes that have failed by then have no image, and their rows are suspended since
    /// the cut, with the rows that their failures reach under the session's level.
    ///
    /// Where the record doesn't fit the rest of the data set, a switch comes first. Where the next data set holds the spot of the
    /// mark that counts, a mark comes before the switch: it syncs the volumes that were written one after another, its rows tell
    /// the volumes that have failed by then, since the site's time, and the record is formed again after it. The rows that these
    /// failures reach then come with the record. It takes no memory.
    ///
    /// `Spent` comes exactly where a record or a mark would need the number 2^64 - 1; nothing is written then. A `Fault` names a
    /// journal, the state or the control. After an error the site may not be used again.
    pub fn log<P: Plant<Volume = V>>(
        &mut self,
        plant: &mut P,
        formed: &Formed,
    ) -> Result<(), StoreError>
        requires ready { MayRecord P.tells self.old (P.state plant.old) }
        requires may { MayLog self.old formed.now }
        ensures ok { LogsGroup P.tells formed.now self.old self.new (P.state plant.old) (P.state plant.new) result }
        ensures leaves { OnOk result (Leaves P.tells (λ e. e) self.old self.new (P.state plant.old) (P.state plant.new)) }
        ensures others { WorksOnLent P.tells (IsOfLog self.old formed.now) (P.state plant.old) (P.state plant.new) }
        ensures volumes { VolumesStay P.tells (P.state plant.old) (P.state plant.new) }
        ensures unwritten { IsErrOf result Spent → StaysUnwritten P.tells self.old self.new (P.state plant.old) (P.state plant.new) }
        ensures heard_said { P.tells → Silent (P.state plant.old) (P.state plant.new) }
        ensures cause { HasStoreCause (P.state plant.old).faults (P.state plant.new).faults result }
        ensures failed { FailByCounts self.old.failed self.new.failed (P.state plant.old).faults (P.state plant.new).faults }
    {
        // The body has room for groups of so many controllers.
        prove!(formed.controls() <= self.controls);
        self.log_by_plan(plant, &Plan::Group(formed))
    }
}
