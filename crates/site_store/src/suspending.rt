//! The suspensions that failed jobs call for, logged.

ghost use Rattle.std.specs.Prelude.{◌≡◌, ◌≤◌, false, length, OnOk, IsErrOf, IsTrue};
ghost use Rattle.pair_table.specs.Tables.{are_below};
ghost use Rattle.record_rows.specs.Hits.{hit_now};
ghost use Rattle.applier.specs.Returns.{WorksOnLent};
ghost use Rattle.crash_plant.specs.Calls.{Silent};
ghost use Rattle.site_store.specs.declared.store_error.StoreError.TheVariants.{Spent};
ghost use Rattle.site_store.specs.Causes.{FailByCounts, HasStoreCause};
ghost use Rattle.site_store.specs.Changing.{DoesSuspend, Suspends};
ghost use Rattle.site_store.specs.Hits.{are_some};
ghost use Rattle.site_store.specs.Records.{IsOfRecord, VolumesStay};
ghost use Rattle.site_store.specs.Standing.{MayRecord, Leaves};

use crate::hits::is_any_hit;
use crate::plan::Plan;
use crate::{Site, StoreError};
use crash_plant::Plant;
use pair_table::Change;
use tod_stamp::Stamp;

impl<V> Site<V> {
    /// Whether a volume of the rows has failed and isn't told yet. The devices tell these rows, unless a change waits to be logged.
    fn has_hit(&self) -> bool
        requires { IsTrue (are_below (length self.now.failed) self.now.table.rows) }
        ensures hit { result ≡ are_some (hit_now self.now.failed self.now.table.rows) }
        ensures told { self.now.is_ahead ≡ false → self.now.told ≡ self.now.table.rows }
    {
        is_any_hit(&self.jobs, &self.table)
    }

    /// Logs the suspensions that failed jobs call for, by one record at a cut: the row of each volume that has failed and isn't told
    /// yet, and the other rows that these failures reach under the session's level. Where no job failed anew, nothing is called.
    ///
    /// Where the record doesn't fit the rest of the data set, a switch comes first. Where the next data set holds the spot of the
    /// mark that counts, a mark is made in place of the record: it tells the suspensions, since the site's time, those of its own
    /// syncs among them. It takes no memory.
    ///
    /// `Spent` comes exactly where the record or the mark would need the number 2^64 - 1; nothing is called then. A `Fault` names a
    /// journal, the state or the control. After an error the site may not be used again.
    pub fn suspend<P: Plant<Volume = V>>(
        &mut self,
        plant: &mut P,
        cut: Stamp,
    ) -> Result<(), StoreError>
        requires ready { MayRecord P.tells self.old (P.state plant.old) }
        requires cut { self.old.time ≤ cut.0 }
        ensures ok { Suspends cut.0 self.old self.new (P.state plant.old) plant.old plant.new result }
        ensures leaves { OnOk result (Leaves P.tells (λ e. e) self.old self.new (P.state plant.old) (P.state plant.new)) }
        ensures moments { DoesSuspend P.tells cut.0 self.old self.new (P.state plant.old) (P.state plant.new) result }
        ensures others { WorksOnLent P.tells (IsOfRecord self.old) (P.state plant.old) (P.state plant.new) }
        ensures volumes { VolumesStay P.tells (P.state plant.old) (P.state plant.new) }
        ensures uncalled { IsErrOf result Spent → (self.new ≡ self.old) × (plant.new ≡ plant.old) }
        ensures heard_said { P.tells → Silent (P.state plant.old) (P.state plant.new) }
        ensures cause { HasStoreCause (P.state plant.old).faults (P.state plant.new).faults result }
        ensures failed { FailByCounts self.old.failed self.new.failed (P.state plant.old).faults (P.state plant.new).faults }
    {
        if !self.has_hit() {
            return Ok(());
        }
        let nothing = Change::Nothing;
        self.log_by_plan(plant, &Plan::Command(cut, &nothing))
    }
}
