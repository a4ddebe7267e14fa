//! The one road of a record: it is formed, placed, put, and its rows are taken; a mark that has to come first comes before.

ghost use Rattle.std.specs.Prelude.{◌≡◌, false, IsErrOf};
ghost use Rattle.site_store.specs.declared.store_error.StoreError.TheVariants.{Spent};
ghost use Rattle.site_store.specs.declared.placement.Placement.TheVariants.{Marked};
ghost use Rattle.site_store.specs.Plans.{IsPlanUnwritten, IsRecorded, IsRecordedAfterMark, MayLogByPlan, follows_mark, reach_by};
ghost use Rattle.site_store.specs.RowRecords.{are_rows_spent, rows_need_more};

use crate::hits::{HitReach, no_devices};
use crate::placement::{Placement, placement_from, record_needs_more, suspension_needs_more};
use crate::plan::Plan;
use crate::recording::put_record;
use crate::{Site, StoreError};
use crash_plant::Plant;
use pair_table::Level;

/// Whether a record that is placed so would need a number after the greatest. If a mark has to come first, hits alone need no record:
/// it doesn't follow.
fn needs_more(follows: bool, placement: Placement, next: u64, mark: u64) -> bool
    ensures { result ≡ rows_need_more follows placement next mark }
{
    if follows {
        record_needs_more(placement, next, mark)
    } else {
        suspension_needs_more(placement, next, mark)
    }
}

/// How far the mark that comes first reaches. The rows that its hits reach come with the record that follows, else with the mark.
fn reach_by(follows: bool, level: Level) -> Level
    ensures { result ≡ reach_by follows level }
{
    if follows { Level::Volume } else { level }
}

impl<V> Site<V> {
    /// Makes the mark that has to come first, and logs the record after it, unless the mark tells all. The mark syncs the volumes that
    /// were written one after another, and its rows tell the volumes that have failed by then, since the site's time. If a record
    /// follows, it is formed again, and the rows that these failures reach come with it; else they come with the mark.
    fn log_after_mark<P: Plant<Volume = V>>(
        &mut self,
        plant: &mut P,
        plan: &Plan<'_>,
        follows: bool,
    ) -> Result<(), StoreError>
        requires may { MayLogByPlan P.tells plan.now self.old (P.state plant.old) }
        requires rows { self.old.is_ahead ≡ false → self.old.told ≡ self.old.table.rows }
        requires follows { follows ≡ follows_mark plan.now self.old.table.rows }
        requires numbers { are_rows_spent follows Marked self.old ≡ false }
        ensures recorded { IsRecordedAfterMark P.tells plan.now self.old self.new (P.state plant.old) (P.state plant.new) result }
        ensures unspent { ¬ IsErrOf result Spent }
    {
        let first = reach_by(follows, self.level);
        let hit = self.mark_first(plant, first)?;
        if !follows {
            return Ok(());
        }
        // No item waits after a mark.
        self.waits = false;
        let reach = HitReach {
            level: self.level,
            marked: hit,
        };
        let cut = plan.cut();
        let (body, due) = (&mut self.body, self.due.as_mut_slice());
        let hits = plan.form(plant, &mut self.jobs, &self.table, reach, body, due);
        put_record(&mut self.journal, plant, cut, &self.body, Placement::Marked)?;
        plan.take_rows(&mut self.table, &hits);
        self.ahead = false;
        self.time = cut;
        self.since = plan.since_after(self.since);
        self.waits = plan.items_wait();
        Ok(())
    }

    /// Logs a record by its plan: it is formed, placed and put, and its rows are taken. If a mark has to come first, the record is
    /// formed again after it; hits alone are told by the mark.
    pub(crate) fn log_by_plan<P: Plant<Volume = V>>(
        &mut self,
        plant: &mut P,
        plan: &Plan<'_>,
    ) -> Result<(), StoreError>
        requires may { MayLogByPlan P.tells plan.now self.old (P.state plant.old) }
        ensures recorded { IsRecorded P.tells plan.now self.old self.new (P.state plant.old) (P.state plant.new) result }
        ensures unwritten { IsErrOf result Spent → IsPlanUnwritten P.tells plan.now self.old self.new (P.state plant.old) (P.state plant.new) plant.old plant.new }
    {
        // No item waits by what the call requires.
        self.waits = false;
        let none = no_devices();
        let reach = HitReach {
            level: self.level,
            marked: none,
        };
        let cut = plan.cut();
        let follows = plan.follows_mark(&self.table);
        let (body, due) = (&mut self.body, self.due.as_mut_slice());
        let hits = plan.form(plant, &mut self.jobs, &self.table, reach, body, due);
        let placement = placement_from(plant, self.journal.at, self.mark.at, &self.body);
        if needs_more(follows, placement, self.journal.at.number, self.mark.number) {
            return Err(StoreError::Spent);
        }
        if placement == Placement::Marked {
            return self.log_after_mark(plant, plan, follows);
        }
        put_record(&mut self.journal, plant, cut, &self.body, placement)?;
        plan.take_rows(&mut self.table, &hits);
        self.ahead = false;
        self.time = cut;
        self.since = plan.since_after(self.since);
        self.waits = plan.items_wait();
        Ok(())
    }
}
