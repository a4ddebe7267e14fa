//! A record of rows: those that a command's change names, and after them the hits of failed jobs; or hits alone.

ghost use Rattle.std.specs.Prelude.{◌≡◌, ◌≤◌, ◌+◌, ◌*◌, ◌++◌, [], length, map, OnOk, IsErrOf, IsTrue};
ghost use Rattle.xrc_journal.specs.declared.layout.TheConstants.{ROW_ITEM};
ghost use Rattle.pair_table.specs.declared.limits.TheConstants.{MOST_ROWS};
ghost use Rattle.xrc_edge.specs.declared.limits.TheConstants.{MOST_SITE_VOLUMES};
ghost use Rattle.applier.specs.Returns.{WorksOnLent};
ghost use Rattle.crash_plant.specs.Calls.{Silent};
ghost use Rattle.xrc_journal.specs.Items.{body_spelling};
ghost use Rattle.site_store.specs.declared.store_error.StoreError.TheVariants.{Spent};
ghost use Rattle.site_store.specs.Causes.{FailByCounts, HasStoreCause};
ghost use Rattle.site_store.specs.Changing.{DoesChange, FormsChange, LogsChange, MayChange, changed_items, gone_of, named_devices, pairs_of};
ghost use Rattle.site_store.specs.Hits.{AreHits};
ghost use Rattle.site_store.specs.RowRecords.{has_items, names_rows};
ghost use Rattle.pair_table.specs.Tables.{AreRowsSound, are_below};
ghost use Rattle.site_store.specs.Jobs.{has_job_failed};
ghost use Rattle.site_store.specs.Records.{IsOfRecord, VolumesStay};
ghost use Rattle.site_store.specs.Standing.{Leaves};

use crate::hits::{Hits, hits_at, put_hits};
use crate::plan::Plan;
use crate::{Site, StoreError};
use crash_plant::Plant;
use pair_table::{Change, Level, PairTable};
use tod_stamp::Stamp;
use xrc_journal::{Body, VolumeJob};

/// Whether one of these devices has a row.
fn has_row(table: &PairTable, devices: &[u16]) -> bool
    ensures { result ≡ has_items (pairs_of devices.now table.now.rows) }
{
    for device in devices {
        if table.row_of(*device).is_some() {
            return true;
        }
    }
    false
}

/// Whether a change names a row, as the rows stand in the table, or a device whose row goes.
pub(crate) fn names_rows(table: &PairTable, change: &Change) -> bool
    ensures { result ≡ names_rows change.now table.now.rows }
{
    match change {
        Change::Nothing | Change::Started | Change::Ended => false,
        Change::Added(device) | Change::Resumed(device) => has_row(table, &[*device]),
        Change::Gone(devices) => !devices.is_empty(),
        Change::Suspended(devices) => has_row(table, devices.as_slice()),
    }
}

/// Puts the rows of devices as they stand in the table.
fn put_rows(body: &mut Body, table: &PairTable, devices: &[u16])
    requires room { length (body_spelling body.old.items) + length devices.now * ROW_ITEM ≤ body.old.room }
    requires rules { AreRowsSound table.now.rows }
    ensures put { body.new ≡ record { items = body.old.items ++ pairs_of devices.now table.now.rows; room = body.old.room } }
    ensures short { length (body_spelling body.new.items) ≤ length (body_spelling body.old.items) + length devices.now * ROW_ITEM }
{
    for device in devices {
        if let Some(row) = table.row_of(*device) {
            body.put_row(row);
        }
    }
}

/// Puts that the rows of devices go.
fn put_gone(body: &mut Body, devices: &[u16])
    requires { length (body_spelling body.old.items) + length devices.now * ROW_ITEM ≤ body.old.room }
    ensures put { body.new ≡ record { items = body.old.items ++ gone_of devices.now; room = body.old.room } }
    ensures short { length (body_spelling body.new.items) ≤ length (body_spelling body.old.items) + length devices.now * ROW_ITEM }
{
    for device in devices {
        body.put_gone(*device);
    }
}

/// Takes the items of a change in place of those that were there.
fn take_change(body: &mut Body, table: &PairTable, change: &Change)
    requires room { named_devices change.now * ROW_ITEM ≤ body.old.room }
    requires rules { AreRowsSound table.now.rows }
    ensures put { body.new ≡ record { items = changed_items change.now table.now.rows; room = body.old.room } }
    ensures short { length (body_spelling body.new.items) ≤ named_devices change.now * ROW_ITEM }
{
    body.clear();
    match change {
        Change::Nothing | Change::Started | Change::Ended => {}
        Change::Added(device) | Change::Resumed(device) => put_rows(body, table, &[*device]),
        Change::Gone(devices) => put_gone(body, devices.as_slice()),
        Change::Suspended(devices) => put_rows(body, table, devices.as_slice()),
    }
}

/// Forms a record of rows: those that a change names as they stand in the table, and after them those that failed jobs suspend.
pub(crate) fn form_change<V>(
    body: &mut Body,
    table: &PairTable,
    jobs: &[VolumeJob<V>],
    level: Level,
    cut: Stamp,
    change: &Change,
) -> Hits
    requires below { IsTrue (are_below (length jobs.now) table.now.rows) }
    requires few { length jobs.now ≤ MOST_SITE_VOLUMES }
    requires room { named_devices change.now * ROW_ITEM + MOST_ROWS * ROW_ITEM ≤ body.old.room }
    ensures forms { FormsChange level cut (map has_job_failed jobs.now) change.now table.now.rows body.old body.new }
    ensures hits { AreHits level cut (map has_job_failed jobs.now) [] table.now.rows result }
{
    let hits = hits_at(jobs, table, level, cut);
    take_change(body, table, change);
    put_hits(body, table, &hits);
    // The items of a body keep the rules on one record.
    prove!(body.bytes().len() <= usize::MAX);
    hits
}

impl<V> Site<V> {
    /// Logs a command's change by one record of the rows that it names, as they stand in the table, and of the devices whose rows
    /// go. The rows of volumes that have failed and aren't told yet are suspended after them, since the cut, with the rows that
    /// these failures reach under the session's level. For a change that alters no row nothing is called.
    ///
    /// Where the record doesn't fit the rest of the data set, a switch comes first. Where the next data set holds the spot of the
    /// mark that counts, a mark comes before the switch: it syncs the volumes that were written one after another, and its rows are
    /// those before the command, in which the volumes that have failed by then have their rows suspended since the site's time. The
    /// rows that these failures reach then come with the record. It takes no memory.
    ///
    /// `Spent` comes exactly where a record or a mark would need the number 2^64 - 1; nothing is called then. A `Fault` names a
    /// journal, the state or the control. After an error the site may not be used again.
    pub fn log_change<P: Plant<Volume = V>>(
        &mut self,
        plant: &mut P,
        cut: Stamp,
        change: &Change,
    ) -> Result<(), StoreError>
        requires may { MayChange P.tells cut.0 change.now self.old (P.state plant.old) }
        ensures ok { LogsChange cut.0 change.now self.old self.new (P.state plant.old) plant.old plant.new result }
        ensures leaves { OnOk result (Leaves P.tells (λ e. e) self.old self.new (P.state plant.old) (P.state plant.new)) }
        ensures moments { DoesChange P.tells cut.0 change.now self.old self.new (P.state plant.old) (P.state plant.new) result }
        ensures others { WorksOnLent P.tells (IsOfRecord self.old) (P.state plant.old) (P.state plant.new) }
        ensures volumes { VolumesStay P.tells (P.state plant.old) (P.state plant.new) }
        ensures uncalled { IsErrOf result Spent → plant.new ≡ plant.old }
        ensures heard_said { P.tells → Silent (P.state plant.old) (P.state plant.new) }
        ensures cause { HasStoreCause (P.state plant.old).faults (P.state plant.new).faults result }
        ensures failed { FailByCounts self.old.failed self.new.failed (P.state plant.old).faults (P.state plant.new).faults }
    {
        if !names_rows(self.table(), change) {
            self.ahead = false;
            return Ok(());
        }
        self.log_by_plan(plant, &Plan::Command(cut, change))
    }
}
