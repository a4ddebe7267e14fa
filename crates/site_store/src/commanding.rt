//! Commands on the session's pairs, and rows that are put.

ghost use Rattle.std.specs.Prelude.{◌≡◌, ◌&&◌, not, [], OnOk, OnErr, IfOk, Ok, Err, Some, None, true, false, length, IsTrue, if◌then◌else◌};
ghost use Rattle.pair_table.specs.Commands.{answer, wants_memory};
ghost use Rattle.pair_table.specs.Refusals.{refusal};
ghost use Rattle.pair_table.specs.declared.command.Change.TheVariants.{Added as AddedPair};
ghost use Rattle.pair_table.specs.declared.command.Refusal.{Refusal};
ghost use Rattle.pair_table.specs.declared.command.CommandError.TheVariants.{Refused, NoMemory as Memory};
ghost use Rattle.pair_table.specs.Tables.{AreRowsSound, MayPut, with_rows};
ghost use Rattle.site_store.specs.Commands.{AddsBelow, AreOnVolumes, ChangesMayBeLogged, CommandsLeaveSites, IsToLog, MayDo, PutRowsLeaveSites, added_device, after_command, after_put, alters, without_flag};

use crate::Site;
use crate::hits::either;
use crash_plant::Plant;
use pair_table::{Change, Command, CommandError, Names, PairRow, PairTable};
use std::alloc::Global;
use tod_stamp::{Session, Stamp};
use xrc_edge::NoMemory;

/// Takes out all rows.
fn clear(table: &mut PairTable)
    ensures { table.new ≡ with_rows table.old [] }
{
    while let Some(row) = table.row(0) {
        let device = row.device;
        table.remove(device);
    }
}

/// Puts the rows of a table into another, which has none.
fn copy_rows(alloc: Global, from: &PairTable, to: &mut PairTable) -> Result<(), NoMemory>
    requires { to.old.rows ≡ [] }
    ensures ok { OnOk result (to.new.rows ≡ from.now.rows) }
    ensures session { to.new.session ≡ to.old.session }
    ensures rules { AreRowsSound from.now.rows }
{
    for row in from.rows() {
        to.put_row(alloc, *row)?;
    }
    Ok(())
}

/// Keeps the rows that the devices tell, where that is wanted, before the table goes ahead of them.
fn keep_rows(
    alloc: Global,
    is_wanted: bool,
    table: &PairTable,
    told: &mut PairTable,
) -> Result<(), NoMemory>
    ensures ok { OnOk result (told.new.rows ≡ (if is_wanted then table.now.rows else told.old.rows)) }
    ensures err { OnErr result (is_wanted ≡ true) }
    ensures session { told.new.session ≡ told.old.session }
    ensures rules { is_wanted ≡ true → AreRowsSound table.now.rows }
{
    if !is_wanted {
        return Ok(());
    }
    clear(told);
    copy_rows(alloc, table, told)
}

/// Whether a change alters a row.
fn alters(change: &Change) -> bool
    ensures { result ≡ alters change.now }
{
    match change {
        Change::Nothing | Change::Started | Change::Ended => false,
        Change::Added(_) | Change::Resumed(_) => true,
        Change::Gone(devices) | Change::Suspended(devices) => !devices.is_empty(),
    }
}

/// Whether a command may alter a row.
fn may_alter(command: &Command) -> bool
    ensures { result ≡ wants_memory command.now }
{
    match command {
        Command::AddPair { .. } | Command::DelPair(_) | Command::Suspend(_) => true,
        Command::Start { .. } | Command::Query | Command::End => false,
    }
}

/// Whether the rows are kept before a command: it may alter a row, and the table isn't ahead of the devices yet.
fn is_to_keep(command: &Command, ahead: bool) -> bool
    ensures { result ≡ (wants_memory command.now && not ahead) }
{
    may_alter(command) && !ahead
}

/// The device of a pair that a change adds or resumes.
fn added_device(change: &Change) -> Option<u16>
    ensures { result ≡ added_device change.now }
{
    match change {
        Change::Added(device) | Change::Resumed(device) => Some(*device),
        _ => None,
    }
}

impl<V> Site<V> {
    /// Makes the job of an added pair's device usable again.
    fn take_added(&mut self, change: &Change)
        requires { AddsBelow (length self.old.failed) change.now }
        ensures { self.new ≡ record self.old { failed = without_flag 0 change.now self.old.failed } }
    {
        if let Some(device) = added_device(change) {
            self.jobs[usize::from(device)].failed = false;
        }
    }

    /// Does a command of a script at a time on the table, or refuses it. What it changes is on the devices once `log_change` logs it.
    /// The job of an added pair's device, which may have failed, is usable again. After an error the site is as before.
    ///
    /// Memory is wanted by commands that may alter a row alone, also by such a one that would be refused.
    pub fn command(
        &mut self,
        alloc: Global,
        names: &Names,
        session: Session,
        command: &Command,
        at: Stamp,
    ) -> Result<Change, CommandError>
        requires may { MayDo names.now self.old }
        ensures ok { IfOk result (λ change. self.new ≡ after_command names.now session command.now at.0 change self.old) }
        ensures answer { IfOk result (λ change. answer names.now self.old.table session command.now ≡ Ok change) }
        ensures refused { (why : Refusal) → (result ≡ Err (Refused why)) → (refusal names.now self.old.table session command.now ≡ Some why) }
        ensures accepted { OnOk result (refusal names.now self.old.table session command.now ≡ None) }
        ensures err { OnErr result (self.new ≡ self.old) }
        ensures memory { result ≡ Err Memory → IsTrue (wants_memory command.now) }
        ensures again { MayDo names.now self.new }
        // The change may be logged next, if none waited before it.
        ensures to_log { IfOk result (λ change. self.old.is_ahead ≡ false → AreRowsSound self.new.table.rows → IsToLog change self.new) }
    {
        let is_kept = is_to_keep(command, self.ahead);
        keep_rows(alloc, is_kept, &self.table, &mut self.told)?;
        let change = self.table.command(alloc, names, session, command, at)?;
        self.ahead = either(self.ahead, alters(&change));
        self.take_added(&change);
        Ok(change)
    }

    /// Puts a row in the place of its device's row, or after all rows where the device has none. It is on the devices once the
    /// change that names it is logged. After an error the site is as before.
    pub fn put_row(&mut self, alloc: Global, row: PairRow) -> Result<(), NoMemory>
        requires may { MayPut row self.old.table.rows }
        ensures ok { OnOk result (self.new ≡ after_put row self.old) }
        ensures err { OnErr result (self.new ≡ self.old) }
        // It may be logged next as an added pair's row, if no change waited before it.
        ensures to_log { OnOk result (self.old.is_ahead ≡ false → AreOnVolumes self.new → IsToLog (AddedPair row.device) self.new) }
    {
        keep_rows(alloc, !self.ahead, &self.table, &mut self.told)?;
        self.table.put_row(alloc, row)?;
        self.ahead = true;
        Ok(())
    }
}

/// Commands and rows that are put call no device. What they leave of a site on a plant, and that their change may be logged next.
pub fn commands_call_no_device<P: Plant>(plant: &P)
    ensures commands { CommandsLeaveSites P.tells (P.state plant.now) }
    ensures rows { PutRowsLeaveSites P.tells (P.state plant.now) }
    ensures next { ChangesMayBeLogged P.tells (P.state plant.now) }
{}
