//! Commands on a table: their refusals, in the order in which they count, and what an accepted command does to the rows.

ghost use Rattle.std.specs.Prelude.{◌≡◌, ◌↔◌, not, ◌||◌, Some, None, IfOk, OnOk, OnErr, IsTrue};
ghost use Rattle.std.specs.List.{list_all, list_any};
ghost use Rattle.pair_table.specs.declared.command.Refusal.{Refusal};
ghost use Rattle.pair_table.specs.Naming.{AreNamesSound, Naming, labelled_device, no_names, primary_of};
ghost use Rattle.pair_table.specs.Rows.{are_in_ranges};
ghost use Rattle.pair_table.specs.Tables.{is_of, with_rows, with_states};
ghost use Rattle.pair_table.specs.Refusals.{is_start as starts, refusal, refuses_choice, refuses_command, refuses_new, refuses_primary, refuses_row};
ghost use Rattle.pair_table.specs.Commands.{MayCommand, accepted, answer, change_of, new_row_for, rows_after, table_after, wants_memory};

use crate::command::{Change, Choice, Command, CommandError, Refusal};
use crate::names::{NamedDevice, NamedVolume, Names};
use crate::row::{PairRow, PairState, SuspendCause};
use crate::table::PairTable;
use std::alloc::Global;
use tod_stamp::{Serial, Session, Stamp};
use xrc_edge::{NoMemory, TRACKS_OF_CYLINDER};

impl PairTable {
    /// Does a command of a script at a time, or refuses it. A refusal comes before any memory is taken. After an error the table
    /// is as before.
    pub fn command(
        &mut self,
        alloc: Global,
        names: &Names,
        session: Session,
        command: &Command,
        at: Stamp,
    ) -> Result<Change, CommandError>
        requires { MayCommand names.now self.old.rows }
        ensures refused { (why : Refusal) → (result ≡ Err (CommandError.Refused why)) ↔ (refusal names.now self.old session command.now ≡ Some why) }
        ensures change { IfOk result (λ change. answer names.now self.old session command.now ≡ Ok change) }
        ensures ok { OnOk result (self.new ≡ table_after names.now self.old session command.now at.0) }
        ensures err { OnErr result (self.new ≡ self.old) }
        ensures no_memory { result ≡ Err CommandError.NoMemory → (refusal names.now self.old session command.now ≡ None) × IsTrue (wants_memory command.now) }
        ensures again { MayCommand names.now self.new.rows }
    {
        match self.refusal(names, session, command) {
            Some(why) => Err(CommandError::Refused(why)),
            None => self.accept(alloc, names, command, at),
        }
    }

    /// Why a command is refused, if it is.
    fn refusal(&self, names: &Names, session: Session, command: &Command) -> Option<Refusal>
        ensures { result ≡ refusal names.now self.now session command.now }
    {
        let starts = is_start(command);
        if self.has_ended() {
            Some(Refusal::Ended)
        } else if session != self.session() || (!self.is_started() && !starts) {
            Some(Refusal::NoSession)
        } else if starts && self.is_started() {
            Some(Refusal::SessionExists)
        } else {
            self.own_refusal(names, command)
        }
    }

    /// Why a command that the session takes is refused, if it is.
    fn own_refusal(&self, names: &Names, command: &Command) -> Option<Refusal>
        ensures { result ≡ refuses_command names.now self.now.rows command.now }
    {
        match command {
            Command::AddPair {
                primary,
                secondary,
                ..
            } => self.pair_refusal(names, *primary, *secondary),
            Command::DelPair(choice) | Command::Suspend(choice) => self.choice_refusal(choice),
            Command::Start { .. } | Command::Query | Command::End => None,
        }
    }

    /// Why a pair isn't added or resumed, if it isn't.
    fn pair_refusal(&self, names: &Names, primary: Serial, secondary: Serial) -> Option<Refusal>
        ensures { result ≡ refuses_primary primary secondary names.now self.now.rows (primary_of primary names.now) }
    {
        let Some(volume) = names.volume_of(primary) else {
            return Some(Refusal::NoPrimary);
        };
        if names.is_broken(volume.control) {
            return Some(Refusal::ControlBroken(volume.control));
        }
        let Some(label) = names.device_of(secondary) else {
            return Some(Refusal::NoSecondary);
        };
        match self.row_of_primary(primary) {
            Some(row) => row_refusal(row, secondary),
            None => self.new_row_refusal(&volume, &label),
        }
    }

    /// Why a pair whose primary has no row isn't added, if it isn't.
    fn new_row_refusal(&self, volume: &NamedVolume, label: &NamedDevice) -> Option<Refusal>
        requires { IsTrue (are_in_ranges volume.now.control volume.now.volume volume.now.cylinders) }
        ensures { result ≡ refuses_new self.now.rows volume.now label.now }
    {
        if self.row_of(label.device).is_some() {
            Some(Refusal::SecondaryInUse)
        } else if label.cylinders < volume.cylinders {
            Some(Refusal::TooSmall(TRACKS_OF_CYLINDER * volume.cylinders))
        } else {
            None
        }
    }

    /// Why a choice is refused, if it is.
    fn choice_refusal(&self, choice: &Choice) -> Option<Refusal>
        ensures { result ≡ refuses_choice choice.now self.now.rows }
    {
        match choice {
            Choice::One { primary, secondary } if !self.has_pair(*primary, *secondary) => {
                Some(Refusal::NotPaired)
            }
            _ => None,
        }
    }

    /// Does a command that isn't refused. After an error the table is as before.
    fn accept(
        &mut self,
        alloc: Global,
        names: &Names,
        command: &Command,
        at: Stamp,
    ) -> Result<Change, CommandError>
        requires rows { MayCommand names.now self.old.rows }
        requires own { refuses_command names.now self.old.rows command.now ≡ None }
        requires started { IsTrue (starts command.now || self.old.is_started) }
        requires open { IsTrue (not self.old.is_ended) }
        ensures change { IfOk result (λ change. change ≡ change_of names.now command.now self.old.rows) }
        ensures ok { OnOk result (self.new ≡ accepted names.now at.0 command.now self.old) }
        ensures err { OnErr result (self.new ≡ self.old) }
        ensures again { MayCommand names.now self.new.rows }
        ensures no_memory { OnErr result ((result ≡ Err CommandError.NoMemory) × IsTrue (wants_memory command.now)) }
    {
        match command {
            Command::Start { .. } => {
                self.start_empty();
                Ok(Change::Started)
            }
            Command::AddPair {
                primary,
                secondary,
                group,
            } => Ok(self.add_pair(alloc, names, *primary, *secondary, *group)?),
            Command::DelPair(choice) => Ok(self.delete_pairs(alloc, choice)?),
            Command::Suspend(choice) => Ok(self.suspend_pairs(alloc, choice, at)?),
            Command::Query => Ok(Change::Nothing),
            Command::End => {
                self.end();
                Ok(Change::Ended)
            }
        }
    }

    /// Adds the pair, or resumes the one that its primary has.
    fn add_pair(
        &mut self,
        alloc: Global,
        names: &Names,
        primary: Serial,
        secondary: Serial,
        group: Option<Serial>,
    ) -> Result<Change, NoMemory>
        requires rows { MayCommand names.now self.old.rows }
        requires own { refuses_primary primary secondary names.now self.old.rows (primary_of primary names.now) ≡ None }
        ensures change { IfOk result (λ change. change ≡ change_of names.now (Command.AddPair primary secondary group) self.old.rows) }
        ensures ok { OnOk result (self.new ≡ with_rows self.old (rows_after names.now 0 (Command.AddPair primary secondary group) self.old.rows)) }
        ensures err { OnErr result (self.new ≡ self.old) }
        ensures again { MayCommand names.now self.new.rows }
    {
        if let Some(row) = self.row_of_primary(primary) {
            let device = row.device;
            self.resume(device, group);
            return Ok(Change::Resumed(device));
        }
        let Some(row) = new_row(names, primary, secondary, group) else {
            unreachable!()
        };
        let device = row.device;
        self.put_row(alloc, row)?;
        Ok(Change::Added(device))
    }

    /// Takes out the chosen rows.
    fn delete_pairs(&mut self, alloc: Global, choice: &Choice) -> Result<Change, NoMemory>
        ensures change { IfOk result (λ change. change ≡ change_of no_names (Command.DelPair choice.now) self.old.rows) }
        ensures ok { OnOk result (self.new ≡ with_rows self.old (rows_after no_names 0 (Command.DelPair choice.now) self.old.rows)) }
        ensures err { OnErr result (self.new ≡ self.old) }
        ensures again { (names : Naming) → MayCommand names self.old.rows → MayCommand names self.new.rows }
    {
        let gone = self.chosen_devices(alloc, choice)?;
        self.remove_chosen(choice);
        Ok(Change::Gone(gone))
    }

    /// Suspends those of the chosen rows that aren't suspended.
    fn suspend_pairs(
        &mut self,
        alloc: Global,
        choice: &Choice,
        at: Stamp,
    ) -> Result<Change, NoMemory>
        ensures change { IfOk result (λ change. change ≡ change_of no_names (Command.Suspend choice.now) self.old.rows) }
        ensures ok { OnOk result (self.new ≡ with_rows self.old (rows_after no_names at.0 (Command.Suspend choice.now) self.old.rows)) }
        ensures err { OnErr result (self.new ≡ self.old) }
        ensures again { (names : Naming) → MayCommand names self.old.rows → MayCommand names self.new.rows }
    {
        let devices = self.devices_to_suspend(alloc, choice)?;
        let state = PairState::Suspended {
            cause: SuspendCause::Command,
            since: at,
        };
        self.set_states(devices.as_slice(), state);
        Ok(Change::Suspended(devices))
    }

    /// Gives the rows of several devices another state.
    fn set_states(&mut self, devices: &[u16], state: PairState)
        requires { IsTrue (list_all (λ device. list_any (is_of device) self.old.rows) devices.now) }
        ensures { self.new ≡ with_rows self.old (with_states devices.now state self.old.rows) }
    {
        for device in devices {
            self.set_state(*device, state);
        }
    }
}

/// Whether the command starts a session.
fn is_start(command: &Command) -> bool
    ensures { result ≡ starts command.now }
{
    matches!(command, Command::Start { .. })
}

/// Why the row of a primary isn't resumed, if it isn't.
fn row_refusal(row: &PairRow, secondary: Serial) -> Option<Refusal>
    ensures { result ≡ refuses_row secondary row.now }
{
    if row.secondary != secondary {
        Some(Refusal::OtherSecondary)
    } else if !row.state.is_suspended() {
        Some(Refusal::AlreadyPaired)
    } else {
        None
    }
}

/// The row of a new pair, if both names are known.
fn new_row(
    names: &Names,
    primary: Serial,
    secondary: Serial,
    group: Option<Serial>,
) -> Option<PairRow>
    ensures row { result ≡ new_row_for secondary group (primary_of primary names.now) (labelled_device secondary names.now) }
    ensures rules { AreNamesSound names.now }
{
    let volume = names.volume_of(primary)?;
    let label = names.device_of(secondary)?;
    Some(PairRow {
        primary: volume.serial,
        secondary,
        control: volume.control,
        volume: volume.volume,
        device: label.device,
        cylinders: volume.cylinders,
        state: PairState::Pending,
        group,
    })
}
