//! The table of a session's pairs.

ghost use Rattle.std.specs.Prelude.{◌≡◌, ◌≤◌, ◌↔◌, [], length, filter, not, nat_le, slice_get, true, IfOk, IsSome, IfSome, OnOk, OnErr, IsTrue};
ghost use Rattle.std.specs.List.{All, list_any};
ghost use Rattle.std.specs.Option.{option_copied};
ghost use Rattle.pair_table.specs.Commands.{devices_of, is_chosen, is_to_suspend};
ghost use Rattle.pair_table.specs.Refusals.{is_pair, row_of_primary};
ghost use Rattle.pair_table.specs.Rows.{is_group, keeps_row_rules};
ghost use Rattle.pair_table.specs.Tables.{most_rows, new_table, with_rows, row_of, HasRow, with_row, without_row, with_resumed, with_state, clashes_apart, AreRowsSound, MayPut, are_below};

use crate::command::{Choice, DeviceList};
use crate::limits::MOST_ROWS;
use crate::row::{PairRow, PairState};
use indexmap::IndexMap;
use std::alloc::Global;
use std::marker::Model;
use tod_stamp::{Serial, Session};
use xrc_edge::NoMemory;

/// A group, whose name is a serial.
fn named(group: Option<Serial>) -> Option<Serial>
    ensures same { result ≡ group }
    ensures valid { IsTrue (is_group result) }
{
    match group {
        Some(name) => {
            // No serial is empty.
            prove!(!name.as_bytes().is_empty());
            Some(name)
        }
        None => None,
    }
}

/// The pairs of a session. Contracts see the session, whether it is started, whether it has ended, and the rows in order of adding.
#[derive(Drop)]
pub struct PairTable {
    session: Session,
    started: bool,
    ended: bool,
    rows: IndexMap<u16, PairRow>,
}

impl Model for PairTable {
    ghost use Rattle.std.specs.HashMap.{values};
    ghost use Rattle.pair_table.specs.Tables.{Table};
    ghost use Rattle.pair_table.specs.Maps.{IsMapSound};

    ghost Value = { Table };

    ghost view = { λ table. record { session = table.session; is_started = table.started; is_ended = table.ended; rows = values table.rows } };

    ghost invariant = { λ table. IsMapSound table.rows.entries };
}

impl PairTable {
    /// The table of a session that isn't started and has no rows.
    pub fn make(alloc: Global, session: Session) -> Result<PairTable, NoMemory>
        ensures { IfOk result (λ table. table ≡ new_table session) }
    {
        Ok(PairTable {
            session,
            started: false,
            ended: false,
            rows: IndexMap::with_capacity(alloc, MOST_ROWS)?,
        })
    }

    /// The session whose pairs these are.
    pub fn session(&self) -> Session
        ensures { result ≡ self.now.session }
    {
        self.session
    }

    /// The number of rows.
    pub fn len(&self) -> u16
        ensures count { result ≡ length self.now.rows }
        ensures rules { AreRowsSound self.now.rows }
    {
        self.rows.len() as u16
    }

    /// The rows in order of adding.
    pub fn rows(&self) -> &[PairRow]
        ensures rows { result.now ≡ self.now.rows }
        ensures sound { AreRowsSound self.now.rows }
        ensures rules { All (λ row. IsTrue (keeps_row_rules row)) self.now.rows }
    {
        self.rows.values().as_slice()
    }

    /// The row at a place, counted from 0, in order of adding. None exactly where none stands there.
    pub fn row(&self, place: u16) -> Option<&PairRow>
        ensures row { option_copied result ≡ slice_get self.now.rows place }
        ensures rules { IfSome result (λ row. IsTrue (keeps_row_rules row.now)) }
    {
        let (_, row) = self.rows.get_index(place as usize)?;
        Some(row)
    }

    /// The device's row. None exactly where it has none.
    pub fn row_of(&self, device: u16) -> Option<&PairRow>
        ensures row { option_copied result ≡ row_of device self.now.rows }
        ensures found { IsSome result ↔ HasRow device self.now.rows }
        ensures rules { IfSome result (λ row. IsTrue (keeps_row_rules row.now)) }
    {
        self.rows.get(&device)
    }

    /// The primary's row. None exactly where it has none.
    pub(crate) fn row_of_primary(&self, primary: Serial) -> Option<&PairRow>
        ensures row { option_copied result ≡ row_of_primary primary self.now.rows }
        ensures rules { AreRowsSound self.now.rows }
    {
        self.rows.values().find(|row| row.primary == primary)
    }

    /// Whether a row is of this primary and this secondary.
    pub(crate) fn has_pair(&self, primary: Serial, secondary: Serial) -> bool
        ensures { result ≡ list_any (is_pair primary secondary) self.now.rows }
    {
        self.rows
            .values()
            .any(|row| row.primary == primary && row.secondary == secondary)
    }

    /// The devices of the chosen rows.
    pub(crate) fn chosen_devices(
        &self,
        alloc: Global,
        choice: &Choice,
    ) -> Result<DeviceList, NoMemory>
        ensures { IfOk result (λ devices. devices ≡ devices_of (filter (is_chosen choice.now) self.now.rows)) }
    {
        let devices: Vec<u16> = self
            .rows
            .values()
            .filter(|row| choice.names(row))
            .map(|row| row.device)
            .collect(alloc)?;
        Ok(DeviceList::of(devices))
    }

    /// The devices of the chosen rows that aren't suspended.
    pub(crate) fn devices_to_suspend(
        &self,
        alloc: Global,
        choice: &Choice,
    ) -> Result<DeviceList, NoMemory>
        ensures devices { IfOk result (λ devices. devices ≡ devices_of (filter (is_to_suspend choice.now) self.now.rows)) }
        ensures rules { AreRowsSound self.now.rows }
    {
        let devices: Vec<u16> = self
            .rows
            .values()
            .filter(|row| choice.suspends(row))
            .map(|row| row.device)
            .collect(alloc)?;
        Ok(DeviceList::of(devices))
    }

    /// Whether each row's device is below this number of devices, as those of a plant with so many volumes are.
    pub fn are_devices_below(&self, count: u16) -> bool
        ensures { result ≡ are_below count self.now.rows }
    {
        self.rows.values().all(|row| row.device < count)
    }

    /// Whether the session is started.
    pub(crate) fn is_started(&self) -> bool
        ensures { result ≡ self.now.is_started }
    {
        self.started
    }

    /// Whether the session has ended.
    pub(crate) fn has_ended(&self) -> bool
        ensures { result ≡ self.now.is_ended }
    {
        self.ended
    }

    /// Starts the session.
    pub fn start(&mut self)
        ensures { self.new ≡ record self.old { is_started = true } }
    {
        self.started = true;
    }

    /// Starts the session, without rows.
    pub(crate) fn start_empty(&mut self)
        ensures { self.new ≡ record self.old { is_started = true; rows = [] } }
    {
        self.started = true;
        self.rows.clear();
    }

    /// Ends the session.
    pub(crate) fn end(&mut self)
        ensures { self.new ≡ record self.old { is_ended = true } }
    {
        self.ended = true;
    }

    /// Gives the device's row another state.
    pub fn set_state(&mut self, device: u16, state: PairState)
        requires { HasRow device self.old.rows }
        ensures { self.new ≡ with_rows self.old (with_state device state self.old.rows) }
    {
        if let Some(row) = self.rows.get_mut(&device) {
            row.state = state;
        }
    }

    /// Makes the device's row pending, in a group or in none.
    pub(crate) fn resume(&mut self, device: u16, group: Option<Serial>)
        requires { HasRow device self.old.rows }
        ensures { self.new ≡ with_rows self.old (with_resumed device group self.old.rows) }
    {
        let group = named(group);
        if let Some(row) = self.rows.get_mut(&device) {
            row.state = PairState::Pending;
            row.group = group;
        }
    }

    /// Whether a row may be put: it is in its ranges, no row of another device has its primary or its controller and volume, and with
    /// it there are at most `MOST_ROWS` rows.
    pub fn may_put(&self, row: &PairRow) -> bool
        ensures { IsTrue result ↔ MayPut row.now self.now.rows }
    {
        row.keeps_rules() && self.has_place(row) && !self.clashes(row)
    }

    /// Whether there are at most `MOST_ROWS` rows with this one.
    fn has_place(&self, row: &PairRow) -> bool
        ensures { result ≡ nat_le (length (with_row row.now self.now.rows)) most_rows }
    {
        self.rows.contains_key(&row.device) || self.rows.len() < MOST_ROWS
    }

    /// Whether a row of another device clashes with this one.
    fn clashes(&self, row: &PairRow) -> bool
        ensures found { result ≡ list_any (clashes_apart row.now) self.now.rows }
        ensures rules { AreRowsSound self.now.rows }
    {
        self.rows
            .values()
            .any(|other| other.device != row.device && row.clashes(other))
    }

    /// Puts a row in the place of its device's row, or after all rows where the device has none. After an error the table is as
    /// before.
    pub fn put_row(&mut self, _alloc: Global, row: PairRow) -> Result<(), NoMemory>
        requires { MayPut row self.old.rows }
        ensures ok { OnOk result (self.new ≡ with_rows self.old (with_row row self.old.rows)) }
        ensures err { OnErr result (self.new ≡ self.old) }
    {
        // No serial is empty.
        prove!(!row.primary.as_bytes().is_empty());
        prove!(!row.secondary.as_bytes().is_empty());
        prove!(named(row.group) == row.group);
        self.rows.insert(row.device, row)?;
        Ok(())
    }

    /// Takes out the device's row, if it has one. The others close up in their order.
    pub fn remove(&mut self, device: u16)
        ensures { self.new ≡ with_rows self.old (without_row device self.old.rows) }
    {
        self.rows.shift_remove(&device);
    }

    /// Takes out the chosen rows. The others close up in their order.
    pub(crate) fn remove_chosen(&mut self, choice: &Choice)
        ensures { self.new ≡ with_rows self.old (filter (λ r. not (is_chosen choice.now r)) self.old.rows) }
    {
        self.rows.retain(|_, row| !choice.names(row));
    }
}
