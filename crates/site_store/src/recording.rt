//! A record put at the journal's end, after a switch where it doesn't fit.

ghost use Rattle.std.specs.Prelude.{◌≡◌, ◌≢◌, length, OnOk, IsErrOf};
ghost use Rattle.crash_plant.specs.declared.device.Device.TheVariants.{Journal as JournalDevice};
ghost use Rattle.crash_plant.specs.Calls.{WorksOn};
ghost use Rattle.xrc_journal.specs.Appending.{AllPutGroup, AllPutSwitch, GroupIsPut, IsOfSwitch, MayGrow, NextHasRoom, SwitchIsPut};
ghost use Rattle.xrc_journal.specs.Items.{body_spelling};
ghost use Rattle.xrc_journal.specs.Records.{next_set, spot_after, spot_in};
ghost use Rattle.xrc_journal.specs.RingWalks.{AllEndThrough};
ghost use Rattle.site_store.specs.declared.store_error.StoreError.TheVariants.{Spent};
ghost use Rattle.site_store.specs.declared.placement.Placement.TheVariants.{Here, Switched};
ghost use Rattle.site_store.specs.Causes.{HasStoreCause};
ghost use Rattle.site_store.specs.Recording.{MayPutRecord, ShowsRecord, group_in};
ghost use Rattle.site_store.specs.Records.{IsJournal};
ghost use Rattle.site_store.specs.Placements.{spot_after_record};

use crate::StoreError;
use crate::placement::Placement;
use crash_plant::{Device, Plant};
use tod_stamp::Stamp;
use xrc_journal::{AppendError, Body, Journal};

/// Puts a group at the journal's end, which has room for it.
fn put_group<P: Plant>(
    journal: &mut Journal,
    plant: &mut P,
    cut: Stamp,
    body: &Body,
) -> Result<(), StoreError>
    requires may { MayPutRecord P.tells Here journal.old.marked journal.old.at cut.0 body.now.items (P.state plant.old) }
    ensures moments { P.tells → AllPutGroup journal.old.marked journal.old.at (group_in cut body.now) (P.state plant.old) (P.state plant.new) }
    ensures put { P.tells → OnOk result (GroupIsPut journal.old.marked journal.old.at (group_in cut body.now) (P.state plant.old) (P.state plant.new)) }
    ensures at { OnOk result (journal.new.at ≡ spot_after journal.old.at (length (body_spelling body.now.items))) }
    ensures marked { journal.new.marked ≡ journal.old.marked }
    ensures only { WorksOn P.tells (λ d. d ≡ JournalDevice journal.old.at.set) (P.state plant.old) (P.state plant.new) }
    ensures cause { HasStoreCause (P.state plant.old).faults (P.state plant.new).faults result }
    ensures unspent { ¬ IsErrOf result Spent }
{
    match journal.append(plant, cut, body) {
        Ok(()) => Ok(()),
        Err(AppendError::Fault(set)) => Err(StoreError::Fault(Device::Journal(set))),
        Err(AppendError::NoRoom { .. }) => unreachable!(),
    }
}

/// Switches to the next data set, in which the mark that counts doesn't stand.
fn put_switch<P: Plant>(journal: &mut Journal, plant: &mut P, cut: Stamp) -> Result<(), StoreError>
    requires grows { MayGrow (P.state plant.old) journal.old.at }
    requires next { NextHasRoom (P.state plant.old) journal.old.at }
    requires free { next_set (P.state plant.old).journals journal.old.at.set ≢ journal.old.marked.set }
    requires ends { P.tells → AllEndThrough (P.state plant.old) journal.old.marked journal.old.at cut.0 }
    ensures moments { P.tells → AllPutSwitch journal.old.marked journal.old.at cut.0 (P.state plant.old) (P.state plant.new) }
    ensures put { P.tells → OnOk result (SwitchIsPut journal.old.marked journal.old.at cut.0 (P.state plant.old) (P.state plant.new)) }
    ensures at { OnOk result (journal.new.at ≡ spot_in (next_set (P.state plant.old).journals journal.old.at.set) journal.old.at) }
    ensures marked { journal.new.marked ≡ journal.old.marked }
    ensures only { WorksOn P.tells (IsOfSwitch (P.state plant.old).journals journal.old.at) (P.state plant.old) (P.state plant.new) }
    ensures cause { HasStoreCause (P.state plant.old).faults (P.state plant.new).faults result }
    ensures unspent { ¬ IsErrOf result Spent }
{
    match journal.switch(plant, cut) {
        Ok(()) => Ok(()),
        Err(AppendError::Fault(set)) => Err(StoreError::Fault(Device::Journal(set))),
        Err(AppendError::NoRoom { .. }) => unreachable!(),
    }
}

/// Switches to the next data set, and puts a group there.
fn put_switched<P: Plant>(
    journal: &mut Journal,
    plant: &mut P,
    cut: Stamp,
    body: &Body,
) -> Result<(), StoreError>
    requires may { MayPutRecord P.tells Switched journal.old.marked journal.old.at cut.0 body.now.items (P.state plant.old) }
    ensures shows { ShowsRecord P.tells Switched journal.old.marked journal.old.at (group_in cut body.now) (P.state plant.old) (P.state plant.new) result }
    ensures at { OnOk result (journal.new.at ≡ spot_after_record (P.state plant.old).journals Switched body.now.items journal.old.at) }
    ensures marked { journal.new.marked ≡ journal.old.marked }
    ensures only { WorksOn P.tells IsJournal (P.state plant.old) (P.state plant.new) }
    ensures cause { HasStoreCause (P.state plant.old).faults (P.state plant.new).faults result }
    ensures unspent { ¬ IsErrOf result Spent }
{
    put_switch(journal, plant, cut)?;
    put_group(journal, plant, cut, body)
}

/// Puts a group with this time and these items at the journal's end, by the placement that was found for it. A mark that had to come
/// first was made by then. After an error the journal may not be used again.
pub(crate) fn put_record<P: Plant>(
    journal: &mut Journal,
    plant: &mut P,
    cut: Stamp,
    body: &Body,
    placement: Placement,
) -> Result<(), StoreError>
    requires may { MayPutRecord P.tells placement journal.old.marked journal.old.at cut.0 body.now.items (P.state plant.old) }
    ensures shows { ShowsRecord P.tells placement journal.old.marked journal.old.at (group_in cut body.now) (P.state plant.old) (P.state plant.new) result }
    ensures at { OnOk result (journal.new.at ≡ spot_after_record (P.state plant.old).journals placement body.now.items journal.old.at) }
    ensures marked { journal.new.marked ≡ journal.old.marked }
    ensures only { WorksOn P.tells IsJournal (P.state plant.old) (P.state plant.new) }
    ensures cause { HasStoreCause (P.state plant.old).faults (P.state plant.new).faults result }
    ensures unspent { ¬ IsErrOf result Spent }
{
    match placement {
        Placement::Here => put_group(journal, plant, cut, body),
        Placement::Switched | Placement::Marked => put_switched(journal, plant, cut, body),
    }
}
