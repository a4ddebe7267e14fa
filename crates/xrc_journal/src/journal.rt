//! Records put at the journal's end.

ghost use Rattle.std.specs.Prelude.{◌≡◌, ◌≤◌, ◌<◌, ◌+◌, ◌-◌, ◌^◌, ◌++◌, ℕ, length, OnOk, OnErr, IsErrOf};
ghost use Rattle.crash_plant.specs.declared.layout.TheConstants.{SWITCH};
ghost use Rattle.xrc_edge.specs.Causes.{HasCause};
ghost use Rattle.crash_plant.specs.declared.device.Device.TheVariants.{Journal as JournalDevice};
ghost use Rattle.crash_plant.specs.Bytes.{patched, Torn};
ghost use Rattle.crash_plant.specs.Moments.{on, Follows, IsDurable};
ghost use Rattle.crash_plant.specs.Calls.{IsThere, WorksOn};
ghost use Rattle.xrc_journal.specs.declared.journal.AppendError.TheVariants.{NoRoom, Fault};
ghost use Rattle.xrc_journal.specs.Items.{body_spelling, form_of};
ghost use Rattle.xrc_journal.specs.Records.{record_header_spelling, switch_spelling, most_body, next_set, spot_after, spot_in};
ghost use Rattle.xrc_journal.specs.Walks.{Logged};
ghost use Rattle.xrc_journal.specs.RingWalks.{AllEndThrough};
ghost use Rattle.xrc_journal.specs.Appending.{AllPutGroup, AllPutRecord, AllPutSwitch, GroupIsPut, GrowCause, IsOfSwitch, IsShutAt, IsWholeBody};
ghost use Rattle.xrc_journal.specs.Appending.{IsWritten, MayGrow, NextHasRoom, PutsBody, RefusesGroup, RefusesSwitch, SwitchIsPut, group_behind_gate, room_for};

use crate::Body;
use crate::layout::{AROUND, BEHIND_GATE};
use crate::spot::next_set;
use byteorder::{BigEndian, ByteOrder};
use crash_plant::{Device, FRONT, HEADER, Plant, Spot, put_down};
use tod_stamp::Stamp;
use xrc_edge::Failed;

/// Where the journal stands: the spot of the next record, and the spot from which the records count.
#[derive(Clone, Copy, Debug, PartialEq, Eq)]
pub struct Journal {
    pub at: Spot,
    pub marked: Spot,
}

/// Why a record was not put at the end.
#[derive(Clone, Copy, Debug, PartialEq, Eq)]
pub enum AppendError {
    /// It needs more bytes than are left in the data set, with those for a switch after it.
    NoRoom { needed: u64, free: u64 },
    /// The journal with this number has failed.
    Fault(u16),
}

/// What stands between the gate and the body of a group.
fn header(number: u64, time: Stamp, length: u32) -> [u8; HEADER]
    ensures spelled { result ≡ record_header_spelling 1 number time.0 length }
    ensures stamp { time.0 < 2 ^ 64 }
{
    let mut bytes = [1; HEADER];
    BigEndian::write_u64(&mut bytes[1..9], number);
    BigEndian::write_u64(&mut bytes[9..17], time.0);
    BigEndian::write_u32(&mut bytes[17..21], length);
    bytes
}

/// Writes two parts one after the other, and syncs them. Where it fails, their range may hold any bytes.
fn put_both<P: Plant>(
    plant: &mut P,
    device: Device,
    place: u64,
    front: &[u8],
    back: &[u8],
) -> Result<(), Failed>
    requires there { IsThere (P.state plant.old) device }
    requires range { place + length front.now + length back.now ≤ (P.state plant.old).lengths device }
    requires fits { (P.state plant.old).lengths device < 2 ^ 64 }
    ensures written { P.tells → OnOk result ((P.state plant.new).bytes device ≡ patched place (front.now ++ back.now) ((P.state plant.old).bytes device)) }
    ensures durable { P.tells → OnOk result (IsDurable (on (P.state plant.new) device)) }
    ensures moments { P.tells → Follows (Torn place (length front.now + length back.now)) (on (P.state plant.old) device) (on (P.state plant.new) device) }
    ensures only { WorksOn P.tells (λ d. d ≡ device) (P.state plant.old) (P.state plant.new) }
    ensures cause { HasCause ((P.state plant.old).faults device) ((P.state plant.new).faults device) result }
{
    plant.write(device, place, front)?;
    put_down(plant, device, place + front.len() as u64, back)
}

/// What stands between the gate of a switch and the record after it.
fn switch_bytes(number: u64, time: Stamp, set: u16) -> [u8; BEHIND_GATE]
    ensures spelled { result ≡ switch_spelling number time.0 set }
    ensures stamp { time.0 < 2 ^ 64 }
{
    let mut bytes = [2; BEHIND_GATE];
    BigEndian::write_u64(&mut bytes[1..9], number);
    BigEndian::write_u64(&mut bytes[9..17], time.0);
    BigEndian::write_u32(&mut bytes[17..21], 2);
    BigEndian::write_u16(&mut bytes[21..23], set);
    bytes
}

/// Puts a group at a spot, with a closed gate after it.
fn put_group<P: Plant>(plant: &mut P, at: Spot, cut: Stamp, body: &Body) -> Result<(), Failed>
    requires there { IsThere (P.state plant.old) (JournalDevice at.set) }
    requires fits { (P.state plant.old).lengths (JournalDevice at.set) < 2 ^ 64 }
    requires short { length (body_spelling body.now.items) ≤ most_body }
    requires room { at.place + room_for body.now.items ≤ (P.state plant.old).lengths (JournalDevice at.set) }
    requires shut { P.tells → IsShutAt at.place (on (P.state plant.old) (JournalDevice at.set)) }
    ensures moments { P.tells → AllPutRecord (room_for body.now.items) at (group_behind_gate at cut.0 body.now.items) (P.state plant.old) (P.state plant.new) }
    ensures written { P.tells → OnOk result (IsWritten at (group_behind_gate at cut.0 body.now.items) (P.state plant.old) (P.state plant.new)) }
    ensures durable { P.tells → OnOk result (IsDurable (on (P.state plant.new) (JournalDevice at.set))) }
    ensures stamp { cut.0 < 2 ^ 64 }
    ensures only { WorksOn P.tells (λ d. d ≡ JournalDevice at.set) (P.state plant.old) (P.state plant.new) }
    ensures cause { HasCause ((P.state plant.old).faults (JournalDevice at.set)) ((P.state plant.new).faults (JournalDevice at.set)) result }
{
    let device = Device::Journal(at.set);
    let header = header(at.number, cut, body.bytes().len() as u32);
    put_both(plant, device, at.place + 1, &header, body.shut_bytes())?;
    put_down(plant, device, at.place, &[1])
}

/// Puts a switch at a spot. The first gate of the data set to which it leads is closed already.
fn put_switch<P: Plant>(plant: &mut P, at: Spot, cut: Stamp, set: u16) -> Result<(), Failed>
    requires there { IsThere (P.state plant.old) (JournalDevice at.set) }
    requires room { at.place + SWITCH ≤ (P.state plant.old).lengths (JournalDevice at.set) }
    requires shut { P.tells → IsShutAt at.place (on (P.state plant.old) (JournalDevice at.set)) }
    ensures moments { P.tells → AllPutRecord SWITCH at (switch_spelling at.number cut.0 set) (P.state plant.old) (P.state plant.new) }
    ensures written { P.tells → OnOk result (IsWritten at (switch_spelling at.number cut.0 set) (P.state plant.old) (P.state plant.new)) }
    ensures durable { P.tells → OnOk result (IsDurable (on (P.state plant.new) (JournalDevice at.set))) }
    ensures stamp { cut.0 < 2 ^ 64 }
    ensures only { WorksOn P.tells (λ d. d ≡ JournalDevice at.set) (P.state plant.old) (P.state plant.new) }
    ensures cause { HasCause ((P.state plant.old).faults (JournalDevice at.set)) ((P.state plant.new).faults (JournalDevice at.set)) result }
{
    let device = Device::Journal(at.set);
    let length = plant.length(device);
    // The spot lies in its data set.
    prove!(at.place < length);
    let behind = switch_bytes(at.number, cut, set);
    put_down(plant, device, at.place + 1, &behind)?;
    put_down(plant, device, at.place, &[1])
}

/// Puts a group at a spot if it fits the rest of the data set.
fn put_fitting<P: Plant>(
    plant: &mut P,
    at: Spot,
    cut: Stamp,
    body: &Body,
) -> Result<(), AppendError>
    requires grows { MayGrow (P.state plant.old) at }
    requires short { length (body_spelling body.now.items) ≤ most_body }
    requires shut { P.tells → IsShutAt at.place (on (P.state plant.old) (JournalDevice at.set)) }
    ensures put { PutsBody P.tells at cut.0 body.now.items (P.state plant.old) (P.state plant.new) result }
    ensures untouched { (needed free : ℕ) → IsErrOf result (NoRoom needed free) → plant.new ≡ plant.old }
{
    let length = body.bytes().len() as u64;
    let needed = AROUND + length;
    let free = plant.length(Device::Journal(at.set)) - at.place;
    if free < needed {
        return Err(AppendError::NoRoom { needed, free });
    }
    match put_group(plant, at, cut, body) {
        Ok(()) => Ok(()),
        Err(Failed) => Err(AppendError::Fault(at.set)),
    }
}

/// Closes the first gate of the next data set, and then puts a switch to it at the journal's end.
fn put_next<P: Plant>(
    plant: &mut P,
    journal: Journal,
    cut: Stamp,
    set: u16,
) -> Result<(), AppendError>
    requires grows { MayGrow (P.state plant.old) journal.at }
    requires next { set ≡ next_set (P.state plant.old).journals journal.at.set }
    requires room { SWITCH ≤ (P.state plant.old).lengths (JournalDevice set) }
    requires fresh { ¬ (set ≡ journal.marked.set) }
    requires ends { P.tells → AllEndThrough (P.state plant.old) journal.marked journal.at cut.0 }
    ensures moments { P.tells → AllPutSwitch journal.marked journal.at cut.0 (P.state plant.old) (P.state plant.new) }
    ensures put { P.tells → OnOk result (SwitchIsPut journal.marked journal.at cut.0 (P.state plant.old) (P.state plant.new)) }
    ensures only { WorksOn P.tells (IsOfSwitch (P.state plant.old).journals journal.at) (P.state plant.old) (P.state plant.new) }
    ensures cause { GrowCause (IsOfSwitch (P.state plant.old).journals journal.at) (P.state plant.old) (P.state plant.new) result }
    ensures not_full { (needed free : ℕ) → ¬ IsErrOf result (NoRoom needed free) }
{
    let Ok(()) = put_down(plant, Device::Journal(set), 0, &[0]) else {
        return Err(AppendError::Fault(set));
    };
    match put_switch(plant, journal.at, cut, set) {
        Ok(()) => Ok(()),
        Err(Failed) => Err(AppendError::Fault(journal.at.set)),
    }
}

impl Journal {
    /// Puts a group at the end if it fits there.
    fn put_at_end<P: Plant>(
        &mut self,
        plant: &mut P,
        cut: Stamp,
        body: &Body,
    ) -> Result<(), AppendError>
        requires grows { MayGrow (P.state plant.old) self.old.at }
        requires short { length (body_spelling body.now.items) ≤ most_body }
        requires shut { P.tells → IsShutAt self.old.at.place (on (P.state plant.old) (JournalDevice self.old.at.set)) }
        ensures put { PutsBody P.tells self.old.at cut.0 body.now.items (P.state plant.old) (P.state plant.new) result }
        ensures at { OnOk result (self.new.at ≡ spot_after self.old.at (length (body_spelling body.now.items))) }
        ensures marked { self.new.marked ≡ self.old.marked }
        ensures err { OnErr result (self.new ≡ self.old) }
        ensures untouched { (needed free : ℕ) → IsErrOf result (NoRoom needed free) → plant.new ≡ plant.old }
    {
        match put_fitting(plant, self.at, cut, body) {
            Ok(()) => {
                self.at.place += FRONT + body.bytes().len() as u64;
                self.at.number += 1;
                Ok(())
            }
            Err(cause) => Err(cause),
        }
    }

    /// Puts a group with this time and these items at the end. It takes no memory. After a `Fault` the journal may not be used
    /// again.
    pub fn append<P: Plant>(
        &mut self,
        plant: &mut P,
        cut: Stamp,
        body: &Body,
    ) -> Result<(), AppendError>
        requires grows { MayGrow (P.state plant.old) self.old.at }
        requires body { IsWholeBody (form_of (P.state plant.old)) body.now.items }
        // Whatever a crash may leave, the walk from the mark is defined, and ends at the spot with no time above the cut.
        requires ends { P.tells → AllEndThrough (P.state plant.old) self.old.marked self.old.at cut.0 }
        // At every moment of the call the walk is the old one or has the group at its end, and nothing else has changed.
        ensures moments { let g : Logged = record { time = cut.0; items = body.now.items } in
            P.tells → AllPutGroup self.old.marked self.old.at g (P.state plant.old) (P.state plant.new) }
        // After Ok it has, whatever a crash may leave, and ends at the new spot.
        ensures put { let g : Logged = record { time = cut.0; items = body.now.items } in
            P.tells → OnOk result (GroupIsPut self.old.marked self.old.at g (P.state plant.old) (P.state plant.new)) }
        ensures at { OnOk result (self.new.at ≡ spot_after self.old.at (length (body_spelling body.now.items))) }
        ensures marked { self.new.marked ≡ self.old.marked }
        ensures err { OnErr result (self.new ≡ self.old) }
        // All else is as before, on all devices and the console.
        ensures others { WorksOn P.tells (λ d. d ≡ JournalDevice self.old.at.set) (P.state plant.old) (P.state plant.new) }
        // Why it fails.
        ensures cause { GrowCause (λ d. d ≡ JournalDevice self.old.at.set) (P.state plant.old) (P.state plant.new) result }
        ensures no_room { RefusesGroup (P.state plant.old) self.old.at body.now.items result }
        ensures untouched { (needed free : ℕ) → IsErrOf result (NoRoom needed free) → plant.new ≡ plant.old }
    {
        self.put_at_end(plant, cut, body)
    }

    /// Puts a switch to the next data set at the end, with the first gate of that set closed. It takes no memory. After a `Fault`
    /// the journal may not be used again.
    pub fn switch<P: Plant>(&mut self, plant: &mut P, cut: Stamp) -> Result<(), AppendError>
        requires grows { MayGrow (P.state plant.old) self.old.at }
        requires next { NextHasRoom (P.state plant.old) self.old.at }
        // Whatever a crash may leave, the walk from the mark is defined, and ends at the spot with no time above the cut.
        requires ends { P.tells → AllEndThrough (P.state plant.old) self.old.marked self.old.at cut.0 }
        // At every moment of the call the walk is the old one or has the switch at its end, and nothing else has changed.
        ensures moments { P.tells → AllPutSwitch self.old.marked self.old.at cut.0 (P.state plant.old) (P.state plant.new) }
        // After Ok it has, whatever a crash may leave, and ends at the new spot.
        ensures put { P.tells → OnOk result (SwitchIsPut self.old.marked self.old.at cut.0 (P.state plant.old) (P.state plant.new)) }
        ensures at { OnOk result (self.new.at ≡ spot_in (next_set (P.state plant.old).journals self.old.at.set) self.old.at) }
        ensures marked { self.new.marked ≡ self.old.marked }
        ensures err { OnErr result (self.new ≡ self.old) }
        // All else is as before, on all devices and the console.
        ensures others { WorksOn P.tells (IsOfSwitch (P.state plant.old).journals self.old.at) (P.state plant.old) (P.state plant.new) }
        // Why it fails.
        ensures cause { GrowCause (IsOfSwitch (P.state plant.old).journals self.old.at) (P.state plant.old) (P.state plant.new) result }
        ensures no_room { RefusesSwitch (P.state plant.old) self.old.marked self.old.at result }
        ensures untouched { (needed free : ℕ) → IsErrOf result (NoRoom needed free) → plant.new ≡ plant.old }
    {
        let set = next_set(plant.journals(), self.at.set);
        if set == self.marked.set {
            let needed = plant.length(Device::Journal(set));
            return Err(AppendError::NoRoom { needed, free: 0 });
        }
        match put_next(plant, *self, cut, set) {
            Ok(()) => {
                let number = self.at.number + 1;
                self.at = Spot {
                    set,
                    place: 0,
                    number,
                };
                Ok(())
            }
            Err(cause) => Err(cause),
        }
    }
}
