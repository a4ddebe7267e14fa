//! What stands at a spot of the journal.

ghost use Rattle.std.specs.Prelude.{◌≡◌, ◌≤◌, ◌<◌, ◌+◌, ◌-◌, ◌==◌, ◌^◌, [], ℕ, min, Some, IsSome, IfOk, slice_index, IsErrOf};
ghost use Rattle.crash_plant.specs.declared.layout.TheConstants.{SWITCH};
ghost use Rattle.xrc_edge.specs.Causes.{HasCause};
ghost use Rattle.crash_plant.specs.declared.device.Device.TheVariants.{Journal as JournalDevice};
ghost use Rattle.crash_plant.specs.Moments.{on, Follows, Same};
ghost use Rattle.crash_plant.specs.Calls.{IsThere, NoneLent, WorksOn};
ghost use Rattle.xrc_journal.specs.Records.{record_head_at, most_body, next_set, stretch, walk_one};
ghost use Rattle.xrc_journal.specs.Answers.{Finds, WalkGoesOn, NoFault, ReadsOnly, WalkCause, group_at, header_of, switch_at, told_of};
ghost use Rattle.xrc_journal.specs.Items.{AreItems, form_of};
ghost use Rattle.xrc_journal.specs.declared.spot.WalkError.TheVariants.{Fault as FaultError};
ghost use Rattle.tod_stamp.specs.declared.stamp.Stamp.{Stamp as StampValue};
ghost use Rattle.xrc_journal.specs.declared.header.RecordHeader.TheVariants.{Group as GroupHeader};

use crate::Body;
use crate::header::{RecordHeader, decode_header};
use crash_plant::{Device, FRONT, HEADER, Plant, Spot};
use tod_stamp::Stamp;
use xrc_edge::Failed;

/// What stands at a spot.
#[derive(Clone, Copy, Debug, PartialEq, Eq)]
pub enum Walked {
    /// No record.
    End,
    /// A group of this time, and the spot after it.
    Group { time: Stamp, after: Spot },
    /// A switch to the next data set, and the spot after it.
    Switch { time: Stamp, after: Spot },
}

/// Why there is no telling what stands at a spot.
#[derive(Clone, Copy, Debug, PartialEq, Eq)]
pub enum WalkError {
    /// At this place of the journal with this number a rule is broken.
    Damaged(u16, u64),
    /// The journal with this number has failed.
    Fault(u16),
}

/// Whether the gate at a spot is open.
fn read_gate<P: Plant>(plant: &mut P, at: Spot) -> Result<bool, Failed>
    requires there { IsThere (P.state plant.old) (JournalDevice at.set) }
    requires range { at.place < (P.state plant.old).lengths (JournalDevice at.set) }
    ensures gate { P.tells → IfOk result (λ is_open. is_open ≡ (slice_index ((P.state plant.old).bytes (JournalDevice at.set)) at.place == 1)) }
    ensures same { P.tells → (P.state plant.new).bytes (JournalDevice at.set) ≡ (P.state plant.old).bytes (JournalDevice at.set) }
    ensures moments { P.tells → Follows Same (on (P.state plant.old) (JournalDevice at.set)) (on (P.state plant.new) (JournalDevice at.set)) }
    ensures only { WorksOn P.tells (λ d. d ≡ JournalDevice at.set) (P.state plant.old) (P.state plant.new) }
    ensures cause { HasCause ((P.state plant.old).faults (JournalDevice at.set)) ((P.state plant.new).faults (JournalDevice at.set)) result }
{
    let mut gate = [0];
    plant.read(Device::Journal(at.set), at.place, &mut gate)?;
    Ok(gate[0] == 1)
}

/// What the header behind the gate at a spot says. None where it breaks a rule.
fn read_header<P: Plant>(
    plant: &mut P,
    at: Spot,
    last: Stamp,
) -> Result<Option<RecordHeader>, Failed>
    requires there { IsThere (P.state plant.old) (JournalDevice at.set) }
    requires range { at.place + FRONT ≤ (P.state plant.old).lengths (JournalDevice at.set) }
    requires fits { at.place + FRONT < 2 ^ 64 }
    ensures number { IfOk result (λ header. IsSome header → at.number < 2 ^ 64 - 1) }
    ensures room { IfOk result (λ header. (time : StampValue) (length : ℕ) → header ≡ Some (GroupHeader time length) → (length ≤ most_body) × (at.place + FRONT + length + SWITCH ≤ (P.state plant.old).lengths (JournalDevice at.set))) }
    ensures header { P.tells → IfOk result (λ header. header ≡ header_of (record_head_at ((P.state plant.old).lengths (JournalDevice at.set)) at last.0 (record { place = at.place + 1; bytes = stretch (at.place + 1) HEADER ((P.state plant.old).bytes (JournalDevice at.set)) }))) }
    ensures same { P.tells → (P.state plant.new).bytes (JournalDevice at.set) ≡ (P.state plant.old).bytes (JournalDevice at.set) }
    ensures moments { P.tells → Follows Same (on (P.state plant.old) (JournalDevice at.set)) (on (P.state plant.new) (JournalDevice at.set)) }
    ensures only { WorksOn P.tells (λ d. d ≡ JournalDevice at.set) (P.state plant.old) (P.state plant.new) }
    ensures cause { HasCause ((P.state plant.old).faults (JournalDevice at.set)) ((P.state plant.new).faults (JournalDevice at.set)) result }
{
    let device = Device::Journal(at.set);
    let mut bytes = [0; HEADER];
    plant.read(device, at.place + 1, &mut bytes)?;
    Ok(decode_header(&bytes, at, last, plant.length(device)))
}

/// Takes the items of the group at a spot, whose header has this time and this length of the body.
fn walk_group<P: Plant>(
    plant: &mut P,
    at: Spot,
    time: Stamp,
    length: u32,
    into: &mut Body,
) -> Result<Walked, WalkError>
    requires there { IsThere (P.state plant.old) (JournalDevice at.set) }
    requires home { NoneLent (P.state plant.old) }
    requires range { at.place + FRONT + length + SWITCH ≤ (P.state plant.old).lengths (JournalDevice at.set) }
    requires fits { at.place + FRONT + length < 2 ^ 64 }
    requires number { at.number < 2 ^ 64 - 1 }
    requires room { length ≤ into.old.room }
    ensures finds { P.tells → NoFault result → Finds at.set (group_at (form_of (P.state plant.old)) ((P.state plant.old).bytes (JournalDevice at.set)) at time.0 length) result into.old into.new }
    ensures room { into.new.room ≡ into.old.room }
    ensures goes_on { IfOk result (WalkGoesOn (P.state plant.old) at) }
    ensures keep { AreItems (form_of (P.state plant.old)) into.new.items }
    ensures empty { (j : ℕ) → IsErrOf result (FaultError j) → into.new.items ≡ [] }
    ensures cause { WalkCause at.set ((P.state plant.old).faults (JournalDevice at.set)) ((P.state plant.new).faults (JournalDevice at.set)) result }
    ensures only { ReadsOnly P.tells (JournalDevice at.set) (P.state plant.old) (P.state plant.new) }
{
    let place = at.place + FRONT;
    match into.fill(plant, Device::Journal(at.set), place, length) {
        Ok(None) => Ok(Walked::Group {
            time,
            after: Spot {
                set: at.set,
                place: place + u64::from(length),
                number: at.number + 1,
            },
        }),
        Ok(Some(place)) => Err(WalkError::Damaged(at.set, place)),
        Err(Failed) => Err(WalkError::Fault(at.set)),
    }
}

/// The data set after one of so many: one more, or 0 after the last.
pub(crate) fn next_set(sets: u16, set: u16) -> u16
    requires { set < sets }
    ensures { result ≡ next_set sets set }
{
    if set + 1 == sets { 0 } else { set + 1 }
}

/// The switch at a spot, whose header has this time.
fn walk_switch<P: Plant>(plant: &mut P, at: Spot, time: Stamp) -> Result<Walked, WalkError>
    requires there { at.set < (P.state plant.old).journals }
    requires range { at.place + FRONT ≤ (P.state plant.old).lengths (JournalDevice at.set) }
    requires fits { at.place + FRONT < 2 ^ 64 }
    requires number { at.number < 2 ^ 64 - 1 }
    ensures goes_on { IfOk result (WalkGoesOn (P.state plant.old) at) }
    ensures told { P.tells → NoFault result → result ≡ told_of at.set (switch_at (P.state plant.old).journals ((P.state plant.old).bytes (JournalDevice at.set)) at time.0) }
    ensures cause { WalkCause at.set ((P.state plant.old).faults (JournalDevice at.set)) ((P.state plant.new).faults (JournalDevice at.set)) result }
    ensures only { ReadsOnly P.tells (JournalDevice at.set) (P.state plant.old) (P.state plant.new) }
{
    let device = Device::Journal(at.set);
    let place = at.place + FRONT;
    if plant.length(device) - place < 2 {
        return Err(WalkError::Damaged(at.set, at.place));
    }
    let set = next_set(plant.journals(), at.set);
    let mut target = [0; 2];
    match plant.read(device, place, &mut target) {
        Ok(()) => {
            if u16::from_be_bytes(target) != set {
                return Err(WalkError::Damaged(at.set, at.place));
            }
            let after = Spot {
                set,
                place: 0,
                number: at.number + 1,
            };
            Ok(Walked::Switch { time, after })
        }
        Err(Failed) => Err(WalkError::Fault(at.set)),
    }
}

/// What stands behind the open gate at a spot.
fn walk_open<P: Plant>(
    plant: &mut P,
    at: Spot,
    last: Stamp,
    into: &mut Body,
) -> Result<Walked, WalkError>
    requires there { at.set < (P.state plant.old).journals }
    requires home { NoneLent (P.state plant.old) }
    requires range { at.place < (P.state plant.old).lengths (JournalDevice at.set) }
    requires room { min ((P.state plant.old).lengths (JournalDevice at.set)) most_body ≤ into.old.room }
    requires empty { into.old.items ≡ [] }
    requires gate { P.tells → slice_index ((P.state plant.old).bytes (JournalDevice at.set)) at.place ≡ 1 }
    ensures finds { P.tells → NoFault result → Finds at.set (walk_one (form_of (P.state plant.old)) (P.state plant.old).journals ((P.state plant.old).bytes (JournalDevice at.set)) at last.0) result into.old into.new }
    ensures room { into.new.room ≡ into.old.room }
    ensures goes_on { IfOk result (WalkGoesOn (P.state plant.old) at) }
    ensures keep { AreItems (form_of (P.state plant.old)) into.new.items }
    ensures empty { (j : ℕ) → IsErrOf result (FaultError j) → into.new.items ≡ [] }
    ensures cause { WalkCause at.set ((P.state plant.old).faults (JournalDevice at.set)) ((P.state plant.new).faults (JournalDevice at.set)) result }
    ensures only { ReadsOnly P.tells (JournalDevice at.set) (P.state plant.old) (P.state plant.new) }
{
    if plant.length(Device::Journal(at.set)) - at.place < FRONT {
        return Err(WalkError::Damaged(at.set, at.place));
    }
    match read_header(plant, at, last) {
        Ok(Some(RecordHeader::Group { time, length })) => walk_group(plant, at, time, length, into),
        Ok(Some(RecordHeader::Switch { time })) => walk_switch(plant, at, time),
        Ok(None) => Err(WalkError::Damaged(at.set, at.place)),
        Err(Failed) => Err(WalkError::Fault(at.set)),
    }
}

/// What stands at a spot of the journal, where `last` is the time of the record before it. The items of a group are taken; where
/// one of them is damaged, those before it. It takes no memory.
pub fn walk<P: Plant>(
    plant: &mut P,
    at: Spot,
    last: Stamp,
    into: &mut Body,
) -> Result<Walked, WalkError>
    requires there { at.set < (P.state plant.old).journals }
    requires home { NoneLent (P.state plant.old) }
    requires range { at.place < (P.state plant.old).lengths (JournalDevice at.set) }
    requires room { min ((P.state plant.old).lengths (JournalDevice at.set)) most_body ≤ into.old.room }
    // What a read gives is walked by the rules on one record.
    ensures finds { P.tells → NoFault result → Finds at.set (walk_one (form_of (P.state plant.old)) (P.state plant.old).journals ((P.state plant.old).bytes (JournalDevice at.set)) at last.0) result into.old into.new }
    ensures room { into.new.room ≡ into.old.room }
    // Whatever a read gave, the spot after a record lies in a journal, and the items keep the rules of the plant.
    ensures goes_on { IfOk result (WalkGoesOn (P.state plant.old) at) }
    ensures keep { AreItems (form_of (P.state plant.old)) into.new.items }
    // After a fault no items are held.
    ensures empty { (j : ℕ) → IsErrOf result (FaultError j) → into.new.items ≡ [] }
    // Why it fails.
    ensures cause { WalkCause at.set ((P.state plant.old).faults (JournalDevice at.set)) ((P.state plant.new).faults (JournalDevice at.set)) result }
    // What reads give stays, and a crash leaves nothing on this journal that it couldn't leave before.
    ensures only { ReadsOnly P.tells (JournalDevice at.set) (P.state plant.old) (P.state plant.new) }
{
    into.clear();
    match read_gate(plant, at) {
        Ok(true) => walk_open(plant, at, last, into),
        Ok(false) => Ok(Walked::End),
        Err(Failed) => Err(WalkError::Fault(at.set)),
    }
}
