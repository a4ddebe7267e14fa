//! The examination of a site.

ghost use Rattle.std.specs.Prelude.{◌≡◌, ◌≤◌, ◌<◌, ℕ, IfOk, IsErrOf, IsTrue, OnOk, Err, None, Some};
ghost use Rattle.crash_plant.specs.declared.layout.TheConstants.{CONTROL_LENGTH, STATE_LENGTH};
ghost use Rattle.crash_plant.specs.declared.device.Device.{Device as AnyDevice};
ghost use Rattle.crash_plant.specs.declared.device.Device.TheVariants.{Control, Journal, State};
ghost use Rattle.crash_plant.specs.Moments.{IsDurable, on};
ghost use Rattle.crash_plant.specs.Calls.{NoneLent};
ghost use Rattle.site_means.specs.declared.reading.FirstRead.TheVariants.{Synced};
ghost use Rattle.pair_table.specs.Tables.{are_below};
ghost use Rattle.state_set.specs.Slots.{started_table};
ghost use Rattle.site_means.specs.declared.site_error.SiteError.{SiteError as SiteErrorValue};
ghost use Rattle.site_means.specs.declared.site_error.SiteError.TheVariants.{Fault, TooSmall};
ghost use Rattle.site_means.specs.Meaning.{meaning};
ghost use Rattle.site_means.specs.Answers.{FaultsAreCounted, HasSpot, IsChosen, IsStore, IsInTurn, IsOfControl, IsReadingOf, IsOfState, IsRead, IsStored, ReadsAll, RestDurable, AnswersMeaning, TellsMeaning, WhereTold, first_short, need};

use crate::lengths::{first_short, longest_body, need};
use crate::reading::{FirstRead, SiteReading, settle};
use crate::walking::Walking;
use crate::{Means, SiteError};
use control_set::{ChooseError, Mark, choose};
use crash_plant::{Device, Plant};
use pair_table::{Level, PairTable};
use state_set::{StateError, get};
use std::alloc::Global;
use xrc_journal::Body;

/// That the control, the state and each journal have the bytes that they need, before any of them is
/// read. The first that has fewer is answered TooSmall, with its need.
pub fn check_lengths<P: Plant>(plant: &P) -> Result<(), SiteError>
    ensures ok { OnOk result (first_short (P.state plant.now) ≡ None) }
    ensures error { (e : SiteErrorValue) → IsErrOf result e → (d : AnyDevice) × (first_short (P.state plant.now) ≡ Some d) × (e ≡ TooSmall d (need d)) }
{
    match first_short(plant) {
        Some(device) => Err(SiteError::TooSmall(device, need(device))),
        None => Ok(()),
    }
}

/// The mark that counts by what reads of the control give.
fn find_mark<P: Plant>(plant: &mut P) -> Result<Mark, SiteError>
    requires { CONTROL_LENGTH ≤ (P.state plant.old).lengths Control }
    ensures says { P.tells → AnswersMeaning (λ mark. IsChosen (P.state plant.old) mark) (meaning (P.state plant.old) (P.state plant.old).bytes) result }
    // Whatever a read gave, the mark names state slot 0 or 1, and its spot lies in a journal.
    ensures slot { IfOk result (λ mark. mark.state_slot ≤ 1) }
    ensures spot { IfOk result (λ mark. HasSpot (P.state plant.old) mark.at) }
    ensures wrong { (e : SiteErrorValue) → IsErrOf result e → IsOfControl e }
    ensures cause { FaultsAreCounted (P.state plant.old).faults (P.state plant.new).faults result }
    ensures others { ReadsAll P.tells (P.state plant.old) (P.state plant.new) }
{
    match choose(plant) {
        Ok(Some(mark)) => Ok(mark),
        Ok(None) => Err(SiteError::NoSession),
        Err(ChooseError::Damaged(place)) => Err(SiteError::Damaged(Device::Control, place)),
        Err(ChooseError::Fault) => Err(SiteError::Fault(Device::Control)),
    }
}

/// The mark that counts: the first step of an examination after that of the lengths. NoSession is answered exactly where no gate of
/// the control is open, and Damaged at the first byte of the first slot that breaks a rule.
pub fn read_mark<P: Plant>(plant: &mut P, first: FirstRead) -> Result<Mark, SiteError>
    requires { CONTROL_LENGTH ≤ (P.state plant.old).lengths Control }
    ensures says { P.tells → AnswersMeaning (λ mark. IsChosen (P.state plant.old) mark) (meaning (P.state plant.old) (P.state plant.old).bytes) result }
    // Whatever a read gave, the mark names state slot 0 or 1, and its spot lies in a journal.
    ensures slot { IfOk result (λ mark. mark.state_slot ≤ 1) }
    ensures spot { IfOk result (λ mark. HasSpot (P.state plant.old) mark.at) }
    ensures wrong { (e : SiteErrorValue) → IsErrOf result e → IsOfControl e }
    // After a sync, whatever is told of the control lasts.
    ensures durable { P.tells → first ≡ Synced → ¬ IsErrOf result (Fault Control) → IsDurable (on (P.state plant.new) Control) }
    ensures cause { FaultsAreCounted (P.state plant.old).faults (P.state plant.new).faults result }
    ensures others { ReadsAll P.tells (P.state plant.old) (P.state plant.new) }
{
    settle(plant, Device::Control, first)?;
    find_mark(plant)
}

/// The level and the started table by what reads of the state give.
fn find_state<P: Plant>(
    alloc: Global,
    plant: &mut P,
    mark: &Mark,
) -> Result<(Level, PairTable), SiteError>
    requires long { STATE_LENGTH ≤ (P.state plant.old).lengths State }
    requires slot { mark.now.state_slot ≤ 1 }
    ensures says { P.tells → IsChosen (P.state plant.old) mark.now
        → AnswersMeaning (λ found. IsStored (P.state plant.old) mark.now found.0 found.1.rows) (meaning (P.state plant.old) (P.state plant.old).bytes) result }
    ensures started { IfOk result (λ found. found.1 ≡ started_table mark.now.session found.1.rows) }
    // Whatever a read gave, the devices of the rows are the plant's.
    ensures below { IfOk result (λ found. IsTrue (are_below (P.state plant.old).volumes found.1.rows)) }
    ensures wrong { (e : SiteErrorValue) → IsErrOf result e → IsOfState e }
    ensures cause { FaultsAreCounted (P.state plant.old).faults (P.state plant.new).faults result }
    ensures others { ReadsAll P.tells (P.state plant.old) (P.state plant.new) }
{
    match get(alloc, plant, mark.state_slot, mark.session) {
        Ok(found) => Ok(found),
        Err(StateError::Damaged(place)) => Err(SiteError::Damaged(Device::State, place)),
        Err(StateError::Fault) => Err(SiteError::Fault(Device::State)),
        Err(StateError::NoMemory) => Err(SiteError::NoMemory),
    }
}

/// The level and the started table of the state slot of a mark: the second step of an examination. Damaged is answered at the first
/// byte of the slot, where it breaks a rule.
fn read_state<P: Plant>(
    alloc: Global,
    plant: &mut P,
    mark: &Mark,
    first: FirstRead,
) -> Result<(Level, PairTable), SiteError>
    requires long { STATE_LENGTH ≤ (P.state plant.old).lengths State }
    requires slot { mark.now.state_slot ≤ 1 }
    ensures says { P.tells → IsChosen (P.state plant.old) mark.now
        → AnswersMeaning (λ found. IsStored (P.state plant.old) mark.now found.0 found.1.rows) (meaning (P.state plant.old) (P.state plant.old).bytes) result }
    ensures started { IfOk result (λ found. found.1 ≡ started_table mark.now.session found.1.rows) }
    // Whatever a read gave, the devices of the rows are the plant's.
    ensures below { IfOk result (λ found. IsTrue (are_below (P.state plant.old).volumes found.1.rows)) }
    ensures wrong { (e : SiteErrorValue) → IsErrOf result e → IsOfState e }
    // After a sync, whatever is told of the state lasts.
    ensures durable { P.tells → first ≡ Synced → ¬ IsErrOf result (Fault State) → IsDurable (on (P.state plant.new) State) }
    ensures cause { FaultsAreCounted (P.state plant.old).faults (P.state plant.new).faults result }
    ensures others { ReadsAll P.tells (P.state plant.old) (P.state plant.new) }
{
    settle(plant, Device::State, first)?;
    find_state(alloc, plant, mark)
}

/// What the devices mean by the walk over the journals from a mark, with the level and the table of its state slot: the last step of an
/// examination. A journal that the walk doesn't enter is neither synced nor read. Damaged is answered at the first place at which a record, or an item, breaks a rule.
fn read_journals<P: Plant>(
    alloc: Global,
    plant: &mut P,
    mark: &Mark,
    level: Level,
    table: PairTable,
    first: FirstRead,
) -> Result<SiteReading, SiteError>
    requires home { NoneLent (P.state plant.old) }
    requires long { (j : ℕ) → j < (P.state plant.old).journals → 1 ≤ (P.state plant.old).lengths (Journal j) }
    requires spot { HasSpot (P.state plant.old) mark.now.at }
    requires started { table ≡ started_table mark.now.session table.rows }
    requires below { IsTrue (are_below (P.state plant.old).volumes table.rows) }
    ensures says { P.tells → IsChosen (P.state plant.old) mark.now
        → IsStored (P.state plant.old) mark.now level table.rows
        → AnswersMeaning (λ reading. IsRead (P.state plant.old) reading) (meaning (P.state plant.old) (P.state plant.old).bytes) result }
    // Whatever reads gave, the mark is this one, with its spot, and the devices of the rows are the plant's.
    ensures mark { IfOk result (λ reading. IsReadingOf mark.now reading) }
    ensures below { IfOk result (λ reading. IsTrue (are_below (P.state plant.old).volumes reading.means.table.rows)) }
    ensures reached { P.tells → IsChosen (P.state plant.old) mark.now
        → IsStored (P.state plant.old) mark.now level table.rows
        → (d : AnyDevice) → IsErrOf result (Fault d) → IsInTurn (P.state plant.old) d }
    ensures examined { (d : AnyDevice) → IsErrOf result (Fault d) → IsStore d }
    ensures short { (d : AnyDevice) (needed : ℕ) → ¬ IsErrOf result (TooSmall d needed) }
    // After syncs, whatever is told of the journals lasts.
    ensures durable { P.tells → first ≡ Synced → IsChosen (P.state plant.old) mark.now
        → IsStored (P.state plant.old) mark.now level table.rows
        → WhereTold result ((j : ℕ) → IsInTurn (P.state plant.old) (Journal j) → IsDurable (on (P.state plant.new) (Journal j))) }
    ensures cause { FaultsAreCounted (P.state plant.old).faults (P.state plant.new).faults result }
    ensures others { ReadsAll P.tells (P.state plant.old) (P.state plant.new) }
{
    let mut body = Body::make(alloc, longest_body(plant))?;
    let mut walking = Walking::begin(alloc, mark, table)?;
    match walking.finish(alloc, plant, &mut body, first) {
        Ok(()) => Ok(walking.reading(mark, level)),
        Err(error) => Err(error),
    }
}

/// What the devices mean after a mark: its state slot, and then the walk over the journals, are the last steps of an examination.
/// After syncs, whatever is told of them lasts.
pub fn read_from_mark<P: Plant>(
    alloc: Global,
    plant: &mut P,
    mark: &Mark,
    first: FirstRead,
) -> Result<SiteReading, SiteError>
    requires home { NoneLent (P.state plant.old) }
    requires short { first_short (P.state plant.old) ≡ None }
    requires slot { mark.now.state_slot ≤ 1 }
    requires spot { HasSpot (P.state plant.old) mark.now.at }
    ensures says { P.tells → IsChosen (P.state plant.old) mark.now → AnswersMeaning (λ reading. IsRead (P.state plant.old) reading) (meaning (P.state plant.old) (P.state plant.old).bytes) result }
    // Whatever reads gave, the mark is this one, with its spot, and the devices of the rows are the plant's.
    ensures mark { IfOk result (λ reading. IsReadingOf mark.now reading) }
    ensures below { IfOk result (λ reading. IsTrue (are_below (P.state plant.old).volumes reading.means.table.rows)) }
    ensures reached { P.tells → IsChosen (P.state plant.old) mark.now → (d : AnyDevice) → IsErrOf result (Fault d) → IsInTurn (P.state plant.old) d }
    ensures examined { (d : AnyDevice) → IsErrOf result (Fault d) → IsStore d }
    ensures short { (d : AnyDevice) (needed : ℕ) → ¬ IsErrOf result (TooSmall d needed) }
    ensures durable { P.tells → first ≡ Synced → IsChosen (P.state plant.old) mark.now → WhereTold result (RestDurable (P.state plant.old) (P.state plant.new)) }
    ensures cause { FaultsAreCounted (P.state plant.old).faults (P.state plant.new).faults result }
    ensures others { ReadsAll P.tells (P.state plant.old) (P.state plant.new) }
{
    let (level, table) = read_state(alloc, plant, mark, first)?;
    read_journals(alloc, plant, mark, level, table, first)
}

/// What the devices of a site mean: the chosen mark's session, spot and ended flag, the level and the rows of its state slot, these
/// changed by the pairs and gone devices of the walk over the journals, and the time of the walk's last group, or the mark's. The
/// control, the state and each journal are to have 1,024, 16,384 and 1,826,816 bytes. Nothing is written.
pub fn examine<P: Plant>(alloc: Global, plant: &mut P) -> Result<Means, SiteError>
    requires home { NoneLent (P.state plant.old) }
    // What the reads give means this; no gate is open; or this is the first bad place.
    ensures says { P.tells → TellsMeaning (P.state plant.old) result }
    // A device that is too small is answered before anything is read.
    ensures short { (d : AnyDevice) → first_short (P.state plant.old) ≡ Some d → result ≡ Err (TooSmall d (need d)) }
    ensures too_small { (d : AnyDevice) (needed : ℕ) → IsErrOf result (TooSmall d needed) → (first_short (P.state plant.old) ≡ Some d) × (needed ≡ need d) }
    // Whatever reads gave, the devices of the rows are the plant's, and the spot lies in a journal.
    ensures below { IfOk result (λ means. IsTrue (are_below (P.state plant.old).volumes means.table.rows)) }
    ensures from { IfOk result (λ means. HasSpot (P.state plant.old) means.from) }
    // Why it fails, and in which order.
    ensures cause { FaultsAreCounted (P.state plant.old).faults (P.state plant.new).faults result }
    ensures examined { (d : AnyDevice) → IsErrOf result (Fault d) → IsStore d }
    ensures reached { P.tells → (d : AnyDevice) → IsErrOf result (Fault d) → IsInTurn (P.state plant.old) d }
    // What reads give stays, and a crash leaves nothing that it couldn't leave before.
    ensures others { ReadsAll P.tells (P.state plant.old) (P.state plant.new) }
{
    check_lengths(plant)?;
    let mark = read_mark(plant, FirstRead::AsItIs)?;
    let reading = read_from_mark(alloc, plant, &mark, FirstRead::AsItIs)?;
    Ok(reading.means)
}
