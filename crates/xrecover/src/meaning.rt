//! What the devices mean, before anything is written.

ghost use Rattle.std.specs.Prelude.{◌≡◌, ◌≢◌, ◌≤◌, ◌<◌, ◌⊎◌, ℕ, IfOk, IsErrOf, IsTrue, OnOk, None, Some, Err};
ghost use Rattle.crash_plant.specs.declared.device.Device.{Device as AnyDevice};
ghost use Rattle.crash_plant.specs.declared.device.Device.TheVariants.{Control, Volume};
ghost use Rattle.crash_plant.specs.Moments.{IsDurable, on};
ghost use Rattle.crash_plant.specs.Calls.{NoneLent};
ghost use Rattle.pair_table.specs.Tables.{are_below};
ghost use Rattle.site_means.specs.declared.reading.FirstRead.TheVariants.{Synced};
ghost use Rattle.site_means.specs.declared.site_error.SiteError.{SiteError as SiteErrorValue};
ghost use Rattle.site_means.specs.declared.site_error.SiteError.TheVariants.{Fault, TooSmall};
ghost use Rattle.site_means.specs.Answers.{AllDurable, HasSpot, IsChosen, IsStore, IsOfControl, IsRead, ReadsAll, first_short, need as site_need};
ghost use Rattle.volume_label.specs.Labels.{volume_need as volume_need};
ghost use Rattle.xrecover.specs.declared.recover_error.RecoverError.{RecoverError as RecoverErrorValue};
ghost use Rattle.xrecover.specs.declared.recover_error.RecoverError.TheVariants.{Other, Site};
ghost use Rattle.xrecover.specs.Pairs.{first_small, is_small};
ghost use Rattle.xrecover.specs.Answers.{FailsSo, IsGoodOrCalledFor, IsMeant, IsRecoverable};
ghost use Rattle.xrecover.specs.Sights.{TellsDurable};

use crate::RecoverError;
use control_set::Mark;
use crash_plant::{Device, Plant};
use pair_table::{PairRow, PairTable};
use site_means::{
    FirstRead, Means, SiteError, SiteReading, check_lengths, read_from_mark, read_mark,
};
use std::alloc::Global;
use tod_stamp::Session;
use volume_label::need;

/// That the mark is one of this session.
fn check_session(mark: &Mark, session: Session) -> Result<(), RecoverError>
    ensures ok { OnOk result (mark.now.session ≡ session) }
    ensures error { (e : RecoverErrorValue) → IsErrOf result e → (e ≡ Other mark.now.session) × (mark.now.session ≢ session) }
{
    if mark.session == session {
        Ok(())
    } else {
        Err(RecoverError::Other(mark.session))
    }
}

/// Whether a pair is duplex, and its volume has fewer bytes than the cylinders need.
fn is_small<P: Plant>(plant: &P, row: &PairRow) -> bool
    requires home { NoneLent (P.state plant.now) }
    requires there { row.now.device < (P.state plant.now).volumes }
    ensures { result ≡ is_small (P.state plant.now) row.now }
{
    row.state.is_duplex() && plant.length(Device::Volume(row.device)) < need(row.cylinders)
}

/// The row of the first duplex pair whose volume is too small.
fn first_small<P: Plant>(plant: &P, table: &PairTable) -> Option<PairRow>
    requires home { NoneLent (P.state plant.now) }
    requires below { IsTrue (are_below (P.state plant.now).volumes table.now.rows) }
    ensures { result ≡ first_small (P.state plant.now) table.now.rows }
{
    for place in 0..table.len() {
        let row = *table.row(place).unwrap();
        if is_small(plant, &row) {
            return Some(row);
        }
    }
    None
}

/// That the volume of each duplex pair has room for the pair's cylinders.
fn check_volumes<P: Plant>(plant: &P, table: &PairTable) -> Result<(), SiteError>
    requires home { NoneLent (P.state plant.now) }
    requires below { IsTrue (are_below (P.state plant.now).volumes table.now.rows) }
    ensures ok { OnOk result (first_small (P.state plant.now) table.now.rows ≡ None) }
    ensures error { (e : SiteErrorValue) → IsErrOf result e → (row : _) × (first_small (P.state plant.now) table.now.rows ≡ Some row) × (e ≡ TooSmall (Volume row.device) (volume_need row.cylinders)) }
{
    match first_small(plant, table) {
        Some(row) => Err(SiteError::TooSmall(Device::Volume(row.device), need(row.cylinders))),
        None => Ok(()),
    }
}

/// The mark that counts, if it is this session's. Another session is told by its name, whatever the state holds.
pub(crate) fn read_own_mark<P: Plant>(
    plant: &mut P,
    session: Session,
    first: FirstRead,
) -> Result<Mark, RecoverError>
    requires { first_short (P.state plant.old) ≡ None }
    ensures says { P.tells → IsGoodOrCalledFor (P.state plant.old) session (λ mark. IsChosen (P.state plant.old) mark) result }
    ensures same { IfOk result (λ mark. mark.session ≡ session) }
    // Whatever a read gave, the mark names state slot 0 or 1, and its spot lies in a journal.
    ensures slot { IfOk result (λ mark. mark.state_slot ≤ 1) }
    ensures spot { IfOk result (λ mark. HasSpot (P.state plant.old) mark.at) }
    ensures wrong { (e : SiteErrorValue) → IsErrOf result (Site e) → IsOfControl e }
    // After a sync, whatever is told of the control lasts.
    ensures durable { P.tells → first ≡ Synced → ¬ IsErrOf result (Site (Fault Control)) → IsDurable (on (P.state plant.new) Control) }
    ensures fails { FailsSo (P.state plant.old).faults (P.state plant.new).faults result }
    ensures reads { ReadsAll P.tells (P.state plant.old) (P.state plant.new) }
{
    let mark = read_mark(plant, first)?;
    check_session(&mark, session)?;
    Ok(mark)
}

/// What was read of the devices of a session.
///
/// What they don't mean is answered in this order: lengths, the control, the session, the state, and the journals in the order of the
/// walk. Nothing is written.
pub fn read_session<P: Plant>(
    alloc: Global,
    plant: &mut P,
    session: Session,
    first: FirstRead,
) -> Result<SiteReading, RecoverError>
    requires home { NoneLent (P.state plant.old) }
    // What the devices mean, or the first of what is wrong with them.
    ensures says { P.tells → IsGoodOrCalledFor (P.state plant.old) session (λ reading. IsMeant (P.state plant.old) session reading.means × IsRead (P.state plant.old) reading) result }
    // A device is too small exactly where it is the first one.
    ensures short { (d : AnyDevice) → first_short (P.state plant.old) ≡ Some d → result ≡ Err (Site (TooSmall d (site_need d))) }
    ensures small { (d : AnyDevice) (needed : ℕ) → IsErrOf result (Site (TooSmall d needed)) → first_short (P.state plant.old) ≡ Some d }
    ensures lengths { OnOk result (first_short (P.state plant.old) ≡ None) }
    // Whatever reads gave, the spot lies in a journal, and the devices of the rows are the plant's.
    ensures spot { IfOk result (λ reading. HasSpot (P.state plant.old) reading.mark.at) }
    ensures below { IfOk result (λ reading. IsTrue (are_below (P.state plant.old).volumes reading.means.table.rows)) }
    // After syncs, whatever is told of the devices lasts.
    ensures durable { P.tells → first ≡ Synced → TellsDurable (P.state plant.old) (P.state plant.new) result }
    ensures examined { (d : AnyDevice) → IsErrOf result (Site (Fault d)) → IsStore d }
    ensures fails { FailsSo (P.state plant.old).faults (P.state plant.new).faults result }
    ensures reads { ReadsAll P.tells (P.state plant.old) (P.state plant.new) }
{
    check_lengths(plant)?;
    let mark = read_own_mark(plant, session, first)?;
    let reading = read_from_mark(alloc, plant, &mark, first)?;
    Ok(reading)
}

/// What was read of the devices of a session after syncs, if the volumes of the duplex pairs are long enough. Nothing is written.
pub fn read_recoverable<P: Plant>(
    alloc: Global,
    plant: &mut P,
    session: Session,
) -> Result<SiteReading, RecoverError>
    requires home { NoneLent (P.state plant.old) }
    ensures says { P.tells → IsGoodOrCalledFor (P.state plant.old) session (λ reading. IsRecoverable (P.state plant.old) session reading.means × IsRead (P.state plant.old) reading) result }
    ensures short { (d : AnyDevice) → first_short (P.state plant.old) ≡ Some d → result ≡ Err (Site (TooSmall d (site_need d))) }
    ensures lengths { OnOk result (first_short (P.state plant.old) ≡ None) }
    ensures spot { IfOk result (λ reading. HasSpot (P.state plant.old) reading.mark.at) }
    ensures below { IfOk result (λ reading. IsTrue (are_below (P.state plant.old).volumes reading.means.table.rows)) }
    ensures long { IfOk result (λ reading. first_small (P.state plant.old) reading.means.table.rows ≡ None) }
    ensures durable { P.tells → TellsDurable (P.state plant.old) (P.state plant.new) result }
    ensures small { P.tells → (v needed : ℕ) → IsErrOf result (Site (TooSmall (Volume v) needed)) → AllDurable (P.state plant.old) (P.state plant.new) }
    ensures fails { FailsSo (P.state plant.old).faults (P.state plant.new).faults result }
    ensures reads { ReadsAll P.tells (P.state plant.old) (P.state plant.new) }
{
    let reading = read_session(alloc, plant, session, FirstRead::Synced)?;
    check_volumes(plant, &reading.means.table)?;
    Ok(reading)
}

/// What the devices of a session mean, whatever the lengths of volumes are. The control, the state and the journals are read, and nothing
/// is written.
///
/// What they don't mean is answered as of a recovery, in the same order: lengths, the control, the session, the state, and the journals
/// in the order of the walk.
pub fn examine_session<P: Plant>(
    alloc: Global,
    plant: &mut P,
    session: Session,
) -> Result<Means, RecoverError>
    requires home { NoneLent (P.state plant.old) }
    // What the devices mean, or the first of what is wrong with them.
    ensures says { P.tells → IsGoodOrCalledFor (P.state plant.old) session (λ means. IsMeant (P.state plant.old) session means) result }
    // A device is too small exactly where it is the first one.
    ensures short { (d : AnyDevice) → first_short (P.state plant.old) ≡ Some d → result ≡ Err (Site (TooSmall d (site_need d))) }
    ensures small { (d : AnyDevice) (needed : ℕ) → IsErrOf result (Site (TooSmall d needed)) → first_short (P.state plant.old) ≡ Some d }
    // A fault is that of a control, state or journal whose count rose.
    ensures examined { (d : AnyDevice) → IsErrOf result (Site (Fault d)) → IsStore d }
    ensures fails { FailsSo (P.state plant.old).faults (P.state plant.new).faults result }
    // What reads give stays, and a crash leaves nothing that it couldn't leave before.
    ensures reads { ReadsAll P.tells (P.state plant.old) (P.state plant.new) }
{
    let reading = read_session(alloc, plant, session, FirstRead::AsItIs)?;
    Ok(reading.means)
}
