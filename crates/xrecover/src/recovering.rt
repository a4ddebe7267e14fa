//! The recovery of a site.

ghost use Rattle.std.specs.Prelude.{◌≡◌, ◌≤◌, ◌<◌, ◌+◌, [], ℕ, length, vec_capacity, IfOk, IsErrOf, IsTrue, OnErr, None, Some, Err};
ghost use Rattle.crash_plant.specs.declared.device.Device.{Device as AnyDevice};
ghost use Rattle.crash_plant.specs.declared.device.Device.TheVariants.{Journal, Volume};
ghost use Rattle.crash_plant.specs.Moments.{on};
ghost use Rattle.crash_plant.specs.Calls.{NoneLent};
ghost use Rattle.crash_plant.specs.Choices.{AllFollow};
ghost use Rattle.pair_table.specs.Tables.{are_below};
ghost use Rattle.site_means.specs.declared.site_error.SiteError.{SiteError as SiteErrorValue};
ghost use Rattle.site_means.specs.declared.site_error.SiteError.TheVariants.{Fault, TooSmall};
ghost use Rattle.site_means.specs.Answers.{HasSpot, IsRead, first_short, need};
ghost use Rattle.site_means.specs.Sight.{walked};
ghost use Rattle.site_means.specs.Steps.{HoldsEveryBody};
ghost use Rattle.xrecover.specs.declared.recover_error.RecoverError.{RecoverError as RecoverErrorValue};
ghost use Rattle.xrecover.specs.declared.recover_error.RecoverError.TheVariants.{Site};
ghost use Rattle.xrecover.specs.Pairs.{AreFaulty, SparesOthers, first_small};
ghost use Rattle.xrecover.specs.Answers.{CountsVolumes, IsEarly, IsLate, IsRecoverable, IsGoodOrCalledFor, TellsFaults};
ghost use Rattle.xrecover.specs.Works.{Nothing, Works};
ghost use Rattle.xrecover.specs.declared.labelling.Labelling.TheVariants.{AsItIs, AsPrimary};
ghost use Rattle.xrecover.specs.RedoneVolumes.{Recovers, Redone, meant_rows};
ghost use Rattle.xrecover.specs.Labels.{AreNamed, KeepsLabels, LabelsLast, TreatsLabels};
ghost use Rattle.xrecover.specs.SideVolumes.{AreToolsReady};
ghost use Rattle.xrecover.specs.Sights.{SeesSame, TellsLasting};

use crate::finishing::finish_pairs;
use crate::meaning::read_recoverable;
use crate::redoing::redo_walk;
use crate::{Labelling, Outcome, RecoverError, Tools};
use crash_plant::Plant;
use pair_table::DeviceList;
use site_means::SiteReading;
use std::alloc::Global;
use std::thread::Threads;
use tod_stamp::Session;

/// Redoes what was read of a site: the walk's items are put on the volumes of the duplex pairs, record by record and side by side. Then,
/// in the order of the rows, each volume is synced, and labelled where that is asked for. It takes no memory.
///
/// A volume is left at its first fault, and the others are done. A journal that fails, where its records are read again, ends it; no
/// label was written then.
pub fn redo<R: Threads + Sync, P: Plant>(
    rt: &R,
    plant: &mut P,
    reading: &SiteReading,
    tools: Tools<P::Volume>,
    labelling: Labelling,
) -> Result<DeviceList, RecoverError>
    requires home { NoneLent (P.state plant.old) }
    requires below { IsTrue (are_below (P.state plant.old).volumes reading.now.means.table.rows) }
    requires big { first_small (P.state plant.old) reading.now.means.table.rows ≡ None }
    requires spot { HasSpot (P.state plant.old) reading.now.mark.at }
    requires long { (j : ℕ) → j < (P.state plant.old).journals → 1 ≤ (P.state plant.old).lengths (Journal j) }
    requires ready { AreToolsReady (P.state plant.old) reading.now.means.table.rows tools }
    requires read { P.tells → IsRead (P.state plant.old) reading.now }
    // Only slots of tracks of which the walk has an item, and labels, differ on the volumes of duplex pairs.
    ensures works { Works P.tells (Recovers reading.now.means.table.rows (walked (P.state plant.old) (P.state plant.old).bytes)) (P.state plant.old) (P.state plant.new) }
    // Which devices failed, and which volumes are redone.
    ensures failed { IfOk result (AreFaulty reading.now.means.table.rows (P.state plant.old).faults (P.state plant.new).faults) }
    ensures redone { P.tells → IfOk result (λ failed. Redone labelling reading.now.means.table.rows (walked (P.state plant.old) (P.state plant.old).bytes) failed (P.state plant.old) (P.state plant.new)) }
    // What becomes of labels. Where a journal failed each stays.
    ensures treats { P.tells → TreatsLabels labelling reading.now.means.table.rows (walked (P.state plant.old) (P.state plant.old).bytes) (P.state plant.old) (P.state plant.new) }
    ensures unlabelled { P.tells → OnErr result (KeepsLabels (P.state plant.old) (P.state plant.new)) }
    // Why it fails, and which counts rise.
    ensures once { (v : ℕ) → (P.state plant.new).faults (Volume v) ≤ (P.state plant.old).faults (Volume v) + 1 }
    ensures spared { SparesOthers reading.now.means.table.rows (P.state plant.old).faults (P.state plant.new).faults }
    ensures late { P.tells → (e : RecoverErrorValue) → IsErrOf result e → IsLate (P.state plant.old) e }
    ensures fault { TellsFaults (P.state plant.old).faults (P.state plant.new).faults (λ d. IsErrOf result (Site (Fault d))) }
{
    let Tools {
        mut body,
        mut jobs,
        lent,
        failed,
    } = tools;
    redo_walk(rt, plant, &reading.mark, &mut body, &mut jobs, &lent)?;
    Ok(finish_pairs(plant, &reading.means.table, &jobs, failed, labelling))
}

/// Redoes a session's site, the same for both calls but for labels.
pub(crate) fn redo_site<R: Threads + Sync, P: Plant>(
    rt: &R,
    alloc: Global,
    plant: &mut P,
    session: Session,
    labelling: Labelling,
) -> Result<Outcome, RecoverError>
    requires home { NoneLent (P.state plant.old) }
    ensures ok { P.tells → IsGoodOrCalledFor (P.state plant.old) session (λ o. IsRecoverable (P.state plant.old) session o.means) result }
    ensures short { (d : AnyDevice) → first_short (P.state plant.old) ≡ Some d → result ≡ Err (Site (TooSmall d (need d))) }
    ensures cause { TellsFaults (P.state plant.old).faults (P.state plant.new).faults (λ d. IsErrOf result (Site (Fault d))) }
    ensures failed { IfOk result (λ o. AreFaulty o.means.table.rows (P.state plant.old).faults (P.state plant.new).faults o.failed) }
    ensures volumes { CountsVolumes P.tells (meant_rows (P.state plant.old) (P.state plant.old).bytes) (P.state plant.old).faults (P.state plant.new).faults result }
    ensures redone { P.tells → IfOk result (λ o. Redone labelling (meant_rows (P.state plant.old) (P.state plant.old).bytes) (walked (P.state plant.old) (P.state plant.old).bytes) o.failed (P.state plant.old) (P.state plant.new)) }
    ensures works { Works P.tells (Recovers (meant_rows (P.state plant.old) (P.state plant.old).bytes) (walked (P.state plant.old) (P.state plant.old).bytes)) (P.state plant.old) (P.state plant.new) }
    ensures treats { P.tells → TreatsLabels labelling (meant_rows (P.state plant.old) (P.state plant.old).bytes) (walked (P.state plant.old) (P.state plant.old).bytes) (P.state plant.old) (P.state plant.new) }
    ensures moments { P.tells → AllFollow (SeesSame (P.state plant.old)) (P.state plant.old) (P.state plant.new) }
    ensures lasts { P.tells → TellsLasting P.tells (P.state plant.old) (P.state plant.new) result }
    ensures unwritten { (e : RecoverErrorValue) → IsErrOf result e → IsEarly e → Works P.tells Nothing (P.state plant.old) (P.state plant.new) }
{
    let reading = read_recoverable(alloc, plant, session)?;
    let tools = Tools::make(alloc, plant, &reading.means.table)?;
    let failed = redo(rt, plant, &reading, tools, labelling)?;
    Ok(Outcome {
        means: reading.means,
        failed,
    })
}

/// Recovers a session's site: on the volume of each duplex pair each track of which the journals' walk has an item gets its
/// content, record by record and side by side. Then, in the order of the rows, each is synced, and the label gets the primary's serial
/// and the pair's cylinders. Nothing else is written.
/// A volume that fails is left at its first fault, and the other pairs are done.
///
/// The control, the state and each journal that the walk enters are synced before they are read first, and no volume is written before.
/// A sync that fails is the device's fault. So a power failure can't take back what was recovered.
///
/// Other is answered exactly where the chosen mark names another session, before the state is read. What else the devices don't
/// mean is answered before anything is written, and so are the first duplex pair's volume that is too small for its cylinders, and
/// want of memory. Only a journal's fault, where its items are read again, can come later.
pub fn recover<R: Threads + Sync, P: Plant>(
    rt: &R,
    alloc: Global,
    plant: &mut P,
    session: Session,
) -> Result<Outcome, RecoverError>
    requires home { NoneLent (P.state plant.old) }
    // What the devices mean, or why they can't be recovered, in this order: lengths, the control, the session, the state, the journals
    // in the order of the walk, and the lengths of the duplex pairs' volumes.
    ensures ok { P.tells → IsGoodOrCalledFor (P.state plant.old) session (λ o. IsRecoverable (P.state plant.old) session o.means) result }
    ensures short { (d : AnyDevice) → first_short (P.state plant.old) ≡ Some d → result ≡ Err (Site (TooSmall d (need d))) }
    // Why it fails: a fault is of a device whose count rose, no other count of the control, the state or a journal changes, and the
    // failed devices are those of duplex pairs whose counts rose. A volume is left at its first fault, whatever is answered, and no
    // other volume is called.
    ensures cause { TellsFaults (P.state plant.old).faults (P.state plant.new).faults (λ d. IsErrOf result (Site (Fault d))) }
    ensures failed { IfOk result (λ o. AreFaulty o.means.table.rows (P.state plant.old).faults (P.state plant.new).faults o.failed) }
    ensures volumes { CountsVolumes P.tells (meant_rows (P.state plant.old) (P.state plant.old).bytes) (P.state plant.old).faults (P.state plant.new).faults result }
    // Each duplex pair's volume that isn't among them holds what the devices meant, is labelled as its primary, and is durable.
    ensures redone { P.tells → IfOk result (λ o. Redone AsPrimary (meant_rows (P.state plant.old) (P.state plant.old).bytes) (walked (P.state plant.old) (P.state plant.old).bytes) o.failed (P.state plant.old) (P.state plant.new)) }
    // At every moment only labels of duplex pairs' volumes, and slots of tracks of which the walk has an item, differ.
    ensures works { Works P.tells (Recovers (meant_rows (P.state plant.old) (P.state plant.old).bytes) (walked (P.state plant.old) (P.state plant.old).bytes)) (P.state plant.old) (P.state plant.new) }
    // A label is written once the slots are redone and durable.
    ensures labels { P.tells → (v : ℕ) → LabelsLast v (walked (P.state plant.old) (P.state plant.old).bytes) (on (P.state plant.old) (Volume v)) (on (P.state plant.new) (Volume v)) }
    // Whatever it answers, a duplex pair's volume has the label that it had, or its primary's, but where its count rose.
    ensures named { P.tells → AreNamed (meant_rows (P.state plant.old) (P.state plant.old).bytes) (P.state plant.old) (P.state plant.new) }
    // At every moment a crash leaves what means the same as something that it could have left at the start, with the same tracks. From the
    // first write on that is what reads gave.
    ensures moments { P.tells → AllFollow (SeesSame (P.state plant.old)) (P.state plant.old) (P.state plant.new) }
    // What is told of the devices lasts, so that a later recovery tells the same.
    ensures lasts { P.tells → TellsLasting P.tells (P.state plant.old) (P.state plant.new) result }
    // All answers but a journal's fault come before anything is written, want of memory too.
    ensures unwritten { (e : RecoverErrorValue) → IsErrOf result e → IsEarly e → Works P.tells Nothing (P.state plant.old) (P.state plant.new) }
{
    redo_site(rt, alloc, plant, session, Labelling::AsPrimary)
}

/// Advances a session's site: on the volume of each duplex pair each track of which the journals' walk has an item gets its content,
/// and then, in the order of the rows, each is synced. Nothing else is written, and no label is. What it answers, and when, is as of
/// `recover`.
pub fn advance<R: Threads + Sync, P: Plant>(
    rt: &R,
    alloc: Global,
    plant: &mut P,
    session: Session,
) -> Result<Outcome, RecoverError>
    requires home { NoneLent (P.state plant.old) }
    // What the devices mean, or why they can't be recovered, in this order: lengths, the control, the session, the state, the journals
    // in the order of the walk, and the lengths of the duplex pairs' volumes.
    ensures ok { P.tells → IsGoodOrCalledFor (P.state plant.old) session (λ o. IsRecoverable (P.state plant.old) session o.means) result }
    ensures short { (d : AnyDevice) → first_short (P.state plant.old) ≡ Some d → result ≡ Err (Site (TooSmall d (need d))) }
    // Why it fails: a fault is of a device whose count rose, no other count of the control, the state or a journal changes, and the
    // failed devices are those of duplex pairs whose counts rose. A volume is left at its first fault, whatever is answered, and no
    // other volume is called.
    ensures cause { TellsFaults (P.state plant.old).faults (P.state plant.new).faults (λ d. IsErrOf result (Site (Fault d))) }
    ensures failed { IfOk result (λ o. AreFaulty o.means.table.rows (P.state plant.old).faults (P.state plant.new).faults o.failed) }
    ensures volumes { CountsVolumes P.tells (meant_rows (P.state plant.old) (P.state plant.old).bytes) (P.state plant.old).faults (P.state plant.new).faults result }
    // Each duplex pair's volume that isn't among them holds what the devices meant, and is durable.
    ensures redone { P.tells → IfOk result (λ o. Redone AsItIs (meant_rows (P.state plant.old) (P.state plant.old).bytes) (walked (P.state plant.old) (P.state plant.old).bytes) o.failed (P.state plant.old) (P.state plant.new)) }
    // At every moment nothing differs but what may in a recovery, and of that no label does: each has its 14 bytes from before, in what
    // reads give and in whatever a crash leaves.
    ensures works { Works P.tells (Recovers (meant_rows (P.state plant.old) (P.state plant.old).bytes) (walked (P.state plant.old) (P.state plant.old).bytes)) (P.state plant.old) (P.state plant.new) }
    ensures labels { P.tells → KeepsLabels (P.state plant.old) (P.state plant.new) }
    // At every moment a crash leaves what means the same as something that it could have left at the start, with the same tracks. From the
    // first write on that is what reads gave.
    ensures moments { P.tells → AllFollow (SeesSame (P.state plant.old)) (P.state plant.old) (P.state plant.new) }
    // What is told of the devices lasts, so that a later recovery tells the same.
    ensures lasts { P.tells → TellsLasting P.tells (P.state plant.old) (P.state plant.new) result }
    // All answers but a journal's fault come before anything is written, want of memory too.
    ensures unwritten { (e : RecoverErrorValue) → IsErrOf result e → IsEarly e → Works P.tells Nothing (P.state plant.old) (P.state plant.new) }
{
    redo_site(rt, alloc, plant, session, Labelling::AsItIs)
}
