//! The third copy of a site.

ghost use Rattle.std.specs.Prelude.{◌≡◌, ◌≤◌, IfOk, IsErrOf, Some, Err};
ghost use Rattle.crash_plant.specs.declared.device.Device.{Device as AnyDevice};
ghost use Rattle.crash_plant.specs.Calls.{NoneLent};
ghost use Rattle.crash_plant.specs.Choices.{AllFollow};
ghost use Rattle.site_means.specs.declared.site_error.SiteError.TheVariants.{Fault, TooSmall};
ghost use Rattle.site_means.specs.Answers.{first_short, need};
ghost use Rattle.xrecover.specs.declared.recover_error.RecoverError.TheVariants.{Site};
ghost use Rattle.xrecover.specs.Answers.{TellsFaults};
ghost use Rattle.xrecover.specs.Labels.{KeepsLabels};
ghost use Rattle.xrecover.specs.RedoneVolumes.{meant_rows};
ghost use Rattle.xrecover.specs.Works.{Nothing, Works};
ghost use Rattle.third_copy.specs.declared.copy_error.CopyError.{CopyError as CopyErrorValue};
ghost use Rattle.third_copy.specs.declared.copy_error.CopyError.TheVariants.{Recover};
ghost use Rattle.third_copy.specs.Answers.{AreFaultyPairs, ArePairsCopied, CopiesSite, CountsPairs, IsCopyCalledFor, IsEarlyCopy, KeepsCopied, SeesSameRows, TellsCopyLasting};

use crate::jobs::jobs_of;
use crate::pairs::{copy_jobs, others_of};
use crate::tools::CopyTools;
use crate::{CopyError, CopyOutcome};
use crash_plant::Plant;
use std::alloc::Global;
use std::thread::Threads;
use tod_stamp::Session;
use xrecover::{Labelling, Tools, read_recoverable, redo};

/// Copies each duplex pair's volume to the device whose number is greater by the shift, at the time that the site means. First the volumes
/// are redone, as by an advance. Then each is copied to its target in the order of the rows, cylinder by cylinder, from where the target's
/// progress stands. A volume or a target that fails is left at its first fault, and the other pairs are done.
///
/// It can be stopped at any moment, and done again.
///
/// What the devices don't mean is answered as of a recovery, and then the first duplex pair that has no target: a volume that no row has,
/// with a label of at least the pair's cylinders. All of this comes before anything is written, and so does want of memory.
pub fn copy<R: Threads + Sync, P: Plant>(
    rt: &R,
    alloc: Global,
    plant: &mut P,
    session: Session,
    shift: u16,
) -> Result<CopyOutcome, CopyError>
    requires home { NoneLent (P.state plant.old) }
    // What the devices mean, or why they can't be copied, in order.
    ensures ok { P.tells → IsCopyCalledFor (P.state plant.old) (P.state plant.new) session shift result }
    ensures short { (d : AnyDevice) → first_short (P.state plant.old) ≡ Some d → result ≡ Err (Recover (Site (TooSmall d (need d)))) }
    // Why it fails: a fault is of a device whose count rose, and no other count of the control, the state or a journal changes.
    ensures cause { TellsFaults (P.state plant.old).faults (P.state plant.new).faults (λ d. IsErrOf result (Recover (Site (Fault d)))) }
    // Which pairs are copied, and which failed by whose counts.
    ensures failed { IfOk result (λ o. AreFaultyPairs o.means.table.rows shift (P.state plant.old).faults (P.state plant.new).faults o.done o.failed) }
    ensures counts { P.tells → CountsPairs (meant_rows (P.state plant.old) (P.state plant.old).bytes) shift (P.state plant.old).faults (P.state plant.new).faults }
    // Each pair that is told as done has all its tracks on its target. Each pair's volume is redone, but where its own count rose.
    ensures copied { P.tells → IfOk result (λ o. ArePairsCopied shift (P.state plant.old) (P.state plant.new) o) }
    // At every moment only what a redo may change of the pairs' volumes, and targets, differ.
    ensures works { Works P.tells (CopiesSite (P.state plant.old) shift) (P.state plant.old) (P.state plant.new) }
    // At every moment each volume keeps its label.
    ensures labels { P.tells → KeepsLabels (P.state plant.old) (P.state plant.new) }
    // At every moment all that is done on a target begins with the images of the pair's content, if it did when the copy began.
    ensures progress { P.tells → KeepsCopied shift (P.state plant.old) (P.state plant.new) }
    // At every moment a crash leaves what means the same as something that it could have left at the start.
    ensures moments { P.tells → AllFollow (SeesSameRows (P.state plant.old)) (P.state plant.old) (P.state plant.new) }
    ensures lasts { P.tells → TellsCopyLasting P.tells (P.state plant.old) (P.state plant.new) result }
    // All answers but a journal's fault come before anything is written.
    ensures unwritten { (e : CopyErrorValue) → IsErrOf result e → IsEarlyCopy e → Works P.tells Nothing (P.state plant.old) (P.state plant.new) }
{
    let reading = read_recoverable(alloc, plant, session)?;
    let room = CopyTools::make(alloc, &reading.means.table)?;
    let CopyTools {
        mut slot,
        jobs,
        done,
        failed,
    } = room;
    let jobs = jobs_of(plant, &reading.means, shift, jobs)?;
    let tools = Tools::make(alloc, plant, &reading.means.table)?;
    let faulty = redo(rt, plant, &reading, tools, Labelling::AsItIs)?;
    let done = copy_jobs(plant, jobs.as_slice(), &faulty, done, &mut slot);
    let failed = others_of(&reading.means.table, &done, failed);
    Ok(CopyOutcome {
        means: reading.means,
        done,
        failed,
    })
}
