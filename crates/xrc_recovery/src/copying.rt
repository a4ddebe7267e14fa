//! The command that makes a third copy.

ghost use Rattle.std.specs.Prelude.{◌≡◌, Err};
ghost use Rattle.crash_plant.specs.Calls.{NoneLent};
ghost use Rattle.xrc_status.specs.Saying.{SaysLast};
ghost use Rattle.xrc_status.specs.declared.stop.Stop.TheVariants.{BadSite, ConsoleFault};
ghost use Rattle.xrc_recovery.specs.declared.copying.CopyStop.TheVariants.{Stopped as StoppedSo};
ghost use Rattle.xrc_recovery.specs.Copies.{CopiesSession, EndsCopy, copy_line, copy_status, stop_of_copy};
ghost use Rattle.xrc_recovery.specs.Texts.{no_target_line, no_target_status};

use crate::lines::{NO_TARGET, no_target_line};
use crate::reporting::report;
use crate::stops::{is_site, stop_of};
use crash_plant::Plant;
use std::alloc::Global;
use std::thread::Threads;
use third_copy::{CopyError, CopyOutcome, copy};
use tod_stamp::Session;
use xrc_status::{Stop, say_stop, say_text};
use xrecover::Outcome;

/// The status of a copy that was done.
const COPIED: u8 = 0;

/// Why a copy ended before it was done.
#[derive(Clone, Copy, Debug, PartialEq, Eq)]
pub(crate) enum CopyStop {
    /// By a stop of a recovery, or since a target failed.
    Stopped(Stop),
    /// The volume of this device, which is a duplex pair's, has no target.
    NoTarget(u16),
}

impl From<Stop> for CopyStop {
    ghost use Rattle.std.specs.Prelude.{◌≡◌};
    ghost use Rattle.xrc_recovery.specs.declared.copying.CopyStop.TheVariants as stops;

    ghost from_gives = { λ stop copy. copy ≡ stops.Stopped stop };

    fn from(stop: Stop) -> CopyStop {
        CopyStop::Stopped(stop)
    }
}

/// The stop of what a copy answers.
fn stop_of_copy(error: CopyError) -> CopyStop
    ensures { result ≡ stop_of_copy error }
{
    match error {
        CopyError::Recover(error) => CopyStop::Stopped(stop_of(error)),
        CopyError::NoTarget(device) => CopyStop::NoTarget(device),
    }
}

/// Copies a session's pairs, and says of each how far it is. The lines come after the last target is copied or has failed. A pair whose
/// volume or target failed is named so, and then the command ends with that stop; the other pairs are done.
fn run_copy<R: Threads + Sync, P: Plant>(
    rt: &R,
    alloc: Global,
    plant: &mut P,
    session: Session,
    shift: u16,
) -> Result<(), CopyStop>
    requires home { NoneLent (P.state plant.old) }
    ensures untouched { result ≡ Err (StoppedSo BadSite) → plant.new ≡ plant.old }
    ensures copies { CopiesSession P.tells session shift (P.state plant.old) (P.state plant.new) result }
{
    if !is_site(plant) {
        return Err(CopyStop::Stopped(Stop::BadSite));
    }
    match copy(rt, alloc, plant, session, shift) {
        Ok(copied) => {
            let CopyOutcome {
                means,
                done: _,
                failed,
            } = copied;
            let outcome = Outcome { means, failed };
            report(plant, b"COPIED ", session, &outcome)?;
            Ok(())
        }
        Err(error) => Err(stop_of_copy(error)),
    }
}

/// Says the last line of a copy that has no target for the volume of a device, and gives the status that the command ends with.
fn say_no_target<P: Plant>(plant: &mut P, device: u16) -> u8
    ensures status { result ≡ no_target_status }
    ensures said { SaysLast P.tells (no_target_line device) (P.state plant.old) (P.state plant.new) }
{
    let line = no_target_line(device);
    let _ = say_text(plant, line.as_bytes());
    NO_TARGET
}

/// Says the last line of a copy that was not done, and gives the status that the command ends with.
fn say_copy_stop<P: Plant>(plant: &mut P, stop: CopyStop) -> u8
    ensures status { result ≡ copy_status stop }
    ensures said { SaysLast P.tells (copy_line stop) (P.state plant.old) (P.state plant.new) }
    ensures silent { stop ≡ StoppedSo ConsoleFault → plant.new ≡ plant.old }
{
    match stop {
        CopyStop::Stopped(stop) => say_stop(plant, stop),
        CopyStop::NoTarget(device) => say_no_target(plant, device),
    }
}

/// Copies the volume of each duplex pair of a session's site to the device whose number is greater by the shift, says of each pair how far
/// it is, and gives the status that the command ends with. It goes on where a copy that was stopped has come to. First the site is
/// advanced. One that was not done says the line of its status last, but where the console failed; if that fails, the status stands.
///
/// The statuses are those of `advance_site`, with 26 before anything is written: a duplex pair has no target, a volume that no pair has
/// with a label of at least its cylinders. 13 is that of a pair's volume or target that failed.
pub fn copy_site<R: Threads + Sync, P: Plant>(
    rt: &R,
    alloc: Global,
    plant: &mut P,
    session: Session,
    shift: u16,
) -> u8
    requires { NoneLent (P.state plant.old) }
    ensures { EndsCopy P.tells session shift (P.state plant.old) (P.state plant.new) result }
{
    match run_copy(rt, alloc, plant, session, shift) {
        Ok(()) => COPIED,
        Err(stop) => say_copy_stop(plant, stop),
    }
}
