//! The walk, read once more, and its items redone.

ghost use Rattle.std.specs.Prelude.{◌≡◌, ◌≢◌, ◌≤◌, ◌<◌, ◌+◌, ◌^◌, ℕ, min, false, IfOk, IfSome, IsErrOf, OnOk};
ghost use Rattle.crash_plant.specs.declared.device.Device.TheVariants.{Journal, Volume};
ghost use Rattle.crash_plant.specs.Moments.{on};
ghost use Rattle.crash_plant.specs.Calls.{NoneLent};
ghost use Rattle.xrc_journal.specs.Items.{AreItems, form_of};
ghost use Rattle.xrc_journal.specs.Jobs.{FailsByCount};
ghost use Rattle.xrc_journal.specs.Records.{most_body, walk_one};
ghost use Rattle.site_means.specs.declared.site_error.SiteError.{SiteError as SiteErrorValue};
ghost use Rattle.site_means.specs.declared.site_error.SiteError.TheVariants.{Fault, NoMemory};
ghost use Rattle.site_means.specs.Answers.{FaultsAreCounted, HasSpot, ReadsAll};
ghost use Rattle.site_means.specs.Sight.{walked};
ghost use Rattle.site_means.specs.Steps.{HoldsEveryBody};
ghost use Rattle.xrecover.specs.Answers.{HasWalk, TellsFaults};
ghost use Rattle.xrecover.specs.Rereading.{FoundAgain, IsAfter, IsWalkFault};
ghost use Rattle.xrecover.specs.RedoneVolumes.{Draws, HoldsTracks};
ghost use Rattle.xrecover.specs.SideVolumes.{AppliesSides, AreHome, AreSet, is_left};

use crate::sides::apply_record;
use applier::VolumeJob;
use control_set::Mark;
use crash_plant::{Device, Plant, Spot};
use site_means::SiteError;
use std::thread::Threads;
use tod_stamp::Stamp;
use xrc_journal::{Body, WalkError, Walked, walk};

/// Reads the record at a spot once more, and gives its time and the spot after it. None where there is none.
fn read_again<P: Plant>(
    plant: &mut P,
    at: Spot,
    last: Stamp,
    body: &mut Body,
) -> Result<Option<(Stamp, Spot)>, SiteError>
    requires home { NoneLent (P.state plant.old) }
    requires there { at.set < (P.state plant.old).journals }
    requires range { at.place < (P.state plant.old).lengths (Journal at.set) }
    requires long { (j : ℕ) → j < (P.state plant.old).journals → 1 ≤ (P.state plant.old).lengths (Journal j) }
    requires room { min ((P.state plant.old).lengths (Journal at.set)) most_body ≤ body.old.room }
    ensures finds { P.tells → FoundAgain at.set (walk_one (form_of (P.state plant.old)) (P.state plant.old).journals ((P.state plant.old).bytes (Journal at.set)) at last.0) body.new.items result }
    ensures further { IfOk result (λ next. IfSome next (λ n. IsAfter (P.state plant.old) at n.1)) }
    ensures number { at.number < 2 ^ 64 }
    ensures keep { AreItems (form_of (P.state plant.old)) body.new.items }
    ensures room { body.new.room ≡ body.old.room }
    ensures memory { ¬ IsErrOf result NoMemory }
    ensures fails { FaultsAreCounted (P.state plant.old).faults (P.state plant.new).faults result }
    ensures reads { ReadsAll P.tells (P.state plant.old) (P.state plant.new) }
{
    match walk(plant, at, last, body) {
        Ok(Walked::End) => Ok(None),
        Ok(Walked::Group { time, after }) => Ok(Some((time, after))),
        Ok(Walked::Switch { time, after }) => Ok(Some((time, after))),
        Err(WalkError::Damaged(set, place)) => Err(SiteError::Damaged(Device::Journal(set), place)),
        Err(WalkError::Fault(set)) => Err(SiteError::Fault(Device::Journal(set))),
    }
}

/// Applies the items of the walk from a mark, record by record, to the volumes that aren't left alone. One that fails is left alone from
/// then on.
pub(crate) fn redo_walk<R: Threads + Sync, P: Plant>(
    rt: &R,
    plant: &mut P,
    mark: &Mark,
    body: &mut Body,
    jobs: &mut [VolumeJob<P::Volume>],
    lent: &[bool],
) -> Result<(), SiteError>
    requires home { NoneLent (P.state plant.old) }
    requires spot { HasSpot (P.state plant.old) mark.now.at }
    requires long { (j : ℕ) → j < (P.state plant.old).journals → 1 ≤ (P.state plant.old).lengths (Journal j) }
    requires room { HoldsEveryBody (P.state plant.old) body.old.room }
    requires jobs { AreHome (P.state plant.old).volumes jobs.old }
    requires lent { AreSet (P.state plant.old).volumes lent.now }
    requires walk { P.tells → HasWalk (P.state plant.old) mark.now }
    ensures jobs { AreHome (P.state plant.new).volumes jobs.new }
    ensures applies { AppliesSides P.tells (walked (P.state plant.old) (P.state plant.old).bytes) (is_left jobs.old) (is_left jobs.new) (P.state plant.old) (P.state plant.new) }
    ensures content { P.tells → OnOk result ((v : ℕ) → is_left jobs.new v ≡ false → Draws v (walked (P.state plant.old) (P.state plant.old).bytes) ((P.state plant.old).bytes (Volume v)) ((P.state plant.new).bytes (Volume v)) × HoldsTracks v (walked (P.state plant.old) (P.state plant.old).bytes) ((P.state plant.old).bytes (Volume v)) ((P.state plant.new).bytes (Volume v))) }
    ensures told { P.tells → (e : SiteErrorValue) → IsErrOf result e → IsWalkFault (P.state plant.old) e }
    ensures fault { TellsFaults (P.state plant.old).faults (P.state plant.new).faults (λ d. IsErrOf result (Fault d)) }
{
    let mut at = mark.at;
    let mut last = mark.time;
    loop {
        let Some((time, after)) = read_again(plant, at, last, body)? else {
            return Ok(());
        };
        apply_record(rt, plant, body, jobs, lent);
        at = after;
        last = time;
    }
}
