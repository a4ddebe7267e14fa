//! Whether a progress counts for a pair.

ghost use Rattle.std.specs.Prelude.{◌≡◌, ◌≤◌, ◌*◌, ◌==◌, IfOk};
ghost use Rattle.xrc_edge.specs.Causes.{HasCause};
ghost use Rattle.xrc_edge.specs.declared.limits.TheConstants.{TRACKS_OF_CYLINDER};
ghost use Rattle.ckd_track.specs.declared.layout.TheConstants.{FIRST_SLOT};
ghost use Rattle.crash_plant.specs.declared.device.Device.TheVariants.{Volume};
ghost use Rattle.crash_plant.specs.Moments.{on, Follows, Same};
ghost use Rattle.crash_plant.specs.Calls.{IsThere, WorksOn};
ghost use Rattle.copy_progress.specs.Copies.{counts_for, done, done_by};

use crate::Progress;
use crate::choosing::read_progress;
use crash_plant::Plant;
use tod_stamp::{Serial, Session, Stamp};
use xrc_edge::{Failed, TRACKS_OF_CYLINDER};

/// What is to be copied of a pair: the session and the time of the site, the pair's primary, and how many tracks it has.
#[derive(Clone, Copy, Debug)]
pub struct Claim {
    pub session: Session,
    pub time: Stamp,
    pub primary: Serial,
    pub tracks: u32,
}

/// Whether the number and the next track go together.
#[tactic(auto, using(crate::proofs::Telling::too_great))]
fn is_in_step(number: u64, next: u32) -> bool
    ensures { result ≡ (TRACKS_OF_CYLINDER * number == next) }
{
    number <= u64::from(next) && u64::from(TRACKS_OF_CYLINDER) * number == u64::from(next)
}

/// Whether a progress counts for a pair.
fn counts_for(claim: &Claim, progress: &Progress) -> bool
    ensures { result ≡ counts_for claim.now progress.now }
{
    progress.session == claim.session
        && progress.time == claim.time
        && progress.primary == claim.primary
        && progress.tracks == claim.tracks
        && is_in_step(progress.number, progress.next)
}

/// How many tracks of a target are done: the chosen progress's next track where it counts, else 0.
fn done_by(claim: &Claim, chosen: Option<Progress>) -> u32
    ensures { result ≡ done_by claim.now chosen }
{
    match chosen {
        Some(progress) if counts_for(claim, &progress) => progress.next,
        _ => 0,
    }
}

/// How many tracks of a target are done.
pub fn done<P: Plant>(plant: &mut P, device: u16, claim: &Claim) -> Result<u32, Failed>
    requires there { IsThere (P.state plant.old) (Volume device) }
    requires long { FIRST_SLOT ≤ (P.state plant.old).lengths (Volume device) }
    ensures done { P.tells → IfOk result (λ n. n ≡ done claim.now ((P.state plant.old).bytes (Volume device))) }
    ensures same { P.tells → (P.state plant.new).bytes (Volume device) ≡ (P.state plant.old).bytes (Volume device) }
    ensures moments { P.tells → Follows Same (on (P.state plant.old) (Volume device)) (on (P.state plant.new) (Volume device)) }
    ensures only { WorksOn P.tells (λ d. d ≡ Volume device) (P.state plant.old) (P.state plant.new) }
    ensures cause { HasCause ((P.state plant.old).faults (Volume device)) ((P.state plant.new).faults (Volume device)) result }
{
    let chosen = read_progress(plant, device)?;
    Ok(done_by(claim, chosen))
}
