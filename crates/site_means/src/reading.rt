//! What a reading of a site gives, and how its devices are read.

ghost use Rattle.std.specs.Prelude.{◌≡◌, IsErrOf, OnOk};
ghost use Rattle.crash_plant.specs.Moments.{IsDurable, on};
ghost use Rattle.crash_plant.specs.Calls.{IsThere};
ghost use Rattle.site_means.specs.declared.reading.FirstRead.TheVariants.{Synced};
ghost use Rattle.site_means.specs.declared.site_error.SiteError.{SiteError as SiteErrorValue};
ghost use Rattle.site_means.specs.declared.site_error.SiteError.TheVariants.{Fault};
ghost use Rattle.site_means.specs.Answers.{FaultsAreCounted, IsStore, ReadsAll};

use crate::{Means, SiteError};
use control_set::Mark;
use crash_plant::{Device, Plant, Spot};

/// What was read of a site.
#[derive(Drop)]
pub struct SiteReading {
    /// The mark that counts.
    pub mark: Mark,
    pub means: Means,
    /// The spot after the last record of the walk.
    pub end: Spot,
}

/// How a device is read first.
#[derive(Clone, Copy, Debug, PartialEq, Eq)]
pub enum FirstRead {
    /// As it is.
    AsItIs,
    /// After a sync, so that a crash leaves what is read.
    Synced,
}

/// Syncs a device before it is read first, where this is asked for.
pub(crate) fn settle<P: Plant>(
    plant: &mut P,
    device: Device,
    first: FirstRead,
) -> Result<(), SiteError>
    requires there { IsThere (P.state plant.old) device }
    requires examined { IsStore device }
    ensures durable { P.tells → first ≡ Synced → OnOk result (IsDurable (on (P.state plant.new) device)) }
    ensures fault { (e : SiteErrorValue) → IsErrOf result e → e ≡ Fault device }
    ensures cause { FaultsAreCounted (P.state plant.old).faults (P.state plant.new).faults result }
    ensures others { ReadsAll P.tells (P.state plant.old) (P.state plant.new) }
{
    match first {
        FirstRead::AsItIs => Ok(()),
        FirstRead::Synced => match plant.sync(device) {
            Ok(()) => Ok(()),
            Err(_) => Err(SiteError::Fault(device)),
        },
    }
}
