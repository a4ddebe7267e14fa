//! How a recovery, an advance or a query ends.

ghost use Rattle.std.specs.Prelude.{◌≡◌, ◌↔◌, IsTrue};
ghost use Rattle.xrc_recovery.specs.Stops.{IsSite, fault_of, site_stop, stop_of};

use crash_plant::{Device, Plant};
use site_means::SiteError;
use xrc_edge::{FEWEST_JOURNALS, MOST_JOURNALS, MOST_SITE_VOLUMES};
use xrc_status::Stop;
use xrecover::RecoverError;

/// Whether there are as many journals and volumes as a site has.
pub fn is_site<P: Plant>(plant: &P) -> bool
    ensures { IsTrue result ↔ IsSite (P.state plant.now) }
{
    (FEWEST_JOURNALS..=MOST_JOURNALS).contains(&plant.journals())
        && plant.volumes() <= MOST_SITE_VOLUMES as u16
}

fn fault_of(device: Device) -> Stop
    ensures { result ≡ fault_of device }
{
    match device {
        Device::Control => Stop::ControlFault,
        Device::State => Stop::StateFault,
        Device::Journal(number) => Stop::JournalFault(number),
        Device::Volume(_) => Stop::VolumeFault,
    }
}

fn site_stop(error: SiteError) -> Stop
    ensures { result ≡ site_stop error }
{
    match error {
        SiteError::NoSession => Stop::NoSession,
        SiteError::Damaged(device, place) => Stop::Damaged(device, place),
        SiteError::Fault(device) => fault_of(device),
        SiteError::TooSmall(device, needed) => Stop::TooSmall(device, needed),
        SiteError::NoMemory => Stop::NoMemory,
    }
}

/// The stop of what a recovery answers.
pub(crate) fn stop_of(error: RecoverError) -> Stop
    ensures { result ≡ stop_of error }
{
    match error {
        RecoverError::Site(error) => site_stop(error),
        RecoverError::Other(session) => Stop::OtherSession(session),
    }
}
