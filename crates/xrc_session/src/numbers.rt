//! Whether a session can run on a site.

ghost use Rattle.std.specs.Prelude.{◌≡◌, ◌≤◌, ◌↔◌, Some, None, Err, IsErrOf, OnOk};
ghost use Rattle.crash_plant.specs.Calls.{IsThere, NoneLent};
ghost use Rattle.site_store.specs.Standing.{HasLengths};
ghost use Rattle.xrc_status.specs.declared.stop.Stop.TheVariants.{TooSmall};
ghost use Rattle.xrc_session.specs.Openings.{first_too_short, has_site_numbers, stop_of_length, stop_of_site};
ghost use Rattle.xrc_status.specs.declared.stop.Stop.{Stop as AnyStop};

use crash_plant::{CONTROL_LENGTH, Device, Plant, STATE_LENGTH};
use xrc_edge::{FEWEST_JOURNALS, MOST_JOURNALS, MOST_SITE_VOLUMES};
use xrc_journal::journal_length;
use xrc_status::Stop;

/// Whether a session of so many controllers can run over so many traces on a site with these numbers of journals and volumes.
fn has_numbers<P: Plant>(plant: &P, controls: u16, traces: usize) -> bool
    ensures { result ≡ has_site_numbers controls traces (P.state plant.now) }
{
    traces == usize::from(controls)
        && (FEWEST_JOURNALS..=MOST_JOURNALS).contains(&plant.journals())
        && (1..=MOST_SITE_VOLUMES as u16).contains(&plant.volumes())
}

/// That a device has the bytes that it needs.
fn check_length<P: Plant>(plant: &P, device: Device, need: u64) -> Result<(), Stop>
    requires there { IsThere (P.state plant.now) device }
    ensures ok { OnOk result (need ≤ (P.state plant.now).lengths device) }
    ensures short { (stop : AnyStop) → IsErrOf result stop → (stop ≡ TooSmall device need) × ¬ (need ≤ (P.state plant.now).lengths device) }
{
    if plant.length(device) < need {
        return Err(Stop::TooSmall(device, need));
    }
    Ok(())
}

/// That the control, the state and each journal have the bytes that a session of so many controllers needs, in this order.
fn check_lengths<P: Plant>(plant: &P, controls: u16) -> Result<(), Stop>
    requires home { NoneLent (P.state plant.now) }
    ensures ok { OnOk result (first_too_short controls (P.state plant.now) ≡ None) }
    ensures short { (stop : AnyStop) → IsErrOf result stop ↔ (stop_of_length controls (first_too_short controls (P.state plant.now)) ≡ Some stop) }
{
    check_length(plant, Device::Control, CONTROL_LENGTH)?;
    check_length(plant, Device::State, STATE_LENGTH)?;
    for number in 0..plant.journals() {
        check_length(plant, Device::Journal(number), journal_length(controls))?;
    }
    Ok(())
}

/// Why a session over so many controllers can't run with so many traces on a site, if it can't: the numbers, or the first device that
/// is too short.
pub(crate) fn check_site<P: Plant>(plant: &P, controls: u16, traces: usize) -> Result<(), Stop>
    requires home { NoneLent (P.state plant.now) }
    ensures stops { (stop : AnyStop) → IsErrOf result stop ↔ (stop_of_site controls traces (P.state plant.now) ≡ Some stop) }
    ensures none { OnOk result (stop_of_site controls traces (P.state plant.now) ≡ None) }
    ensures lengths { OnOk result (HasLengths controls (P.state plant.now) × (traces ≡ controls) × (1 ≤ (P.state plant.now).volumes)) }
{
    if !has_numbers(plant, controls, traces) {
        return Err(Stop::BadSite);
    }
    check_lengths(plant, controls)
}
