//! The lengths of the devices.

ghost use Rattle.std.specs.Prelude.{◌≡◌, ◌≤◌, ◌<◌, ℕ, min};
ghost use Rattle.crash_plant.specs.Calls.{IsThere, NoneLent};
ghost use Rattle.crash_plant.specs.declared.device.Device.TheVariants.{Journal};
ghost use Rattle.xrc_journal.specs.Records.{most_body};
ghost use Rattle.site_means.specs.Answers.{first_short, is_short, need};
ghost use Rattle.site_means.specs.Steps.{HoldsEveryBody, IsLongest};

use crash_plant::{CONTROL_LENGTH, Device, Plant, STATE_LENGTH};
use xrc_journal::{MOST_BODY, journal_length};

/// How many bytes a device needs. A volume's need is that of its pair, which no examination asks for.
pub(crate) fn need(device: Device) -> u64
    ensures { result ≡ need device }
{
    match device {
        Device::Control => CONTROL_LENGTH,
        Device::State => STATE_LENGTH,
        Device::Journal(_) => journal_length(1),
        Device::Volume(_) => 0,
    }
}

fn is_short<P: Plant>(plant: &P, device: Device) -> bool
    requires { IsThere (P.state plant.now) device }
    ensures { result ≡ is_short (P.state plant.now) device }
{
    plant.length(device) < need(device)
}

/// The first device that has fewer bytes than it needs: the control, the state, or a journal.
pub(crate) fn first_short<P: Plant>(plant: &P) -> Option<Device>
    ensures { result ≡ first_short (P.state plant.now) }
{
    if is_short(plant, Device::Control) {
        return Some(Device::Control);
    }
    if is_short(plant, Device::State) {
        return Some(Device::State);
    }
    for number in 0..plant.journals() {
        if is_short(plant, Device::Journal(number)) {
            return Some(Device::Journal(number));
        }
    }
    None
}

/// The most bytes that a record's body can have in one of the plant's journals: a buffer for bodies of these needs no more.
pub fn longest_body<P: Plant>(plant: &P) -> u32
    ensures room { HoldsEveryBody (P.state plant.now) result }
    ensures exact { IsLongest (P.state plant.now) result }
{
    let mut longest = 0;
    for number in 0..plant.journals() {
        let length = plant.length(Device::Journal(number));
        longest = longest.max(length.min(MOST_BODY as u64) as u32);
    }
    longest
}
