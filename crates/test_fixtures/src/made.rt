//! Plants of zeros, other lengths, and calls that fail.

ghost use Rattle.std.specs.Prelude.{◌≡◌, true, false, IfOk};
ghost use Rattle.crash_plant.specs.Calls.{IsThere, NoneLent};
ghost use Rattle.crash_plant.specs.NewPlants.{IsMade, Resizes, SameDevices};
ghost use Rattle.crash_plant.specs.MemoryPlant.{IsPlannedAs, memory_state};
ghost use Rattle.crash_plant.specs.Moments.{on, IsDurable};
ghost use Rattle.crash_plant.specs.PlainPlant.{plain_state};
ghost use Rattle.crash_plant.specs.declared.device.Device.{Device as AnyDevice};

use crate::is_there;
use crash_plant::{Device, Fail, FailList, MemoryPlant, PlainPlant};
use std::alloc::Global;
use xrc_edge::{Bytes, NoMemory};

/// A list of these bytes.
pub fn bytes_of(alloc: Global, from: &[u8]) -> Result<Bytes, NoMemory>
    ensures { IfOk result (λ bytes. bytes ≡ from.now) }
{
    let mut bytes = Bytes::make(alloc);
    bytes.extend_from_slice(alloc, from)?;
    Ok(bytes)
}

/// A plant of zeros: so many journals of one length, so many volumes of one length, and a script.
pub fn zeros(
    alloc: Global,
    journals: (u16, u64),
    volumes: (u16, u64),
    script: &[u8],
) -> Result<PlainPlant, NoMemory>
    ensures made { IfOk result (λ plant. IsMade journals.0 journals.1 volumes.0 volumes.1 script.now (plain_state plant)) }
    ensures home { IfOk result (λ plant. NoneLent (plain_state plant)) }
{
    let script = bytes_of(alloc, script)?;
    PlainPlant::make(alloc, journals.0, journals.1, volumes.0, volumes.1, script)
}

/// Cuts a device of the plant, or fills it with zeros. Says whether the device is there and has its new length.
#[tactic(auto, using(crash_plant::proofs::Resize::none_lent_same, crash_plant::proofs::Resize::none_lent_resized))]
pub fn resized(alloc: Global, plant: &mut PlainPlant, device: Device, length: u64) -> bool
    requires { NoneLent (plain_state plant.old) }
    ensures home { NoneLent (plain_state plant.new) }
    ensures there { result ≡ true → IsThere (plain_state plant.old) device }
    ensures length { result ≡ true → Resizes device length (plain_state plant.old) (plain_state plant.new) }
    ensures refused { result ≡ false → SameDevices (plain_state plant.old) (plain_state plant.new) }
{
    is_there(plant, device) && plant.resize(alloc, device, length).is_ok()
}

/// The call of this number on a device fails, and with `stop` all calls that follow. None stands for the console.
pub const fn fail_at(at: Option<Device>, call: u64, stop: bool) -> Fail
    ensures { result ≡ record { at = at; said = 0; call = call; stop = stop } }
{
    Fail {
        at,
        said: 0,
        call,
        stop,
    }
}

/// The same devices and console with their past from now on, of which these calls fail.
pub fn failing(alloc: Global, plain: PlainPlant, fails: &[Fail]) -> Result<MemoryPlant, NoMemory>
    requires { NoneLent (plain_state plain) }
    ensures planned { IfOk result (λ plant. IsPlannedAs fails.now plant) }
    ensures devices { IfOk result (λ plant. SameDevices (plain_state plain) (memory_state plant)) }
    ensures durable { IfOk result (λ plant. (d : AnyDevice) → IsDurable (on (memory_state plant) d)) }
    ensures home { IfOk result (λ plant. NoneLent (memory_state plant)) }
{
    let mut list = FailList::make(alloc);
    list.extend_from_slice(alloc, fails)?;
    let plant = MemoryPlant::make(alloc, plain, list)?;
    Ok(plant)
}
