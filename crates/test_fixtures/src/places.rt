//! Devices of a plant of which no volume is lent, and the bytes at their places.

ghost use Rattle.std.specs.Prelude.{◌≡◌, ◌≤◌, ◌+◌, ◌↔◌, true, false, length, slice_range, IfSome, IsNone};
ghost use Rattle.crash_plant.specs.Bytes.{patched};
ghost use Rattle.crash_plant.specs.Calls.{IsThere, NoneLent, SameSite};
ghost use Rattle.xrc_edge.specs.Causes.{Rose};

use crash_plant::{Device, Plant};

/// Whether the plant has a device.
pub fn is_there<P: Plant>(plant: &P, device: Device) -> bool
    requires { NoneLent (P.state plant.now) }
    ensures { (result ≡ true) ↔ IsThere (P.state plant.now) device }
{
    match device {
        Device::Control | Device::State => true,
        Device::Journal(number) => number < plant.journals(),
        Device::Volume(number) => number < plant.volumes(),
    }
}

/// Whether the plant has a device with so many bytes from a place on.
pub fn is_within<P: Plant>(plant: &P, device: Device, place: u64, count: usize) -> bool
    requires { NoneLent (P.state plant.now) }
    ensures there { result ≡ true → IsThere (P.state plant.now) device }
    ensures within { IsThere (P.state plant.now) device → (result ≡ true) ↔ (place + count ≤ (P.state plant.now).lengths device) }
{
    if !is_there(plant, device) {
        return false;
    }
    let length = plant.length(device);
    place <= length && count as u64 <= length - place
}

/// Writes bytes at a place of a device. Says whether they lie within it and were written.
#[tactic(auto, using(crash_plant::proofs::Steps::none_lent_then))]
pub fn put<P: Plant>(plant: &mut P, device: Device, place: u64, bytes: &[u8]) -> bool
    requires { NoneLent (P.state plant.old) }
    ensures home { NoneLent (P.state plant.new) }
    ensures site { SameSite (P.state plant.old) (P.state plant.new) }
    ensures there { result ≡ true → IsThere (P.state plant.old) device }
    ensures written { P.tells → result ≡ true → (P.state plant.new).bytes device ≡ patched place bytes.now ((P.state plant.old).bytes device) }
    ensures cause { result ≡ false → IsThere (P.state plant.old) device → place + length bytes.now ≤ (P.state plant.old).lengths device → Rose ((P.state plant.old).faults device) ((P.state plant.new).faults device) }
{
    is_within(plant, device, place, bytes.len()) && plant.write(device, place, bytes).is_ok()
}

/// So many bytes from a place of a device on. None where they don't lie within it or can't be read.
#[tactic(auto, using(crash_plant::proofs::Steps::none_lent_then))]
pub fn content<P: Plant, const N: usize>(
    plant: &mut P,
    device: Device,
    place: u64,
) -> Option<[u8; N]>
    requires { NoneLent (P.state plant.old) }
    ensures home { NoneLent (P.state plant.new) }
    ensures site { SameSite (P.state plant.old) (P.state plant.new) }
    ensures found { P.tells → IfSome result (λ bytes. bytes ≡ slice_range ((P.state plant.old).bytes device) place (place + N)) }
    ensures cause { IsNone result → IsThere (P.state plant.old) device → place + N ≤ (P.state plant.old).lengths device → Rose ((P.state plant.old).faults device) ((P.state plant.new).faults device) }
{
    if !is_within(plant, device, place, N) {
        return None;
    }
    // Not zeros, so that a read that writes nothing shows.
    let mut bytes = [9; N];
    match plant.read(device, place, &mut bytes) {
        Ok(()) => Some(bytes),
        Err(_) => None,
    }
}
