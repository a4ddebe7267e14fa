//! The label on a device.

ghost use Rattle.std.specs.Prelude.{◌≡◌, ◌≤◌, ◌<◌, ◌^◌, take, IfOk, IfSome, IsTrue, None, Ok, OnOk, Some};
ghost use Rattle.xrc_edge.specs.Causes.{HasCause};
ghost use Rattle.crash_plant.specs.declared.device.Device.TheVariants.{Volume};
ghost use Rattle.crash_plant.specs.Bytes.{patched, Torn};
ghost use Rattle.crash_plant.specs.Moments.{on, Follows, IsDurable, Same};
ghost use Rattle.crash_plant.specs.Calls.{IsThere, WorksOn};
ghost use Rattle.volume_label.specs.Labels.{holds_cylinders, label_of, label_spelling};

use crate::label::{LENGTH, Label, decode_label, encode_label};
use crash_plant::{Device, Plant};
use xrc_edge::Failed;

/// The label of a volume. None exactly where it has no valid one; a device of fewer than 14 bytes has none, and isn't read.
pub fn read_label<P: Plant>(plant: &mut P, device: u16) -> Result<Option<Label>, Failed>
    requires { IsThere (P.state plant.old) (Volume device) }
    // What the first bytes that a read gives are.
    ensures label { P.tells → IfOk result (λ label. label ≡ label_of ((P.state plant.old).lengths (Volume device)) (take 14 ((P.state plant.old).bytes (Volume device)))) }
    // One of fewer than 14 bytes has none, and isn't called.
    ensures short { (P.state plant.old).lengths (Volume device) < 14 → (result ≡ Ok None) × (plant.new ≡ plant.old) }
    // Whatever a read gave, the device has room for the label's cylinders.
    ensures room { IfOk result (λ label. IfSome label (λ l. IsTrue (holds_cylinders ((P.state plant.old).lengths (Volume device)) l.cylinders))) }
    // What a read gives stays, and a crash leaves nothing that it couldn't leave before; all else is as before.
    ensures same { P.tells → (P.state plant.new).bytes (Volume device) ≡ (P.state plant.old).bytes (Volume device) }
    ensures moments { P.tells → Follows Same (on (P.state plant.old) (Volume device)) (on (P.state plant.new) (Volume device)) }
    ensures only { WorksOn P.tells (λ d. d ≡ Volume device) (P.state plant.old) (P.state plant.new) }
    ensures cause { HasCause ((P.state plant.old).faults (Volume device)) ((P.state plant.new).faults (Volume device)) result }
{
    let place = Device::Volume(device);
    let length = plant.length(place);
    if length < LENGTH as u64 {
        return Ok(None);
    }
    let mut bytes = [0; LENGTH];
    plant.read(place, 0, &mut bytes)?;
    Ok(decode_label(&bytes, length))
}

/// Writes a volume's label, and syncs it. Where it fails, the label's 14 bytes may be any.
pub fn write_label<P: Plant>(plant: &mut P, device: u16, label: &Label) -> Result<(), Failed>
    requires there { IsThere (P.state plant.old) (Volume device) }
    requires long { 14 ≤ (P.state plant.old).lengths (Volume device) }
    // At every moment of the call all but the label's bytes is as it was.
    ensures moments { P.tells → Follows (Torn 0 14) (on (P.state plant.old) (Volume device)) (on (P.state plant.new) (Volume device)) }
    ensures torn { P.tells → Torn 0 14 ((P.state plant.old).bytes (Volume device)) ((P.state plant.new).bytes (Volume device)) }
    // After Ok the device begins with the label's bytes, in every image.
    ensures written { P.tells → OnOk result ((P.state plant.new).bytes (Volume device) ≡ patched 0 (label_spelling label.now) ((P.state plant.old).bytes (Volume device))) }
    ensures begins { P.tells → OnOk result (take 14 ((P.state plant.new).bytes (Volume device)) ≡ label_spelling label.now) }
    ensures durable { P.tells → OnOk result (IsDurable (on (P.state plant.new) (Volume device))) }
    // A valid one is read there again.
    ensures stands { P.tells → IsTrue (holds_cylinders ((P.state plant.old).lengths (Volume device)) label.now.cylinders) → OnOk result (label_of ((P.state plant.new).lengths (Volume device)) (take 14 ((P.state plant.new).bytes (Volume device))) ≡ Some label.now) }
    ensures others { WorksOn P.tells (λ d. d ≡ Volume device) (P.state plant.old) (P.state plant.new) }
    ensures cause { HasCause ((P.state plant.old).faults (Volume device)) ((P.state plant.new).faults (Volume device)) result }
{
    let place = Device::Volume(device);
    let bytes = encode_label(label);
    plant.write(place, 0, &bytes)?;
    plant.sync(place)
}
