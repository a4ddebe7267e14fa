//! A gate that is open is closed on the disk before anything is written behind it, and is opened by a write of its own after a
//! sync. A gate that isn't open is written only to open it.

ghost use Rattle.std.specs.Prelude.{◌≡◌, ◌≢◌, ◌≤◌, ◌<◌, ◌+◌, ◌^◌, ◌∷◌, [], length, OnOk, true, false, slice_index};
ghost use Rattle.xrc_edge.specs.Causes.{HasCause};
ghost use Rattle.crash_plant.specs.Bytes.{patched, Torn};
ghost use Rattle.crash_plant.specs.Moments.{on, Follows, IsDurable, Stays};
ghost use Rattle.crash_plant.specs.Calls.{IsThere, WorksOn};
ghost use Rattle.crash_plant.specs.Gates.{Shuts, Gated};

use crate::{Device, Plant};
use xrc_edge::Failed;

/// Writes bytes over what is there, and syncs them. Where it fails, their range may hold any bytes.
pub fn put_down<P: Plant>(
    plant: &mut P,
    device: Device,
    place: u64,
    bytes: &[u8],
) -> Result<(), Failed>
    requires there { IsThere (P.state plant.old) device }
    requires range { place + length bytes.now ≤ (P.state plant.old).lengths device }
    ensures written { P.tells → OnOk result ((P.state plant.new).bytes device ≡ patched place bytes.now ((P.state plant.old).bytes device)) }
    ensures durable { P.tells → OnOk result (IsDurable (on (P.state plant.new) device)) }
    ensures moments { P.tells → Follows (Torn place (length bytes.now)) (on (P.state plant.old) device) (on (P.state plant.new) device) }
    ensures only { WorksOn P.tells (λ d. d ≡ device) (P.state plant.old) (P.state plant.new) }
    ensures cause { HasCause ((P.state plant.old).faults device) ((P.state plant.new).faults device) result }
{
    plant.write(device, place, bytes)?;
    plant.sync(device)
}

/// Closes a gate. `is_open` says whether it is open now; one that isn't is left as it is.
fn close_gate<P: Plant>(
    plant: &mut P,
    device: Device,
    place: u64,
    is_open: bool,
) -> Result<(), Failed>
    requires there { IsThere (P.state plant.old) device }
    requires range { place + 1 ≤ (P.state plant.old).lengths device }
    requires durable { P.tells → IsDurable (on (P.state plant.old) device) }
    requires opened { P.tells → is_open ≡ true → slice_index ((P.state plant.old).bytes device) place ≡ 1 }
    requires closed { P.tells → is_open ≡ false → slice_index ((P.state plant.old).bytes device) place ≢ 1 }
    // An open gate has the byte 0 afterwards. Nothing is done about another.
    ensures written { P.tells → is_open ≡ true → OnOk result ((P.state plant.new).bytes device ≡ patched place (0 ∷ []) ((P.state plant.old).bytes device)) }
    ensures left { P.tells → is_open ≡ false → Stays (on (P.state plant.old) device) (on (P.state plant.new) device) }
    ensures torn { P.tells → OnOk result (Torn place 1 ((P.state plant.old).bytes device) ((P.state plant.new).bytes device)) }
    ensures shut { P.tells → OnOk result (slice_index ((P.state plant.new).bytes device) place ≢ 1) }
    ensures durable { P.tells → OnOk result (IsDurable (on (P.state plant.new) device)) }
    ensures moments { P.tells → Follows (Shuts place) (on (P.state plant.old) device) (on (P.state plant.new) device) }
    ensures others { WorksOn P.tells (λ d. d ≡ device) (P.state plant.old) (P.state plant.new) }
    ensures cause { HasCause ((P.state plant.old).faults device) ((P.state plant.new).faults device) result }
{
    if is_open {
        return put_down(plant, device, place, &[0]);
    }
    Ok(())
}

/// Writes a body behind a gate, and opens the gate. `is_open` says whether it is open now. Where it fails, the gate may be open
/// only before a whole body, the old one or the new one.
pub fn put_behind_gate<P: Plant>(
    plant: &mut P,
    device: Device,
    place: u64,
    is_open: bool,
    body: &[u8],
) -> Result<(), Failed>
    requires there { IsThere (P.state plant.old) device }
    requires range { place + 1 + length body.now ≤ (P.state plant.old).lengths device }
    requires fits { place + 1 < 2 ^ 64 }
    requires durable { P.tells → IsDurable (on (P.state plant.old) device) }
    requires opened { P.tells → is_open ≡ true → slice_index ((P.state plant.old).bytes device) place ≡ 1 }
    requires closed { P.tells → is_open ≡ false → slice_index ((P.state plant.old).bytes device) place ≢ 1 }
    ensures written { P.tells → OnOk result ((P.state plant.new).bytes device ≡ patched place (1 ∷ body.now) ((P.state plant.old).bytes device)) }
    ensures durable { P.tells → OnOk result (IsDurable (on (P.state plant.new) device)) }
    // At every moment all is as it was, or the gate isn't open, or the whole body stands behind it.
    ensures moments { P.tells → Follows (Gated place body.now) (on (P.state plant.old) device) (on (P.state plant.new) device) }
    ensures others { WorksOn P.tells (λ d. d ≡ device) (P.state plant.old) (P.state plant.new) }
    ensures cause { HasCause ((P.state plant.old).faults device) ((P.state plant.new).faults device) result }
{
    close_gate(plant, device, place, is_open)?;
    put_down(plant, device, place + 1, body)?;
    put_down(plant, device, place, &[1])
}
