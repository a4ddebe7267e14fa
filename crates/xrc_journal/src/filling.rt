//! A body's buffer filled from a device.

ghost use Rattle.std.specs.Prelude.{◌≡◌, ◌≤◌, ◌+◌, ◌==◌, ℕ, length, IfOk, OnErr, Some, None, if◌then◌else◌, take};
ghost use Rattle.xrc_edge.specs.Causes.{HasCause};
ghost use Rattle.crash_plant.specs.Moments.{on, Follows, Same};
ghost use Rattle.crash_plant.specs.Calls.{IsThere, NoneLent, WorksOn};
ghost use Rattle.xrc_journal.specs.Items.{AreItems, form_of};
ghost use Rattle.xrc_journal.specs.Reading.{items_at};
ghost use Rattle.xrc_journal.specs.Records.{stretch};
ghost use Rattle.xrc_journal.specs.Bodies.{HoldsItems, items_of};

use crate::item::good_length;
use crash_plant::{Device, Plant};
use std::alloc::Global;
use xrc_edge::Failed;

/// Reads bytes of a device into the front of a buffer, and closes the gate after the good items at their front. Gives the
/// length of these. Where it fails the gate is the first byte.
pub(crate) fn fill<P: Plant>(
    plant: &mut P,
    alloc: Global,
    device: Device,
    place: u64,
    buffer: &mut [u8],
    count: usize,
) -> Result<usize, Failed>
    requires there { IsThere (P.state plant.old) device }
    requires home { NoneLent (P.state plant.old) }
    requires range { place + count ≤ (P.state plant.old).lengths device }
    requires room { count + 1 ≤ length buffer.old }
    ensures holds { IfOk result (λ good. HoldsItems good buffer.new) }
    ensures keep { IfOk result (λ good. AreItems (form_of (P.state plant.old)) (items_of (take good buffer.new))) }
    ensures within { IfOk result (λ good. good ≤ count) }
    ensures items { P.tells → IfOk result (λ good. items_at (form_of (P.state plant.old)) place (stretch place count ((P.state plant.old).bytes device)) ≡ record { good = items_of (take good buffer.new); bad = if good == count then None else Some (place + good) }) }
    ensures err { OnErr result (HoldsItems 0 buffer.new) }
    ensures size { length buffer.new ≡ length buffer.old }
    ensures same { P.tells → (P.state plant.new).bytes device ≡ (P.state plant.old).bytes device }
    ensures moments { P.tells → Follows Same (on (P.state plant.old) device) (on (P.state plant.new) device) }
    ensures only { WorksOn P.tells (λ d. d ≡ device) (P.state plant.old) (P.state plant.new) }
    ensures cause { HasCause ((P.state plant.old).faults device) ((P.state plant.new).faults device) result }
{
    match plant.read(device, place, &mut buffer[..count]) {
        Ok(()) => {
            let good = good_length(plant, alloc, &buffer[..count]);
            buffer[good] = 0;
            Ok(good)
        }
        Err(Failed) => {
            buffer[0] = 0;
            Err(Failed)
        }
    }
}
