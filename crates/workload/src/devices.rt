//! The devices of a generated input.

ghost use Rattle.std.specs.Prelude.{◌≤◌, ◌<◌, IfOk};
ghost use Rattle.crash_plant.specs.declared.device.Device.TheVariants.{Volume};
ghost use Rattle.crash_plant.specs.Calls.{IsThere};
ghost use Rattle.crash_plant.specs.PlainPlant.{plain_state};
ghost use Rattle.workload.specs.declared.layout.TheConstants.{PAIRS};
ghost use Rattle.workload.specs.Sites.{HoldsInput, LabelsVolume};

use crate::layout::{CONTROLS, CYLINDERS, JOURNALS, PAIRS};
use crate::script::script;
use crate::serials::secondary;
use crash_plant::PlainPlant;
use std::alloc::Global;
use volume_label::{Label, need, write_label};
use xrc_edge::{Failed, NoMemory};
use xrc_journal::journal_length;

/// Labels a volume as the secondary of its number.
fn label(plant: &mut PlainPlant, device: u16)
    requires device { device < PAIRS }
    requires there { IsThere (plain_state plant.old) (Volume device) }
    requires long { 14 ≤ (plain_state plant.old).lengths (Volume device) }
    ensures { LabelsVolume device (plain_state plant.old) (plain_state plant.new) }
{
    let label = Label {
        serial: secondary(device),
        cylinders: CYLINDERS,
    };
    match write_label(plant, device, &label) {
        Ok(()) => {}
        // A plant in memory counts no faults of its devices.
        Err(Failed) => unreachable!(),
    }
}

/// The plant before the session: journals that are long enough for it, a labelled volume of one cylinder for each pair, zeros
/// elsewhere, and the script.
pub(crate) fn plant(alloc: Global) -> Result<PlainPlant, NoMemory>
    ensures { IfOk result (λ plant. HoldsInput (plain_state plant)) }
{
    let length = journal_length(CONTROLS);
    let script = script(alloc)?;
    let mut plant = PlainPlant::make(alloc, JOURNALS, length, PAIRS, need(CYLINDERS), script)?;
    for device in 0..PAIRS {
        label(&mut plant, device);
    }
    Ok(plant)
}
