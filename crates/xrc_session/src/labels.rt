//! The labels of the volumes.

ghost use Rattle.std.specs.Prelude.{◌+◌, ◌≡◌, ◌≤◌, ◌<◌, ◌++◌, [], None, Some, OnErr, OnOk, List};
ghost use Rattle.xrc_edge.specs.declared.limits.TheConstants.{MOST_SITE_VOLUMES};
ghost use Rattle.crash_plant.specs.Calls.{NoneLent, WorksOn};
ghost use Rattle.site_store.specs.Commands.{LabelsFit};
ghost use Rattle.site_store.specs.Records.{IsVolume, VolumesStay};
ghost use Rattle.crash_plant.specs.declared.device.Device.TheVariants.{Volume};
ghost use Rattle.xrc_session.specs.Runs.{AreLabelsRead, NamesLabel};

use crash_plant::Plant;
use pair_table::Names;
use std::alloc::Global;
use volume_label::read_label;
use xrc_edge::NoMemory;

/// Names a device by its label, if it has a valid one. One that can't be read counts as none.
fn name_device<P: Plant>(
    alloc: Global,
    plant: &mut P,
    names: &mut Names,
    device: u16,
) -> Result<(), NoMemory>
    requires home { NoneLent (P.state plant.old) }
    requires there { device < (P.state plant.old).volumes }
    requires few { (P.state plant.old).volumes ≤ MOST_SITE_VOLUMES }
    requires fit { LabelsFit (P.state plant.old) names.old }
    // Its own label alone, if it gives one. It gives none if its count rose.
    ensures label { P.tells → OnOk result (NamesLabel (P.state plant.old) (P.state plant.new) device names.old names.new) }
    ensures others { OnOk result ((names.new.primaries ≡ names.old.primaries) × (names.new.broken ≡ names.old.broken)) }
    // Memory is wanted only for a label that was read: its volume's count is as before.
    ensures memory { OnErr result ((P.state plant.new).faults (Volume device) ≡ (P.state plant.old).faults (Volume device)) }
    ensures fit { LabelsFit (P.state plant.new) names.new }
    ensures stay { VolumesStay P.tells (P.state plant.old) (P.state plant.new) }
    ensures only { WorksOn P.tells (λ d. d ≡ Volume device) (P.state plant.old) (P.state plant.new) }
{
    match read_label(plant, device) {
        Ok(Some(label)) => names.label(alloc, device, label.serial, label.cylinders),
        Ok(None) | Err(_) => Ok(()),
    }
}

/// Names the devices by their labels.
pub(crate) fn name_devices<P: Plant>(
    alloc: Global,
    plant: &mut P,
    names: &mut Names,
) -> Result<(), NoMemory>
    requires home { NoneLent (P.state plant.old) }
    requires few { (P.state plant.old).volumes ≤ MOST_SITE_VOLUMES }
    requires none { names.old.labels ≡ [] }
    ensures labels { P.tells → OnOk result (AreLabelsRead (P.state plant.old) (P.state plant.new) names.new.labels) }
    ensures others { OnOk result ((names.new.primaries ≡ names.old.primaries) × (names.new.broken ≡ names.old.broken)) }
    ensures fit { LabelsFit (P.state plant.new) names.new }
    ensures stay { VolumesStay P.tells (P.state plant.old) (P.state plant.new) }
    ensures only { WorksOn P.tells IsVolume (P.state plant.old) (P.state plant.new) }
{
    for device in 0..plant.volumes() {
        name_device(alloc, plant, names, device)?;
    }
    Ok(())
}
