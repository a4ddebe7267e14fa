//! One volume of a duplex pair.

ghost use Rattle.std.specs.Prelude.{◌≡◌, ◌≢◌, ◌≤◌, ◌<◌, ℕ, [], false, IfOk};
ghost use Rattle.ckd_track.specs.SlotPlaces.{slot_end};
ghost use Rattle.crash_plant.specs.declared.device.Device.{Device as AnyDevice};
ghost use Rattle.crash_plant.specs.declared.device.Device.TheVariants.{Volume};
ghost use Rattle.crash_plant.specs.Moments.{Follows, IsDurable, SamePast, on};
ghost use Rattle.crash_plant.specs.Calls.{NoneLent};
ghost use Rattle.xrc_journal.specs.Items.{AreItems, form_of};
ghost use Rattle.xrc_journal.specs.Contents.{HasItem};
ghost use Rattle.xrc_journal.specs.Jobs.{FailsByCount};
ghost use Rattle.applier.specs.Slots.{DiffersInSlots, HoldsContent};
ghost use Rattle.xrecover.specs.Works.{OfOneVolume, Works};
ghost use Rattle.xrecover.specs.RedoneVolumes.{BearsLabel, Redoes};
ghost use Rattle.xrecover.specs.Labels.{TreatsLabel};

use crate::Labelling;
use crash_plant::{Device, Plant};
use pair_table::PairRow;
use volume_label::{Label, write_label};

/// Syncs the volume of a pair, and then labels it where that is asked for. True where a call failed.
pub(crate) fn finish_volume<P: Plant>(plant: &mut P, row: &PairRow, labelling: Labelling) -> bool
    requires home { NoneLent (P.state plant.old) }
    requires there { row.now.device < (P.state plant.old).volumes }
    requires long { 14 ≤ (P.state plant.old).lengths (Volume row.now.device) }
    ensures works { Works P.tells (OfOneVolume row.now.device (Redoes row.now.device [])) (P.state plant.old) (P.state plant.new) }
    ensures fails { FailsByCount result ((P.state plant.old).faults (Volume row.now.device)) ((P.state plant.new).faults (Volume row.now.device)) }
    ensures counts { (d : AnyDevice) → d ≢ Volume row.now.device → (P.state plant.new).faults d ≡ (P.state plant.old).faults d }
    ensures label { P.tells → result ≡ false → BearsLabel labelling row.now ((P.state plant.old).bytes (Volume row.now.device)) ((P.state plant.new).bytes (Volume row.now.device)) }
    ensures durable { P.tells → result ≡ false → IsDurable (on (P.state plant.new) (Volume row.now.device)) }
    ensures treats { P.tells → TreatsLabel labelling row.now [] (P.state plant.old) (P.state plant.new) }
{
    let label = Label {
        serial: row.primary,
        cylinders: row.cylinders,
    };
    match plant.sync(Device::Volume(row.device)) {
        Ok(()) => match labelling {
            Labelling::AsPrimary => write_label(plant, row.device, &label).is_err(),
            Labelling::AsItIs => false,
        },
        Err(_) => true,
    }
}
