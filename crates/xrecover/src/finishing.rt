//! The volumes of duplex pairs whose items were redone, synced and labelled.

ghost use Rattle.std.specs.Prelude.{◌≡◌, ◌≤◌, ◌<◌, [], ℕ, length, true, false, vec_capacity, None, IsTrue};
ghost use Rattle.crash_plant.specs.Calls.{NoneLent};
ghost use Rattle.crash_plant.specs.declared.device.Device.{Device as AnyDevice};
ghost use Rattle.crash_plant.specs.declared.device.Device.TheVariants.{Volume};
ghost use Rattle.pair_table.specs.Tables.{are_below};
ghost use Rattle.site_means.specs.Answers.{IsStore};
ghost use Rattle.xrecover.specs.Pairs.{first_small};
ghost use Rattle.xrecover.specs.FinishedPairs.{FinishesPairs, FinishesVolume};
ghost use Rattle.xrecover.specs.SideVolumes.{AreHome, is_left};

use crate::Labelling;
use crate::volumes::finish_volume;
use applier::VolumeJob;
use crash_plant::Plant;
use pair_table::{DeviceList, PairRow, PairTable};

/// Finishes the volume of a pair, unless it is left alone. True where it is, or where a call failed.
fn finish_unless_left<P: Plant>(
    plant: &mut P,
    row: &PairRow,
    left: bool,
    labelling: Labelling,
) -> bool
    requires home { NoneLent (P.state plant.old) }
    requires there { row.now.device < (P.state plant.old).volumes }
    requires long { 14 ≤ (P.state plant.old).lengths (Volume row.now.device) }
    ensures left { left ≡ true → (result ≡ true) × (plant.new ≡ plant.old) }
    ensures finishes { left ≡ false → FinishesVolume P.tells labelling row.now result (P.state plant.old) (P.state plant.new) }
{
    if left {
        return true;
    }
    finish_volume(plant, row, labelling)
}

/// Finishes the volumes of the duplex pairs in the order of their rows, but those that failed, and gives the devices that have failed by
/// then. The first that fails doesn't end the others. It takes no memory.
pub(crate) fn finish_pairs<P: Plant>(
    plant: &mut P,
    table: &PairTable,
    jobs: &[VolumeJob<P::Volume>],
    failed: Vec<u16>,
    labelling: Labelling,
) -> DeviceList
    requires home { NoneLent (P.state plant.old) }
    requires below { IsTrue (are_below (P.state plant.old).volumes table.now.rows) }
    requires big { first_small (P.state plant.old) table.now.rows ≡ None }
    requires jobs { AreHome (P.state plant.old).volumes jobs.now }
    requires empty { failed.items ≡ [] }
    requires places { length table.now.rows ≤ vec_capacity failed }
    ensures finishes { FinishesPairs P.tells labelling table.now.rows (is_left jobs.now) result (P.state plant.old) (P.state plant.new) }
    ensures counts { (d : AnyDevice) → IsStore d → (P.state plant.new).faults d ≡ (P.state plant.old).faults d }
{
    let mut failed = failed;
    for place in 0..table.len() {
        let row = *table.row(place).unwrap();
        if row.state.is_duplex() {
            let left = jobs[usize::from(row.device)].failed;
            if finish_unless_left(plant, &row, left, labelling) {
                failed.push_reserved(row.device);
            }
        }
    }
    DeviceList::of(failed)
}
