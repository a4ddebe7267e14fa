//! The targets of duplex pairs: the devices to which their volumes are copied.

ghost use Rattle.std.specs.Prelude.{◌≡◌, ◌≢◌, ◌<◌, ◌≤◌, ◌^◌, take};
ghost use Rattle.crash_plant.specs.declared.device.Device.{Device as AnyDevice};
ghost use Rattle.crash_plant.specs.declared.device.Device.TheVariants.{Volume};
ghost use Rattle.crash_plant.specs.Calls.{IsThere, NoneLent};
ghost use Rattle.pair_table.specs.Tables.{HasRow};
ghost use Rattle.volume_label.specs.Labels.{label_of, volume_need};
ghost use Rattle.xrc_journal.specs.Jobs.{FailsByCount};
ghost use Rattle.xrecover.specs.Works.{Nothing, Works};
ghost use Rattle.third_copy.specs.declared.targets.Target.TheVariants.{Found as FoundTarget, Unread as UnreadTarget};
ghost use Rattle.third_copy.specs.Targets.{HasTarget, by_label, is_unread, target_in, target_of};

use crash_plant::Plant;
use pair_table::{PairRow, PairTable};
use volume_label::{Label, read_label};

/// What a pair has for a target.
#[derive(Clone, Copy, Debug, PartialEq, Eq)]
pub(crate) enum Target {
    /// A volume that no row has, with a label of at least the pair's cylinders.
    Found,
    /// A volume that no row has, whose label could not be read.
    Unread,
    /// No volume, that of a row, or one without such a label.
    Missing,
}

/// What a label makes of a volume that no row has.
fn by_label(label: Option<Label>, cylinders: u32) -> Target
    ensures { result ≡ by_label label cylinders }
{
    match label {
        Some(label) if cylinders <= label.cylinders => Target::Found,
        _ => Target::Missing,
    }
}

/// What a volume that no row has is for a pair of so many cylinders.
fn read_target<P: Plant>(plant: &mut P, device: u16, cylinders: u32) -> Target
    requires there { IsThere (P.state plant.old) (Volume device) }
    ensures works { Works P.tells Nothing (P.state plant.old) (P.state plant.new) }
    ensures found { result ≡ FoundTarget → volume_need cylinders ≤ (P.state plant.old).lengths (Volume device) }
    ensures told { P.tells → result ≢ UnreadTarget → result ≡ by_label (label_of ((P.state plant.old).lengths (Volume device)) (take 14 ((P.state plant.old).bytes (Volume device)))) cylinders }
    ensures count { FailsByCount (is_unread result) ((P.state plant.old).faults (Volume device)) ((P.state plant.new).faults (Volume device)) }
    ensures counts { (d : AnyDevice) → d ≢ Volume device → (P.state plant.new).faults d ≡ (P.state plant.old).faults d }
{
    match read_label(plant, device) {
        Ok(label) => by_label(label, cylinders),
        Err(_) => Target::Unread,
    }
}

/// What a pair has for a target.
pub(crate) fn find_target<P: Plant>(
    plant: &mut P,
    table: &PairTable,
    row: &PairRow,
    shift: u16,
) -> Target
    requires home { NoneLent (P.state plant.old) }
    ensures works { Works P.tells Nothing (P.state plant.old) (P.state plant.new) }
    ensures found { result ≡ FoundTarget → HasTarget (P.state plant.old) table.now.rows shift row.now }
    ensures small { result ≡ FoundTarget → target_of shift row.now < 2 ^ 16 }
    ensures there { result ≡ UnreadTarget → target_of shift row.now < (P.state plant.old).volumes }
    ensures free { result ≡ UnreadTarget → ¬ HasRow (target_of shift row.now) table.now.rows }
    ensures told { P.tells → result ≢ UnreadTarget → result ≡ target_in (P.state plant.old) table.now.rows shift row.now }
    ensures count { FailsByCount (is_unread result) ((P.state plant.old).faults (Volume (target_of shift row.now))) ((P.state plant.new).faults (Volume (target_of shift row.now))) }
    ensures counts { (d : AnyDevice) → d ≢ Volume (target_of shift row.now) → (P.state plant.new).faults d ≡ (P.state plant.old).faults d }
{
    let number = u32::from(row.device) + u32::from(shift);
    if number >= u32::from(plant.volumes()) {
        return Target::Missing;
    }
    let target = row.device + shift;
    if table.row_of(target).is_some() {
        return Target::Missing;
    }
    read_target(plant, target, row.cylinders)
}
