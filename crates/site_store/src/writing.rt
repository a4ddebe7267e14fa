//! The state and the mark, as they are written.

ghost use Rattle.std.specs.Prelude.{◌≡◌, ◌≤◌, slice_index, OnOk, IsErrOf, IsTrue, Ok, Some, None};
ghost use Rattle.crash_plant.specs.declared.layout.TheConstants.{CONTROL_LENGTH, STATE_LENGTH};
ghost use Rattle.crash_plant.specs.declared.device.Device.{Device as AnyDevice};
ghost use Rattle.crash_plant.specs.declared.device.Device.TheVariants.{Control, State};
ghost use Rattle.crash_plant.specs.Moments.{on, IsDurable};
ghost use Rattle.crash_plant.specs.Calls.{WorksOn};
ghost use Rattle.control_set.specs.Marks.{IsMark};
ghost use Rattle.control_set.specs.Slots.{IsNext, NoGateOpen, chosen_mark, lengths_of};
ghost use Rattle.pair_table.specs.Tables.{are_below};
ghost use Rattle.site_store.specs.declared.store_error.StoreError.TheVariants.{Fault, Spent};
ghost use Rattle.site_store.specs.Formats.{second_slot};
ghost use Rattle.site_store.specs.Marking.{AllPutMark, IsMarked, MarkIsPut};
ghost use Rattle.site_store.specs.Causes.{HasStoreCause};

use crate::StoreError;
use control_set::Mark;
use crash_plant::{Device, Plant};
use pair_table::{Level, PairTable};

/// Writes the level and the rows into a mark's slot of the state, and the mark after them.
pub(crate) fn put_mark<P: Plant>(
    plant: &mut P,
    level: Level,
    table: &PairTable,
    value: &Mark,
) -> Result<(), StoreError>
    requires control { CONTROL_LENGTH ≤ (P.state plant.old).lengths Control }
    requires state { STATE_LENGTH ≤ (P.state plant.old).lengths State }
    requires devices { IsTrue (are_below (P.state plant.old).volumes table.now.rows) }
    requires keeps { IsMark (lengths_of (P.state plant.old)) value.now }
    requires session { value.now.session ≡ table.now.session }
    requires next { P.tells → IsNext (chosen_mark (lengths_of (P.state plant.old)) ((P.state plant.old).bytes Control)) value.now.number }
    requires durable { P.tells → IsDurable (on (P.state plant.old) Control) }
    // At every moment the old mark counts, or the new one does and its slot holds the level and the rows.
    ensures moments { P.tells → AllPutMark value.now (record { level = level; rows = table.now.rows }) (P.state plant.old) (P.state plant.new) }
    // With no gate open it goes to the first slot, and the gate of the second stays.
    ensures second { P.tells → NoGateOpen ((P.state plant.old).bytes Control) → OnOk result (slice_index ((P.state plant.new).bytes Control) second_slot ≡ slice_index ((P.state plant.old).bytes Control) second_slot) }
    // After Ok the new one does, whatever a crash leaves.
    ensures put { P.tells → OnOk result (MarkIsPut value.now (record { level = level; rows = table.now.rows }) (P.state plant.new)) }
    ensures only { WorksOn P.tells IsMarked (P.state plant.old) (P.state plant.new) }
    // Why it fails.
    ensures cause { HasStoreCause (P.state plant.old).faults (P.state plant.new).faults result }
    ensures unspent { ¬ IsErrOf result Spent }
    ensures marked { (d : AnyDevice) → IsErrOf result (Fault d) → IsMarked d }
{
    let Ok(()) = state_set::put(plant, value.state_slot, level, table) else {
        return Err(StoreError::Fault(Device::State));
    };
    let Ok(()) = control_set::mark(plant, value) else {
        return Err(StoreError::Fault(Device::Control));
    };
    Ok(())
}
