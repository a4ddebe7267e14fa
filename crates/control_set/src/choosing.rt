//! The mark that counts.

ghost use Rattle.std.specs.Prelude.{◌≡◌, ◌≤◌, ◌+◌, ◌↔◌, ℕ, drop, IfOk, IfSome, OnOk, IsErrOf, Ok, Err, None};
ghost use Rattle.crash_plant.specs.declared.layout.TheConstants.{CONTROL_LENGTH};
ghost use Rattle.xrc_edge.specs.Causes.{HasCause, Rose};
ghost use Rattle.crash_plant.specs.declared.device.Device.TheVariants.{Control};
ghost use Rattle.crash_plant.specs.Moments.{on, Follows, Same};
ghost use Rattle.crash_plant.specs.Calls.{WorksOn};
ghost use Rattle.control_set.specs.declared.choosing.ChooseError.TheVariants.{Damaged, Fault};
ghost use Rattle.control_set.specs.Marks.{IsMark};
ghost use Rattle.control_set.specs.Slots.{AreSlots, HoldsMark, NoGateOpen, chosen_mark, chosen_of, lengths_of, slot_of};

use crate::Mark;
use crate::slot::{SLOT, Slot, Slots, decode};
use crate::slot_places::{FIRST, SECOND};
use crash_plant::{Device, Plant};
use xrc_edge::Failed;

/// Why there is no telling which mark counts.
#[derive(Clone, Copy, Debug, PartialEq, Eq)]
pub enum ChooseError {
    /// A slot is damaged, whose first byte stands at this place of the control.
    Damaged(u64),
    /// The control has failed.
    Fault,
}

/// Reads the slot at a place.
pub(crate) fn read_slot<P: Plant>(plant: &mut P, place: u64) -> Result<Slot, Failed>
    requires { place + 49 ≤ (P.state plant.old).lengths Control }
    ensures slot { P.tells → IfOk result (λ slot. slot ≡ slot_of (lengths_of (P.state plant.old)) (drop place ((P.state plant.old).bytes Control))) }
    ensures keeps { IfOk result (λ slot. HoldsMark (lengths_of (P.state plant.old)) slot) }
    ensures same { P.tells → (P.state plant.new).bytes Control ≡ (P.state plant.old).bytes Control }
    ensures moments { P.tells → Follows Same (on (P.state plant.old) Control) (on (P.state plant.new) Control) }
    ensures only { WorksOn P.tells (λ d. d ≡ Control) (P.state plant.old) (P.state plant.new) }
    ensures cause { HasCause ((P.state plant.old).faults Control) ((P.state plant.new).faults Control) result }
{
    let mut bytes = [0; SLOT];
    plant.read(Device::Control, place, &mut bytes)?;
    Ok(decode(plant, &bytes))
}

/// Reads both slots.
pub(crate) fn read_slots<P: Plant>(plant: &mut P) -> Result<Slots, Failed>
    requires { CONTROL_LENGTH ≤ (P.state plant.old).lengths Control }
    ensures slots { P.tells → IfOk result (λ slots. AreSlots (lengths_of (P.state plant.old)) ((P.state plant.old).bytes Control) slots) }
    ensures same { P.tells → (P.state plant.new).bytes Control ≡ (P.state plant.old).bytes Control }
    ensures moments { P.tells → Follows Same (on (P.state plant.old) Control) (on (P.state plant.new) Control) }
    ensures only { WorksOn P.tells (λ d. d ≡ Control) (P.state plant.old) (P.state plant.new) }
    ensures cause { HasCause ((P.state plant.old).faults Control) ((P.state plant.new).faults Control) result }
{
    let first = read_slot(plant, FIRST)?;
    let second = read_slot(plant, SECOND)?;
    Ok(Slots { first, second })
}

/// The mark with the greater number, or the place of the first slot that is bad.
fn chosen(first: Slot, second: Slot) -> Result<Option<Mark>, u64>
    ensures { result ≡ chosen_of first second }
{
    match (first, second) {
        (Slot::Damaged, _) => Err(FIRST),
        (_, Slot::Damaged) => Err(SECOND),
        (Slot::Closed, Slot::Closed) => Ok(None),
        (Slot::Holds(mark), Slot::Closed) | (Slot::Closed, Slot::Holds(mark)) => Ok(Some(mark)),
        (Slot::Holds(first), Slot::Holds(second)) => {
            if first.number == second.number {
                Err(SECOND)
            } else if first.number < second.number {
                Ok(Some(second))
            } else {
                Ok(Some(first))
            }
        }
    }
}

/// Chooses beside a first slot that has been read and isn't damaged.
fn choose_beside<P: Plant>(plant: &mut P, first: Slot) -> Result<Option<Mark>, ChooseError>
    requires long { CONTROL_LENGTH ≤ (P.state plant.old).lengths Control }
    requires keeps { HoldsMark (lengths_of (P.state plant.old)) first }
    ensures chosen { P.tells → IfOk result (λ found. chosen_of first (slot_of (lengths_of (P.state plant.old)) (drop SECOND ((P.state plant.old).bytes Control))) ≡ Ok found) }
    ensures keeps { IfOk result (λ found. IfSome found (IsMark (lengths_of (P.state plant.old)))) }
    ensures damaged { P.tells → (place : ℕ) → IsErrOf result (Damaged place) → chosen_of first (slot_of (lengths_of (P.state plant.old)) (drop SECOND ((P.state plant.old).bytes Control))) ≡ Err place }
    ensures fault { IsErrOf result Fault → Rose ((P.state plant.old).faults Control) ((P.state plant.new).faults Control) }
    ensures ok_without_fault { OnOk result ((P.state plant.new).faults Control ≡ (P.state plant.old).faults Control) }
    ensures damaged_without_fault { (place : ℕ) → IsErrOf result (Damaged place) → (P.state plant.new).faults Control ≡ (P.state plant.old).faults Control }
    ensures same { P.tells → (P.state plant.new).bytes Control ≡ (P.state plant.old).bytes Control }
    ensures moments { P.tells → Follows Same (on (P.state plant.old) Control) (on (P.state plant.new) Control) }
    ensures only { WorksOn P.tells (λ d. d ≡ Control) (P.state plant.old) (P.state plant.new) }
{
    match read_slot(plant, SECOND) {
        Ok(second) => match chosen(first, second) {
            Ok(found) => Ok(found),
            Err(place) => Err(ChooseError::Damaged(place)),
        },
        Err(Failed) => Err(ChooseError::Fault),
    }
}

/// The mark that counts: that of the slot with an open gate and the greater number. None exactly where no gate is open. A
/// damaged first slot is answered before the second one is read.
pub fn choose<P: Plant>(plant: &mut P) -> Result<Option<Mark>, ChooseError>
    requires { CONTROL_LENGTH ≤ (P.state plant.old).lengths Control }
    // The chosen mark of what a read gives, or its first bad place.
    ensures chosen { P.tells → IfOk result (λ found. chosen_mark (lengths_of (P.state plant.old)) ((P.state plant.old).bytes Control) ≡ Ok found) }
    ensures damaged { P.tells → (place : ℕ) → IsErrOf result (Damaged place) → chosen_mark (lengths_of (P.state plant.old)) ((P.state plant.old).bytes Control) ≡ Err place }
    ensures none { P.tells → IfOk result (λ found. (found ≡ None) ↔ NoGateOpen ((P.state plant.old).bytes Control)) }
    // Whatever a read gave, a mark that is answered keeps the format's table.
    ensures keeps { IfOk result (λ found. IfSome found (IsMark (lengths_of (P.state plant.old)))) }
    // Why it fails.
    ensures fault { IsErrOf result Fault → Rose ((P.state plant.old).faults Control) ((P.state plant.new).faults Control) }
    ensures ok_without_fault { OnOk result ((P.state plant.new).faults Control ≡ (P.state plant.old).faults Control) }
    ensures damaged_without_fault { (place : ℕ) → IsErrOf result (Damaged place) → (P.state plant.new).faults Control ≡ (P.state plant.old).faults Control }
    // What a read of the control gives stays, and a crash leaves nothing there that it couldn't leave before; all else is as before.
    ensures same { P.tells → (P.state plant.new).bytes Control ≡ (P.state plant.old).bytes Control }
    ensures moments { P.tells → Follows Same (on (P.state plant.old) Control) (on (P.state plant.new) Control) }
    ensures others { WorksOn P.tells (λ d. d ≡ Control) (P.state plant.old) (P.state plant.new) }
{
    match read_slot(plant, FIRST) {
        Ok(Slot::Damaged) => Err(ChooseError::Damaged(FIRST)),
        Ok(first) => choose_beside(plant, first),
        Err(Failed) => Err(ChooseError::Fault),
    }
}
