//! The next mark.

ghost use Rattle.std.specs.Prelude.{◌≡◌, ◌≤◌, ◌∷◌, drop, not, cond, OnOk, Ok, Some};
ghost use Rattle.crash_plant.specs.declared.layout.TheConstants.{CONTROL_LENGTH};
ghost use Rattle.xrc_edge.specs.Causes.{HasCause};
ghost use Rattle.crash_plant.specs.declared.device.Device.TheVariants.{Control};
ghost use Rattle.crash_plant.specs.Bytes.{patched};
ghost use Rattle.crash_plant.specs.Moments.{on, Follows, IsDurable};
ghost use Rattle.crash_plant.specs.Calls.{WorksOn};
ghost use Rattle.control_set.specs.declared.slot.Slot.TheVariants.{Holds};
ghost use Rattle.control_set.specs.Marks.{IsMark, mark_spelling};
ghost use Rattle.control_set.specs.Slots.{AreSlots, IsNext, NoGateOpen, OldOrNew, chosen_mark, free_place, is_closed, is_second_free, lengths_of, place_of_slot, slot_of};

use crate::Mark;
use crate::choosing::read_slots;
use crate::slot::{Slot, Slots};
use crate::slot_places::{FIRST, SECOND};
use crate::spelling::encode;
use crash_plant::{Device, Plant, put_behind_gate};
use xrc_edge::Failed;

/// Whether the second slot is the one that isn't chosen. With no gate open it is the first.
fn is_second_free(slots: &Slots) -> bool
    ensures { result ≡ is_second_free slots.now.first slots.now.second }
{
    match (slots.first, slots.second) {
        (Slot::Holds(first), Slot::Holds(second)) => second.number < first.number,
        (Slot::Holds(_), _) => true,
        _ => false,
    }
}

fn is_open(slot: Slot) -> bool
    ensures { result ≡ not (is_closed slot) }
{
    match slot {
        Slot::Closed => false,
        _ => true,
    }
}

fn is_gate_open(slots: &Slots, is_second: bool) -> bool
    ensures { result ≡ not (is_closed (cond is_second slots.now.second slots.now.first)) }
{
    if is_second {
        is_open(slots.second)
    } else {
        is_open(slots.first)
    }
}

fn place_of(is_second: bool) -> u64
    ensures { result ≡ place_of_slot is_second }
{
    if is_second { SECOND } else { FIRST }
}

/// Writes a mark into the slot that isn't chosen.
fn put_mark<P: Plant>(plant: &mut P, value: Mark, slots: &Slots) -> Result<(), Failed>
    requires long { CONTROL_LENGTH ≤ (P.state plant.old).lengths Control }
    requires slots { P.tells → AreSlots (lengths_of (P.state plant.old)) ((P.state plant.old).bytes Control) slots.now }
    requires keeps { IsMark (lengths_of (P.state plant.old)) value }
    requires next { P.tells → IsNext (chosen_mark (lengths_of (P.state plant.old)) ((P.state plant.old).bytes Control)) value.number }
    requires durable { P.tells → IsDurable (on (P.state plant.old) Control) }
    ensures moments { P.tells → Follows (OldOrNew (lengths_of (P.state plant.old)) value (free_place (lengths_of (P.state plant.old)) ((P.state plant.old).bytes Control))) (on (P.state plant.old) Control) (on (P.state plant.new) Control) }
    ensures written { P.tells → OnOk result ((P.state plant.new).bytes Control ≡ patched (free_place (lengths_of (P.state plant.old)) ((P.state plant.old).bytes Control)) (1 ∷ mark_spelling value) ((P.state plant.old).bytes Control)) }
    ensures stands { P.tells → OnOk result (slot_of (lengths_of (P.state plant.old)) (drop (free_place (lengths_of (P.state plant.old)) ((P.state plant.old).bytes Control)) ((P.state plant.new).bytes Control)) ≡ Holds value) }
    ensures chosen { P.tells → OnOk result (chosen_mark (lengths_of (P.state plant.old)) ((P.state plant.new).bytes Control) ≡ Ok (Some value)) }
    ensures durable { P.tells → OnOk result (IsDurable (on (P.state plant.new) Control)) }
    ensures only { WorksOn P.tells (λ d. d ≡ Control) (P.state plant.old) (P.state plant.new) }
    ensures cause { HasCause ((P.state plant.old).faults Control) ((P.state plant.new).faults Control) result }
{
    let body = encode(&value);
    let is_second = is_second_free(slots);
    let is_open = is_gate_open(slots, is_second);
    put_behind_gate(plant, Device::Control, place_of(is_second), is_open, &body)
}

/// Writes the next mark, into the slot that isn't chosen.
pub fn mark<P: Plant>(plant: &mut P, value: &Mark) -> Result<(), Failed>
    requires long { CONTROL_LENGTH ≤ (P.state plant.old).lengths Control }
    // The value keeps the format's table, and its number is the next.
    requires keeps { IsMark (lengths_of (P.state plant.old)) value.now }
    requires next { P.tells → IsNext (chosen_mark (lengths_of (P.state plant.old)) ((P.state plant.old).bytes Control)) value.now.number }
    // Every image is what a read gives.
    requires durable { P.tells → IsDurable (on (P.state plant.old) Control) }
    // At every moment of the call the chosen mark is the old one or the new one, and all but the free slot is as it was.
    ensures moments { P.tells → Follows (OldOrNew (lengths_of (P.state plant.old)) value.now (free_place (lengths_of (P.state plant.old)) ((P.state plant.old).bytes Control))) (on (P.state plant.old) Control) (on (P.state plant.new) Control) }
    // After Ok the mark stands in the free slot, and is the chosen one, in every image. With no gate open that is slot 0.
    ensures written { P.tells → OnOk result ((P.state plant.new).bytes Control ≡ patched (free_place (lengths_of (P.state plant.old)) ((P.state plant.old).bytes Control)) (1 ∷ mark_spelling value.now) ((P.state plant.old).bytes Control)) }
    ensures chosen { P.tells → OnOk result (chosen_mark (lengths_of (P.state plant.old)) ((P.state plant.new).bytes Control) ≡ Ok (Some value.now)) }
    ensures first { P.tells → NoGateOpen ((P.state plant.old).bytes Control) → OnOk result (slot_of (lengths_of (P.state plant.old)) ((P.state plant.new).bytes Control) ≡ Holds value.now) }
    ensures durable { P.tells → OnOk result (IsDurable (on (P.state plant.new) Control)) }
    // All else is as before, on all devices and the console.
    ensures only { WorksOn P.tells (λ d. d ≡ Control) (P.state plant.old) (P.state plant.new) }
    ensures cause { HasCause ((P.state plant.old).faults Control) ((P.state plant.new).faults Control) result }
{
    let slots = read_slots(plant)?;
    put_mark(plant, *value, &slots)
}
