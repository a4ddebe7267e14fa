//! The next progress, and a target without any.

ghost use Rattle.std.specs.Prelude.{◌≡◌, ◌≢◌, ◌≤◌, ◌+◌, ◌∷◌, cond, false, true, slice_index, OnOk, Some};
ghost use Rattle.xrc_edge.specs.Causes.{HasCause};
ghost use Rattle.ckd_track.specs.declared.layout.TheConstants.{FIRST_SLOT};
ghost use Rattle.crash_plant.specs.declared.device.Device.TheVariants.{Volume};
ghost use Rattle.crash_plant.specs.Bytes.{patched, Torn};
ghost use Rattle.crash_plant.specs.Gates.{Shuts};
ghost use Rattle.crash_plant.specs.Moments.{on, Follows, IsDurable};
ghost use Rattle.crash_plant.specs.Calls.{IsThere, WorksOn};
ghost use Rattle.copy_progress.specs.Progresses.{IsProgress, progress_spelling};
ghost use Rattle.copy_progress.specs.Slots.{AreProgressSlots, Clears, IsNextNumber, IsCleared, NotesNext, OldOrNext, chosen_progress, free_progress_place, is_second_slot_free, progress_place, leading_progress};

use crate::Progress;
use crate::choosing::read_slots;
use crate::layout::{FIRST, SECOND};
use crate::slot::Slots;
use crate::spelling::encode;
use crash_plant::{Device, Plant, put_behind_gate, put_down};
use xrc_edge::Failed;

/// Whether the second slot is the one that isn't chosen. Where none is chosen it is the first.
fn is_second_slot_free(slots: &Slots) -> bool
    ensures { result ≡ is_second_slot_free slots.now.first.progress slots.now.second.progress }
{
    match (slots.first.progress, slots.second.progress) {
        (Some(first), Some(second)) => second.number <= first.number,
        (Some(_), None) => true,
        _ => false,
    }
}

fn is_gate_open(slots: &Slots, is_second: bool) -> bool
    ensures { result ≡ cond is_second slots.now.second.is_open slots.now.first.is_open }
{
    if is_second {
        slots.second.is_open
    } else {
        slots.first.is_open
    }
}

fn place_of(is_second: bool) -> u64
    ensures { result ≡ progress_place is_second }
{
    if is_second { SECOND } else { FIRST }
}

/// Writes a progress into the slot that isn't chosen.
fn put_beside<P: Plant>(
    plant: &mut P,
    device: u16,
    value: Progress,
    slots: &Slots,
) -> Result<(), Failed>
    requires there { IsThere (P.state plant.old) (Volume device) }
    requires long { FIRST_SLOT ≤ (P.state plant.old).lengths (Volume device) }
    requires slots { P.tells → AreProgressSlots ((P.state plant.old).bytes (Volume device)) slots.now }
    requires keeps { IsProgress value }
    requires next { P.tells → IsNextNumber (chosen_progress ((P.state plant.old).bytes (Volume device))) value.number }
    requires durable { P.tells → IsDurable (on (P.state plant.old) (Volume device)) }
    ensures moments { P.tells → Follows (OldOrNext value (free_progress_place ((P.state plant.old).bytes (Volume device)))) (on (P.state plant.old) (Volume device)) (on (P.state plant.new) (Volume device)) }
    ensures written { P.tells → OnOk result ((P.state plant.new).bytes (Volume device) ≡ patched (free_progress_place ((P.state plant.old).bytes (Volume device))) (1 ∷ progress_spelling value) ((P.state plant.old).bytes (Volume device))) }
    ensures chosen { P.tells → OnOk result (chosen_progress ((P.state plant.new).bytes (Volume device)) ≡ Some value) }
    ensures durable { P.tells → OnOk result (IsDurable (on (P.state plant.new) (Volume device))) }
    ensures only { WorksOn P.tells (λ d. d ≡ Volume device) (P.state plant.old) (P.state plant.new) }
    ensures cause { HasCause ((P.state plant.old).faults (Volume device)) ((P.state plant.new).faults (Volume device)) result }
{
    let body = encode(&value);
    let is_second = is_second_slot_free(slots);
    let is_open = is_gate_open(slots, is_second);
    put_behind_gate(
        plant,
        Device::Volume(device),
        place_of(is_second),
        is_open,
        &body,
    )
}

/// Writes the next progress of a target, into the slot that isn't chosen.
pub(crate) fn put_progress<P: Plant>(
    plant: &mut P,
    device: u16,
    value: &Progress,
) -> Result<(), Failed>
    requires there { IsThere (P.state plant.old) (Volume device) }
    requires long { FIRST_SLOT ≤ (P.state plant.old).lengths (Volume device) }
    // The value keeps the table, and its number is one above the chosen one, or 1 where none is chosen.
    requires keeps { IsProgress value.now }
    requires next { P.tells → IsNextNumber (chosen_progress ((P.state plant.old).bytes (Volume device))) value.now.number }
    // Every image is what a read gives: what the progress tells of is durable.
    requires durable { P.tells → IsDurable (on (P.state plant.old) (Volume device)) }
    // At every moment of the call the chosen progress is the old one or the new one, and all but the free slot is as it was.
    ensures moments { P.tells → Follows (OldOrNext value.now (free_progress_place ((P.state plant.old).bytes (Volume device)))) (on (P.state plant.old) (Volume device)) (on (P.state plant.new) (Volume device)) }
    // After Ok it is the chosen one, in every image.
    ensures written { P.tells → OnOk result ((P.state plant.new).bytes (Volume device) ≡ patched (free_progress_place ((P.state plant.old).bytes (Volume device))) (1 ∷ progress_spelling value.now) ((P.state plant.old).bytes (Volume device))) }
    ensures chosen { P.tells → OnOk result (chosen_progress ((P.state plant.new).bytes (Volume device)) ≡ Some value.now) }
    ensures durable { P.tells → OnOk result (IsDurable (on (P.state plant.new) (Volume device))) }
    ensures only { WorksOn P.tells (λ d. d ≡ Volume device) (P.state plant.old) (P.state plant.new) }
    ensures cause { HasCause ((P.state plant.old).faults (Volume device)) ((P.state plant.new).faults (Volume device)) result }
{
    let slots = read_slots(plant, device)?;
    put_beside(plant, device, *value, &slots)
}

/// Closes a gate. `is_open` says whether it is open now; one that isn't is left as it is.
fn close_gate<P: Plant>(plant: &mut P, device: u16, place: u64, is_open: bool) -> Result<(), Failed>
    requires there { IsThere (P.state plant.old) (Volume device) }
    requires range { place + 1 ≤ (P.state plant.old).lengths (Volume device) }
    requires durable { P.tells → IsDurable (on (P.state plant.old) (Volume device)) }
    requires opened { P.tells → is_open ≡ true → slice_index ((P.state plant.old).bytes (Volume device)) place ≡ 1 }
    requires closed { P.tells → is_open ≡ false → slice_index ((P.state plant.old).bytes (Volume device)) place ≢ 1 }
    ensures torn { P.tells → OnOk result (Torn place 1 ((P.state plant.old).bytes (Volume device)) ((P.state plant.new).bytes (Volume device))) }
    ensures shut { P.tells → OnOk result (slice_index ((P.state plant.new).bytes (Volume device)) place ≢ 1) }
    ensures durable { P.tells → OnOk result (IsDurable (on (P.state plant.new) (Volume device))) }
    ensures moments { P.tells → Follows (Shuts place) (on (P.state plant.old) (Volume device)) (on (P.state plant.new) (Volume device)) }
    ensures others { WorksOn P.tells (λ d. d ≡ Volume device) (P.state plant.old) (P.state plant.new) }
    ensures cause { HasCause ((P.state plant.old).faults (Volume device)) ((P.state plant.new).faults (Volume device)) result }
{
    if is_open {
        return put_down(plant, Device::Volume(device), place, &[0]);
    }
    Ok(())
}

/// Closes both gates, that of the slot that isn't chosen first.
fn close_gates<P: Plant>(plant: &mut P, device: u16, slots: &Slots) -> Result<(), Failed>
    requires there { IsThere (P.state plant.old) (Volume device) }
    requires long { FIRST_SLOT ≤ (P.state plant.old).lengths (Volume device) }
    requires slots { P.tells → AreProgressSlots ((P.state plant.old).bytes (Volume device)) slots.now }
    requires durable { P.tells → IsDurable (on (P.state plant.old) (Volume device)) }
    ensures moments { P.tells → Follows Clears (on (P.state plant.old) (Volume device)) (on (P.state plant.new) (Volume device)) }
    ensures clear { P.tells → OnOk result (IsCleared ((P.state plant.new).bytes (Volume device))) }
    ensures durable { P.tells → OnOk result (IsDurable (on (P.state plant.new) (Volume device))) }
    ensures only { WorksOn P.tells (λ d. d ≡ Volume device) (P.state plant.old) (P.state plant.new) }
    ensures cause { HasCause ((P.state plant.old).faults (Volume device)) ((P.state plant.new).faults (Volume device)) result }
{
    let is_free = is_second_slot_free(slots);
    close_gate(
        plant,
        device,
        place_of(is_free),
        is_gate_open(slots, is_free),
    )?;
    close_gate(
        plant,
        device,
        place_of(!is_free),
        is_gate_open(slots, !is_free),
    )
}

/// Closes the gates of a target whose progress doesn't count, that of the slot that isn't chosen first.
pub fn clear_progress<P: Plant>(plant: &mut P, device: u16) -> Result<(), Failed>
    requires there { IsThere (P.state plant.old) (Volume device) }
    requires long { FIRST_SLOT ≤ (P.state plant.old).lengths (Volume device) }
    requires durable { P.tells → IsDurable (on (P.state plant.old) (Volume device)) }
    // At every moment of the call the chosen progress is the old one or none, and all but the two gates is as it was.
    ensures moments { P.tells → Follows Clears (on (P.state plant.old) (Volume device)) (on (P.state plant.new) (Volume device)) }
    // After Ok no gate is open, in any image.
    ensures clear { P.tells → OnOk result (IsCleared ((P.state plant.new).bytes (Volume device))) }
    ensures durable { P.tells → OnOk result (IsDurable (on (P.state plant.new) (Volume device))) }
    ensures only { WorksOn P.tells (λ d. d ≡ Volume device) (P.state plant.old) (P.state plant.new) }
    ensures cause { HasCause ((P.state plant.old).faults (Volume device)) ((P.state plant.new).faults (Volume device)) result }
{
    let slots = read_slots(plant, device)?;
    close_gates(plant, device, &slots)
}

/// Syncs what was copied to a target, and then notes it.
pub fn sync_and_note<P: Plant>(plant: &mut P, device: u16, value: &Progress) -> Result<(), Failed>
    requires there { IsThere (P.state plant.old) (Volume device) }
    requires long { FIRST_SLOT ≤ (P.state plant.old).lengths (Volume device) }
    requires keeps { IsProgress value.now }
    requires next { P.tells → IsNextNumber (chosen_progress ((P.state plant.old).bytes (Volume device))) value.now.number }
    // At every moment of the call a crash leaves what it could leave before, or what reads gave with the old progress or the new one.
    ensures moments { P.tells → Follows (NotesNext value.now ((P.state plant.old).bytes (Volume device))) (on (P.state plant.old) (Volume device)) (on (P.state plant.new) (Volume device)) }
    ensures written { P.tells → OnOk result ((P.state plant.new).bytes (Volume device) ≡ patched (free_progress_place ((P.state plant.old).bytes (Volume device))) (1 ∷ progress_spelling value.now) ((P.state plant.old).bytes (Volume device))) }
    ensures chosen { P.tells → OnOk result (chosen_progress ((P.state plant.new).bytes (Volume device)) ≡ Some value.now) }
    ensures durable { P.tells → OnOk result (IsDurable (on (P.state plant.new) (Volume device))) }
    ensures only { WorksOn P.tells (λ d. d ≡ Volume device) (P.state plant.old) (P.state plant.new) }
    ensures cause { HasCause ((P.state plant.old).faults (Volume device)) ((P.state plant.new).faults (Volume device)) result }
{
    plant.sync(Device::Volume(device))?;
    put_progress(plant, device, value)
}
