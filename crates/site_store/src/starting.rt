//! The devices of a session that starts: what stood on them counts no more.

ghost use Rattle.std.specs.Prelude.{◌≡◌, ◌≢◌, ◌≤◌, ◌+◌, ◌==◌, true, slice_index, IfOk, IsErrOf, OnOk};
ghost use Rattle.crash_plant.specs.declared.device.Device.TheVariants.{Control, Journal as JournalDevice};
ghost use Rattle.crash_plant.specs.Bytes.{Torn};
ghost use Rattle.crash_plant.specs.Calls.{WorksOn};
ghost use Rattle.crash_plant.specs.Gates.{Shuts};
ghost use Rattle.crash_plant.specs.Moments.{Follows, IsDurable, Same, on};
ghost use Rattle.control_set.specs.Slots.{NoGateOpen, lengths_of};
ghost use Rattle.site_store.specs.declared.store_error.StoreError.TheVariants.{NoMemory as Memory};
ghost use Rattle.site_store.specs.Formats.{AllShutFirst, AreHalves, AreZeroed, ControlFollows, HasStartCause, IsFormatted, IsFrontOfSlot, IsShut, ShutsControl, front_at};
ghost use Rattle.xrc_edge.specs.Causes.{HasCause};

use crate::StoreError;
use byteorder::{BigEndian, ByteOrder};
use crash_plant::{CONTROL_LENGTH, Device, Plant, Spot, put_down};
use xrc_edge::Failed;

/// The spot of the first record.
pub(crate) const FIRST: Spot = Spot {
    set: 0,
    place: 0,
    number: 1,
};

/// The places of the control's slots: each has one half of it.
const SLOTS: [u64; 2] = [0, CONTROL_LENGTH / 2];

/// The bytes of a slot up to the mark's number, which they end with.
const FRONT_OF_SLOT: usize = 13;

/// What a start needs of a slot of the control: whether its gate is open, and the number behind it.
#[derive(Clone, Copy)]
pub(crate) struct SlotFront {
    pub(crate) place: u64,
    pub(crate) is_open: bool,
    pub(crate) number: u64,
}

/// Reads the front of the slot at a place.
fn read_front<P: Plant>(plant: &mut P, place: u64) -> Result<SlotFront, Failed>
    requires { place + FRONT_OF_SLOT ≤ (P.state plant.old).lengths Control }
    ensures place { IfOk result (λ front. front.place ≡ place) }
    ensures front { P.tells → IfOk result (λ front. front ≡ front_at place ((P.state plant.old).bytes Control)) }
    ensures same { P.tells → (P.state plant.new).bytes Control ≡ (P.state plant.old).bytes Control }
    ensures moments { P.tells → Follows Same (on (P.state plant.old) Control) (on (P.state plant.new) Control) }
    ensures only { WorksOn P.tells (λ d. d ≡ Control) (P.state plant.old) (P.state plant.new) }
    ensures cause { HasCause ((P.state plant.old).faults Control) ((P.state plant.new).faults Control) result }
{
    let mut bytes = [0; FRONT_OF_SLOT];
    plant.read(Device::Control, place, &mut bytes)?;
    Ok(SlotFront {
        place,
        is_open: bytes[0] == 1,
        number: BigEndian::read_u64(&bytes[5..13]),
    })
}

/// Gives a slot's gate the byte 0 where it reads 1, and syncs the control.
fn shut_gate<P: Plant>(plant: &mut P, slot: SlotFront) -> Result<(), Failed>
    requires place { slot.place + 1 ≤ (P.state plant.old).lengths Control }
    requires gate { P.tells → slot.is_open ≡ (slice_index ((P.state plant.old).bytes Control) slot.place == 1) }
    ensures shut { P.tells → OnOk result (slice_index ((P.state plant.new).bytes Control) slot.place ≢ 1) }
    ensures zero { P.tells → OnOk result (slot.is_open ≡ true → slice_index ((P.state plant.new).bytes Control) slot.place ≡ 0) }
    ensures torn { P.tells → OnOk result (Torn slot.place 1 ((P.state plant.old).bytes Control) ((P.state plant.new).bytes Control)) }
    ensures durable { P.tells → OnOk result (IsDurable (on (P.state plant.new) Control)) }
    ensures moments { P.tells → ControlFollows (Shuts slot.place) (P.state plant.old) (P.state plant.new) }
    ensures only { WorksOn P.tells (λ d. d ≡ Control) (P.state plant.old) (P.state plant.new) }
    ensures cause { HasCause ((P.state plant.old).faults Control) ((P.state plant.new).faults Control) result }
{
    if slot.is_open {
        return put_down(plant, Device::Control, slot.place, &[0]);
    }
    plant.sync(Device::Control)
}

/// Shuts the gates of both slots, first that of the lesser number.
fn shut_both<P: Plant>(plant: &mut P, idle: SlotFront, counted: SlotFront) -> Result<(), Failed>
    requires long { CONTROL_LENGTH ≤ (P.state plant.old).lengths Control }
    requires places { AreHalves idle.place counted.place }
    requires fronts { P.tells → let control = (P.state plant.old).bytes Control in IsFrontOfSlot idle control × IsFrontOfSlot counted control }
    requires order { idle.number ≤ counted.number }
    ensures shut { P.tells → OnOk result (NoGateOpen ((P.state plant.new).bytes Control)) }
    ensures idle { P.tells → OnOk result (idle.is_open ≡ true → slice_index ((P.state plant.new).bytes Control) idle.place ≡ 0) }
    ensures counted { P.tells → OnOk result (counted.is_open ≡ true → slice_index ((P.state plant.new).bytes Control) counted.place ≡ 0) }
    ensures durable { P.tells → OnOk result (IsDurable (on (P.state plant.new) Control)) }
    ensures moments { P.tells → ControlFollows (ShutsControl (lengths_of (P.state plant.old))) (P.state plant.old) (P.state plant.new) }
    ensures only { WorksOn P.tells (λ d. d ≡ Control) (P.state plant.old) (P.state plant.new) }
    ensures cause { HasCause ((P.state plant.old).faults Control) ((P.state plant.new).faults Control) result }
{
    shut_gate(plant, idle)?;
    shut_gate(plant, counted)
}

/// Shuts both gates of the control. Where both are open, the one of the lesser number, which doesn't count, is shut first: so an
/// older mark never counts again.
fn shut_gates<P: Plant>(plant: &mut P) -> Result<(), Failed>
    requires { CONTROL_LENGTH ≤ (P.state plant.old).lengths Control }
    ensures shut { P.tells → OnOk result (NoGateOpen ((P.state plant.new).bytes Control)) }
    ensures zeroed { P.tells → OnOk result (AreZeroed ((P.state plant.old).bytes Control) ((P.state plant.new).bytes Control)) }
    ensures durable { P.tells → OnOk result (IsDurable (on (P.state plant.new) Control)) }
    ensures moments { P.tells → ControlFollows (ShutsControl (lengths_of (P.state plant.old))) (P.state plant.old) (P.state plant.new) }
    ensures only { WorksOn P.tells (λ d. d ≡ Control) (P.state plant.old) (P.state plant.new) }
    ensures cause { HasCause ((P.state plant.old).faults Control) ((P.state plant.new).faults Control) result }
{
    let first = read_front(plant, SLOTS[0])?;
    let second = read_front(plant, SLOTS[1])?;
    if first.number <= second.number {
        shut_both(plant, first, second)
    } else {
        shut_both(plant, second, first)
    }
}

/// Shuts the control's gates, and then the gate of the first record.
pub(crate) fn shut_all<P: Plant>(plant: &mut P) -> Result<(), StoreError>
    requires control { CONTROL_LENGTH ≤ (P.state plant.old).lengths Control }
    requires journals { 1 ≤ (P.state plant.old).journals }
    requires journal { 1 ≤ (P.state plant.old).lengths (JournalDevice 0) }
    ensures shut { P.tells → OnOk result (IsShut (P.state plant.new)) }
    // The gates that were open have the byte 0, and so has that of the first record.
    ensures zeroed { P.tells → OnOk result (AreZeroed ((P.state plant.old).bytes Control) ((P.state plant.new).bytes Control)) }
    ensures first { P.tells → OnOk result (slice_index ((P.state plant.new).bytes (JournalDevice 0)) 0 ≡ 0) }
    // At every moment the state and the journal are as they were, until both slots of the control are closed.
    ensures moments { P.tells → AllShutFirst (P.state plant.old) (P.state plant.new) }
    ensures only { WorksOn P.tells IsFormatted (P.state plant.old) (P.state plant.new) }
    ensures cause { HasStartCause (P.state plant.old) (P.state plant.new) result }
    ensures memory { ¬ IsErrOf result Memory }
{
    let Ok(()) = shut_gates(plant) else {
        return Err(StoreError::Fault(Device::Control));
    };
    let first = Device::Journal(FIRST.set);
    let Ok(()) = put_down(plant, first, FIRST.place, &[0]) else {
        return Err(StoreError::Fault(first));
    };
    Ok(())
}
