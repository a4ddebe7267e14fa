//! The slots of the state device.

ghost use Rattle.std.specs.Prelude.{◌≡◌, ◌≢◌, ◌≤◌, ℕ, take, drop, IfOk, OnOk, IsErrOf, IsTrue, Ok, Err};
ghost use Rattle.crash_plant.specs.declared.layout.TheConstants.{STATE_LENGTH};
ghost use Rattle.xrc_edge.specs.Causes.{HasCause, Rose};
ghost use Rattle.crash_plant.specs.declared.device.Device.TheVariants.{State};
ghost use Rattle.crash_plant.specs.Bytes.{patched};
ghost use Rattle.crash_plant.specs.Moments.{on, Follows, IsDurable, Same};
ghost use Rattle.crash_plant.specs.Calls.{WorksOn};
ghost use Rattle.state_set.specs.declared.state_error.StateError.{StateError};
ghost use Rattle.state_set.specs.declared.state_error.StateError.TheVariants.{Damaged, Fault, NoMemory};
ghost use Rattle.pair_table.specs.Tables.{are_below};
ghost use Rattle.state_set.specs.Slots.{OneSlot, state_slot_place, started_table, state_length, state_of, slot_spelling};

use crate::StateError;
use crate::lengths::{LONGEST, SLOT};
use crate::reading::decode;
use crate::spelling::encode;
use crash_plant::{Device, Plant, put_down};
use pair_table::{Level, PairTable};
use std::alloc::Global;
use tod_stamp::Session;
use xrc_edge::{Failed, NoMemory};

fn slot_place(slot: u8) -> u64
    requires { slot ≤ 1 }
    ensures { result ≡ state_slot_place slot }
{
    SLOT * u64::from(slot)
}

/// Writes a session's level and rows into a slot, and syncs them. It takes no memory, and answers no error but Fault.
pub fn put<P: Plant>(
    plant: &mut P,
    slot: u8,
    level: Level,
    table: &PairTable,
) -> Result<(), StateError>
    requires slot { slot ≤ 1 }
    requires long { STATE_LENGTH ≤ (P.state plant.old).lengths State }
    // The devices of the rows are the plant's.
    requires devices { IsTrue (are_below (P.state plant.old).volumes table.now.rows) }
    // At every moment of the call all but these bytes of the slot is as it was, and the other slot holds what it held.
    ensures moments { P.tells → Follows (OneSlot slot (state_length table.now.rows)) (on (P.state plant.old) State) (on (P.state plant.new) State) }
    // After Ok the slot begins with the state, which is read there again, in every image.
    ensures written { P.tells → OnOk result ((P.state plant.new).bytes State ≡ patched (state_slot_place slot) (slot_spelling table.now.session level table.now.rows) ((P.state plant.old).bytes State)) }
    ensures holds { P.tells → OnOk result (state_of (P.state plant.new).volumes table.now.session slot ((P.state plant.new).bytes State) ≡ Ok (record { level = level; rows = table.now.rows })) }
    ensures durable { P.tells → OnOk result (IsDurable (on (P.state plant.new) State)) }
    // All else is as before, on all devices and the console.
    ensures only { WorksOn P.tells (λ d. d ≡ State) (P.state plant.old) (P.state plant.new) }
    ensures cause { HasCause ((P.state plant.old).faults State) ((P.state plant.new).faults State) result }
    ensures fault_alone { (e : StateError) → IsErrOf result e → e ≡ Fault }
{
    let mut bytes = [0; LONGEST];
    let end = encode(level, table, &mut bytes);
    match put_down(plant, Device::State, slot_place(slot), &bytes[..end]) {
        Ok(()) => Ok(()),
        Err(Failed) => Err(StateError::Fault),
    }
}

/// Reads the bytes that a slot begins with.
fn read_slot<P: Plant>(plant: &mut P, slot: u8) -> Result<[u8; LONGEST], Failed>
    requires slot { slot ≤ 1 }
    requires long { STATE_LENGTH ≤ (P.state plant.old).lengths State }
    ensures bytes { P.tells → IfOk result (λ bytes. bytes ≡ take LONGEST (drop (state_slot_place slot) ((P.state plant.old).bytes State))) }
    ensures same { P.tells → (P.state plant.new).bytes State ≡ (P.state plant.old).bytes State }
    ensures moments { P.tells → Follows Same (on (P.state plant.old) State) (on (P.state plant.new) State) }
    ensures only { WorksOn P.tells (λ d. d ≡ State) (P.state plant.old) (P.state plant.new) }
    ensures cause { HasCause ((P.state plant.old).faults State) ((P.state plant.new).faults State) result }
{
    let mut bytes = [0; LONGEST];
    plant.read(Device::State, slot_place(slot), &mut bytes)?;
    Ok(bytes)
}

/// The level and the started table that a slot holds of a session.
pub fn get<P: Plant>(
    alloc: Global,
    plant: &mut P,
    slot: u8,
    session: Session,
) -> Result<(Level, PairTable), StateError>
    requires slot { slot ≤ 1 }
    requires long { STATE_LENGTH ≤ (P.state plant.old).lengths State }
    // What the slot holds in what a read gives, or its first byte where it is damaged.
    ensures holds { P.tells → IfOk result (λ found. state_of (P.state plant.old).volumes session slot ((P.state plant.old).bytes State) ≡ Ok (record { level = found.0; rows = found.1.rows })) }
    ensures started { IfOk result (λ found. found.1 ≡ started_table session found.1.rows) }
    ensures damaged { P.tells → (place : ℕ) → IsErrOf result (Damaged place) → state_of (P.state plant.old).volumes session slot ((P.state plant.old).bytes State) ≡ Err place }
    ensures place { (place : ℕ) → IsErrOf result (Damaged place) → place ≡ state_slot_place slot }
    // Whatever a read gave, the devices of the rows are the plant's.
    ensures below { IfOk result (λ found. IsTrue (are_below (P.state plant.old).volumes found.1.rows)) }
    // Why it fails.
    ensures fault { IsErrOf result Fault → Rose ((P.state plant.old).faults State) ((P.state plant.new).faults State) }
    ensures ok_without_fault { OnOk result ((P.state plant.new).faults State ≡ (P.state plant.old).faults State) }
    ensures other_without_fault { (e : StateError) → IsErrOf result e → e ≢ Fault → (P.state plant.new).faults State ≡ (P.state plant.old).faults State }
    // What a read of the state gives stays, and a crash leaves nothing there that it couldn't leave before; all else is as before.
    ensures same { P.tells → (P.state plant.new).bytes State ≡ (P.state plant.old).bytes State }
    ensures moments { P.tells → Follows Same (on (P.state plant.old) State) (on (P.state plant.new) State) }
    ensures others { WorksOn P.tells (λ d. d ≡ State) (P.state plant.old) (P.state plant.new) }
{
    let Ok(bytes) = read_slot(plant, slot) else {
        return Err(StateError::Fault);
    };
    match decode(alloc, plant.volumes(), session, &bytes) {
        Ok(Some(found)) => Ok(found),
        Ok(None) => Err(StateError::Damaged(slot_place(slot))),
        Err(NoMemory) => Err(StateError::NoMemory),
    }
}
