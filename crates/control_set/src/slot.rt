//! What the bytes of a slot are.

ghost use Rattle.std.specs.Prelude.{◌≡◌, take, drop, codes, bytes_eq, true};
ghost use Rattle.tod_stamp.specs.Names.{before_spaces, is_field};
ghost use Rattle.control_set.specs.Marks.{has_spot};
ghost use Rattle.control_set.specs.Places.{keeps, mark_in, session_at};
ghost use Rattle.control_set.specs.Slots.{lengths_of, slot_of};

use crate::Mark;
use byteorder::{BigEndian, ByteOrder};
use crash_plant::{Device, Plant, SWITCH, Spot};
use tod_stamp::{Session, Stamp};

/// The length of a slot's gate and mark.
pub(crate) const SLOT: usize = 49;

/// What stands in a slot.
#[derive(Clone, Copy, Debug)]
pub(crate) enum Slot {
    Closed,
    Holds(Mark),
    Damaged,
}

/// The two slots.
#[derive(Clone, Copy, Debug)]
pub(crate) struct Slots {
    pub(crate) first: Slot,
    pub(crate) second: Slot,
}

pub(crate) fn has_room<P: Plant>(plant: &P, at: Spot) -> bool
    ensures { result ≡ has_spot (lengths_of (P.state plant.now)) at.set at.place }
{
    if at.set >= plant.journals() {
        return false;
    }
    let length = plant.length(Device::Journal(at.set));
    length >= SWITCH && at.place <= length - SWITCH
}

/// The mark with these fields, if they keep the table.
fn fields(bytes: &[u8; SLOT], session: Session) -> Mark
    requires { session ≡ before_spaces (session_at bytes.now) }
    ensures { result ≡ mark_in bytes.now }
{
    let at = Spot {
        set: BigEndian::read_u16(&bytes[22..24]),
        place: BigEndian::read_u64(&bytes[24..32]),
        number: BigEndian::read_u64(&bytes[32..40]),
    };
    Mark {
        number: BigEndian::read_u64(&bytes[5..13]),
        session,
        state_slot: bytes[21],
        at,
        time: Stamp(BigEndian::read_u64(&bytes[40..48])),
        ended: bytes[48] == 1,
    }
}

fn has_word(bytes: &[u8; SLOT]) -> bool
    ensures { result ≡ bytes_eq (codes "XCTL") (take 4 (drop 1 bytes.now)) }
{
    let word: &[u8] = b"XCTL";
    word == &bytes[1..5]
}

/// Whether the fields keep the table.
fn keeps_table<P: Plant>(plant: &P, bytes: &[u8; SLOT], mark: &Mark) -> bool
    requires session { is_field 8 (session_at bytes.now) ≡ true }
    requires mark { mark.now ≡ mark_in bytes.now }
    ensures { result ≡ keeps (lengths_of (P.state plant.now)) bytes.now }
{
    has_word(bytes)
        && mark.number >= 1
        && mark.number <= u64::MAX - 1
        && mark.state_slot <= 1
        && has_room(plant, mark.at)
        && mark.at.number >= 1
        && mark.time.0 >= 1
        && bytes[48] <= 1
}

/// What these bytes of a slot are.
pub(crate) fn decode<P: Plant>(plant: &P, bytes: &[u8; SLOT]) -> Slot
    ensures { result ≡ slot_of (lengths_of (P.state plant.now)) bytes.now }
{
    if bytes[0] != 1 {
        return Slot::Closed;
    }
    let Some(session) = Session::from_field(&bytes[13..21]) else {
        return Slot::Damaged;
    };
    let mark = fields(bytes, session);
    if keeps_table(plant, bytes, &mark) {
        Slot::Holds(mark)
    } else {
        Slot::Damaged
    }
}
