//! The bytes of a mark.

ghost use Rattle.std.specs.Prelude.{◌≡◌, ◌+◌, ◌++◌, ◌∷◌, [], length, codes, IsTrue};
ghost use Rattle.std.specs.Int.{w16, w64, to_be_bytes};
ghost use Rattle.tod_stamp.specs.Names.{is_session};
ghost use Rattle.control_set.specs.Marks.{flag, mark_spelling};

use crate::Mark;
use byteorder::{BigEndian, ByteOrder};

/// The length of a mark's bytes.
pub(crate) const FIELDS: usize = 48;

/// Puts two parts one after the other.
fn join(out: &mut [u8], front: &[u8], back: &[u8])
    requires { length out.old ≡ length front.now + length back.now }
    ensures { out.new ≡ front.now ++ back.now }
{
    let (left, right) = out.split_at_mut(front.len());
    left.copy_from_slice(front);
    right.copy_from_slice(back);
}

/// The fields before the session.
fn front_fields(mark: &Mark) -> [u8; 12]
    ensures { result ≡ codes "XCTL" ++ to_be_bytes w64 mark.now.number }
{
    let mut bytes = [0; 12];
    bytes[..4].copy_from_slice(b"XCTL");
    BigEndian::write_u64(&mut bytes[4..12], mark.number);
    bytes
}

fn flag_byte(is: bool) -> u8
    ensures { result ≡ flag is }
{
    u8::from(is)
}

/// The fields after the session.
fn back_fields(mark: &Mark) -> [u8; 28]
    ensures { result ≡ mark.now.state_slot ∷ to_be_bytes w16 mark.now.at.set ++ to_be_bytes w64 mark.now.at.place ++ to_be_bytes w64 mark.now.at.number ++ to_be_bytes w64 mark.now.time.0 ++ flag mark.now.ended ∷ [] }
{
    let mut bytes = [0; 28];
    bytes[0] = mark.state_slot;
    BigEndian::write_u16(&mut bytes[1..3], mark.at.set);
    BigEndian::write_u64(&mut bytes[3..11], mark.at.place);
    BigEndian::write_u64(&mut bytes[11..19], mark.at.number);
    BigEndian::write_u64(&mut bytes[19..27], mark.time.0);
    bytes[27] = flag_byte(mark.ended);
    bytes
}

/// The bytes behind the gate of a slot.
pub(crate) fn encode(mark: &Mark) -> [u8; FIELDS]
    ensures spelled { result ≡ mark_spelling mark.now }
    ensures session { IsTrue (is_session mark.now.session) }
{
    let mut front = [0; 20];
    join(&mut front, &front_fields(mark), &mark.session.field());
    let mut bytes = [0; FIELDS];
    join(&mut bytes, &front, &back_fields(mark));
    bytes
}
