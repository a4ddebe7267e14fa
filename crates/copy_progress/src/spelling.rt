//! The bytes behind the gate of a slot.

ghost use Rattle.std.specs.Prelude.{◌≡◌, ◌+◌, ◌++◌, length, codes, IsTrue};
ghost use Rattle.std.specs.Int.{w32, w64, to_be_bytes};
ghost use Rattle.tod_stamp.specs.Names.{is_serial, is_session, serial_field};
ghost use Rattle.copy_progress.specs.Progresses.{progress_spelling};

use crate::Progress;
use crate::layout::FIELDS;
use byteorder::{BigEndian, ByteOrder};

/// Puts two parts one behind the other.
fn join(out: &mut [u8], front: &[u8], back: &[u8])
    requires { length out.old ≡ length front.now + length back.now }
    ensures { out.new ≡ front.now ++ back.now }
{
    let (left, right) = out.split_at_mut(front.len());
    left.copy_from_slice(front);
    right.copy_from_slice(back);
}

/// The word, and the number.
fn front_fields(progress: &Progress) -> [u8; 12]
    ensures { result ≡ codes "XCPY" ++ to_be_bytes w64 progress.now.number }
{
    let mut bytes = [0; 12];
    bytes[..4].copy_from_slice(b"XCPY");
    BigEndian::write_u64(&mut bytes[4..12], progress.number);
    bytes
}

fn time_field(progress: &Progress) -> [u8; 8]
    ensures { result ≡ to_be_bytes w64 progress.now.time.0 }
{
    let mut bytes = [0; 8];
    BigEndian::write_u64(&mut bytes, progress.time.0);
    bytes
}

fn track_fields(progress: &Progress) -> [u8; 8]
    ensures { result ≡ to_be_bytes w32 progress.now.tracks ++ to_be_bytes w32 progress.now.next }
{
    let mut bytes = [0; 8];
    BigEndian::write_u32(&mut bytes[..4], progress.tracks);
    BigEndian::write_u32(&mut bytes[4..], progress.next);
    bytes
}

/// The time, the primary and the tracks.
fn back_fields(progress: &Progress) -> [u8; 22]
    ensures fields { result ≡ to_be_bytes w64 progress.now.time.0 ++ serial_field progress.now.primary ++ (to_be_bytes w32 progress.now.tracks ++ to_be_bytes w32 progress.now.next) }
    ensures primary { IsTrue (is_serial progress.now.primary) }
{
    let mut front = [0; 14];
    join(&mut front, &time_field(progress), &progress.primary.field());
    let mut bytes = [0; 22];
    join(&mut bytes, &front, &track_fields(progress));
    bytes
}

/// The bytes behind the gate of a slot.
pub(crate) fn encode(progress: &Progress) -> [u8; FIELDS]
    ensures spelled { result ≡ progress_spelling progress.now }
    ensures session { IsTrue (is_session progress.now.session) }
    ensures primary { IsTrue (is_serial progress.now.primary) }
{
    let mut front = [0; 20];
    join(
        &mut front,
        &front_fields(progress),
        &progress.session.field(),
    );
    let mut bytes = [0; FIELDS];
    join(&mut bytes, &front, &back_fields(progress));
    bytes
}
