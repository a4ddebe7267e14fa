//! What the bytes of a slot are.

ghost use Rattle.std.specs.Prelude.{◌≡◌, take, drop, codes, bytes_eq, true, slice_index, ◌==◌};
ghost use Rattle.tod_stamp.specs.Names.{before_spaces, is_field};
ghost use Rattle.copy_progress.specs.Progresses.{is_table_kept, primary_field_of, progress_in, session_field_of};
ghost use Rattle.copy_progress.specs.Slots.{slot_in};

use crate::Progress;
use crate::layout::SLOT;
use byteorder::{BigEndian, ByteOrder};
use tod_stamp::{Serial, Session, Stamp};

/// What stands in a slot: whether its gate is open, and its progress, if it keeps the table behind an open gate.
#[derive(Clone, Copy, Debug)]
pub(crate) struct Seen {
    pub(crate) is_open: bool,
    pub(crate) progress: Option<Progress>,
}

/// The two slots.
#[derive(Clone, Copy, Debug)]
pub(crate) struct Slots {
    pub(crate) first: Seen,
    pub(crate) second: Seen,
}

/// The progress with these fields.
fn fields(bytes: &[u8; SLOT], session: Session, primary: Serial) -> Progress
    requires session { session ≡ before_spaces (session_field_of bytes.now) }
    requires primary { primary ≡ before_spaces (primary_field_of bytes.now) }
    ensures { result ≡ progress_in bytes.now }
{
    Progress {
        number: BigEndian::read_u64(&bytes[5..13]),
        session,
        time: Stamp(BigEndian::read_u64(&bytes[21..29])),
        primary,
        tracks: BigEndian::read_u32(&bytes[35..39]),
        next: BigEndian::read_u32(&bytes[39..43]),
    }
}

fn has_word(bytes: &[u8; SLOT]) -> bool
    ensures { result ≡ bytes_eq (codes "XCPY") (take 4 (drop 1 bytes.now)) }
{
    let word: &[u8] = b"XCPY";
    word == &bytes[1..5]
}

/// Whether the fields keep the table.
fn keeps_table(bytes: &[u8; SLOT], progress: &Progress) -> bool
    requires session { is_field 8 (session_field_of bytes.now) ≡ true }
    requires primary { is_field 6 (primary_field_of bytes.now) ≡ true }
    requires progress { progress.now ≡ progress_in bytes.now }
    ensures { result ≡ is_table_kept bytes.now }
{
    has_word(bytes) && progress.number >= 1 && progress.next <= progress.tracks
}

/// The progress of a slot whose gate is open.
fn progress_of(bytes: &[u8; SLOT]) -> Option<Progress>
    requires { slice_index bytes.now 0 ≡ 1 }
    ensures { result ≡ slot_in bytes.now }
{
    let session = Session::from_field(&bytes[13..21])?;
    let primary = Serial::from_field(&bytes[29..35])?;
    let progress = fields(bytes, session, primary);
    if keeps_table(bytes, &progress) {
        Some(progress)
    } else {
        None
    }
}

/// What these bytes of a slot are.
pub(crate) fn decode(bytes: &[u8; SLOT]) -> Seen
    ensures gate { result.is_open ≡ slice_index bytes.now 0 == 1 }
    ensures progress { result.progress ≡ slot_in bytes.now }
{
    if bytes[0] != 1 {
        return Seen {
            is_open: false,
            progress: None,
        };
    }
    Seen {
        is_open: true,
        progress: progress_of(bytes),
    }
}
