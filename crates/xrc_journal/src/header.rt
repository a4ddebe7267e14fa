//! The header of a record.

ghost use Rattle.std.specs.Prelude.{◌≡◌, ◌≤◌, ◌<◌, ◌+◌, ◌-◌, ◌^◌, ℕ, Some, IsSome};
ghost use Rattle.crash_plant.specs.declared.layout.TheConstants.{FRONT, SWITCH};
ghost use Rattle.xrc_journal.specs.Records.{record_head_at, is_body_length, most_body};
ghost use Rattle.tod_stamp.specs.declared.stamp.Stamp.{Stamp as StampValue};
ghost use Rattle.xrc_journal.specs.declared.header.RecordHeader.TheVariants.{Group};
ghost use Rattle.xrc_journal.specs.Answers.{header_of, keeps_header};

use crate::layout::{AROUND, MOST_BODY};
use byteorder::{BigEndian, ByteOrder};
use crash_plant::{HEADER, Spot};
use tod_stamp::Stamp;

/// What a header says.
#[derive(Clone, Copy, Debug)]
pub(crate) enum RecordHeader {
    Group { time: Stamp, length: u32 },
    Switch { time: Stamp },
}

fn is_length(kind: u8, length: u32, at: Spot, size: u64) -> bool
    requires { at.place + FRONT ≤ size }
    ensures { result ≡ is_body_length size at kind length }
{
    if kind == 1 {
        length <= MOST_BODY && AROUND + u64::from(length) <= size - at.place
    } else {
        length == 2
    }
}

/// Whether the fields keep the rules.
fn keeps_rules(bytes: &[u8; HEADER], at: Spot, last: Stamp, size: u64) -> bool
    requires { at.place + FRONT ≤ size }
    ensures { result ≡ keeps_header size at last.0 bytes.now }
{
    let number = BigEndian::read_u64(&bytes[1..9]);
    let time = BigEndian::read_u64(&bytes[9..17]);
    let length = BigEndian::read_u32(&bytes[17..21]);
    bytes[0] >= 1
        && bytes[0] <= 2
        && number == at.number
        && number < u64::MAX
        && last.0 <= time
        && is_length(bytes[0], length, at, size)
}

/// What the header of a record says that stands at a spot of a data set of that many bytes, after a record of the time `last`.
/// None where it breaks a rule.
pub(crate) fn decode_header(
    bytes: &[u8; HEADER],
    at: Spot,
    last: Stamp,
    size: u64,
) -> Option<RecordHeader>
    requires { at.place + FRONT ≤ size }
    ensures header { result ≡ header_of (record_head_at size at last.0 (record { place = at.place + 1; bytes = bytes.now })) }
    ensures number { IsSome result → at.number < 2 ^ 64 - 1 }
    ensures fits { (time : StampValue) (length : ℕ) → result ≡ Some (Group time length) → at.place + FRONT + length + SWITCH ≤ size }
    ensures short { (time : StampValue) (length : ℕ) → result ≡ Some (Group time length) → length ≤ most_body }
{
    if !keeps_rules(bytes, at, last, size) {
        return None;
    }
    let time = Stamp(BigEndian::read_u64(&bytes[9..17]));
    if bytes[0] == 1 {
        let length = BigEndian::read_u32(&bytes[17..21]);
        Some(RecordHeader::Group { time, length })
    } else {
        Some(RecordHeader::Switch { time })
    }
}
