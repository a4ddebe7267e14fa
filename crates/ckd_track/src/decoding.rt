//! Reading records into memory: those of an image, and those of a format.

ghost use Rattle.std.specs.Prelude.{◌≡◌, ◌≢◌, ◌≤◌, ◌++◌, ◌∷◌, [], length, drop, Ok, Err, IfOk, IfErr, OnOk};
ghost use Rattle.ckd_track.specs.Tracks.{capacity};
ghost use Rattle.std.specs.List.{flat_map};
ghost use Rattle.ckd_track.specs.Images.{record_spelling, records_at, image_at};
ghost use Rattle.ckd_track.specs.Heads.{head_length, record_of};
ghost use Rattle.ckd_track.specs.Reading.{GivesOrWants};

use crate::fault::ImageError;
use crate::head::Head;
use crate::layout::CAPACITY;
use crate::reading::{count_and_records, record};
use crate::rec::{Rec, RecList, copied_bytes};
use std::alloc::Global;
use xrc_edge::NoMemory;

/// The record of a head, which stands at the front of the bytes.
fn decoded_record(alloc: Global, head: Head, bytes: &[u8]) -> Result<Rec, NoMemory>
    requires { head_length head ≤ length bytes.now }
    ensures { IfOk result (λ rec. rec ≡ record_of head bytes.now) }
{
    let (_, parts) = bytes.split_at(4);
    let (key, after_key) = parts.split_at(head.key_length as usize);
    let (content, _) = after_key.split_at(head.content_length as usize);
    Ok(Rec {
        number: head.number,
        key: copied_bytes(alloc, key)?,
        content: copied_bytes(alloc, content)?,
    })
}

/// That many records above `low`, of which the first stands at a place, and the bytes after them.
fn decoded_records(
    alloc: Global,
    bytes: &[u8],
    count: u16,
    low: u8,
    first_place: u32,
) -> Result<(RecList, &[u8]), ImageError>
    requires { first_place ≤ 2 }
    ensures { GivesOrWants (λ x. (x.0, x.1.now)) result (records_at count first_place low capacity bytes.now) }
{
    let mut recs = RecList::make(alloc);
    let mut rest = bytes;
    let mut place = first_place;
    let mut last = low;
    let mut room = CAPACITY;
    for _ in 0..count {
        let (head, after) = record(rest, place, last, room)?;
        recs.push(alloc, decoded_record(alloc, head, rest)?)?;
        rest = after;
        place += head.spelled_length() as u32;
        last = head.number;
        room -= head.size();
    }
    Ok((recs, rest))
}

/// The records of the image that the bytes begin with, and the bytes after it.
pub fn decoded(alloc: Global, bytes: &[u8]) -> Result<(RecList, &[u8]), ImageError>
    ensures { GivesOrWants (λ x. (x.0, x.1.now)) result (image_at bytes.now) }
{
    let (count, records) = count_and_records(bytes)?;
    decoded_records(alloc, records, count, 0, 2)
}

/// The records of a format that the bytes begin with, that many above `after`, and the length of their spellings. A place
/// in an error counts from the first record.
pub fn decode_records(
    alloc: Global,
    bytes: &[u8],
    count: u8,
    after: u8,
) -> Result<(RecList, usize), ImageError>
    ensures ok { IfOk result (λ read. records_at count 0 after capacity bytes.now ≡ Ok (read.0, drop read.1 bytes.now)) }
    ensures length { IfOk result (λ read. read.1 ≡ length (flat_map record_spelling read.0)) }
    ensures err { IfErr result (λ error. error ≢ ImageError.NoMemory → records_at count 0 after capacity bytes.now ≡ Err error) }
{
    let (recs, rest) = decoded_records(alloc, bytes, count as u16, after, 0)?;
    Ok((recs, bytes.len() - rest.len()))
}
