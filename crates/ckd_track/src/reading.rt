//! Reading an image: one pass over the heads of its records, without a look at keys and contents.

ghost use Rattle.std.specs.Prelude.{◌≡◌, ◌≢◌, ◌≤◌, ◌+◌, length, drop, Ok, Err, IfOk, IfErr};
ghost use Rattle.ckd_track.specs.Tracks.{capacity};
ghost use Rattle.ckd_track.specs.Images.{image, record_at, records_at, image_at};
ghost use Rattle.ckd_track.specs.Heads.{head_at, head_size, head_length, first_record, IsFirst};
ghost use Rattle.ckd_track.specs.Reading.{GivesRead, rest_of_read};
ghost use Rattle.ckd_track.specs.Slots.{track_of_image};

use crate::fault::ImageError;
use crate::head::Head;
use crate::layout::CAPACITY;
use byteorder::{BigEndian, ByteOrder};

/// The record at the front, which stands at the place after a record `last`, with this room left.
#[tactic(auto, unfolding(crate::specs::Images::record_at, crate::specs::Images::record_after_head))]
pub fn record(bytes: &[u8], place: u32, last: u8, room: usize) -> Result<(Head, &[u8]), ImageError>
    ensures read { GivesRead (λ x. (first_record bytes.now, x.1.now)) result (record_at place last room bytes.now) }
    ensures head { IfOk result (λ x. IsFirst bytes.now room x.0 x.1.now) }
{
    if bytes.len() < 4 {
        return Err(ImageError::Short);
    }
    let head = Head::first(bytes);
    if head.number <= last {
        return Err(ImageError::Order(place));
    }
    if room < head.size() {
        return Err(ImageError::TooBig);
    }
    if bytes.len() < head.spelled_length() {
        return Err(ImageError::Short);
    }
    let (_, rest) = bytes.split_at(head.spelled_length());
    Ok((head, rest))
}

/// What follows that many records, of which the first stands at place 2 of a track that is empty so far.
#[tactic(auto, unfolding(crate::specs::Images::records_at))]
fn after_records(bytes: &[u8], count: u16) -> Result<&[u8], ImageError>
    ensures { GivesRead (λ rest. rest.now) result (rest_of_read (records_at count 2 0 capacity bytes.now)) }
{
    let mut rest = bytes;
    let mut place = 2;
    let mut last = 0;
    let mut room = CAPACITY;
    for _ in 0..count {
        let (head, after) = record(rest, place, last, room)?;
        rest = after;
        place += head.spelled_length() as u32;
        last = head.number;
        room -= head.size();
    }
    Ok(rest)
}

/// The count of an image, and the bytes of its records.
#[tactic(auto, unfolding(crate::specs::Images::image_at))]
pub fn count_and_records(bytes: &[u8]) -> Result<(u16, &[u8]), ImageError>
    ensures ok { IfOk result (λ x. image_at bytes.now ≡ records_at x.0 2 0 capacity x.1.now) }
    ensures err { IfErr result (λ error. image_at bytes.now ≡ Err error) }
{
    if bytes.len() < 2 {
        return Err(ImageError::Short);
    }
    let (front, records) = bytes.split_at(2);
    let count = BigEndian::read_u16(front);
    if count > 255 {
        return Err(ImageError::Order(0));
    }
    Ok((count, records))
}

/// What follows the image that the bytes begin with.
fn after_image(bytes: &[u8]) -> Result<&[u8], ImageError>
    ensures { GivesRead (λ rest. rest.now) result (rest_of_read (image_at bytes.now)) }
{
    let (count, records) = count_and_records(bytes)?;
    after_records(records, count)
}

/// The length of the image that the bytes begin with.
pub fn image_length(bytes: &[u8]) -> Result<usize, ImageError>
    ensures ok { IfOk result (λ count. image_at bytes.now ≡ Ok (track_of_image bytes.now, drop count bytes.now)) }
    ensures length { IfOk result (λ count. count ≡ length (image (track_of_image bytes.now))) }
    ensures err { IfErr result (λ error. image_at bytes.now ≡ Err error) }
    ensures memory { result ≢ Err ImageError.NoMemory }
{
    match after_image(bytes) {
        Ok(rest) => Ok(bytes.len() - rest.len()),
        Err(error) => Err(error),
    }
}
