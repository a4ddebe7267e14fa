//! What updates and formats do to the image at the front of a slot's buffer.

ghost use Rattle.std.specs.Prelude.{◌≡◌, ◌≤◌, length, take, IsTrue};
ghost use Rattle.ckd_track.specs.Tracks.{are_records_above, rises_above};
ghost use Rattle.ckd_track.specs.Effects.{updated, formatted};
ghost use Rattle.ckd_track.specs.Slots.{HoldsImage, track_of_image, SpellsRecords, spelled_records};

use crate::fronts::{fitting_front, kept};
use crate::places::{content_place, fill_place};
use crate::rec::Rec;
use crate::recs::fitting_records;
use crate::spelling::{put_bytes, put_records};
use byteorder::{BigEndian, ByteOrder};

/// Fills the content of the record with this number, in an image of `used` bytes.
pub fn update_image(buffer: &mut [u8], used: usize, number: u8, bytes: &[u8])
    requires holds { HoldsImage used buffer.old }
    ensures holds { HoldsImage used buffer.new }
    ensures seen { track_of_image (take used buffer.new) ≡ updated number bytes.now (track_of_image (take used buffer.old)) }
{
    if let Some(place) = content_place(&buffer[..used], number) {
        fill_place(buffer, place, bytes);
    }
}

/// Puts the given records in the place of those above `after`, in an image of `used` bytes, and gives its new length.
pub fn format_image(buffer: &mut [u8], used: usize, after: u8, given: &[Rec]) -> usize
    requires holds { HoldsImage used buffer.old }
    requires above { IsTrue (are_records_above after given.now) }
    ensures holds { HoldsImage result buffer.new }
    ensures seen { track_of_image (take result buffer.new) ≡ formatted after given.now (track_of_image (take used buffer.old)) }
{
    let front = kept(&buffer[..used], after);
    if front.last != after {
        return used;
    }
    let taken = fitting_records(given, front.room);
    let end = put_records(buffer, front.end, taken);
    BigEndian::write_u16(buffer, front.count + taken.len() as u16);
    end
}

/// The same for records that are spelled one after another, that many.
pub fn format_image_spelled(
    buffer: &mut [u8],
    used: usize,
    after: u8,
    count: u8,
    given: &[u8],
) -> usize
    requires holds { HoldsImage used buffer.old }
    requires spelled { SpellsRecords count given.now }
    requires above { IsTrue (rises_above after (spelled_records count given.now)) }
    ensures holds { HoldsImage result buffer.new }
    ensures seen { track_of_image (take result buffer.new) ≡ formatted after (spelled_records count given.now) (track_of_image (take used buffer.old)) }
{
    let front = kept(&buffer[..used], after);
    if front.last != after {
        return used;
    }
    let taken = fitting_front(given, count, front.room);
    let end = put_bytes(buffer, front.end, &given[..taken.end]);
    BigEndian::write_u16(buffer, front.count + taken.count);
    end
}
