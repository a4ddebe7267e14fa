//! The content of a record in an image: where it stands, found in one pass over the heads, and how it is filled.

ghost use Rattle.std.specs.Prelude.{◌≡◌, ◌≤◌, ◌+◌, ◌++◌, length, take, drop};
ghost use Rattle.ckd_track.specs.Effects.{fitted};
ghost use Rattle.ckd_track.specs.Slots.{IsImage, track_of_image};
ghost use Rattle.ckd_track.specs.Places.{place_of_content};

use crate::head::Head;
use byteorder::{BigEndian, ByteOrder};

/// Where a record's content stands in an image.
#[derive(Clone, Copy, Debug)]
pub struct Place {
    pub from: usize,
    pub len: usize,
}

/// The count of records.
pub fn count(image: &[u8]) -> u16
    requires { IsImage image.now }
    ensures { result ≡ length (track_of_image image.now) }
{
    BigEndian::read_u16(image)
}

/// The place of the content of the record with this number.
pub fn content_place(image: &[u8], number: u8) -> Option<Place>
    requires { IsImage image.now }
    ensures { result ≡ place_of_content number 2 (track_of_image image.now) }
{
    let count = count(image);
    let (_, mut rest) = image.split_at(2);
    let mut at = 2;
    for _ in 0..count {
        let head = Head::first(rest);
        if head.number == number {
            return Some(Place {
                from: at + 4 + head.key_length as usize,
                len: head.content_length as usize,
            });
        }
        let (_, after) = rest.split_at(head.spelled_length());
        rest = after;
        at += head.spelled_length();
    }
    None
}

/// Fills a content with bytes, and with zeros after them. What has no room is left out.
pub fn fill_content(content: &mut [u8], bytes: &[u8])
    ensures { content.new ≡ fitted (length content.old) bytes.now }
{
    let kept = content.len().min(bytes.len());
    let (front, back) = content.split_at_mut(kept);
    front.copy_from_slice(&bytes[..kept]);
    back.fill(0);
}

/// Fills the content at a place.
pub fn fill_place(buffer: &mut [u8], place: Place, bytes: &[u8])
    requires { place.from + place.len ≤ length buffer.old }
    ensures { buffer.new ≡ take place.from buffer.old ++ (fitted place.len bytes.now ++ drop (place.from + place.len) buffer.old) }
{
    fill_content(&mut buffer[place.from..place.from + place.len], bytes);
}
