//! The image of a track, put after other bytes or at the front of a buffer.

ghost use Rattle.std.specs.Prelude.{◌≡◌, ◌≤◌, ◌+◌, ◌∷◌, ◌++◌, length, take, drop, OnOk};
ghost use Rattle.std.specs.Int.{w16, to_be_bytes};
ghost use Rattle.std.specs.List.{flat_map};
ghost use Rattle.ckd_track.specs.Tracks.{IsTrack};
ghost use Rattle.ckd_track.specs.Images.{image, record_spelling};
ghost use Rattle.ckd_track.specs.Heads.{FitsHead};
ghost use Rattle.ckd_track.specs.Slots.{with_bytes};

use crate::rec::Rec;
use byteorder::{BigEndian, ByteOrder};
use std::alloc::Global;
use xrc_edge::{Bytes, NoMemory};

/// The first four bytes of a record's spelling.
fn head_bytes(rec: &Rec) -> [u8; 4]
    requires fits { FitsHead rec.now }
    ensures { result ≡ rec.now.number ∷ length rec.now.key ∷ to_be_bytes w16 (length rec.now.content) }
{
    let mut head = [rec.number, rec.key.len() as u8, 0, 0];
    BigEndian::write_u16(&mut head[2..], rec.content.len() as u16);
    head
}

/// The first two bytes of a track's image.
fn count_bytes(recs: &[Rec]) -> [u8; 2]
    requires track { IsTrack recs.now }
    ensures { result ≡ to_be_bytes w16 (length recs.now) }
{
    let mut count = [0; 2];
    BigEndian::write_u16(&mut count, recs.len() as u16);
    count
}

fn append_record(alloc: Global, out: &mut Bytes, rec: &Rec) -> Result<(), NoMemory>
    requires fits { FitsHead rec.now }
    ensures ok { OnOk result (out.new ≡ out.old ++ record_spelling rec.now) }
    ensures kept { take (length out.old) out.new ≡ out.old }
{
    out.extend_from_slice(alloc, &head_bytes(rec))?;
    out.extend_from_slice(alloc, rec.key.as_slice())?;
    out.extend_from_slice(alloc, rec.content.as_slice())
}

/// Puts the spellings of records after other bytes. Want of memory may leave a part of them there.
pub fn append_records(alloc: Global, out: &mut Bytes, recs: &[Rec]) -> Result<(), NoMemory>
    requires track { IsTrack recs.now }
    ensures ok { OnOk result (out.new ≡ out.old ++ flat_map record_spelling recs.now) }
    ensures kept { take (length out.old) out.new ≡ out.old }
{
    for rec in recs {
        append_record(alloc, out, rec)?;
    }
    Ok(())
}

/// Puts the image of a track after other bytes. Want of memory may leave a part of it there.
pub fn append_image(alloc: Global, out: &mut Bytes, recs: &[Rec]) -> Result<(), NoMemory>
    requires track { IsTrack recs.now }
    ensures ok { OnOk result (out.new ≡ out.old ++ image recs.now) }
    ensures kept { take (length out.old) out.new ≡ out.old }
{
    out.extend_from_slice(alloc, &count_bytes(recs))?;
    append_records(alloc, out, recs)
}

/// Writes bytes at a place of a buffer, and gives the place after them.
pub fn put_bytes(buffer: &mut [u8], place: usize, bytes: &[u8]) -> usize
    requires { place + length bytes.now ≤ length buffer.old }
    ensures bytes { buffer.new ≡ with_bytes place bytes.now buffer.old }
    ensures end { result ≡ place + length bytes.now }
{
    let end = place + bytes.len();
    buffer[place..end].copy_from_slice(bytes);
    end
}

fn put_record(buffer: &mut [u8], place: usize, rec: &Rec) -> usize
    requires fits { FitsHead rec.now }
    requires room { place + length (record_spelling rec.now) ≤ length buffer.old }
    ensures bytes { buffer.new ≡ with_bytes place (record_spelling rec.now) buffer.old }
    ensures end { result ≡ place + length (record_spelling rec.now) }
{
    let key_place = put_bytes(buffer, place, &head_bytes(rec));
    let content_place = put_bytes(buffer, key_place, rec.key.as_slice());
    put_bytes(buffer, content_place, rec.content.as_slice())
}

/// Writes the spellings of records at a place of a buffer, and gives the place after them.
pub fn put_records(buffer: &mut [u8], place: usize, recs: &[Rec]) -> usize
    requires track { IsTrack recs.now }
    requires room { place + length (flat_map record_spelling recs.now) ≤ length buffer.old }
    ensures bytes { buffer.new ≡ with_bytes place (flat_map record_spelling recs.now) buffer.old }
    ensures end { result ≡ place + length (flat_map record_spelling recs.now) }
{
    let mut end = place;
    for rec in recs {
        end = put_record(buffer, end, rec);
    }
    end
}

/// Writes the image of a track at a place of a buffer, and gives the place after it.
pub fn put_image(buffer: &mut [u8], place: usize, recs: &[Rec]) -> usize
    requires track { IsTrack recs.now }
    requires room { place + length (image recs.now) ≤ length buffer.old }
    ensures bytes { buffer.new ≡ with_bytes place (image recs.now) buffer.old }
    ensures end { result ≡ place + length (image recs.now) }
{
    let records = put_bytes(buffer, place, &count_bytes(recs));
    put_records(buffer, records, recs)
}
