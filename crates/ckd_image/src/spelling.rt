//! The bytes of a track.

ghost use Rattle.std.specs.Prelude.{◌≡◌, ◌<◌, ◌*◌, ◌∷◌, ◌++◌, length, IfOk, OnOk};
ghost use Rattle.std.specs.Int.{w16, to_be_bytes};
ghost use Rattle.xrc_edge.specs.declared.limits.TheConstants.{MOST_NARROW_CYLINDERS, TRACKS_OF_CYLINDER};
ghost use Rattle.ckd_track.specs.Heads.{FitsHead};
ghost use Rattle.ckd_image.specs.ImageTracks.{count_place, counted_record, fitted_image_track, image_track};

use crate::front::{count_place, track_front};
use crate::layout::{COUNT_LENGTH, END_MARK};
use byteorder::{BigEndian, ByteOrder};
use ckd_track::{Rec, Track};
use std::alloc::Global;
use xrc_edge::{Bytes, NoMemory};

/// The count field of a record on this track.
fn count_field(number: u32, rec: &Rec) -> [u8; COUNT_LENGTH]
    requires track { number < TRACKS_OF_CYLINDER * MOST_NARROW_CYLINDERS }
    requires fits { FitsHead rec.now }
    ensures { result ≡ count_place number ++ (rec.now.number ∷ length rec.now.key ∷ to_be_bytes w16 (length rec.now.content)) }
{
    let mut field = [0; COUNT_LENGTH];
    field[..4].copy_from_slice(&count_place(number));
    field[4] = rec.number;
    field[5] = rec.key.len() as u8;
    BigEndian::write_u16(&mut field[6..], rec.content.len() as u16);
    field
}

/// Puts a record with its count field after other bytes.
fn append_counted(alloc: Global, out: &mut Bytes, number: u32, rec: &Rec) -> Result<(), NoMemory>
    requires track { number < TRACKS_OF_CYLINDER * MOST_NARROW_CYLINDERS }
    requires fits { FitsHead rec.now }
    ensures { OnOk result (out.new ≡ out.old ++ counted_record number rec.now) }
{
    out.extend_from_slice(alloc, &count_field(number, rec))?;
    out.extend_from_slice(alloc, rec.key.as_slice())?;
    out.extend_from_slice(alloc, rec.content.as_slice())
}

/// The bytes of a track, by its number on the volume, up to its end mark.
fn spelled_track(alloc: Global, number: u32, track: &Track) -> Result<Bytes, NoMemory>
    requires { number < TRACKS_OF_CYLINDER * MOST_NARROW_CYLINDERS }
    ensures { IfOk result (λ bytes. bytes ≡ image_track number track.now) }
{
    let mut bytes = Bytes::make(alloc);
    bytes.extend_from_slice(alloc, &track_front(number))?;
    let recs = track.recs();
    for rec in recs {
        append_counted(alloc, &mut bytes, number, rec)?;
    }
    bytes.extend_from_slice(alloc, &END_MARK)?;
    Ok(bytes)
}

/// The bytes of a track with zeros after its end mark, up to a size. None exactly if the track is longer.
pub fn fitted_track(
    alloc: Global,
    number: u32,
    track: &Track,
    size: usize,
) -> Result<Option<Bytes>, NoMemory>
    requires { number < TRACKS_OF_CYLINDER * MOST_NARROW_CYLINDERS }
    ensures { IfOk result (λ bytes. bytes ≡ fitted_image_track size number track.now) }
{
    let mut bytes = spelled_track(alloc, number, track)?.into_vec();
    if size < bytes.len() {
        return Ok(None);
    }
    bytes.resize(size, 0)?;
    Ok(Some(Bytes::of(bytes)))
}
