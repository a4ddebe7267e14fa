//! Reading the fields of an entry one after another: each reader gives what the definition of its field gives.

ghost use Rattle.std.specs.Prelude.{◌≡◌, ◌≢◌, ◌≤◌, ◌<◌, ◌+◌, ℕ, List, [], Result, Err, length, nat_lt, IfOk, IfErr, IsTrue};
ghost use Rattle.xrc_edge.specs.declared.limits.TheConstants.{LONGEST_TRACE, MOST_CYLINDERS};
ghost use Rattle.tod_stamp.specs.Fields.{Left, number_at};
ghost use Rattle.ckd_track.specs.declared.rec.Rec as records;
ghost use Rattle.ckd_track.specs.declared.fault.ImageError.{ImageError};
ghost use Rattle.write_trace.specs.Headers.{are_volumes, cylinder_width, place_at, cylinders_of, as_field, image_field};
ghost use Rattle.write_trace.specs.Entries.{format_at, whole_at, kind_at, write_at, entry_at, records_field};
ghost use Rattle.write_trace.specs.FieldReads.{GivesField, Fails};
ghost use Rattle.write_trace.specs.Steps.{ReadOf};
ghost use Rattle.ckd_track.specs.Fields.{update_at};

use crate::cursor::Cursor;
use crate::entry::Entry;
use crate::header::VolumeHead;
use crate::stop::NoRead;
use ckd_track::{ImageError, Kind, LONGEST_UPDATE, RecList, Track, Write, decode_records};
use std::alloc::Global;
use tod_stamp::Stamp;
use xrc_edge::{Bytes, NoMemory, TRACKS_OF_CYLINDER};

const IDLE: u8 = 1;

const UPDATE: u8 = 2;

const FORMAT: u8 = 3;

const WHOLE: u8 = 4;

/// A copy of bytes, in a list that is no longer than they are.
fn copied(alloc: Global, bytes: &[u8]) -> Result<Bytes, NoMemory>
    ensures { IfOk result (λ copy. copy ≡ bytes.now) }
{
    let mut copy = Bytes::make(alloc);
    copy.extend_from_slice(alloc, bytes)?;
    Ok(copy)
}

#[tactic(auto, unfolding(ckd_track::specs::Fields::update_at))]
fn update_of(alloc: Global, cursor: Cursor<'_>) -> Result<(Kind, Cursor<'_>), NoRead>
    ensures { GivesField (λ x. (x.0, x.1)) result (update_at cursor.entry) }
{
    let (number, cursor) = cursor.byte(1, 255)?;
    let (length, cursor) = cursor.number_up_to(LONGEST_UPDATE as u16)?;
    let (bytes, cursor) = cursor.front(length as usize)?;
    let bytes = copied(alloc, bytes)?;
    Ok((Kind::Update { number, bytes }, cursor))
}

fn cylinders_at(volumes: &[VolumeHead], volume: u16) -> u32
    requires { volume < length volumes.now }
    ensures { result ≡ cylinders_of volumes.now volume }
{
    volumes[volume as usize].cylinders
}

/// A cylinder of the volume.
fn cylinder_of<'a>(
    version: u8,
    volumes: &[VolumeHead],
    volume: u16,
    cursor: Cursor<'a>,
) -> Result<(u32, Cursor<'a>), NoRead>
    requires there { volume < length volumes.now }
    requires rules { IsTrue (are_volumes version [] volumes.now) }
    ensures reads { GivesField (λ x. (x.0, x.1)) result (number_at (cylinder_width version) (λ n. nat_lt n (cylinders_of volumes.now volume)) cursor.entry) }
    ensures few { IfOk result (λ x. x.0 < MOST_CYLINDERS) }
{
    let cylinders = cylinders_at(volumes, volume);
    if version == 1 {
        let (cylinder, cursor) = cursor.number_below(cylinders as usize)?;
        Ok((u32::from(cylinder), cursor))
    } else {
        cursor.long_below(cylinders)
    }
}

/// A volume, and the number of a track of it.
#[tactic(auto, unfolding(crate::specs::Headers::place_at))]
pub fn place_of<'a>(
    version: u8,
    volumes: &[VolumeHead],
    cursor: Cursor<'a>,
) -> Result<(u16, u32, Cursor<'a>), NoRead>
    requires { IsTrue (are_volumes version [] volumes.now) }
    ensures { GivesField (λ x. ((x.0, x.1), x.2)) result (place_at version volumes.now cursor.entry) }
{
    let (volume, cursor) = cursor.number_below(volumes.len())?;
    let (cylinder, cursor) = cylinder_of(version, volumes, volume, cursor)?;
    let (head, cursor) = cursor.number_below(TRACKS_OF_CYLINDER as usize)?;
    Ok((volume, TRACKS_OF_CYLINDER * cylinder + head as u32, cursor))
}

/// Why records are no field, at the field's place.
fn stop_of(error: ImageError, place: u64) -> NoRead
    ensures { (left : Left) (read : Result (List records.Rec × List ℕ) ImageError) → left.place ≡ place → (error ≢ ImageError.NoMemory → read ≡ Err error) → Fails result (as_field left read) }
{
    match error {
        ImageError::NoMemory => NoRead::Memory,
        ImageError::Short => NoRead::Cut(place),
        ImageError::TooBig | ImageError::Order(_) => NoRead::Broken(place),
    }
}

/// An image as one field.
pub fn image_field_of(alloc: Global, cursor: Cursor<'_>) -> Result<(Track, Cursor<'_>), NoRead>
    ensures { GivesField (λ x. (x.0, x.1)) result (image_field cursor.entry) }
{
    let bytes = cursor.bytes();
    match Track::decode_image(alloc, bytes) {
        Ok((track, length)) => Ok((track, cursor.at_rest(&bytes[length..]))),
        Err(error) => Err(stop_of(error, cursor.place())),
    }
}

/// That many records as one field.
fn records_field_of(
    alloc: Global,
    count: u8,
    low: u8,
    cursor: Cursor<'_>,
) -> Result<(RecList, Cursor<'_>), NoRead>
    ensures { GivesField (λ x. (x.0, x.1)) result (records_field count low cursor.entry) }
{
    let bytes = cursor.bytes();
    match decode_records(alloc, bytes, count, low) {
        Ok((recs, length)) => Ok((recs, cursor.at_rest(&bytes[length..]))),
        Err(error) => Err(stop_of(error, cursor.place())),
    }
}

#[tactic(auto, unfolding(crate::specs::Entries::format_at))]
fn format_of(alloc: Global, cursor: Cursor<'_>) -> Result<(Kind, Cursor<'_>), NoRead>
    ensures { GivesField (λ x. (x.0, x.1)) result (format_at cursor.entry) }
{
    let (after, cursor) = cursor.any_byte()?;
    let (count, cursor) = cursor.any_byte()?;
    let (recs, cursor) = records_field_of(alloc, count, after, cursor)?;
    Ok((Kind::Format { after, recs }, cursor))
}

#[tactic(auto, unfolding(crate::specs::Entries::whole_at))]
fn whole_of(alloc: Global, cursor: Cursor<'_>) -> Result<(Kind, Cursor<'_>), NoRead>
    ensures { GivesField (λ x. (x.0, x.1)) result (whole_at cursor.entry) }
{
    let (track, cursor) = image_field_of(alloc, cursor)?;
    Ok((Kind::Whole { track }, cursor))
}

#[tactic(auto, unfolding(crate::specs::Entries::kind_at))]
fn kind_of(alloc: Global, tag: u8, cursor: Cursor<'_>) -> Result<(Kind, Cursor<'_>), NoRead>
    ensures { GivesField (λ x. (x.0, x.1)) result (kind_at tag cursor.entry) }
{
    match tag {
        UPDATE => update_of(alloc, cursor),
        FORMAT => format_of(alloc, cursor),
        _ => whole_of(alloc, cursor),
    }
}

#[tactic(auto, unfolding(crate::specs::Entries::write_at))]
fn write_of<'a>(
    alloc: Global,
    version: u8,
    volumes: &[VolumeHead],
    tag: u8,
    stamp: u64,
    cursor: Cursor<'a>,
) -> Result<(Entry, Cursor<'a>), NoRead>
    requires { IsTrue (are_volumes version [] volumes.now) }
    ensures { GivesField (λ x. (x.0, x.1)) result (write_at version volumes.now tag stamp cursor.entry) }
{
    let (volume, track, cursor) = place_of(version, volumes, cursor)?;
    let (kind, cursor) = kind_of(alloc, tag, cursor)?;
    let write = Write {
        volume,
        track,
        stamp: Stamp(stamp),
        kind,
    };
    Ok((Entry::Written(write), cursor))
}

/// The entry that the bytes begin with.
#[tactic(auto, unfolding(crate::specs::Entries::entry_at))]
fn entry_of<'a>(
    alloc: Global,
    version: u8,
    volumes: &[VolumeHead],
    last: u64,
    cursor: Cursor<'a>,
) -> Result<(Entry, Cursor<'a>), NoRead>
    requires { IsTrue (are_volumes version [] volumes.now) }
    ensures { GivesField (λ x. (x.0, x.1)) result (entry_at version volumes.now last cursor.entry) }
{
    let (tag, cursor) = cursor.byte(IDLE, WHOLE)?;
    let (stamp, cursor) = cursor.stamp(last)?;
    if tag == IDLE {
        return Ok((Entry::Idle(Stamp(stamp)), cursor));
    }
    write_of(alloc, version, volumes, tag, stamp, cursor)
}

/// The entry that the bytes begin with, and how many of them it takes. The first byte stands at a place of a trace.
pub fn entry_in(
    alloc: Global,
    version: u8,
    volumes: &[VolumeHead],
    last: u64,
    place: u64,
    bytes: &[u8],
) -> Result<(Entry, usize), NoRead>
    requires place { place + length bytes.now ≤ LONGEST_TRACE }
    requires rules { IsTrue (are_volumes version [] volumes.now) }
    ensures ok { IfOk result (λ x. ReadOf version volumes.now last (record { place = place; bytes = bytes.now }) x.0 x.1) }
    ensures err { IfErr result (λ stop. Fails stop (entry_at version volumes.now last (record { place = place; bytes = bytes.now }))) }
{
    let (entry, rest) = entry_of(alloc, version, volumes, last, Cursor::new(place, bytes))?;
    Ok((entry, (rest.place() - place) as usize))
}
