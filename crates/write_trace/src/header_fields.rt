//! The fields of a header, read from bytes.

ghost use Rattle.std.specs.Prelude.{◌≡◌, ◌≤◌, ◌<◌, ◌+◌, ◌*◌, length, sum_by, nat_le, bytes_eq, IfOk, IsTrue, []};
ghost use Rattle.xrc_edge.specs.declared.limits.TheConstants.{LONGEST_TRACE, MOST_CYLINDERS};
ghost use Rattle.std.specs.Int.{w32};
ghost use Rattle.std.specs.List.{list_any, All};
ghost use Rattle.ckd_track.specs.Tracks.{IsTrack};
ghost use Rattle.tod_stamp.specs.Fields.{after, is_version, number_at, within};
ghost use Rattle.write_trace.specs.Headers.{cylinder_width, most_cylinders as most_of, tracks_of, is_track_of, is_from, are_volumes, base_at, version_at, volume_at, volumes_at};
ghost use Rattle.write_trace.specs.FieldReads.{GivesField};
ghost use Rattle.write_trace.specs.HeaderParts.{seen_after, header_front_at};

use crate::cursor::Cursor;
use crate::fields::{image_field_of, place_of};
use crate::header::{BaseTrack, VolumeHead, VolumeList, most_cylinders};
use crate::stop::NoRead;
use std::alloc::Global;
use tod_stamp::Serial;
use xrc_edge::{MOST_CONTROL_VOLUMES, MOST_NARROW_CYLINDERS, TRACKS_OF_CYLINDER};

/// The version that the mark says.
#[tactic(auto, unfolding(crate::specs::Headers::version_at, tod_stamp::specs::Fields::bytes_at))]
fn mark_of(c: Cursor<'_>) -> Result<(u8, Cursor<'_>), NoRead>
    ensures reads { GivesField (λ x. (x.0, x.1)) result (version_at c.entry) }
    ensures version { IfOk result (λ x. IsTrue (is_version x.0)) }
{
    let place = c.place();
    let (mark, c) = c.front(4)?;
    if mark == b"XTR1".as_slice() {
        return Ok((1, c));
    }
    if mark == b"XTR2".as_slice() {
        return Ok((2, c));
    }
    Err(NoRead::Broken(place))
}

fn has_same_serial(volumes: &[VolumeHead], serial: Serial) -> bool
    ensures { result ≡ list_any (λ v. bytes_eq serial v.serial) volumes.now }
{
    volumes.iter().any(|volume| serial == volume.serial)
}

/// Whether one of the volumes has the serial.
fn is_taken(volumes: &[VolumeHead], serial: Serial) -> bool
    ensures { result ≡ list_any (bytes_eq serial) (seen_after [] volumes.now) }
{
    has_same_serial(volumes, serial)
}

/// A number of cylinders.
fn cylinders_of(version: u8, c: Cursor<'_>) -> Result<(u32, Cursor<'_>), NoRead>
    ensures { GivesField (λ x. (x.0, x.1)) result (number_at (cylinder_width version) (within 1 (most_of version)) c.entry) }
{
    if version == 1 {
        let (cylinders, c) = c.number_within(1, MOST_NARROW_CYLINDERS)?;
        Ok((u32::from(cylinders), c))
    } else {
        c.long_within(1, most_cylinders(version))
    }
}

/// A volume, whose serial is none of those volumes'.
#[tactic(auto, unfolding(crate::specs::Headers::volume_at, tod_stamp::specs::Fields::bytes_at))]
fn volume_of<'a>(
    version: u8,
    volumes: &[VolumeHead],
    c: Cursor<'a>,
) -> Result<(VolumeHead, Cursor<'a>), NoRead>
    ensures { GivesField (λ x. (x.0, x.1)) result (volume_at version (seen_after [] volumes.now) c.entry) }
{
    let place = c.place();
    let (field, c) = c.front(6)?;
    let Some(serial) = Serial::from_field(field) else {
        return Err(NoRead::Broken(place));
    };
    if is_taken(volumes, serial) {
        return Err(NoRead::Broken(place));
    }
    let (cylinders, c) = cylinders_of(version, c)?;
    Ok((VolumeHead { serial, cylinders }, c))
}

/// Volumes, one after another, with different serials.
fn volumes_of(
    alloc: Global,
    version: u8,
    count: u16,
    c: Cursor<'_>,
) -> Result<(VolumeList, Cursor<'_>), NoRead>
    ensures reads { GivesField (λ x. (x.0, x.1)) result (volumes_at version count [] c.entry) }
    ensures rules { IfOk result (λ x. IsTrue (are_volumes version [] x.0)) }
    ensures many { IfOk result (λ x. length x.0 ≡ count) }
{
    let mut volumes = VolumeList::make(alloc);
    let mut rest = c;
    for _ in 0..count {
        let (volume, after) = volume_of(version, volumes.as_slice(), rest)?;
        volumes.push(alloc, volume)?;
        rest = after;
    }
    Ok((volumes, rest))
}

/// The number of the volumes' tracks.
fn tracks_in(volumes: &[VolumeHead]) -> u32
    requires many { length volumes.now ≤ MOST_CONTROL_VOLUMES }
    requires small { All (λ v. v.cylinders ≤ MOST_CYLINDERS) volumes.now }
    ensures { result ≡ sum_by tracks_of volumes.now }
{
    let mut total: u32 = 0;
    for volume in volumes {
        total += TRACKS_OF_CYLINDER * volume.cylinders;
    }
    total
}

/// The number of base tracks, of which there are no more than tracks.
fn many_of<'a>(
    version: u8,
    volumes: &[VolumeHead],
    c: Cursor<'a>,
) -> Result<(u32, Cursor<'a>), NoRead>
    requires many { length volumes.now ≤ MOST_CONTROL_VOLUMES }
    requires rules { IsTrue (are_volumes version [] volumes.now) }
    ensures { GivesField (λ x. (x.0, x.1)) result (number_at w32 (λ n. nat_le n (sum_by tracks_of volumes.now)) c.entry) }
{
    c.long_up_to(tracks_in(volumes))
}

/// The head of a header: the mark, the volumes, and the number of base tracks.
#[tactic(auto, unfolding(crate::specs::HeaderParts::header_front_at))]
fn head_of(alloc: Global, c: Cursor<'_>) -> Result<((u8, VolumeList, u32), Cursor<'_>), NoRead>
    ensures reads { GivesField (λ x. ((x.0.0, x.0.1, x.0.2), x.1)) result (header_front_at c.entry) }
    ensures version { IfOk result (λ x. IsTrue (is_version x.0.0)) }
    ensures rules { IfOk result (λ x. IsTrue (are_volumes x.0.0 [] x.0.1)) }
    ensures many { IfOk result (λ x. (1 ≤ length x.0.1) × (length x.0.1 ≤ MOST_CONTROL_VOLUMES)) }
{
    let (version, c) = mark_of(c)?;
    let (count, c) = c.number_within(1, MOST_CONTROL_VOLUMES)?;
    let (volumes, c) = volumes_of(alloc, version, count, c)?;
    let (many, c) = many_of(version, volumes.as_slice(), c)?;
    Ok(((version, volumes, many), c))
}

/// The head that the bytes begin with, and how many of them it takes.
pub fn head_in(
    alloc: Global,
    place: u64,
    bytes: &[u8],
) -> Result<((u8, VolumeList, u32), usize), NoRead>
    requires { place + length bytes.now ≤ LONGEST_TRACE }
    ensures version { IfOk result (λ x. IsTrue (is_version x.0.0)) }
    ensures reads { GivesField (λ x. ((x.0.0, x.0.1, x.0.2), after x.1 (record { place = place; bytes = bytes.now }))) result (header_front_at (record { place = place; bytes = bytes.now })) }
    ensures used { IfOk result (λ x. x.1 ≤ length bytes.now) }
    ensures rules { IfOk result (λ x. IsTrue (are_volumes x.0.0 [] x.0.1)) }
    ensures many { IfOk result (λ x. (1 ≤ length x.0.1) × (length x.0.1 ≤ MOST_CONTROL_VOLUMES)) }
{
    let (head, rest) = head_of(alloc, Cursor::new(place, bytes))?;
    let used = (rest.place() - place) as usize;
    Ok((head, used))
}

/// A base track that stands from the place `low` on.
#[tactic(auto, unfolding(crate::specs::Headers::base_at))]
fn base_of<'a>(
    alloc: Global,
    version: u8,
    volumes: &[VolumeHead],
    low: (u16, u32),
    c: Cursor<'a>,
) -> Result<(BaseTrack, Cursor<'a>), NoRead>
    requires { IsTrue (are_volumes version [] volumes.now) }
    ensures { GivesField (λ x. (x.0, x.1)) result (base_at version volumes.now low c.entry) }
{
    let volume_place = c.place();
    let (volume, track, c) = place_of(version, volumes, c)?;
    if volume < low.0 || (volume == low.0 && track < low.1) {
        return Err(NoRead::Broken(volume_place));
    }
    let (recs, c) = image_field_of(alloc, c)?;
    Ok(((volume, track, recs), c))
}

/// The base track that the bytes begin with, and how many of them it takes.
pub fn base_in(
    alloc: Global,
    version: u8,
    volumes: &[VolumeHead],
    low: (u16, u32),
    place: u64,
    bytes: &[u8],
) -> Result<(BaseTrack, usize), NoRead>
    requires place { place + length bytes.now ≤ LONGEST_TRACE }
    requires rules { IsTrue (are_volumes version [] volumes.now) }
    ensures reads { GivesField (λ x. (x.0, after x.1 (record { place = place; bytes = bytes.now }))) result (base_at version volumes.now low (record { place = place; bytes = bytes.now })) }
    ensures used { IfOk result (λ x. x.1 ≤ length bytes.now) }
    ensures there { IfOk result (λ x. IsTrue (is_track_of volumes.now x.0.0 x.0.1)) }
    ensures from { IfOk result (λ x. IsTrue (is_from low (x.0.0, x.0.1))) }
    ensures track { IfOk result (λ x. IsTrack x.0.2) }
{
    let (base, rest) = base_of(alloc, version, volumes, low, Cursor::new(place, bytes))?;
    let used = (rest.place() - place) as usize;
    Ok((base, used))
}
