//! Reading a track.

ghost use Rattle.std.specs.Prelude.{◌≡◌, ◌≤◌, ◌<◌, ◌^◌, ◌*◌, ◌+◌, ◌-◌, ◌∷◌, [], length, IfOk};
ghost use Rattle.xrc_edge.specs.declared.limits.TheConstants.{MOST_NARROW_CYLINDERS, TRACKS_OF_CYLINDER};
ghost use Rattle.ckd_track.specs.Tracks.{capacity, last_number};
ghost use Rattle.ckd_track.specs.Images.{record_at};
ghost use Rattle.ckd_image.specs.ImageTracks.{GivesTrack, counted_at, counted_record as record_bytes, placed_in_track, records_to_end, device_track_at, track_fault_at};

use crate::fault::TrackFault;
use crate::front::{begins_with, count_place, track_front};
use crate::layout::{COUNT_LENGTH, END_MARK, FRONT_LENGTH, HOME_LENGTH, MOST_RECORDS};
use ckd_track::{ImageError, Rec, RecList, Track, decode_records};
use std::alloc::Global;

/// The fault of a record at a place of its track.
fn fault_at(place: u32, error: ImageError) -> TrackFault
    ensures { result ≡ track_fault_at place error }
{
    match error {
        ImageError::Short => TrackFault::Unended(place),
        ImageError::TooBig => TrackFault::TooLong(place),
        ImageError::Order(_) => TrackFault::Number(place),
        ImageError::NoMemory => TrackFault::NoMemory,
    }
}

/// The record of a row of one.
fn only_record(recs: RecList) -> Rec
    requires { length recs ≡ 1 }
    ensures { recs ≡ result ∷ [] }
{
    match recs.into_vec().pop() {
        Some(rec) => rec,
        None => unreachable!(),
    }
}

/// The record above `last` that the bytes begin with, and what follows it. It stands at a place of its track.
fn record_after_place(
    alloc: Global,
    place: u32,
    last: u8,
    bytes: &[u8],
) -> Result<(Rec, &[u8]), TrackFault>
    ensures { GivesTrack (λ x. (x.0, x.1.now)) result (placed_in_track place (record_at 0 last capacity bytes.now)) }
{
    match decode_records(alloc, bytes, 1, last) {
        Ok((recs, length)) => {
            let (_, rest) = bytes.split_at(length);
            Ok((only_record(recs), rest))
        }
        Err(error) => Err(fault_at(place, error)),
    }
}

/// The record with its count field that the bytes begin with, and what follows it. It stands at a place of this track.
#[tactic(auto, unfolding(crate::specs::ImageTracks::counted_at))]
fn counted_record(
    alloc: Global,
    number: u32,
    place: u32,
    last: u8,
    bytes: &[u8],
) -> Result<(Rec, &[u8]), TrackFault>
    requires { number < TRACKS_OF_CYLINDER * MOST_NARROW_CYLINDERS }
    ensures read { GivesTrack (λ x. (x.0, x.1.now)) result (counted_at number place last bytes.now) }
    ensures length { IfOk result (λ x. length bytes.now ≡ length (record_bytes number x.0) + length x.1.now) }
{
    if bytes.len() < COUNT_LENGTH {
        return Err(TrackFault::Unended(place));
    }
    if !begins_with(&count_place(number), bytes) {
        return Err(TrackFault::Misplaced(place));
    }
    let (_, after_place) = bytes.split_at(4);
    record_after_place(alloc, place, last, after_place)
}

/// The place in its track at which the rest of the bytes after the front begins.
fn place_of_rest(bytes: &[u8], rest: &[u8]) -> u32
    requires within { length rest.now ≤ length bytes.now }
    requires short { length bytes.now < 2 ^ 31 }
    ensures { result ≡ 21 + (length bytes.now - length rest.now) }
{
    (FRONT_LENGTH + (bytes.len() - rest.len())) as u32
}

/// The records up to the end mark, of which the first stands after the front.
fn records_to_end(alloc: Global, number: u32, bytes: &[u8]) -> Result<Track, TrackFault>
    requires track { number < TRACKS_OF_CYLINDER * MOST_NARROW_CYLINDERS }
    requires short { length bytes.now < 2 ^ 31 }
    ensures { GivesTrack (λ track. track) result (records_to_end 256 number 21 [] bytes.now) }
{
    let mut track = Track::make(alloc);
    let mut rest = bytes;
    let mut last = 0;
    for _ in 0..MOST_RECORDS + 1 {
        let place = place_of_rest(bytes, rest);
        if begins_with(&END_MARK, rest) {
            return Ok(track);
        }
        let (rec, after) = counted_record(alloc, number, place, last, rest)?;
        if !track.fits(&rec) {
            return Err(TrackFault::TooLong(place));
        }
        last = rec.number;
        track.push(alloc, rec)?;
        rest = after;
    }
    Err(TrackFault::Unended(place_of_rest(bytes, rest)))
}

/// The track that the bytes begin with, by its number on the volume.
pub fn read_track(alloc: Global, number: u32, bytes: &[u8]) -> Result<Track, TrackFault>
    requires track { number < TRACKS_OF_CYLINDER * MOST_NARROW_CYLINDERS }
    requires short { length bytes.now < 2 ^ 31 }
    ensures { GivesTrack (λ track. track) result (device_track_at number bytes.now) }
{
    let front = track_front(number);
    if !begins_with(&front[..HOME_LENGTH], bytes) {
        return Err(TrackFault::HomeAddress);
    }
    if !begins_with(&front, bytes) {
        return Err(TrackFault::RecordZero);
    }
    let (_, records) = bytes.split_at(FRONT_LENGTH);
    records_to_end(alloc, number, records)
}
