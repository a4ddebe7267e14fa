//! The tracks of the duplex pairs, as the slots of their volumes hold them.

ghost use Rattle.std.specs.Prelude.{◌≡◌, ◌≤◌, ◌*◌, [], Some, IfOk, count_by, slice_get, unwrap_or};
ghost use Rattle.xrc_edge.specs.declared.limits.TheConstants.{MOST_CYLINDERS, TRACKS_OF_CYLINDER};
ghost use Rattle.ckd_track.specs.Images.{image_at};
ghost use Rattle.ckd_track.specs.SlotPlaces.{slot_end, track_read};
ghost use Rattle.crash_plant.specs.declared.device.Device.TheVariants.{Volume};
ghost use Rattle.crash_plant.specs.Calls.{IsThere};
ghost use Rattle.crash_plant.specs.PlainPlant.{plain_state};
ghost use Rattle.pair_table.specs.declared.row.PairRow.{PairRow as RowValue};
ghost use Rattle.workload.specs.Tallies.{HasGrown, HasRoomForTracks, most_tracks, no_tally, with_records};
ghost use Rattle.workload.specs.Summaries.{HasTracks, HaveTracks, LeavesAsItWas, duplex_records, is_duplex_pair, pair_records, row_records, slot_records};

use crate::tally::Tally;
use ckd_track::{ImageError, SLOT_LENGTH, Track, slot_place};
use crash_plant::{Device, PlainPlant, Plant};
use pair_table::{PairRow, PairTable};
use std::alloc::Global;
use xrc_edge::{Failed, NoMemory, TRACKS_OF_CYLINDER};

fn is_duplex(row: &PairRow) -> bool
    ensures { result ≡ is_duplex_pair row.now }
{
    row.state.is_duplex()
}

/// Whether the pair at a place is duplex.
fn is_duplex_at(table: &PairTable, place: u16) -> bool
    ensures { (row : RowValue) → slice_get table.now.rows place ≡ Some row → result ≡ is_duplex_pair row }
{
    match table.row(place) {
        Some(row) => is_duplex(row),
        None => false,
    }
}

/// How many pairs are duplex.
pub(crate) fn count_duplex(table: &PairTable) -> u64
    ensures { result ≡ count_by is_duplex_pair table.now.rows }
{
    let mut count = 0;
    for place in 0..table.len() {
        if is_duplex_at(table, place) {
            count += 1;
        }
    }
    count
}

/// The track whose image the bytes begin with. Bytes that begin with none give the empty track.
fn decoded(alloc: Global, bytes: &[u8]) -> Result<Track, NoMemory>
    ensures { IfOk result (λ track. track ≡ unwrap_or (track_read (image_at bytes.now)) []) }
{
    match Track::decode_image(alloc, bytes) {
        Ok((track, _)) => Ok(track),
        Err(ImageError::NoMemory) => Err(NoMemory),
        Err(ImageError::Short) => Ok(Track::make(alloc)),
        Err(ImageError::TooBig) => Ok(Track::make(alloc)),
        Err(ImageError::Order(_)) => Ok(Track::make(alloc)),
    }
}

/// Reads the track that a slot of a volume holds. One that holds none gives the empty track.
fn read_track(
    alloc: Global,
    plant: &mut PlainPlant,
    device: u16,
    track: u32,
) -> Result<Track, NoMemory>
    requires there { IsThere (plain_state plant.old) (Volume device) }
    requires room { slot_end track ≤ (plain_state plant.old).lengths (Volume device) }
    ensures track { IfOk result (λ held. held ≡ slot_records ((plain_state plant.old).bytes (Volume device)) track) }
    ensures leaves { LeavesAsItWas (plain_state plant.old) (plain_state plant.new) }
{
    let mut bytes = [0; SLOT_LENGTH];
    match plant.read(Device::Volume(device), slot_place(track), &mut bytes) {
        Ok(()) => {}
        // A plant in memory counts no faults of its devices.
        Err(Failed) => unreachable!(),
    }
    decoded(alloc, &bytes)
}

/// Counts the records on all tracks of a pair's volume.
fn add_row(
    alloc: Global,
    plant: &mut PlainPlant,
    row: &PairRow,
    counted: Tally,
) -> Result<Tally, NoMemory>
    requires there { IsThere (plain_state plant.old) (Volume row.now.device) }
    requires long { HasTracks (plain_state plant.old) row.now }
    requires few { row.now.cylinders ≤ MOST_CYLINDERS }
    requires room { HasRoomForTracks (TRACKS_OF_CYLINDER * row.now.cylinders) counted }
    ensures counts { IfOk result (λ tally. tally ≡ with_records counted (row_records ((plain_state plant.old).bytes (Volume row.now.device)) row.now)) }
    ensures grows { IfOk result (λ tally. HasGrown (TRACKS_OF_CYLINDER * row.now.cylinders) counted tally) }
    ensures leaves { LeavesAsItWas (plain_state plant.old) (plain_state plant.new) }
{
    let mut tally = counted;
    for number in 0..TRACKS_OF_CYLINDER * row.cylinders {
        let track = read_track(alloc, plant, row.device, number)?;
        tally = tally.with_track(&track);
    }
    Ok(tally)
}

/// The same for the pair at a place, if it is duplex.
fn add_at(
    alloc: Global,
    plant: &mut PlainPlant,
    table: &PairTable,
    place: u16,
    counted: Tally,
) -> Result<Tally, NoMemory>
    requires site { HaveTracks (plain_state plant.old) table.now.rows }
    requires room { HasRoomForTracks most_tracks counted }
    ensures counts { (row : RowValue) → slice_get table.now.rows place ≡ Some row → IfOk result (λ tally. tally ≡ with_records counted (pair_records (plain_state plant.old).bytes row)) }
    ensures grows { IfOk result (λ tally. HasGrown most_tracks counted tally) }
    ensures leaves { LeavesAsItWas (plain_state plant.old) (plain_state plant.new) }
{
    match table.row(place) {
        Some(row) if is_duplex(row) => add_row(alloc, plant, row, counted),
        _ => Ok(counted),
    }
}

/// Counts the records on all tracks of the duplex pairs' volumes.
pub(crate) fn tally_duplex(
    alloc: Global,
    plant: &mut PlainPlant,
    table: &PairTable,
) -> Result<Tally, NoMemory>
    requires site { HaveTracks (plain_state plant.old) table.now.rows }
    ensures counts { IfOk result (λ tally. tally ≡ with_records no_tally (duplex_records (plain_state plant.old).bytes table.now.rows)) }
    ensures leaves { LeavesAsItWas (plain_state plant.old) (plain_state plant.new) }
{
    let mut tally = Tally::zero();
    for place in 0..table.len() {
        tally = add_at(alloc, plant, table, place, tally)?;
    }
    Ok(tally)
}
