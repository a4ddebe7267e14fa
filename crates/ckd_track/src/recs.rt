//! Records in a row: their sizes, which of them may stand on a track, and the changes of a row.

ghost use Rattle.std.specs.Prelude.{◌≡◌, ◌≤◌, ◌==◌, ◌+◌, ◌*◌, ◌++◌, ◌↔◌, length, take, position, OnOk, OnErr, IsTrue};
ghost use Rattle.std.specs.List.{flat_map};
ghost use Rattle.ckd_track.specs.Tracks.{record_size, track_size, IsTrack, last_number, are_records_above};
ghost use Rattle.ckd_track.specs.Effects.{fitting, up_to};
ghost use Rattle.ckd_track.specs.Images.{record_spelling};
ghost use Rattle.ckd_track.specs.Heads.{FitsHead};

use crate::layout::CAPACITY;
use crate::rec::Rec;
use xrc_edge::NoMemory;

/// The size of a record on a track.
fn size(rec: &Rec) -> usize
    requires fits { FitsHead rec.now }
    ensures { result ≡ record_size rec.now }
{
    8 + rec.key.len() + rec.content.len()
}

/// The sum of the records' sizes.
pub fn track_size(recs: &[Rec]) -> usize
    requires track { IsTrack recs.now }
    ensures { result ≡ track_size recs.now }
{
    let mut sum = 0;
    for rec in recs {
        sum += size(rec);
    }
    sum
}

/// The length of the records' spellings.
pub fn spelled_length(recs: &[Rec]) -> usize
    requires track { IsTrack recs.now }
    ensures { result ≡ length (flat_map record_spelling recs.now) }
{
    track_size(recs) - 4 * recs.len()
}

/// Whether records may stand above `low` on a track.
pub fn are_records_above(low: u8, recs: &[Rec]) -> bool
    ensures { IsTrue result ↔ IsTrue (are_records_above low recs.now) }
{
    let mut last = low;
    let mut room = CAPACITY;
    for rec in recs {
        if rec.number <= last || rec.key.len() > 255 {
            return false;
        }
        let size = (8 + rec.key.len()).saturating_add(rec.content.len());
        if room < size {
            return false;
        }
        last = rec.number;
        room -= size;
    }
    true
}

/// The number of the last record, or 0.
pub fn last_number(recs: &[Rec]) -> u8
    ensures { result ≡ last_number 0 recs.now }
{
    match recs {
        [] => 0,
        [.., rec] => rec.number,
    }
}

/// The place of the record with this number.
pub fn record_place(recs: &[Rec], number: u8) -> Option<usize>
    ensures { result ≡ position (λ rec. rec.number == number) recs.now }
{
    recs.iter().position(|rec| rec.number == number)
}

/// The records up to the first that doesn't fit the room.
pub fn fitting_records(recs: &[Rec], room: usize) -> &[Rec]
    requires track { IsTrack recs.now }
    ensures { result.now ≡ fitting room recs.now }
{
    let mut left = room;
    for (place, rec) in recs.iter().enumerate() {
        let size = size(rec);
        if left < size {
            return &recs[..place];
        }
        left -= size;
    }
    recs
}

/// How many records have a number up to `after`.
pub fn count_up_to(recs: &[Rec], after: u8) -> usize
    requires track { IsTrack recs.now }
    ensures within { result ≤ length recs.now }
    ensures taken { take result recs.now ≡ up_to after recs.now }
{
    for (place, rec) in recs.iter().enumerate() {
        if after < rec.number {
            return place;
        }
    }
    recs.len()
}

/// Puts other records after the first `kept` ones.
pub fn replace_after(recs: &mut Vec<Rec>, kept: usize, mut after: Vec<Rec>) -> Result<(), NoMemory>
    ensures ok { OnOk result (recs.new.items ≡ take kept recs.old.items ++ after.items) }
    ensures err { OnErr result (recs.new.items ≡ recs.old.items) }
{
    recs.reserve(after.len())?;
    recs.truncate(kept);
    recs.append(&mut after)?;
    Ok(())
}
