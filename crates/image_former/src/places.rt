//! The device of an entry and its job, and the entries of one track.

ghost use Rattle.std.specs.Prelude.{◌≡◌, ◌<◌, ◌+◌, ℕ, IsSome, Some, find, length, take, slice_get, slice_index_or, IsTrue};
ghost use Rattle.std.specs.Option.{option_copied};
ghost use Rattle.std.specs.List.{list_any};
ghost use Rattle.pair_table.specs.Tables.{AreRowsSound};
ghost use Rattle.image_former.specs.Entries.{is_row_of, row_device};
ghost use Rattle.image_former.specs.Jobs.{is_job_of};
ghost use Rattle.image_former.specs.Links.{AreEntriesLinked};
ghost use Rattle.image_former.specs.Steps.{is_beside, same_track};
ghost use Rattle.pending_queue.specs.Groups.{heads};

use crate::links::{LINKED, Links};
use pair_table::{PairRow, PairTable};
use pending_queue::{EntryHead, Formed};
use xrc_journal::VolumeJob;

/// The row of an entry, if it has one.
fn row_of(table: &PairTable, head: EntryHead) -> Option<&PairRow>
    ensures row { option_copied result ≡ find (is_row_of head) table.now.rows }
    ensures rules { AreRowsSound table.now.rows }
{
    table.rows().iter().find(|row| row.control == head.control && row.volume == head.volume)
}

/// The device of the row of an entry.
pub fn device_of(table: &PairTable, head: EntryHead) -> u16
    requires { IsSome (find (is_row_of head) table.now.rows) }
    ensures device { row_device (find (is_row_of head) table.now.rows) ≡ Some result }
    ensures rules { AreRowsSound table.now.rows }
{
    match row_of(table, head) {
        Some(row) => row.device,
        None => unreachable!(),
    }
}

/// The place of the device's job.
pub(crate) fn job_place<D>(jobs: &[VolumeJob<D>], device: u16) -> usize
    requires { IsTrue (list_any (is_job_of device) jobs.now) }
    ensures within { result < length jobs.now }
    ensures device { (job : VolumeJob D) → (slice_index_or jobs.now result job).device ≡ device }
{
    for place in 0..jobs.len() {
        if jobs[place].device == device {
            return place;
        }
    }
    unreachable!()
}

/// Whether two entries are on one track.
pub(crate) fn is_same_track(head: EntryHead, other: EntryHead) -> bool
    ensures { result ≡ same_track head other }
{
    head.control == other.control && head.volume == other.volume && head.track == other.track
}

/// Whether one of the entries before this place is on the track of a head, by going through all of them.
fn has_any_before(formed: &Formed, head: EntryHead, place: u32) -> bool
    requires { place < length formed.now.entries }
    ensures { result ≡ list_any (is_beside head) (take place formed.now.entries) }
{
    for earlier in 0..place {
        if is_same_track(head, formed.head(earlier)) {
            return true;
        }
    }
    false
}

/// The same by the links from the place of the head back.
fn has_linked_before(formed: &Formed, links: &Links, head: EntryHead, place: u32) -> bool
    requires linked { AreEntriesLinked (heads formed.now) links.now }
    requires head { slice_get (heads formed.now) place ≡ Some head }
    requires within { place < length formed.now.entries }
    requires low { place < LINKED }
    ensures { result ≡ list_any (is_beside head) (take place formed.now.entries) }
{
    let mut at = place;
    while let Some(earlier) = links.back(formed, at) {
        if is_same_track(head, formed.head(earlier)) {
            return true;
        }
        at = earlier;
    }
    false
}

/// Whether an entry before the place of a head is on its track.
pub(crate) fn has_earlier(formed: &Formed, links: &Links, head: EntryHead, place: u32) -> bool
    requires linked { AreEntriesLinked (heads formed.now) links.now }
    requires head { slice_get (heads formed.now) place ≡ Some head }
    requires within { place < length formed.now.entries }
    ensures { result ≡ list_any (is_beside head) (take place formed.now.entries) }
{
    if place < LINKED as u32 {
        has_linked_before(formed, links, head, place)
    } else {
        has_any_before(formed, head, place)
    }
}
