//! One track, read where need be and changed by its entries.

ghost use Rattle.std.specs.Prelude.{◌≡◌, ◌<◌, ◌≤◌, ℕ, List, [], Option, Some, false, true, unwrap_or, length, slice_get, OnOk, OnErr};
ghost use Rattle.ckd_track.specs.declared.rec.Rec.{Rec};
ghost use Rattle.ckd_track.specs.SlotPlaces.{slot_end, slot_track};
ghost use Rattle.pending_queue.specs.Groups.{heads};
ghost use Rattle.image_former.specs.Links.{AreEntriesLinked};
ghost use Rattle.image_former.specs.Steps.{StartsFromTrack, DoesEntries, Goes, HoldsSlot, OfBytes, Reads};

use crate::links::Links;
use crate::places::is_same_track;
use ckd_track::{SLOT_LENGTH, Slot, slot_place};
use crash_plant::Disk;
use pending_queue::{EntryHead, Formed};
use xrc_edge::Failed;
use xrc_journal::VolumeJob;

/// How many bytes of a slot are read first. Most images lie whole in them, and they end with the page of 4,096 bytes in which the
/// slot begins.
const FRONT_LENGTH: usize = 3_584;

/// Reads the track that its slot on the volume holds. One that holds none gives the empty track.
fn read_track<D: Disk>(disk: &mut D, track: u32, slot: &mut Slot) -> Result<(), Failed>
    requires { slot_end track ≤ (D.state disk.old).length_is }
    ensures track { D.tells → OnOk result (slot.new ≡ unwrap_or (slot_track (D.state disk.old).bytes track) []) }
    ensures reads { Reads D.state D.tells disk.old disk.new result }
{
    let mut front = [0; FRONT_LENGTH];
    disk.read(slot_place(track), &mut front)?;
    match slot.load(&front) {
        Ok(_) => Ok(()),
        Err(_) => read_whole_slot(disk, track, slot),
    }
}

/// Does the same from the whole slot. It is a call of its own, so that no other pays for the long buffer.
#[inline(never)]
fn read_whole_slot<D: Disk>(disk: &mut D, track: u32, slot: &mut Slot) -> Result<(), Failed>
    requires { slot_end track ≤ (D.state disk.old).length_is }
    ensures track { D.tells → OnOk result (slot.new ≡ unwrap_or (slot_track (D.state disk.old).bytes track) []) }
    ensures reads { Reads D.state D.tells disk.old disk.new result }
{
    let mut bytes = [0; SLOT_LENGTH];
    disk.read(slot_place(track), &mut bytes)?;
    let _ = slot.load(&bytes);
    Ok(())
}

/// Reads a track of the job's volume into its slot. Where that fails the job is marked failed.
fn read_job<D: Disk>(job: &mut VolumeJob<D>, track: u32) -> Result<(), Failed>
    requires sound { job.old.failed ≡ false }
    requires slot { HoldsSlot D.state track job.old.disk }
    ensures goes { Goes D.state D.tells job.old job.new }
    ensures track { D.tells → OnOk result (OfBytes D.state (λ bytes. job.new.slot ≡ unwrap_or (slot_track bytes track) []) job.old.disk) }
    ensures ok { OnOk result (job.new.failed ≡ false) }
    ensures err { OnErr result (job.new.failed ≡ true) }
{
    let read = match &mut job.disk {
        Some(disk) => read_track(disk, track, &mut job.slot),
        None => unreachable!(),
    };
    job.failed = read.is_err();
    read
}

/// Does to a track what the entry of this head at this place does, and those after it on the same track.
fn apply_entries(formed: &Formed, links: &Links, head: EntryHead, place: u32, slot: &mut Slot)
    requires linked { AreEntriesLinked (heads formed.now) links.now }
    requires within { place < length formed.now.entries }
    requires head { slice_get (heads formed.now) place ≡ Some head }
    ensures { (old : Option (List Rec)) → StartsFromTrack head old slot.old → DoesEntries head place formed.now.entries old slot.new }
{
    slot.apply_entry(formed.entry(place));
    let mut at = links.forth(formed, place);
    while at < formed.count() {
        if is_same_track(head, formed.head(at)) {
            slot.apply_entry(formed.entry(at));
        }
        at = links.forth(formed, at);
    }
}

/// Makes the job's slot the track of the entry of this head at this place, as that entry and those after it leave it. The
/// track is read unless the entry replaces it.
pub(crate) fn form_track<D: Disk>(
    formed: &Formed,
    links: &Links,
    head: EntryHead,
    place: u32,
    job: &mut VolumeJob<D>,
) -> Result<(), Failed>
    requires linked { AreEntriesLinked (heads formed.now) links.now }
    requires within { place < length formed.now.entries }
    requires head { slice_get (heads formed.now) place ≡ Some head }
    requires sound { job.old.failed ≡ false }
    requires slot { HoldsSlot D.state head.track job.old.disk }
    ensures goes { Goes D.state D.tells job.old job.new }
    ensures whole { head.whole ≡ true → job.new.disk ≡ job.old.disk }
    ensures content { D.tells → OnOk result (OfBytes D.state (λ bytes. DoesEntries head place formed.now.entries (slot_track bytes head.track) job.new.slot) job.old.disk) }
    ensures ok { OnOk result (job.new.failed ≡ false) }
    ensures err { OnErr result (job.new.failed ≡ true) }
    ensures read { OnErr result (head.whole ≡ false) }
{
    if !head.whole {
        read_job(job, head.track)?;
    }
    apply_entries(formed, links, head, place, &mut job.slot);
    Ok(())
}
