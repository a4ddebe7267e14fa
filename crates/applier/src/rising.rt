//! The images of a body, written into the slots of many volumes.

ghost use Rattle.std.specs.Prelude.{◌≡◌, ◌≢◌, ◌<◌, ℕ, All, IfSome, IsTrue, None, false, length, slice_index_or};
ghost use Rattle.xrc_journal.specs.Items.{Item};
ghost use Rattle.xrc_journal.specs.declared.job.VolumeJob.{VolumeJob};
ghost use Rattle.applier.specs.Disks.{AreRising};
ghost use Rattle.applier.specs.Sides.{AppliesToJob, HasItsSlots, HoldsOfEach};
ghost use Rattle.applier.specs.Writes.{HasSlotRoom, IsItemTold, WritesToJob};

use crate::applying::{apply_item, apply_one};
use crash_plant::Disk;
use xrc_journal::{Body, BodyItem, VolumeJob, first_item};

/// Whether each job's device is above that of the job before.
fn are_rising<D>(jobs: &[VolumeJob<D>]) -> bool
    ensures { IsTrue result → AreRising jobs.now }
{
    for place in 1..jobs.len() {
        if jobs[place].device <= jobs[place - 1].device {
            return false;
        }
    }
    true
}

/// Whether the job at a place is there, and of a device.
fn is_at<D>(jobs: &[VolumeJob<D>], place: usize, device: u16) -> bool
    ensures there { IsTrue result → (place < length jobs.now) × ((d : VolumeJob D) → (slice_index_or jobs.now place d).device ≡ device) }
    ensures other { result ≡ false → place < length jobs.now → (d : VolumeJob D) → (slice_index_or jobs.now place d).device ≢ device }
{
    place < jobs.len() && jobs[place].device == device
}

/// The place of a device's job. Where the devices go up by one, this is looked for at one place alone.
fn place_of<D>(jobs: &[VolumeJob<D>], device: u16) -> Option<usize>
    requires { AreRising jobs.now }
    ensures there { IfSome result (λ place. (place < length jobs.now) × ((d : VolumeJob D) → (slice_index_or jobs.now place d).device ≡ device)) }
    ensures none { result ≡ None → (i : ℕ) (d : VolumeJob D) → i < length jobs.now → (slice_index_or jobs.now i d).device ≢ device }
{
    let from = match jobs.first() {
        Some(first) => first.device,
        None => return None,
    };
    let likely = usize::from(device.saturating_sub(from));
    if is_at(jobs, likely, device) {
        return Some(likely);
    }
    let place = jobs.partition_point(|job| job.device < device);
    if is_at(jobs, place, device) {
        Some(place)
    } else {
        None
    }
}

/// Writes an item's image to the volume of the job of its device, if there is one.
fn apply_item_to<D: Disk>(jobs: &mut [VolumeJob<D>], item: BodyItem, bytes: &[u8])
    requires rising { AreRising jobs.old }
    requires item { (i : Item) × IsItemTold item bytes.now i }
    requires room { All (HasSlotRoom D.state item) jobs.old }
    ensures { (i : Item) → IsItemTold item bytes.now i → HoldsOfEach (WritesToJob D.state D.tells i) jobs.old jobs.new }
{
    if let BodyItem::Image { device, track: _ } = item {
        if let Some(place) = place_of(jobs, device) {
            apply_item(&mut jobs[place], item, bytes);
        }
    }
}

/// Goes through the body once, and writes each image to the volume of its device.
fn apply_rising<D: Disk>(body: &Body, jobs: &mut [VolumeJob<D>])
    requires rising { AreRising jobs.old }
    requires slots { All (HasItsSlots D.state body.now.items) jobs.old }
    ensures { HoldsOfEach (AppliesToJob D.state D.tells body.now.items) jobs.old jobs.new }
{
    let bytes = body.bytes();
    let mut at = 0;
    while let Some((item, length)) = first_item(&bytes[at..]) {
        apply_item_to(jobs, item, &bytes[at..at + length]);
        at += length;
    }
}

/// Goes through the body for each job.
fn apply_each<D: Disk>(body: &Body, jobs: &mut [VolumeJob<D>])
    requires { All (HasItsSlots D.state body.now.items) jobs.old }
    ensures { HoldsOfEach (AppliesToJob D.state D.tells body.now.items) jobs.old jobs.new }
{
    for place in 0..jobs.len() {
        apply_one(body, &mut jobs[place]);
    }
}

/// Applies a body to the volume of each job in this thread, by one pass where the jobs stand in order of their devices.
pub(crate) fn apply_part<D: Disk>(body: &Body, jobs: &mut [VolumeJob<D>])
    requires { All (HasItsSlots D.state body.now.items) jobs.old }
    ensures { HoldsOfEach (AppliesToJob D.state D.tells body.now.items) jobs.old jobs.new }
{
    if are_rising(jobs) {
        apply_rising(body, jobs);
    } else {
        apply_each(body, jobs);
    }
}
