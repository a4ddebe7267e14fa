//! The images of a body, written into the slots of one volume.

ghost use Rattle.std.specs.Prelude.{◌≡◌, ◌≤◌, ℕ, false, true};
ghost use Rattle.crash_plant.specs.Moments.{Follows, SamePast};
ghost use Rattle.ckd_track.specs.SlotPlaces.{slot_end};
ghost use Rattle.xrc_journal.specs.Items.{Item};
ghost use Rattle.xrc_journal.specs.declared.reading.BodyItem.TheVariants.{Image as ImageTold};
ghost use Rattle.xrc_journal.specs.Contents.{HasItem};
ghost use Rattle.xrc_journal.specs.Jobs.{FailsByCount, OnVolume};
ghost use Rattle.applier.specs.Slots.{DiffersInSlots, HoldsContent};
ghost use Rattle.applier.specs.Jobs.{HasSlots, StopsAtItem};
ghost use Rattle.applier.specs.Sides.{AppliesToJob, HasItsSlots};
ghost use Rattle.applier.specs.Writes.{HasSlotRoom, IsItemTold, Writes, WritesToJob};

use ckd_track::slot_place;
use crash_plant::Disk;
use xrc_edge::Failed;
use xrc_journal::{Body, BodyItem, IMAGE_FRONT, VolumeJob, first_item};

/// Writes the image in the slot where the item is one of the device.
fn write_item<D: Disk>(
    disk: &mut D,
    device: u16,
    item: BodyItem,
    bytes: &[u8],
) -> Result<(), Failed>
    requires item { (i : Item) × IsItemTold item bytes.now i }
    requires room { (x : ℕ) → item ≡ ImageTold device x → slot_end x ≤ (D.state disk.old).length_is }
    ensures { (i : Item) → IsItemTold item bytes.now i → Writes D.state D.tells device i disk.old disk.new result }
{
    match item {
        BodyItem::Image { device: of, track } if of == device => {
            disk.write(slot_place(track), &bytes[IMAGE_FRONT..])
        }
        _ => Ok(()),
    }
}

/// Does this on the job's volume. If the write fails, the job is marked failed. A failed job is left alone.
pub(crate) fn apply_item<D: Disk>(job: &mut VolumeJob<D>, item: BodyItem, bytes: &[u8])
    requires item { (i : Item) × IsItemTold item bytes.now i }
    requires room { HasSlotRoom D.state item job.old }
    ensures { (i : Item) → IsItemTold item bytes.now i → WritesToJob D.state D.tells i job.old job.new }
{
    if job.failed {
        return;
    }
    if let Some(disk) = &mut job.disk {
        job.failed = write_item(disk, job.device, item, bytes).is_err();
    }
}

/// Writes the images that a body has of the job's volume, in order, up to the first write that fails.
pub(crate) fn apply_one<D: Disk>(body: &Body, job: &mut VolumeJob<D>)
    requires { HasItsSlots D.state body.now.items job.old }
    ensures { AppliesToJob D.state D.tells body.now.items job.old job.new }
{
    let bytes = body.bytes();
    let mut at = 0;
    while let Some((item, length)) = first_item(&bytes[at..]) {
        apply_item(job, item, &bytes[at..at + length]);
        at += length;
    }
}

/// Writes each image that a body has of the job's volume at the front of its track's slot, in order. At the first write that
/// fails the job is marked failed, and nothing more is written. A failed job is left alone. A crash may still take what was
/// written, until the volume is synced.
pub fn apply_volume<D: Disk>(body: &Body, job: &mut VolumeJob<D>)
    requires { job.old.failed ≡ false → HasSlots D.state job.old.device body.now.items job.old.disk }
    ensures device { job.new.device ≡ job.old.device }
    ensures left_alone { job.old.failed ≡ true → job.new ≡ job.old }
    ensures no_item { ((x : ℕ) → ¬ HasItem job.old.device x body.now.items) → (job.new.disk ≡ job.old.disk) × (job.new.failed ≡ job.old.failed) }
    ensures cause { job.old.failed ≡ false → OnVolume D.state (λ old new. FailsByCount job.new.failed old.faults new.faults) job.old.disk job.new.disk }
    ensures length { OnVolume D.state (λ old new. new.length_is ≡ old.length_is) job.old.disk job.new.disk }
    ensures past { D.tells → OnVolume D.state SamePast job.old.disk job.new.disk }
    ensures moments { D.tells → OnVolume D.state (Follows (DiffersInSlots job.old.device body.now.items)) job.old.disk job.new.disk }
    ensures bytes { D.tells → OnVolume D.state (λ old new. DiffersInSlots job.old.device body.now.items old.bytes new.bytes) job.old.disk job.new.disk }
    ensures content { D.tells → job.new.failed ≡ false → OnVolume D.state (λ old new. HoldsContent job.old.device body.now.items old.bytes new.bytes) job.old.disk job.new.disk }
    ensures stops { D.tells → job.old.failed ≡ false → job.new.failed ≡ true → OnVolume D.state (StopsAtItem job.old.device body.now.items) job.old.disk job.new.disk }
{
    apply_one(body, job);
}
