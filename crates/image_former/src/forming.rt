//! A group turned into the items of a body.

ghost use Rattle.std.specs.Prelude.{◌≡◌, ◌<◌, ◌≤◌, ◌+◌, ◌*◌, ◌↔◌, ℕ, [], false, true, length, take, count_by, OnOk, OnErr};
ghost use Rattle.std.specs.List.{All, AllZip, list_all};
ghost use Rattle.crash_plant.specs.Moments.{Follows, SamePast, Same};
ghost use Rattle.pending_queue.specs.Groups.{heads};
ghost use Rattle.xrc_journal.specs.Items.{AreItems, anywhere, body_spelling, item_spelling};
ghost use Rattle.xrc_journal.specs.Items.Item.{Image};
ghost use Rattle.xrc_journal.specs.Bodies.{are_late, have_image, with_item};
ghost use Rattle.xrc_journal.specs.Contents.{HasItem};
ghost use Rattle.xrc_journal.specs.Jobs.{FailsByCount, OnVolume};
ghost use Rattle.image_former.specs.Entries.{HasEntry};
ghost use Rattle.image_former.specs.Jobs.{BeginsWhole, HasFailed, HasNoEntry, HasOneJob, HasSlotsOf, OnVolumes};
ghost use Rattle.image_former.specs.Forms.{AreItemsWhereAllowed, StandFor, is_image};
ghost use Rattle.image_former.specs.Links.{AreEntriesLinked};
ghost use Rattle.image_former.specs.Steps.{AreFormed, AreReady, GoesBy, is_job_live};

use crate::links::Links;
use crate::places::{device_of, has_earlier, job_place};
use crate::tracks::form_track;
use crash_plant::Disk;
use pair_table::PairTable;
use pending_queue::Formed;
use xrc_edge::Failed;
use xrc_journal::{Body, VolumeJob};

/// Puts the image of the job's track after the other images.
fn put_track<D>(job: &VolumeJob<D>, track: u32, body: &mut Body)
    requires room { length (body_spelling body.old.items) + 56669 ≤ body.old.room }
    requires early { are_late body.old.items ≡ false }
    requires first { have_image body.old.items job.now.device track ≡ false }
    ensures put { body.new ≡ with_item (Image job.now.device track job.now.slot) body.old }
    ensures keep { AreItems anywhere body.new.items }
    ensures short { length (item_spelling (Image job.now.device track job.now.slot)) ≤ 56669 }
{
    body.put_image(job.device, track, &job.slot);
}

/// Puts the image of the track of the entry at this place, unless an earlier one is on it or the volume has failed.
fn form_image<D: Disk>(
    formed: &Formed,
    links: &Links,
    table: &PairTable,
    jobs: &mut [VolumeJob<D>],
    body: &mut Body,
    place: u32,
) -> Result<(), Failed>
    requires linked { AreEntriesLinked (heads formed.now) links.now }
    requires within { place < length formed.now.entries }
    requires ready { AreReady D.state table.now.rows formed.now.entries jobs.old }
    requires formed { AreFormed D.state D.tells table.now.rows formed.now.entries (take place formed.now.entries) jobs.old body.old.items }
    requires keep { AreItems anywhere body.old.items }
    requires room { 56670 * length formed.now.entries ≤ body.old.room }
    ensures goes { AllZip (GoesBy D.state D.tells table.now.rows formed.now.entries) jobs.old jobs.new }
    ensures formed { OnOk result (AreFormed D.state D.tells table.now.rows formed.now.entries (take (place + 1) formed.now.entries) jobs.new body.new.items) }
    ensures keep { AreItems anywhere body.new.items }
    ensures fewer { OnErr result (count_by is_job_live jobs.new < count_by is_job_live jobs.old) }
    ensures room { body.new.room ≡ body.old.room }
{
    let head = formed.head(place);
    let job = job_place(jobs, device_of(table, head));
    if jobs[job].failed || has_earlier(formed, links, head, place) {
        return Ok(());
    }
    form_track(formed, links, head, place, &mut jobs[job])?;
    put_track(&jobs[job], head.track, body);
    Ok(())
}

/// Puts the images of all entries into an empty body, up to the first read that fails.
fn form_images<D: Disk>(
    formed: &Formed,
    links: &Links,
    table: &PairTable,
    jobs: &mut [VolumeJob<D>],
    body: &mut Body,
) -> Result<(), Failed>
    requires linked { AreEntriesLinked (heads formed.now) links.now }
    requires empty { body.old.items ≡ [] }
    requires ready { AreReady D.state table.now.rows formed.now.entries jobs.old }
    requires room { 56670 * length formed.now.entries ≤ body.old.room }
    ensures goes { AllZip (GoesBy D.state D.tells table.now.rows formed.now.entries) jobs.old jobs.new }
    ensures formed { OnOk result (AreFormed D.state D.tells table.now.rows formed.now.entries formed.now.entries jobs.new body.new.items) }
    ensures keep { AreItems anywhere body.new.items }
    ensures fewer { OnErr result (count_by is_job_live jobs.new < count_by is_job_live jobs.old) }
    ensures room { body.new.room ≡ body.old.room }
{
    for place in 0..formed.count() {
        form_image(formed, links, table, jobs, body, place)?;
    }
    Ok(())
}

/// The same, without the volumes whose reads fail.
fn form_all<D: Disk>(
    formed: &Formed,
    links: &Links,
    table: &PairTable,
    jobs: &mut [VolumeJob<D>],
    body: &mut Body,
)
    requires linked { AreEntriesLinked (heads formed.now) links.now }
    requires empty { body.old.items ≡ [] }
    requires ready { AreReady D.state table.now.rows formed.now.entries jobs.old }
    requires room { 56670 * length formed.now.entries ≤ body.old.room }
    ensures goes { AllZip (GoesBy D.state D.tells table.now.rows formed.now.entries) jobs.old jobs.new }
    ensures formed { AreFormed D.state D.tells table.now.rows formed.now.entries formed.now.entries jobs.new body.new.items }
    ensures keep { AreItems anywhere body.new.items }
    ensures room { body.new.room ≡ body.old.room }
{
    while form_images(formed, links, table, jobs, body).is_err() {
        body.clear();
    }
}

/// Turns the entries of a group into the items of a body: one image of each track, which is what its entries leave of what its
/// slot holds. A volume whose read fails has its job marked failed. The items of failed volumes are left out. A track is read
/// unless the first entry on it replaces it.
pub fn form_body<D: Disk>(
    formed: &Formed,
    table: &PairTable,
    jobs: &mut [VolumeJob<D>],
    body: &mut Body,
)
    requires empty { body.old.items ≡ [] }
    requires room { 56670 * length formed.now.entries ≤ body.old.room }
    requires one_job { All (HasOneJob table.now.rows jobs.old) formed.now.entries }
    requires slots { All (HasSlotsOf D.state table.now.rows formed.now.entries) jobs.old }
    ensures content { D.tells → AllZip (λ old new. new.failed ≡ false → OnVolume D.state (λ was is. StandFor table.now.rows formed.now.entries old.device body.new.items was.bytes) old.disk new.disk) jobs.old jobs.new }
    ensures items { (device x : ℕ) → HasItem device x body.new.items ↔ (HasEntry table.now.rows device x formed.now.entries × ¬ HasFailed device jobs.new) }
    ensures images { list_all is_image body.new.items ≡ true }
    ensures early { are_late body.new.items ≡ false }
    ensures allowed { AreItemsWhereAllowed body.new.items }
    ensures short { length (body_spelling body.new.items) ≤ 56669 * length formed.now.entries }
    ensures room { body.new.room ≡ body.old.room }
    ensures devices { AllZip (λ old new. new.device ≡ old.device) jobs.old jobs.new }
    ensures left_alone { AllZip (λ old new. old.failed ≡ true → new ≡ old) jobs.old jobs.new }
    ensures not_called { AllZip (λ old new. HasNoEntry table.now.rows formed.now.entries old.device → new ≡ old) jobs.old jobs.new }
    ensures not_read { AllZip (λ old new. BeginsWhole table.now.rows formed.now.entries old.device → (new.disk ≡ old.disk) × (new.failed ≡ old.failed)) jobs.old jobs.new }
    ensures cause { AllZip (λ old new. old.failed ≡ false → OnVolume D.state (λ was is. FailsByCount new.failed was.faults is.faults) old.disk new.disk) jobs.old jobs.new }
    ensures by_one { OnVolumes D.state (λ was is. is.faults ≤ was.faults + 1) jobs.old jobs.new }
    ensures length { OnVolumes D.state (λ was is. is.length_is ≡ was.length_is) jobs.old jobs.new }
    ensures past { D.tells → OnVolumes D.state SamePast jobs.old jobs.new }
    ensures moments { D.tells → OnVolumes D.state (Follows Same) jobs.old jobs.new }
    ensures bytes { D.tells → OnVolumes D.state (λ was is. is.bytes ≡ was.bytes) jobs.old jobs.new }
{
    let links = Links::of(formed);
    form_all(formed, &links, table, jobs, body);
}
