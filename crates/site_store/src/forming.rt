//! The entries of a group turned into the items of a body.

ghost use Rattle.std.specs.Prelude.{◌≡◌, ◌↔◌, ◌<◌, ◌≤◌, ◌&&◌, ◌*◌, not, ℕ, false, true, length, map, slice_index_or, IsSomeAnd};
ghost use Rattle.std.specs.List.{All, list_any};
ghost use Rattle.xrc_edge.specs.declared.limits.TheConstants.{MOST_SITE_VOLUMES};
ghost use Rattle.crash_plant.specs.Calls.{NoneLent};
ghost use Rattle.xrc_journal.specs.Contents.{HasItem};
ghost use Rattle.applier.specs.Returns.{OnlyReads, WorksOnLent};
ghost use Rattle.image_former.specs.Entries.{HasEntry, entry_device};
ghost use Rattle.image_former.specs.Jobs.{HasFailed};
ghost use Rattle.pending_queue.specs.Entries.{IsOfWrite};
ghost use Rattle.site_store.specs.Causes.{FailByCounts};
ghost use Rattle.site_store.specs.Jobs.{are_home_from, has_job_failed};
ghost use Rattle.site_store.specs.Logging.{DrawEntries, FailByEntries, HoldsImages, IsOfEntries, MayForm, is_entry_of_device, is_formed, is_wanted_live};

use applier::{give_back_all, lend_all};
use crash_plant::Plant;
use image_former::{device_of, form_body};
use pair_table::PairTable;
use pending_queue::Formed;
use xrc_edge::MOST_SITE_VOLUMES;
use xrc_journal::{Body, VolumeJob};

/// Whether a group has entries on each of the first 64 devices.
fn wanted_volumes(table: &PairTable, formed: &Formed) -> [bool; MOST_SITE_VOLUMES]
    requires { All (λ entry. IsSomeAnd (entry_device table.now.rows entry) (λ device. device < MOST_SITE_VOLUMES)) formed.now.entries }
    ensures wanted { (d : ℕ) → d < MOST_SITE_VOLUMES → slice_index_or result d false ≡ list_any (is_entry_of_device table.now.rows d) formed.now.entries }
    ensures written { All IsOfWrite formed.now.entries }
{
    let mut wanted = [false; MOST_SITE_VOLUMES];
    for place in 0..formed.count() {
        wanted[device_of(table, formed.head(place)) as usize] = true;
        // Each entry is of a write, so its form has bytes.
        prove!(!formed.entry(place).is_empty());
    }
    wanted
}

fn is_due(wanted: bool, failed: bool) -> bool
    ensures { result ≡ (wanted && not failed) }
{
    wanted && !failed
}

/// Of each volume, whether items of it were formed: it has entries, and its job hasn't failed.
fn note_due<V>(jobs: &[VolumeJob<V>], wanted: &[bool; MOST_SITE_VOLUMES], due: &mut [bool])
    requires jobs { length due.old ≤ length jobs.now }
    requires wanted { length due.old ≤ MOST_SITE_VOLUMES }
    ensures { (d : ℕ) → d < length due.old → slice_index_or due.new d false ≡ is_wanted_live wanted.now (map has_job_failed jobs.now) d }
{
    for place in 0..due.len() {
        due[place] = is_due(wanted[place], jobs[place].failed);
    }
}

/// Turns the entries of a group into the items of a body, while the volumes on which they are are lent. Tells for which volumes
/// there are items.
pub(crate) fn form_group<P: Plant>(
    plant: &mut P,
    jobs: &mut [VolumeJob<P::Volume>],
    table: &PairTable,
    formed: &Formed,
    body: &mut Body,
    due: &mut [bool],
)
    requires may { MayForm formed.now.entries table.now.rows jobs.old due.old (P.state plant.old) }
    requires room { 56670 * length formed.now.entries ≤ body.old.room }
    ensures idle { are_home_from 0 jobs.new ≡ true }
    ensures tracks { (d x : ℕ) → HasItem d x body.new.items ↔ (HasEntry table.now.rows d x formed.now.entries × ¬ HasFailed d jobs.new) }
    ensures images { HoldsImages formed.now.entries body.old body.new }
    ensures content { DrawEntries P.tells table.now.rows formed.now.entries (map has_job_failed jobs.new) body.new.items (P.state plant.old) }
    ensures fails { FailByCounts (map has_job_failed jobs.old) (map has_job_failed jobs.new) (P.state plant.old).faults (P.state plant.new).faults }
    ensures by_entries { FailByEntries table.now.rows formed.now.entries (map has_job_failed jobs.old) (map has_job_failed jobs.new) }
    ensures reads { OnlyReads P.tells (P.state plant.old) (P.state plant.new) }
    ensures home { NoneLent (P.state plant.new) }
    ensures only { WorksOnLent P.tells (IsOfEntries table.now.rows formed.now.entries) (P.state plant.old) (P.state plant.new) }
    ensures due { (d : ℕ) → d < length jobs.old → slice_index_or due.new d false ≡ is_formed table.now.rows formed.now.entries (map has_job_failed jobs.new) d }
{
    let wanted = wanted_volumes(table, formed);
    lend_all(plant, jobs, &wanted[..jobs.len()]);
    body.clear();
    form_body(formed, table, jobs, body);
    give_back_all(plant, jobs);
    note_due(jobs, &wanted, due);
}
