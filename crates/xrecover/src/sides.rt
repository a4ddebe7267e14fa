//! The volumes of all duplex pairs, side by side.

ghost use Rattle.std.specs.Prelude.{◌≡◌, ◌<◌, [], ℕ, length, map, not, replicate, true, false, vec_capacity, IfOk, IsTrue};
ghost use Rattle.std.specs.List.{list_any};
ghost use Rattle.crash_plant.specs.Calls.{NoneLent};
ghost use Rattle.crash_plant.specs.declared.device.Device.{Device as AnyDevice};
ghost use Rattle.crash_plant.specs.declared.device.Device.TheVariants.{Volume};
ghost use Rattle.pair_table.specs.Tables.{AreRowsSound, are_below};
ghost use Rattle.xrc_journal.specs.Items.{AreItems, form_of};
ghost use Rattle.applier.specs.Slots.{HoldsContent};
ghost use Rattle.site_means.specs.Answers.{IsStore};
ghost use Rattle.xrecover.specs.Pairs.{is_duplex_of};
ghost use Rattle.xrecover.specs.SideVolumes.{AppliesSides, AreHome, AreToolsReady, AreSet, is_left};

use applier::{VolumeJob, apply_body, give_back_all, lend_all};
use ckd_track::Slot;
use crash_plant::Plant;
use pair_table::PairTable;
use site_means::longest_body;
use std::alloc::Global;
use std::thread::Threads;
use xrc_edge::NoMemory;
use xrc_journal::Body;

/// What a redo works with: a buffer for one record, a job for each volume by its number, and a list for the devices that fail. All
/// memory of a redo is made with it, before anything is written.
#[derive(Drop)]
pub struct Tools<V> {
    pub(crate) body: Body,
    /// The job of a volume that is no duplex pair's is left alone, as one that has failed.
    pub(crate) jobs: Vec<VolumeJob<V>>,
    /// For each job, that its volume is lent unless it is left alone.
    pub(crate) lent: Vec<bool>,
    pub(crate) failed: Vec<u16>,
}

/// Whether a device is that of a duplex pair.
fn has_duplex(table: &PairTable, device: u16) -> bool
    ensures { AreRowsSound table.now.rows → result ≡ list_any (is_duplex_of device) table.now.rows }
{
    match table.row_of(device) {
        Some(row) => row.state.is_duplex(),
        None => false,
    }
}

/// A job on a volume that isn't lent.
fn job_on<V>(alloc: Global, device: u16, failed: bool) -> Result<VolumeJob<V>, NoMemory>
    ensures { IfOk result (λ job. job ≡ record { device = device; disk = None; slot = []; failed = failed }) }
{
    let slot = Slot::make(alloc)?;
    Ok(VolumeJob {
        device,
        disk: None,
        slot,
        failed,
    })
}

/// A job for each volume, in the order of their numbers. Those of duplex pairs alone aren't left alone.
fn jobs_of<V: Drop>(
    alloc: Global,
    volumes: u16,
    table: &PairTable,
) -> Result<Vec<VolumeJob<V>>, NoMemory>
    ensures home { IfOk result (λ jobs. AreHome volumes jobs.items) }
    ensures left { IfOk result (λ jobs. AreRowsSound table.now.rows → (v : ℕ) → v < volumes → is_left jobs.items v ≡ not (list_any (is_duplex_of v) table.now.rows)) }
{
    let mut jobs = Vec::with_capacity(alloc, usize::from(volumes))?;
    for device in 0..volumes {
        jobs.push(job_on(alloc, device, !has_duplex(table, device))?)?;
    }
    Ok(jobs)
}

impl<V: Drop> Tools<V> {
    /// Tools for the records of a plant's journals, and for the duplex pairs among the rows.
    pub fn make<P: Plant<Volume = V>>(
        alloc: Global,
        plant: &P,
        table: &PairTable,
    ) -> Result<Tools<V>, NoMemory>
        requires below { IsTrue (are_below (P.state plant.now).volumes table.now.rows) }
        ensures { IfOk result (λ tools. AreToolsReady (P.state plant.now) table.now.rows tools) }
    {
        let body = Body::make(alloc, longest_body(plant))?;
        let jobs = jobs_of(alloc, plant.volumes(), table)?;
        let lent = vec![in alloc; true; usize::from(plant.volumes())]?;
        let failed = Vec::with_capacity(alloc, usize::from(table.len()))?;
        Ok(Tools {
            body,
            jobs,
            lent,
            failed,
        })
    }
}

/// Applies the items of a record to the volumes that aren't left alone, side by side where they are many bytes: they are lent, written,
/// and given back.
pub(crate) fn apply_record<R: Threads + Sync, P: Plant>(
    rt: &R,
    plant: &mut P,
    body: &Body,
    jobs: &mut [VolumeJob<P::Volume>],
    lent: &[bool],
)
    requires home { NoneLent (P.state plant.old) }
    requires jobs { AreHome (P.state plant.old).volumes jobs.old }
    requires lent { AreSet (P.state plant.old).volumes lent.now }
    requires items { AreItems (form_of (P.state plant.old)) body.now.items }
    ensures jobs { AreHome (P.state plant.new).volumes jobs.new }
    ensures applies { AppliesSides P.tells body.now.items (is_left jobs.old) (is_left jobs.new) (P.state plant.old) (P.state plant.new) }
    ensures content { P.tells → (v : ℕ) → is_left jobs.new v ≡ false → HoldsContent v body.now.items ((P.state plant.old).bytes (Volume v)) ((P.state plant.new).bytes (Volume v)) }
    ensures counts { (d : AnyDevice) → IsStore d → (P.state plant.new).faults d ≡ (P.state plant.old).faults d }
{
    lend_all(plant, jobs, lent);
    apply_body(rt, body, jobs);
    give_back_all(plant, jobs);
}
