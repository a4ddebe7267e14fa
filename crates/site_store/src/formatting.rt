//! The start of a session.

ghost use Rattle.std.specs.Prelude.{◌≡◌, ◌≤◌, [], false, true, map, replicate, IfOk, OnOk, IsErrOf};
ghost use Rattle.xrc_edge.specs.declared.limits.TheConstants.{MOST_CONTROLS};
ghost use Rattle.crash_plant.specs.Calls.{NoneLent, Silent, WorksOn};
ghost use Rattle.state_set.specs.Slots.{started_table};
ghost use Rattle.site_store.specs.declared.store_error.StoreError.TheVariants.{NoMemory as Memory};
ghost use Rattle.site_store.specs.Formats.{AllShutOrMean, HasStartCause, HasZeroedGates, IsFormatted, MeansStarted, started_means};
ghost use Rattle.site_store.specs.Jobs.{are_home_from, has_job_failed};
ghost use Rattle.site_store.specs.Sites.{first_mark, new_site};
ghost use Rattle.site_store.specs.Standing.{FitsPlant, HasLengths, SiteStands, none_excepted};

use crate::starting::{FIRST, shut_all};
use crate::writing::put_mark;
use crate::{Site, StoreError};
use applier::SyncPace;
use control_set::Mark;
use crash_plant::Plant;
use pair_table::{Level, PairTable};
use std::alloc::Global;
use tod_stamp::{Session, Stamp};
use xrc_edge::NoMemory;
use xrc_journal::{AROUND, Body, Journal, VolumeJob, journal_length};

/// A job for each volume, in order of their numbers.
fn jobs<D: Drop>(alloc: Global, volumes: u16) -> Result<Vec<VolumeJob<D>>, NoMemory>
    ensures home { IfOk result (λ jobs. are_home_from 0 jobs.items ≡ true) }
    ensures good { IfOk result (λ jobs. map has_job_failed jobs.items ≡ replicate volumes false) }
{
    let mut jobs = Vec::with_capacity(alloc, usize::from(volumes))?;
    for device in 0..volumes {
        jobs.push(VolumeJob::make(alloc, device)?)?;
    }
    Ok(jobs)
}

/// The started table of a session, without rows.
fn started(alloc: Global, session: Session) -> Result<PairTable, NoMemory>
    ensures { IfOk result (λ table. table ≡ started_table session []) }
{
    let mut table = PairTable::make(alloc, session)?;
    table.start();
    Ok(table)
}

/// The mark with which a session starts.
fn first_mark(session: Session, at: Stamp) -> Mark
    ensures { result ≡ first_mark session at }
{
    Mark {
        number: 1,
        session,
        state_slot: 0,
        at: FIRST,
        time: at,
        ended: false,
    }
}

/// A site that has started at a time.
fn made<V: Drop>(
    alloc: Global,
    volumes: u16,
    session: Session,
    level: Level,
    controls: u16,
    at: Stamp,
) -> Result<Site<V>, NoMemory>
    requires { controls ≤ MOST_CONTROLS }
    ensures { IfOk result (λ site. site ≡ new_site controls volumes session level at) }
{
    let room = journal_length(controls) - AROUND;
    Ok(Site {
        controls,
        level,
        table: started(alloc, session)?,
        told: started(alloc, session)?,
        ahead: false,
        time: at,
        mark: first_mark(session, at),
        journal: Journal {
            at: FIRST,
            marked: FIRST,
        },
        since: 0,
        body: Body::make(alloc, room as u32)?,
        waits: false,
        due: vec![in alloc; false; usize::from(volumes)]?,
        jobs: jobs(alloc, volumes)?,
        written: vec![in alloc; false; usize::from(volumes)]?,
        pace: SyncPace::new(),
    })
}

impl<V: Drop> Site<V> {
    /// Starts a session on a plant at a time, at least 1, with 1 to 16 controllers. Its table is a started one without rows. All
    /// memory is taken before anything is written; then the gates of the control are shut, first the one that doesn't count, each
    /// with a sync of its own; then the gate of the first record in journal 0; and the first mark is put after its state. No
    /// volume and no other journal is worked on.
    pub fn format<P: Plant<Volume = V>>(
        alloc: Global,
        plant: &mut P,
        session: Session,
        level: Level,
        controls: u16,
        at: Stamp,
    ) -> Result<Site<V>, StoreError>
        requires time { 1 ≤ at.0 }
        requires controls { (1 ≤ controls) × (controls ≤ MOST_CONTROLS) }
        requires home { NoneLent (P.state plant.old) }
        requires lengths { HasLengths controls (P.state plant.old) }
        ensures ok { IfOk result (λ site. site ≡ new_site controls (P.state plant.old).volumes session level at) }
        ensures fits { IfOk result (λ site. FitsPlant site (P.state plant.new)) }
        ensures stands { P.tells → IfOk result (λ site. SiteStands none_excepted site (P.state plant.new)) }
        ensures means { P.tells → OnOk result (MeansStarted (P.state plant.new) (started_means session level at)) }
        ensures zeroed { P.tells → OnOk result (HasZeroedGates (P.state plant.old) (P.state plant.new)) }
        // At every moment, also of a start that fails, the mark that counted before counts or none does, until whatever a crash leaves
        // means the new session. The state and journal 0 are as they were, until both slots of the control are closed.
        ensures moments { P.tells → AllShutOrMean (started_means session level at) (P.state plant.old) (P.state plant.new) }
        ensures others { WorksOn P.tells IsFormatted (P.state plant.old) (P.state plant.new) }
        ensures heard_said { P.tells → Silent (P.state plant.old) (P.state plant.new) }
        ensures cause { HasStartCause (P.state plant.old) (P.state plant.new) result }
        ensures no_memory { IsErrOf result Memory → plant.new ≡ plant.old }
    {
        let site = made(alloc, plant.volumes(), session, level, controls, at)?;
        shut_all(plant)?;
        put_mark(plant, level, &site.table, &site.mark)?;
        Ok(site)
    }
}
