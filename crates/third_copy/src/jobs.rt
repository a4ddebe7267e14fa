//! What is to be copied: a job for each duplex pair whose target is found.

ghost use Rattle.std.specs.Prelude.{◌≡◌, ◌≤◌, ◌<◌, ◌+◌, ◌^◌, [], ℕ, length, vec_capacity, IfErr, IfOk, IsTrue, OnOk};
ghost use Rattle.crash_plant.specs.Calls.{NoneLent};
ghost use Rattle.pair_table.specs.Rows.{keeps_row_rules};
ghost use Rattle.pair_table.specs.Tables.{AreRowsSound};
ghost use Rattle.xrecover.specs.Works.{Nothing, Works};
ghost use Rattle.third_copy.specs.declared.copy_error.CopyError.TheVariants.{NoTarget};
ghost use Rattle.third_copy.specs.Pairs.{AreFound, AreJobs, CountsTargets, IsFirstWithout, NoneIsWithout, claim_of, job_of};
ghost use Rattle.third_copy.specs.Targets.{target_of};

use crate::CopyError;
use crate::targets::{Target, find_target};
use copy_progress::Claim;
use crash_plant::Plant;
use pair_table::PairRow;
use site_means::Means;
use volume_copy::CopyJob;
use xrc_edge::TRACKS_OF_CYLINDER;

/// What is to be copied of a pair at the time that a site means.
fn claim_of(means: &Means, row: &PairRow) -> Claim
    requires { IsTrue (keeps_row_rules row.now) }
    ensures { result ≡ claim_of means.now row.now }
{
    Claim {
        session: means.session,
        time: means.time,
        primary: row.primary,
        tracks: TRACKS_OF_CYLINDER * row.cylinders,
    }
}

/// The job of a pair.
fn job_of(means: &Means, row: &PairRow, shift: u16) -> CopyJob
    requires small { target_of shift row.now < 2 ^ 16 }
    requires rules { IsTrue (keeps_row_rules row.now) }
    ensures { result ≡ job_of means.now shift row.now }
{
    CopyJob {
        source: row.device,
        target: row.device + shift,
        claim: claim_of(means, row),
    }
}

/// The jobs of the duplex pairs in the order of their rows, but of those whose target's label can't be read. NoTarget is answered for the
/// first pair that has no target.
pub(crate) fn jobs_of<P: Plant>(
    plant: &mut P,
    means: &Means,
    shift: u16,
    jobs: Vec<CopyJob>,
) -> Result<Vec<CopyJob>, CopyError>
    requires home { NoneLent (P.state plant.old) }
    requires empty { jobs.items ≡ [] }
    requires places { length means.now.table.rows ≤ vec_capacity jobs }
    ensures works { Works P.tells Nothing (P.state plant.old) (P.state plant.new) }
    ensures jobs { IfOk result (λ jobs. AreJobs means.now shift (P.state plant.old) (P.state plant.new) jobs.items) }
    ensures found { P.tells → IfOk result (λ jobs. AreFound means.now shift (P.state plant.old) jobs.items) }
    ensures few { IfOk result (λ jobs. length jobs.items ≤ length means.now.table.rows) }
    ensures sound { AreRowsSound means.now.table.rows }
    ensures missing { IfErr result (λ e. (d : ℕ) × (e ≡ NoTarget d) × (P.tells → IsFirstWithout (P.state plant.old) (P.state plant.new) means.now.table.rows shift d)) }
    ensures none { P.tells → OnOk result (NoneIsWithout (P.state plant.old) (P.state plant.new) means.now.table.rows shift) }
    ensures counts { CountsTargets means.now.table.rows shift (P.state plant.old).faults (P.state plant.new).faults }
{
    let mut jobs = jobs;
    for place in 0..means.table.len() {
        let row = *means.table.row(place).unwrap();
        if row.state.is_duplex() {
            match find_target(plant, &means.table, &row, shift) {
                Target::Found => jobs.push_reserved(job_of(means, &row, shift)),
                Target::Unread => {}
                Target::Missing => return Err(CopyError::NoTarget(row.device)),
            }
        }
    }
    Ok(jobs)
}
