//! The commands to their ends.

ghost use Rattle.crash_plant.specs.Calls.{NoneLent};
ghost use Rattle.xrecover.specs.declared.labelling.Labelling.TheVariants.{AsItIs, AsPrimary};
ghost use Rattle.xrc_recovery.specs.Queries.{EndsQuery};
ghost use Rattle.xrc_recovery.specs.Statuses.{EndsRecovery};

use crate::query::run_query;
use crate::recovery::run_recovery;
use crash_plant::Plant;
use std::alloc::Global;
use std::thread::Threads;
use tod_stamp::Session;
use xrc_status::say_stop;
use xrecover::Labelling;

/// The status of a command that was done.
const DONE: u8 = 0;

/// Redoes a session's site, says of each pair how far it is, and gives the status that the command ends with.
fn redo_site<R: Threads + Sync, P: Plant>(
    rt: &R,
    alloc: Global,
    plant: &mut P,
    session: Session,
    labelling: Labelling,
) -> u8
    requires { NoneLent (P.state plant.old) }
    ensures { EndsRecovery P.tells labelling session (P.state plant.old) (P.state plant.new) result }
{
    match run_recovery(rt, alloc, plant, session, labelling) {
        Ok(()) => DONE,
        Err(stop) => say_stop(plant, stop),
    }
}

/// Recovers a session's site, says of each pair how far it is, and gives the status that the command ends with. One that was not
/// done says the line of its status last, but where the console failed; if that fails, the status stands.
pub fn recover_site<R: Threads + Sync, P: Plant>(
    rt: &R,
    alloc: Global,
    plant: &mut P,
    session: Session,
) -> u8
    requires { NoneLent (P.state plant.old) }
    ensures { EndsRecovery P.tells AsPrimary session (P.state plant.old) (P.state plant.new) result }
{
    redo_site(rt, alloc, plant, session, Labelling::AsPrimary)
}

/// Advances a session's site: as `recover_site`, but each volume keeps its label, and the site is said to be advanced.
pub fn advance_site<R: Threads + Sync, P: Plant>(
    rt: &R,
    alloc: Global,
    plant: &mut P,
    session: Session,
) -> u8
    requires { NoneLent (P.state plant.old) }
    ensures { EndsRecovery P.tells AsItIs session (P.state plant.old) (P.state plant.new) result }
{
    redo_site(rt, alloc, plant, session, Labelling::AsItIs)
}

/// Says what the devices of a session mean: its line and the lines of its pairs, as the session's own report has them. Nothing is written.
/// It gives the status that the command ends with, by the stops of a recovery up to the journals, and says the line of that status last,
/// but where the console failed.
pub fn query_site<P: Plant>(alloc: Global, plant: &mut P, session: Session) -> u8
    requires { NoneLent (P.state plant.old) }
    ensures { EndsQuery P.tells session (P.state plant.old) (P.state plant.new) result }
{
    match run_query(alloc, plant, session) {
        Ok(()) => DONE,
        Err(stop) => say_stop(plant, stop),
    }
}
