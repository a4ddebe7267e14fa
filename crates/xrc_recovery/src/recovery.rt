//! The commands that redo a site, up to their stops.

ghost use Rattle.std.specs.Prelude.{◌≡◌, Err};
ghost use Rattle.crash_plant.specs.Calls.{NoneLent};
ghost use Rattle.xrc_status.specs.declared.stop.Stop.TheVariants.{BadSite};
ghost use Rattle.xrc_recovery.specs.Recoveries.{RecoversSession, RedoesSession};

use crate::lines::site_word;
use crate::reporting::report;
use crate::stops::{is_site, stop_of};
use crash_plant::Plant;
use std::alloc::Global;
use std::thread::Threads;
use tod_stamp::Session;
use xrc_status::Stop;
use xrecover::{Labelling, Outcome, RecoverError, advance, recover};

/// Redoes a session's site.
fn redo<R: Threads + Sync, P: Plant>(
    rt: &R,
    alloc: Global,
    plant: &mut P,
    session: Session,
    labelling: Labelling,
) -> Result<Outcome, RecoverError>
    requires { NoneLent (P.state plant.old) }
    ensures { RedoesSession P.tells labelling session (P.state plant.old) (P.state plant.new) result }
{
    match labelling {
        Labelling::AsPrimary => recover(rt, alloc, plant, session),
        Labelling::AsItIs => advance(rt, alloc, plant, session),
    }
}

/// Redoes a session's site, and says of each pair how far it is. The lines come after the last volume was synced or has failed. A
/// pair whose volume failed is named so, and then the command ends with that stop; the other pairs are done.
pub(crate) fn run_recovery<R: Threads + Sync, P: Plant>(
    rt: &R,
    alloc: Global,
    plant: &mut P,
    session: Session,
    labelling: Labelling,
) -> Result<(), Stop>
    requires home { NoneLent (P.state plant.old) }
    ensures untouched { result ≡ Err BadSite → plant.new ≡ plant.old }
    ensures recovers { RecoversSession P.tells labelling session (P.state plant.old) (P.state plant.new) result }
{
    if !is_site(plant) {
        return Err(Stop::BadSite);
    }
    match redo(rt, alloc, plant, session, labelling) {
        Ok(outcome) => report(plant, site_word(labelling), session, &outcome),
        Err(error) => Err(stop_of(error)),
    }
}
