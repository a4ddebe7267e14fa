//! The command that says what a site's devices mean, up to its stops.

ghost use Rattle.std.specs.Prelude.{◌≡◌, ◌≢◌, ◌⊎◌, Err, IfErr, IfOk};
ghost use Rattle.crash_plant.specs.Calls.{NoneLent};
ghost use Rattle.xrc_status.specs.Saying.{SaysText};
ghost use Rattle.xrc_status.specs.declared.stop.Stop.TheVariants.{BadSite, ConsoleFault, NoMemory as NoMemoryStop};
ghost use Rattle.xrc_recovery.specs.Queries.{QueriesSession, meaning_report};

use crate::stops::{is_site, stop_of};
use crash_plant::Plant;
use site_means::Means;
use std::alloc::Global;
use tod_stamp::Session;
use xquery_report::{ControlList, report};
use xrc_edge::{Bytes, NoMemory};
use xrc_status::{Stop, say_text};
use xrecover::examine_session;

/// The report of what is meant. It has no line of a controller.
fn meaning_report(alloc: Global, means: &Means) -> Result<Bytes, NoMemory>
    ensures { IfOk result (λ text. text ≡ meaning_report means.now) }
{
    let mut text = Bytes::make(alloc);
    let none = ControlList::make(alloc);
    report(
        alloc,
        &means.table,
        means.level,
        means.time,
        &none,
        &mut text,
    )?;
    Ok(text)
}

/// Says the report of what is meant.
fn say_meaning<P: Plant>(alloc: Global, plant: &mut P, means: &Means) -> Result<(), Stop>
    ensures stops { IfErr result (λ stop. (stop ≡ NoMemoryStop) ⊎ (stop ≡ ConsoleFault)) }
    ensures memory { result ≡ Err NoMemoryStop → plant.new ≡ plant.old }
    ensures said { result ≢ Err NoMemoryStop → SaysText P.tells (meaning_report means.now) (P.state plant.old) (P.state plant.new) result }
{
    let text = meaning_report(alloc, means)?;
    match say_text(plant, text.as_slice()) {
        Ok(()) => Ok(()),
        Err(_) => Err(Stop::ConsoleFault),
    }
}

/// Says the report of what the devices of a session mean. The control, the state and the journals are read, and nothing is written.
pub(crate) fn run_query<P: Plant>(
    alloc: Global,
    plant: &mut P,
    session: Session,
) -> Result<(), Stop>
    requires home { NoneLent (P.state plant.old) }
    ensures untouched { result ≡ Err BadSite → plant.new ≡ plant.old }
    ensures queries { QueriesSession P.tells session (P.state plant.old) (P.state plant.new) result }
{
    if !is_site(plant) {
        return Err(Stop::BadSite);
    }
    match examine_session(alloc, plant, session) {
        Ok(means) => say_meaning(alloc, plant, &means),
        Err(error) => Err(stop_of(error)),
    }
}
