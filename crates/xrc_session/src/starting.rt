//! The start of a session.

ghost use Rattle.std.specs.Prelude.{◌≡◌, ◌≤◌, ◌<◌, [], IfOk, OnOk};
ghost use Rattle.xrc_edge.specs.declared.limits.TheConstants.{MOST_CONTROLS};
ghost use Rattle.crash_plant.specs.Calls.{NoneLent};
ghost use Rattle.mover.specs.Epochs.{AreSameLanes};
ghost use Rattle.site_store.specs.Sites.{new_site};
ghost use Rattle.site_store.specs.Standing.{HasLengths, SiteStands, none_excepted};
ghost use Rattle.xrc_session.specs.LinePauses.{MayCommandSite};
ghost use Rattle.xrc_session.specs.Lanes.{AllWent};
ghost use Rattle.xrc_session.specs.Runs.{AreLabelsRead};
ghost use Rattle.xrc_session.specs.Starting.{MayBeStarted, IsSafeStart, IsSiteStarted, IsWorkOfStart, StartsRuns};
ghost use Rattle.xrc_session.specs.Bringing.{BreakOnAsTraces};

use crate::kept::SessionParts;
use crate::labels::name_devices;
use crate::stops::stop_of_store;
use crash_plant::Plant;
use mover::Lane;
use pair_table::{Level, Names};
use site_store::Site;
use std::alloc::Global;
use std::sync::Wait;
use std::thread::Threads;
use tod_stamp::{Session, Stamp};
use xrc_edge::Source;
use xrc_status::Stop;

/// What a start is given: the session, its level, the number of its controllers, and the time of its line.
#[derive(Clone, Copy)]
pub(crate) struct Beginning {
    pub(crate) session: Session,
    pub(crate) level: Level,
    pub(crate) controls: u16,
    pub(crate) at: Stamp,
}

/// Formats the site, and names the devices by their labels.
#[tactic(none)]
fn format<P: Plant>(
    alloc: Global,
    beginning: Beginning,
    names: &mut Names,
    plant: &mut P,
) -> Result<Site<P::Volume>, Stop>
    requires time { 1 ≤ beginning.at.0 }
    requires controls { (1 ≤ beginning.controls) × (beginning.controls ≤ MOST_CONTROLS) }
    requires home { NoneLent (P.state plant.old) }
    requires lengths { HasLengths beginning.controls (P.state plant.old) }
    requires unlabelled { names.old.labels ≡ [] }
    ensures site { IfOk result (λ site. site ≡ new_site beginning.controls (P.state plant.old).volumes beginning.session beginning.level beginning.at) }
    ensures may { IfOk result (MayCommandSite P.tells names.new (P.state plant.new)) }
    ensures labels { P.tells → OnOk result (AreLabelsRead (P.state plant.old) (P.state plant.new) names.new.labels) }
    ensures others { OnOk result ((names.new.primaries ≡ names.old.primaries) × (names.new.broken ≡ names.old.broken)) }
    ensures stands { P.tells → IfOk result (λ site. SiteStands none_excepted site (P.state plant.new)) }
    ensures safe { P.tells → IsSafeStart beginning.session beginning.level beginning.at.0 (P.state plant.old) (P.state plant.new) result }
    ensures works { IsWorkOfStart P.tells (P.state plant.old) (P.state plant.new) result }
{
    let Beginning {
        session,
        level,
        controls,
        at,
    } = beginning;
    let site = match Site::format(alloc, plant, session, level, controls, at) {
        Ok(site) => site,
        Err(error) => return Err(stop_of_store(error)),
    };
    name_devices(alloc, plant, names)?;
    Ok(site)
}

impl SessionParts {
    /// Starts a session: its site is formatted, the labels are read, and the traces are read up to the line's time. Nothing of them is
    /// carried, since there is no pair.
    #[tactic(none)]
    pub(crate) fn start<R: Threads + Wait + Sync, S: Source + Send, P: Plant>(
        &mut self,
        rt: &R,
        alloc: Global,
        beginning: Beginning,
        traces: &mut [Lane<S>],
        plant: &mut P,
    ) -> Result<Site<P::Volume>, Stop>
        requires may { MayBeStarted beginning.controls beginning.at.0 self.old.names self.old.group traces.old (P.state plant.old) }
        ensures site { IfOk result (IsSiteStarted P.tells beginning.session beginning.level beginning.controls beginning.at.0 traces.new self.new.names self.new.group (P.state plant.new)) }
        ensures names { P.tells → OnOk result (AreLabelsRead (P.state plant.old) (P.state plant.new) self.new.names.labels) }
        ensures primaries { OnOk result (self.new.names.primaries ≡ self.old.names.primaries) }
        ensures went { AllWent S.left S.faults traces.old traces.new }
        ensures safe { P.tells → IsSafeStart beginning.session beginning.level beginning.at.0 (P.state plant.old) (P.state plant.new) result }
        ensures works { IsWorkOfStart P.tells (P.state plant.old) (P.state plant.new) result }
        ensures stands { P.tells → (began : P) → IfOk result (StartsRuns S.left beginning.session beginning.level traces.old traces.new self.new.group (P.state began) (P.state plant.old) (P.state plant.new)) }
        ensures broke { OnOk result (BreakOnAsTraces S.left beginning.at.0 traces.old traces.new) }
        ensures same { OnOk result (AreSameLanes traces.old traces.new) }
    {
        let limit = beginning.at;
        let mut site = format(alloc, beginning, &mut self.names, plant)?;
        self.bring_to(rt, alloc, limit, traces, &mut site, plant)?;
        Ok(site)
    }
}
