//! A session brought to the time of a line.

ghost use Rattle.std.specs.Prelude.{◌≡◌, ◌≤◌, false, length, IsSomeAnd, OnOk};
ghost use Rattle.xrc_edge.specs.declared.limits.TheConstants.{MOST_CONTROLS};
ghost use Rattle.mover.specs.Epochs.{AreSameLanes};
ghost use Rattle.xrc_session.specs.LinePauses.{HasCut, IsReadyForEpoch};
ghost use Rattle.xrc_session.specs.Bringing.{BreakOnAsTraces, IsSiteBrought, IsWorkOfStore};
ghost use Rattle.xrc_session.specs.Lanes.{AllWent, with_lanes_broken};
ghost use Rattle.xrc_session.specs.Starting.{StaysStarted};
ghost use Rattle.xrc_session.specs.Steps.{BringsOn};

use crate::kept::SessionParts;
use crate::stops::stop_of_store;
use crash_plant::Plant;
use mover::{EpochEnd, FreePass, Lane, epoch};
use pair_table::{MOST_ROWS, Names};
use site_store::Site;
use std::alloc::Global;
use std::sync::Wait;
use std::thread::Threads;
use tod_stamp::Stamp;
use xrc_edge::Source;
use xrc_status::Stop;

/// Names the controllers whose traces broke.
fn name_broken<S>(names: &mut Names, traces: &[Lane<S>])
    requires { length traces.now ≤ MOST_CONTROLS }
    ensures { names.new ≡ with_lanes_broken 0 traces.now names.old }
{
    for control in 0..traces.len() {
        if traces[control].broken().is_some() {
            names.broken(control as u16);
        }
    }
}

impl SessionParts {
    /// Brings a site to a limit: each write up to it is logged and applied, each wanted track is copied, and what suspends pairs up to
    /// it is logged. The controllers whose traces broke below the limit are named.
    #[tactic(none)]
    pub(crate) fn bring_to<R: Threads + Wait + Sync, S: Source + Send, P: Plant>(
        &mut self,
        rt: &R,
        alloc: Global,
        limit: Stamp,
        traces: &mut [Lane<S>],
        site: &mut Site<P::Volume>,
        plant: &mut P,
    ) -> Result<(), Stop>
        requires ready { IsSomeAnd self.old.group (IsReadyForEpoch P.tells traces.old site.old (P.state plant.old)) }
        requires later { (1 ≤ limit.0) × (site.old.time ≤ limit.0) }
        requires goes_on { site.old.mark.ended ≡ false }
        ensures ready { OnOk result (IsSomeAnd self.new.group (IsReadyForEpoch P.tells traces.new site.new (P.state plant.new))) }
        ensures cut { OnOk result (IsSomeAnd self.new.group (HasCut limit.0)) }
        ensures site { OnOk result (IsSiteBrought limit.0 site.old site.new) }
        ensures names { OnOk result (self.new.names ≡ with_lanes_broken 0 traces.new self.old.names) }
        ensures went { AllWent S.left S.faults traces.old traces.new }
        ensures works { IsWorkOfStore P.tells site.old site.new (P.state plant.old) (P.state plant.new) result }
        ensures brings { P.tells → (began : P) → BringsOn S.left limit.0 traces.old traces.new self.old self.new site.old site.new (P.state began) (P.state plant.old) (P.state plant.new) result }
        ensures broke { OnOk result (BreakOnAsTraces S.left limit.0 traces.old traces.new) }
        ensures same { OnOk result (AreSameLanes traces.old traces.new) }
        ensures starts { P.tells → StaysStarted limit.0 site.old (P.state plant.old) (P.state plant.new) }
    {
        let Some(group) = self.group.take() else {
            unreachable!()
        };
        match epoch(rt, alloc, &FreePass, limit, traces, group, site, plant) {
            EpochEnd::Reached(group) => self.group = Some(group),
            EpochEnd::Store(error) => return Err(stop_of_store(error)),
            EpochEnd::NoMemory => return Err(Stop::NoMemory),
        }
        name_broken(&mut self.names, traces);
        // No change waits, so the devices tell the rows of the table.
        prove!(usize::from(site.table().len()) <= MOST_ROWS);
        Ok(())
    }
}
