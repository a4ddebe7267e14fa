//! The command that runs a session.

ghost use Rattle.std.specs.Prelude.{◌≤◌};
ghost use Rattle.xrc_edge.specs.declared.limits.TheConstants.{MOST_CONTROLS};
ghost use Rattle.crash_plant.specs.Calls.{NoneLent};
ghost use Rattle.xrc_session.specs.Lanes.{HaveNoReader};
ghost use Rattle.xrc_cli.specs.Statuses.{EndsScriptRun};

use crate::saying::DONE;
use crash_plant::Plant;
use mover::Lane;
use std::alloc::Global;
use std::sync::Wait;
use std::thread::Threads;
use tod_stamp::Session;
use xrc_edge::Source;
use xrc_session::run_script;
use xrc_status::say_stop;

/// Runs the script of a session over so many traces, and gives the status that the command ends with. One that was not done says the
/// line of its status last, but where the console failed; if that fails, the status stands.
pub(crate) fn run_session<R: Threads + Wait + Sync, S: Source + Send, P: Plant>(
    rt: &R,
    alloc: Global,
    session: Session,
    storage: u16,
    traces: &mut Vec<Lane<S>>,
    plant: &mut P,
) -> u8
    requires storage { (1 ≤ storage) × (storage ≤ MOST_CONTROLS) }
    requires home { NoneLent (P.state plant.old) }
    requires unread { HaveNoReader traces.old.items }
    ensures { EndsScriptRun P.tells P.state S.left S.faults session storage traces.old.items traces.new.items plant.old plant.new result }
{
    match run_script(rt, alloc, plant, session, storage, traces.as_mut_slice()) {
        Ok(()) => DONE,
        Err(stop) => say_stop(plant, stop),
    }
}
