//! A script, heard to its end.

ghost use Rattle.std.specs.Prelude.{◌≡◌, ◌⊎◌, ◌≤◌, List, None, Some, IfErr, OnOk};
ghost use Rattle.xrc_edge.specs.declared.limits.TheConstants.{MOST_CONTROLS};
ghost use Rattle.crash_plant.specs.Calls.{NoneLent};
ghost use Rattle.xrc_session.specs.LinePauses.{IsBetween};
ghost use Rattle.xrc_session.specs.Frames.{KeepsPlant};
ghost use Rattle.xrc_session.specs.Lanes.{AllTold, AllWent, HaveNoReader, SourceBytes};
ghost use Rattle.xrc_session.specs.Openings.{ComesEarly, OpensInOrder, opening_stop};
ghost use Rattle.xrc_session.specs.Runs.{RunsLines, RunsTold};
ghost use Rattle.xrc_session.specs.Starting.{BeginsRun, HasBegunRun};
ghost use Rattle.xrc_session.specs.Stops.{HasRunCause, StopsByCount};
ghost use Rattle.xrc_status.specs.declared.stop.Stop.{Stop as AnyStop};

use crate::run::SessionRun;
use crash_plant::Plant;
use mover::Lane;
use script_lines::{LineText, Next, next_line};
use std::alloc::Global;
use std::sync::Wait;
use std::thread::Threads;
use tod_stamp::{Session, Stamp};
use xrc_edge::Source;
use xrc_status::Stop;

/// The number after that of the line that is one too many.
const NUMBERS_END: u32 = 100_002;

/// Hears and runs the lines of a script to its end.
fn run_lines<R: Threads + Wait + Sync, S: Source + Send, P: Plant>(
    rt: &R,
    alloc: Global,
    plant: &mut P,
    run: &mut SessionRun<P::Volume>,
    traces: &mut [Lane<S>],
) -> Result<(), Stop>
    requires between { IsBetween P.tells run.old traces.old (P.state plant.old) }
    requires unstarted { run.old.site ≡ None }
    ensures between { OnOk result (IsBetween P.tells run.new traces.new (P.state plant.new)) }
    ensures keeps { KeepsPlant P.tells (P.state plant.old) (P.state plant.new) }
    ensures went { AllWent S.left S.faults traces.old traces.new }
    ensures lines { P.tells → RunsLines P.tells S.left run.old.session run.new traces.old traces.new (P.state plant.old) (P.state plant.new) result }
    ensures begins { P.tells → BeginsRun run.old.session (P.state plant.old) (P.state plant.new) }
    ensures begun { P.tells → OnOk result (HasBegunRun run.old.session run.new.site (P.state plant.old) (P.state plant.new)) }
    ensures cause { IfErr result (HasRunCause (P.state plant.old) (P.state plant.new)) }
    ensures counts { StopsByCount (P.state plant.old) (P.state plant.new) result }
{
    let mut text = LineText::make();
    let mut before = Stamp(0);
    for number in 1..NUMBERS_END {
        match next_line(plant, &mut text, number, before) {
            Ok(Next::Line(line)) => {
                run.line(rt, alloc, plant, traces, &line)?;
                before = line.time;
            }
            Ok(Next::Bad) => return Err(Stop::BadLine(number)),
            Ok(Next::Nothing) => return Ok(()),
            Err(_) => return Err(Stop::ConsoleFault),
        }
    }
    unreachable!()
}

/// Runs the script of a session over `storage` traces, 1 to 16, whose lanes have no reader yet. Each line is heard whole, brings the
/// session to its time, is answered, and its reply is said before the next byte is heard. At the script's end all is applied and
/// marked.
///
/// The stops of `SessionRun::make` come first. `BadLine` names the first line, counted from 1, that is outside the grammar, falls in
/// time, or is number 100,001. `ConsoleFault` comes only where the console failed. The others are those of `SessionRun::line`.
pub fn run_script<R: Threads + Wait + Sync, S: Source + Send, P: Plant>(
    rt: &R,
    alloc: Global,
    plant: &mut P,
    session: Session,
    storage: u16,
    traces: &mut [Lane<S>],
) -> Result<(), Stop>
    requires storage { (1 ≤ storage) × (storage ≤ MOST_CONTROLS) }
    requires home { NoneLent (P.state plant.old) }
    requires unread { HaveNoReader traces.old }
    // Numbers, lengths and headers come first, in this order, and then no device and no console is called.
    ensures opens { OpensInOrder S.left S.faults storage traces.old traces.new (P.state plant.old) result }
    ensures early { IfErr result (λ stop. ComesEarly stop → plant.new ≡ plant.old) }
    // So it is where memory is wanting before them.
    ensures unopened { (sources : List SourceBytes) (stop : AnyStop) → AllTold S.left S.faults traces.old traces.new sources → opening_stop storage (P.state plant.old) sources ≡ Some stop → plant.new ≡ plant.old }
    ensures keeps { KeepsPlant P.tells (P.state plant.old) (P.state plant.new) }
    // Over sources that tell their bytes, in which counts end below the largest number.
    ensures runs { P.tells → RunsTold P.tells S.left S.faults session storage traces.old traces.new (P.state plant.old) (P.state plant.new) result }
    // Whatever the sources tell.
    ensures begins { P.tells → BeginsRun session (P.state plant.old) (P.state plant.new) }
    ensures cause { IfErr result (λ stop. ComesEarly stop ⊎ HasRunCause (P.state plant.old) (P.state plant.new) stop) }
    ensures counts { StopsByCount (P.state plant.old) (P.state plant.new) result }
{
    prove!(!session.as_bytes().is_empty());
    let mut run = SessionRun::make(alloc, plant, session, storage, traces)?;
    run_lines(rt, alloc, plant, &mut run, traces)?;
    run.finish(rt, alloc, plant)
}
