//! The program that the cases call.

ghost use Rattle.std.specs.Prelude.{IfOk};
ghost use Rattle.std.specs.Thread.{IsSync};
ghost use Rattle.crash_plant.specs.Calls.{NoneLent};
ghost use Rattle.crash_plant.specs.MemoryPlant.{memory_state};
ghost use Rattle.xrc_session.specs.Lanes.{HaveNoReader};

use crash_plant::MemoryPlant;
use mover::Lane;
use std::alloc::Global;
use std::sync::Wait;
use std::thread::Threads;
use xrc_cli::xrc;
use xrc_edge::{MemorySource, NoMemory};

/// Makes a call of `xrc` with these words over traces and devices, and gives its status.
pub fn call_program<R: Threads + Wait + Sync>(
    rt: &R,
    alloc: Global,
    words: &[String],
    traces: Vec<MemorySource>,
    plant: &mut MemoryPlant,
) -> Result<u8, NoMemory>
    requires shared { IsSync R.row }
    requires home { NoneLent (memory_state plant.old) }
    ensures home { NoneLent (memory_state plant.new) }
{
    let mut lanes = lanes(alloc, traces)?;
    Ok(xrc(rt, alloc, words, &mut lanes, plant))
}

/// The lanes of traces. None has its reader yet.
fn lanes(alloc: Global, traces: Vec<MemorySource>) -> Result<Vec<Lane<MemorySource>>, NoMemory>
    ensures unread { IfOk result (λ lanes. HaveNoReader lanes.items) }
{
    let mut lanes = Vec::new(alloc);
    for trace in traces {
        lanes.push(Lane::new(trace))?;
    }
    Ok(lanes)
}
