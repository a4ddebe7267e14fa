ghost use Rattle.std.specs.Prelude.{◌≡◌, IfOk};
ghost use Rattle.crash_plant.specs.PlainPlant.{plain_state};
ghost use Rattle.workload.specs.Traces.{generated_sources};
ghost use Rattle.workload.specs.Sites.{HoldsInput};

use crate::devices::plant;
use crate::traces::sources;
use crash_plant::PlainPlant;
use std::alloc::Global;
use xrc_edge::{MemorySource, NoMemory};

/// The input of a number: the traces of its controllers in order, and the plant with the script. The number chooses which tracks and
/// records are written, and with which bytes.
pub fn generate(alloc: Global, number: u32) -> Result<(Vec<MemorySource>, PlainPlant), NoMemory>
    ensures sources { IfOk result (λ input. input.0.items ≡ generated_sources number) }
    ensures plant { IfOk result (λ input. HoldsInput (plain_state input.1)) }
{
    Ok((sources(alloc, number)?, plant(alloc)?))
}
