//! What a command says last that was done.

ghost use Rattle.xrc_cli.specs.Saying.{SaysDone};

use crash_plant::Plant;
use xrc_edge::Failed;
use xrc_status::{Stop, say_text};

/// The status of a command that was done.
pub(crate) const DONE: u8 = 0;

/// Says the last text of a command that is done by it, and gives the status that the command ends with.
pub(crate) fn say_done<P: Plant>(plant: &mut P, text: &[u8]) -> u8
    ensures { SaysDone P.tells text.now (P.state plant.old) (P.state plant.new) result }
{
    match say_text(plant, text) {
        Ok(()) => DONE,
        Err(Failed) => Stop::ConsoleFault.status(),
    }
}
