ghost use Rattle.xrc_status.specs.Saying.{SaysText};

use crash_plant::Plant;
use xrc_edge::Failed;

/// Says a text.
pub fn say_text<P: Plant>(plant: &mut P, text: &[u8]) -> Result<(), Failed>
    ensures { SaysText P.tells text.now (P.state plant.old) (P.state plant.new) result }
{
    plant.say(text)
}
