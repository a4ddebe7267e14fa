//! The report of a site that was recovered, advanced or copied.

ghost use Rattle.std.specs.Prelude.{◌≡◌, ◌≢◌, ◌≤◌, ◌+◌, [], length, Err, IfErr, OnOk};
ghost use Rattle.xrc_edge.specs.Causes.{Rose};
ghost use Rattle.xrc_status.specs.Saying.{SaysFront, SaysText, SaysWhole};
ghost use Rattle.xrc_status.specs.declared.stop.Stop.TheVariants.{ConsoleFault, VolumeFault};
ghost use Rattle.xrc_recovery.specs.Stops.{HasLines};
ghost use Rattle.xrc_recovery.specs.Texts.{site_text};

use crate::lines::{pair_line, site_line};
use crash_plant::Plant;
use tod_stamp::Session;
use xrc_edge::Failed;
use xrc_status::{Stop, say_text};
use xrecover::Outcome;

/// Says what was done, by its word: the session and the time, and a line of each pair.
fn say_report<P: Plant>(
    plant: &mut P,
    word: &[u8],
    session: Session,
    outcome: &Outcome,
) -> Result<(), Failed>
    requires { length word.now ≤ 10 }
    ensures { SaysText P.tells (site_text word.now session outcome.now.means.time.0 outcome.now.means.table.rows outcome.now.failed) (P.state plant.old) (P.state plant.new) result }
{
    let means = &outcome.means;
    say_text(plant, site_line(word, session, means.time).as_bytes())?;
    for place in 0..means.table.len() {
        let row = *means.table.row(place).unwrap();
        say_text(plant, pair_line(outcome, &row).as_bytes())?;
    }
    Ok(())
}

/// Says what was done, and gives how the command ends.
#[tactic(auto, using(xrc_status::proofs::SayLaws::all_said))]
pub(crate) fn report<P: Plant>(
    plant: &mut P,
    word: &[u8],
    session: Session,
    outcome: &Outcome,
) -> Result<(), Stop>
    requires { length word.now ≤ 10 }
    ensures ok { OnOk result (outcome.now.failed ≡ []) }
    ensures lines { IfErr result (λ stop. HasLines stop) }
    ensures volume { result ≡ Err VolumeFault → outcome.now.failed ≢ [] }
    ensures console { result ≡ Err ConsoleFault → Rose (P.state plant.old).console_faults (P.state plant.new).console_faults }
    ensures front { SaysFront P.tells (site_text word.now session outcome.now.means.time.0 outcome.now.means.table.rows outcome.now.failed) (P.state plant.old) (P.state plant.new) }
    ensures whole { result ≢ Err ConsoleFault → SaysWhole P.tells (site_text word.now session outcome.now.means.time.0 outcome.now.means.table.rows outcome.now.failed) (P.state plant.old) (P.state plant.new) }
    ensures later { (P.state plant.old).console_faults ≤ (P.state plant.new).console_faults }
    ensures by_one { (P.state plant.new).console_faults ≤ (P.state plant.old).console_faults + 1 }
{
    match say_report(plant, word, session, outcome) {
        Err(_) => Err(Stop::ConsoleFault),
        Ok(()) => {
            if outcome.failed.len() == 0 {
                Ok(())
            } else {
                Err(Stop::VolumeFault)
            }
        }
    }
}
