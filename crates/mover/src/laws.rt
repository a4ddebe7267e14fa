//! The laws of epochs.

ghost use Rattle.mover.specs.Bearing.{EpochsBear, EpochsStandAgain};
ghost use Rattle.mover.specs.TurningOut.{LanesReadInTurn, TracesTurnOutInTurn};

use crash_plant::Plant;
use xrc_edge::Source;

/// Each moment of an epoch for a line bears, whatever the epoch answers, and passes points on the way to the line's time. At its limit the
/// line's command may take effect, and the session has again what the next epoch begins with.
pub fn epochs_bear<S: Source, P: Plant>(old: &P, new: &P)
    ensures moments { EpochsBear P.tells S.left S.faults (P.state old.now) (P.state new.now) }
    ensures reached { EpochsStandAgain P.tells S.left S.faults (P.state old.now) (P.state new.now) }
{}

/// Lanes that read on in two epochs read on in both together. How traces turn out after both tells how they turn out after each, if no lane
/// wanted memory between the two.
pub fn traces_turn_out_in_turn<S: Source>()
    ensures lanes { LanesReadInTurn S.left }
    ensures traces { TracesTurnOutInTurn S.left }
{}
