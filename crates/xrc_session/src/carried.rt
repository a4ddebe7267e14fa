//! The laws of rows between two epochs.

ghost use Rattle.xrc_session.specs.CarriedLaws.{AddedRowsStand, FirstRowsStand, ForgottenRowsStand, RecordedRowsStand, ResumedRowsStand};
ghost use Rattle.xrc_session.specs.CarriedLaws.{CommandsMayBeTaken, RowsStandAfterDeeds, StandingRowsAreKept, SuspendedRowsStand, TakenRowsStand};

use crash_plant::Plant;

/// The shared state stands for the rows of a session that begins, of which there are none. Where a row is suspended and its volume
/// dropped, resumed with its volume, taken out with it, or added with a volume of which all tracks are wanted, the state stands again.
pub fn rows_stand_again<P: Plant>(start: &P)
    ensures begun { FirstRowsStand (P.state start.now) }
    ensures suspended { SuspendedRowsStand (P.state start.now) }
    ensures resumed { ResumedRowsStand (P.state start.now) }
    ensures forgotten { ForgottenRowsStand (P.state start.now) }
    ensures added { AddedRowsStand (P.state start.now) }
{}

/// A record of rows, and a mark, leave that the shared state stands for the rows that they bring, also one after the other.
pub fn recorded_rows_stand<P: Plant>(old: &P, new: &P)
    ensures one { RecordedRowsStand (P.state old.now) (P.state new.now) }
    ensures several { RowsStandAfterDeeds (P.state old.now) (P.state new.now) }
{}

/// A command's change that is taken over, with the suspensions after it, leaves that the state stands for the rows after it. Before it
/// the state keeps for the rows what the change asks.
pub fn taken_rows_stand<P: Plant>(start: &P)
    ensures kept { StandingRowsAreKept (P.state start.now) }
    ensures stand { TakenRowsStand (P.state start.now) }
{}

/// What commands and the hits after them make of rows may be taken over.
pub fn commands_may_be_taken()
    ensures { CommandsMayBeTaken }
{}
