//! A batch is joined in the turn of its controller's seat.

ghost use Rattle.std.specs.Prelude.{◌≡◌};
ghost use Rattle.turn.specs.Turn.{IsIdle};
ghost use Rattle.group_state.specs.Machine.Call.{Join};
ghost use Rattle.group_state.specs.Answers.{run_reply};
ghost use Rattle.turn_group.specs.Seats.{IsReaderView, reader_view, CalledAt, SeatMayJoin};

use crate::machine::{GroupPlace, GroupTable};
use ckd_track::Batch;
use group_state::RunJoin;
use std::marker::Brand;
use std::sync::Wait;

/// Joins a batch that is lent.
pub fn join_run<W: Wait>(
    table: &GroupTable,
    rt: &W,
    place: &mut GroupPlace,
    batch: &Batch,
) -> RunJoin
    requires table { place.old.table_id ≡ table.now.board.shared.table_id }
    requires idle { IsIdle place.old.me }
    requires view { IsReaderView batch.now.control place.old.me.0 }
    requires may { SeatMayJoin (reader_view place.old.table_id batch.now.control place.old.me.0) batch.now }
    ensures called { CalledAt place.old (Join batch.now) (run_reply result) place.new }
{
    let mut state = table.take_turn(rt, place);
    let joined = state.join_ref(batch);
    table.pass_turn::<Brand, Batch, RunJoin>(place, state, batch, &joined);
    joined
}
