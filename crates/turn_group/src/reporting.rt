//! A controller reports a time, or breaks, in the turn of its seat.

ghost use Rattle.std.specs.Prelude.{◌≡◌};
ghost use Rattle.turn.specs.Turn.{IsIdle};
ghost use Rattle.group_state.specs.Machine.Call.{Raise, Break};
ghost use Rattle.group_state.specs.Machine.Reply.{Made};
ghost use Rattle.turn_group.specs.Seats.{IsReaderView, reader_view, CalledAt, SeatMayReport};

use crate::machine::{GroupPlace, GroupTable};
use ckd_track::Cause;
use std::marker::Brand;
use std::sync::Wait;
use tod_stamp::Stamp;

/// The controller has no further write up to a time.
pub fn raise<W: Wait>(table: &GroupTable, rt: &W, place: &mut GroupPlace, control: u16, upto: Stamp)
    requires table { place.old.table_id ≡ table.now.board.shared.table_id }
    requires idle { IsIdle place.old.me }
    requires view { IsReaderView control place.old.me.0 }
    requires may { SeatMayReport (reader_view place.old.table_id control place.old.me.0) upto }
    ensures called { CalledAt place.old (Raise control upto) Made place.new }
{
    let mut state = table.take_turn(rt, place);
    state.raise(control, upto);
    table.pass_turn::<Brand, (u16, Stamp), ()>(place, state, &(control, upto), &());
}

/// The controller breaks at a time.
pub fn mark_broken<W: Wait>(
    table: &GroupTable,
    rt: &W,
    place: &mut GroupPlace,
    control: u16,
    upto: Stamp,
    cause: Cause,
)
    requires table { place.old.table_id ≡ table.now.board.shared.table_id }
    requires idle { IsIdle place.old.me }
    requires view { IsReaderView control place.old.me.0 }
    requires may { SeatMayReport (reader_view place.old.table_id control place.old.me.0) upto }
    ensures called { CalledAt place.old (Break control upto cause) Made place.new }
{
    let mut state = table.take_turn(rt, place);
    state.broken(control, upto, cause);
    table.pass_turn::<Brand, (u16, Stamp, Cause), ()>(place, state, &(control, upto, cause), &());
}
