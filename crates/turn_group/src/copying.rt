//! Copies of tracks are asked for and joined in the turn of their controller's seat.

ghost use Rattle.std.specs.Prelude.{◌≡◌, ℕ, ◌<◌, IsTrue, IfSome};
ghost use Rattle.turn.specs.Turn.{IsIdle};
ghost use Rattle.group_state.specs.Machine.Call.{NextWanted, Copied};
ghost use Rattle.group_state.specs.Machine.Reply.{Wanted};
ghost use Rattle.group_state.specs.Answers.{copy_reply};
ghost use Rattle.turn_group.specs.Seats.{IsReaderView, reader_view, CalledAt, SeatMayCopy, is_track_of_control, first_or};

use crate::machine::{GroupPlace, GroupTable};
use ckd_track::Slot;
use group_state::CopyJoin;
use std::marker::Brand;
use std::sync::Wait;
use tod_stamp::Stamp;

/// The volume and the track that a reader copies next.
pub fn next_wanted<W: Wait>(
    table: &GroupTable,
    rt: &W,
    place: &mut GroupPlace,
    control: u16,
) -> Option<(u16, u32)>
    requires table { place.old.table_id ≡ table.now.board.shared.table_id }
    requires idle { IsIdle place.old.me }
    requires view { IsReaderView control place.old.me.0 }
    ensures called { CalledAt place.old (NextWanted control) (Wanted result) place.new }
    ensures within { IfSome result (λ p. IsTrue (is_track_of_control (first_or place.old.me.0.first) control p.0 p.1)) }
{
    let state = table.take_turn(rt, place);
    let wanted = state.next_wanted(control);
    table.pass_turn::<Brand, u16, Option<(u16, u32)>>(place, state, &control, &wanted);
    wanted
}

/// Joins a copied track.
pub fn join_copy<W: Wait>(
    table: &GroupTable,
    rt: &W,
    place: &mut GroupPlace,
    control: u16,
    volume: u16,
    track: u32,
    at: Stamp,
    slot: &Slot,
) -> CopyJoin
    requires table { place.old.table_id ≡ table.now.board.shared.table_id }
    requires idle { IsIdle place.old.me }
    requires view { IsReaderView control place.old.me.0 }
    requires may { SeatMayCopy (reader_view place.old.table_id control place.old.me.0) volume track at }
    ensures called { CalledAt place.old (Copied control volume track at slot.now) (copy_reply result) place.new }
{
    let mut state = table.take_turn(rt, place);
    let joined = state.copied(control, volume, track, at, slot);
    let asked = (control, volume, track, at, slot);
    table.pass_turn::<Brand, (u16, u16, u32, Stamp, &Slot), CopyJoin>(
        place, state, &asked, &joined,
    );
    joined
}
