//! Groups are formed, and volumes dropped, in the turn of the mover's seat.

ghost use Rattle.std.specs.Prelude.{◌≡◌, ◌<◌, ◌≤◌, length, IsTrue};
ghost use Rattle.turn.specs.Turn.{IsIdle};
ghost use Rattle.group_state.specs.Groups.{shown_in};
ghost use Rattle.group_state.specs.Machine.Call.{Form, Drop as Drops};
ghost use Rattle.group_state.specs.Machine.Reply.{Made};
ghost use Rattle.group_state.specs.Answers.{form_reply};
ghost use Rattle.std.specs.List.{list_all};
ghost use Rattle.turn_group.specs.Notes.{is_of_carried};
ghost use Rattle.turn_group.specs.Seats.{IsMoverView, mover_view, CalledAt, first_or, known_at};

use crate::machine::{GroupPlace, GroupTable};
use group_state::Forming;
use pending_queue::Formed;
use std::marker::Brand;
use std::sync::Wait;
use tod_stamp::Stamp;

/// Forms a group at the least of a limit and the floors.
pub fn form<W: Wait>(
    table: &GroupTable,
    rt: &W,
    place: &mut GroupPlace,
    limit: Stamp,
    out: &mut Formed,
) -> Forming
    requires table { place.old.table_id ≡ table.now.board.shared.table_id }
    requires idle { IsIdle place.old.me }
    requires view { IsMoverView place.old.me.0 }
    requires limit { (mover_view place.old.table_id place.old.me.0).last.0 ≤ limit.0 }
    requires room { length (known_at place.old) ≤ out.old.controls }
    ensures called { CalledAt place.old (Form limit) (form_reply result (shown_in out.new)) place.new }
    ensures room { out.new.controls ≡ out.old.controls }
    ensures from { (mover_view place.old.table_id place.old.me.0).last.0 ≤ out.new.cut.0 }
    ensures upto { out.new.cut.0 ≤ limit.0 }
    ensures carried { IsTrue (list_all (is_of_carried (known_at place.old)) out.new.entries) }
{
    let mut state = table.take_turn(rt, place);
    let formed = state.form(limit, out);
    let reply = (formed, &*out);
    table.pass_turn::<Brand, Stamp, (Forming, &Formed)>(place, state, &limit, &reply);
    formed
}

/// A volume is carried no longer.
pub fn drop_volume<W: Wait>(
    table: &GroupTable,
    rt: &W,
    place: &mut GroupPlace,
    control: u16,
    volume: u16,
    all: bool,
)
    requires table { place.old.table_id ≡ table.now.board.shared.table_id }
    requires idle { IsIdle place.old.me }
    requires view { IsMoverView place.old.me.0 }
    requires control { control < length (known_at place.old) }
    ensures called { CalledAt place.old (Drops control volume all) Made place.new }
{
    let mut state = table.take_turn(rt, place);
    state.drop_volume(control, volume, all);
    table.pass_turn::<Brand, (u16, u16, bool), ()>(place, state, &(control, volume, all), &());
}
