//! A form over all controllers.

ghost use Rattle.std.specs.Prelude.{◌≡◌, ◌≤◌, ◌==◌, ◌&&◌, not, [], length, map, fold, IsTrue};
ghost use Rattle.std.specs.List.{flat_map, list_any, list_all};
ghost use Rattle.pending_queue.specs.Groups.{with_entries};
ghost use Rattle.group_state.specs.Controls.{lesser, has_news, due_of, formed};
ghost use Rattle.group_state.specs.Groups.{has_few, with_news, HasRoomForNews};

use crate::control::Control;
use pending_queue::Formed;
use tod_stamp::Stamp;

/// The least of a limit and the floors of all controllers that count.
pub fn least(controls: &[Control], limit: Stamp) -> Stamp
    ensures { result.0 ≡ fold lesser limit.0 controls.now }
{
    let mut cut = limit.0;
    for k in 0..controls.len() {
        cut = controls[k].lesser(cut);
    }
    Stamp(cut)
}

/// Whether a form with this cut takes an entry of any controller or reports a break.
fn has_news(controls: &[Control], cut: Stamp) -> bool
    ensures { result ≡ list_any (has_news cut) controls.now }
{
    for k in 0..controls.len() {
        if controls[k].has_news(cut) {
            return true;
        }
    }
    false
}

/// Whether a form with this cut gives nothing.
pub fn gives_nothing(controls: &[Control], last: Stamp, cut: Stamp) -> bool
    ensures { result ≡ (cut.0 == last.0 && not (list_any (has_news cut) controls.now)) }
{
    cut.0 == last.0 && !has_news(controls, cut)
}

/// Shows the breaks that a form with this cut reports and the volumes whose plans are done after it, before it is made.
pub fn announce(controls: &[Control], cut: Stamp, out: &mut Formed)
    requires room { HasRoomForNews out.old (length controls.now) }
    ensures { out.new ≡ with_news cut controls.now out.old }
{
    for k in 0..controls.len() {
        controls[k].announce(cut, out);
    }
}

/// Takes what is due from all controllers into the group.
pub fn take_due(controls: &mut [Control], cut: Stamp, out: &mut Formed)
    requires few { IsTrue (list_all has_few controls.old) }
    requires empty { out.old.entries ≡ [] }
    requires room { length controls.old ≤ out.old.controls }
    ensures controls { controls.new ≡ map (formed cut) controls.old }
    ensures group { out.new ≡ with_entries out.old (flat_map (due_of cut) controls.old) }
{
    for k in 0..controls.len() {
        controls[k].form(cut, out);
    }
}
