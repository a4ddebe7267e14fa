//! Moving entries from a queue into a group.

ghost use Rattle.std.specs.Prelude.{◌≡◌, ◌≢◌, ◌≤◌, ◌+◌, ◌*◌, ◌↔◌, [], ◌++◌, length, IsTrue};
ghost use Rattle.ckd_track.specs.declared.layout.TheConstants.{WRITES_OF_RUN};
ghost use Rattle.pending_queue.specs.Entries.{entries_never_fall, due, left, stands_before};
ghost use Rattle.pending_queue.specs.Waitings.{SameMemory};
ghost use Rattle.xrc_edge.specs.Order.{in_order, is_in_order};

use crate::placed::PlacedList;
use crate::waiting::WaitingList;
use tod_stamp::Stamp;

/// Whether a cut takes any entry.
pub fn has_due(waiting: &WaitingList, cut: Stamp) -> bool
    requires rising { IsTrue (entries_never_fall 0 waiting.now.entries) }
    ensures { IsTrue result ↔ (due cut waiting.now.entries ≢ []) }
{
    waiting.len() > 0 && waiting.head(0).stamp.0 <= cut.0
}

/// Moves the entries with a stamp at most the cut from the front of a queue to their places in a group, which has room.
pub fn move_due(waiting: &mut WaitingList, cut: Stamp, entries: &mut PlacedList)
    requires rising { IsTrue (entries_never_fall 0 waiting.old.entries) }
    requires ordered { IsTrue (is_in_order stands_before entries.old.entries) }
    requires room { length entries.old.entries + length (due cut waiting.old.entries) ≤ WRITES_OF_RUN * entries.old.controls }
    ensures left { waiting.new.entries ≡ left cut waiting.old.entries }
    ensures moved { entries.new.entries ≡ in_order stands_before (entries.old.entries ++ due cut waiting.old.entries) }
    ensures controls { entries.new.controls ≡ entries.old.controls }
    ensures same { SameMemory waiting.old waiting.new }
{
    while has_due(waiting, cut) {
        entries.place_front(waiting);
    }
}
