//! What takes what a reader reports.

ghost use Rattle.std.specs.Prelude.{◌≡◌, ◌≤◌, IsTrue, IfSome};
ghost use Rattle.write_trace.specs.Headers.{is_track_of};
ghost use Rattle.sidefile.specs.States.{IsRunOf};
ghost use Rattle.group_state.specs.Answers.{run_reply, copy_reply};
ghost use Rattle.group_state.specs.Machine.Call.{Join, NextWanted, Copied, Raise, Break};
ghost use Rattle.group_state.specs.Machine.Reply.{Made, Wanted};
ghost use Rattle.fed_logs.specs.Reporters.{ReporterState, reporter_after};

use ckd_track::{Batch, Cause, Slot};
use group_state::{CopyJoin, RunJoin};
use tod_stamp::Stamp;

/// A controller's part of the shared state, to which its reader reports what it read. Each call is one call on that state, with its reply.
pub trait Reporter {
    ghost state: { Self → ReporterState };

    /// Joins a batch that is lent, if there is room for it.
    fn join(&mut self, batch: &Batch) -> RunJoin
        requires reporting { IsTrue (state self.old).reporting }
        requires run { IsRunOf (state self.old).volumes (state self.old).control (state self.old).floor batch.now.upto.0 batch.now }
        ensures { state self.new ≡ reporter_after (Join batch.now) (run_reply result) (state self.old) };

    /// The volume and the track that is copied next; None where no volume of the controller wants a track.
    fn next_wanted(&mut self) -> Option<(u16, u32)>
        ensures called { state self.new ≡ reporter_after (NextWanted (state self.old).control) (Wanted result) (state self.old) }
        ensures within { IfSome result (λ p. IsTrue (is_track_of (state self.old).volumes p.0 p.1)) };

    /// Joins a track that was copied at the floor, where it is still wanted and there is room for it.
    fn join_copy(&mut self, volume: u16, track: u32, at: Stamp, slot: &Slot) -> CopyJoin
        requires reporting { IsTrue (state self.old).reporting }
        requires floor { at.0 ≡ (state self.old).floor }
        requires within { IsTrue (is_track_of (state self.old).volumes volume track) }
        ensures { state self.new ≡ reporter_after (Copied (state self.old).control volume track at slot.now) (copy_reply result) (state self.old) };

    /// The controller has no further write up to a time.
    fn raise(&mut self, upto: Stamp)
        requires reporting { IsTrue (state self.old).reporting }
        requires later { (state self.old).floor ≤ upto.0 }
        ensures { state self.new ≡ reporter_after (Raise (state self.old).control upto) Made (state self.old) };

    /// The controller breaks at a time, up to which its writes are known.
    fn mark_broken(&mut self, upto: Stamp, cause: Cause)
        requires reporting { IsTrue (state self.old).reporting }
        requires later { (state self.old).floor ≤ upto.0 }
        ensures { state self.new ≡ reporter_after (Break (state self.old).control upto cause) Made (state self.old) };
}
