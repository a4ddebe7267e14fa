//! Worked times, lines, replies and images: what the definitions give for them.

ghost use Rattle.std.specs.Prelude.{◌≡◌, ◌∷◌, ◌++◌, [], ℕ, codes, slice_set, Bool, true, false, Some, None};
ghost use Rattle.xrc_command.specs.declared.line.Line.{Line};
ghost use Rattle.consistency.specs.Bearing.{Bears};
ghost use Rattle.consistency.specs.Courses.{Answered, IsAsked, StandsAt, first_line, is_whole_line, last_line_time, later_line, lines_begun, stage_at};
ghost use Rattle.consistency.specs.Replies.{IsReply, has_reply};
ghost use Rattle.consistency.specs.Times.{times_said};
ghost use Rattle.site_tests.specs.CourseVectors.{begun_stage, line_feed, lines_past_end, query_at, query_reply, query_report, run_of_none, start_reply, status_18, worked_replies};
ghost use Rattle.site_tests.specs.SiteVectors.{site, small};
ghost use Rattle.site_tests.specs.JournalVectors.{group_bytes};

use crate::site_vectors::meant_groups;

/// The times of whole lines are said, also of a report whose reply isn't whole.
pub fn times()
    ensures { times_said worked_replies ≡ 0x50 ∷ 0x80 ∷ [] }
{}

/// A line begins with its first byte, and is whole with its line feed, or with the end of the script. A time that falls makes it count
/// as none.
pub fn lines()
    ensures one { lines_begun (codes "AB" ++ line_feed) ≡ 1 }
    ensures two { lines_begun (codes "AB" ++ line_feed ++ codes "C") ≡ 2 }
    ensures first { first_line (codes "AB" ++ line_feed) ≡ codes "AB" }
    ensures cut { is_whole_line false (codes "AB") ≡ false }
    ensures at_end { is_whole_line true (codes "AB") ≡ true }
    ensures nothing { is_whole_line true [] ≡ false }
    ensures falls { later_line 1 0x50 (Some (query_at 0x4F)) ≡ None }
    ensures many { later_line 100000 0x50 (Some (query_at 0x60)) ≡ None }
{}

/// After the session's end replies have its time, and the time of the last line goes on.
pub fn after_the_end()
    ensures replied { (stage_at run_of_none lines_past_end 2).replied ≡ 0x90 }
    ensures last { last_line_time lines_past_end 2 ≡ 0x99 }
{}

/// A whole line with a reply's words is a reply. The lines of a report and of a status are none.
pub fn replies()
    ensures start { has_reply start_reply ≡ true }
    ensures cut { has_reply (codes "0000000000000050 XSTART OK T=0000000000000050") ≡ false }
    ensures refused { has_reply (codes "0000000000000010 XQUERY REFUSED 1 NOSESSION" ++ line_feed) ≡ true }
    ensures report { has_reply query_report ≡ false }
    ensures status { has_reply status_18 ≡ false }
    ensures query { IsReply true (query_at 0x80) query_reply }
    ensures other_time { IsReply true (query_at 0x81) query_reply → ⊥ }
    ensures other_answer { IsReply false (query_at 0x80) query_reply → ⊥ }
    ensures nothing { (accepted : Bool) (line : Line) → IsReply accepted line [] → ⊥ }
{}

/// After the replies to a run's lines a status may be said, but no reply to another line. Nothing asks nothing.
pub fn standing()
    ensures status { StandsAt [] [] status_18 }
    ensures reply { StandsAt [] [] start_reply → ⊥ }
    ensures nothing { (answered before : ℕ) (at_end : Bool) (a : Answered) → a.text ≡ [] → IsAsked answered before at_end a → ⊥ }
{}

/// A session that was begun at 50 bears this time until a line is heard; then a group up to the line's time may stand in the journal.
pub fn worked_sites()
    ensures begun { Bears run_of_none (begun_stage None) small (site (slice_set group_bytes 0 2) []) 0x50 }
    ensures on_the_way { Bears run_of_none (begun_stage (Some (query_at 0x90))) small (site group_bytes []) 0x80 }
    ensures unheard { Bears run_of_none (begun_stage None) small (site group_bytes []) 0x80 → ⊥ }
    ensures past_the_line { Bears run_of_none (begun_stage (Some (query_at 0x7F))) small (site group_bytes []) 0x80 → ⊥ }
{
    meant_groups();
}
