//! Worked logs, with what their deeds leave.

ghost use Rattle.std.specs.Prelude.{◌≡◌, ◌∷◌, [], List, Some, None, take};
ghost use Rattle.pair_table.specs.declared.row.PairRow.{PairRow};
ghost use Rattle.record_rows.specs.Deeds.{time_meant_after};
ghost use Rattle.fed_logs.specs.Deeds.{held_after_deeds};
ghost use Rattle.fed_logs.specs.Feeds.{part_of_mover};
ghost use Rattle.fed_logs.specs.Moves.{HasRowIn, IsDuplex, MayFollow, MakesDeeds};
ghost use Rattle.group_state.specs.Machine.{reply_to};
ghost use Rattle.group_state.specs.Machine.Call.{Resume};
ghost use Rattle.group_state.specs.Machine.Reply.{Owed};
ghost use Rattle.group_tests.specs.LogVectors.{none_held, none_known, shown_of, HasLiveRow, log_of_cut, deeds_of_cut, followed, until_copied, copied_again, log_of_drop, deeds_of_drop, IsSuspendedFirst, log_of_resume, deeds_of_resume, copying, log_of_copy, deeds_of_copy};
ghost use Rattle.group_tests.specs.StateVectors.{after_all, state_of_two, tracks_shown};

/// Of writes of 10 and 20 the group at 15 has the first alone, since the second controller has reported no further.
pub fn a_row_on_the_cut()
    ensures shown { tracks_shown (shown_of state_of_two 0x40) ≡ (0, 0) ∷ [] }
    ensures deeds { (rows : List PairRow) → HasLiveRow rows → MakesDeeds 9 rows none_known (part_of_mover log_of_cut) (deeds_of_cut rows) }
    ensures time { (rows : List PairRow) → time_meant_after (deeds_of_cut rows) 9 ≡ 0x15 }
    ensures held { (rows : List PairRow) → held_after_deeds (deeds_of_cut rows) none_held 0 0 0 ≡ Some [] }
    ensures later { (rows : List PairRow) → held_after_deeds (deeds_of_cut rows) none_held 0 0 1 ≡ None }
{}

/// A pair is suspended after a group that shows its plan done. Its volume is dropped, owes the one track that was written since, and
/// follows again once that is copied.
pub fn a_pair_follows_again()
    ensures done { (shown_of followed 0x6D).done ≡ (0, 0) ∷ [] }
    ensures owed { reply_to (after_all followed (take 3 until_copied)) (Resume 0 0) ≡ Owed 1 }
    ensures shown { tracks_shown (shown_of copied_again 0x1FF) ≡ (0, 1) ∷ [] }
    ensures done_again { (shown_of copied_again 0x1FF).done ≡ (0, 0) ∷ [] }
    ensures dropped { (rows fewer : List PairRow) → IsSuspendedFirst rows fewer
        → MakesDeeds 0 rows none_known (part_of_mover log_of_drop) (deeds_of_drop rows fewer) }
    ensures times { (rows fewer : List PairRow) → time_meant_after (deeds_of_drop rows fewer) 0 ≡ 0x6D }
    ensures again { (rows next : List PairRow) → HasLiveRow rows → MayFollow (shown_of copied_again 0x1FF) rows next
        → MakesDeeds 0x6D rows none_known (part_of_mover log_of_resume) (deeds_of_resume next) }
{}

/// A group of the tracks that were copied up to its limit shows no plan done, so no row becomes duplex after it.
pub fn a_copy_is_cut_short()
    ensures shown { tracks_shown (shown_of copying 0x60) ≡ (0, 0) ∷ [] }
    ensures done { (shown_of copying 0x60).done ≡ [] }
    ensures held { (rows : List PairRow) → held_after_deeds (deeds_of_copy rows) none_held 0 0 1 ≡ None }
    ensures copies { (rows next : List PairRow) → MayFollow (shown_of copying 0x60) rows next
        → HasRowIn IsDuplex 0 0 next → HasRowIn IsDuplex 0 0 rows }
    ensures deeds { (rows next : List PairRow) → HasLiveRow rows → MayFollow (shown_of copying 0x60) rows next
        → MakesDeeds 0 rows none_known (part_of_mover log_of_copy) (deeds_of_copy next) }
{}
