//! Worked runs of the machine: what the definitions give for them.

ghost use Rattle.std.specs.Prelude.{◌≡◌, ◌∷◌, [], true, false, Some, None};
ghost use Rattle.ckd_track.specs.declared.layout.TheConstants.{BLOCKS_OF_QUEUE, WRITES_OF_RUN};
ghost use Rattle.ckd_track.specs.declared.write.Cause.TheVariants.{ReadFault};
ghost use Rattle.group_state.specs.Groups.{new_group, cut_of, gives_nothing, shown_at};
ghost use Rattle.group_state.specs.Machine.{reply_to, group_after};
ghost use Rattle.group_state.specs.Machine.Call.{Join, NextWanted, Break, Form, Carry, Drop, Resume, Forget};
ghost use Rattle.group_state.specs.Machine.Reply.{Joined, Held, Stale, Wanted, Owed};
ghost use Rattle.group_tests.specs.CutVectors.{whole_on};
ghost use Rattle.group_tests.specs.StateVectors.{after_all, update_of, batch, raise, none_wanted, both_wanted, copy, state_of_two, tracks_shown};

/// The cut is the least floor: the first group has the write of 10 alone, the next one the other.
pub fn cuts()
    ensures least { cut_of state_of_two (record { 0 = 0x40 }) ≡ record { 0 = 0x15 } }
    ensures first { tracks_shown (shown_at (record { 0 = 0x15 }) state_of_two) ≡ (0, 0) ∷ [] }
    ensures second { tracks_shown (shown_at (record { 0 = 0x40 }) (after_all state_of_two (Form (record { 0 = 0x40 }) ∷ raise 1 0x40 ∷ []))) ≡ (0, 1) ∷ [] }
    ensures nothing { gives_nothing (group_after state_of_two (Form (record { 0 = 0x40 }))) (record { 0 = 0x15 }) ≡ true }
    ensures something { gives_nothing state_of_two (record { 0 = 0x40 }) ≡ false }
{}

/// An update of 495 bytes needs two blocks.
pub fn room()
    ensures held { reply_to (group_after (new_group 1 2 1) (Carry 0 0 none_wanted)) (Join (batch 0 (update_of 495 9 ∷ []) 9)) ≡ Held (record { records = 2; blocks = 1 }) }
    ensures joined { reply_to (group_after (new_group 1 2 2) (Carry 0 0 none_wanted)) (Join (batch 0 (update_of 495 9 ∷ []) 9)) ≡ Joined }
    ensures uncarried { reply_to (new_group 1 2 1) (Join (batch 0 (update_of 495 9 ∷ []) 9)) ≡ Joined }
{}

/// A track that isn't wanted is stale; a second copied track doesn't fit one record.
pub fn copies()
    ensures stale { reply_to (group_after (new_group 1 1 1) (Carry 0 0 none_wanted)) (copy 0 0) ≡ Stale }
    ensures unknown { reply_to (new_group 1 1 1) (copy 0 0) ≡ Stale }
    ensures next { reply_to (group_after (new_group 1 1 1) (Carry 0 0 both_wanted)) (NextWanted 0) ≡ Wanted (Some (0, 0)) }
    ensures first { reply_to (group_after (new_group 1 1 1) (Carry 0 0 both_wanted)) (copy 0 0) ≡ Joined }
    ensures second { reply_to (after_all (new_group 1 1 1) (Carry 0 0 both_wanted ∷ copy 0 0 ∷ [])) (copy 1 0) ≡ Held (record { records = 0; blocks = 0 }) }
    ensures twice { reply_to (after_all (new_group 1 2 2) (Carry 0 0 both_wanted ∷ copy 0 0 ∷ [])) (copy 0 0) ≡ Stale }
{}

/// The next wanted track is that of the first volume that wants one; a dropped volume wants none.
pub fn next_tracks()
    ensures second { reply_to (after_all (new_group 1 2 2) (Carry 0 0 none_wanted ∷ Carry 0 1 both_wanted ∷ [])) (NextWanted 0) ≡ Wanted (Some (1, 0)) }
    ensures dropped { reply_to (after_all (new_group 1 2 2) (Carry 0 0 both_wanted ∷ Drop 0 0 false ∷ [])) (NextWanted 0) ≡ Wanted None }
{}

/// A plan is done once its last track is formed, and not when that was joined; a plan that owes nothing is done at once.
pub fn done_plans()
    ensures at_once { (shown_at (record { 0 = 9 }) (group_after (new_group 1 2 2) (Carry 0 0 none_wanted))).done ≡ (0, 0) ∷ [] }
    ensures joined { (shown_at (record { 0 = 4 }) (after_all (new_group 1 2 2) (raise 0 5 ∷ Carry 0 0 both_wanted ∷ copy 0 5 ∷ copy 1 5 ∷ []))).done ≡ [] }
    ensures formed { (shown_at (record { 0 = 5 }) (after_all (new_group 1 2 2) (raise 0 5 ∷ Carry 0 0 both_wanted ∷ copy 0 5 ∷ copy 1 5 ∷ []))).done ≡ (0, 0) ∷ [] }
    ensures one_left { (shown_at (record { 0 = 5 }) (after_all (new_group 1 2 2) (raise 0 5 ∷ Carry 0 0 both_wanted ∷ copy 0 5 ∷ []))).done ≡ [] }
{}

/// A drop takes entries out and leaves their tracks in the map; a resume wants them, and those that were written since.
pub fn resumes()
    ensures taken_out { tracks_shown (shown_at (record { 0 = 0x15 }) (group_after state_of_two (Drop 0 0 false))) ≡ [] }
    ensures owed { reply_to (group_after state_of_two (Drop 0 0 false)) (Resume 0 0) ≡ Owed 2 }
    ensures formed_before { reply_to (after_all state_of_two (Form (record { 0 = 0x15 }) ∷ Drop 0 0 false ∷ [])) (Resume 0 0) ≡ Owed 1 }
    ensures written_since { reply_to (after_all state_of_two (raise 1 0x40 ∷ Form (record { 0 = 0x40 }) ∷ Drop 0 0 false ∷ Join (batch 0 (whole_on 1 0x41 ∷ []) 0x41) ∷ [])) (Resume 0 0) ≡ Owed 1 }
    ensures all { reply_to (after_all state_of_two (raise 1 0x40 ∷ Form (record { 0 = 0x40 }) ∷ Drop 0 0 true ∷ [])) (Resume 0 0) ≡ Owed 2 }
    ensures wanted { reply_to (after_all state_of_two (Form (record { 0 = 0x15 }) ∷ Drop 0 0 false ∷ Resume 0 0 ∷ [])) (NextWanted 0) ≡ Wanted (Some (0, 1)) }
    ensures wanted_before { reply_to (after_all (new_group 1 2 2) (Carry 0 0 both_wanted ∷ Drop 0 0 false ∷ [])) (Resume 0 0) ≡ Owed 0 }
    ensures forgotten { reply_to (after_all state_of_two (Drop 0 0 false ∷ Forget 0 0 ∷ Carry 0 0 none_wanted ∷ Drop 0 0 false ∷ [])) (Resume 0 0) ≡ Owed 0 }
{}

/// A break below the limit holds the cut until it was reported, once; a break at the limit is reported there.
pub fn breaks()
    ensures counts { cut_of (group_after state_of_two (Break 1 (record { 0 = 0x16 }) ReadFault)) (record { 0 = 0x40 }) ≡ record { 0 = 0x16 } }
    ensures reported { (shown_at (record { 0 = 0x16 }) (group_after state_of_two (Break 1 (record { 0 = 0x16 }) ReadFault))).breaks ≡ (1, record { 0 = 0x16 }, ReadFault) ∷ [] }
    ensures once { (shown_at (record { 0 = 0x16 }) (after_all state_of_two (Break 1 (record { 0 = 0x16 }) ReadFault ∷ Form (record { 0 = 0x16 }) ∷ []))).breaks ≡ [] }
    ensures next { cut_of (after_all state_of_two (Break 1 (record { 0 = 0x16 }) ReadFault ∷ Form (record { 0 = 0x16 }) ∷ [])) (record { 0 = 0x40 }) ≡ record { 0 = 0x40 } }
    ensures not_before { (shown_at (record { 0 = 0x15 }) (group_after state_of_two (Break 1 (record { 0 = 0x16 }) ReadFault))).breaks ≡ [] }
    ensures at_the_limit { (shown_at (record { 0 = 0x40 }) (group_after state_of_two (Break 1 (record { 0 = 0x40 }) ReadFault))).breaks ≡ (1, record { 0 = 0x40 }, ReadFault) ∷ [] }
{}

/// Entries of one stamp stand by controller, then by position, in whichever order they were joined.
pub fn equal_stamps()
    ensures { tracks_shown (shown_at (record { 0 = 9 }) (after_all (new_group 4 WRITES_OF_RUN BLOCKS_OF_QUEUE)
        (Carry 0 0 none_wanted ∷ Carry 1 0 none_wanted ∷ Carry 2 0 none_wanted ∷ Carry 3 0 none_wanted
        ∷ Join (batch 3 (whole_on 0 9 ∷ []) 9) ∷ Join (batch 1 (whole_on 1 9 ∷ whole_on 0 9 ∷ []) 9) ∷ Join (batch 0 (whole_on 1 9 ∷ []) 9) ∷ Join (batch 2 (whole_on 0 9 ∷ []) 9) ∷ [])))
        ≡ (0, 1) ∷ (1, 1) ∷ (1, 0) ∷ (2, 0) ∷ (3, 0) ∷ [] }
{}
