//! Worked states: what the definitions give for them.

ghost use Rattle.std.specs.Prelude.{◌≡◌, ◌∷◌, [], ◌++◌, Some, None, codes, slice_set};
ghost use Rattle.pair_table.specs.declared.level.Level.TheVariants.{Group, Volume, Session};
ghost use Rattle.pair_table.specs.declared.row.PairState.TheVariants.{Duplex};
ghost use Rattle.site_tests.specs.PairVectors.{abc, first_row, first_bytes};
ghost use Rattle.state_set.specs.Slots.{slot_spelling, slot_text, state_at};
ghost use Rattle.site_tests.specs.StateVectors.{narrow_paired_bytes, narrow_started_bytes, started_bytes, paired_bytes};

/// The states' spellings.
pub fn spelled_states()
    ensures none { slot_spelling abc Volume [] ≡ started_bytes }
    ensures one { slot_spelling abc Volume (first_row Duplex ∷ []) ≡ paired_bytes }
{}

/// The states' bytes on a plant of one volume, and some that break a rule.
pub fn read_states()
    ensures none { state_at 1 abc started_bytes ≡ Some (record { level = Volume; rows = [] }) }
    ensures one { state_at 1 abc paired_bytes ≡ Some (record { level = Volume; rows = first_row Duplex ∷ [] }) }
    ensures session_level { state_at 1 abc (slice_set started_bytes 12 1) ≡ Some (record { level = Session; rows = [] }) }
    ensures group_level { state_at 1 abc (slice_set started_bytes 12 2) ≡ Some (record { level = Group; rows = [] }) }
    ensures no_level { state_at 1 abc (slice_set started_bytes 12 3) ≡ None }
    ensures no_version { state_at 1 abc (slice_set started_bytes 3 51) ≡ None }
    ensures no_row { state_at 1 abc (slice_set started_bytes 14 1) ≡ None }
    ensures no_volume { state_at 0 abc paired_bytes ≡ None }
    ensures other_session { state_at 1 (codes "ABD") paired_bytes ≡ None }
    ensures twice { state_at 1 abc (slice_set paired_bytes 14 2 ++ first_bytes) ≡ None }
{}

/// The same in version 1, which has no groups.
pub fn read_narrow_states()
    ensures spelled { slot_text 1 abc Volume (first_row Duplex ∷ []) ≡ narrow_paired_bytes }
    ensures none { state_at 1 abc narrow_started_bytes ≡ Some (record { level = Volume; rows = [] }) }
    ensures one { state_at 1 abc narrow_paired_bytes ≡ Some (record { level = Volume; rows = first_row Duplex ∷ [] }) }
    ensures session_level { state_at 1 abc (slice_set narrow_started_bytes 12 1) ≡ Some (record { level = Session; rows = [] }) }
    ensures no_group_level { state_at 1 abc (slice_set narrow_started_bytes 12 2) ≡ None }
    ensures no_group_cause { state_at 1 abc (slice_set (slice_set narrow_paired_bytes 35 3) 36 5) ≡ None }
    ensures wide_row { state_at 1 abc (slice_set narrow_paired_bytes 3 50) ≡ None }
{}
