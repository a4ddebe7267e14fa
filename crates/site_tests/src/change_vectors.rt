//! Worked changes of rows: what the definitions give for them.

ghost use Rattle.std.specs.Prelude.{◌≡◌, ◌∷◌, [], true, false, Some, None};
ghost use Rattle.pair_table.specs.declared.level.Level.TheVariants.{Session, Volume};
ghost use Rattle.pair_table.specs.declared.row.PairState.TheVariants.{Duplex, Pending};
ghost use Rattle.pair_table.specs.declared.row.SuspendCause.TheVariants.{Control as ByControl, Device as ByDevice, Session as BySession};
ghost use Rattle.row_changes.specs.Changes.RowChange.{Break, Hit, MarkedHit, Mature, Reached};
ghost use Rattle.row_changes.specs.Changes.Due.{NoneDue};
ghost use Rattle.row_changes.specs.Changes.{after_changes, may_all_come, since};
ghost use Rattle.row_changes.specs.Spans.{AreCounted, all_broke, is_hit_at};
ghost use Rattle.site_tests.specs.ChangeVectors.{at_time, no_breaks, no_rises, two_rows};

/// A hit suspends its device's row alone under level VOLUME, and the others too under level SESSION. Each needs a fault.
pub fn hits()
    ensures alone { after_changes Volume (at_time 0x80 (Hit (1 ∷ [])) ∷ []) (two_rows Duplex Duplex) ≡ two_rows Duplex (since ByDevice 0x80) }
    ensures all { after_changes Session (at_time 0x80 (Hit (1 ∷ [])) ∷ []) (two_rows Duplex Duplex) ≡ two_rows (since BySession 0x80) (since ByDevice 0x80) }
    ensures without_row { may_all_come Volume no_breaks false NoneDue 0x70 0x80 (two_rows Duplex Duplex) (at_time 0x70 (Hit (2 ∷ [])) ∷ []) ≡ false }
    ensures without_fault { AreCounted no_rises (at_time 0x70 (Hit (1 ∷ [])) ∷ []) → ⊥ }
    ensures twice { AreCounted (λ device. 1) (at_time 0x70 (MarkedHit (1 ∷ [])) ∷ at_time 0x80 (Hit (1 ∷ [])) ∷ []) → ⊥ }
    ensures once { AreCounted (λ device. 1) (at_time 0x70 (MarkedHit (1 ∷ [])) ∷ at_time 0x80 (Reached (1 ∷ [])) ∷ []) }
{}

/// After a hit in a mark the others are due until the record comes for which the mark was made; then they come with it.
pub fn marked_hits()
    ensures in_mark { after_changes Session (at_time 0x70 (MarkedHit (1 ∷ [])) ∷ at_time 0x80 (Reached (1 ∷ [])) ∷ []) (two_rows Duplex Duplex) ≡ two_rows (since BySession 0x80) (since ByDevice 0x70) }
    ensures stays_due { may_all_come Session no_breaks false NoneDue 0x70 0x80 (two_rows Duplex Duplex) (at_time 0x70 (MarkedHit (1 ∷ [])) ∷ []) ≡ false }
    ensures at_the_mark { may_all_come Session no_breaks true NoneDue 0x60 0x70 (two_rows Duplex Duplex) (at_time 0x70 (MarkedHit (1 ∷ [])) ∷ []) ≡ true }
    ensures past_the_record { may_all_come Session no_breaks true NoneDue 0x60 0x80 (two_rows Duplex Duplex) (at_time 0x70 (MarkedHit (1 ∷ [])) ∷ []) ≡ false }
    ensures left_out { may_all_come Session no_breaks true NoneDue 0x60 0x6D (two_rows Pending Duplex) (at_time 0x60 (MarkedHit (1 ∷ [])) ∷ at_time 0x6D (Mature 0 Duplex) ∷ []) ≡ false }
    ensures with_the_record { may_all_come Session no_breaks true NoneDue 0x60 0x6D (two_rows Pending Duplex) (at_time 0x60 (MarkedHit (1 ∷ [])) ∷ at_time 0x6D (Mature 0 Duplex) ∷ at_time 0x6D (Reached (1 ∷ [])) ∷ []) ≡ true }
    ensures after_the_record { may_all_come Session no_breaks true NoneDue 0x60 0x70 (two_rows Pending Duplex) (at_time 0x60 (MarkedHit (1 ∷ [])) ∷ at_time 0x6D (Mature 0 Duplex) ∷ at_time 0x70 (Reached (1 ∷ [])) ∷ []) ≡ false }
    ensures of_another_hit { may_all_come Session no_breaks false NoneDue 0x60 0x6D (two_rows Duplex Duplex) (at_time 0x60 (MarkedHit (1 ∷ [])) ∷ at_time 0x6D (Reached (0 ∷ [])) ∷ []) ≡ false }
    ensures hit_in_the_record { may_all_come Session no_breaks false NoneDue 0x60 0x6D (two_rows Duplex Duplex) (at_time 0x60 (MarkedHit (1 ∷ [])) ∷ at_time 0x6D (Hit (0 ∷ [])) ∷ []) ≡ false }
    ensures reached_before { may_all_come Session no_breaks false NoneDue 0x60 0x6D (two_rows Duplex Duplex) (at_time 0x60 (MarkedHit (1 ∷ [])) ∷ at_time 0x6D (Reached (1 ∷ [])) ∷ at_time 0x6D (Hit (0 ∷ [])) ∷ []) ≡ true }
    ensures others_alone { after_changes Session (at_time 0x80 (Reached (1 ∷ [])) ∷ []) (two_rows Duplex Duplex) ≡ two_rows (since BySession 0x80) Duplex }
    ensures not_due { may_all_come Session no_breaks false NoneDue 0x70 0x80 (two_rows Duplex Duplex) (at_time 0x70 (Reached (1 ∷ [])) ∷ []) ≡ false }
    ensures after_a_command { is_hit_at 0x80 (at_time 0x80 (MarkedHit (1 ∷ []))) ≡ false }
{}

/// A break suspends the rows of its controller since its break time, and must have come by a later time.
pub fn breaks()
    ensures suspended { after_changes Volume (at_time 0x5F (Break 1) ∷ []) (two_rows Duplex Duplex) ≡ two_rows Duplex (since ByControl 0x5F) }
    ensures may_come { may_all_come Volume (None ∷ Some 0x5F ∷ []) false NoneDue 0x58 0x70 (two_rows Duplex Duplex) (at_time 0x5F (Break 1) ∷ []) ≡ true }
    ensures other_time { may_all_come Volume (None ∷ Some 0x5F ∷ []) false NoneDue 0x58 0x70 (two_rows Duplex Duplex) (at_time 0x60 (Break 1) ∷ []) ≡ false }
    ensures must_come { all_broke 0x58 0x70 0 (None ∷ Some 0x5F ∷ []) [] ≡ false }
    ensures not_yet { all_broke 0x58 0x5F 0 (None ∷ Some 0x5F ∷ []) [] ≡ true }
{}

/// A pending row may become duplex, a duplex row doesn't mature, and times don't fall.
pub fn maturing()
    ensures duplex { after_changes Volume (at_time 0x64 (Mature 0 Duplex) ∷ []) (two_rows Pending Duplex) ≡ two_rows Duplex Duplex }
    ensures may_come { may_all_come Volume no_breaks false NoneDue 0x60 0x70 (two_rows Pending Duplex) (at_time 0x64 (Mature 0 Duplex) ∷ []) ≡ true }
    ensures twice { may_all_come Volume no_breaks false NoneDue 0x60 0x70 (two_rows Duplex Duplex) (at_time 0x64 (Mature 0 Duplex) ∷ []) ≡ false }
    ensures times_fall { may_all_come Volume no_breaks false NoneDue 0x60 0x70 (two_rows Pending Pending) (at_time 0x68 (Mature 0 Duplex) ∷ at_time 0x64 (Mature 1 Duplex) ∷ []) ≡ false }
    ensures too_late { may_all_come Volume no_breaks false NoneDue 0x60 0x63 (two_rows Pending Duplex) (at_time 0x64 (Mature 0 Duplex) ∷ []) ≡ false }
{}
