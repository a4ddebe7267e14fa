//! Worked rows after records and marks: what the definitions give for them.

ghost use Rattle.std.specs.Prelude.{◌≡◌, ◌∷◌, [], true, false, Some};
ghost use Rattle.pair_table.specs.declared.level.Level.TheVariants.{Group, Session, Volume};
ghost use Rattle.pair_table.specs.declared.row.PairState.TheVariants.{Copy, Duplex, Pending};
ghost use Rattle.pair_table.specs.declared.row.SuspendCause.TheVariants.{Command as ByCommand, Control as ByControl, Device as ByDevice, Group as ByGroup, Session as BySession};
ghost use Rattle.row_changes.specs.Changes.RowChange.{Break, Hit, Mature, Reached};
ghost use Rattle.row_changes.specs.Changes.Due.{NoneDue};
ghost use Rattle.row_changes.specs.Changes.{may_all_come, reach_of, since};
ghost use Rattle.record_rows.specs.ChangedRows.{changed_rows, state_with_record};
ghost use Rattle.record_rows.specs.GroupRows.{rows_with_group};
ghost use Rattle.record_rows.specs.Hits.{hit_now, rows_marked};
ghost use Rattle.record_rows.specs.Records.{changes_after_mark, record_changes, rows_after_mark, rows_with_hits, rows_with_record};
ghost use Rattle.site_tests.specs.ChangeVectors.{at_time, no_breaks};
ghost use Rattle.site_tests.specs.RecordVectors.{beside_row, both_failed, broken_group, done_group, duplex_rows, first_and_third_failed, first_failed, group_cut_at, grouped_rows, rows_beside, second_failed, second_out, third_failed, two_groups};

/// The second volume fails while the group of [80] is formed. Its pair is suspended since that cut, and under level SESSION the
/// other one too.
pub fn failing_volume()
    ensures alone { rows_with_record Volume (group_cut_at 0x80) second_failed duplex_rows ≡ second_out 0x80 }
    ensures all { rows_with_record Session (group_cut_at 0x80) second_failed duplex_rows ≡ rows_beside (since BySession 0x80) (since ByDevice 0x80) }
    ensures changes { record_changes (group_cut_at 0x80) second_failed duplex_rows ≡ at_time 0x80 (Hit (1 ∷ [])) ∷ [] }
    ensures may_come { may_all_come Session no_breaks false NoneDue 0x70 0x80 duplex_rows (record_changes (group_cut_at 0x80) second_failed duplex_rows) ≡ true }
    ensures named { changed_rows (state_with_record (reach_of Volume duplex_rows) [] (1 ∷ []) (group_cut_at 0x80)) duplex_rows ≡ beside_row (since ByDevice 0x80) ∷ [] }
    ensures no_more { hit_now second_failed (second_out 0x80) ≡ [] }
    ensures suspended { hit_now second_failed (rows_beside Duplex (since ByCommand 0x60)) ≡ 1 ∷ [] }
    ensures in_order { hit_now both_failed duplex_rows ≡ 0 ∷ 1 ∷ [] }
    ensures without_row { hit_now (false ∷ false ∷ true ∷ []) duplex_rows ≡ [] }
{}

/// It fails in a mark at [70] that is made before the record of [80]. The other pair waits for the record.
pub fn failing_in_mark()
    ensures mark { rows_marked 0x70 (hit_now second_failed duplex_rows) duplex_rows ≡ second_out 0x70 }
    ensures alone { rows_after_mark Volume (1 ∷ []) (group_cut_at 0x80) second_failed (second_out 0x70) ≡ second_out 0x70 }
    ensures all { rows_after_mark Session (1 ∷ []) (group_cut_at 0x80) second_failed (second_out 0x70) ≡ rows_beside (since BySession 0x80) (since ByDevice 0x70) }
    ensures none_reached { changes_after_mark Volume (1 ∷ []) (group_cut_at 0x80) second_failed (second_out 0x70) ≡ [] }
    ensures reached { changes_after_mark Session (1 ∷ []) (group_cut_at 0x80) second_failed (second_out 0x70) ≡ at_time 0x80 (Reached (1 ∷ [])) ∷ [] }
    ensures both { rows_after_mark Session (1 ∷ []) (group_cut_at 0x80) both_failed (second_out 0x70) ≡ rows_beside (since ByDevice 0x80) (since ByDevice 0x70) }
    ensures hit { changes_after_mark Session (1 ∷ []) (group_cut_at 0x80) both_failed (second_out 0x70) ≡ at_time 0x80 (Reached (1 ∷ [])) ∷ at_time 0x80 (Hit (0 ∷ [])) ∷ [] }
    ensures no_record { rows_with_hits Session 0x70 second_failed duplex_rows ≡ rows_beside (since BySession 0x70) (since ByDevice 0x70) }
{}

/// A row that breaks or matures with a group and is hit is suspended by its device.
pub fn failing_with_group()
    ensures broken { rows_with_group broken_group duplex_rows ≡ rows_beside (since ByControl 0x5F) (since ByControl 0x5F) }
    ensures broken_and_hit { rows_with_record Session broken_group second_failed duplex_rows ≡ rows_beside (since ByControl 0x5F) (since ByDevice 0x5F) }
    ensures break_first { record_changes broken_group second_failed duplex_rows ≡ at_time 0x5F (Break 0) ∷ at_time 0x5F (Hit (1 ∷ [])) ∷ [] }
    ensures may_come { may_all_come Session (Some 0x5F ∷ []) false NoneDue 0x58 0x5F duplex_rows (record_changes broken_group second_failed duplex_rows) ≡ true }
    ensures matured { rows_with_group done_group (rows_beside Pending Copy) ≡ rows_beside Copy Duplex }
    ensures done_at_once { rows_with_group done_group (rows_beside Duplex Pending) ≡ duplex_rows }
    ensures matured_and_hit { rows_with_record Volume done_group second_failed (rows_beside Pending Copy) ≡ rows_beside Copy (since ByDevice 0x6D) }
    ensures mature_first { record_changes done_group [] (rows_beside Pending Copy) ≡ at_time 0x6D (Mature 0 Copy) ∷ at_time 0x6D (Mature 1 Duplex) ∷ [] }
{}

/// Under level GROUP a failing volume suspends the pairs of its group, and one without a group is suspended alone.
pub fn failing_in_group()
    ensures reached { rows_with_record Group (group_cut_at 0x80) first_failed (grouped_rows Duplex Duplex Duplex) ≡ grouped_rows (since ByDevice 0x80) (since ByGroup 0x80) Duplex }
    ensures alone { rows_with_record Group (group_cut_at 0x80) third_failed (grouped_rows Duplex Duplex Duplex) ≡ grouped_rows Duplex Duplex (since ByDevice 0x80) }
    ensures suspended_stays { rows_with_record Group (group_cut_at 0x80) first_failed (grouped_rows Duplex (since ByCommand 0x60) Duplex) ≡ grouped_rows (since ByDevice 0x80) (since ByCommand 0x60) Duplex }
    ensures no_effect { rows_with_record Volume (group_cut_at 0x80) first_failed (grouped_rows Duplex Duplex Duplex) ≡ grouped_rows (since ByDevice 0x80) Duplex Duplex }
    ensures all { rows_with_record Session (group_cut_at 0x80) first_failed (grouped_rows Duplex Duplex Duplex) ≡ grouped_rows (since ByDevice 0x80) (since BySession 0x80) (since BySession 0x80) }
    ensures two { rows_with_record Group (group_cut_at 0x80) first_and_third_failed (two_groups Duplex Duplex Duplex Duplex) ≡ two_groups (since ByDevice 0x80) (since ByGroup 0x80) (since ByDevice 0x80) (since ByGroup 0x80) }
    ensures due_and_hit { rows_after_mark Group (0 ∷ []) (group_cut_at 0x80) first_and_third_failed (two_groups (since ByDevice 0x70) Duplex Duplex Duplex) ≡ two_groups (since ByDevice 0x70) (since ByGroup 0x80) (since ByDevice 0x80) (since ByGroup 0x80) }
    ensures due_changes { changes_after_mark Group (0 ∷ []) (group_cut_at 0x80) first_and_third_failed (two_groups (since ByDevice 0x70) Duplex Duplex Duplex) ≡ at_time 0x80 (Reached (0 ∷ [])) ∷ at_time 0x80 (Hit (2 ∷ [])) ∷ [] }
{}
