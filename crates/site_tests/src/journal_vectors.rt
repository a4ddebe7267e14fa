//! Worked records: what the definitions give for them.

ghost use Rattle.std.specs.Prelude.{◌≡◌, ◌∷◌, ◌++◌, [], slice_set};
ghost use Rattle.pair_table.specs.declared.row.PairState.TheVariants.{Duplex};
ghost use Rattle.xrc_journal.specs.Items.Item.{Gone, Pair};
ghost use Rattle.xrc_journal.specs.Records.{group_spelling, switch_spelling, walk_one};
ghost use Rattle.xrc_journal.specs.Records.Found.{End, Group, Switch, Damaged};
ghost use Rattle.site_tests.specs.JournalVectors.{and_deltas, and_zeros, delta_item, group_bytes, image_item, one_volume, rows_bytes, spot, switch_bytes};
ghost use Rattle.site_tests.specs.PairVectors.{first_row};

/// Their spellings.
pub fn spelled_records()
    ensures group { group_bytes ≡ 1 ∷ group_spelling 1 0x80 (image_item ∷ []) ++ 0 ∷ [] }
    ensures rows { rows_bytes ≡ 1 ∷ group_spelling 1 0x80 (Pair 1 (first_row Duplex) ∷ Pair 2 (first_row Duplex) ∷ []) ++ 0 ∷ [] }
    ensures switch { switch_bytes ≡ 1 ∷ switch_spelling 2 0x80 1 }
{}

/// The group, and some with one other byte.
#[tactic(auto, unfolding(xrc_journal::specs::Records::walk_one, xrc_journal::specs::Records::record_head_at, xrc_journal::specs::Reading::items_from, xrc_journal::specs::Reading::item_at, xrc_journal::specs::Reading::image_item_at, xrc_journal::specs::Reading::delta_item_at, xrc_journal::specs::Deltas::change_at, ckd_track::specs::Fields::update_at, xrc_journal::specs::Deltas::body_format_at, xrc_journal::specs::Reading::pair_item_at, xrc_journal::specs::Reading::gone_item_at, xrc_journal::specs::Reading::track_at, tod_stamp::specs::Fields::bytes_at, tod_stamp::specs::Fields::number_at, ckd_track::specs::Images::image_at, ckd_track::specs::Images::records_at, ckd_track::specs::Images::record_at, ckd_track::specs::Images::record_after_head))]
pub fn walked_groups()
    ensures whole { walk_one (one_volume 860672) 2 (and_zeros group_bytes) (spot 0 0 1) 0x50 ≡ Group 0x80 (image_item ∷ []) (spot 0 37 2) }
    ensures next { walk_one (one_volume 860672) 2 (and_zeros group_bytes) (spot 0 37 2) 0x80 ≡ End }
    ensures other_gate { walk_one (one_volume 860672) 2 (and_zeros (slice_set group_bytes 0 2)) (spot 0 0 1) 0x50 ≡ End }
    ensures opened_next { walk_one (one_volume 860672) 2 (and_zeros (slice_set group_bytes 37 1)) (spot 0 37 2) 0x80 ≡ Damaged 37 [] }
    ensures other_kind { walk_one (one_volume 860672) 2 (and_zeros (slice_set group_bytes 1 3)) (spot 0 0 1) 0x50 ≡ Damaged 0 [] }
    ensures other_tag { walk_one (one_volume 860672) 2 (and_zeros (slice_set group_bytes 22 9)) (spot 0 0 1) 0x50 ≡ Damaged 22 [] }
    ensures other_image { walk_one (one_volume 860672) 2 (and_zeros (slice_set group_bytes 31 0)) (spot 0 0 1) 0x50 ≡ Damaged 22 [] }
    ensures other_number { walk_one (one_volume 860672) 2 (and_zeros group_bytes) (spot 0 0 2) 0x50 ≡ Damaged 0 [] }
    ensures early { walk_one (one_volume 860672) 2 (and_zeros group_bytes) (spot 0 0 1) 0x81 ≡ Damaged 0 [] }
    ensures no_room { walk_one (one_volume 860672) 2 group_bytes (spot 0 0 1) 0x50 ≡ Damaged 0 [] }
    ensures slot { walk_one (one_volume 229888) 2 (and_zeros group_bytes) (spot 0 0 1) 0x50 ≡ Group 0x80 (image_item ∷ []) (spot 0 37 2) }
    ensures no_slot { walk_one (one_volume 229887) 2 (and_zeros group_bytes) (spot 0 0 1) 0x50 ≡ Damaged 22 [] }
    ensures twice { walk_one (one_volume 229888) 2 (and_zeros (1 ∷ group_spelling 1 0x80 (image_item ∷ image_item ∷ []) ++ 0 ∷ [])) (spot 0 0 1) 0x50 ≡ Damaged 37 (image_item ∷ []) }
    ensures late { walk_one (one_volume 229888) 2 (and_zeros (1 ∷ group_spelling 1 0x80 (Gone 5 ∷ image_item ∷ []) ++ 0 ∷ [])) (spot 0 0 1) 0x50 ≡ Damaged 25 (Gone 5 ∷ []) }
    ensures rows { walk_one (one_volume 229888) 2 (and_zeros rows_bytes) (spot 0 0 1) 0x50 ≡ Group 0x80 (Pair 1 (first_row Duplex) ∷ Pair 2 (first_row Duplex) ∷ []) (spot 0 92 2) }
    ensures bad_row { walk_one (one_volume 229888) 2 (and_zeros (slice_set rows_bytes 43 4)) (spot 0 0 1) 0x50 ≡ Damaged 22 [] }
    ensures bad_wide_row { walk_one (one_volume 229888) 2 (and_zeros (slice_set rows_bytes 76 4)) (spot 0 0 1) 0x50 ≡ Damaged 53 (Pair 1 (first_row Duplex) ∷ []) }
    ensures no_deltas { walk_one (one_volume 229888) 2 (and_zeros (1 ∷ group_spelling 1 0x80 (image_item ∷ delta_item ∷ []) ++ 0 ∷ [])) (spot 0 0 1) 0x50 ≡ Damaged 37 (image_item ∷ []) }
    ensures deltas { walk_one (and_deltas (one_volume 229888)) 2 (and_zeros (1 ∷ group_spelling 1 0x80 (image_item ∷ delta_item ∷ []) ++ 0 ∷ [])) (spot 0 0 1) 0x50 ≡ Group 0x80 (image_item ∷ delta_item ∷ []) (spot 0 49 2) }
{}

/// The switch, also where it leads to another set than the next.
#[tactic(auto, unfolding(xrc_journal::specs::Records::walk_one, xrc_journal::specs::Records::record_head_at, tod_stamp::specs::Fields::number_at))]
pub fn walked_switches()
    ensures switch { walk_one (one_volume 0) 2 switch_bytes (spot 0 0 2) 0x80 ≡ Switch 0x80 (spot 1 0 3) }
    ensures last_set { walk_one (one_volume 0) 2 switch_bytes (spot 1 0 2) 0x80 ≡ Damaged 0 [] }
    ensures back { walk_one (one_volume 0) 2 (1 ∷ switch_spelling 2 0x80 0) (spot 1 0 2) 0x80 ≡ Switch 0x80 (spot 0 0 3) }
{}
