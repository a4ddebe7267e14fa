//! Worked sites: what the definitions give for them.

ghost use Rattle.std.specs.Prelude.{◌≡◌, ◌∷◌, [], slice_set};
ghost use Rattle.crash_plant.specs.declared.device.Device.TheVariants.{Journal};
ghost use Rattle.xrc_journal.specs.Items.Item.{Gone};
ghost use Rattle.xrc_journal.specs.Records.{group_spelling, switch_spelling};
ghost use Rattle.site_tests.specs.JournalVectors.{group_bytes, image_item};
ghost use Rattle.site_means.specs.Meaning.{meaning_in};
ghost use Rattle.site_means.specs.Meaning.Meaning.{DamagedAt};
ghost use Rattle.site_tests.specs.SiteVectors.{meant, site, small, worked_group};

/// The group, and some with one other byte.
#[tactic(auto, unfolding(site_means::specs::Walk::walk_from, control_set::specs::Marks::mark_at, xrc_journal::specs::Records::walk_one, xrc_journal::specs::Records::record_head_at, xrc_journal::specs::Reading::items_from, xrc_journal::specs::Reading::item_at, xrc_journal::specs::Reading::image_item_at, xrc_journal::specs::Reading::delta_item_at, xrc_journal::specs::Deltas::change_at, ckd_track::specs::Fields::update_at, xrc_journal::specs::Deltas::body_format_at, xrc_journal::specs::Reading::pair_item_at, xrc_journal::specs::Reading::gone_item_at, xrc_journal::specs::Reading::track_at, tod_stamp::specs::Fields::bytes_at, tod_stamp::specs::Fields::number_at, ckd_track::specs::Images::image_at, ckd_track::specs::Images::records_at, ckd_track::specs::Images::record_at, ckd_track::specs::Images::record_after_head))]
pub fn meant_groups()
    ensures whole { meaning_in small (site group_bytes []) ≡ meant 0x80 (worked_group ∷ []) (0 ∷ []) 37 0 2 0x80 }
    ensures other_gate { meaning_in small (site (slice_set group_bytes 0 2) []) ≡ meant 0x50 [] (0 ∷ []) 0 0 1 0x50 }
    ensures other_kind { meaning_in small (site (slice_set group_bytes 1 3) []) ≡ DamagedAt (Journal 0) 0 }
    ensures other_tag { meaning_in small (site (slice_set group_bytes 22 9) []) ≡ DamagedAt (Journal 0) 22 }
    ensures other_image { meaning_in small (site (slice_set group_bytes 31 0) []) ≡ DamagedAt (Journal 0) 22 }
    ensures next_gate { meaning_in small (site (slice_set group_bytes 37 1) []) ≡ DamagedAt (Journal 0) 37 }
    ensures no_row { meaning_in small (site (1 ∷ group_spelling 1 0x80 (image_item ∷ Gone 0 ∷ [])) []) ≡ DamagedAt (Journal 0) 37 }
{}

/// Walks over a switch.
#[tactic(auto, unfolding(site_means::specs::Walk::walk_from, control_set::specs::Marks::mark_at, xrc_journal::specs::Records::walk_one, xrc_journal::specs::Records::record_head_at, xrc_journal::specs::Reading::items_from, xrc_journal::specs::Reading::item_at, xrc_journal::specs::Reading::image_item_at, xrc_journal::specs::Reading::delta_item_at, xrc_journal::specs::Deltas::change_at, ckd_track::specs::Fields::update_at, xrc_journal::specs::Deltas::body_format_at, xrc_journal::specs::Reading::pair_item_at, xrc_journal::specs::Reading::gone_item_at, xrc_journal::specs::Reading::track_at, tod_stamp::specs::Fields::bytes_at, tod_stamp::specs::Fields::number_at, ckd_track::specs::Images::image_at, ckd_track::specs::Images::records_at, ckd_track::specs::Images::record_at, ckd_track::specs::Images::record_after_head))]
pub fn meant_switches()
    ensures next { meaning_in small (site (1 ∷ switch_spelling 1 0x60 1) (1 ∷ group_spelling 2 0x80 (image_item ∷ []))) ≡ meant 0x80 (worked_group ∷ []) (0 ∷ 1 ∷ []) 37 1 3 0x80 }
    ensures no_group { meaning_in small (site (1 ∷ switch_spelling 1 0x90 1) []) ≡ meant 0x50 [] (0 ∷ 1 ∷ []) 0 1 2 0x90 }
    ensures twice { meaning_in small (site (1 ∷ switch_spelling 1 0x60 1) (1 ∷ switch_spelling 2 0x60 0)) ≡ DamagedAt (Journal 1) 0 }
    ensures falls { meaning_in small (site (1 ∷ switch_spelling 1 0x90 1) (1 ∷ group_spelling 2 0x80 (image_item ∷ []))) ≡ DamagedAt (Journal 1) 0 }
{}
