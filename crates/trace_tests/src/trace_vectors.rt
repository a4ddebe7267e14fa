//! Worked traces: what the definitions give for them.
#![tactic(auto, unfolding(write_trace::specs::WholeTraces::trace_of, write_trace::specs::WholeTraces::entries_from, write_trace::specs::Headers::header_at, write_trace::specs::Headers::version_at, write_trace::specs::Headers::volumes_at, write_trace::specs::Headers::volume_at, write_trace::specs::Headers::bases_at, write_trace::specs::Headers::base_at, write_trace::specs::Headers::place_at, write_trace::specs::Entries::entry_at, write_trace::specs::Entries::write_at, write_trace::specs::Entries::kind_at, ckd_track::specs::Fields::update_at, write_trace::specs::Entries::format_at, write_trace::specs::Entries::whole_at, tod_stamp::specs::Fields::bytes_at, tod_stamp::specs::Fields::number_at, ckd_track::specs::Images::image_at, ckd_track::specs::Images::records_at, ckd_track::specs::Images::record_at, ckd_track::specs::Images::record_after_head))]

ghost use Rattle.std.specs.Prelude.{◌≡◌, ◌+◌, ◌++◌, ◌∷◌, [], true, false, Ok, Err, codes, length, take, slice_set};
ghost use Rattle.std.specs.List.{flat_map};
ghost use Rattle.test_fixtures.specs.Hex.{hex};
ghost use Rattle.ckd_track.specs.declared.write.Kind.TheVariants.{Format};
ghost use Rattle.write_trace.specs.declared.entry.Entry.TheVariants.{Idle};
ghost use Rattle.write_trace.specs.declared.trace.HeaderError.TheVariants.{BadHeader, HeaderFault};
ghost use Rattle.write_trace.specs.declared.trace.TraceEnd.TheVariants.{Ended, BadTrace, ReadFault};
ghost use Rattle.write_trace.specs.Headers.{header_spelling};
ghost use Rattle.write_trace.specs.Entries.{entry_spelling};
ghost use Rattle.write_trace.specs.WholeTraces.{trace_of};
ghost use Rattle.trace_tests.specs.TraceVectors.{header_with, large_header, last_track, plain, two_bases, on_three, one_trace, one_header, first_entry, second_entry, read_one, one_with};

/// The trace's spelling.
pub fn spelled_trace()
    ensures header { header_spelling one_header ≡ take 18 one_trace }
    ensures entries { header_spelling one_header ++ flat_map (entry_spelling 1) (first_entry ∷ second_entry ∷ []) ≡ one_trace }
    ensures length { length one_trace ≡ 60 }
{}

/// The whole trace, its first bytes, and bytes of it that are other ones.
pub fn read_traces()
    ensures whole { read_one one_trace ≡ one_with (first_entry ∷ second_entry ∷ []) Ended }
    ensures other_mark { read_one (hex (codes "58545233 0001")) ≡ Err (BadHeader 0) }
    ensures no_volumes { read_one (hex (codes "58545231 0000")) ≡ Err (BadHeader 4) }
    ensures first_12 { read_one (take 12 one_trace) ≡ Err (BadHeader 12) }
    ensures first_18 { read_one (take 18 one_trace) ≡ one_with [] Ended }
    ensures first_40 { read_one (take 40 one_trace) ≡ one_with [] (BadTrace 18) }
    ensures first_59 { read_one (take 59 one_trace) ≡ one_with (first_entry ∷ []) (BadTrace 41) }
    ensures other_tag { read_one (slice_set one_trace 41 7) ≡ one_with (first_entry ∷ []) (BadTrace 41) }
    ensures stamp_falls { read_one (slice_set one_trace 49 0x63) ≡ one_with (first_entry ∷ []) (BadTrace 41) }
    ensures cut_in_fault { trace_of true (take 59 one_trace) ≡ one_with (first_entry ∷ []) ReadFault }
    ensures bad_in_fault { trace_of true (slice_set one_trace 41 7) ≡ one_with (first_entry ∷ []) (BadTrace 41) }
    ensures fault_in_header { trace_of true (take 12 one_trace) ≡ Err HeaderFault }
    ensures fault_after { trace_of true one_trace ≡ one_with (first_entry ∷ second_entry ∷ []) ReadFault }
{}

/// A header that is cut: the place is that of the field that is cut.
pub fn cut_headers()
    ensures in_mark { read_one (take 3 one_trace) ≡ Err (BadHeader 0) }
    ensures in_count { read_one (take 5 one_trace) ≡ Err (BadHeader 4) }
    ensures in_serial { read_one (take 11 one_trace) ≡ Err (BadHeader 6) }
    ensures in_cylinders { read_one (take 13 one_trace) ≡ Err (BadHeader 12) }
    ensures in_base { read_one (take 17 one_trace) ≡ Err (BadHeader 14) }
    ensures first_19 { read_one (take 19 one_trace) ≡ one_with [] (BadTrace 18) }
    ensures first_41 { read_one (take 41 one_trace) ≡ one_with (first_entry ∷ []) Ended }
{}

/// Serials: one that is no valid field, and two that are equal.
pub fn serials()
    ensures lower_case { read_one (hex (codes "58545231 0001 7052494D3031 0001 00000000")) ≡ Err (BadHeader 6) }
    ensures equal { read_one (hex (codes "58545231 0002 5052494D3031 0001 5052494D3031 0001 00000000")) ≡ Err (BadHeader 14) }
{}

/// Base tracks: read in order, and each refusal's place.
pub fn base_tracks()
    ensures read { read_one (two_bases (hex (codes "0000 0001 0004 0000"))) ≡ Ok (record { header = header_with 2 ((0, 3, []) ∷ (0, 19, []) ∷ []); entries = []; end = Ended }) }
    ensures order { read_one (two_bases (hex (codes "0000 0000 0003 0000"))) ≡ Err (BadHeader 26) }
    ensures head { read_one (two_bases (hex (codes "0000 0000 000F 0000"))) ≡ Err (BadHeader 30) }
    ensures cylinder { read_one (two_bases (hex (codes "0000 0002 0004 0000"))) ≡ Err (BadHeader 28) }
    ensures volume { read_one (two_bases (hex (codes "0001 0000 0004 0000"))) ≡ Err (BadHeader 26) }
    ensures image { read_one (two_bases (hex (codes "0000 0000 0004 0001 00 00 0000"))) ≡ Err (BadHeader 32) }
    ensures cut_image { trace_of true (two_bases (hex (codes "0000 0000 0004 0001 01"))) ≡ Err HeaderFault }
    ensures many { read_one (hex (codes "58545231 0001 5052494D3031 0001 00000010")) ≡ Err (BadHeader 14) }
{}

/// A format's entry, one whose record isn't above its start, and idle entries.
pub fn formats()
    ensures spelled { entry_spelling 1 (on_three 0x64 (Format 1 (plain 2 (codes "Q") ∷ []))) ≡ hex (codes "03 0000000000000064 0000 0000 0003 01 01 02 00 0001 51") }
    ensures read { read_one (take 18 one_trace ++ hex (codes "03 0000000000000064 0000 0000 0003 01 01 02 00 0001 51")) ≡ one_with (on_three 0x64 (Format 1 (plain 2 (codes "Q") ∷ [])) ∷ []) Ended }
    ensures not_above { read_one (take 18 one_trace ++ hex (codes "03 0000000000000064 0000 0000 0003 02 01 02 00 0001 51")) ≡ one_with [] (BadTrace 18) }
    ensures idle { read_one (take 18 one_trace ++ hex (codes "01 0000000000000064")) ≡ one_with (Idle (record { 0 = 0x64 }) ∷ []) Ended }
    ensures stamp_zero { read_one (take 18 one_trace ++ hex (codes "01 0000000000000000")) ≡ one_with [] (BadTrace 18) }
{}

/// The second version: cylinders in four bytes, up to 1,000,000 of them.
pub fn large_volumes()
    ensures header { header_spelling large_header ≡ hex (codes "58545232 0001 5052494D3031 00011170 00000000") }
    ensures entry { entry_spelling 2 last_track ≡ hex (codes "04 0000000000000064 0000 0001116F 000E 0001010000024142") }
    ensures read { trace_of false (header_spelling large_header ++ entry_spelling 2 last_track) ≡ Ok (record { header = large_header; entries = last_track ∷ []; end = Ended }) }
    ensures too_many { trace_of false (hex (codes "58545232 0001 5052494D3031 000F4241 00000000")) ≡ Err (BadHeader 12) }
    ensures too_many_narrow { trace_of false (hex (codes "58545231 0001 5052494D3031 FFF1 00000000")) ≡ Err (BadHeader 12) }
    ensures cut { trace_of false (take 15 (header_spelling large_header)) ≡ Err (BadHeader 12) }
    ensures equal { trace_of false (hex (codes "58545232 0002 5052494D3031 00000001 5052494D3031 00000001 00000000")) ≡ Err (BadHeader 16) }
    ensures longer { length (entry_spelling 2 last_track) ≡ length (entry_spelling 1 first_entry) + 2 }
{}
