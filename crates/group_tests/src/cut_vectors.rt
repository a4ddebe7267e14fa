//! Worked histories: what the definitions give for them.

ghost use Rattle.std.specs.Prelude.{◌≡◌, ◌++◌, ◌∷◌, [], true, false};
ghost use Rattle.cut_core.specs.Events.{floor, last_cut, is_live};
ghost use Rattle.cut_core.specs.Events.Event.{Copied, Break, Raise, Form, Drop, Carry, Resume, Forget};
ghost use Rattle.cut_core.specs.LegalHistories.{least_floor, is_legal_next, are_legal};
ghost use Rattle.cut_core.specs.Shares.{share};
ghost use Rattle.cut_core.specs.Groups.{group, copied_entry};
ghost use Rattle.cut_core.specs.Cuts.{kept_writes};
ghost use Rattle.group_tests.specs.CutVectors.{whole_on, join, written_entry, two_controls_past, equal_stamps};

/// The cut is the least floor: only the write of 10 is in the first group, and the other in the next.
pub fn cuts()
    ensures legal { are_legal 2 [] (two_controls_past ++ Form 0x15 ∷ Raise 1 0x40 ∷ Form 0x40 ∷ []) ≡ true }
    ensures floors { floor 0 two_controls_past ≡ 0x40 }
    ensures least { least_floor 2 0x40 two_controls_past ≡ 0x15 }
    ensures greatest { is_legal_next 2 two_controls_past (Form 0x40) ≡ false }
    ensures first { group two_controls_past 0x15 ≡ written_entry 0 0 0x10 ∷ [] }
    ensures second { group (two_controls_past ++ Form 0x15 ∷ Raise 1 0x40 ∷ []) 0x40 ≡ written_entry 0 1 0x20 ∷ [] }
    ensures falls { is_legal_next 2 (two_controls_past ++ Form 0x15 ∷ []) (Form 0x14) ≡ false }
    ensures kept { kept_writes [] (two_controls_past ++ Form 0x15 ∷ Raise 1 0x40 ∷ Form 0x40 ∷ []) ≡ written_entry 0 0 0x10 ∷ written_entry 0 1 0x20 ∷ [] }
{}

/// A batch's stamps lie above its controller's floor and up to its time, and don't fall.
pub fn batches()
    ensures at_the_floor { is_legal_next 2 two_controls_past (join 1 (whole_on 0 0x15 ∷ []) 0x20) ≡ false }
    ensures above { is_legal_next 2 two_controls_past (join 1 (whole_on 0 0x16 ∷ whole_on 0 0x20 ∷ []) 0x20) ≡ true }
    ensures past_its_time { is_legal_next 2 two_controls_past (join 1 (whole_on 0 0x16 ∷ whole_on 0 0x21 ∷ []) 0x20) ≡ false }
    ensures falling { is_legal_next 2 two_controls_past (join 1 (whole_on 0 0x17 ∷ whole_on 0 0x16 ∷ []) 0x20) ≡ false }
    ensures time_falls { is_legal_next 2 two_controls_past (join 1 [] 0x14) ≡ false }
    ensures no_control { is_legal_next 2 two_controls_past (join 2 [] 0x20) ≡ false }
{}

/// A group stands by stamp, controller and position.
pub fn two_of_one_stamp()
    ensures legal { are_legal 2 [] (equal_stamps ++ Form 0x10 ∷ []) ≡ true }
    ensures ordered { group equal_stamps 0x10 ≡ written_entry 0 7 0x10 ∷ written_entry 1 5 0x10 ∷ written_entry 1 4 0x10 ∷ [] }
{}

/// A break below the limit counts until a form has its time as cut.
pub fn break_below_the_limit()
    ensures legal { are_legal 2 [] (two_controls_past ++ Break 1 0x16 ∷ Form 0x15 ∷ Form 0x16 ∷ Form 0x40 ∷ []) ≡ true }
    ensures counts { least_floor 2 0x40 (two_controls_past ++ Break 1 0x16 ∷ []) ≡ 0x16 }
    ensures live { is_live 1 (two_controls_past ++ Break 1 0x16 ∷ Form 0x15 ∷ []) ≡ true }
    ensures done { least_floor 2 0x40 (two_controls_past ++ Break 1 0x16 ∷ Form 0x16 ∷ []) ≡ 0x40 }
    ensures silent { is_legal_next 2 (two_controls_past ++ Break 1 0x16 ∷ []) (Raise 1 0x20) ≡ false }
{}

/// A break at the limit is reported by the form at the limit.
pub fn break_at_the_limit()
    ensures legal { are_legal 2 [] (two_controls_past ++ Break 1 0x40 ∷ Form 0x40 ∷ Raise 0 0x50 ∷ Form 0x50 ∷ []) ≡ true }
    ensures counts { least_floor 2 0x40 (two_controls_past ++ Break 1 0x40 ∷ []) ≡ 0x40 }
    ensures live { is_live 1 (two_controls_past ++ Break 1 0x40 ∷ []) ≡ true }
    ensures done { is_live 1 (two_controls_past ++ Break 1 0x40 ∷ Form 0x40 ∷ []) ≡ false }
    ensures next { least_floor 2 0x50 (two_controls_past ++ Break 1 0x40 ∷ Form 0x40 ∷ Raise 0 0x60 ∷ []) ≡ 0x50 }
{}

/// A cut at the break's time before the break doesn't report it.
pub fn break_after_its_cut()
    ensures counts { is_live 1 (two_controls_past ++ Form 0x15 ∷ Break 1 0x15 ∷ []) ≡ true }
    ensures again { is_live 1 (two_controls_past ++ Form 0x15 ∷ Break 1 0x15 ∷ Form 0x15 ∷ []) ≡ false }
{}

/// Where every controller has broken, each counts until its break was a cut. Then the cut is the limit.
pub fn all_broken()
    ensures legal { are_legal 2 [] (two_controls_past ++ Break 0 0x40 ∷ Break 1 0x16 ∷ Form 0x16 ∷ Form 0x40 ∷ Form 0x99 ∷ []) ≡ true }
    ensures first { least_floor 2 0x99 (two_controls_past ++ Break 0 0x40 ∷ Break 1 0x16 ∷ []) ≡ 0x16 }
    ensures second { least_floor 2 0x99 (two_controls_past ++ Break 0 0x40 ∷ Break 1 0x16 ∷ Form 0x16 ∷ []) ≡ 0x40 }
    ensures last { least_floor 2 0x99 (two_controls_past ++ Break 0 0x40 ∷ Break 1 0x16 ∷ Form 0x16 ∷ Form 0x40 ∷ []) ≡ 0x99 }
    ensures cut { last_cut (two_controls_past ++ Break 0 0x40 ∷ Break 1 0x16 ∷ Form 0x16 ∷ Form 0x40 ∷ []) ≡ 0x40 }
{}

/// A drop between a join and the form takes the entry out and puts its track into the map; after the form it does neither.
pub fn drops()
    ensures taken_out { group (two_controls_past ++ Drop 0 0 false ∷ []) 0x15 ≡ [] }
    ensures none_kept { kept_writes [] (two_controls_past ++ Drop 0 0 false ∷ Form 0x15 ∷ []) ≡ [] }
    ensures formed_before { kept_writes [] (two_controls_past ++ Form 0x15 ∷ Drop 0 0 false ∷ []) ≡ written_entry 0 0 0x10 ∷ [] }
    ensures mapped { (share 0 0 0 (two_controls_past ++ Drop 0 0 false ∷ [])).is_mapped ≡ true }
    ensures other { (share 0 0 2 (two_controls_past ++ Drop 0 0 false ∷ [])).is_mapped ≡ false }
    ensures all { (share 0 0 2 (two_controls_past ++ Drop 0 0 true ∷ [])).is_mapped ≡ true }
    ensures unmapped { (share 0 0 0 (two_controls_past ++ Form 0x15 ∷ Drop 0 0 false ∷ [])).is_mapped ≡ false }
    ensures joined_since { (share 0 0 9 (two_controls_past ++ Drop 0 0 false ∷ join 0 (whole_on 9 0x41 ∷ []) 0x41 ∷ [])).is_mapped ≡ true }
    ensures other_volume { group (two_controls_past ++ Drop 0 1 false ∷ Drop 1 0 false ∷ []) 0x15 ≡ written_entry 0 0 0x10 ∷ [] }
    ensures never_carried { (share 1 0 0 (two_controls_past ++ Drop 1 0 true ∷ [])).is_mapped ≡ false }
{}

/// What the map holds is wanted after a resume. Until its copy a wanted track's writes aren't carried; from the copy on they are.
pub fn resumes()
    ensures wanted { (share 0 0 0 (two_controls_past ++ Drop 0 0 false ∷ Resume 0 0 ∷ [])).is_wanted ≡ true }
    ensures legal { are_legal 2 [] (two_controls_past ++ Drop 0 0 false ∷ Resume 0 0 ∷ Copied 0 0 0 0x40 ∷ Raise 1 0x40 ∷ []) ≡ true }
    ensures unwanted { is_legal_next 2 two_controls_past (Copied 0 0 0 0x40) ≡ false }
    ensures twice { is_legal_next 2 (two_controls_past ++ Drop 0 0 false ∷ Resume 0 0 ∷ Copied 0 0 0 0x40 ∷ []) (Copied 0 0 0 0x40) ≡ false }
    ensures below_the_floor { is_legal_next 2 (two_controls_past ++ Drop 0 0 false ∷ Resume 0 0 ∷ []) (Copied 0 0 0 0x3F) ≡ false }
    ensures copied { group (two_controls_past ++ Drop 0 0 false ∷ Resume 0 0 ∷ Copied 0 0 0 0x40 ∷ Raise 1 0x40 ∷ []) 0x40 ≡ copied_entry 0 0 0 0x40 ∷ [] }
    ensures after { group (two_controls_past ++ Drop 0 0 false ∷ Resume 0 0 ∷ join 0 (whole_on 0 0x41 ∷ []) 0x41 ∷ Copied 0 0 0 0x41 ∷ join 0 (whole_on 0 0x42 ∷ []) 0x42 ∷ []) 0x42 ≡ copied_entry 0 0 0 0x41 ∷ written_entry 0 0 0x42 ∷ [] }
{}

/// An entry that waits is kept through a carry and a forget, so that a later drop takes it out. A carry keeps what was wanted.
pub fn carried_again()
    ensures legal { are_legal 2 [] (two_controls_past ++ Carry 0 0 [] ∷ Drop 0 0 false ∷ Resume 0 0 ∷ []) ≡ true }
    ensures waits { group (two_controls_past ++ Carry 0 0 [] ∷ []) 0x15 ≡ written_entry 0 0 0x10 ∷ [] }
    ensures taken_out { group (two_controls_past ++ Carry 0 0 [] ∷ Drop 0 0 false ∷ []) 0x15 ≡ [] }
    ensures mapped { (share 0 0 0 (two_controls_past ++ Carry 0 0 [] ∷ Drop 0 0 false ∷ [])).is_mapped ≡ true }
    ensures forgotten { (share 0 0 0 (two_controls_past ++ Drop 0 0 false ∷ Forget 0 0 ∷ Carry 0 0 [] ∷ Drop 0 0 false ∷ [])).is_mapped ≡ false }
    ensures forgotten_in_carrying { (share 0 0 0 (two_controls_past ++ Forget 0 0 ∷ Carry 0 0 [] ∷ Drop 0 0 false ∷ [])).is_mapped ≡ true }
    ensures both_wanted { (share 0 0 5 (Carry 0 0 (5 ∷ []) ∷ Carry 0 0 (6 ∷ []) ∷ [])).is_wanted ≡ true }
{}

/// A volume is carried and its tracks are wanted by a carry and a resume alone, and just those that they name.
pub fn carried_and_wanted()
    ensures given { (share 0 0 5 (Carry 0 0 (5 ∷ []) ∷ [])).is_wanted ≡ true }
    ensures not_given { (share 0 0 6 (Carry 0 0 (5 ∷ []) ∷ [])).is_wanted ≡ false }
    ensures other_track { (share 0 0 6 (Carry 0 0 (5 ∷ 6 ∷ []) ∷ Copied 0 0 5 0 ∷ [])).is_wanted ≡ true }
    ensures mapped_alone { (share 0 0 2 (two_controls_past ++ Drop 0 0 false ∷ Resume 0 0 ∷ [])).is_wanted ≡ false }
    ensures wanted_no_more { (share 0 0 5 (Carry 0 0 (5 ∷ []) ∷ Forget 0 0 ∷ [])).is_wanted ≡ false }
    ensures never_carried { group (join 0 (whole_on 0 0x10 ∷ []) 0x10 ∷ []) 0x10 ≡ [] }
    ensures forgotten { group (Carry 0 0 [] ∷ Forget 0 0 ∷ join 0 (whole_on 0 0x10 ∷ []) 0x10 ∷ []) 0x10 ≡ [] }
{}
