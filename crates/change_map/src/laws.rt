//! The laws of sets of tracks.

ghost use Rattle.change_map.specs.Laws.{NoneHasNone, EveryHasAll, WithAddsOne, WithoutTakesOne, UnionHasBoth, SameTracksSameSet};

/// Which tracks a set has: none, every one, one more, one fewer, those of either; and no two sets have the same.
pub fn sets_have_their_tracks()
    ensures none { NoneHasNone }
    ensures every { EveryHasAll }
    ensures with { WithAddsOne }
    ensures without { WithoutTakesOne }
    ensures union { UnionHasBoth }
    ensures same { SameTracksSameSet }
{}
