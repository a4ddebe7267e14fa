//! The laws of items, records and walks.

ghost use Rattle.xrc_journal.specs.Laws.{EndsAreShut, GroupsAreSpelled, GroupsAreWalked, SwitchesAreSpelled, SwitchesAreWalked, WalksAreOne};
ghost use Rattle.xrc_journal.specs.RingLaws.{GroupsAreAdded, SetsComeInTurn, SwitchesAreAdded, WalksAreKept, WalksAreWithin, WalksThroughAreOne};

/// What stands spelled behind an open gate is walked over, whatever follows: a group, and a switch to the next data set. What is walked
/// over stands so, and no record stands at a spot exactly where its gate isn't 1.
pub fn groups_are_walked()
    ensures walked { GroupsAreWalked }
    ensures spelled { GroupsAreSpelled }
    ensures switch_walked { SwitchesAreWalked }
    ensures switch_spelled { SwitchesAreSpelled }
    ensures shut { EndsAreShut }
{}

/// There is one walk from a spot.
pub fn walks_are_one()
    ensures { WalksAreOne }
{}

/// On which bytes a walk through data sets depends, and which record at its end is its last. It depends on the data sets that it left and
/// on those bytes of its last one that stand before its end.
pub fn walks_grow_at_their_end()
    ensures kept { WalksAreKept }
    ensures group { GroupsAreAdded }
    ensures switch { SwitchesAreAdded }
{}

/// A walk enters data sets in turn and none twice; there is one from a place; and without a switch it is that over one data set.
pub fn walks_enter_sets_in_turn()
    ensures turn { SetsComeInTurn }
    ensures one { WalksThroughAreOne }
    ensures within { WalksAreWithin }
{}
