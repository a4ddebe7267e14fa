//! The laws of what a ring of data sets means.

ghost use Rattle.site_store.specs.RingLaws.{AddedGroupsAreMeant, AddedSwitchesMeanTheSame, EndsAreEntered, GroupsHadAreShown, GroupsPutAreShown, KeptRingsMeanTheSame};
ghost use Rattle.site_store.specs.RingLaws.{MarksAtEndsAreMeant, MeantNumbersAreLow, MeantWalksAreShut, MeantWalksEnd, NextSetsAreFree, OtherSlotsKeepTheMark};
ghost use Rattle.site_store.specs.RingLaws.{SwitchesHadAreShown, SwitchesPutAreShown, ThroughsAreWalks, UntouchedShowTheSame, WalksAreThrough};
ghost use Rattle.site_store.specs.RingPlants.{AllWalksEnd, EndIsDurable, GroupIsDurable, GroupIsMeant, GroupIsShown, MarkIsMeant, MarkIsShown, RoomIsRead};
ghost use Rattle.site_store.specs.RingPlants.{SetsStayDurable, SwitchIsDurable, SwitchIsMeant, SwitchIsShown, SwitchedGroupIsMeant, SwitchedGroupIsShown};

use crash_plant::Plant;

/// A site's walk without a bad place is one through the data sets, and the other way round. A record may be put at its end, where the
/// gate is shut.
pub fn walks_are_through()
    ensures through { WalksAreThrough }
    ensures back { ThroughsAreWalks }
    ensures end { MeantWalksEnd }
    ensures number { MeantNumbersAreLow }
    ensures shut { MeantWalksAreShut }
    ensures entered { EndsAreEntered }
{}

/// What images mean whose walk is kept, or has a record more.
pub fn walks_are_meant()
    ensures kept { KeptRingsMeanTheSame }
    ensures group { AddedGroupsAreMeant }
    ensures switch { AddedSwitchesMeanTheSame }
{}

/// What images show while a record is put, and once it was put.
pub fn records_are_shown()
    ensures untouched { UntouchedShowTheSame }
    ensures puts_group { GroupsPutAreShown }
    ensures has_group { GroupsHadAreShown }
    ensures puts_switch { SwitchesPutAreShown }
    ensures has_switch { SwitchesHadAreShown }
{}

/// Until a mark counts, the one before it does. A mark at a walk's end means the same with its rows, by a walk without a group, and the next
/// data set may be entered then.
pub fn marks_free_the_ring()
    ensures kept { OtherSlotsKeepTheMark }
    ensures meant { MarksAtEndsAreMeant }
    ensures free { NextSetsAreFree }
{}

/// A record may be put at the end of the walk by which all that a crash may leave means one thing.
pub fn walks_end<P: Plant>(plant: &P)
    ensures end { AllWalksEnd (P.state plant.now) }
    ensures room { RoomIsRead (P.state plant.now) }
    ensures durable { EndIsDurable (P.state plant.now) }
{}

/// What is shown at every moment while a group is put, and meant once it was put.
pub fn groups_are_meant<P: Plant>(old: &P, new: &P)
    ensures shown { GroupIsShown (P.state old.now) (P.state new.now) }
    ensures meant { GroupIsMeant (P.state old.now) (P.state new.now) }
    ensures durable { GroupIsDurable P.tells (P.state old.now) (P.state new.now) }
{}

/// So it is with a switch.
pub fn switches_mean_the_same<P: Plant>(old: &P, new: &P)
    ensures shown { SwitchIsShown (P.state old.now) (P.state new.now) }
    ensures meant { SwitchIsMeant (P.state old.now) (P.state new.now) }
    ensures durable { SwitchIsDurable P.tells (P.state old.now) (P.state new.now) }
{}

/// So it is with a switch, and a group after it.
pub fn switched_groups_are_meant<P: Plant>(old: &P, mid: &P, new: &P)
    ensures shown { SwitchedGroupIsShown (P.state old.now) (P.state mid.now) (P.state new.now) }
    ensures meant { SwitchedGroupIsMeant (P.state old.now) (P.state mid.now) (P.state new.now) }
{}

/// What is shown at every moment while a mark is made at a walk's end, and meant from it.
pub fn marks_are_meant<P: Plant>(old: &P, new: &P)
    ensures shown { MarkIsShown (P.state old.now) (P.state new.now) }
    ensures meant { MarkIsMeant (P.state old.now) (P.state new.now) }
    ensures durable { SetsStayDurable (P.state old.now) (P.state new.now) }
{}
