//! The law of regions and their chains.

ghost use Rattle.block_region.specs.Laws.{NoneAreOut, TakenChainsAreOut, GivenChainsLeaveTheRest, BlocksAddUp};

/// A caller's list of all the chains that are out. It begins with none. A chain that is taken goes after it and one that is given back
/// goes out of it, and each of the others keeps its bytes. The free blocks and those of these chains are all blocks.
pub fn takes_keep_chains()
    ensures none { NoneAreOut }
    ensures taken { TakenChainsAreOut }
    ensures given { GivenChainsLeaveTheRest }
    ensures blocks { BlocksAddUp }
{}
