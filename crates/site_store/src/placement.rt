//! Where a record is placed, and whether the numbers suffice for it.

ghost use Rattle.std.specs.Prelude.{◌≡◌, ◌≤◌, ◌<◌, ◌+◌};
ghost use Rattle.crash_plant.specs.declared.device.Device.TheVariants.{Journal as JournalDevice};
ghost use Rattle.crash_plant.specs.Calls.{NoneLent};
ghost use Rattle.xrc_journal.specs.Records.{next_set};
ghost use Rattle.site_store.specs.Placements.{record_needs_more, suspension_needs_more, placement_from};

use crash_plant::{Device, Plant, Spot};
use xrc_journal::{AROUND, Body};

/// The greatest number of a record and of a mark.
pub(crate) const MOST: u64 = u64::MAX - 1;

/// What comes before a record.
#[derive(Clone, Copy, Debug, PartialEq, Eq)]
pub(crate) enum Placement {
    /// Nothing: it fits the rest of the data set.
    Here,
    /// A switch to the next data set.
    Switched,
    /// A mark, and then a switch, which would lead into a data set with records that aren't marked.
    Marked,
}

/// The data set after one.
pub(crate) fn next_set(sets: u16, set: u16) -> u16
    requires { set < sets }
    ensures next { result ≡ next_set sets set }
    ensures there { result < sets }
{
    if set + 1 == sets { 0 } else { set + 1 }
}

/// The placement of a record of these items, where the journal ends at `at` and the mark that counts stands at `marked`.
pub(crate) fn placement_from<P: Plant>(plant: &P, at: Spot, marked: Spot, body: &Body) -> Placement
    requires set { at.set < (P.state plant.now).journals }
    requires room { at.place + 24 ≤ (P.state plant.now).lengths (JournalDevice at.set) }
    ensures { result ≡ placement_from (P.state plant.now) at marked body.now.items }
{
    let needed = AROUND + body.bytes().len() as u64;
    if needed <= plant.length(Device::Journal(at.set)) - at.place {
        Placement::Here
    } else if next_set(plant.journals(), at.set) == marked.set {
        Placement::Marked
    } else {
        Placement::Switched
    }
}

/// Whether a record of the number `next` that is placed so would need a number after the greatest, or the mark before it.
pub(crate) fn record_needs_more(placement: Placement, next: u64, mark: u64) -> bool
    ensures { result ≡ record_needs_more placement next mark }
{
    match placement {
        Placement::Here => next > MOST,
        Placement::Switched => next >= MOST,
        Placement::Marked => next >= MOST || mark == MOST,
    }
}

/// The same of suspensions, which need no record where a mark tells them.
pub(crate) fn suspension_needs_more(placement: Placement, next: u64, mark: u64) -> bool
    ensures { result ≡ suspension_needs_more placement next mark }
{
    match placement {
        Placement::Here => next > MOST,
        Placement::Switched => next >= MOST,
        Placement::Marked => mark == MOST,
    }
}
