//! Seats handed to the readers of lanes, and handed back.

ghost use Rattle.std.specs.Prelude.{◌≡◌, ◌<◌, ◌≤◌, ℕ, length, slice_get, slice_index_or, slice_set, replicate, None, Some};
ghost use Rattle.xrc_edge.specs.declared.limits.TheConstants.{MOST_CONTROLS};
ghost use Rattle.mover.specs.Lanes.{GivesSeat, HasFreePlace, HasReader, HasSeatOf, LaneGivesSeat, LaneTakesSeat};

use crate::lane::Lane;
use turn_group::SeatList;

/// Hands a lane's reader the seat of its controller.
fn take_seat<S>(lane: &mut Lane<S>, seats: &mut SeatList, control: u16)
    requires reader { HasReader lane.old }
    ensures takes { LaneTakesSeat seats.old control lane.old lane.new }
    ensures left { seats.new ≡ slice_set seats.old control None }
{
    if let Some(reader) = &mut lane.reader {
        reader.seat = seats.take(control);
        reader.last = None;
    }
}

/// Hands each lane's reader the seat of its controller.
pub(crate) fn hand_out<S>(lanes: &mut [Lane<S>], seats: &mut SeatList)
    requires few { length lanes.old ≤ MOST_CONTROLS }
    requires readers { (k : ℕ) (d : _) → k < length lanes.old → HasReader (slice_index_or lanes.old k d) }
    ensures same { length lanes.new ≡ length lanes.old }
    ensures takes { (k : ℕ) (d : _) → k < length lanes.old → LaneTakesSeat seats.old k (slice_index_or lanes.old k d) (slice_index_or lanes.new k d) }
    ensures left { length seats.old ≡ length lanes.old → seats.new ≡ replicate (length lanes.old) None }
{
    for place in 0..lanes.len() {
        take_seat(&mut lanes[place], seats, place as u16);
    }
}

/// Puts the seat of a lane's reader back at its controller's place.
fn give_seat<S>(lane: &mut Lane<S>, seats: &mut SeatList)
    requires seated { HasFreePlace seats.old lane.old }
    ensures gives { GivesSeat seats.old seats.new lane.old lane.new }
{
    if let Some(reader) = &mut lane.reader {
        if let Some(seat) = reader.seat.take() {
            seats.put(seat);
        }
    }
}

/// Puts the seats of the lanes' readers back at their places.
pub(crate) fn hand_back<S>(lanes: &mut [Lane<S>], seats: &mut SeatList)
    requires empty { seats.old ≡ replicate (length lanes.old) None }
    requires seated { (k : ℕ) (d : _) → k < length lanes.old → HasSeatOf k (slice_index_or lanes.old k d) }
    ensures same { length lanes.new ≡ length lanes.old }
    ensures gives { (k : ℕ) (d : _) → k < length lanes.old → LaneGivesSeat seats.new k (slice_index_or lanes.old k d) (slice_index_or lanes.new k d) }
    ensures all { length seats.new ≡ length lanes.old }
{
    for place in 0..lanes.len() {
        give_seat(&mut lanes[place], seats);
    }
}
