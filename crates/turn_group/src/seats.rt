//! What the readers and the mover call with.

ghost use Rattle.std.specs.Prelude.{◌≡◌, ◌<◌, length, slice_get, slice_set, Some, None};
ghost use Rattle.turn_group.specs.Seats.{seat_at};

use crate::machine::{FirstSeat, OtherSeat};
use std::marker::Model;

/// The seat of a controller's reader.
#[derive(Drop)]
pub struct ReaderSeat {
    pub(crate) control: u16,
    pub(crate) seat: OtherSeat,
}

impl Model for ReaderSeat {
    ghost use Rattle.turn_group.specs.Seats.{ReaderSeatState, reader_view, IsReaderView};

    ghost Value = { ReaderSeatState };

    ghost view = { λ r. reader_view r.seat.place.table_id r.control r.seat.place.me.0 };

    ghost invariant = { λ r. IsReaderView r.control r.seat.place.me.0 };
}

impl ReaderSeat {
    /// The controller whose seat it is.
    pub fn control(&self) -> u16
        ensures { result ≡ self.now.control }
    {
        self.control
    }
}

/// The seat of the mover.
#[derive(Drop)]
pub struct MoverSeat {
    pub(crate) seat: FirstSeat,
}

impl Model for MoverSeat {
    ghost use Rattle.turn_group.specs.Seats.{MoverSeatState, mover_view, IsMoverView};

    ghost Value = { MoverSeatState };

    ghost view = { λ m. mover_view m.seat.place.table_id m.seat.place.me.0 };

    ghost invariant = { λ m. IsMoverView m.seat.place.me.0 };
}

/// The seats of the controllers, each at its controller's place. The list is made once, and its calls take no memory.
#[derive(Drop)]
pub struct SeatList {
    pub(crate) places: Vec<Option<ReaderSeat>>,
}

impl Model for SeatList {
    ghost use Rattle.std.specs.Prelude.{List, Option};
    ghost use Rattle.turn_group.specs.Seats.{ReaderSeatState, AreAtTheirPlaces};

    ghost Value = { List (Option ReaderSeatState) };

    ghost view = { λ s. s.places.items };

    ghost invariant = { λ s. AreAtTheirPlaces s.places.items };
}

impl SeatList {
    /// Takes the seat of a controller, where it is there.
    pub fn take(&mut self, control: u16) -> Option<ReaderSeat>
        ensures seat { result ≡ seat_at self.old control }
        ensures left { self.new ≡ slice_set self.old control None }
    {
        if control as usize >= self.places.len() {
            return None;
        }
        self.places[control as usize].take()
    }

    /// Puts a seat at its controller's place, which is empty.
    pub fn put(&mut self, seat: ReaderSeat)
        requires empty { slice_get self.old seat.control ≡ Some None }
        ensures { self.new ≡ slice_set self.old seat.control (Some seat) }
    {
        let place = seat.control as usize;
        self.places[place] = Some(seat);
    }
}
