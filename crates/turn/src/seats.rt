//! What a thread calls with.

ghost use Rattle.std.specs.Prelude.{◌≡◌, []};
ghost use Rattle.turn.specs.Turn.{IsIdle};

use crate::view::View;
use atomic_table::Seat;

/// A seat of the table, with its view and the slot that it has taken.
pub type TurnPlace<X, E, R, N> = Seat<Option<X>, View<X, E, R, N>>;

/// The seat that the table is made with, which takes in the others at the end.
#[derive(Drop)]
pub struct MoverSeat<X, E, R, N> {
    pub place: TurnPlace<X, E, R, N>,
    ghost idle: { IsIdle place.me },
    ghost is_first: { place.id ≡ 0 },
}

/// A seat that was split off.
#[derive(Drop)]
pub struct ReaderSeat<X, E, R, N> {
    pub place: TurnPlace<X, E, R, N>,
    ghost idle: { IsIdle place.me },
}
