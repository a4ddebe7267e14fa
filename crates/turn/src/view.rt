//! What a seat knows. No value of these types is made.
use std::collections::LinkedList;

/// One call under the turn: its ticket, what was asked, and what came back.
pub struct Ticketed<E, R> {
    pub ticket: u64,
    pub event: E,
    pub reply: R,
}

pub enum SeatStage<X> {
    /// Its entries went over to another seat.
    Spent,
    Idle,
    /// The ticket that was drawn.
    Waits(u64),
    /// The ticket, and the state that came with the slot.
    InTurn(u64, X),
}

pub struct View<X, E, R, N> {
    /// The state that the table was made with, or none where the seat is spent.
    pub first: Option<X>,
    pub stage: SeatStage<X>,
    pub mine: LinkedList<Ticketed<E, R>>,
    /// The lists of the seats that it took in.
    pub joined: LinkedList<LinkedList<Ticketed<E, R>>>,
    /// The mover's: how many seats are not spent.
    pub seats: u64,
    /// What it knows of the state that is due.
    pub notes: LinkedList<N>,
}
