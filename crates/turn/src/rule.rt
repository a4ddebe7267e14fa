//! The rule of the table. Word 0 is the next ticket and word 1 the ticket that is served, each mod 2^64. The slot has the state.
ghost use Rattle.std.specs.Prelude.{ℕ, List};

use crate::view::View;
use atomic_table::TableRule;
use std::marker::PhantomData;
use std::snapshot::Snapshot;

/// What one event does, which may depend on what the machine finds, as on memory.
pub trait Machine<X, E, R, N> {
    // Of the state before, the event, the reply and the state after.
    ghost steps: { X → E → R → X → Type 0 };
    // Which part of the state a note is about.
    ghost part: { N → ℕ };
    // A note is true of a state.
    ghost says: { X → N → Type 0 };
    // The notes on a state with which a table is made: the mover's, and one for each reader.
    ghost notes: { X → List N };
}

/// The key is the state that the table is made with.
pub struct TakingTurns<M> {
    machine: PhantomData<M>,
}

impl<X, E, R, N, M: Machine<X, E, R, N>> TableRule<Option<X>, View<X, E, R, N>, Snapshot<X>>
    for TakingTurns<M> {
    ghost use Rattle.turn.specs.Turn.{Turns, first_view};

    ghost holds = { λ key. Turns M.steps M.part M.says key.value };

    ghost first = { λ key. first_view key.value (M.notes key.value) };
}
