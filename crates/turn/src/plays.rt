//! What each step on the table tells.
ghost use Rattle.turn.specs.Turn.{at_draw_if, at_look, at_pass, joined_view, new_view, with_one_more, spent_view};

use crate::rule::Machine;
use crate::view::View;
use atomic_table::{Join, Play, Split};
use std::marker::PhantomData;

/// Names one call, for the proof alone.
pub trait Call<E, R, N> {
    ghost event: { E };

    ghost reply: { R };
    // The seat's note afterwards.
    ghost note: { N };
}

pub(crate) struct DrawIfNext;

impl<X, E, R, N> Play<Option<X>, View<X, E, R, N>> for DrawIfNext {
    ghost then = { λ step. at_draw_if step.first };
}

pub(crate) struct Look<M> {
    machine: PhantomData<M>,
}

impl<X, E, R, N, M: Machine<X, E, R, N>> Play<Option<X>, View<X, E, R, N>> for Look<M> {
    ghost then = { λ _. at_look M.steps M.says };
}

pub(crate) struct Pass<C> {
    call: PhantomData<C>,
}

impl<X, E, R, N, C: Call<E, R, N>> Play<Option<X>, View<X, E, R, N>> for Pass<C> {
    ghost then = { λ _. at_pass C.event C.reply C.note };
}

pub(crate) struct SplitOff;

impl<X, E, R, N> Split<View<X, E, R, N>> for SplitOff {
    ghost left = { with_one_more };

    ghost right = { new_view };
}

pub(crate) struct TakeIn;

impl<X, E, R, N> Join<View<X, E, R, N>> for TakeIn {
    ghost both = { joined_view };

    ghost spent = { spent_view };
}
