//! The table, and what a seat does in its turn.

ghost use Rattle.std.specs.Prelude.{◌≡◌, ℕ, ◌+◌, ◌%◌, ◌^◌, ◌<◌, ◌≤◌, [], ◌∷◌, IfOk, true, false};
ghost use Rattle.turn.specs.Turn.{staged, AllTrue, notes_about, IsIdle, IsSameSeat, OneRun, IsServed, Took, MayPass, HasPassed, with_one_more, new_view, first_view, joined_view, lists};
ghost use Rattle.turn.specs.declared.view.SeatStage.TheVariants.{Idle, Waits};

use crate::plays::{Call, DrawIfNext, Look, Pass, SplitOff, TakeIn};
use crate::rule::{Machine, TakingTurns};
use crate::seats::{MoverSeat, ReaderSeat, TurnPlace};
use crate::view::View;
use atomic_table::Table;
use std::alloc::{AllocError, Global};
use std::snapshot::Snapshot;
use std::sync::Wait;
use std::{hint, thread};

/// The table of the words and the slot; its key is the state that it was made with.
pub type Board<X, E, R, N, M> = Table<
    Option<X>,
    View<X, E, R, N>,
    Snapshot<X>,
    TakingTurns<M>,
    Global,
>;

/// The most seats of a table: the mover's, and sixteen of readers.
pub const MOST_SEATS: u64 = 17;

/// How often a seat looks at the serving word before it yields the processor at each further look.
const TRIES_BEFORE_YIELD: u32 = 64;

/// A machine's state, at which seats work one after the other, in the order of the tickets that they draw.
#[derive(Drop)]
pub struct TurnTable<X: Drop, E, R, N, M: Machine<X, E, R, N>> {
    pub board: Board<X, E, R, N, M>,
    ghost sized: { (board.shared.table_id.words ≡ 2) × (board.shared.table_id.slots ≡ 1) },
}

impl<X: Drop, E, R, N, M: Machine<X, E, R, N>> TurnTable<X, E, R, N, M> {
    /// The state goes into the slot. The mover's seat knows the notes of all seats, its own first.
    pub fn make(
        alloc: Global,
        state: X,
    ) -> Result<(TurnTable<X, E, R, N, M>, MoverSeat<X, E, R, N>), AllocError>
        requires notes { AllTrue M.says state (M.notes state) }
        requires apart { (k : ℕ) → notes_about M.part k (M.notes state) ≤ 1 }
        ensures state { IfOk result (λ t. t.0.board.shared.key.value ≡ state) }
        ensures table { IfOk result (λ t. t.1.place.table_id ≡ t.0.board.shared.table_id) }
        ensures view { IfOk result (λ t. t.1.place.me.0 ≡ first_view state (M.notes state)) }
    {
        let key = Snapshot::of(&state);
        let mut slots = Vec::new(alloc);
        slots.push(Some(state))?;
        let Ok((board, place)) = Table::new(alloc, &[0, 0], slots, &key) else {
            return Err(AllocError);
        };
        Ok((TurnTable { board }, MoverSeat { place }))
    }

    /// One seat more. It gets the mover's second note.
    pub fn split(&self, mover: &mut MoverSeat<X, E, R, N>) -> ReaderSeat<X, E, R, N>
        requires table { mover.old.place.table_id ≡ self.now.board.shared.table_id }
        requires room { mover.old.place.me.0.seats < MOST_SEATS }
        ensures same { IsSameSeat mover.old.place mover.new.place }
        ensures mover { mover.new.place.me.0 ≡ with_one_more mover.old.place.me.0 }
        ensures table { result.place.table_id ≡ self.now.board.shared.table_id }
        ensures reader { result.place.me.0 ≡ new_view mover.old.place.me.0 }
    {
        ReaderSeat {
            place: self.board.shared.split_seat::<SplitOff>(&mut mover.place),
        }
    }

    /// Draws a ticket once nobody has a turn, waits until it is served, and takes the state.
    pub fn take_turn<W: Wait>(&self, rt: &W, place: &mut TurnPlace<X, E, R, N>) -> X
        requires table { place.old.table_id ≡ self.now.board.shared.table_id }
        requires idle { IsIdle place.old.me }
        ensures same { IsSameSeat place.old place.new }
        ensures turn { Took M.steps M.says place.old result place.new }
    {
        let ticket = self.draw(rt, place);
        self.wait(rt, place, ticket);
        self.board.shared.exchange(place, 0, None).unwrap()
    }

    /// Puts the state back, and passes the turn. `C` names the call; its last two arguments are what was asked and what is replied.
    pub fn pass_turn<C: Call<E, R, N>, A, B>(
        &self,
        place: &mut TurnPlace<X, E, R, N>,
        state: X,
        _asked: &A,
        _reply: &B,
    )
        requires table { place.old.table_id ≡ self.now.board.shared.table_id }
        requires call { MayPass M.steps M.part M.says place.old C.event C.reply C.note state }
        ensures same { IsSameSeat place.old place.new }
        ensures passed { HasPassed place.old C.event C.reply C.note place.new }
    {
        self.board.shared.exchange(place, 0, Some(state));
        self.board.shared.fetch_add::<Pass<C>>(place, 1, 1);
    }

    /// Draws the next ticket where it is the one that is served, so that no other seat waits after it for a thread that does not run.
    /// A seat that has passed its turn may so take the next one, too.
    fn draw<W: Wait>(&self, rt: &W, place: &mut TurnPlace<X, E, R, N>) -> u64
        requires table { place.old.table_id ≡ self.now.board.shared.table_id }
        requires idle { place.old.me.0.stage ≡ Idle }
        ensures same { IsSameSeat place.old place.new }
        ensures drew { (t : ℕ) × (result ≡ t % 2 ^ 64) × (place.new.me ≡ (staged place.old.me.0 (Waits t), place.old.me.1)) }
    {
        let mut tries = 0;
        for _ in rt.forever() {
            let served = self.board.shared.peek(1);
            if self.board.shared.peek(0) == served && self.try_draw(place, served) {
                return served;
            }
            pause(&mut tries);
        }
        unreachable!()
    }

    /// Draws this ticket, if it is the next one.
    fn try_draw(&self, place: &mut TurnPlace<X, E, R, N>, ticket: u64) -> bool
        requires table { place.old.table_id ≡ self.now.board.shared.table_id }
        requires idle { place.old.me.0.stage ≡ Idle }
        ensures same { IsSameSeat place.old place.new }
        ensures drew { result ≡ true → (t : ℕ) × (ticket ≡ t % 2 ^ 64) × (place.new.me ≡ (staged place.old.me.0 (Waits t), place.old.me.1)) }
        ensures left { result ≡ false → place.new.me ≡ place.old.me }
    {
        let next = ticket.wrapping_add(1);
        self.board
            .shared
            .compare_exchange::<DrawIfNext>(place, 0, ticket, next)
            == ticket
    }

    /// Waits until the ticket is served. Then the slot is out with the seat. A seat yields the processor after some tries, since
    /// seats may outnumber processors.
    fn wait<W: Wait>(&self, rt: &W, place: &mut TurnPlace<X, E, R, N>, ticket: u64)
        requires table { place.old.table_id ≡ self.now.board.shared.table_id }
        requires drew { (t : ℕ) × (ticket ≡ t % 2 ^ 64) × (place.old.me.0.stage ≡ Waits t) }
        requires bare { place.old.me.1 ≡ [] }
        ensures same { IsSameSeat place.old place.new }
        ensures turn { IsServed M.steps M.says place.old place.new }
    {
        let mut tries = 0;
        for _ in rt.forever() {
            if self.board.shared.load::<Look<M>>(place, 1) == ticket {
                return;
            }
            pause(&mut tries);
        }
        unreachable!()
    }

    /// The mover's seat takes in the lists and the notes of another seat, which is handed in.
    pub fn join(&self, mover: &mut MoverSeat<X, E, R, N>, reader: ReaderSeat<X, E, R, N>)
        requires mover { mover.old.place.table_id ≡ self.now.board.shared.table_id }
        requires reader { reader.place.table_id ≡ self.now.board.shared.table_id }
        ensures same { IsSameSeat mover.old.place mover.new.place }
        ensures joined { mover.new.place.me.0 ≡ joined_view mover.old.place.me.0 reader.place.me.0 }
    {
        let ReaderSeat { place } = reader;
        self.board
            .shared
            .join_seat::<TakeIn>(&mut mover.place, place);
    }

    /// Gives the state back, when all other seats are handed in. The lists that the mover's seat took in, after its own, are one
    /// run of the machine.
    pub fn close(self, mover: MoverSeat<X, E, R, N>) -> X
        requires table { mover.place.table_id ≡ self.board.shared.table_id }
        requires all { mover.place.me.0.seats ≡ 1 }
        ensures run { OneRun M.steps self.board.shared.key.value (lists mover.place.me.0) result }
        ensures noted { AllTrue M.says result mover.place.me.0.notes }
    {
        let MoverSeat { place } = mover;
        let TurnTable { board } = self;
        let mut closed = board.close_with(place);
        let state = closed.take(0).unwrap();
        closed.free();
        state
    }
}

/// Pauses between two looks at the serving word.
fn pause(tries: &mut u32) {
    if *tries < TRIES_BEFORE_YIELD {
        *tries += 1;
        hint::spin_loop();
    } else {
        thread::yield_now();
    }
}
