//! The table of a session's group state, and its calls.

ghost use Rattle.std.specs.Prelude.{◌≡◌, ◌+◌, ◌<◌, ◌≤◌, [], ◌∷◌, length, map, IfOk, IfSome, IsTrue, All};
ghost use Rattle.ckd_track.specs.declared.write.Batch.{Batch as BatchIs};
ghost use Rattle.pending_queue.specs.declared.room.Room.{Room};
ghost use Rattle.group_state.specs.declared.joining.Joining.TheVariants as joining;
ghost use Rattle.group_state.specs.Groups.{shown_in};
ghost use Rattle.group_state.specs.Machine.Call.{Join, NextWanted, Copied, Raise, Break, Form, Drop as Drops};
ghost use Rattle.group_state.specs.Machine.Reply.{Made, Wanted};
ghost use Rattle.group_state.specs.Answers.{join_reply, run_reply, copy_reply, form_reply};
ghost use Rattle.turn_group.specs.Seats.{new_mover, new_readers, SeatMayReport, SeatMayJoin, SeatMayCopy, is_track_of_control, ReaderCalled, MoverCalled, IsSeated, calls_at, AllFrom, AreAtTheirPlaces, IsOwn};
ghost use Rattle.turn.specs.Turn.{IsSameSeat, first_view, lists};
ghost use Rattle.std.specs.List.{list_all};
ghost use Rattle.group_state.specs.SoundStates.{IsGroupSound};
ghost use Rattle.turn_group.specs.Notes.{KeepsNotes, notes_of, is_of_carried, says};
ghost use Rattle.turn_group.specs.Notes.SeatNote.{MoverNote};
ghost use Rattle.turn_group.specs.Histories.{OneHistory};

use crate::copying::{join_copy, next_wanted};
use crate::joining::join_run;
use crate::machine::{FirstSeat, GroupTable};
use crate::moving::{drop_volume, form};
use crate::reporting::{mark_broken, raise};
use crate::seats::{MoverSeat, ReaderSeat, SeatList};
use ckd_track::{Batch, Cause, Slot};
use group_state::{CopyJoin, Forming, GroupState, Joining, RunJoin};
use pending_queue::Formed;
use std::alloc::Global;
use std::marker::Model;
use std::sync::Wait;
use tod_stamp::Stamp;
use xrc_edge::NoMemory;

/// The group state under the turn, for one epoch.
#[derive(Drop)]
pub struct TurnGroup {
    table: GroupTable,
}

impl Model for TurnGroup {
    ghost use Rattle.turn_group.specs.Seats.{TurnState};

    ghost Value = { TurnState };

    ghost view = { λ g. record { table = g.table.board.shared.table_id; first = g.table.board.shared.key.value } };
}

impl TurnGroup {
    /// The state goes into a table of its own, with a seat for the mover and one for each controller. After want of memory the state is
    /// dropped.
    pub fn make(
        alloc: Global,
        state: GroupState,
    ) -> Result<(TurnGroup, MoverSeat, SeatList), NoMemory>
        ensures group { IfOk result (λ t. t.0.first ≡ state) }
        ensures mover { IfOk result (λ t. t.1 ≡ new_mover t.0.table state (length state.controls + 1)) }
        ensures seats { IfOk result (λ t. t.2 ≡ new_readers t.0.table state (length state.controls)) }
        ensures kept { IfOk result (λ t. IsGroupSound t.0.first) }
    {
        let controls = state.controls();
        let mut places = Vec::with_capacity(alloc, controls as usize)?;
        let (table, mut mover) = open(alloc, state)?;
        for control in 0..controls {
            let seat = table.split(&mut mover);
            places.push_reserved(Some(ReaderSeat { control, seat }));
        }
        Ok((
            TurnGroup { table },
            MoverSeat { seat: mover },
            SeatList { places },
        ))
    }

    /// Joins a batch of the seat's controller, or gives it back.
    pub fn join_batch<W: Wait>(&self, rt: &W, seat: &mut ReaderSeat, batch: Batch) -> Joining
        requires table { seat.old.table ≡ self.now.table }
        requires may { SeatMayJoin seat.old batch }
        ensures called { ReaderCalled seat.old (Join batch) (join_reply result) seat.new }
        ensures back { (b : BatchIs) (room : Room) → result ≡ joining.Held b room → b ≡ batch }
    {
        match self.join_batch_ref(rt, seat, &batch) {
            RunJoin::Joined => Joining::Joined,
            RunJoin::Held(room) => Joining::Held { batch, room },
        }
    }

    /// Joins a batch that is lent, as `join_batch` does.
    pub fn join_batch_ref<W: Wait>(&self, rt: &W, seat: &mut ReaderSeat, batch: &Batch) -> RunJoin
        requires table { seat.old.table ≡ self.now.table }
        requires may { SeatMayJoin seat.old batch.now }
        ensures called { ReaderCalled seat.old (Join batch.now) (run_reply result) seat.new }
    {
        join_run(&self.table, rt, &mut seat.seat.place, batch)
    }

    /// The volume and the track that the reader copies next; None where no volume of its controller wants a track. The controller had
    /// that track when the table was made, as `join_copy` asks.
    pub fn next_wanted<W: Wait>(&self, rt: &W, seat: &mut ReaderSeat) -> Option<(u16, u32)>
        requires table { seat.old.table ≡ self.now.table }
        ensures called { ReaderCalled seat.old (NextWanted seat.old.control) (Wanted result) seat.new }
        ensures within { IfSome result (λ p. IsTrue (is_track_of_control seat.old.first seat.old.control p.0 p.1)) }
    {
        next_wanted(&self.table, rt, &mut seat.seat.place, seat.control)
    }

    /// Joins a track that was copied, where it is still wanted.
    pub fn join_copy<W: Wait>(
        &self,
        rt: &W,
        seat: &mut ReaderSeat,
        volume: u16,
        track: u32,
        at: Stamp,
        slot: &Slot,
    ) -> CopyJoin
        requires table { seat.old.table ≡ self.now.table }
        requires may { SeatMayCopy seat.old volume track at }
        ensures called { ReaderCalled seat.old (Copied seat.old.control volume track at slot.now) (copy_reply result) seat.new }
    {
        join_copy(
            &self.table,
            rt,
            &mut seat.seat.place,
            seat.control,
            volume,
            track,
            at,
            slot,
        )
    }

    /// The seat's controller has no further write up to a time.
    pub fn raise<W: Wait>(&self, rt: &W, seat: &mut ReaderSeat, upto: Stamp)
        requires table { seat.old.table ≡ self.now.table }
        requires may { SeatMayReport seat.old upto }
        ensures called { ReaderCalled seat.old (Raise seat.old.control upto) Made seat.new }
    {
        raise(&self.table, rt, &mut seat.seat.place, seat.control, upto);
    }

    /// The seat's controller breaks at a time, up to which its writes are known.
    pub fn mark_broken<W: Wait>(&self, rt: &W, seat: &mut ReaderSeat, upto: Stamp, cause: Cause)
        requires table { seat.old.table ≡ self.now.table }
        requires may { SeatMayReport seat.old upto }
        ensures called { ReaderCalled seat.old (Break seat.old.control upto cause) Made seat.new }
    {
        mark_broken(
            &self.table,
            rt,
            &mut seat.seat.place,
            seat.control,
            upto,
            cause,
        );
    }

    /// Forms a group at the least of the limit and the floors of all controllers whose break isn't reported.
    pub fn form<W: Wait>(
        &self,
        rt: &W,
        seat: &mut MoverSeat,
        limit: Stamp,
        out: &mut Formed,
    ) -> Forming
        requires table { seat.old.table ≡ self.now.table }
        requires limit { seat.old.last.0 ≤ limit.0 }
        requires room { length seat.old.known ≤ out.old.controls }
        ensures called { MoverCalled seat.old (Form limit) (form_reply result (shown_in out.new)) seat.new }
        ensures room { out.new.controls ≡ out.old.controls }
        // Cuts don't fall.
        ensures from { seat.old.last.0 ≤ out.new.cut.0 }
        ensures upto { out.new.cut.0 ≤ limit.0 }
        // Where the queues were orderly when the table was made, each entry is on a volume that the mover knows as carried.
        ensures carried { IsTrue (list_all (is_of_carried seat.old.known) out.new.entries) }
    {
        form(&self.table, rt, &mut seat.seat.place, limit, out)
    }

    /// A volume is carried no longer, and its entries that wait are taken out. Its map then holds their tracks, or all.
    pub fn drop_volume<W: Wait>(
        &self,
        rt: &W,
        seat: &mut MoverSeat,
        control: u16,
        volume: u16,
        all: bool,
    )
        requires table { seat.old.table ≡ self.now.table }
        requires control { control < length seat.old.known }
        ensures called { MoverCalled seat.old (Drops control volume all) Made seat.new }
    {
        drop_volume(&self.table, rt, &mut seat.seat.place, control, volume, all);
    }

    /// Gives the state back, once all seats of this group are handed in. The calls of the seats are one history of the state. The
    /// last cut and the volumes are those that the mover's seat knows.
    pub fn close(self, mover: MoverSeat, readers: SeatList) -> GroupState
        requires mover { mover.table ≡ self.table }
        requires readers { All (IsSeated self.table) readers }
        requires all { mover.seats ≡ length readers + 1 }
        ensures history { OneHistory self.first mover.calls (map calls_at readers) result }
        ensures known { says result (MoverNote mover.last mover.known) }
    {
        let TurnGroup { table } = self;
        let MoverSeat { seat } = mover;
        let SeatList { places } = readers;
        let seat = gather(&table, seat, places);
        table.close(seat)
    }
}

/// A table with the state, and the seat of the mover, whose view has the notes of all seats.
fn open(alloc: Global, state: GroupState) -> Result<(GroupTable, FirstSeat), NoMemory>
    ensures state { IfOk result (λ t. t.0.board.shared.key.value ≡ state) }
    ensures table { IfOk result (λ t. t.1.place.table_id ≡ t.0.board.shared.table_id) }
    ensures view { IfOk result (λ t. t.1.place.me.0 ≡ first_view state (notes_of state)) }
{
    Ok(GroupTable::make(alloc, state)?)
}

/// The mover's seat takes in the seats of the readers.
fn gather(
    table: &GroupTable,
    mut mover: FirstSeat,
    mut places: Vec<Option<ReaderSeat>>,
) -> FirstSeat
    requires mover { mover.place.table_id ≡ table.now.board.shared.table_id }
    requires readers { All (IsSeated table.now.board.shared.table_id) places.items }
    requires places { AreAtTheirPlaces places.items }
    requires all { mover.place.me.0.seats ≡ length places.items + 1 }
    requires unjoined { mover.place.me.0.joined ≡ [] }
    ensures same { IsSameSeat mover.place result.place }
    ensures alone { result.place.me.0.seats ≡ 1 }
    ensures lists { lists result.place.me.0 ≡ mover.place.me.0.mine ∷ map calls_at places.items }
    ensures own { AllFrom IsOwn 0 (map calls_at places.items) }
    ensures noted { KeepsNotes mover.place.me.0.notes result.place.me.0.notes }
{
    while let Some(place) = places.pop() {
        if let Some(reader) = place {
            table.join(&mut mover, reader.seat);
        }
    }
    mover
}
