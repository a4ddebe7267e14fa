//! The group state as the machine of the turn. No value of these types is made: contracts see them as calls, replies and notes.

use group_state::GroupState;
use std::marker::{Brand, Model};
use turn::plays::Call;
use turn::rule::Machine;
use turn::seats::{MoverSeat, ReaderSeat, TurnPlace};
use turn::table::TurnTable;

/// What a call asks.
pub struct CallAsked;

impl Model for CallAsked {
    ghost use Rattle.group_state.specs.Machine.{Call};
    ghost use Rattle.group_state.specs.Machine.Call.{NextWanted};

    ghost Value = { Call };

    ghost view = { λ _. NextWanted 0 };
}

/// What a call replies.
pub struct Replied;

impl Model for Replied {
    ghost use Rattle.group_state.specs.Machine.{Reply};
    ghost use Rattle.group_state.specs.Machine.Reply.{Made};

    ghost Value = { Reply };

    ghost view = { λ _. Made };
}

/// What a seat knows of the state.
pub struct Noted;

impl Model for Noted {
    ghost use Rattle.std.specs.Prelude.{[]};
    ghost use Rattle.turn_group.specs.Notes.{SeatNote};
    ghost use Rattle.turn_group.specs.Notes.SeatNote.{MoverNote};

    ghost Value = { SeatNote };

    ghost view = { λ _. MoverNote (record { 0 = 0 }) [] };
}

/// The calls of the seats on the group state.
pub struct SeatCalls;

impl Machine<GroupState, CallAsked, Replied, Noted> for SeatCalls {
    ghost use Rattle.turn_group.specs.Calls.{seat_steps};
    ghost use Rattle.turn_group.specs.Notes.{part_of, says, notes_of};

    ghost steps = { seat_steps };

    ghost part = { part_of };

    ghost says = { says };

    ghost notes = { notes_of };
}

// A proof picks the call.
impl Call<CallAsked, Replied, Noted> for Brand {
    ghost use Rattle.std.specs.Prelude.{[]};
    ghost use Rattle.group_state.specs.Machine.Call.{NextWanted};
    ghost use Rattle.group_state.specs.Machine.Reply.{Made};
    ghost use Rattle.turn_group.specs.Notes.SeatNote.{MoverNote};

    ghost event = { NextWanted 0 };

    ghost reply = { Made };

    ghost note = { MoverNote (record { 0 = 0 }) [] };
}

pub type GroupTable = TurnTable<GroupState, CallAsked, Replied, Noted, SeatCalls>;

pub type GroupPlace = TurnPlace<GroupState, CallAsked, Replied, Noted>;

/// The mover's seat, as the table has it.
pub type FirstSeat = MoverSeat<GroupState, CallAsked, Replied, Noted>;

/// A reader's seat, as the table has it.
pub type OtherSeat = ReaderSeat<GroupState, CallAsked, Replied, Noted>;
