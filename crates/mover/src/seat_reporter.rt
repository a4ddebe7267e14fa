//! A seat as what a feed reports.

ghost use Rattle.std.specs.Prelude.{◌≡◌};
ghost use Rattle.mover.specs.Readers.{SitsAt};

use ckd_track::{Batch, Cause, Slot};
use fed_logs::Reporter;
use group_state::{CopyJoin, RunJoin};
use std::marker::{Brand, PhantomData};
use std::sync::Wait;
use tod_stamp::Stamp;
use turn_group::{ReaderSeat, TurnGroup};

/// At which table a seat is, and of which volumes its controller's trace is. A proof picks them.
pub(crate) trait Sitting {
    ghost use Rattle.std.specs.Prelude.{List};
    ghost use Rattle.write_trace.specs.declared.header.VolumeHead.{VolumeHead};
    ghost use Rattle.turn_group.specs.Seats.{TurnState};

    ghost table: { TurnState };

    ghost volumes: { List VolumeHead };
}

impl Sitting for Brand {
    ghost use Rattle.std.specs.Prelude.{[]};
    ghost use Rattle.mover.specs.Readers.{no_table};

    ghost table = { no_table };

    ghost volumes = { [] };
}

/// A reader's seat at its table, for the calls of the reader's feed.
#[derive(Drop)]
pub(crate) struct SeatReporter<'a, W, B: Sitting> {
    pub(crate) rt: &'a W,
    pub(crate) group: &'a TurnGroup,
    pub(crate) seat: ReaderSeat,
    /// Whether a wanted track was told.
    pub(crate) has_copied: bool,
    pub(crate) sitting: PhantomData<B>,
    ghost table: { group.now ≡ B.table },
    ghost sits: { SitsAt B.table B.volumes seat },
}

impl<'a, W: Wait, B: Sitting> Reporter for SeatReporter<'a, W, B> {
    ghost use Rattle.mover.specs.Readers.{reporter_of};

    ghost state = { λ t. reporter_of B.volumes t.seat };

    fn join(&mut self, batch: &Batch) -> RunJoin {
        self.group.join_batch_ref(self.rt, &mut self.seat, batch)
    }

    fn next_wanted(&mut self) -> Option<(u16, u32)> {
        self.group.next_wanted(self.rt, &mut self.seat)
    }

    fn join_copy(&mut self, volume: u16, track: u32, at: Stamp, slot: &Slot) -> CopyJoin {
        self.has_copied = true;
        self.group
            .join_copy(self.rt, &mut self.seat, volume, track, at, slot)
    }

    fn raise(&mut self, upto: Stamp) {
        self.group.raise(self.rt, &mut self.seat, upto);
    }

    fn mark_broken(&mut self, upto: Stamp, cause: Cause) {
        self.group.mark_broken(self.rt, &mut self.seat, upto, cause);
    }
}
