//! Sidefiles.

ghost use Rattle.std.specs.Prelude.{◌≡◌, ◌≤◌, ℕ, None, Some, IfOk, length};
ghost use Rattle.sidefile.specs.declared.hand.Halt.{Halt};
ghost use Rattle.sidefile.specs.ExactHands.{IsDue};
ghost use Rattle.sidefile.specs.Halts.{hand_of, halt_of, broken_in, reached};
ghost use Rattle.sidefile.specs.States.{IsSidefile, HoldsRun, HasFault, front_of, is_next_above, is_past};

use crate::hand::{Halt, Hand};
use crate::run::stamp_of;
use crate::turn::hand_over;
use ckd_track::Cause;
use std::alloc::Global;
use std::marker::Model;
use tod_stamp::Stamp;
use write_trace::{Entry, TraceReader};
use xrc_edge::{NoMemory, Source};

/// The writes of a controller's trace that were not yet handed over. It reads them from the source on which its reader was started, so
/// each handover takes that source.
#[derive(Drop)]
pub struct Sidefile {
    control: u16,
    waiting: Option<Entry>,
    reader: TraceReader,
    upto: Stamp,
    halted: Option<Halt>,
}

impl Model for Sidefile {
    ghost use Rattle.sidefile.specs.States.{SidefileState, IsSidefile};

    ghost Value = { SidefileState };

    ghost view = { λ s. record { control = s.control; waiting = s.waiting; reader = s.reader; upto = s.upto.0; halted = s.halted } };

    ghost invariant = { λ s. IsSidefile s.halted s.waiting s.reader s.upto.0 };
}

impl Sidefile {
    /// The sidefile of a controller, whose trace this reader reads on.
    pub fn make(_alloc: Global, control: u16, reader: TraceReader) -> Result<Sidefile, NoMemory>
        requires { reader.stopped ≡ None }
        ensures { IfOk result (λ side. side ≡ record { control = control; waiting = None; reader = reader; upto = 0; halted = None }) }
    {
        Ok(Sidefile {
            control,
            waiting: None,
            reader,
            upto: Stamp(0),
            halted: None,
        })
    }

    /// Hands over the writes of the next run up to the limit, which is not below the time up to which the controller has reported.
    /// A run has one stamp and at most `WRITES_OF_RUN` writes. Where one has more, or the trace ends badly in it, the controller is
    /// given up, and none of its writes is handed over.
    pub fn handover<S: Source>(&mut self, alloc: Global, source: &mut S, limit: Stamp) -> Hand
        requires { self.old.upto ≤ limit.0 }
        ensures due { self.old.halted ≡ None → IsDue self.old.control limit.0 (S.left source.old) (S.left source.new) (front_of self.old) (front_of self.new) result }
        ensures run { HoldsRun self.old.reader.volumes self.old.control self.old.upto limit.0 result }
        ensures fault { self.old.halted ≡ None → HasFault (S.faults source.old) (S.faults source.new) result }
        ensures halted { self.old.halted ≡ None → self.new.halted ≡ halt_of result }
        ensures reached { self.old.halted ≡ None → self.new.upto ≡ reached self.old.upto limit.0 result }

        // The time up to which the controller has reported never falls, and no entry up to it waits.
        ensures rises { self.old.upto ≤ self.new.upto }
        ensures within { self.new.upto ≤ limit.0 }
        ensures waiting { IsSidefile self.new.halted self.new.waiting self.new.reader self.new.upto }
        ensures control { self.new.control ≡ self.old.control }
        ensures volumes { self.new.reader.volumes ≡ self.old.reader.volumes }

        // A break and the want of memory are answered again.
        ensures again { (halt : Halt) → self.old.halted ≡ Some halt → (result ≡ hand_of halt) × (self.new ≡ self.old) }
        ensures unasked { (halt : Halt) → self.old.halted ≡ Some halt → source.new ≡ source.old }
    {
        if let Some(halt) = self.halted {
            return halt.hand();
        }
        let waiting = self.waiting.take();
        let turn = hand_over(
            self.control,
            &mut self.reader,
            alloc,
            source,
            waiting,
            limit,
        );
        self.upto = turn.hand.reached(self.upto, limit);
        self.halted = turn.hand.halt();
        self.waiting = turn.waiting;
        turn.hand
    }

    /// Whether the next entry is known to lie above a limit, or none to be left.
    fn is_next_above(&self, limit: Stamp) -> bool
        ensures { result ≡ is_next_above limit.0 self.now.waiting self.now.reader }
    {
        match &self.waiting {
            Some(entry) => stamp_of(entry).0 > limit.0,
            None => self.reader.has_stopped(),
        }
    }

    /// Whether the next handover up to a limit takes no entry, and asks the source for none.
    pub fn is_past(&self, limit: Stamp) -> bool
        ensures { result ≡ is_past limit.0 self.now }
    {
        self.halted.is_some() || self.is_next_above(limit)
    }

    /// How many bytes it holds of its source that are not read yet.
    pub fn held(&self) -> usize
        ensures { result ≡ length self.now.reader.left.bytes }
    {
        self.reader.held()
    }

    /// The place in the trace up to which its entries were read.
    pub fn place(&self) -> u64
        ensures { result ≡ self.now.reader.left.place }
    {
        self.reader.place()
    }

    /// The `upto` and the cause of the break that was answered; None exactly where none was.
    pub fn broken(&self) -> Option<(Stamp, Cause)>
        ensures { result ≡ broken_in self.now.halted }
    {
        match self.halted {
            Some(Halt::Broken { cause, upto }) => Some((upto, cause)),
            Some(Halt::NoMemory) | None => None,
        }
    }
}
