//! A lane's feed.

ghost use Rattle.std.specs.Prelude.{◌≡◌, ◌≤◌, ◌<◌, ℕ, [], List, None, Some, Option, IfOk, IfSome, length};
ghost use Rattle.sidefile.specs.Halts.{broken_in};
ghost use Rattle.sidefile.specs.declared.hand.Halt.{Halt as HaltIs};
ghost use Rattle.sidefile.specs.declared.hand.Halt.TheVariants as halts;
ghost use Rattle.fed_logs.specs.declared.reading.Reading.TheVariants as readings;
ghost use Rattle.fed_logs.specs.LaneFeeds.{has_nothing_to};
ghost use Rattle.fed_logs.specs.Steps.{IsIdle};
ghost use Rattle.pending_queue.specs.declared.room.Room.{Room as RoomIs};
ghost use Rattle.fed_logs.specs.Reporters.{IsToldBy, HoldsBatch, IsRefusedBy, StandsAs, StandsAsOrHolds, HasFaultBy, StepsOn, ReportsOn, ReportsUpTo, BreaksBelow, IsCopiedBy};

use crate::reading::Reading;
use crate::reporter::Reporter;
use ckd_track::{Batch, Cause, Slot};
use group_state::{CopyJoin, RunJoin};
use primary_ctl::Primary;
use sidefile::{Halt, Hand, Sidefile};
use std::alloc::Global;
use std::marker::Model;
use tod_stamp::Stamp;
use xrc_edge::Source;

/// What a controller's lane reads of its trace: its sidefile, its primary volumes, and the batch that was handed over and isn't joined yet.
/// The primary takes a batch over once it is joined.
#[derive(Drop)]
pub struct Feed {
    side: Sidefile,
    primary: Primary,
    held: Option<Batch>,
    halted: Option<Halt>,
}

impl Model for Feed {
    ghost use Rattle.fed_logs.specs.LaneFeeds.{FeedState, IsFeedSound};

    ghost Value = { FeedState };

    ghost view = { λ f. record { side = f.side; primary = f.primary; held = f.held; halted = f.halted } };

    ghost invariant = { λ f. IsFeedSound f.halted f.side f.primary f.held };
}

impl Feed {
    /// The feed of a sidefile and of the primary that has taken over what the sidefile handed over. The sidefile may have broken; it
    /// didn't want memory.
    pub fn make(side: Sidefile, primary: Primary) -> Feed
        requires usable { side.halted ≡ Some halts.NoMemory → ⊥ }
        requires volumes { primary.volumes ≡ side.reader.volumes }
        requires even { primary.time ≡ side.upto }
        ensures { result ≡ record { side = side; primary = primary; held = None; halted = side.halted } }
    {
        let halted = side
            .broken()
            .map(|(upto, cause)| Halt::Broken { cause, upto });
        Feed {
            side,
            primary,
            held: None,
            halted,
        }
    }

    /// The `upto` and the cause of the break; None exactly where the feed hasn't broken.
    pub fn broken(&self) -> Option<(Stamp, Cause)>
        ensures { result ≡ broken_in self.now.halted }
    {
        match self.halted {
            Some(Halt::Broken { cause, upto }) => Some((upto, cause)),
            Some(Halt::NoMemory) | None => None,
        }
    }

    /// Whether its next step up to a limit joins no batch, and asks the source for nothing.
    pub fn is_past(&self, limit: Stamp) -> bool
        ensures { result ≡ has_nothing_to limit.0 self.now }
    {
        self.halted.is_some() || (self.held.is_none() && self.side.is_past(limit))
    }

    /// How many bytes it holds of its source that are not read yet.
    pub fn held(&self) -> usize
        ensures { result ≡ length self.now.side.reader.left.bytes }
    {
        self.side.held()
    }

    /// The place in the trace up to which its entries were read.
    pub fn place(&self) -> u64
        ensures { result ≡ self.now.side.reader.left.place }
    {
        self.side.place()
    }

    /// Joins the batch that is held, if there is room for it. Then the primary takes it over.
    fn join_held<T: Reporter>(&mut self, alloc: Global, reporter: &mut T) -> Reading
        requires goes_on { self.old.halted ≡ None }
        requires held { HoldsBatch self.old.held }
        requires told { IsToldBy self.old (T.state reporter.old) }
        ensures steps { (left : Option (List ℕ)) (limit : _) → StepsOn left left limit self.old self.new (T.state reporter.old) (T.state reporter.new) }
        ensures told { IsToldBy self.new (T.state reporter.new) }
        ensures side { self.new.side ≡ self.old.side }
        ensures stands { (limit : ℕ) → StandsAs result limit self.new }
        ensures fault { (n : ℕ) → HasFaultBy n n self.new.halted }
        ensures refused { IsRefusedBy result self.new (T.state reporter.old) (T.state reporter.new) }
        ensures rises { result ≡ readings.Joined → self.old.primary.time < self.new.primary.time }
    {
        let Some(batch) = self.held.take() else {
            return Reading::Joined;
        };
        match reporter.join(&batch) {
            RunJoin::Joined => match self.primary.step(alloc, &batch) {
                Ok(()) => Reading::Joined,
                Err(_) => {
                    self.halted = Some(Halt::NoMemory);
                    Reading::NoMemory
                }
            },
            RunJoin::Held(room) => {
                self.held = Some(batch);
                Reading::Held(room)
            }
        }
    }

    /// Hands over what is due up to a limit. A batch is held at first; then there is no answer yet.
    fn hand_over<S: Source, T: Reporter>(
        &mut self,
        alloc: Global,
        source: &mut S,
        reporter: &mut T,
        limit: Stamp,
    ) -> Option<Reading>
        requires idle { IsIdle self.old }
        requires told { IsToldBy self.old (T.state reporter.old) }
        requires limit { self.old.side.upto ≤ limit.0 }
        ensures steps { StepsOn (S.left source.old) (S.left source.new) limit self.old self.new (T.state reporter.old) (T.state reporter.new) }
        ensures told { IsToldBy self.new (T.state reporter.new) }
        ensures within { self.new.side.upto ≤ limit.0 }
        ensures stands { StandsAsOrHolds result limit.0 self.new }
        ensures fault { HasFaultBy (S.faults source.old) (S.faults source.new) self.new.halted }
        ensures time { result ≡ None → self.new.primary.time ≡ self.old.primary.time }
        ensures joins_none { result ≡ Some readings.Joined → ⊥ }
        ensures refuses_none { (room : RoomIs) → result ≡ Some (readings.Held room) → ⊥ }
        ensures untold { result ≡ None → reporter.new ≡ reporter.old }
    {
        match self.side.handover(alloc, source, limit) {
            Hand::Batch(batch) => {
                self.held = Some(batch);
                None
            }
            Hand::AtLimit => {
                reporter.raise(limit);
                self.primary.pass(limit);
                Some(Reading::AtLimit)
            }
            Hand::Broken { cause, upto } => {
                reporter.mark_broken(upto, cause);
                self.primary.pass(upto);
                self.halted = Some(Halt::Broken { cause, upto });
                Some(Reading::Broken)
            }
            Hand::NoMemory => {
                self.halted = Some(Halt::NoMemory);
                Some(Reading::NoMemory)
            }
        }
    }

    /// One step of a reader towards a limit: it joins the batch that is held, or takes one over and joins it, or comes to the limit. A feed
    /// that reads no further answers so again, and asks its source for nothing.
    pub fn read_once<S: Source, T: Reporter>(
        &mut self,
        alloc: Global,
        source: &mut S,
        reporter: &mut T,
        limit: Stamp,
    ) -> Reading
        requires told { IsToldBy self.old (T.state reporter.old) }
        requires limit { self.old.side.upto ≤ limit.0 }
        ensures reads { ReportsOn (S.left source.old) (S.left source.new) self.old self.new (T.state reporter.old) (T.state reporter.new) }
        // Each handover takes the limit.
        ensures up_to { ReportsUpTo limit.0 (S.left source.old) (S.left source.new) self.old self.new (T.state reporter.old) (T.state reporter.new) }
        ensures below { BreaksBelow limit.0 (S.left source.old) self.old self.new (T.state reporter.old) (T.state reporter.new) }
        ensures told { IsToldBy self.new (T.state reporter.new) }
        ensures within { self.new.side.upto ≤ limit.0 }
        ensures stands { StandsAs result limit.0 self.new }
        ensures fault { self.old.halted ≡ None → HasFaultBy (S.faults source.old) (S.faults source.new) self.new.halted }
        ensures unasked { (halt : HaltIs) → self.old.halted ≡ Some halt → source.new ≡ source.old }
        // A batch that is held was reported in this step.
        ensures refused { IsRefusedBy result self.new (T.state reporter.old) (T.state reporter.new) }
        ensures rises { result ≡ readings.Joined → self.old.primary.time < self.new.primary.time }
    {
        if let Some(halt) = self.halted {
            return Reading::again(halt);
        }
        if self.held.is_some() {
            return self.join_held(alloc, reporter);
        }
        match self.hand_over(alloc, source, reporter, limit) {
            Some(reading) => reading,
            None => self.join_held(alloc, reporter),
        }
    }

    /// One step of a reader that copies: it asks which track is wanted next, and reports that track as the primary has it at the floor.
    /// None where no track is wanted. `slot` is the buffer for the track.
    pub fn copy_once<T: Reporter>(&self, reporter: &mut T, slot: &mut Slot) -> Option<CopyJoin>
        requires goes_on { self.now.halted ≡ None }
        requires told { IsToldBy self.now (T.state reporter.old) }
        ensures reads { (left : Option (List ℕ)) → ReportsOn left left self.now self.now (T.state reporter.old) (T.state reporter.new) }
        ensures told { IsToldBy self.now (T.state reporter.new) }
        ensures copied { IsCopiedBy result self.now (T.state reporter.old) (T.state reporter.new) }
    {
        let (volume, track) = reporter.next_wanted()?;
        let at = self.primary.read_track(volume, track, slot);
        Some(reporter.join_copy(volume, track, at, slot))
    }
}
