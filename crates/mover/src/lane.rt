//! A controller's lane.

use crate::reader::Reader;
use ckd_track::{Cause, Slot};
use fed_logs::{Feed, Reading};
use pending_queue::Formed;
use primary_ctl::Primary;
use sidefile::Sidefile;
use std::alloc::Global;
use tod_stamp::Stamp;
use xrc_edge::NoMemory;

/// A controller's source, and the reader of its trace once that was started.
#[derive(Drop)]
pub struct Lane<S> {
    pub source: S,
    pub(crate) reader: Option<Reader>,
}

impl<S> Lane<S> {
    ghost use Rattle.std.specs.Prelude.{◌≡◌, None, Some, OnOk, OnErr};
    ghost use Rattle.sidefile.specs.declared.hand.Halt.TheVariants as halts;
    ghost use Rattle.mover.specs.Lanes.{broken_by, first_reader, last_of};

    /// A lane that has no reader yet.
    pub fn new(source: S) -> Lane<S>
        ensures { result ≡ record { source = source; reader = None } }
    {
        Lane {
            source,
            reader: None,
        }
    }

    /// Gives the lane its reader, once. The sidefile's reader was started on the lane's source, and the primary was made from the
    /// header that came with it. The sidefile may have broken, and then its controller reports no more; it didn't want memory.
    pub fn open(&mut self, alloc: Global, side: Sidefile, primary: Primary) -> Result<(), NoMemory>
        requires closed { self.old.reader ≡ None }
        requires usable { side.halted ≡ Some halts.NoMemory → ⊥ }
        requires volumes { primary.volumes ≡ side.reader.volumes }
        requires even { primary.time ≡ side.upto }
        ensures ok { OnOk result (self.new ≡ record self.old { reader = Some (first_reader side primary) }) }
        ensures err { OnErr result (self.new ≡ self.old) }
    {
        let slot = Slot::make(alloc)?;
        self.reader = Some(Reader::new(Feed::make(side, primary), slot));
        Ok(())
    }

    /// The `upto` and the cause of the break that the lane's reader was answered; None exactly where no handover was answered so.
    pub fn broken(&self) -> Option<(Stamp, Cause)>
        ensures { result ≡ broken_by self.now.reader }
    {
        match &self.reader {
            Some(reader) => reader.broken(),
            None => None,
        }
    }

    /// Takes the buffer of groups, where its reader keeps one.
    pub(crate) fn take_spare(&mut self) -> Option<Formed>
        ensures { self.new ≡ self.old }
    {
        match &mut self.reader {
            Some(reader) => reader.take_spare(),
            None => None,
        }
    }

    /// Keeps a buffer of groups, if it has a reader.
    pub(crate) fn keep_spare(&mut self, spare: Formed)
        ensures { self.new ≡ self.old }
    {
        if let Some(reader) = &mut self.reader {
            reader.keep_spare(spare);
        }
    }

    /// Whether its reader's next part up to a limit takes nothing of its trace, and most likely copies nothing.
    pub(crate) fn is_idle(&self, limit: Stamp) -> bool {
        match &self.reader {
            Some(reader) => reader.is_idle(limit),
            None => true,
        }
    }

    /// Whether its reader's next part is most likely brief.
    pub(crate) fn is_brief(&self) -> bool {
        match &self.reader {
            Some(reader) => reader.is_brief(),
            None => true,
        }
    }

    /// What became of its reader's part of the last round; None before the first one of an epoch.
    pub(crate) fn last(&self) -> Option<Reading>
        ensures { result ≡ last_of self.now.reader }
    {
        match &self.reader {
            Some(reader) => reader.last,
            None => None,
        }
    }
}
