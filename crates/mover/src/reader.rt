//! A lane's reader.

ghost use Rattle.std.specs.Prelude.{◌≡◌, None};
ghost use Rattle.sidefile.specs.Halts.{broken_in};

use ckd_track::{Cause, Slot};
use fed_logs::{Feed, Reading};
use pending_queue::Formed;
use std::marker::Model;
use tod_stamp::Stamp;
use turn_group::ReaderSeat;

/// A part that took fewer bytes of its trace costs about as much as the start of a thread.
const BRIEF: u64 = 65_536;

/// What a lane reads with: its feed, a slot for tracks that are copied, and during an epoch its seat. What it keeps of its last parts
/// serves speed alone, and no contract sees it.
#[derive(Drop)]
pub(crate) struct Reader {
    pub(crate) feed: Feed,
    pub(crate) slot: Slot,
    pub(crate) seat: Option<ReaderSeat>,
    /// What became of its part of the last round; None before the first one of an epoch.
    pub(crate) last: Option<Reading>,
    /// How many bytes of its trace the last part took that took some.
    pub(crate) took: u64,
    /// Whether its last part asked for a track, and one was wanted.
    pub(crate) has_copied: bool,
    /// The buffer of groups between two epochs, with the first lane. No contract sees it.
    spare: Option<Formed>,
}

impl Model for Reader {
    ghost use Rattle.mover.specs.Readers.{LaneReaderState};

    ghost Value = { LaneReaderState };

    ghost view = { λ r. record { feed = r.feed; seat = r.seat; last = r.last } };
}

impl Reader {
    /// A reader of a feed, with a slot for copies, that doesn't sit yet.
    pub(crate) fn new(feed: Feed, slot: Slot) -> Reader
        ensures { result ≡ record { feed = feed; seat = None; last = None } }
    {
        Reader {
            feed,
            slot,
            seat: None,
            last: None,
            took: 0,
            has_copied: false,
            spare: None,
        }
    }

    /// Whether its next part up to a limit takes nothing of its trace, and most likely copies nothing.
    pub(crate) fn is_idle(&self, limit: Stamp) -> bool {
        !self.has_copied && self.feed.is_past(limit)
    }

    /// Whether its next part is most likely brief: it holds more than twice what it took of its trace lately, which was little.
    pub(crate) fn is_brief(&self) -> bool {
        !self.has_copied && self.took < BRIEF && self.took < self.feed.held() as u64 / 2
    }

    /// Takes the buffer of groups, where it keeps one.
    pub(crate) fn take_spare(&mut self) -> Option<Formed>
        ensures { self.new ≡ self.old }
    {
        self.spare.take()
    }

    /// Keeps a buffer of groups.
    pub(crate) fn keep_spare(&mut self, spare: Formed)
        ensures { self.new ≡ self.old }
    {
        self.spare = Some(spare);
    }

    /// The `upto` and the cause of the break; None exactly where the feed hasn't broken.
    pub(crate) fn broken(&self) -> Option<(Stamp, Cause)>
        ensures { result ≡ broken_in self.now.feed.halted }
    {
        self.feed.broken()
    }
}
