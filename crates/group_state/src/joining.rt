//! What the calls of a group state answer.

use ckd_track::Batch;
use pending_queue::Room;

/// What became of a batch.
#[derive(Debug, Drop)]
pub enum Joining {
    Joined,
    /// The carried writes don't fit the controller's free room, which is named. The batch comes back.
    Held { batch: Batch, room: Room },
}

/// What became of a batch that was lent.
#[derive(Clone, Copy, Debug, PartialEq, Eq)]
pub enum RunJoin {
    Joined,
    /// The carried writes don't fit the controller's free room, which is named.
    Held(Room),
}

/// What became of a copied track.
#[derive(Clone, Copy, Debug, PartialEq, Eq)]
pub enum CopyJoin {
    Joined,
    /// The track doesn't fit the controller's free room, which is named. It stays wanted.
    Held(Room),
    /// The track isn't wanted.
    Stale,
}

/// What a form gave.
#[derive(Clone, Copy, Debug, PartialEq, Eq)]
pub enum Forming {
    Formed,
    /// The cut is the last one, and there was nothing to form or to report.
    Nothing,
}
