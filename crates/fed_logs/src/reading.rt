//! What becomes of a reader's steps.

ghost use Rattle.std.specs.Prelude.{◌≡◌};
ghost use Rattle.fed_logs.specs.Readings.{reading_of};

use pending_queue::Room;
use sidefile::Halt;

/// What became of a step of a reader towards a limit.
#[derive(Clone, Copy, Debug, PartialEq, Eq)]
pub enum Reading {
    /// A batch was joined. More may be left up to the limit.
    Joined,
    /// The batch doesn't fit the controller's free room, which is named. It stays held.
    Held(Room),
    /// Nothing is left up to the limit, which is the controller's floor now.
    AtLimit,
    /// The trace was given up. It is answered again from then on.
    Broken,
    /// There was no memory. It is answered again from then on.
    NoMemory,
}

impl Reading {
    /// What is answered from then on.
    pub(crate) fn again(halt: Halt) -> Reading
        ensures { result ≡ reading_of halt }
    {
        match halt {
            Halt::Broken { .. } => Reading::Broken,
            Halt::NoMemory => Reading::NoMemory,
        }
    }
}
