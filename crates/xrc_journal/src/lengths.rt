//! How long a journal is.

ghost use Rattle.std.specs.Prelude.{◌≡◌};
ghost use Rattle.xrc_journal.specs.Lengths.{journal_length};

use crate::layout::{BESIDE_CONTROLS, OF_CONTROL};

/// The bytes that a journal needs in a session of so many controllers.
pub fn journal_length(controls: u16) -> u64
    ensures { result ≡ journal_length controls }
{
    BESIDE_CONTROLS + u64::from(controls) * OF_CONTROL
}
