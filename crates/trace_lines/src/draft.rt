//! A trace that lines have begun.

ghost use Rattle.std.specs.Prelude.{◌≡◌, ◌<◌, length, IsTrue};
ghost use Rattle.write_trace.specs.Headers.{is_header};

use crate::refusal::Cause;
use write_trace::Header;
use xrc_edge::{Bytes, NoMemory};

/// Why a draft takes no line more.
#[derive(Clone, Copy, Debug, PartialEq, Eq)]
pub enum Untaken {
    NoMemory,
    Refused(Cause),
}

impl From<NoMemory> for Untaken {
    ghost use Rattle.trace_lines.specs.declared.draft.Untaken.TheVariants as untaken;

    ghost from_gives = { λ _ why. why ≡ untaken.NoMemory };

    fn from(_error: NoMemory) -> Untaken {
        Untaken::NoMemory
    }
}

/// What lines have said so far: the header, the spelling of the entries, and the last one's stamp, or 0. A header with a volume keeps the
/// rules.
#[derive(Debug, Drop)]
pub struct Draft {
    pub(crate) header: Header,
    pub(crate) entries: Bytes,
    pub(crate) last: u64,
    ghost ruled: { 0 < length header.volumes → IsTrue (is_header header) },
}
