//! Why lines say no trace, and why bytes have no lines.

ghost use Rattle.std.specs.Prelude.{◌≡◌};

use std::fmt;
use write_trace::HeaderError;
use xrc_edge::NoMemory;

/// Why a line is refused.
#[derive(Clone, Copy, Debug, PartialEq, Eq)]
pub enum Cause {
    /// It is outside the grammar.
    Grammar,
    /// It comes too late, as a version behind a volume, or too early, as an entry or the end before a volume.
    Order,
    /// What it says breaks a rule of traces, after the lines before it.
    Rule,
}

/// The first line that is refused, counted from 1, and why.
#[derive(Clone, Copy, Debug, PartialEq, Eq)]
pub struct Refusal {
    pub line: u64,
    pub cause: Cause,
}

/// Why no trace was written.
#[derive(Clone, Copy, Debug, PartialEq, Eq)]
pub enum Unwritten {
    /// There was no memory.
    NoMemory,
    /// A line is refused.
    Refused(Refusal),
}

impl From<NoMemory> for Unwritten {
    ghost use Rattle.trace_lines.specs.declared.refusal.Unwritten.TheVariants as unwritten;

    ghost from_gives = { λ _ why. why ≡ unwritten.NoMemory };

    fn from(_error: NoMemory) -> Unwritten {
        Unwritten::NoMemory
    }
}

/// Why no lines were written.
#[derive(Clone, Copy, Debug, PartialEq, Eq)]
pub enum Unread {
    /// There was no memory.
    NoMemory,
    /// The field of the header that begins at this place is cut or breaks its rule.
    BadHeader(u64),
    /// The entry that begins at this place is cut or breaks a rule.
    BadTrace(u64),
    /// The lines that were found say another trace. No trace is known for which they do.
    OtherLines,
}

impl From<NoMemory> for Unread {
    ghost use Rattle.trace_lines.specs.declared.refusal.Unread.TheVariants as unread;

    ghost from_gives = { λ _ why. why ≡ unread.NoMemory };

    fn from(_error: NoMemory) -> Unread {
        Unread::NoMemory
    }
}

impl From<HeaderError> for Unread {
    ghost use Rattle.trace_lines.specs.Refusals.{unread_of};

    ghost from_gives = { λ error why. why ≡ unread_of error };

    fn from(error: HeaderError) -> Unread {
        match error {
            HeaderError::BadHeader(place) => Unread::BadHeader(place),
            HeaderError::HeaderFault | HeaderError::NoMemory => Unread::NoMemory,
        }
    }
}

impl fmt::Display for Refusal {
    fn fmt<W: fmt::Write>(&self, f: &mut fmt::Formatter<W>) -> fmt::Result {
        let line = self.line;
        match self.cause {
            Cause::Grammar => write!(f, "line {line} is outside the grammar: mend it"),
            Cause::Order => write!(
                f,
                "line {line} is not in order: a version comes first, then volumes, then base tracks, then entries"
            ),
            Cause::Rule => write!(
                f,
                "line {line} breaks a rule of traces: mend it, or the lines before it"
            ),
        }
    }
}

impl fmt::Display for Unwritten {
    fn fmt<W: fmt::Write>(&self, f: &mut fmt::Formatter<W>) -> fmt::Result {
        match self {
            Unwritten::NoMemory => f.write_str("there is not enough memory: give the program more"),
            Unwritten::Refused(refusal) => write!(f, "{refusal}"),
        }
    }
}

impl fmt::Display for Unread {
    fn fmt<W: fmt::Write>(&self, f: &mut fmt::Formatter<W>) -> fmt::Result {
        match self {
            Unread::NoMemory => f.write_str("there is not enough memory: give the program more"),
            Unread::BadHeader(place) => write!(
                f,
                "the header breaks a rule at byte {place}: mend the trace"
            ),
            Unread::BadTrace(place) => {
                write!(f, "the entry at byte {place} breaks a rule: mend the trace")
            }
            Unread::OtherLines => f.write_str("the lines found do not say this trace: report it"),
        }
    }
}
