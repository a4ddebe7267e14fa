//! Looking at the next entry of a trace.

ghost use Rattle.std.specs.Prelude.{◌≡◌, None, Some};
ghost use Rattle.write_trace.specs.declared.trace.TraceEnd.TheVariants as ends;
ghost use Rattle.write_trace.specs.declared.next.Stopped.TheVariants.{AtEnd};
ghost use Rattle.sidefile.specs.Looks.{FindsNext};

use ckd_track::Cause;
use std::alloc::Global;
use write_trace::{Entry, Next, TraceReader};
use xrc_edge::Source;

/// What a look at the next entry finds.
#[derive(Drop)]
pub enum Look {
    /// The next entry.
    Next(Entry),
    /// The trace ended.
    Ended,
    /// The controller breaks.
    Bad(Cause),
    /// There was no memory.
    NoMemory,
}

/// The next entry of a reader, or why there is none. A trace that ended stays so.
pub fn look_ahead<S: Source>(reader: &mut TraceReader, alloc: Global, source: &mut S) -> Look
    ensures finds { reader.old.stopped ≡ None → FindsNext (S.left source.old) (S.left source.new) (S.faults source.old) (S.faults source.new) reader.old reader.new result }
    ensures again { reader.old.stopped ≡ Some (AtEnd ends.Ended) → (result ≡ Look.Ended) × (reader.new ≡ reader.old) }
    ensures unasked { reader.old.stopped ≡ Some (AtEnd ends.Ended) → source.new ≡ source.old }
{
    match reader.next(alloc, source) {
        Next::Write(write) => Look::Next(Entry::Written(write)),
        Next::Idle(stamp) => Look::Next(Entry::Idle(stamp)),
        Next::Ended => Look::Ended,
        Next::BadTrace(place) => Look::Bad(Cause::BadTrace(place)),
        Next::ReadFault => Look::Bad(Cause::ReadFault),
        Next::NoMemory => Look::NoMemory,
    }
}
