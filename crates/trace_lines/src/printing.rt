//! The lines of a trace.

ghost use Rattle.std.specs.Prelude.{◌≡◌, Ok, IfOk, IfErr};
ghost use Rattle.write_trace.specs.declared.trace.TraceEnd.TheVariants as ends;
ghost use Rattle.trace_lines.specs.Refusals.{HasTraceEnd, IsCause};
ghost use Rattle.trace_lines.specs.Traces.{trace_in};

use crate::refusal::{Unread, Unwritten};
use crate::spelling::{put_base, put_idle, put_version, put_volume, put_write};
use crate::writing::trace_of_text;
use std::alloc::Global;
use write_trace::{Entry, EntryList, Header, TraceEnd, read_entries, start};
use xrc_edge::{Bytes, MemorySource, NoMemory};

/// The most bytes that the reader is given at once.
const PULLED: u32 = 65_536;

fn put_header(alloc: Global, out: &mut Bytes, header: &Header) -> Result<(), NoMemory> {
    put_version(alloc, out, header.version)?;
    for volume in header.volumes.as_slice() {
        put_volume(alloc, out, volume)?;
    }
    for base in header.base.as_slice() {
        put_base(alloc, out, base)?;
    }
    Ok(())
}

fn put_entries(alloc: Global, out: &mut Bytes, entries: &[Entry]) -> Result<(), NoMemory> {
    for entry in entries {
        match entry {
            Entry::Written(write) => put_write(alloc, out, write)?,
            Entry::Idle(stamp) => put_idle(alloc, out, *stamp)?,
        }
    }
    Ok(())
}

/// The header and the entries of a whole trace.
#[tactic(auto, using(crate::proofs::Wholes::bad_header))]
fn read_whole(alloc: Global, trace: &[u8]) -> Result<(Header, EntryList), Unread>
    ensures whole { IfOk result (λ _. HasTraceEnd trace.now ends.Ended) }
    ensures cause { IfErr result (λ why. IsCause trace.now why) }
{
    let mut bytes = Bytes::make(alloc);
    bytes.extend_from_slice(alloc, trace)?;
    let mut source = MemorySource::make(alloc, bytes, PULLED, Bytes::make(alloc))?;
    let (header, mut reader) = start(alloc, &mut source)?;
    let (entries, end) = read_entries(alloc, &mut reader, &mut source)?;
    match end {
        TraceEnd::Ended => Ok((header, entries)),
        TraceEnd::BadTrace(place) => Err(Unread::BadTrace(place)),
        // No call of the source has the mark of one that fails.
        TraceEnd::ReadFault => Err(Unread::NoMemory),
    }
}

fn text_of(alloc: Global, trace: &[u8]) -> Result<Bytes, Unread>
    ensures whole { IfOk result (λ _. HasTraceEnd trace.now ends.Ended) }
    ensures cause { IfErr result (λ why. IsCause trace.now why) }
{
    let (header, entries) = read_whole(alloc, trace)?;
    let mut text = Bytes::make(alloc);
    put_header(alloc, &mut text, &header)?;
    put_entries(alloc, &mut text, entries.as_slice())?;
    Ok(text)
}

/// Lines that say the trace again, byte for byte, or the place where the bytes are no trace.
#[tactic(auto, using(crate::proofs::Parts::same_bytes))]
pub fn text_of_trace(alloc: Global, trace: &[u8]) -> Result<Bytes, Unread>
    ensures again { IfOk result (λ text. trace_in text ≡ Ok trace.now) }
    ensures whole { IfOk result (λ _. HasTraceEnd trace.now ends.Ended) }
    ensures cause { IfErr result (λ why. IsCause trace.now why) }
{
    let text = text_of(alloc, trace)?;
    match trace_of_text(alloc, text.as_slice()) {
        Ok(again) => {
            if again.as_slice() == trace {
                Ok(text)
            } else {
                Err(Unread::OtherLines)
            }
        }
        Err(Unwritten::NoMemory) => Err(Unread::NoMemory),
        Err(Unwritten::Refused(_)) => Err(Unread::OtherLines),
    }
}
