//! A trace that a capture continues: whether it is whole, and which of its volumes is captured.

ghost use Rattle.std.specs.Prelude.{◌≡◌, ◌≤◌, ◌∷◌, [], ℕ, List, length, false, None, Some, IfOk, IsTrue};
ghost use Rattle.xrc_edge.specs.declared.limits.TheConstants.{MOST_CONTROL_VOLUMES};
ghost use Rattle.tod_stamp.specs.Fields.{is_version};
ghost use Rattle.write_trace.specs.Headers.{are_volumes};
ghost use Rattle.write_trace.specs.WholeTraces.{trace_of};
ghost use Rattle.ckd_bridge.specs.NamedVolumes.{EndsEntries, GivesVolume, stop_of_bad_header, volume_at_end, volume_to_follow};
ghost use Rattle.ckd_bridge.specs.Pieces.{ReadsWithCause};

use crate::named_volume::{NamedVolume, volume_numbered};
use crate::stop::{Refusal, Stop};
use std::alloc::Global;
use tod_stamp::{Serial, Stamp};
use write_trace::{HeaderError, Next, TraceEnd, TraceReader, start};
use xrc_edge::{NoMemory, Source};

/// Reads the entries that are left in a trace, one at a time: the stamp of the last, and how the trace ends after it.
fn last_stamp<S: Source>(
    alloc: Global,
    reader: &mut TraceReader,
    source: &mut S,
) -> Result<(Stamp, TraceEnd), NoMemory>
    requires goes_on { reader.old.stopped ≡ None }
    requires first { reader.old.last ≡ 0 }
    requires few { length reader.old.volumes ≤ MOST_CONTROL_VOLUMES }
    requires rules { IsTrue (are_volumes reader.old.version [] reader.old.volumes) }
    ensures { EndsEntries (S.left source.old) (S.left source.new) (S.faults source.old) (S.faults source.new) reader.old result }
{
    let mut last = Stamp(0);
    loop {
        match reader.next(alloc, source) {
            Next::Write(write) => last = write.stamp,
            Next::Idle(stamp) => last = stamp,
            Next::Ended => return Ok((last, TraceEnd::Ended)),
            Next::BadTrace(place) => return Ok((last, TraceEnd::BadTrace(place))),
            Next::ReadFault => return Ok((last, TraceEnd::ReadFault)),
            Next::NoMemory => return Err(NoMemory),
        }
    }
}

fn stop_of_bad_header(error: HeaderError) -> Stop
    ensures { result ≡ stop_of_bad_header error }
{
    match error {
        HeaderError::BadHeader(place) => Stop::Refused(Refusal::BadHeader(place)),
        HeaderError::HeaderFault => Stop::ReadFault,
        HeaderError::NoMemory => Stop::NoMemory,
    }
}

/// The volume, if a write of this stamp may follow a trace that ends so.
fn volume_at_end(
    volume: NamedVolume,
    stamp: Stamp,
    last: Stamp,
    end: TraceEnd,
) -> Result<NamedVolume, Stop>
    ensures { result ≡ volume_at_end volume stamp.0 last.0 end }
{
    match end {
        TraceEnd::Ended if stamp.0 < last.0 => Err(Stop::Refused(Refusal::EarlierStamp)),
        TraceEnd::Ended => Ok(volume),
        TraceEnd::BadTrace(place) => Err(Stop::Refused(Refusal::BadTrace(place))),
        TraceEnd::ReadFault => Err(Stop::ReadFault),
    }
}

/// The volume of a serial in a trace after whose entries a write of this stamp may stand: the trace has to be good to its end, and
/// the stamp not below the last entry's.
pub fn find_volume<S: Source>(
    alloc: Global,
    trace: &mut S,
    serial: Serial,
    stamp: Stamp,
) -> Result<NamedVolume, Stop>
    ensures found { (bytes : List ℕ) → S.left trace.old ≡ Some bytes → GivesVolume result (volume_to_follow serial stamp.0 (trace_of false bytes)) }
    ensures version { IfOk result (λ volume. IsTrue (is_version volume.version)) }
    ensures cause { ReadsWithCause (S.faults trace.old ∷ []) (S.faults trace.new ∷ []) result }
{
    let (header, mut reader) = match start(alloc, trace) {
        Ok(started) => started,
        Err(error) => return Err(stop_of_bad_header(error)),
    };
    let volume = match volume_numbered(header.version, header.volumes.as_slice(), serial) {
        Ok(volume) => volume,
        Err(stop) => return Err(stop),
    };
    match last_stamp(alloc, &mut reader, trace) {
        Ok((last, end)) => volume_at_end(volume, stamp, last, end),
        Err(NoMemory) => Err(Stop::NoMemory),
    }
}
