//! Writing a file track by track. First each piece is made and let go, so that nothing is written where one is refused.

ghost use Rattle.std.specs.Prelude.{◌≡◌, ◌≤◌, OnOk};
ghost use Rattle.xrc_edge.specs.declared.limits.TheConstants.{MOST_NARROW_CYLINDERS};
ghost use Rattle.ckd_bridge.specs.Sinks.{Appends, PutsWithCause};
ghost use Rattle.ckd_bridge.specs.Jobs.{AreFilesReady, ReadSame, SameLengths, fault_counts, job_count, job_cylinders, piece_of};
ghost use Rattle.ckd_bridge.specs.Pieces.{AreGood, Checks, Copies, CopiesWithCause, IsNoRefusal, ReadsWithCause, pieces_up_to};

use crate::files::Files;
use crate::job::Job;
use crate::pieces::piece;
use crate::sink::Sink;
use crate::stop::Stop;
use crash_plant::Disk;
use std::alloc::Global;
use xrc_edge::Failed;

/// Whether each piece can be made, or the first that can't.
fn check_pieces<D: Disk + Drop>(alloc: Global, job: &Job, files: &mut Files<D>) -> Result<(), Stop>
    requires ready { AreFilesReady job.now (D.state files.old.first) (D.state files.old.second) }
    requires cylinders { job_cylinders job.now ≤ MOST_NARROW_CYLINDERS }
    ensures checked { D.tells → Checks (piece_of job.now (D.state files.old.first).bytes (D.state files.old.second).bytes) (job_count job.now) result }
    ensures same { D.tells → ReadSame (D.state files.old.first) (D.state files.old.second) (D.state files.new.first) (D.state files.new.second) }
    ensures length { SameLengths (D.state files.old.first) (D.state files.old.second) (D.state files.new.first) (D.state files.new.second) }
    ensures cause { ReadsWithCause (fault_counts (D.state files.old.first) (D.state files.old.second)) (fault_counts (D.state files.new.first) (D.state files.new.second)) result }
{
    for number in 0..job.count() {
        match piece(alloc, job, files, number) {
            Ok(_) => {}
            Err(stop) => return Err(stop),
        }
    }
    Ok(())
}

/// Puts bytes into a sink.
fn put<S: Sink>(sink: &mut S, bytes: &[u8]) -> Result<(), Stop>
    ensures written { OnOk result (Appends bytes.now (S.written sink.old) (S.written sink.new)) }
    ensures cause { PutsWithCause (S.faults sink.old) (S.faults sink.new) result }
{
    match sink.put(bytes) {
        Ok(()) => Ok(()),
        Err(Failed) => Err(Stop::WriteFault),
    }
}

/// Puts all pieces into a sink, in order.
fn write_pieces<D: Disk + Drop, S: Sink>(
    alloc: Global,
    job: &Job,
    files: &mut Files<D>,
    sink: &mut S,
) -> Result<(), Stop>
    requires ready { AreFilesReady job.now (D.state files.old.first) (D.state files.old.second) }
    requires cylinders { job_cylinders job.now ≤ MOST_NARROW_CYLINDERS }
    ensures written { D.tells → OnOk result (Appends (pieces_up_to (piece_of job.now (D.state files.old.first).bytes (D.state files.old.second).bytes) (job_count job.now)) (S.written sink.old) (S.written sink.new)) }
    ensures refusal { D.tells → AreGood (piece_of job.now (D.state files.old.first).bytes (D.state files.old.second).bytes) (job_count job.now) → IsNoRefusal result }
    ensures cause { CopiesWithCause (fault_counts (D.state files.old.first) (D.state files.old.second)) (fault_counts (D.state files.new.first) (D.state files.new.second)) (S.faults sink.old) (S.faults sink.new) result }
{
    for number in 0..job.count() {
        let piece = match piece(alloc, job, files, number) {
            Ok(piece) => piece,
            Err(stop) => return Err(stop),
        };
        match put(sink, piece.as_slice()) {
            Ok(()) => {}
            Err(stop) => return Err(stop),
        }
    }
    Ok(())
}

/// Puts an opening and all pieces into a sink. If a piece is refused nothing is put.
pub(crate) fn copy_pieces<D: Disk + Drop, S: Sink>(
    alloc: Global,
    job: &Job,
    files: &mut Files<D>,
    opening: &[u8],
    sink: &mut S,
) -> Result<(), Stop>
    requires ready { AreFilesReady job.now (D.state files.old.first) (D.state files.old.second) }
    requires cylinders { job_cylinders job.now ≤ MOST_NARROW_CYLINDERS }
    ensures copies { D.tells → Copies (piece_of job.now (D.state files.old.first).bytes (D.state files.old.second).bytes) (job_count job.now) opening.now (S.written sink.old) (S.written sink.new) result }
    ensures cause { CopiesWithCause (fault_counts (D.state files.old.first) (D.state files.old.second)) (fault_counts (D.state files.new.first) (D.state files.new.second)) (S.faults sink.old) (S.faults sink.new) result }
{
    match check_pieces(alloc, job, files) {
        Ok(()) => {}
        Err(stop) => return Err(stop),
    }
    match put(sink, opening) {
        Ok(()) => {}
        Err(stop) => return Err(stop),
    }
    write_pieces(alloc, job, files, sink)
}
