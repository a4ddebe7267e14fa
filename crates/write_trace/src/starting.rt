//! The start of a trace: its header.

ghost use Rattle.std.specs.Prelude.{◌≡◌, ◌≤◌, ◌<◌, ◌+◌, [], length, IfOk, IfErr, IsTrue};
ghost use Rattle.xrc_edge.specs.declared.limits.TheConstants.{LONGEST_TRACE, MOST_CONTROL_VOLUMES};
ghost use Rattle.tod_stamp.specs.Fields.{is_version};
ghost use Rattle.write_trace.specs.Headers.{is_track_of, is_from, are_volumes, are_bases, base_at, bases_at};
ghost use Rattle.ckd_track.specs.Tracks.{IsTrack};
ghost use Rattle.write_trace.specs.Starts.{Starts};
ghost use Rattle.write_trace.specs.HeaderProgress.{Gathers, ReadsPart};
ghost use Rattle.write_trace.specs.HeaderParts.{header_front_at};
ghost use Rattle.write_trace.specs.declared.window.TheConstants.{WINDOW_LENGTH};

use crate::header::{BaseList, BaseTrack, Header, VolumeHead, VolumeList};
use crate::header_fields::{base_in, head_in};
use crate::reader::TraceReader;
use crate::stop::NoRead;
use crate::trace::HeaderError;
use crate::window::{Refill, Window};
use std::alloc::Global;
use xrc_edge::Source;

/// Takes one piece more, where the bytes held end within the field that begins at the place.
fn gather<S: Source>(window: &mut Window, source: &mut S, place: u64) -> Result<(), HeaderError>
    requires { window.old.place + length window.old.bytes ≤ LONGEST_TRACE → length window.old.bytes < WINDOW_LENGTH }
    ensures { Gathers (S.left source.old) (S.left source.new) (S.faults source.old) (S.faults source.new) place window.old window.new result }
{
    if window.is_full_trace() {
        return Err(HeaderError::BadHeader(place));
    }
    match window.refill(source) {
        Refill::More => Ok(()),
        Refill::End => Err(HeaderError::BadHeader(place)),
        Refill::Fault => Err(HeaderError::HeaderFault),
    }
}

/// Reads the head of a header: its version, its volumes, and the number of its base tracks.
fn head<S: Source>(
    alloc: Global,
    window: &mut Window,
    source: &mut S,
) -> Result<(u8, VolumeList, u32), HeaderError>
    ensures reads { ReadsPart header_front_at (S.left source.old) (S.left source.new) (S.faults source.old) (S.faults source.new) window.old window.new result }
    ensures version { IfOk result (λ head. IsTrue (is_version head.0)) }
    ensures rules { IfOk result (λ head. IsTrue (are_volumes head.0 [] head.1)) }
    ensures many { IfOk result (λ head. (1 ≤ length head.1) × (length head.1 ≤ MOST_CONTROL_VOLUMES)) }
{
    loop {
        match head_in(alloc, window.place(), window.visible()) {
            Ok((head, used)) => {
                window.skip(used);
                return Ok(head);
            }
            Err(NoRead::Memory) => return Err(HeaderError::NoMemory),
            Err(NoRead::Broken(place)) => return Err(HeaderError::BadHeader(place)),
            Err(NoRead::Cut(place)) => gather(window, source, place)?,
        }
    }
}

/// Reads a base track that stands from the place `low` on.
fn base<S: Source>(
    alloc: Global,
    version: u8,
    volumes: &[VolumeHead],
    low: (u16, u32),
    window: &mut Window,
    source: &mut S,
) -> Result<BaseTrack, HeaderError>
    requires { IsTrue (are_volumes version [] volumes.now) }
    ensures reads { ReadsPart (base_at version volumes.now low) (S.left source.old) (S.left source.new) (S.faults source.old) (S.faults source.new) window.old window.new result }
    ensures there { IfOk result (λ base. IsTrue (is_track_of volumes.now base.0 base.1)) }
    ensures from { IfOk result (λ base. IsTrue (is_from low (base.0, base.1))) }
    ensures track { IfOk result (λ base. IsTrack base.2) }
{
    loop {
        match base_in(
            alloc,
            version,
            volumes,
            low,
            window.place(),
            window.visible(),
        ) {
            Ok((base, used)) => {
                window.skip(used);
                return Ok(base);
            }
            Err(NoRead::Memory) => return Err(HeaderError::NoMemory),
            Err(NoRead::Broken(place)) => return Err(HeaderError::BadHeader(place)),
            Err(NoRead::Cut(place)) => gather(window, source, place)?,
        }
    }
}

/// Reads that many base tracks, which rise by volume and track.
fn bases<S: Source>(
    alloc: Global,
    version: u8,
    volumes: &[VolumeHead],
    many: u32,
    window: &mut Window,
    source: &mut S,
) -> Result<BaseList, HeaderError>
    requires { IsTrue (are_volumes version [] volumes.now) }
    ensures reads { ReadsPart (bases_at version volumes.now many (0, 0)) (S.left source.old) (S.left source.new) (S.faults source.old) (S.faults source.new) window.old window.new result }
    ensures rules { IfOk result (λ base. IsTrue (are_bases volumes.now (0, 0) base)) }
{
    let mut found = BaseList::make(alloc);
    let mut low = (0, 0);
    for _ in 0..many {
        let one = base(alloc, version, volumes, low, window, source)?;
        low = (one.0, one.1 + 1);
        let Ok(()) = found.push(alloc, one) else {
            return Err(HeaderError::NoMemory);
        };
    }
    Ok(found)
}

/// A copy of volumes.
fn copied(alloc: Global, volumes: &[VolumeHead]) -> Result<VolumeList, HeaderError>
    ensures value { IfOk result (λ copy. copy ≡ volumes.now) }
    ensures cause { IfErr result (λ error. error ≡ HeaderError.NoMemory) }
{
    let mut copy = VolumeList::make(alloc);
    match copy.extend_from_slice(alloc, volumes) {
        Ok(()) => Ok(copy),
        Err(_) => Err(HeaderError::NoMemory),
    }
}

/// Reads the header of a trace, and gives it with the reader of the entries that follow. A field that is cut or breaks its rule
/// is refused at its first byte, an image at the image's, base tracks out of order at the volume's.
pub fn start<S: Source>(alloc: Global, source: &mut S) -> Result<(Header, TraceReader), HeaderError>
    ensures { Starts (S.left source.old) (S.left source.new) (S.faults source.old) (S.faults source.new) result }
{
    let Ok(mut window) = Window::make(alloc) else {
        return Err(HeaderError::NoMemory);
    };
    let (version, volumes, many) = head(alloc, &mut window, source)?;
    let base = bases(
        alloc,
        version,
        volumes.as_slice(),
        many,
        &mut window,
        source,
    )?;
    let reader = TraceReader::after_header(window, version, copied(alloc, volumes.as_slice())?);
    let header = Header {
        version,
        volumes,
        base,
    };
    Ok((header, reader))
}
