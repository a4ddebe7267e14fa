//! The traces of a generated input.

ghost use Rattle.std.specs.Prelude.{◌≡◌, ◌<◌, ◌++◌, replicate, IfOk, OnOk};
ghost use Rattle.std.specs.List.{flat_map};
ghost use Rattle.workload.specs.declared.layout.TheConstants.{CONTENT, CONTROLS, TRACKS, WRITES};
ghost use Rattle.workload.specs.Traces.{generated_base, generated_bases, generated_entries, generated_header, generated_source, generated_sources, generated_trace, generated_volumes, generated_write, zero_record, zero_records};
ghost use Rattle.write_trace.specs.Entries.{entry_spelling};

use crate::layout::{
    CONTENT, CONTROLS, CYLINDERS, FIRST_STAMP, MOST_OF_PULL, RECORDS, TRACKS, VOLUMES, WRITES,
};
use crate::serials::primary;
use ckd_track::{Kind, Rec, Track, Write};
use std::alloc::Global;
use tod_stamp::Stamp;
use write_trace::{BaseList, BaseTrack, Header, TraceWriter, VolumeHead, VolumeList};
use xrc_edge::{Bytes, MemorySource, NoMemory, TRACKS_OF_CYLINDER};

/// The version of the traces.
const VERSION: u8 = 1;

/// The content of a record: this byte as often as a content has bytes.
fn content(alloc: Global, byte: u8) -> Result<Bytes, NoMemory>
    ensures { IfOk result (λ content. content ≡ replicate CONTENT byte) }
{
    Ok(Bytes::of(vec![in alloc; byte; CONTENT]?))
}

/// A record without a key, of zeros.
fn zero_record(alloc: Global, number: u8) -> Result<Rec, NoMemory>
    ensures { IfOk result (λ rec. rec ≡ zero_record number) }
{
    Ok(Rec {
        number,
        key: Bytes::make(alloc),
        content: content(alloc, 0)?,
    })
}

/// What each track holds before the first write.
fn zero_track(alloc: Global) -> Result<Track, NoMemory>
    ensures { IfOk result (λ track. track ≡ zero_records) }
{
    let mut track = Track::make(alloc);
    for number in 0..RECORDS {
        track.push(alloc, zero_record(alloc, number + 1)?)?;
    }
    Ok(track)
}

/// The volume of a controller, and the track of that volume, with that number among the tracks of the controller.
fn base_track(alloc: Global, number: u32) -> Result<BaseTrack, NoMemory>
    requires { number < TRACKS }
    ensures { IfOk result (λ base. base ≡ generated_base number) }
{
    let volume = (number / TRACKS_OF_CYLINDER) as u16;
    Ok((volume, number % TRACKS_OF_CYLINDER, zero_track(alloc)?))
}

fn base_tracks(alloc: Global) -> Result<BaseList, NoMemory>
    ensures { IfOk result (λ base. base ≡ generated_bases) }
{
    let mut base = BaseList::make(alloc);
    for number in 0..TRACKS {
        base.push(alloc, base_track(alloc, number)?)?;
    }
    Ok(base)
}

fn volumes(alloc: Global, control: u16) -> Result<VolumeList, NoMemory>
    requires { control < CONTROLS }
    ensures { IfOk result (λ volumes. volumes ≡ generated_volumes control) }
{
    let mut volumes = VolumeList::make(alloc);
    for volume in 0..VOLUMES {
        let head = VolumeHead {
            serial: primary(VOLUMES * control + volume),
            cylinders: CYLINDERS,
        };
        volumes.push(alloc, head)?;
    }
    Ok(volumes)
}

fn header(alloc: Global, control: u16) -> Result<Header, NoMemory>
    requires { control < CONTROLS }
    ensures { IfOk result (λ header. header ≡ generated_header control) }
{
    Ok(Header {
        version: VERSION,
        volumes: volumes(alloc, control)?,
        base: base_tracks(alloc)?,
    })
}

/// The write of a controller at a place: place and number of the input together choose volume, track, record and byte.
fn write(alloc: Global, number: u32, control: u16, place: u16) -> Result<Write, NoMemory>
    requires control { control < CONTROLS }
    requires place { place < WRITES }
    ensures { IfOk result (λ write. write ≡ generated_write number control place) }
{
    let chosen = u64::from(number) + u64::from(place);
    let stamp = FIRST_STAMP + u64::from(CONTROLS) * u64::from(place) + u64::from(control);
    Ok(Write {
        volume: (chosen % u64::from(VOLUMES)) as u16,
        track: (chosen / u64::from(VOLUMES) % u64::from(TRACKS_OF_CYLINDER)) as u32,
        stamp: Stamp(stamp),
        kind: Kind::Update {
            number: 1 + (chosen / u64::from(TRACKS) % u64::from(RECORDS)) as u8,
            bytes: content(alloc, (chosen % 256) as u8)?,
        },
    })
}

fn append_writes(alloc: Global, out: &mut Bytes, number: u32, control: u16) -> Result<(), NoMemory>
    requires { control < CONTROLS }
    ensures { OnOk result (out.new ≡ out.old ++ flat_map (entry_spelling 1) (generated_entries number control)) }
{
    for place in 0..WRITES {
        let write = write(alloc, number, control, place)?;
        TraceWriter::write(alloc, out, VERSION, &write)?;
    }
    Ok(())
}

fn trace(alloc: Global, number: u32, control: u16) -> Result<Bytes, NoMemory>
    requires { control < CONTROLS }
    ensures { IfOk result (λ bytes. bytes ≡ generated_trace number control) }
{
    let mut bytes = Bytes::make(alloc);
    TraceWriter::header(alloc, &mut bytes, &header(alloc, control)?)?;
    append_writes(alloc, &mut bytes, number, control)?;
    Ok(bytes)
}

fn source(alloc: Global, number: u32, control: u16) -> Result<MemorySource, NoMemory>
    requires { control < CONTROLS }
    ensures { IfOk result (λ source. source ≡ generated_source number control) }
{
    let bytes = trace(alloc, number, control)?;
    MemorySource::make(alloc, bytes, MOST_OF_PULL, Bytes::make(alloc))
}

/// The traces of the controllers in order, each as a source whose calls don't fail.
pub(crate) fn sources(alloc: Global, number: u32) -> Result<Vec<MemorySource>, NoMemory>
    ensures { IfOk result (λ sources. sources.items ≡ generated_sources number) }
{
    let mut sources = Vec::new(alloc);
    for control in 0..CONTROLS {
        sources.push(source(alloc, number, control)?)?;
    }
    Ok(sources)
}
