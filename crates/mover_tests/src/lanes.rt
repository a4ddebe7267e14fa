//! The open lanes of traces, with the volumes that their headers name.

ghost use Rattle.std.specs.Prelude.{◌≡◌, ◌⊎◌, ◌<◌, ◌+◌, [], length, IsSomeAnd};
ghost use Rattle.std.specs.List.{Contains, list_any};
ghost use Rattle.pair_table.specs.declared.names.NamedVolume.{NamedVolume as VolumeIs};
ghost use Rattle.pair_table.specs.Naming.{are_alike};
ghost use Rattle.pair_table.specs.Rows.{are_in_ranges};
ghost use Rattle.xrc_session.specs.Joins.{HasInHeader};
ghost use Rattle.mover_tests.specs.Courses.{AreOpened, IsInHeader, IsNewLane};

use crate::traces::{Event, trace_bytes};
use mover::Lane;
use pair_table::{NamedVolume, Names};
use primary_ctl::Primary;
use sidefile::Sidefile;
use std::alloc::Global;
use std::process::Abort;
use write_trace::{Header, start};
use xrc_edge::{Bytes, MemorySource, Source};

/// The most bytes of a pull.
const PULL: u32 = 65_536;

/// The source of a trace of so many volumes, with serials from that of a number on.
pub(crate) fn trace(
    rt: &impl Abort,
    alloc: Global,
    volumes: (u16, u16),
    events: &[Event],
) -> MemorySource {
    let bytes = trace_bytes(rt, alloc, volumes, events);
    MemorySource::make(alloc, bytes, PULL, Bytes::make(alloc)).expect(rt, "memory")
}

/// Lanes, with the volumes that their headers name.
#[derive(Drop)]
pub(crate) struct OpenLanes<S> {
    pub(crate) all: Vec<Lane<S>>,
    pub(crate) named: Vec<NamedVolume>,
}

pub(crate) fn no_lanes<S>(alloc: Global) -> OpenLanes<S>
    ensures none { result.all.items ≡ [] }
    ensures opened { AreOpened result.all.items result.named.items }
{
    OpenLanes {
        all: Vec::new(alloc),
        named: Vec::new(alloc),
    }
}

/// Notes the volumes that a controller's header names.
fn note_volumes(rt: &impl Abort, control: u16, header: &Header, named: &mut Vec<NamedVolume>)
    ensures { (v : VolumeIs) → Contains named.new.items v → Contains named.old.items v ⊎ IsInHeader control header.now.volumes v }
{
    let heads = header.volumes.as_slice();
    assert!(rt; heads.len() <= 32);
    for volume in 0..heads.len() {
        let head = heads[volume];
        let noted = NamedVolume {
            serial: head.serial,
            control,
            volume: volume as u16,
            cylinders: head.cylinders,
        };
        named.push(noted).expect(rt, "memory");
    }
}

/// The open lane of a controller over its source. Notes the volumes of its header.
fn opened<S: Source + Drop>(
    rt: &impl Abort,
    alloc: Global,
    control: u16,
    mut source: S,
    named: &mut Vec<NamedVolume>,
) -> Lane<S>
    ensures new { IsNewLane control result }
    ensures named { (v : VolumeIs) → Contains named.new.items v → Contains named.old.items v ⊎ ((v.control ≡ control) × IsSomeAnd result.reader (HasInHeader v.volume v.cylinders)) }
{
    let Ok((header, reader)) = start(alloc, &mut source) else {
        panic!(rt; "a header");
    };
    note_volumes(rt, control, &header, named);
    let side = Sidefile::make(alloc, control, reader).expect(rt, "memory");
    let primary = Primary::make(alloc, header).expect(rt, "memory");
    let mut lane = Lane::new(source);
    lane.open(alloc, side, primary).expect(rt, "memory");
    lane
}

/// Adds the open lane of the next controller.
pub(crate) fn add_lane<S: Source + Drop>(
    rt: &impl Abort,
    alloc: Global,
    lanes: &mut OpenLanes<S>,
    source: S,
)
    requires few { length lanes.old.all.items < 16 }
    requires opened { AreOpened lanes.old.all.items lanes.old.named.items }
    ensures more { length lanes.new.all.items ≡ length lanes.old.all.items + 1 }
    ensures opened { AreOpened lanes.new.all.items lanes.new.named.items }
{
    let control = lanes.all.len() as u16;
    let lane = opened(rt, alloc, control, source, &mut lanes.named);
    lanes.all.push(lane).expect(rt, "memory");
}

/// Whether two volumes have one serial, or one controller and volume.
fn are_alike(one: &NamedVolume, other: &NamedVolume) -> bool
    ensures { result ≡ are_alike one.now other.now }
{
    one.serial == other.serial || (one.control == other.control && one.volume == other.volume)
}

/// Whether one of the volumes is like this one.
fn has_alike(volume: &NamedVolume, others: &[NamedVolume]) -> bool
    ensures { result ≡ list_any (are_alike volume.now) others.now }
{
    others.iter().any(|other| are_alike(volume, other))
}

/// Whether a volume is in its ranges.
fn is_in_ranges(volume: &NamedVolume) -> bool
    ensures { result ≡ are_in_ranges volume.now.control volume.now.volume volume.now.cylinders }
{
    volume.control <= 15
        && volume.volume <= 31
        && 1 <= volume.cylinders
        && volume.cylinders <= 1_000_000
}

/// The names of these volumes, without a label.
pub(crate) fn names_of(rt: &impl Abort, alloc: Global, named: &[NamedVolume]) -> Names
    ensures primaries { result.primaries ≡ named.now }
    ensures labels { result.labels ≡ [] }
{
    let mut names = Names::make(alloc).expect(rt, "memory");
    for place in 0..named.len() {
        let volume = named[place];
        assert!(rt; is_in_ranges(&volume) && !has_alike(&volume, &named[..place]));
        let NamedVolume {
            serial,
            control,
            volume,
            cylinders,
        } = volume;
        let noted = names.primary(alloc, serial, control, volume, cylinders);
        noted.expect(rt, "memory");
    }
    names
}
