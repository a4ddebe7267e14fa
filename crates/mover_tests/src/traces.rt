//! Traces as data.

use ckd_track::{Kind, Rec, Track, Write};
use std::alloc::Global;
use std::process::Abort;
use test_fixtures::bytes_of;
use tod_stamp::{Serial, Stamp};
use write_trace::{BaseList, Header, TraceWriter, VolumeHead, VolumeList};
use xrc_edge::Bytes;

/// An entry of a trace: its stamp, and what it tells of a track of a volume.
#[derive(Clone, Copy, Debug)]
pub(crate) enum Event {
    Idle(u64),
    /// The track has record 1 alone, of two bytes.
    Whole(u64, u16, u32, [u8; 2]),
}

/// A digit to the base 36.
fn digit(value: u16) -> u8 {
    let value = (value % 36) as u8;
    if value < 10 {
        b'0' + value
    } else {
        b'A' + (value - 10)
    }
}

/// A serial that ends in a number of two digits.
fn serial(rt: &impl Abort, front: &[u8; 4], number: u16) -> Serial {
    let mut name = [b'0'; 6];
    name[..4].copy_from_slice(front);
    name[4] = digit(number / 36);
    name[5] = digit(number);
    Serial::read(&name).expect(rt, "a serial")
}

/// PRIM01 for 1, and so on.
pub(crate) fn primary(rt: &impl Abort, number: u16) -> Serial {
    serial(rt, b"PRIM", number)
}

/// SEC001 for 1, and so on.
pub(crate) fn secondary(rt: &impl Abort, number: u16) -> Serial {
    serial(rt, b"SEC0", number)
}

/// The header of a trace of so many volumes of one cylinder, with serials from that of a number on.
fn header(rt: &impl Abort, alloc: Global, volumes: (u16, u16)) -> Header {
    let (first, many) = volumes;
    let mut heads = VolumeList::make(alloc);
    for volume in 0..many {
        let head = VolumeHead {
            serial: primary(rt, first.saturating_add(volume)),
            cylinders: 1,
        };
        heads.push(alloc, head).expect(rt, "memory");
    }
    Header {
        version: 1,
        volumes: heads,
        base: BaseList::make(alloc),
    }
}

/// The image of a track that has record 1 alone.
pub(crate) fn whole(rt: &impl Abort, alloc: Global, content: [u8; 2]) -> Kind {
    let rec = Rec {
        number: 1,
        key: Bytes::make(alloc),
        content: bytes_of(alloc, &content).expect(rt, "memory"),
    };
    let mut image = Track::make(alloc);
    assert!(rt; image.fits(&rec));
    image.push(alloc, rec).expect(rt, "memory");
    Kind::Whole { track: image }
}

/// Writes an image of a track, which has record 1 alone.
fn put_whole(
    rt: &impl Abort,
    alloc: Global,
    out: &mut Bytes,
    at: (u64, u16, u32),
    content: [u8; 2],
) {
    let (stamp, volume, track) = at;
    let kind = whole(rt, alloc, content);
    assert!(rt; stamp >= 1 && track < 15 && kind.keeps_rules());
    let write = Write {
        volume,
        track,
        stamp: Stamp(stamp),
        kind,
    };
    TraceWriter::write(alloc, out, 1, &write).expect(rt, "memory");
}

/// Writes an entry.
fn put(rt: &impl Abort, alloc: Global, out: &mut Bytes, event: Event) {
    match event {
        Event::Idle(stamp) => {
            assert!(rt; stamp >= 1);
            TraceWriter::idle(alloc, out, Stamp(stamp)).expect(rt, "memory");
        }
        Event::Whole(stamp, volume, track, content) => {
            put_whole(rt, alloc, out, (stamp, volume, track), content);
        }
    }
}

/// The bytes of a trace of so many volumes, with serials from that of a number on.
pub(crate) fn trace_bytes(
    rt: &impl Abort,
    alloc: Global,
    volumes: (u16, u16),
    events: &[Event],
) -> Bytes {
    let mut out = Bytes::make(alloc);
    let header = header(rt, alloc, volumes);
    assert!(rt; header.keeps_rules());
    TraceWriter::header(alloc, &mut out, &header).expect(rt, "memory");
    for event in events {
        put(rt, alloc, &mut out, *event);
    }
    out
}
