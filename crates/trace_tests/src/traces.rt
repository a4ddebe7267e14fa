//! Headers that keep the rules and others, and the end of a trace.

use crate::fixtures::{TRACE, serial, source};
use ckd_track::Track;
use std::alloc::Global;
use std::process::Abort;
use write_trace::{BaseList, Header, Next, TraceEnd, VolumeHead, VolumeList, read_entries, start};

/// A header of a version, of volumes of one and of that many cylinders with these serials, and an empty base track.
fn header(
    rt: &impl Abort,
    alloc: Global,
    version: u8,
    serials: [&[u8]; 2],
    most: u32,
    place: (u16, u32),
) -> Header {
    let mut volumes = VolumeList::make(alloc);
    for (name, cylinders) in serials.into_iter().zip([1, most]) {
        let serial = serial(rt, name);
        let head = VolumeHead { serial, cylinders };
        volumes.push(alloc, head).expect(rt, "memory");
    }
    let mut base = BaseList::make(alloc);
    let (volume, track) = place;
    base.push(alloc, (volume, track, Track::make(alloc)))
        .expect(rt, "memory");
    Header {
        version,
        volumes,
        base,
    }
}

#[test]
fn headers_keep_the_rules_or_not(rt: HostRuntime) {
    let alloc = rt.alloc();
    let (two, same) = ([b"PRIM01".as_slice(), b"PRIM02"], [b"PRIM01".as_slice(); 2]);
    let cases = [
        (1, two, 65_520, (1, 982_799), true),
        (1, two, 65_521, (0, 0), false),
        (1, two, 65_520, (0, 14), true),
        (1, two, 65_520, (0, 15), false),
        (1, two, 65_520, (2, 0), false),
        (1, same, 65_520, (0, 0), false),
        (2, two, 65_521, (1, 982_814), true),
        (2, two, 1_000_000, (1, 14_999_999), true),
        (2, two, 1_000_000, (1, 15_000_000), false),
        (2, two, 1_000_001, (0, 0), false),
        (0, two, 1, (0, 0), false),
        (3, two, 1, (0, 0), false),
    ];
    for (version, serials, most, place, keeps) in cases {
        let header = header(&rt, alloc, version, serials, most, place);
        assert!(rt; header.keeps_rules() == keeps, "{version} {place:?}");
    }
}

#[test]
fn the_end_is_answered_again_and_again(rt: HostRuntime) {
    let alloc = rt.alloc();
    let mut source = source(&rt, alloc, &TRACE[..59], 7, &[]);
    let (_, mut reader) = start(alloc, &mut source).expect(&rt, "a header");
    assert!(rt; matches!(reader.next(alloc, &mut source), Next::Write(_)));
    for _ in 0..2 {
        assert!(rt; matches!(reader.next(alloc, &mut source), Next::BadTrace(41)));
    }
}

#[test]
fn entries_are_read_up_to_the_end(rt: HostRuntime) {
    let alloc = rt.alloc();
    let mut source = source(&rt, alloc, &TRACE[..59], 7, &[]);
    let (_, mut reader) = start(alloc, &mut source).expect(&rt, "a header");
    let read = read_entries(alloc, &mut reader, &mut source);
    let (entries, end) = read.expect(&rt, "memory");
    assert_eq!(rt; (entries.len(), end), (1, TraceEnd::BadTrace(41)));
}
