//! Traces that are read and written again: the worked one, one of two base tracks, and one of the largest parts.

use crate::fixtures::{TRACE, append, filled, source};
use std::alloc::Global;
use std::process::Abort;
use write_trace::{Entry, Header, TraceEnd, TraceWriter, read_entries, start};
use xrc_edge::Bytes;

/// Puts an entry that keeps the rules after a trace.
fn put(rt: &impl Abort, alloc: Global, out: &mut Bytes, version: u8, entry: &Entry) {
    let put = match entry {
        Entry::Written(write) => {
            assert!(rt; write.kind.keeps_rules());
            assert!(rt; write.stamp.0 >= 1 && write.track < 15_000_000);
            if version == 1 {
                assert!(rt; write.track < 982_800);
                TraceWriter::write(alloc, out, 1, write)
            } else {
                TraceWriter::write(alloc, out, 2, write)
            }
        }
        Entry::Idle(stamp) => {
            assert!(rt; stamp.0 >= 1);
            TraceWriter::idle(alloc, out, *stamp)
        }
    };
    put.expect(rt, "memory");
}

/// The trace of this header, which keeps the rules, and these entries.
fn written(rt: &impl Abort, alloc: Global, header: &Header, entries: &[Entry]) -> Bytes {
    assert!(rt; header.keeps_rules());
    let mut out = Bytes::make(alloc);
    TraceWriter::header(alloc, &mut out, header).expect(rt, "memory");
    for entry in entries {
        put(rt, alloc, &mut out, header.version, entry);
    }
    out
}

/// What is read of the bytes in pieces, so many entries, and written again, is these bytes.
fn reads_back(rt: &impl Abort, alloc: Global, bytes: &[u8], most: u32, count: usize) {
    assert!(rt; most > 0);
    let mut source = source(rt, alloc, bytes, most, &[]);
    let (header, mut reader) = start(alloc, &mut source).expect(rt, "a header");
    let read = read_entries(alloc, &mut reader, &mut source);
    let (entries, end) = read.expect(rt, "memory");
    assert_eq!(rt; (entries.len(), end), (count, TraceEnd::Ended));
    let again = written(rt, alloc, &header, entries.as_slice());
    assert!(rt; again.as_slice() == bytes);
}

/// Two volumes of one cylinder, with track 5 of the first and track 0 of the second; an idle entry, and a format after record 1.
const TWO_BASES: [u8; 74] =
    *b"XTR1\0\x02A     \0\x01B     \0\x01\0\0\0\x02\0\0\0\0\0\x05\0\0\0\x01\0\0\0\0\0\0\x01\0\0\0\0\0\0\0\x09\x03\0\0\0\0\0\0\0\x09\0\0\0\0\0\x03\x01\x01\x02\0\0\x02CD";

/// Version 2: a volume of 70,000 cylinders with its track 1,049,999 empty; that track whole, an update of it, and an idle entry.
const LARGE: [u8; 86] =
    *b"XTR2\0\x01PRIM01\0\x01\x11\x70\0\0\0\x01\0\0\0\x01\x11\x6F\0\x0E\0\0\x04\0\0\0\0\0\0\0\x64\0\0\0\x01\x11\x6F\0\x0E\0\x01\x01\0\0\x02AB\x02\0\0\0\0\0\0\0\x65\0\0\0\x01\x11\x6F\0\x0E\x01\0\x02CD\x01\0\0\0\0\0\0\0\x66";

#[test]
fn traces_are_read_and_written_again(rt: HostRuntime) {
    let alloc = rt.alloc();
    for most in [1, 7, 64, 65_536] {
        reads_back(&rt, alloc, &TRACE, most, 2);
        reads_back(&rt, alloc, &TWO_BASES, most, 2);
        reads_back(&rt, alloc, &LARGE, most, 3);
    }
}

/// Puts a header of 32 volumes, each of one cylinder more than the one before, up to the number of its base tracks.
fn put_volumes(rt: &impl Abort, alloc: Global, out: &mut Bytes) {
    append(rt, alloc, out, b"XTR1\0\x20");
    for number in 0..32u8 {
        append(
            rt,
            alloc,
            out,
            &[b'P', b'A' + number / 10, b'0' + number % 10],
        );
        append(rt, alloc, out, &[b' ', b' ', b' ', 0, 1 + number]);
    }
}

#[test]
fn the_largest_parts_are_read_and_written_again(rt: HostRuntime) {
    let alloc = rt.alloc();
    // Base tracks of the first and the last volume; the longest update, a format of three records, a full track, an update without bytes,
    // and an idle entry at the last stamp. Each part has so many bytes after it.
    let parts: [(&[u8], usize); 10] = [
        (b"\0\0\0\x02\0\0\0\0\0\x0E\0\x02\x02\xFF\0\x03", 258),
        (b"\x09\0\0\x04", 4),
        (b"\0\x1F\0\x1F\0\x0E\0\x01\x01\0\xDD\x50", 56_656),
        (
            b"\x02\0\0\0\0\0\0\0\x01\0\x1F\0\x1F\0\x0E\xFF\xDD\x50",
            56_656,
        ),
        (b"\x03\0\0\0\0\0\0\0\x01\0\0\0\0\0\0\x03\x03\x04\x07\0\0", 7),
        (b"\x05\0\0\x64", 100),
        (b"\xFF\xFF\0\x01", 256),
        (
            b"\x04\0\0\0\0\0\0\0\x09\0\x07\0\x07\0\x0E\0\x01\x01\0\xDD\x50",
            56_656,
        ),
        (b"\x02\0\0\0\0\0\0\0\x09\0\x02\0\x02\0\x0E\x01\0\0", 0),
        (b"\x01\xFF\xFF\xFF\xFF\xFF\xFF\xFF\xFF", 0),
    ];
    let mut bytes = Bytes::make(alloc);
    put_volumes(&rt, alloc, &mut bytes);
    for (part, more) in parts {
        append(&rt, alloc, &mut bytes, part);
        append(&rt, alloc, &mut bytes, filled(&rt, alloc, more).as_slice());
    }
    let length = 266 + 278 + 56_668 + 56_674 + 392 + 56_677 + 18 + 9;
    assert_eq!(rt; bytes.len(), length);
    for most in [1_000, 65_536] {
        reads_back(&rt, alloc, bytes.as_slice(), most, 5);
    }
}
