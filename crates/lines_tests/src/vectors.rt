//! Worked traces with their lines, and bytes that are no trace.

use std::alloc::Global;
use std::process::Abort;
use trace_lines::{Unread, text_of_trace, trace_of_text};

/// A trace has these lines, and they say the trace.
fn is_said(rt: &impl Abort, alloc: Global, trace: &[u8], lines: &str) {
    let text = text_of_trace(alloc, trace).expect(rt, "lines");
    assert!(rt; text.as_slice() == lines.as_bytes());
    let again = trace_of_text(alloc, lines.as_bytes()).expect(rt, "a trace");
    assert!(rt; again.as_slice() == trace);
}

#[test]
fn traces_have_their_lines(rt: HostRuntime) {
    let table: [(&[u8], &str); 8] = [
        (
            b"XTR1\0\x01PRIM01\0\x01\0\0\0\0",
            "version 1\nvolume PRIM01 1\n",
        ),
        (
            b"XTR1\0\x01PRIM01\0\x01\0\0\0\0\x04\0\0\0\0\0\0\0\x64\0\0\0\0\0\x03\0\x01\x01\0\0\x02AB\x02\0\0\0\0\0\0\0\x6E\0\0\0\0\0\x03\x01\0\x01Z",
            "version 1\nvolume PRIM01 1\nwrite 0000000000000064 0 3 1::\"AB\"\nupdate 000000000000006E 0 3 1 \"Z\"\n",
        ),
        (
            b"XTR1\0\x01PRIM01\0\x02\0\0\0\x02\0\0\0\0\0\x03\0\0\0\0\0\x01\0\x04\0\0",
            "version 1\nvolume PRIM01 2\nbase 0 3\nbase 0 19\n",
        ),
        (
            b"XTR1\0\x01PRIM01\0\x01\0\0\0\0\x03\0\0\0\0\0\0\0\x64\0\0\0\0\0\x03\x01\x01\x02\0\0\x01Q",
            "version 1\nvolume PRIM01 1\nformat 0000000000000064 0 3 1 2::\"Q\"\n",
        ),
        (
            b"XTR1\0\x01PRIM01\0\x01\0\0\0\0\x01\0\0\0\0\0\0\0\x64",
            "version 1\nvolume PRIM01 1\nidle 0000000000000064\n",
        ),
        (
            b"XTR1\0\x02A     \0\x01B     \0\x01\0\0\0\x02\0\0\0\0\0\x05\0\0\0\x01\0\0\0\0\0\0\x01\0\0\0\0\0\0\0\x09\x03\0\0\0\0\0\0\0\x09\0\0\0\0\0\x03\x01\x02\x02\x02\0\x02K:C \x03\0\0\0",
            "version 1\nvolume A 1\nvolume B 1\nbase 0 5\nbase 1 0\nidle 0000000000000009\nformat 0000000000000009 0 3 1 2:4B3A:4320 3::\"\"\n",
        ),
        (
            b"XTR2\0\x01PRIM01\0\x01\x11\x70\0\0\0\0\x04\0\0\0\0\0\0\0\x64\0\0\0\x01\x11\x6F\0\x0E\0\x01\x01\0\0\x02AB",
            "version 2\nvolume PRIM01 70000\nwrite 0000000000000064 0 1049999 1::\"AB\"\n",
        ),
        (
            b"XTR2\0\x01PRIM01\0\x0F\x42\x40\0\0\0\x01\0\0\0\x0F\x42\x3F\0\x0E\0\0",
            "version 2\nvolume PRIM01 1000000\nbase 0 14999999\n",
        ),
    ];
    for (trace, lines) in table {
        is_said(&rt, rt.alloc(), trace, lines);
    }
}

#[test]
fn lines_that_name_no_version_are_of_version_1(rt: HostRuntime) {
    let written = trace_of_text(rt.alloc(), b"volume PRIM01 1\n").expect(&rt, "a trace");
    assert!(rt; written.as_slice() == b"XTR1\0\x01PRIM01\0\x01\0\0\0\0".as_slice());
}

#[test]
fn other_bytes_have_no_lines(rt: HostRuntime) {
    let table: [(&[u8], Unread); 20] = [
        (b"XTR3\0\x01", Unread::BadHeader(0)),
        (b"XTR2\0\x01", Unread::BadHeader(6)),
        (b"XTR2\0\x01PRIM01\0\x01\0\0", Unread::BadHeader(16)),
        (
            b"XTR2\0\x01PRIM01\0\x0F\x42\x41\0\0\0\0",
            Unread::BadHeader(12),
        ),
        (b"XTR", Unread::BadHeader(0)),
        (b"XTR1\0", Unread::BadHeader(4)),
        (b"XTR1\0\0", Unread::BadHeader(4)),
        (b"XTR1\0\x01PRIM0", Unread::BadHeader(6)),
        (b"XTR1\0\x01pRIM01\0\x01\0\0\0\0", Unread::BadHeader(6)),
        (b"XTR1\0\x01PRIM01", Unread::BadHeader(12)),
        (b"XTR1\0\x01PRIM01\0\x01\0\0\0", Unread::BadHeader(14)),
        (b"XTR1\0\x01PRIM01\0\x01\0\0\0\x10", Unread::BadHeader(14)),
        (
            b"XTR1\0\x02PRIM01\0\x01PRIM01\0\x01\0\0\0\0",
            Unread::BadHeader(14),
        ),
        (
            b"XTR1\0\x01PRIM01\0\x02\0\0\0\x02\0\0\0\0\0\x03\0\0\0\0\0\0\0\x03\0\0",
            Unread::BadHeader(26),
        ),
        (
            b"XTR1\0\x01PRIM01\0\x02\0\0\0\x02\0\0\0\0\0\x03\0\0\0\0\0\x02\0\x04\0\0",
            Unread::BadHeader(28),
        ),
        (
            b"XTR1\0\x01PRIM01\0\x02\0\0\0\x02\0\0\0\0\0\x03\0\0\0\0\0\0\0\x0F\0\0",
            Unread::BadHeader(30),
        ),
        (b"XTR1\0\x01PRIM01\0\x01\0\0\0\0\x01", Unread::BadTrace(18)),
        (
            b"XTR1\0\x01PRIM01\0\x01\0\0\0\0\x07\0\0\0\0\0\0\0\x64",
            Unread::BadTrace(18),
        ),
        (
            b"XTR1\0\x01PRIM01\0\x01\0\0\0\0\x01\0\0\0\0\0\0\0\0",
            Unread::BadTrace(18),
        ),
        (
            b"XTR1\0\x01PRIM01\0\x01\0\0\0\0\x01\0\0\0\0\0\0\0\x64\x01\0\0\0\0\0\0\0\x63",
            Unread::BadTrace(27),
        ),
    ];
    for (bytes, why) in table {
        let read = text_of_trace(rt.alloc(), bytes);
        assert!(rt; read.err() == Some(why), "{why:?}");
    }
}
