//! What sidefiles hand over of traces in pieces of seven bytes: batches with the time up to which they are, limits, and breaks.

use crate::fixtures::{TRACE, append, listed, source};
use sidefile::{Cause, Hand, Sidefile};
use std::alloc::Global;
use std::process::Abort;
use tod_stamp::Stamp;
use write_trace::start;
use xrc_edge::Bytes;

/// A hand, with the number of a batch's writes and the time up to which it is.
#[derive(Clone, Copy, PartialEq, Eq)]
enum Told {
    Batch(usize, u64),
    AtLimit,
    Broken(Cause, u64),
    NoMemory,
}

fn told_of(hand: &Hand) -> Told {
    match hand {
        Hand::Batch(batch) => Told::Batch(batch.writes.len(), batch.upto.0),
        Hand::AtLimit => Told::AtLimit,
        Hand::Broken { cause, upto } => Told::Broken(*cause, upto.0),
        Hand::NoMemory => Told::NoMemory,
    }
}

fn break_told(told: Told) -> Option<(Stamp, Cause)> {
    match told {
        Told::Broken(cause, upto) => Some((Stamp(upto), cause)),
        _ => None,
    }
}

/// The header of the worked trace, and so many updates of record 1 of track 3 at each of these stamps.
fn updates(rt: &impl Abort, alloc: Global, runs: &[(u8, u32)]) -> Bytes {
    let mut bytes = listed(rt, alloc, &TRACE[..18]);
    for (stamp, count) in runs {
        for _ in 0..*count {
            append(rt, alloc, &mut bytes, &[2, 0, 0, 0, 0, 0, 0, 0, *stamp]);
            append(rt, alloc, &mut bytes, &[0, 0, 0, 0, 0, 3, 1, 0, 1, 0x5A]);
        }
    }
    bytes
}

/// These are the hands of a trace at these limits, which do not fall, where the marked pulls fail.
fn hands_are(rt: &impl Abort, alloc: Global, bytes: &[u8], fails: &[u8], expected: &[(u64, Told)]) {
    let mut source = source(rt, alloc, bytes, 7, fails);
    let (_, reader) = start(alloc, &mut source).expect(rt, "a header");
    let mut side = Sidefile::make(alloc, 2, reader).expect(rt, "memory");
    let mut last = 0;
    for (limit, hand) in expected {
        assert!(rt; last <= *limit);
        last = *limit;
        let told = told_of(&side.handover(alloc, &mut source, Stamp(last)));
        assert!(rt; told == *hand && side.broken() == break_told(*hand));
    }
}

#[test]
fn runs_are_handed_over_up_to_limits(rt: HostRuntime) {
    let alloc = rt.alloc();
    let crowd = (100, Told::Broken(Cause::Crowded(Stamp(9)), 8));
    let hands = [
        (4, Told::AtLimit),
        (6, Told::Batch(32, 6)),
        (7, Told::AtLimit),
        (8, Told::Batch(1, 8)),
        (8, Told::AtLimit),
        crowd,
        crowd,
    ];
    let bytes = updates(&rt, alloc, &[(5, 32), (8, 1), (9, 33)]);
    hands_are(&rt, alloc, bytes.as_slice(), &[], &hands);
    let bytes = updates(&rt, alloc, &[(5, 2), (9, 1)]);
    let hands = [
        (100, Told::Batch(2, 8)),
        (100, Told::Batch(1, 100)),
        (u64::MAX, Told::AtLimit),
    ];
    hands_are(&rt, alloc, bytes.as_slice(), &[], &hands);
}

#[test]
fn bad_entries_and_failing_pulls_break_below_the_last_run(rt: HostRuntime) {
    let (mut tag, mut stamp) = (TRACE, TRACE);
    tag[41] = 7;
    stamp[49] = 0x63;
    let (first, second) = (Cause::BadTrace(18), Cause::BadTrace(41));
    // The bytes, the pulls that fail, the cause, and the time of the break.
    let cases: [(&[u8], &[u8], Cause, u64); 9] = [
        (&TRACE[..19], &[], first, 0),
        (&TRACE[..40], &[], first, 0),
        (&TRACE[..42], &[], second, 0x63),
        (&TRACE[..59], &[], second, 0x63),
        (&tag, &[0, 0, 0, 0, 0, 0, 1], second, 0x63),
        (&stamp, &[], second, 0x63),
        (&TRACE, &[0, 0, 0, 1], Cause::ReadFault, 0),
        (&TRACE, &[0, 0, 0, 0, 0, 0, 1], Cause::ReadFault, 0x63),
        (
            &TRACE,
            &[0, 0, 0, 0, 0, 0, 0, 0, 0, 1],
            Cause::ReadFault,
            0x6D,
        ),
    ];
    for (bytes, fails, cause, upto) in cases {
        let broken = (200, Told::Broken(cause, upto));
        let batch = (200, Told::Batch(1, 0x6D));
        let hands = if upto == 0x6D {
            [batch, broken, broken]
        } else {
            [broken, broken, broken]
        };
        hands_are(&rt, rt.alloc(), bytes, fails, &hands);
    }
}
