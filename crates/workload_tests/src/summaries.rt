//! The lines that sum up sites as finished sessions would leave them.

use crate::finished::{may_be_summed_up, put_site, put_tracks};
use crate::inputs::assert_same;
use pair_table::{PairState, SuspendCause};
use std::alloc::Global;
use std::process::Abort;
use tod_stamp::Stamp;
use workload::{generate, summary};

/// The input of a number is summed up so, where its session has left the first pair in a state.
fn assert_summary(rt: &impl Abort, alloc: Global, number: u32, first: PairState, expected: &[u8]) {
    let (mut sources, mut plant) = generate(alloc, number).expect(rt, "memory");
    put_site(rt, alloc, &mut plant, first);
    assert!(rt; sources.len() == 4);
    for control in 0..4 {
        assert!(rt; control < sources.len());
        put_tracks(rt, alloc, &mut plant, &mut sources[control], control as u16);
    }
    assert!(rt; may_be_summed_up(alloc, &mut plant));
    let line = summary(alloc, number, &mut plant).expect(rt, "memory");
    assert_same(rt, &line.as_slice(), &expected, &number);
    assert_same(rt, &plant.said().len(), &0, &"what was said");
}

/// The bytes of the last writes run from 124 + N to 243 + N on each controller: 120 records of eight bytes, on four controllers.
#[test]
fn finished_sessions_are_summed_up(rt: HostRuntime) {
    let alloc = rt.alloc();
    let seven =
        b"GENERATE 7 LINES 12 PAIRS 8 WRITES 2000 DUPLEX 8 RECORDS 480 SUM 731520 T=0000000000000DAC\n";
    assert_summary(&rt, alloc, 7, PairState::Duplex, seven);
    let zero =
        b"GENERATE 0 LINES 12 PAIRS 8 WRITES 2000 DUPLEX 8 RECORDS 480 SUM 704640 T=0000000000000DAC\n";
    assert_summary(&rt, alloc, 0, PairState::Duplex, zero);
}

/// Without the first pair, whose 60 records have the even bytes from 132 to 250.
#[test]
fn only_duplex_pairs_are_counted(rt: HostRuntime) {
    let alloc = rt.alloc();
    let expected =
        b"GENERATE 7 LINES 12 PAIRS 8 WRITES 2000 DUPLEX 7 RECORDS 420 SUM 639840 T=0000000000000DAC\n";
    let suspended = PairState::Suspended {
        cause: SuspendCause::Command,
        since: Stamp(1_500),
    };
    assert_summary(&rt, alloc, 7, suspended, expected);
    assert_summary(&rt, alloc, 7, PairState::Copy, expected);
}
