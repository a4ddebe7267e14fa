//! A state of 64 rows at level SESSION in its second slot, after a mark by which the session has ended.

ghost use Rattle.crash_plant.specs.Calls.{NoneLent};

use crate::fixtures::{JOURNAL, assert_same, first_row, put_row, serial, session};
use crash_plant::{Device, Plant, Spot};
use pair_table::{Level, PairRow, PairState, PairTable};
use site_means::{Means, examine};
use std::alloc::Global;
use std::process::Abort;
use test_fixtures::{put, zeros};
use tod_stamp::Stamp;

/// A mark of ABC with the number 2: state slot 1, journal 1, place 100, record 5, time 60, ended.
const MARK: [u8; 49] = [
    0x01, 0x58, 0x43, 0x54, 0x4C, 0x00, 0x00, 0x00, 0x00, 0x00, 0x00, 0x00, 0x02, 0x41, 0x42, 0x43,
    0x20, 0x20, 0x20, 0x20, 0x20, 0x01, 0x00, 0x01, 0x00, 0x00, 0x00, 0x00, 0x00, 0x00, 0x00, 0x64,
    0x00, 0x00, 0x00, 0x00, 0x00, 0x00, 0x00, 0x05, 0x00, 0x00, 0x00, 0x00, 0x00, 0x00, 0x00, 0x60,
    0x01,
];

/// Its spot.
const FROM: Spot = Spot {
    set: 1,
    place: 100,
    number: 5,
};

/// A row that clashes with none of another number, of which each controller has sixteen.
fn numbered(rt: &impl Abort, number: u8) -> PairRow {
    let name = [b'P', b'A' + number / 16 % 16, b'A' + number % 16];
    PairRow {
        primary: serial(rt, &name),
        control: u16::from(number / 16 % 16),
        device: u16::from(number),
        state: PairState::Pending,
        ..first_row(rt, u16::from(number % 16))
    }
}

/// The table of ABC with 64 rows, the last device's first.
fn full_table(rt: &impl Abort, alloc: Global) -> PairTable {
    let mut table = PairTable::make(alloc, session(rt)).expect(rt, "memory");
    for number in 0..64 {
        let row = numbered(rt, 63 - number);
        put_row(rt, alloc, &mut table, row);
    }
    table
}

/// Puts the table and the mark.
#[tactic(auto, using(crash_plant::proofs::Steps::none_lent_then))]
fn put_site<P: Plant>(rt: &impl Abort, alloc: Global, plant: &mut P, table: &PairTable)
    requires { NoneLent (P.state plant.old) }
    ensures { NoneLent (P.state plant.new) }
{
    assert!(rt; plant.length(Device::State) >= 16_384);
    assert!(rt; table.are_devices_below(plant.volumes()));
    let stated = state_set::put(plant, 1, Level::Session, table);
    assert_same(rt, &stated, &Ok(()), &"the state");
    assert!(rt; put(plant, Device::Control, 512, &MARK));
}

/// A site means this table at level SESSION, and that the session has ended.
fn assert_means(rt: &impl Abort, means: &Means, table: &PairTable) {
    let found = (means.session, means.level, means.time, means.from);
    let expected = (session(rt), Level::Session, Stamp(0x60), FROM);
    assert_same(rt, &found, &expected, &"the site");
    assert_same(rt, &(means.ended, means.table.len()), &(true, 64), &"rows");
    for place in 0..64 {
        let row = means.table.row(place);
        assert_same(rt, &row, &table.row(place), &place);
    }
}

#[test]
fn sixty_four_rows_are_put_and_meant(rt: HostRuntime) {
    let alloc = rt.alloc();
    let table = full_table(&rt, alloc);
    let made = zeros(alloc, (2, JOURNAL), (64, 0), b"");
    let mut plant = made.expect(&rt, "memory");
    put_site(&rt, alloc, &mut plant, &table);
    let means = examine(alloc, &mut plant).expect(&rt, "a site");
    assert_means(&rt, &means, &table);
}
