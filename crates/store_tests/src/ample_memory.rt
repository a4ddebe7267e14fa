//! The calls of a site that take memory, each made once with ample memory.

ghost use Rattle.std.specs.Prelude.{nat_lt, IsTrue};
ghost use Rattle.std.specs.List.{list_all};
ghost use Rattle.crash_plant.specs.Calls.{NoneLent};

use crate::calls::{assert_lengths, session};
use crate::fixtures::{plant, row, serial};
use crash_plant::Plant;
use pair_table::{Change, Command, Level, Names, PairRow, PairState, PairTable};
use site_store::Site;
use std::alloc::Global;
use std::process::Abort;
use tod_stamp::Stamp;

/// Names PRIM01 as volume 0 of controller 0, and device 1 as SECN02.
fn names(rt: &impl Abort, alloc: Global) -> Names
    ensures { IsTrue (list_all (λ label. nat_lt label.device 2) result.labels) }
{
    let mut names = Names::make(alloc).expect(rt, "memory");
    names
        .primary(alloc, serial(rt, b"PRIM", 0), 0, 0, 1)
        .expect(rt, "memory");
    names
        .label(alloc, 1, serial(rt, b"SECN", 1), 1)
        .expect(rt, "memory");
    names
}

/// The table has one row, and this is it.
fn assert_row(rt: &impl Abort, table: &PairTable, row: &PairRow) {
    assert!(rt; table.len() == 1);
    assert!(rt; table.row(0) == Some(row));
}

/// A start's answer is a site of its level at its time, without pairs.
fn assert_started<V>(rt: &impl Abort, site: &Site<V>) {
    assert!(rt; site.level() == Level::Session);
    assert!(rt; site.time() == Stamp(0x50));
    assert!(rt; site.since() == 0);
    assert!(rt; site.table().len() == 0);
}

/// A session starts, and a row is put.
fn put_one<P: Plant>(rt: &impl Abort, alloc: Global, plant: &mut P)
    requires { NoneLent (P.state plant.old) }
{
    assert_lengths(rt, plant);
    let made = Site::format(alloc, plant, session(rt), Level::Session, 1, Stamp(0x50));
    let mut site = made.expect(rt, "a start");
    assert_started(rt, &site);
    let row = row(rt, 1, 1, PairState::Copy);
    assert!(rt; site.table().may_put(&row));
    assert!(rt; site.put_row(alloc, row).is_ok());
    assert_row(rt, site.table(), &row);
}

/// A session starts, and a command adds a pair.
fn add_one<P: Plant>(rt: &impl Abort, alloc: Global, plant: &mut P)
    requires { NoneLent (P.state plant.old) }
{
    assert_lengths(rt, plant);
    assert!(rt; plant.volumes() == 2);
    let made = Site::format(alloc, plant, session(rt), Level::Session, 1, Stamp(0x50));
    let mut site = made.expect(rt, "a start");
    let names = names(rt, alloc);
    let row = PairRow {
        primary: serial(rt, b"PRIM", 0),
        secondary: serial(rt, b"SECN", 1),
        control: 0,
        volume: 0,
        device: 1,
        cylinders: 1,
        state: PairState::Pending,
        group: None,
    };
    let command = Command::AddPair {
        primary: row.primary,
        secondary: row.secondary,
        group: None,
    };
    let answer = site.command(alloc, &names, session(rt), &command, Stamp(0x60));
    assert!(rt; matches!(answer, Ok(Change::Added(1))));
    assert_row(rt, site.table(), &row);
}

#[test]
fn a_start_and_a_row_that_is_put_are_answered(rt: HostRuntime) {
    let alloc = rt.alloc();
    put_one(&rt, alloc, &mut plant(&rt, alloc, 2, 1, &[]));
}

#[test]
fn a_command_that_adds_a_pair_is_answered(rt: HostRuntime) {
    let alloc = rt.alloc();
    add_one(&rt, alloc, &mut plant(&rt, alloc, 2, 1, &[]));
}
