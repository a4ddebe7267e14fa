//! A pair comes and goes by commands and by a failure, and each change of its row is taken over into the shared state.

ghost use Rattle.std.specs.Prelude.{◌≡◌};
ghost use Rattle.pair_table.specs.Commands.{MayCommand};
ghost use Rattle.pair_table.specs.Tables.{Table};
ghost use Rattle.group_tests.specs.Changes.{TakesChanges, are_live};

use crate::fixtures::assert_same;
use group_state::GroupState;
use pair_table::{Change, Choice, Command, Names, PairRow, PairState, PairTable, SuspendCause};
use std::alloc::Global;
use std::process::Abort;
use tod_stamp::{Serial, Session, Stamp};
use xrc_edge::MOST_CONTROLS;
use xrc_session::take_change;

const SUSPEND: Command = Command::Suspend(Choice::All);

const DELETE: Command = Command::DelPair(Choice::All);

/// A session's names and rows, with the shared state that carries its volumes.
#[derive(Drop)]
struct Pairs {
    names: Names,
    table: PairTable,
    state: GroupState,
}

fn serial(rt: &impl Abort, name: &[u8]) -> Serial {
    Serial::read(name).expect(rt, "a serial")
}

/// Volume 0 of controller 0 is PRIM01, of two cylinders, and device 0 is SEC001.
fn names(rt: &impl Abort, alloc: Global) -> Names {
    let mut names = Names::make(alloc).expect(rt, "memory");
    let primary = names.primary(alloc, serial(rt, b"PRIM01"), 0, 0, 2);
    primary.expect(rt, "memory");
    let label = names.label(alloc, 0, serial(rt, b"SEC001"), 2);
    label.expect(rt, "memory");
    names
}

/// A started session without a row, and a new state of all controllers.
fn begun(rt: &impl Abort, alloc: Global) -> Pairs
    ensures { TakesChanges result.names result.table result.state }
{
    let session = Session::read(b"ABC").expect(rt, "a name");
    let mut table = PairTable::make(alloc, session).expect(rt, "memory");
    table.start();
    Pairs {
        names: names(rt, alloc),
        table,
        state: GroupState::make(alloc, MOST_CONTROLS as u16, 1, 1).expect(rt, "memory"),
    }
}

/// The rows of a table, in order.
fn rows_of(rt: &impl Abort, alloc: Global, table: &PairTable) -> Vec<PairRow>
    ensures { result.items ≡ table.now.rows }
{
    let mut rows = Vec::new(alloc);
    for place in 0..table.len() {
        let row = table.row(place).expect(rt, "a row");
        rows.push(*row).expect(rt, "memory");
    }
    rows
}

/// Whether none of the rows is suspended.
fn are_live(rows: &[PairRow]) -> bool
    ensures { result ≡ are_live rows.now }
{
    rows.iter().all(|row| !matches!(row.state, PairState::Suspended { cause: _, since: _ }))
}

/// Does a command, and takes its change over. Tells how many tracks are to be copied.
fn command(rt: &impl Abort, alloc: Global, pairs: &mut Pairs, command: &Command, at: u64) -> u32
    requires { TakesChanges pairs.old.names pairs.old.table pairs.old.state }
    ensures { TakesChanges pairs.new.names pairs.new.table pairs.new.state }
{
    let before = rows_of(rt, alloc, &pairs.table);
    let session = pairs.table.session();
    let answer = pairs
        .table
        .command(alloc, &pairs.names, session, command, Stamp(at));
    let change = answer.expect(rt, "a change");
    assert!(rt; pairs.table.len() <= 1);
    let taken = take_change(
        alloc,
        &mut pairs.state,
        before.as_slice(),
        &pairs.table,
        &change,
    );
    taken.expect(rt, "memory")
}

/// Device 0 fails, which suspends its row. Tells how many tracks are to be copied.
fn fail(rt: &impl Abort, alloc: Global, pairs: &mut Pairs, at: u64) -> u32
    requires { TakesChanges pairs.old.names pairs.old.table pairs.old.state }
    ensures { TakesChanges pairs.new.names pairs.new.table pairs.new.state }
{
    let before = rows_of(rt, alloc, &pairs.table);
    assert!(rt; are_live(before.as_slice()));
    assert!(rt; pairs.table.row_of(0).is_some());
    let state = PairState::Suspended {
        cause: SuspendCause::Device,
        since: Stamp(at),
    };
    pairs.table.set_state(0, state);
    let change = Change::Nothing;
    let taken = take_change(
        alloc,
        &mut pairs.state,
        before.as_slice(),
        &pairs.table,
        &change,
    );
    taken.expect(rt, "memory")
}

/// All tracks of an added pair are to be copied, and again when it is resumed, and when it is added anew.
#[test]
fn a_pair_comes_and_goes(rt: HostRuntime) {
    let alloc = rt.alloc();
    let add = Command::AddPair {
        primary: serial(&rt, b"PRIM01"),
        secondary: serial(&rt, b"SEC001"),
        group: None,
    };
    let mut pairs = begun(&rt, alloc);
    let added = command(&rt, alloc, &mut pairs, &add, 1);
    let suspended = command(&rt, alloc, &mut pairs, &SUSPEND, 2);
    let resumed = command(&rt, alloc, &mut pairs, &add, 3);
    let failed = fail(&rt, alloc, &mut pairs, 4);
    let gone = command(&rt, alloc, &mut pairs, &DELETE, 5);
    let anew = command(&rt, alloc, &mut pairs, &add, 6);
    let found = [added, suspended, resumed, failed, gone, anew];
    assert_same(&rt, &found, &[30, 0, 30, 0, 0, 30], &"tracks to copy");
}
