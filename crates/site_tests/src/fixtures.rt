//! What the tests of a site share: an assertion, the session ABC, pairs and tables.

ghost use Rattle.std.specs.Prelude.{◌≡◌};

use pair_table::{PairRow, PairState, PairTable};
use std::alloc::Global;
use std::fmt::Debug;
use std::process::Abort;
use tod_stamp::{Serial, Session};

/// The length that a journal needs for one controller.
pub(crate) const JOURNAL: u64 = 1_826_816;

/// What was found is what was expected. The message names the case.
pub(crate) fn assert_same<T: PartialEq + Debug>(
    rt: &impl Abort,
    found: &T,
    expected: &T,
    case: &impl Debug,
) {
    assert_eq!(rt; found, expected, "{case:?}");
}

pub(crate) fn session(rt: &impl Abort) -> Session {
    Session::read(b"ABC").expect(rt, "a name")
}

pub(crate) fn serial(rt: &impl Abort, name: &[u8]) -> Serial {
    Serial::read(name).expect(rt, "a name")
}

/// The row of PRIM01 and SEC001: of a volume of controller 0, on device 0, with one cylinder, duplex.
pub(crate) fn first_row(rt: &impl Abort, volume: u16) -> PairRow
    ensures device { result.device ≡ 0 }
    ensures cylinders { result.cylinders ≡ 1 }
{
    PairRow {
        primary: serial(rt, b"PRIM01"),
        secondary: serial(rt, b"SEC001"),
        control: 0,
        volume,
        device: 0,
        cylinders: 1,
        state: PairState::Duplex,
        group: None,
    }
}

/// The row of PRIM02 and SEC002, of a volume of controller 0.
pub(crate) fn second_row(
    rt: &impl Abort,
    volume: u16,
    device: u16,
    cylinders: u32,
    state: PairState,
) -> PairRow
    ensures device { result.device ≡ device }
    ensures cylinders { result.cylinders ≡ cylinders }
{
    PairRow {
        primary: serial(rt, b"PRIM02"),
        secondary: serial(rt, b"SEC002"),
        control: 0,
        volume,
        device,
        cylinders,
        state,
        group: None,
    }
}

/// Puts a row into a table.
pub(crate) fn put_row(rt: &impl Abort, alloc: Global, table: &mut PairTable, row: PairRow) {
    assert!(rt; table.may_put(&row));
    table.put_row(alloc, row).expect(rt, "memory");
}
