//! Rows of pairs, both ways, and tables of them.

ghost use Rattle.std.specs.Prelude.{◌≡◌, []};

use crate::fixtures::serial;
use pair_table::{
    PairRow, PairState, PairTable, SuspendCause, decode_row, decode_row1, encode_row,
};
use std::alloc::Global;
use std::process::Abort;
use tod_stamp::{Session, Stamp};

fn table(rt: &impl Abort, alloc: Global) -> PairTable
    ensures { result.rows ≡ [] }
{
    let session = Session::read(b"ABC").expect(rt, "a name");
    PairTable::make(alloc, session).expect(rt, "memory")
}

/// A pending pair of the device, whose names, controller and volume come from the device's number.
fn row_on(rt: &impl Abort, device: u16) -> PairRow {
    assert!(rt; device < 100);
    let (tens, ones) = ((device / 10) as u8, (device % 10) as u8);
    PairRow {
        primary: serial(rt, &[b'P', b'0' + tens, b'0' + ones]),
        secondary: serial(rt, &[b'S', b'0' + tens, b'0' + ones]),
        control: device / 32,
        volume: device % 32,
        device,
        cylinders: 1,
        state: PairState::Pending,
        group: None,
    }
}

/// Puts a row that may be put.
fn put(rt: &impl Abort, alloc: Global, table: &mut PairTable, row: PairRow) {
    assert!(rt; table.may_put(&row));
    table.put_row(alloc, row).expect(rt, "memory");
}

/// Compares the devices of the rows, in order.
fn are_devices(rt: &impl Abort, table: &PairTable, devices: &[u16]) {
    assert_eq!(rt; table.len() as usize, devices.len());
    assert!(rt; table.row(table.len()).is_none());
    for (place, &device) in (0..table.len()).zip(devices) {
        let row = table.row(place).expect(rt, "a row");
        assert_eq!(rt; (row.device, table.row_of(device)), (device, Some(row)));
    }
}

/// Spells a row that an empty table takes, and reads it again.
fn is_spelled(rt: &impl Abort, alloc: Global, row: PairRow, bytes: &[u8; 38]) {
    assert!(rt; table(rt, alloc).may_put(&row));
    assert_eq!(rt; (encode_row(&row), decode_row(bytes)), (*bytes, Some(row)));
}

/// PRIM01 and SEC001, controller 0, volume 0, device 0, one cylinder, duplex.
const FIRST_BYTES: [u8; 38] = *b"PRIM01SEC001\0\0\0\0\0\0\0\0\0\x01\x02\0\0\0\0\0\0\0\0\0      ";

/// The same in version 1.
const NARROW_BYTES: [u8; 30] = *b"PRIM01SEC001\0\0\0\0\0\0\0\x01\x02\0\0\0\0\0\0\0\0\0";

fn first_row(rt: &impl Abort) -> PairRow {
    PairRow {
        primary: serial(rt, b"PRIM01"),
        secondary: serial(rt, b"SEC001"),
        state: PairState::Duplex,
        ..row_on(rt, 0)
    }
}

#[test]
fn each_part_of_a_row_has_its_bytes(rt: HostRuntime) {
    let alloc = rt.alloc();
    is_spelled(&rt, alloc, first_row(&rt), &FIRST_BYTES);
    // A place, its byte there, and controller, volume, device and cylinders then.
    let cases = [
        (13, 15, (15, 0, 0, 1)),
        (15, 31, (0, 31, 0, 1)),
        (16, 1, (0, 0, 256, 1)),
        (17, 255, (0, 0, 255, 1)),
        (19, 15, (0, 0, 0, 983_041)),
        (20, 255, (0, 0, 0, 65_281)),
        (21, 255, (0, 0, 0, 255)),
    ];
    for (place, byte, numbers) in cases {
        let (mut row, mut bytes) = (first_row(&rt), FIRST_BYTES);
        (row.control, row.volume, row.device, row.cylinders) = numbers;
        if let Some(changed) = bytes.get_mut(place) {
            *changed = byte;
        }
        is_spelled(&rt, alloc, row, &bytes);
    }
}

#[test]
fn a_row_may_stand_at_the_end_of_each_range(rt: HostRuntime) {
    let row = PairRow {
        primary: serial(&rt, b"A"),
        secondary: serial(&rt, b"9@#$ZX"),
        control: 15,
        volume: 31,
        device: 65_535,
        cylinders: 1_000_000,
        state: PairState::Suspended {
            cause: SuspendCause::Group,
            since: Stamp(u64::MAX),
        },
        group: Some(serial(&rt, b"Z")),
    };
    let mut bytes = [0xFF; 38];
    bytes[..24].copy_from_slice(b"A     9@#$ZX\0\x0F\0\x1F\xFF\xFF\0\x0F\x42\x40\x03\x05");
    bytes[32..].copy_from_slice(b"Z     ");
    is_spelled(&rt, rt.alloc(), row, &bytes);
    bytes[21] = 0x41;
    assert_eq!(rt; decode_row(&bytes), None);
    bytes[21] = 0x40;
    bytes[32] = b' ';
    bytes[33] = b'Z';
    assert_eq!(rt; decode_row(&bytes), None);
}

#[test]
fn rows_of_version_1_are_read(rt: HostRuntime) {
    assert_eq!(rt; decode_row1(&NARROW_BYTES), Some(first_row(&rt)));
    let mut bytes = NARROW_BYTES;
    bytes[18..22].copy_from_slice(b"\xFF\xF0\x03\x04");
    let row = PairRow {
        cylinders: 65_520,
        state: PairState::Suspended {
            cause: SuspendCause::Control,
            since: Stamp(0),
        },
        ..first_row(&rt)
    };
    assert_eq!(rt; decode_row1(&bytes), Some(row));
    // 65,521 cylinders, and the cause of a group.
    for (place, byte) in [(19, 0xF1), (21, 5)] {
        let mut bytes = bytes;
        if let Some(changed) = bytes.get_mut(place) {
            *changed = byte;
        }
        assert_eq!(rt; decode_row1(&bytes), None);
    }
}

#[test]
fn rows_are_put_replaced_and_removed(rt: HostRuntime) {
    let alloc = rt.alloc();
    let mut table = table(&rt, alloc);
    table.start();
    assert_eq!(rt; table.session().as_bytes(), b"ABC".as_slice());
    table.remove(0);
    are_devices(&rt, &table, &[]);
    for device in [5, 1, 9, 3] {
        put(&rt, alloc, &mut table, row_on(&rt, device));
    }
    let mut other = row_on(&rt, 1);
    other.primary = serial(&rt, b"OTHER");
    other.control = 9;
    put(&rt, alloc, &mut table, other);
    are_devices(&rt, &table, &[5, 1, 9, 3]);
    assert_eq!(rt; table.row(1), Some(&other));
    assert!(rt; table.row_of(9).is_some());
    table.set_state(9, PairState::Copy);
    assert_eq!(rt;
        [table.row(0), table.row(1)],
        [Some(&row_on(&rt, 5)), Some(&other)]
    );
    assert!(rt; table.row(2).is_some_and(|row| row.state == PairState::Copy));
    assert!(rt; !table.may_put(&PairRow { device: 7, ..other }));
    table.remove(1);
    are_devices(&rt, &table, &[5, 9, 3]);
    for device in [5, 3, 4] {
        table.remove(device);
    }
    put(&rt, alloc, &mut table, row_on(&rt, 5));
    are_devices(&rt, &table, &[9, 5]);
}

#[test]
fn a_table_has_at_most_64_rows(rt: HostRuntime) {
    let alloc = rt.alloc();
    let mut table = table(&rt, alloc);
    for device in 0..64 {
        put(&rt, alloc, &mut table, row_on(&rt, device));
    }
    let one_more = row_on(&rt, 64);
    assert!(rt; table.len() == 64 && !table.may_put(&one_more));
    put(&rt, alloc, &mut table, row_on(&rt, 63));
    table.remove(0);
    put(&rt, alloc, &mut table, one_more);
    assert_eq!(rt; table.row(63), Some(&one_more));
}
