//! The bytes of a row, big-endian: the serial of the primary (6 bytes, filled with spaces) and of the secondary (6), controller,
//! volume of the controller and device (2 each), cylinders (4), state (1), cause (1), the time since it is suspended (8), and the group's
//! name or spaces (6). In version 1, which is only read, the cylinders have 2 bytes and no group stands at the end.

ghost use Rattle.std.specs.Prelude.{◌≡◌, ◌<◌, ◌^◌, length, IsTrue};
ghost use Rattle.tod_stamp.specs.Names.{is_serial};
ghost use Rattle.pair_table.specs.Rows.{is_row, is_group, is_state, keeps_row_rules, state_numbers, causeless_state, state_of_numbers as state_in, group_of_field, allowed, if_narrow, names_spelling, numbers_spelling, state_spelling, group_field, row_spelling, row_at, narrow_row_at, row_by, row_length, widened};

use crate::limits::{NARROW_ROW_LENGTH, ROW_LENGTH};
use crate::row::{PairRow, PairState, SuspendCause};
use byteorder::{BigEndian, ByteOrder};
use tod_stamp::{Serial, Stamp};

/// The field of no group.
const NO_GROUP: [u8; 6] = [b' '; 6];

/// The row's bytes.
pub fn encode_row(row: &PairRow) -> [u8; ROW_LENGTH]
    requires { IsTrue (keeps_row_rules row.now) }
    ensures spelled { result ≡ row_spelling row.now }
    ensures row { IsTrue (is_row row.now) }
{
    let mut bytes = [0; ROW_LENGTH];
    bytes[32..].copy_from_slice(&group_bytes(row.group));
    bytes[22..32].copy_from_slice(&state_bytes(row.state));
    bytes[12..22].copy_from_slice(&numbers_bytes(row));
    bytes[..12].copy_from_slice(&names_bytes(row));
    bytes
}

fn names_bytes(row: &PairRow) -> [u8; 12]
    ensures spelled { result ≡ names_spelling row.now }
    ensures primary { IsTrue (is_serial row.now.primary) }
    ensures secondary { IsTrue (is_serial row.now.secondary) }
{
    let mut bytes = [0; 12];
    bytes[6..].copy_from_slice(&row.secondary.field());
    bytes[..6].copy_from_slice(&row.primary.field());
    bytes
}

fn numbers_bytes(row: &PairRow) -> [u8; 10]
    requires { IsTrue (keeps_row_rules row.now) }
    ensures spelled { result ≡ numbers_spelling row.now }
    ensures device { row.now.device < 2 ^ 16 }
{
    let device = row.device;
    let mut bytes = [0; 10];
    BigEndian::write_u16(&mut bytes, row.control);
    BigEndian::write_u16(&mut bytes[2..], row.volume);
    BigEndian::write_u16(&mut bytes[4..], device);
    BigEndian::write_u32(&mut bytes[6..], row.cylinders);
    bytes
}

fn state_bytes(state: PairState) -> [u8; 10]
    ensures spelled { result ≡ state_spelling state }
    ensures valid { IsTrue (is_state state) }
{
    let (state, cause, since) = numbers_of(state);
    let mut bytes = [state, cause, 0, 0, 0, 0, 0, 0, 0, 0];
    BigEndian::write_u64(&mut bytes[2..], since);
    bytes
}

fn group_bytes(group: Option<Serial>) -> [u8; 6]
    ensures spelled { result ≡ group_field group }
    ensures valid { IsTrue (is_group group) }
{
    match group {
        Some(name) => name.field(),
        None => NO_GROUP,
    }
}

/// The row that the bytes spell. None exactly where a field breaks its rule: a serial is no valid field, a number is out of its
/// range, or a cause or a time stands beside a state that has none.
pub fn decode_row(bytes: &[u8; ROW_LENGTH]) -> Option<PairRow>
    ensures { result ≡ row_at bytes.now }
{
    allowed(PairRow {
        primary: Serial::from_field(&bytes[..6])?,
        secondary: Serial::from_field(&bytes[6..12])?,
        control: BigEndian::read_u16(&bytes[12..14]),
        volume: BigEndian::read_u16(&bytes[14..16]),
        device: BigEndian::read_u16(&bytes[16..18]),
        cylinders: BigEndian::read_u32(&bytes[18..22]),
        state: state_of(bytes[22], bytes[23], BigEndian::read_u64(&bytes[24..32]))?,
        group: group_of(&bytes[32..])?,
    })
}

/// The row that bytes of version 1 spell. None exactly where a field breaks its rule there.
pub fn decode_row1(bytes: &[u8; NARROW_ROW_LENGTH]) -> Option<PairRow>
    ensures { result ≡ narrow_row_at bytes.now }
{
    let wide = widened(bytes);
    match decode_row(&wide) {
        Some(row) => if_narrow(row),
        None => None,
    }
}

/// The bytes of a row of a version.
pub fn row_length(version: u8) -> usize
    ensures { result ≡ row_length version }
{
    if version == 1 {
        NARROW_ROW_LENGTH
    } else {
        ROW_LENGTH
    }
}

/// The row that bytes of a version spell. None exactly where they are not as many as those of a row, or a field breaks its rule there.
pub fn decode_row_of(version: u8, bytes: &[u8]) -> Option<PairRow>
    ensures { result ≡ row_by version bytes.now }
{
    if bytes.len() != row_length(version) {
        return None;
    }
    if version == 1 {
        let mut row = [0; NARROW_ROW_LENGTH];
        row.copy_from_slice(bytes);
        decode_row1(&row)
    } else {
        let mut row = [0; ROW_LENGTH];
        row.copy_from_slice(bytes);
        decode_row(&row)
    }
}

/// The bytes that a row of version 1 would have with four bytes of cylinders and no group.
fn widened(bytes: &[u8; NARROW_ROW_LENGTH]) -> [u8; ROW_LENGTH]
    ensures { result ≡ widened bytes.now }
{
    let mut wide = [0; ROW_LENGTH];
    wide[32..].copy_from_slice(&NO_GROUP);
    wide[20..32].copy_from_slice(&bytes[18..]);
    wide[..18].copy_from_slice(&bytes[..18]);
    wide
}

/// The row, where version 1 has it.
fn if_narrow(row: PairRow) -> Option<PairRow>
    ensures { result ≡ if_narrow row }
{
    if row.is_narrow() { Some(row) } else { None }
}

/// The row, where its numbers are in their ranges.
fn allowed(row: PairRow) -> Option<PairRow>
    ensures { result ≡ allowed row }
{
    if row.keeps_rules() { Some(row) } else { None }
}

/// The numbers of state and cause, and the time.
fn numbers_of(state: PairState) -> (u8, u8, u64)
    ensures numbers { result ≡ state_numbers state }
    ensures valid { IsTrue (is_state state) }
{
    match state {
        PairState::Pending => (0, 0, 0),
        PairState::Copy => (1, 0, 0),
        PairState::Duplex => (2, 0, 0),
        PairState::Suspended { cause, since } => (3, cause.number(), since.0),
    }
}

/// The state that the numbers of state and cause and the time are.
fn state_of(state: u8, cause: u8, since: u64) -> Option<PairState>
    ensures { result ≡ state_in state cause since }
{
    if state == 3 {
        let cause = SuspendCause::of_number(cause)?;
        let since = Stamp(since);
        return Some(PairState::Suspended { cause, since });
    }
    if cause == 0 && since == 0 {
        plain_state(state)
    } else {
        None
    }
}

/// The group in a field. None where the field is neither a name nor spaces.
fn group_of(field: &[u8]) -> Option<Option<Serial>>
    requires { length field.now ≡ 6 }
    ensures { result ≡ group_of_field field.now }
{
    if field == NO_GROUP.as_slice() {
        return Some(None);
    }
    let name = Serial::from_field(field)?;
    Some(Some(name))
}

/// The state of a row that isn't suspended.
fn plain_state(number: u8) -> Option<PairState>
    ensures { result ≡ causeless_state number }
{
    match number {
        0 => Some(PairState::Pending),
        1 => Some(PairState::Copy),
        2 => Some(PairState::Duplex),
        _ => None,
    }
}
