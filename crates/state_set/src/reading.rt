//! What the bytes of a slot hold.

ghost use Rattle.std.specs.Prelude.{◌≡◌, ◌≤◌, ◌+◌, ◌*◌, ◌++◌, ◌∷◌, [], length, take, option_map, bytes_eq, IfOk, IsTrue};
ghost use Rattle.tod_stamp.specs.Fields.{is_version};
ghost use Rattle.pair_table.specs.Rows.{keeps_row_rules, row_length};
ghost use Rattle.state_set.specs.Slots.{title, level_of_number, are_rows, rows_in, slot_fields, state_at, started_table, with_table};

use crate::lengths::{HEAD, LONGEST};
use crate::spelling::title;
use byteorder::{BigEndian, ByteOrder};
use pair_table::{Level, MOST_ROWS, PairRow, PairTable, decode_row_of, row_length};
use std::alloc::Global;
use tod_stamp::Session;
use xrc_edge::NoMemory;

/// Whether bytes begin as those of a version and a session.
fn has_title(version: u8, bytes: &[u8; LONGEST], session: Session) -> bool
    requires { IsTrue (is_version version) }
    ensures { result ≡ bytes_eq (title version session) (take 12 bytes.now) }
{
    let title: &[u8] = &title(version, session);
    title == &bytes[..12]
}

/// The level of a number, in a version that has it.
fn level_of(version: u8, number: u8) -> Option<Level>
    ensures { result ≡ level_of_number version number }
{
    match number {
        0 => Some(Level::Volume),
        1 => Some(Level::Session),
        2 if version == 2 => Some(Level::Group),
        _ => None,
    }
}

/// Whether the rows of the table and this one after them keep the rules.
fn may_follow(table: &PairTable, volumes: u16, row: &PairRow) -> bool
    requires row { IsTrue (keeps_row_rules row.now) }
    requires rows { IsTrue (are_rows volumes table.now.rows) }
    ensures { result ≡ are_rows volumes (table.now.rows ++ row.now ∷ []) }
{
    row.device < volumes && table.row_of(row.device).is_none() && table.may_put(row)
}

/// The started table of so many rows of a version. None exactly where one of them breaks a rule.
fn read_rows(
    alloc: Global,
    version: u8,
    volumes: u16,
    session: Session,
    count: u16,
    bytes: &[u8],
) -> Result<Option<PairTable>, NoMemory>
    requires { row_length version * count ≤ length bytes.now }
    ensures { IfOk result (λ found. found ≡ option_map (started_table session) (rows_in version volumes count bytes.now)) }
{
    let mut table = PairTable::make(alloc, session)?;
    table.start();
    let mut rest = bytes;
    for _ in 0..count {
        let (front, after) = rest.split_at(row_length(version));
        let Some(row) = decode_row_of(version, front) else {
            return Ok(None);
        };
        if !may_follow(&table, volumes, &row) {
            return Ok(None);
        }
        table.put_row(alloc, row)?;
        rest = after;
    }
    Ok(Some(table))
}

/// The level and the table that the bytes of a version hold after their title.
fn decode_fields(
    alloc: Global,
    version: u8,
    volumes: u16,
    session: Session,
    bytes: &[u8; LONGEST],
) -> Result<Option<(Level, PairTable)>, NoMemory>
    ensures { IfOk result (λ found. found ≡ option_map (with_table session) (slot_fields version volumes bytes.now)) }
{
    let Some(level) = level_of(version, bytes[12]) else {
        return Ok(None);
    };
    let count = BigEndian::read_u16(&bytes[13..HEAD]);
    if count > MOST_ROWS as u16 {
        return Ok(None);
    }
    match read_rows(alloc, version, volumes, session, count, &bytes[HEAD..])? {
        Some(table) => Ok(Some((level, table))),
        None => Ok(None),
    }
}

/// The level and the table that the bytes hold of a session, if they begin with it in either version.
pub(crate) fn decode(
    alloc: Global,
    volumes: u16,
    session: Session,
    bytes: &[u8; LONGEST],
) -> Result<Option<(Level, PairTable)>, NoMemory>
    ensures { IfOk result (λ found. found ≡ option_map (with_table session) (state_at volumes session bytes.now)) }
{
    if has_title(2, bytes, session) {
        decode_fields(alloc, 2, volumes, session, bytes)
    } else if has_title(1, bytes, session) {
        decode_fields(alloc, 1, volumes, session, bytes)
    } else {
        Ok(None)
    }
}
