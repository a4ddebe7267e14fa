//! The bytes of a state. It is written in version 2.

ghost use Rattle.std.specs.Prelude.{◌≡◌, ◌≤◌, ◌<◌, ◌+◌, ◌*◌, length, take, drop, IsTrue};
ghost use Rattle.tod_stamp.specs.Fields.{is_version};
ghost use Rattle.tod_stamp.specs.Names.{is_session};
ghost use Rattle.pair_table.specs.Tables.{AreRowsSound};
ghost use Rattle.state_set.specs.Slots.{title, level_number, head_spelling, rows_spelling, slot_spelling, state_length};

use crate::lengths::{HEAD, LONGEST};
use byteorder::{BigEndian, ByteOrder};
use pair_table::{Level, PairTable, ROW_LENGTH, encode_row};
use tod_stamp::Session;

/// What the bytes of a session begin with in a version.
pub(crate) fn title(version: u8, session: Session) -> [u8; 12]
    requires { IsTrue (is_version version) }
    ensures title { result ≡ title version session }
    ensures valid { IsTrue (is_session session) }
{
    let mut bytes = *b"XST0\0\0\0\0\0\0\0\0";
    bytes[3] += version;
    bytes[4..].copy_from_slice(&session.field());
    bytes
}

fn level_number(level: Level) -> u8
    ensures { result ≡ level_number level }
{
    match level {
        Level::Volume => 0,
        Level::Session => 1,
        Level::Group => 2,
    }
}

fn head(session: Session, level: Level, count: u16) -> [u8; HEAD]
    ensures head { result ≡ head_spelling 2 session level count }
    ensures valid { IsTrue (is_session session) }
{
    let mut bytes = [0; HEAD];
    BigEndian::write_u16(&mut bytes[13..], count);
    bytes[12] = level_number(level);
    bytes[..12].copy_from_slice(&title(2, session));
    bytes
}

/// Writes all rows.
fn put_rows(table: &PairTable, out: &mut [u8])
    requires { length out.old ≡ ROW_LENGTH * length table.now.rows }
    ensures { out.new ≡ rows_spelling 2 table.now.rows }
{
    for (place, row) in table.rows().iter().enumerate() {
        let from = ROW_LENGTH * place;
        out[from..from + ROW_LENGTH].copy_from_slice(&encode_row(row));
    }
}

/// Writes the state to the front of a buffer, and gives its length.
pub(crate) fn encode(level: Level, table: &PairTable, out: &mut [u8; LONGEST]) -> usize
    ensures spelled { take (state_length table.now.rows) out.new ≡ slot_spelling table.now.session level table.now.rows }
    ensures length { result ≡ state_length table.now.rows }
    ensures rules { AreRowsSound table.now.rows }
    ensures valid { IsTrue (is_session table.now.session) }
{
    let count = table.len();
    let end = HEAD + ROW_LENGTH * usize::from(count);
    out[..HEAD].copy_from_slice(&head(table.session(), level, count));
    put_rows(table, &mut out[HEAD..end]);
    end
}
