//! The report of a session.

ghost use Rattle.std.specs.Prelude.{◌≡◌, ◌≤◌, ◌+◌, ◌++◌, length, take, OnOk, OnErr};
ghost use Rattle.std.specs.List.{flat_map};
ghost use Rattle.xquery_report.specs.Reports.{break_part, control_line, control_lines, control_part, level_part, report_text, row_line, session_line, state_part};

use crate::lines::add_number;
use ckd_track::Cause;
use pair_table::{Level, PairRow, PairState, PairTable};
use std::alloc::Global;
use tod_stamp::Stamp;
use xrc_edge::{Bytes, List, NoMemory, Text};

/// For each controller in order of number, why its trace was given up; None where it wasn't. A list with no item gives no line of a
/// controller.
pub type ControlList = List<Option<Cause>>;

fn level_part(level: Level) -> &'static [u8]
    ensures text { result.now ≡ level_part level }
    ensures short { length result.now ≤ 14 }
{
    match level {
        Level::Volume => b" LEVEL VOLUME",
        Level::Session => b" LEVEL SESSION",
        Level::Group => b" LEVEL GROUP",
    }
}

/// The line of a session, with the time up to which its pairs stand in the journal.
fn session_line(table: &PairTable, level: Level, time: Stamp) -> Text
    ensures { result ≡ session_line table.now level time.0 }
{
    let mut line = Text::make();
    line.add(b"SESSION ");
    line.add(table.session().as_bytes());
    line.add(level_part(level));
    line.add(b" JOURNALED ");
    line.add(&time.text());
    line.add(b" PAIRS");
    add_number(&mut line, u64::from(table.len()));
    line.add(b"\n");
    line
}

/// Puts why a controller's trace was given up.
fn add_break(line: &mut Text, cause: Cause)
    requires { length line.old ≤ 100 }
    ensures text { line.new ≡ line.old ++ break_part cause }
    ensures short { length line.new ≤ length line.old + 50 }
{
    match cause {
        Cause::ReadFault => line.add(b" READFAULT"),
        Cause::BadTrace(place) => {
            line.add(b" BADTRACE");
            add_number(line, place);
        }
        Cause::Crowded(stamp) => {
            line.add(b" CROWDED ");
            line.add(&stamp.text());
        }
    }
}

/// Puts how a controller is.
fn add_control(line: &mut Text, broken: Option<Cause>)
    requires { length line.old ≤ 80 }
    ensures text { line.new ≡ line.old ++ control_part broken }
    ensures short { length line.new ≤ length line.old + 57 }
{
    match broken {
        None => line.add(b" OK"),
        Some(cause) => {
            line.add(b" BROKEN");
            add_break(line, cause);
        }
    }
}

/// The line of a controller.
fn control_line(number: usize, broken: Option<Cause>) -> Text
    ensures { result ≡ control_line number broken }
{
    let mut line = Text::make();
    line.add(b"CONTROL");
    add_number(&mut line, number as u64);
    add_control(&mut line, broken);
    line.add(b"\n");
    line
}

/// Puts how far a pair is.
fn add_state(line: &mut Text, state: PairState)
    requires { length line.old ≤ 100 }
    ensures text { line.new ≡ line.old ++ state_part state }
    ensures short { length line.new ≤ length line.old + 41 }
{
    match state {
        PairState::Pending => line.add(b" PENDING"),
        PairState::Copy => line.add(b" COPY"),
        PairState::Duplex => line.add(b" DUPLEX"),
        PairState::Suspended { cause, since } => {
            line.add(b" SUSPENDED ");
            line.add(cause.word());
            line.add(b" SINCE ");
            line.add(&since.text());
        }
    }
}

/// The line of a pair.
fn row_line(row: &PairRow) -> Text
    ensures { result ≡ row_line row.now }
{
    let mut line = Text::make();
    line.add(b"PAIR ");
    line.add(row.primary.as_bytes());
    line.add(b" ");
    line.add(row.secondary.as_bytes());
    add_state(&mut line, row.state);
    line.add(b"\n");
    line
}

/// Puts the lines of controllers after other bytes. Want of memory may leave some of them there.
fn append_controls(
    alloc: Global,
    out: &mut Bytes,
    controls: &[Option<Cause>],
) -> Result<(), NoMemory>
    ensures ok { OnOk result (out.new ≡ out.old ++ control_lines 0 controls.now) }
    ensures kept { take (length out.old) out.new ≡ out.old }
{
    for (number, &broken) in controls.iter().enumerate() {
        out.extend_from_slice(alloc, control_line(number, broken).as_bytes())?;
    }
    Ok(())
}

/// Puts the lines of pairs after other bytes. Want of memory may leave some of them there.
fn append_rows(alloc: Global, out: &mut Bytes, table: &PairTable) -> Result<(), NoMemory>
    ensures ok { OnOk result (out.new ≡ out.old ++ flat_map row_line table.now.rows) }
    ensures kept { take (length out.old) out.new ≡ out.old }
{
    for row in table.rows() {
        out.extend_from_slice(alloc, row_line(row).as_bytes())?;
    }
    Ok(())
}

fn append_report(
    alloc: Global,
    out: &mut Bytes,
    table: &PairTable,
    level: Level,
    time: Stamp,
    controls: &ControlList,
) -> Result<(), NoMemory>
    ensures ok { OnOk result (out.new ≡ out.old ++ report_text table.now level time.0 controls.now) }
    ensures kept { take (length out.old) out.new ≡ out.old }
{
    out.extend_from_slice(alloc, session_line(table, level, time).as_bytes())?;
    append_controls(alloc, out, controls.as_slice())?;
    append_rows(alloc, out, table)
}

/// Puts the report of a session after the bytes of `out`: its line, with the time up to which its pairs stand in the journal, the
/// lines of the controllers in order of number, and the lines of the pairs in the order of the rows.
pub fn report(
    alloc: Global,
    table: &PairTable,
    level: Level,
    time: Stamp,
    controls: &ControlList,
    out: &mut Bytes,
) -> Result<(), NoMemory>
    ensures ok { OnOk result (out.new ≡ out.old ++ report_text table.now level time.0 controls.now) }
    ensures err { OnErr result (out.new ≡ out.old) }
{
    let before = out.len();
    let appended = append_report(alloc, out, table, level, time, controls);
    if appended.is_err() {
        out.truncate(before);
    }
    appended
}
