//! A command's change of rows, taken over into the shared state.

ghost use Rattle.std.specs.Prelude.{◌≡◌, OnOk, OnErr, IfOk, IsTrue, None, Some};
ghost use Rattle.std.specs.List.{flat_map};
ghost use Rattle.std.specs.Option.{option_copied};
ghost use Rattle.pair_table.specs.Devices.{is_among};
ghost use Rattle.pair_table.specs.Rows.{keeps_row_rules};
ghost use Rattle.pair_table.specs.Tables.{row_of};
ghost use Rattle.pair_table.specs.declared.row.PairState.TheVariants.{Suspended};
ghost use Rattle.pair_table.specs.States.{owes};
ghost use Rattle.consistency.specs.Stages.{tracks_of_row};
ghost use Rattle.xrc_session.specs.Taking.{AllMay, IsSoundForRows, MayTake, after_calls, calls_of_change, carry_calls, command_calls};
ghost use Rattle.xrc_session.specs.Taking.{drop_call, drop_calls, forget_calls, is_adding, is_begun, is_suspended_as};
ghost use Rattle.xrc_session.specs.Taking.{resume_calls, stands_again, state_by_command, tracks_owed_to, tracks_to_copy};

use change_map::ChangeMap;
use copy_plan::CopyPlan;
use group_state::GroupState;
use pair_table::{Change, PairRow, PairState, PairTable, SuspendCause};
use std::alloc::Global;
use tod_stamp::Stamp;
use xrc_edge::{NoMemory, TRACKS_OF_CYLINDER};

/// Whether a row is suspended for a cause and since a time.
fn is_suspended_by(was: PairState, cause: SuspendCause, since: Stamp) -> bool
    ensures { result ≡ is_suspended_as was (Suspended cause since) }
{
    match was {
        PairState::Suspended {
            cause: first,
            since: from,
        } => first.number() == cause.number() && from.0 == since.0,
        PairState::Pending | PairState::Copy | PairState::Duplex => false,
    }
}

/// Whether a row is suspended as it was before: since the same time, and for the same cause.
fn is_suspended_as(was: PairState, is: PairState) -> bool
    ensures { result ≡ is_suspended_as was is }
{
    match is {
        PairState::Suspended { cause, since } => is_suspended_by(was, cause, since),
        PairState::Pending | PairState::Copy | PairState::Duplex => false,
    }
}

/// The device's row. None exactly where it has none.
fn row_of(rows: &[PairRow], device: u16) -> Option<&PairRow>
    ensures { option_copied result ≡ row_of device rows.now }
{
    rows.iter().find(|row| device == row.device)
}

/// Whether a device is one of a list.
fn is_among(device: u16, devices: &[u16]) -> bool
    ensures { result ≡ is_among device devices.now }
{
    devices.iter().any(|other| *other == device)
}

/// Whether a change makes the device's row pending: it adds the row, or resumes it.
fn is_begun(change: &Change, device: u16) -> bool
    ensures { result ≡ is_begun change.now device }
{
    match change {
        Change::Added(begun) | Change::Resumed(begun) => *begun == device,
        Change::Nothing
        | Change::Started
        | Change::Gone(_)
        | Change::Suspended(_)
        | Change::Ended => false,
    }
}

/// Whether a device's row is suspended after a command as it was before.
fn stands_again(before: Option<&PairRow>, after: Option<&PairRow>) -> bool
    ensures { result ≡ stands_again (option_copied before.entry) (option_copied after.entry) }
{
    match (before, after) {
        (Some(was), Some(is)) => is_suspended_as(was.state, is.state),
        _ => false,
    }
}

/// The state in which a command left a row, as it is after the suspensions that followed.
fn state_by_command(change: &Change, before: &[PairRow], row: &PairRow) -> PairState
    ensures { result ≡ state_by_command change.now before.now row.now }
{
    let was = row_of(before, row.device);
    if is_begun(change, row.device) && !stands_again(was, Some(row)) {
        return PairState::Pending;
    }
    match was {
        Some(found) => found.state,
        None => PairState::Pending,
    }
}

/// Begins to carry an added row's volume, and tells its tracks, which are all wanted.
fn carry_row(alloc: Global, group: &mut GroupState, row: &PairRow) -> Result<u32, NoMemory>
    requires rules { IsTrue (keeps_row_rules row.now) }
    requires may { AllMay (carry_calls (Some row.now)) group.old }
    ensures calls { OnOk result (group.new ≡ after_calls (carry_calls (Some row.now)) group.old) }
    ensures tracks { IfOk result (λ tracks. tracks ≡ tracks_of_row row.now) }
    ensures err { OnErr result (group.new ≡ group.old) }
{
    let tracks = TRACKS_OF_CYLINDER * row.cylinders;
    let plan = CopyPlan::first(alloc, tracks)?;
    let map = ChangeMap::make(alloc, tracks)?;
    group.carry(alloc, row.control, row.volume, plan, map)?;
    Ok(tracks)
}

/// Carries a resumed row's volume again, and tells how many of its tracks are wanted. If the row is suspended again as it was, its volume
/// is dropped again. No track has changed since then, so it owes all if it owed any, and all if its own device has failed.
fn resume_row(group: &mut GroupState, was: &PairRow, after: Option<&PairRow>) -> u32
    requires may { AllMay (resume_calls group.old (Some was.now) (option_copied after)) group.old }
    ensures calls { group.new ≡ after_calls (resume_calls group.old (Some was.now) (option_copied after.entry)) group.old }
    ensures tracks { result ≡ tracks_owed_to group.old (Some was.now) }
{
    let tracks = group.resume(was.control, was.volume);
    if stands_again(Some(was), after) {
        let all = was.state.is_suspended_by_device() || tracks != 0;
        group.drop_volume(was.control, was.volume, all);
    }
    tracks
}

/// Drops and forgets the volume of a row, if its device is one of those whose rows go.
fn forget_row(group: &mut GroupState, devices: &[u16], row: &PairRow)
    requires may { AllMay (forget_calls devices.now row.now) group.old }
    ensures calls { group.new ≡ after_calls (forget_calls devices.now row.now) group.old }
{
    if is_among(row.device, devices) {
        group.drop_volume(row.control, row.volume, true);
        group.forget(row.control, row.volume);
    }
}

/// Drops and forgets the volumes of the rows that go.
fn forget_rows(group: &mut GroupState, devices: &[u16], before: &[PairRow])
    requires may { AllMay (flat_map (forget_calls devices.now) before.now) group.old }
    ensures calls { group.new ≡ after_calls (flat_map (forget_calls devices.now) before.now) group.old }
{
    for place in 0..before.len() {
        forget_row(group, devices, &before[place]);
    }
}

/// Makes the calls for what a command does to rows, but for its suspensions. Tells how many tracks are to be copied.
fn take_command(
    alloc: Global,
    group: &mut GroupState,
    before: &[PairRow],
    table: &PairTable,
    change: &Change,
) -> Result<u32, NoMemory>
    requires may { AllMay (command_calls change.now group.old before.now table.now.rows) group.old }
    ensures calls { OnOk result (group.new ≡ after_calls (command_calls change.now group.old before.now table.now.rows) group.old) }
    ensures tracks { IfOk result (λ tracks. tracks ≡ tracks_to_copy change.now group.old before.now table.now.rows) }
    ensures err { OnErr result (group.new ≡ group.old) }
    ensures memory { OnErr result (IsTrue (is_adding change.now)) }
{
    match change {
        Change::Added(device) => match table.row_of(*device) {
            Some(row) => carry_row(alloc, group, row),
            None => Ok(0),
        },
        Change::Resumed(device) => match row_of(before, *device) {
            Some(row) => Ok(resume_row(group, row, table.row_of(*device))),
            None => Ok(0),
        },
        Change::Gone(devices) => {
            forget_rows(group, devices.as_slice(), before);
            Ok(0)
        }
        Change::Nothing | Change::Started | Change::Suspended(_) | Change::Ended => Ok(0),
    }
}

/// Drops the volume of a row that was in another state, if that is to be dropped.
fn drop_row(group: &mut GroupState, was: PairState, row: &PairRow)
    requires may { AllMay (drop_call row.now (owes was row.now.state)) group.old }
    ensures calls { group.new ≡ after_calls (drop_call row.now (owes was row.now.state)) group.old }
{
    if let Some(all) = was.owes(row.state) {
        group.drop_volume(row.control, row.volume, all);
    }
}

/// Drops the volumes of the rows that were suspended by a command or after it.
fn drop_suspended(group: &mut GroupState, before: &[PairRow], table: &PairTable, change: &Change)
    requires may { AllMay (flat_map (drop_calls change.now before.now) table.now.rows) group.old }
    ensures calls { group.new ≡ after_calls (flat_map (drop_calls change.now before.now) table.now.rows) group.old }
{
    for row in table.rows() {
        let was = state_by_command(change, before, row);
        drop_row(group, was, row);
    }
}

/// Takes a command's change of rows over into the shared state, with the suspensions that came after it, and tells how many tracks
/// are to be copied. `before` has the rows before the command, and `table` has the rows after the change was logged.
///
/// - An added row's volume begins to be carried, and all of its tracks are wanted.
/// - A resumed row's volume is carried again, and the tracks in its map are wanted. If the row is suspended again as it was, its volume is
///   dropped again, and owes what it did.
/// - The volume of a row that goes is forgotten.
/// - The volume of a row that becomes suspended is dropped, with all of its tracks. If the row was duplex and its own device doesn't
///   suspend it, only what changes from then on is mapped.
/// - A row that was suspended before has its volume dropped again, with all of its tracks, if its device has failed since.
///
/// Only an added row wants memory. Without it the state is as before.
pub fn take_change(
    alloc: Global,
    group: &mut GroupState,
    before: &[PairRow],
    table: &PairTable,
    change: &Change,
) -> Result<u32, NoMemory>
    requires kept { IsSoundForRows group.old before.now }
    requires may { MayTake group.old change.now before.now table.now.rows }
    ensures calls { OnOk result (group.new ≡ after_calls (calls_of_change change.now group.old before.now table.now.rows) group.old) }
    ensures kept { OnOk result (IsSoundForRows group.new table.now.rows) }
    ensures tracks { IfOk result (λ tracks. tracks ≡ tracks_to_copy change.now group.old before.now table.now.rows) }
    ensures err { OnErr result (group.new ≡ group.old) }
    ensures memory { OnErr result (IsTrue (is_adding change.now)) }
{
    let tracks = take_command(alloc, group, before, table, change)?;
    drop_suspended(group, before, table, change);
    Ok(tracks)
}
