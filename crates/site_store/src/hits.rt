//! The rows of volumes whose jobs have failed, and the rows that their failures reach.

ghost use Rattle.std.specs.Prelude.{◌≡◌, ◌≤◌, ◌<◌, ◌+◌, ◌*◌, ◌++◌, ◌&&◌, ◌||◌, ℕ, List, [], false, length, map, slice_index_or, IfSome, IsTrue};
ghost use Rattle.std.specs.List.{list_any};
ghost use Rattle.xrc_journal.specs.declared.layout.TheConstants.{ROW_ITEM};
ghost use Rattle.pair_table.specs.declared.limits.TheConstants.{MOST_ROWS};
ghost use Rattle.xrc_edge.specs.declared.limits.TheConstants.{MOST_SITE_VOLUMES};
ghost use Rattle.pair_table.specs.declared.row.PairRow.{PairRow as Row};
ghost use Rattle.pair_table.specs.Devices.{is_among};
ghost use Rattle.pair_table.specs.Rows.{is_state};
ghost use Rattle.pair_table.specs.Tables.{AreRowsSound, are_below, with_rows};
ghost use Rattle.record_rows.specs.ChangedRows.{rows_in_states};
ghost use Rattle.record_rows.specs.Hits.{hit_now, is_hit_now};
ghost use Rattle.row_changes.specs.Changes.{are_same_group, reach_of};
ghost use Rattle.xrc_journal.specs.Items.{body_spelling};
ghost use Rattle.site_store.specs.Hits.{AreDevices, AreHits, AreReached, are_some, is_hit_in_group, next_by_hits, pairs_with_next, reaches_at, with_hits};
ghost use Rattle.site_store.specs.Jobs.{has_job_failed};

use pair_table::{Level, PairRow, PairState, PairTable, SuspendCause};
use tod_stamp::{Serial, Stamp};
use xrc_edge::MOST_SITE_VOLUMES;
use xrc_journal::{Body, VolumeJob};

/// The devices that are hit at a time: their jobs have failed, and their rows don't tell it yet.
#[derive(Clone, Copy)]
pub(crate) struct HitDevices {
    /// Of each device, whether it is hit.
    are: [bool; MOST_SITE_VOLUMES],
    /// Whether one is.
    any: bool,
}

/// What failed jobs do to rows at a time.
#[derive(Clone, Copy)]
pub(crate) struct Hits {
    /// Of each device, whether it is hit.
    devices: [bool; MOST_SITE_VOLUMES],
    /// Of each device, whether hits reach its row.
    reached: [bool; MOST_SITE_VOLUMES],
    /// The cause by which they suspend the rows that they reach.
    cause: SuspendCause,
    time: Stamp,
}

/// How far hits reach: the session's level, and the devices that were hit in the mark before, whose reach is due.
#[derive(Clone, Copy)]
pub(crate) struct HitReach {
    pub(crate) level: Level,
    pub(crate) marked: HitDevices,
}

/// Whether a row's volume has failed and the row doesn't tell it yet.
fn is_hit<V>(jobs: &[VolumeJob<V>], row: &PairRow) -> bool
    requires { row.now.device < length jobs.now }
    ensures { result ≡ is_hit_now (map has_job_failed jobs.now) row.now }
{
    jobs[usize::from(row.device)].failed && !row.state.is_suspended_by_device()
}

/// Whether a volume of the rows has failed and isn't told yet.
pub(crate) fn is_any_hit<V>(jobs: &[VolumeJob<V>], table: &PairTable) -> bool
    requires { IsTrue (are_below (length jobs.now) table.now.rows) }
    ensures { result ≡ are_some (hit_now (map has_job_failed jobs.now) table.now.rows) }
{
    for row in table.rows() {
        if is_hit(jobs, row) {
            return true;
        }
    }
    false
}

pub(crate) fn either(one: bool, other: bool) -> bool
    ensures { result ≡ (one || other) }
{
    one || other
}

/// Of each device, whether it is hit now.
fn hit_flags<V>(jobs: &[VolumeJob<V>], table: &PairTable) -> [bool; MOST_SITE_VOLUMES]
    requires below { IsTrue (are_below (length jobs.now) table.now.rows) }
    requires few { length jobs.now ≤ MOST_SITE_VOLUMES }
    ensures hit { (d : ℕ) → d < MOST_SITE_VOLUMES → slice_index_or result d false ≡ is_among d (hit_now (map has_job_failed jobs.now) table.now.rows) }
    ensures rules { AreRowsSound table.now.rows }
{
    let mut devices = [false; MOST_SITE_VOLUMES];
    for row in table.rows() {
        let device = usize::from(row.device);
        let is_hit = is_hit(jobs, row);
        devices[device] = either(devices[device], is_hit);
    }
    devices
}

/// The devices that are hit now.
pub(crate) fn hit_devices<V>(jobs: &[VolumeJob<V>], table: &PairTable) -> HitDevices
    requires below { IsTrue (are_below (length jobs.now) table.now.rows) }
    requires few { length jobs.now ≤ MOST_SITE_VOLUMES }
    ensures hit { AreDevices (hit_now (map has_job_failed jobs.now) table.now.rows) result }
    ensures rules { AreRowsSound table.now.rows }
{
    let are = hit_flags(jobs, table);
    let any = is_any_hit(jobs, table);
    HitDevices { are, any }
}

/// No device.
pub(crate) fn no_devices() -> HitDevices
    ensures { AreDevices [] result }
{
    HitDevices {
        are: [false; MOST_SITE_VOLUMES],
        any: false,
    }
}

/// Whether both have a group, and one and the same.
fn are_same_group(one: Option<Serial>, other: Option<Serial>) -> bool
    ensures { result ≡ are_same_group one other }
{
    match one {
        Some(one) => match other {
            Some(other) => one == other,
            None => false,
        },
        None => false,
    }
}

/// Whether a row's device is hit, and the row has the group of another row.
fn is_hit_in_group(hit: &HitDevices, like: &PairRow, row: &PairRow) -> bool
    requires { row.now.device < MOST_SITE_VOLUMES }
    ensures { result ≡ is_hit_in_group hit.now like.now.group row.now }
{
    hit.are[usize::from(row.device)] && are_same_group(row.group, like.group)
}

/// Whether a row of one of the devices that are hit has the group of a row.
fn is_group_hit(table: &PairTable, hit: &HitDevices, like: &PairRow) -> bool
    requires { IsTrue (are_below MOST_SITE_VOLUMES table.now.rows) }
    ensures { result ≡ list_any (is_hit_in_group hit.now like.now.group) table.now.rows }
{
    for row in table.rows() {
        if is_hit_in_group(hit, like, row) {
            return true;
        }
    }
    false
}

/// The cause by which hits suspend the rows that they reach.
fn reach_cause(level: Level) -> SuspendCause
    ensures { (rows : List Row) → result ≡ (reach_of level rows).cause }
{
    match level {
        Level::Volume | Level::Session => SuspendCause::Session,
        Level::Group => SuspendCause::Group,
    }
}

/// Whether hits of these devices, if there are some, reach a row of the table at a level.
fn reaches_at(level: Level, table: &PairTable, hit: &HitDevices, row: &PairRow) -> bool
    requires below { IsTrue (are_below MOST_SITE_VOLUMES table.now.rows) }
    requires row { row.now.device < MOST_SITE_VOLUMES }
    ensures { result ≡ reaches_at level table.now.rows hit.now row.now }
{
    match level {
        Level::Volume => false,
        Level::Session => !hit.are[usize::from(row.device)],
        Level::Group => !hit.are[usize::from(row.device)] && is_group_hit(table, hit, row),
    }
}

/// Whether hits of these devices reach a row of the table.
fn reaches(level: Level, table: &PairTable, hit: &HitDevices, row: &PairRow) -> bool
    requires below { IsTrue (are_below MOST_SITE_VOLUMES table.now.rows) }
    requires row { row.now.device < MOST_SITE_VOLUMES }
    ensures { result ≡ (hit.now.any && reaches_at level table.now.rows hit.now row.now) }
{
    hit.any && reaches_at(level, table, hit, row)
}

/// Of the device of each row, whether the hits of a mark or those after it reach the row.
fn reached_devices(
    level: Level,
    table: &PairTable,
    marked: &HitDevices,
    hit: &HitDevices,
) -> [bool; MOST_SITE_VOLUMES]
    requires { IsTrue (are_below MOST_SITE_VOLUMES table.now.rows) }
    ensures { (was now : List ℕ) → AreDevices was marked.now → AreDevices now hit.now → AreReached level was now table.now.rows result }
{
    let mut reached = [false; MOST_SITE_VOLUMES];
    for row in table.rows() {
        let by_mark = reaches(level, table, marked, row);
        let by_hit = reaches(level, table, hit, row);
        let device = usize::from(row.device);
        reached[device] = either(by_mark, by_hit);
    }
    reached
}

/// The hits of a table's rows at a time, after a mark in which these devices were hit.
pub(crate) fn hits_after_mark<V>(
    jobs: &[VolumeJob<V>],
    table: &PairTable,
    level: Level,
    time: Stamp,
    marked: &HitDevices,
) -> Hits
    requires below { IsTrue (are_below (length jobs.now) table.now.rows) }
    requires few { length jobs.now ≤ MOST_SITE_VOLUMES }
    ensures hits { (was : List ℕ) → AreDevices was marked.now → AreHits level time (map has_job_failed jobs.now) was table.now.rows result }
    ensures rules { AreRowsSound table.now.rows }
{
    let hit = hit_devices(jobs, table);
    let reached = reached_devices(level, table, marked, &hit);
    let cause = reach_cause(level);
    Hits {
        devices: hit.are,
        reached,
        cause,
        time,
    }
}

/// The hits of a table's rows at a time.
pub(crate) fn hits_at<V>(
    jobs: &[VolumeJob<V>],
    table: &PairTable,
    level: Level,
    time: Stamp,
) -> Hits
    requires below { IsTrue (are_below (length jobs.now) table.now.rows) }
    requires few { length jobs.now ≤ MOST_SITE_VOLUMES }
    ensures hits { AreHits level time (map has_job_failed jobs.now) [] table.now.rows result }
    ensures rules { AreRowsSound table.now.rows }
{
    let none = no_devices();
    hits_after_mark(jobs, table, level, time, &none)
}

impl Hits {
    /// The state to which hits change a row in this state, if they do.
    pub(crate) fn next_state(&self, device: u16, state: PairState) -> Option<PairState>
        requires { device < MOST_SITE_VOLUMES }
        ensures state { result ≡ next_by_hits self.now device state }
        ensures valid { IfSome result (λ after. IsTrue (is_state after)) }
    {
        let cause = if self.devices[usize::from(device)] {
            SuspendCause::Device
        } else if self.reached[usize::from(device)] && !state.is_suspended() {
            self.cause
        } else {
            return None;
        };
        Some(PairState::Suspended {
            cause,
            since: self.time,
        })
    }
}

/// Puts the rows that hits change, as they are after them.
pub(crate) fn put_hits(body: &mut Body, table: &PairTable, hits: &Hits)
    requires room { length (body_spelling body.old.items) + MOST_ROWS * ROW_ITEM ≤ body.old.room }
    requires below { IsTrue (are_below MOST_SITE_VOLUMES table.now.rows) }
    ensures put { body.new ≡ record { items = body.old.items ++ pairs_with_next (with_hits hits.now) table.now.rows; room = body.old.room } }
    ensures rules { AreRowsSound table.now.rows }
    ensures short { length (body_spelling body.new.items) ≤ length (body_spelling body.old.items) + MOST_ROWS * ROW_ITEM }
{
    for row in table.rows() {
        if let Some(state) = hits.next_state(row.device, row.state) {
            let mut changed = *row;
            changed.state = state;
            body.put_row(&changed);
        }
    }
}

/// Gives the rows that hits change their states after them.
pub(crate) fn take_hits(table: &mut PairTable, hits: &Hits)
    requires { IsTrue (are_below MOST_SITE_VOLUMES table.old.rows) }
    ensures { table.new ≡ with_rows table.old (rows_in_states (with_hits hits.now) table.old.rows) }
{
    for place in 0..table.len() {
        let rows = table.rows();
        let row = rows[usize::from(place)];
        if let Some(state) = hits.next_state(row.device, row.state) {
            table.set_state(row.device, state);
        }
    }
}
