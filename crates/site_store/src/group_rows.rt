//! The rows that the record of a formed group changes.

ghost use Rattle.std.specs.Prelude.{◌≡◌, ◌<◌, ◌≤◌, ◌+◌, ◌*◌, length, IfSome, IsTrue};
ghost use Rattle.std.specs.List.{list_all};
ghost use Rattle.xrc_journal.specs.declared.layout.TheConstants.{ROW_ITEM};
ghost use Rattle.pair_table.specs.declared.limits.TheConstants.{MOST_ROWS};
ghost use Rattle.xrc_edge.specs.declared.limits.TheConstants.{MOST_SITE_VOLUMES};
ghost use Rattle.pair_table.specs.Tables.{AreRowsSound, are_below, with_rows};
ghost use Rattle.xrc_journal.specs.Items.{body_spelling};
ghost use Rattle.site_store.specs.Hits.{stays_row, with_group_and_hits};
ghost use Rattle.site_store.specs.Logging.{with_pairs};
ghost use Rattle.pair_table.specs.Rows.{is_state};
ghost use Rattle.record_rows.specs.ChangedRows.{rows_in_states};
ghost use Rattle.record_rows.specs.GroupRows.{broken_state, is_shown_done, matured_state, shown_break, state_with_group};

use crate::hits::Hits;
use pair_table::{PairRow, PairState, PairTable, SuspendCause};
use pending_queue::Formed;
use tod_stamp::Stamp;
use xrc_journal::Body;

/// The time of a controller's break that a group reports, if it reports one.
fn break_time(formed: &Formed, control: u16) -> Option<Stamp>
    ensures { result ≡ shown_break control formed.now.breaks }
{
    for found in formed.breaks() {
        if found.0 == control {
            return Some(found.1);
        }
    }
    None
}

/// Whether the plan of a row's volume is done with a group.
fn is_done(formed: &Formed, row: &PairRow) -> bool
    ensures { result ≡ is_shown_done formed.now row.now }
{
    formed
        .done()
        .iter()
        .any(|plan| plan.0 == row.control && plan.1 == row.volume)
}

/// The state to which a state whose controller doesn't break changes, if it does.
fn matured_state(done: bool, state: PairState) -> Option<PairState>
    ensures state { result ≡ matured_state done state }
    ensures valid { IfSome result (λ after. IsTrue (is_state after)) }
{
    match state {
        PairState::Pending if done => Some(PairState::Duplex),
        PairState::Pending => Some(PairState::Copy),
        PairState::Copy if done => Some(PairState::Duplex),
        PairState::Copy | PairState::Duplex | PairState::Suspended { .. } => None,
    }
}

/// The state to which a break changes a state, if it does.
fn broken_state(since: Stamp, state: PairState) -> Option<PairState>
    ensures state { result ≡ broken_state since state }
    ensures valid { IfSome result (λ after. IsTrue (is_state after)) }
{
    if state.is_suspended() {
        return None;
    }
    Some(PairState::Suspended {
        cause: SuspendCause::Control,
        since,
    })
}

/// The state to which a group changes a row, if it does.
fn next_state(formed: &Formed, row: &PairRow) -> Option<PairState>
    ensures state { result ≡ state_with_group formed.now row.now }
    ensures valid { IfSome result (λ after. IsTrue (is_state after)) }
{
    match break_time(formed, row.control) {
        Some(since) => broken_state(since, row.state),
        None => matured_state(is_done(formed, row), row.state),
    }
}

/// The state to which a record of a group changes a row, if it does: what the group makes of it, and hits after that.
fn record_state(formed: &Formed, hits: &Hits, row: &PairRow) -> Option<PairState>
    requires { row.now.device < MOST_SITE_VOLUMES }
    ensures state { result ≡ with_group_and_hits formed.now hits.now row.now }
    ensures valid { IfSome result (λ after. IsTrue (is_state after)) }
{
    let grouped = next_state(formed, row);
    let state = grouped.unwrap_or(row.state);
    hits.next_state(row.device, state).or(grouped)
}

/// Puts the rows that a record changes, as they are after it.
pub(crate) fn put_changed(body: &mut Body, table: &PairTable, formed: &Formed, hits: &Hits)
    requires room { length (body_spelling body.old.items) + MOST_ROWS * ROW_ITEM ≤ body.old.room }
    requires below { IsTrue (are_below MOST_SITE_VOLUMES table.now.rows) }
    ensures put { body.new ≡ with_pairs (with_group_and_hits formed.now hits.now) table.now.rows body.old }
    ensures keep { IsTrue (list_all (stays_row (with_group_and_hits formed.now hits.now)) table.now.rows) }
    ensures rules { AreRowsSound table.now.rows }
    ensures short { length (body_spelling body.new.items) ≤ length (body_spelling body.old.items) + MOST_ROWS * ROW_ITEM }
{
    for row in table.rows() {
        if let Some(state) = record_state(formed, hits, row) {
            let mut changed = *row;
            changed.state = state;
            body.put_row(&changed);
        }
    }
}

/// Gives the rows that a record changes their states after it.
pub(crate) fn take_changed(table: &mut PairTable, formed: &Formed, hits: &Hits)
    requires { IsTrue (are_below MOST_SITE_VOLUMES table.old.rows) }
    ensures { table.new ≡ with_rows table.old (rows_in_states (with_group_and_hits formed.now hits.now) table.old.rows) }
{
    for place in 0..table.len() {
        let rows = table.rows();
        let row = rows[usize::from(place)];
        if let Some(state) = record_state(formed, hits, &row) {
            table.set_state(row.device, state);
        }
    }
}
