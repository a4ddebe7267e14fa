//! The second half of the mover's part of a round: the last group is applied, failures are told, a mark is made if it is due, and the
//! volumes of pairs that are suspended or hit now are dropped.

ghost use Rattle.std.specs.Prelude.{◌≡◌, ◌<◌, ℕ, [], false, length, OnOk, IsTrue};
ghost use Rattle.pair_table.specs.Tables.{AreRowsSound, none_clash};
ghost use Rattle.record_rows.specs.Hits.{hit_now};
ghost use Rattle.site_store.specs.Standing.{MayRecord, StandsFast};
ghost use Rattle.mover.specs.Dropping.{AreOfControls, Drops, MakesDrops, are_states_of, drop_of, owes_since};
ghost use Rattle.mover.specs.Moves.{IsStillAt, KeepsLimit, MaySettle, Moved, MoverWorks, SettlesFor, SiteMoved};
ghost use Rattle.mover.specs.Numbers.{FormsUse, UsesUpTo};

use crash_plant::Plant;
use pair_table::{MOST_ROWS, PairRow, PairState, PairTable};
use site_store::{Site, StoreError};
use std::sync::Wait;
use std::thread::Threads;
use turn_group::{MoverSeat, TurnGroup};

/// The states of a table's rows, by their places.
pub(crate) fn states_of(table: &PairTable) -> [Option<PairState>; MOST_ROWS]
    ensures states { are_states_of table.now.rows result }
    ensures rules { AreRowsSound table.now.rows }
{
    let mut states = [None; MOST_ROWS];
    for (place, row) in table.rows().iter().enumerate() {
        states[place] = Some(row.state);
    }
    states
}

/// Drops the volume of a row that was suspended or hit.
fn drop_row<W: Wait>(
    rt: &W,
    group: &TurnGroup,
    seat: &mut MoverSeat,
    was: Option<PairState>,
    row: &PairRow,
)
    requires table { seat.old.table ≡ group.now.table }
    requires control { row.now.control < length seat.old.known }
    ensures drops { MakesDrops (drop_of row.now (owes_since was row.now.state)) seat.old seat.new }
    ensures seat { IsStillAt seat.old seat.new }
{
    let Some(was) = was else {
        return;
    };
    if let Some(all) = was.owes(row.state) {
        group.drop_volume(rt, seat, row.control, row.volume, all);
    }
}

/// Drops the volumes of the rows that were suspended or hit since they had these states.
pub(crate) fn drop_suspended<W: Wait>(
    rt: &W,
    group: &TurnGroup,
    seat: &mut MoverSeat,
    was: &[Option<PairState>; MOST_ROWS],
    table: &PairTable,
)
    requires table { seat.old.table ≡ group.now.table }
    requires controls { AreOfControls (length seat.old.known) table.now.rows }
    ensures drops { Drops was.now table.now.rows seat.old seat.new }
    ensures seat { IsStillAt seat.old seat.new }
{
    for (place, row) in table.rows().iter().enumerate() {
        drop_row(rt, group, seat, was[place], row);
    }
}

/// Applies the last group, tells which volumes failed, and marks if a mark is due.
fn keep<R: Threads + Sync, P: Plant>(
    rt: &R,
    site: &mut Site<P::Volume>,
    plant: &mut P,
) -> Result<(), StoreError>
    requires fast { StandsFast P.tells site.old (P.state plant.old) }
    requires level { site.old.is_ahead ≡ false }
    requires apart { IsTrue (none_clash site.old.told) }
    requires told { hit_now site.old.failed site.old.told ≡ [] }
    ensures told { OnOk result (hit_now site.new.failed site.new.told ≡ []) }
    ensures rests { OnOk result (MayRecord P.tells site.new (P.state plant.new)) }
    ensures marked { OnOk result (site.new.since ≡ 0) }
    ensures moved { SiteMoved P.tells site.old site.new (P.state plant.old) (P.state plant.new) result }
    ensures works { MoverWorks P.tells site.old site.new (P.state plant.old) (P.state plant.new) result }
    ensures numbers { UsesUpTo 2 2 site.old site.new result }
{
    site.apply(rt, plant);
    let time = site.time();
    site.suspend(plant, time)?;
    if !site.is_mark_due() {
        return Ok(());
    }
    site.mark(rt, plant, false)
}

/// Brings the site to rest after its last group. Volumes whose pairs are suspended by it are dropped.
pub(crate) fn settle<R: Threads + Wait + Sync, P: Plant>(
    rt: &R,
    group: &TurnGroup,
    seat: &mut MoverSeat,
    site: &mut Site<P::Volume>,
    plant: &mut P,
) -> Result<(), StoreError>
    requires table { seat.old.table ≡ group.now.table }
    requires may { (limit : ℕ) × MaySettle P.tells limit seat.old site.old (P.state plant.old) }
    ensures may { SettlesFor P.tells seat.old seat.new site.old site.new (P.state plant.old) (P.state plant.new) result }
    ensures moved { Moved P.tells seat.old seat.new site.old site.new (P.state plant.old) (P.state plant.new) result }
    ensures last { seat.new.last ≡ seat.old.last }
    ensures limited { (limit : ℕ) → KeepsLimit limit seat.old seat.new }
    ensures seat { IsStillAt seat.old seat.new }
    ensures works { MoverWorks P.tells site.old site.new (P.state plant.old) (P.state plant.new) result }
    ensures numbers { FormsUse 0 2 2 seat.old seat.new site.old site.new result }
{
    let was = states_of(site.table());
    keep(rt, site, plant)?;
    drop_suspended(rt, group, seat, &was, site.table());
    Ok(())
}
