//! The first half of the mover's part of a round: a group is formed, and logged.

ghost use Rattle.std.specs.Prelude.{◌≡◌, ◌≤◌, ◌&&◌, ◌||◌, length, OnOk};
ghost use Rattle.std.specs.List.{list_any};
ghost use Rattle.record_rows.specs.GroupRows.{is_shown_done};
ghost use Rattle.pair_table.specs.States.{is_settled};
ghost use Rattle.mover.specs.Groups.{is_to_log, matures};
ghost use Rattle.mover.specs.Moves.{IsStillAt, KeepsLimit, MayMove, MaySettle, Moved, MoverWorks};
ghost use Rattle.mover.specs.Numbers.{FormsUse};

use crate::settling::{drop_suspended, states_of};
use crash_plant::Plant;
use pair_table::{PairRow, PairTable};
use pending_queue::Formed;
use site_store::{Site, StoreError};
use std::sync::Wait;
use tod_stamp::Stamp;
use turn_group::{MoverSeat, TurnGroup};

/// Whether the plan of a row's volume is done with a group.
fn is_done(formed: &Formed, row: &PairRow) -> bool
    ensures { result ≡ is_shown_done formed.now row.now }
{
    formed.done().iter().any(|(control, volume)| *control == row.control && *volume == row.volume)
}

/// Whether a row becomes duplex with a group.
fn is_matured(formed: &Formed, row: &PairRow) -> bool
    ensures { result ≡ matures formed.now row.now }
{
    !row.state.is_settled() && is_done(formed, row)
}

/// Whether some row becomes duplex with a group.
fn matures(formed: &Formed, table: &PairTable) -> bool
    ensures { result ≡ list_any (matures formed.now) table.now.rows }
{
    table.rows().iter().any(|row| is_matured(formed, row))
}

/// Whether a group is to be logged. While a session starts there are groups below the site's time. At that time a group counts if
/// it has an entry or a break, or makes a pair duplex.
fn is_logged(formed: &Formed, time: Stamp, table: &PairTable) -> bool
    ensures { result ≡ is_to_log formed.now time.0 table.now.rows }
{
    let cut = formed.cut();
    if cut != time {
        return cut > time;
    }
    formed.count() > 0 || !formed.breaks().is_empty() || matures(formed, table)
}

/// Forms a group, and logs it where it is to be logged. Volumes whose pairs it suspends are dropped.
pub(crate) fn log_formed<W: Wait, P: Plant>(
    rt: &W,
    group: &TurnGroup,
    seat: &mut MoverSeat,
    limit: Stamp,
    formed: &mut Formed,
    site: &mut Site<P::Volume>,
    plant: &mut P,
) -> Result<(), StoreError>
    requires table { seat.old.table ≡ group.now.table }
    requires may { MayMove P.tells limit.0 seat.old site.old (P.state plant.old) }
    requires room { formed.old.controls ≡ length seat.old.known }
    ensures may { OnOk result (MaySettle P.tells limit.0 seat.new site.new (P.state plant.new)) }
    ensures moved { Moved P.tells seat.old seat.new site.old site.new (P.state plant.old) (P.state plant.new) result }
    ensures cut { formed.new.cut ≡ seat.new.last }
    ensures limited { KeepsLimit limit.0 seat.old seat.new }
    ensures room { formed.new.controls ≡ formed.old.controls }
    ensures seat { IsStillAt seat.old seat.new }
    ensures works { MoverWorks P.tells site.old site.new (P.state plant.old) (P.state plant.new) result }
    ensures numbers { FormsUse 1 2 1 seat.old seat.new site.old site.new result }
{
    let _ = group.form(rt, seat, limit, formed);
    if !is_logged(formed, site.time(), site.table()) {
        return Ok(());
    }
    let was = states_of(site.table());
    site.log(plant, formed)?;
    drop_suspended(rt, group, seat, &was, site.table());
    Ok(())
}
