//! The mover's part of a round.

ghost use Rattle.std.specs.Prelude.{◌≡◌, length, OnOk};
ghost use Rattle.mover.specs.Moves.{IsStillAt, KeepsLimit, MayMove, Moved, MoverWorks};
ghost use Rattle.mover.specs.Numbers.{UsesNumbers};

use crate::logging::log_formed;
use crate::settling::settle;
use crash_plant::Plant;
use pending_queue::Formed;
use site_store::{Site, StoreError};
use std::sync::Wait;
use std::thread::Threads;
use tod_stamp::Stamp;
use turn_group::{MoverSeat, TurnGroup};

/// The mover's part of a round: a group is formed up to a limit, and logged where it is to be logged. Then the site comes to rest: the
/// group is applied, failures are told, and a mark is made if it is due. Volumes of pairs that are suspended or hit are dropped.
///
/// After an error the site may not be used again.
pub(crate) fn move_once<R: Threads + Wait + Sync, P: Plant>(
    rt: &R,
    group: &TurnGroup,
    seat: &mut MoverSeat,
    limit: Stamp,
    formed: &mut Formed,
    site: &mut Site<P::Volume>,
    plant: &mut P,
) -> Result<(), StoreError>
    requires table { seat.old.table ≡ group.now.table }
    requires may { MayMove P.tells limit.0 seat.old site.old (P.state plant.old) }
    requires room { formed.old.controls ≡ length seat.old.known }
    ensures may { OnOk result (MayMove P.tells limit.0 seat.new site.new (P.state plant.new)) }
    ensures moved { Moved P.tells seat.old seat.new site.old site.new (P.state plant.old) (P.state plant.new) result }
    ensures cut { formed.new.cut ≡ seat.new.last }
    ensures limited { KeepsLimit limit.0 seat.old seat.new }
    ensures room { formed.new.controls ≡ formed.old.controls }
    ensures seat { IsStillAt seat.old seat.new }
    ensures works { MoverWorks P.tells site.old site.new (P.state plant.old) (P.state plant.new) result }
    ensures numbers { UsesNumbers seat.old seat.new site.old site.new result }
{
    log_formed(rt, group, seat, limit, formed, site, plant)?;
    settle(rt, group, seat, site, plant)
}
