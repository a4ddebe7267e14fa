//! Rounds: readers beside the mover, until the limit is reached.

ghost use Rattle.std.specs.Prelude.{◌≡◌, ◌↔◌, ◌<◌, ◌≤◌, ℕ, All, Ok, OnOk, length, map, IsTrue, IsSomeAnd, false};
ghost use Rattle.xrc_edge.specs.declared.limits.TheConstants.{MOST_CONTROLS};
ghost use Rattle.std.specs.List.{list_all};
ghost use Rattle.std.specs.Thread.{IsSync};
ghost use Rattle.turn_group.specs.Calls.{as_answer};
ghost use Rattle.turn_group.specs.Seats.{TurnState};
ghost use Rattle.pair_table.specs.States.{is_settled};
ghost use Rattle.mover.specs.declared.ends.RoundsEnd.TheVariants as ends;
ghost use Rattle.mover.specs.Lanes.{IsLaneSeated, MayGoOn, MayLaneRead};
ghost use Rattle.mover.specs.Groups.{is_at_limit};
ghost use Rattle.mover.specs.Moves.{MayMove, Moved, MoverWorks};
ghost use Rattle.mover.specs.Numbers.{UsesNumbers};
ghost use Rattle.mover.specs.Rounds.{AllRead, SeatsAreBack, AreLanesOf, AreNewSeats, HasReached, IsDone, DoesRounds, store_result};

use crate::ends::RoundsEnd;
use crate::gate::Gate;
use crate::lane::Lane;
use crate::moving::move_once;
use crate::pace::threads_for;
use crate::reading::read_all;
use crate::seats::{hand_back, hand_out};
use crate::spare::{keep_formed, take_formed};
use crash_plant::Plant;
use fed_logs::Reading;
use pair_table::PairTable;
use pending_queue::Formed;
use site_store::{Site, StoreError};
use std::alloc::Global;
use std::sync::Wait;
use std::thread::{Threads, join_mut};
use tod_stamp::Stamp;
use turn_group::{MoverSeat, SeatList, TurnGroup};
use xrc_edge::Source;

/// One round: the readers beside the mover, or where their parts are worth no thread, before it.
fn round<R: Threads + Wait + Sync, S: Source + Send, P: Plant, G: Gate + Sync>(
    rt: &R,
    alloc: Global,
    gate: &G,
    limit: Stamp,
    lanes: &mut [Lane<S>],
    group: &TurnGroup,
    seat: &mut MoverSeat,
    formed: &mut Formed,
    site: &mut Site<P::Volume>,
    plant: &mut P,
) -> Result<(), StoreError>
    requires lanes { All (MayLaneRead group.now limit.0) lanes.old }
    requires table { seat.old.table ≡ group.now.table }
    requires may { MayMove P.tells limit.0 seat.old site.old (P.state plant.old) }
    requires room { formed.old.controls ≡ length seat.old.known }
    ensures does { DoesRounds P.tells S.left S.faults group.now limit.0 lanes.old lanes.new seat.old seat.new site.old site.new (P.state plant.old) (P.state plant.new) result }
    ensures may { OnOk result (MayMove P.tells limit.0 seat.new site.new (P.state plant.new)) }
    ensures cut { formed.new.cut ≡ seat.new.last }
    ensures room { formed.new.controls ≡ formed.old.controls }
{
    let threads = threads_for(lanes, limit);
    if threads == 0 {
        read_all(rt, alloc, gate, group, lanes, limit, 1);
        return move_once(rt, group, seat, limit, formed, site, plant);
    }
    let ((), moved) = join_mut(
        rt,
        &mut || -> ()
            requires { IsSync R.row × All (MayLaneRead group.now limit.0) lanes.now × (0 < threads) }
        { read_all(rt, alloc, gate, group, lanes, limit, threads) },
        &mut || -> Result<(), StoreError>
            requires { (seat.now.table ≡ group.now.table) × MayMove P.tells limit.0 seat.now site.now (P.state plant.now) × (formed.now.controls ≡ length seat.now.known) }
        { move_once(rt, group, seat, limit, formed, site, plant) },
    );
    moved
}

/// Whether no row waits for its copy or is copied.
fn are_settled(table: &PairTable) -> bool
    ensures { result ≡ list_all (λ r. is_settled r.state) table.now.rows }
{
    table.rows().iter().all(|row| row.state.is_settled())
}

/// Whether a lane's reader lacked memory.
fn is_any_lacking<S>(lanes: &[Lane<S>]) -> bool
    requires { (limit : ℕ) × (at : TurnState) × All (IsLaneSeated at limit) lanes.now }
    ensures { (result ≡ false) ↔ All (λ lane. IsSomeAnd lane.reader (λ r. MayGoOn r.feed)) lanes.now }
{
    for place in 0..lanes.len() {
        if lanes[place].last() == Some(Reading::NoMemory) {
            return true;
        }
    }
    false
}

/// Whether each lane's reader is at the limit, or has broken.
fn are_done<S>(lanes: &[Lane<S>]) -> bool
    ensures { IsTrue result ↔ All (λ lane. IsSomeAnd lane.reader IsDone) lanes.now }
{
    for place in 0..lanes.len() {
        match lanes[place].last() {
            Some(Reading::AtLimit | Reading::Broken) => {}
            _ => return false,
        }
    }
    true
}

/// Rounds until the limit is reached.
fn go_on<R: Threads + Wait + Sync, S: Source + Send, P: Plant, G: Gate + Sync>(
    rt: &R,
    alloc: Global,
    gate: &G,
    limit: Stamp,
    lanes: &mut [Lane<S>],
    group: &TurnGroup,
    seat: &mut MoverSeat,
    formed: &mut Formed,
    site: &mut Site<P::Volume>,
    plant: &mut P,
) -> RoundsEnd
    requires lanes { All (MayLaneRead group.now limit.0) lanes.old }
    requires table { seat.old.table ≡ group.now.table }
    requires may { MayMove P.tells limit.0 seat.old site.old (P.state plant.old) }
    requires room { formed.old.controls ≡ length seat.old.known }
    ensures does { DoesRounds P.tells S.left S.faults group.now limit.0 lanes.old lanes.new seat.old seat.new site.old site.new (P.state plant.old) (P.state plant.new) (store_result result) }
    ensures may { result ≡ ends.Reached → MayMove P.tells limit.0 seat.new site.new (P.state plant.new) }
    ensures reached { result ≡ ends.Reached → HasReached limit.0 lanes.new seat.new site.new }
{
    for _ in rt.forever() {
        match round(
            rt, alloc, gate, limit, lanes, group, seat, formed, site, plant,
        ) {
            Ok(()) => {}
            Err(error) => return RoundsEnd::Store(error),
        }
        if is_any_lacking(lanes) {
            return RoundsEnd::NoMemory;
        }
        if formed.cut() == limit && are_settled(site.table()) && are_done(lanes) {
            return RoundsEnd::Reached;
        }
    }
    unreachable!()
}

/// Rounds of readers that sit, until the limit is reached.
fn go_on_seated<R: Threads + Wait + Sync, S: Source + Send, P: Plant, G: Gate + Sync>(
    rt: &R,
    alloc: Global,
    gate: &G,
    limit: Stamp,
    lanes: &mut [Lane<S>],
    group: &TurnGroup,
    seat: &mut MoverSeat,
    site: &mut Site<P::Volume>,
    plant: &mut P,
) -> RoundsEnd
    requires few { length lanes.old ≤ MOST_CONTROLS }
    requires known { length seat.old.known ≡ length lanes.old }
    requires lanes { All (MayLaneRead group.now limit.0) lanes.old }
    requires table { seat.old.table ≡ group.now.table }
    requires may { MayMove P.tells limit.0 seat.old site.old (P.state plant.old) }
    ensures does { DoesRounds P.tells S.left S.faults group.now limit.0 lanes.old lanes.new seat.old seat.new site.old site.new (P.state plant.old) (P.state plant.new) (store_result result) }
    ensures may { result ≡ ends.Reached → MayMove P.tells limit.0 seat.new site.new (P.state plant.new) }
    ensures reached { result ≡ ends.Reached → HasReached limit.0 lanes.new seat.new site.new }
{
    let Ok(mut formed) = take_formed(alloc, lanes) else {
        return RoundsEnd::NoMemory;
    };
    let end = go_on(
        rt,
        alloc,
        gate,
        limit,
        lanes,
        group,
        seat,
        &mut formed,
        site,
        plant,
    );
    keep_formed(lanes, formed);
    end
}

/// The work of an epoch, round by round: the readers join what their traces have up to the limit, and copy what is wanted, while the
/// mover forms, logs and applies groups. Each seat is back in its place when it answers.
///
/// After `Store` or `NoMemory` the lanes and the site may not be used again.
pub fn rounds<R: Threads + Wait + Sync, S: Source + Send, P: Plant, G: Gate + Sync>(
    rt: &R,
    alloc: Global,
    gate: &G,
    limit: Stamp,
    lanes: &mut [Lane<S>],
    group: &TurnGroup,
    seat: &mut MoverSeat,
    seats: &mut SeatList,
    site: &mut Site<P::Volume>,
    plant: &mut P,
) -> RoundsEnd
    requires lanes { AreLanesOf group.now.first limit.0 lanes.old }
    requires seats { AreNewSeats group.now seat.old seats.old }
    requires may { MayMove P.tells limit.0 seat.old site.old (P.state plant.old) }
    // Whatever it answers.
    ensures lanes { AllRead S.left S.faults limit.0 seats.new lanes.old lanes.new }
    ensures moved { Moved P.tells seat.old seat.new site.old site.new (P.state plant.old) (P.state plant.new) (store_result result) }
    ensures limited { IsTrue (list_all (is_at_limit limit.0) (map as_answer seat.new.calls)) }
    ensures seats { SeatsAreBack group.now seat.new seats.new }
    ensures works { MoverWorks P.tells site.old site.new (P.state plant.old) (P.state plant.new) (store_result result) }
    ensures numbers { UsesNumbers seat.old seat.new site.old site.new (store_result result) }
    // At the limit.
    ensures reached { result ≡ ends.Reached → HasReached limit.0 lanes.new seat.new site.new }
    ensures may { result ≡ ends.Reached → MayMove P.tells limit.0 seat.new site.new (P.state plant.new) }
{
    hand_out(lanes, seats);
    let end = go_on_seated(rt, alloc, gate, limit, lanes, group, seat, site, plant);
    hand_back(lanes, seats);
    end
}
