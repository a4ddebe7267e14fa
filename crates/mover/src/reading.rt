//! A reader's part of a round.

ghost use Rattle.std.specs.Prelude.{◌≡◌, ◌≤◌, ◌<◌, None, All};
ghost use Rattle.pending_queue.specs.declared.room.Room.{Room as RoomIs};
ghost use Rattle.fed_logs.specs.declared.reading.Reading.TheVariants as readings;
ghost use Rattle.fed_logs.specs.Reporters.{IsToldBy, StandsAs, HasFaultBy};
ghost use Rattle.mover.specs.Readers.{SitsAt, reporter_of};
ghost use Rattle.mover.specs.Lanes.{AllLanesRead, AreLastCopies, AreLastOf, DidAllParts, DidLanePart, DidPart, EndsIn, IsRefusal, LaneReads, MayLaneRead, MayRead, ReadsInRound, SeatCopies, SeatReports, SeatTakesLimit, Sits, answers_at};

use crate::gate::Gate;
use crate::lane::Lane;
use crate::reader::Reader;
use crate::seat_reporter::{SeatReporter, Sitting};
use ckd_track::Slot;
use fed_logs::{Feed, Reading};
use group_state::CopyJoin;
use std::alloc::Global;
use std::marker::{Brand, PhantomData};
use std::sync::Wait;
use std::thread;
use std::thread::Threads;
use tod_stamp::Stamp;
use turn_group::{ReaderSeat, TurnGroup};
use xrc_edge::Source;

/// Reads on until the feed has nothing to join up to the limit: the batch that is held is joined first.
fn read_on<W: Wait, S: Source, B: Sitting>(
    reporter: &mut SeatReporter<'_, W, B>,
    alloc: Global,
    source: &mut S,
    feed: &mut Feed,
    limit: Stamp,
) -> Reading
    requires told { IsToldBy feed.old (reporter_of B.volumes reporter.old.seat) }
    requires limit { feed.old.side.upto ≤ limit.0 }
    ensures reads { SeatReports B.volumes (S.left source.old) (S.left source.new) feed.old feed.new reporter.old.seat reporter.new.seat }
    ensures takes { SeatTakesLimit B.volumes limit.0 (S.left source.old) (S.left source.new) feed.old feed.new reporter.old.seat reporter.new.seat }
    ensures told { IsToldBy feed.new (reporter_of B.volumes reporter.new.seat) }
    ensures within { feed.new.side.upto ≤ limit.0 }
    ensures stands { StandsAs result limit.0 feed.new }
    ensures fault { feed.old.halted ≡ None → HasFaultBy (S.faults source.old) (S.faults source.new) feed.new.halted }
    ensures ends { result ≡ readings.Joined → ⊥ }
    ensures refused { (room : RoomIs) → result ≡ readings.Held room → EndsIn (IsRefusal room feed.new) (answers_at reporter.old.seat) (answers_at reporter.new.seat) }
{
    let rt = reporter.rt;
    for _ in rt.forever() {
        match feed.read_once(alloc, source, reporter, limit) {
            Reading::Joined => {}
            reading => return reading,
        }
    }
    unreachable!()
}

/// Copies wanted tracks, each as it is at the floor, until none is wanted or there is no room.
fn copy_all<W: Wait, B: Sitting>(
    reporter: &mut SeatReporter<'_, W, B>,
    feed: &Feed,
    slot: &mut Slot,
)
    requires goes_on { feed.now.halted ≡ None }
    requires told { IsToldBy feed.now (reporter_of B.volumes reporter.old.seat) }
    ensures told { IsToldBy feed.now (reporter_of B.volumes reporter.new.seat) }
    ensures copies { SeatCopies B.volumes feed.now reporter.old.seat reporter.new.seat }
    ensures ends { EndsIn (AreLastCopies feed.now.side.control feed.now) (answers_at reporter.old.seat) (answers_at reporter.new.seat) }
{
    let rt = reporter.rt;
    for _ in rt.forever() {
        let Some(copied) = feed.copy_once(reporter, slot) else {
            return;
        };
        if let CopyJoin::Held(_) = copied {
            return;
        }
    }
}

/// Reads on, and copies what is wanted at the limit.
fn read_and_copy<W: Wait, S: Source, B: Sitting>(
    reporter: &mut SeatReporter<'_, W, B>,
    alloc: Global,
    source: &mut S,
    feed: &mut Feed,
    slot: &mut Slot,
    limit: Stamp,
) -> Reading
    requires told { IsToldBy feed.old (reporter_of B.volumes reporter.old.seat) }
    requires limit { feed.old.side.upto ≤ limit.0 }
    ensures reads { SeatReports B.volumes (S.left source.old) (S.left source.new) feed.old feed.new reporter.old.seat reporter.new.seat }
    ensures takes { SeatTakesLimit B.volumes limit.0 (S.left source.old) (S.left source.new) feed.old feed.new reporter.old.seat reporter.new.seat }
    ensures told { IsToldBy feed.new (reporter_of B.volumes reporter.new.seat) }
    ensures within { feed.new.side.upto ≤ limit.0 }
    ensures stands { StandsAs result limit.0 feed.new }
    ensures fault { feed.old.halted ≡ None → HasFaultBy (S.faults source.old) (S.faults source.new) feed.new.halted }
    ensures ends { EndsIn (AreLastOf result feed.new.side.control feed.new) (answers_at reporter.old.seat) (answers_at reporter.new.seat) }
{
    let reading = read_on(reporter, alloc, source, feed, limit);
    if let Reading::AtLimit = reading {
        copy_all(reporter, feed, slot);
    }
    reading
}

/// Reads on and copies in the turns of a seat. Gives what became of it, the seat, and whether a track was wanted.
fn read_with_seat<W: Wait, S: Source, B: Sitting>(
    rt: &W,
    alloc: Global,
    group: &TurnGroup,
    seat: ReaderSeat,
    source: &mut S,
    feed: &mut Feed,
    slot: &mut Slot,
    limit: Stamp,
) -> (Reading, ReaderSeat, bool)
    requires table { group.now ≡ B.table }
    requires sits { SitsAt B.table B.volumes seat }
    requires told { IsToldBy feed.old (reporter_of B.volumes seat) }
    requires limit { feed.old.side.upto ≤ limit.0 }
    ensures reads { SeatReports B.volumes (S.left source.old) (S.left source.new) feed.old feed.new seat result.1 }
    ensures takes { SeatTakesLimit B.volumes limit.0 (S.left source.old) (S.left source.new) feed.old feed.new seat result.1 }
    ensures sits { SitsAt B.table B.volumes result.1 }
    ensures told { IsToldBy feed.new (reporter_of B.volumes result.1) }
    ensures within { feed.new.side.upto ≤ limit.0 }
    ensures stands { StandsAs result.0 limit.0 feed.new }
    ensures fault { feed.old.halted ≡ None → HasFaultBy (S.faults source.old) (S.faults source.new) feed.new.halted }
    ensures ends { EndsIn (AreLastOf result.0 feed.new.side.control feed.new) (answers_at seat) (answers_at result.1) }
{
    let mut reporter: SeatReporter<'_, W, B> = SeatReporter {
        rt,
        group,
        seat,
        has_copied: false,
        sitting: PhantomData,
    };
    let reading = read_and_copy(&mut reporter, alloc, source, feed, slot, limit);
    let SeatReporter {
        seat,
        has_copied,
        ..
    } = reporter;
    (reading, seat, has_copied)
}

/// How many bytes of its trace the last part took that took some: `before`, where nothing lies between the two places.
fn taken(before: u64, from: u64, to: u64) -> u64 {
    match to.saturating_sub(from) {
        0 => before,
        took => took,
    }
}

/// A reader's part of a round: it joins until it is held, broken, or at the limit, and there it copies what is wanted.
fn read_part<W: Wait, S: Source>(
    rt: &W,
    alloc: Global,
    group: &TurnGroup,
    source: &mut S,
    reader: &mut Reader,
    limit: Stamp,
)
    requires may { MayRead group.now limit.0 reader.old }
    ensures sits { Sits group.now limit.0 reader.new }
    ensures reads { ReadsInRound limit.0 (S.left source.old) (S.left source.new) (S.faults source.old) (S.faults source.new) reader.old reader.new }
    ensures ends { DidPart reader.old reader.new }
{
    if reader.feed.broken().is_some() {
        reader.last = Some(Reading::Broken);
        return;
    }
    let Some(seat) = reader.seat.take() else {
        return;
    };
    let from = reader.feed.place();
    let (reading, seat, has_copied) = read_with_seat::<W, S, Brand>(
        rt,
        alloc,
        group,
        seat,
        source,
        &mut reader.feed,
        &mut reader.slot,
        limit,
    );
    reader.seat = Some(seat);
    reader.last = Some(reading);
    reader.took = taken(reader.took, from, reader.feed.place());
    reader.has_copied = has_copied;
}

/// Passes the gate, where the reader hasn't passed it in this epoch.
fn pass_once<G: Gate>(gate: &G, reader: &Reader) {
    if reader.last.is_some() {
        return;
    }
    if let Some(seat) = &reader.seat {
        gate.pass(seat.control());
    }
}

/// A lane's part of a round.
fn read_lane<W: Wait, S: Source, G: Gate>(
    rt: &W,
    alloc: Global,
    gate: &G,
    group: &TurnGroup,
    lane: &mut Lane<S>,
    limit: Stamp,
)
    requires may { MayLaneRead group.now limit.0 lane.old }
    ensures reads { LaneReads S.left S.faults group.now limit.0 lane.old lane.new }
    ensures ends { DidLanePart lane.old lane.new }
{
    if let Some(reader) = &mut lane.reader {
        pass_once(gate, reader);
        read_part(rt, alloc, group, &mut lane.source, reader, limit);
    }
}

/// The readers' parts of a round, side by side in at most so many threads. Each lane passes the gate before its first part of an epoch.
/// Then it joins what its trace has up to the limit, until there is no room, the trace breaks, or the limit is reached and no track is
/// wanted there.
pub(crate) fn read_all<W: Threads + Wait + Sync, S: Source + Send, G: Gate + Sync>(
    rt: &W,
    alloc: Global,
    gate: &G,
    group: &TurnGroup,
    lanes: &mut [Lane<S>],
    limit: Stamp,
    threads: usize,
)
    requires may { All (MayLaneRead group.now limit.0) lanes.old }
    requires threads { 0 < threads }
    ensures reads { AllLanesRead S.left S.faults group.now limit.0 lanes.old lanes.new }
    ensures ends { DidAllParts lanes.old lanes.new }
{
    thread::for_each_mut(
        rt,
        lanes,
        threads,
        &|_, lane| { read_lane(rt, alloc, gate, group, lane, limit) },
    );
}
