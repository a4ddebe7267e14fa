//! One turn of a sidefile: what is handed over of the run that an entry begins.

ghost use Rattle.std.specs.Prelude.{◌≡◌, ◌<◌, ◌≤◌, ◌-◌, ℕ, min, None, Some};
ghost use Rattle.write_trace.specs.Entries.{stamp_of as stamp_of_entry};
ghost use Rattle.sidefile.specs.Looks.{IsEntryTo};
ghost use Rattle.sidefile.specs.States.{IsWaiting};
ghost use Rattle.sidefile.specs.Turns.{IsHandover, IsSomeWaiting};

use crate::hand::Hand;
use crate::look::{Look, look_ahead};
use crate::run::{add, stamp_of, take_run};
use ckd_track::{Batch, Cause, WriteList};
use std::alloc::Global;
use tod_stamp::Stamp;
use write_trace::{Entry, TraceReader};
use xrc_edge::Source;

/// What was handed over, and the entry that waits afterwards.
#[derive(Drop)]
pub struct Handover {
    pub hand: Hand,
    pub waiting: Option<Entry>,
}

impl Handover {
    /// No entry waits afterwards.
    pub fn last(hand: Hand) -> Handover
        ensures { result ≡ record { hand = hand; waiting = None } }
    {
        Handover {
            hand,
            waiting: None,
        }
    }

    /// What is handed over where no run was read, or the break of the run with this stamp.
    pub fn broken(cause: Cause, stamp: u64) -> Handover
        requires { 1 ≤ stamp }
        ensures { result ≡ record { hand = Hand.Broken cause (record { 0 = stamp - 1 }); waiting = None } }
    {
        Handover::last(Hand::Broken {
            cause,
            upto: Stamp(stamp - 1),
        })
    }
}

/// The time just before an entry, or the limit if that is less.
fn before(next: &Entry, limit: Stamp) -> Stamp
    requires { 1 ≤ stamp_of_entry next.now }
    ensures { result.0 ≡ min limit.0 (stamp_of_entry next.now - 1) }
{
    Stamp(limit.0.min(stamp_of(next).0 - 1))
}

/// Hands over the run that an entry begins, or lets it wait where its stamp is above the limit.
pub fn take_turn<S: Source>(
    control: u16,
    reader: &mut TraceReader,
    alloc: Global,
    source: &mut S,
    first: Entry,
    limit: Stamp,
) -> Handover
    requires goes_on { reader.old.stopped ≡ None }
    requires last { reader.old.last ≡ stamp_of_entry first }
    requires kept { IsEntryTo reader.old.volumes first }
    ensures { (upto : ℕ) → upto < stamp_of_entry first → upto ≤ limit.0 → IsHandover control limit.0 upto (S.left source.old) (S.left source.new) (S.faults source.old) (S.faults source.new) (Some first) reader.old reader.new result }
{
    let stamp = stamp_of(&first);
    if stamp.0 > limit.0 {
        return Handover {
            hand: Hand::AtLimit,
            waiting: Some(first),
        };
    }
    let mut writes = WriteList::make(alloc);
    let Ok(()) = add(alloc, &mut writes, first) else {
        return Handover::last(Hand::NoMemory);
    };
    match take_run(reader, alloc, source, stamp, &mut writes) {
        Look::Next(next) => {
            let upto = before(&next, limit);
            Handover {
                hand: Hand::Batch(Batch {
                    control,
                    writes,
                    upto,
                }),
                waiting: Some(next),
            }
        }
        Look::Ended => Handover::last(Hand::Batch(Batch {
            control,
            writes,
            upto: limit,
        })),
        Look::Bad(cause) => Handover::broken(cause, stamp.0),
        Look::NoMemory => Handover::last(Hand::NoMemory),
    }
}

/// Hands over what is due, where this entry waits, or none.
pub fn hand_over<S: Source>(
    control: u16,
    reader: &mut TraceReader,
    alloc: Global,
    source: &mut S,
    waiting: Option<Entry>,
    limit: Stamp,
) -> Handover
    requires { IsSomeWaiting waiting reader.old }
    ensures { (upto : ℕ) → IsWaiting waiting reader.old upto → upto ≤ limit.0 → IsHandover control limit.0 upto (S.left source.old) (S.left source.new) (S.faults source.old) (S.faults source.new) waiting reader.old reader.new result }
{
    if let Some(first) = waiting {
        return take_turn(control, reader, alloc, source, first, limit);
    }
    match look_ahead(reader, alloc, source) {
        Look::Next(first) => take_turn(control, reader, alloc, source, first, limit),
        Look::Ended => Handover::last(Hand::AtLimit),
        Look::Bad(cause) => Handover::last(Hand::Broken {
            cause,
            upto: Stamp(0),
        }),
        Look::NoMemory => Handover::last(Hand::NoMemory),
    }
}
