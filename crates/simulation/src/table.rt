//! Rows of pairs as the rules move them: by times, by faults of volumes, and by commands.

use crate::input::{Level, Pair, Target};
use crate::world::World;
use std::alloc::Global;
use xrc_edge::NoMemory;

/// Times or numbers from one to another, both included: the rules allow each of them.
#[derive(Clone, Copy, Debug, PartialEq, Eq)]
pub struct Span {
    pub from: u64,
    pub to: u64,
}

impl Span {
    pub fn of(value: u64) -> Span {
        Span {
            from: value,
            to: value,
        }
    }

    pub fn has(&self, value: u64) -> bool {
        self.from <= value && value <= self.to
    }
}

/// Why a pair is suspended.
#[derive(Clone, Copy, Debug, PartialEq, Eq)]
pub enum Reason {
    Command,
    Device,
    Session,
    Control,
}

#[derive(Clone, Copy, Debug, PartialEq, Eq)]
pub enum State {
    Pending,
    /// Only a crash shows it, between two lines.
    Copy,
    Duplex,
    Suspended { reason: Reason, since: Span },
}

impl State {
    pub fn is_suspended(self) -> bool {
        matches!(self, State::Suspended { .. })
    }
}

#[derive(Clone, Copy, Debug, PartialEq, Eq)]
pub struct Row {
    pub pair: Pair,
    pub control: usize,
    pub device: u16,
    pub cylinders: u16,
    pub state: State,
    /// Whether it was surely duplex when it was suspended. If not, it may have been.
    pub was_duplex: bool,
}

impl Row {
    fn suspend(&mut self, reason: Reason, since: Span) {
        self.was_duplex = self.state == State::Duplex;
        self.state = State::Suspended { reason, since };
    }
}

/// A call on a volume that is planned to fail once. None of the plan is used twice.
#[derive(Clone, Copy)]
pub struct PlannedHit {
    pub device: u16,
}

/// Rows that may stand, and which of the planned faults they have taken.
#[derive(Drop)]
pub struct Table {
    pub rows: Vec<Row>,
    pub used: Vec<bool>,
}

impl Table {
    pub fn copy(&self, alloc: Global) -> Result<Table, NoMemory> {
        let mut rows = Vec::new(alloc);
        rows.extend_from_slice(self.rows.as_slice())?;
        let mut used = Vec::new(alloc);
        used.extend_from_slice(self.used.as_slice())?;
        Ok(Table { rows, used })
    }

    pub fn row_of(&self, primary: u16) -> Option<&Row> {
        self.rows.iter().find(|row| row.pair.primary == primary)
    }

    /// Whether a fault of a device may still come.
    pub fn may_hit(&self, hits: &[PlannedHit], device: u16) -> bool {
        let mut planned = hits.iter().zip(self.used.iter());
        planned.any(|(hit, used)| hit.device == device && !*used)
    }

    /// Brings the rows to a time without faults of volumes: a controller that has broken suspends its pairs, and every
    /// other pair is duplex.
    pub fn settle(&mut self, world: &World, time: u64) {
        for row in self.rows.iter_mut() {
            let broken = world.break_of(row.control).filter(|it| it.time < time);
            match (row.state, broken) {
                (State::Suspended { .. }, _) => {}
                (_, Some(broken)) => row.suspend(Reason::Control, Span::of(broken.time)),
                (_, None) => row.state = State::Duplex,
            }
        }
    }

    /// Takes the fault of a number: its device's row is suspended, and under the level SESSION every other row with it.
    fn hit(&mut self, hits: &[PlannedHit], number: usize, level: Level, since: Span) -> bool {
        let (Some(hit), Some(used)) = (hits.get(number), self.used.get_mut(number)) else {
            return false;
        };
        let is_there = self.rows.iter().any(|row| row.device == hit.device);
        if *used || !is_there {
            return false;
        }
        *used = true;
        for row in self.rows.iter_mut() {
            if row.device == hit.device {
                row.suspend(Reason::Device, since);
            } else if level == Level::Session && !row.state.is_suspended() {
                row.suspend(Reason::Session, since);
            }
        }
        true
    }

    pub fn delete(&mut self, target: Target) {
        self.rows.retain(|row| match target {
            Target::All => false,
            Target::One(pair) => row.pair != pair,
        });
    }

    pub fn suspend(&mut self, target: Target, time: u64) {
        for row in self.rows.iter_mut() {
            let is_named = match target {
                Target::All => true,
                Target::One(pair) => row.pair == pair,
            };
            if is_named && !row.state.is_suspended() {
                row.suspend(Reason::Command, Span::of(time));
            }
        }
    }
}

/// Adds to tables all those to which further planned faults lead, each at a time of the span.
pub fn with_hits(
    alloc: Global,
    tables: &mut Vec<Table>,
    hits: &[PlannedHit],
    level: Level,
    since: Span,
) -> Result<(), NoMemory> {
    for number in 0..hits.len() {
        let mut more = Vec::new(alloc);
        for table in tables.iter() {
            let mut table = table.copy(alloc)?;
            if table.hit(hits, number, level, since) {
                more.push(table)?;
            }
        }
        for table in more {
            tables.push(table)?;
        }
    }
    Ok(())
}
