//! A session as the rules move it, line by line.

use crate::input::{Command, Level, Line, Pair, Target};
use crate::table::{PlannedHit, Reason, Row, Span, State, Table, with_hits};
use crate::world::World;
use std::alloc::Global;
use xrc_edge::NoMemory;

/// Why a line is refused.
#[derive(Clone, Copy, Debug, PartialEq, Eq)]
pub enum Refusal {
    NoSession,
    SessionExists,
    NoPrimary,
    NoSecondary,
    SecondaryInUse,
    AlreadyPaired,
    TooSmall { tracks: u32 },
    OtherSecondary,
    NotPaired,
    Ended,
    ControlBroken { control: usize },
}

#[derive(Clone, Copy, Debug, PartialEq, Eq)]
pub enum Answer {
    Accepted {
        /// How many tracks an added pair owes.
        tracks: Option<Span>,
    },
    Refused(Refusal),
}

/// What a line may do.
#[derive(Drop)]
pub struct Outcome {
    pub answer: Answer,
    pub table: Table,
}

/// A session after so many replies.
#[derive(Drop)]
pub struct Session {
    pub answered: usize,
    pub level: Option<Level>,
    pub is_ended: bool,
    /// The time of the last reply; of the end's after it.
    pub at: u64,
    /// The tables of rows that the rules allow here.
    pub tables: Vec<Table>,
}

impl Session {
    pub fn new(alloc: Global, hits: &[PlannedHit]) -> Result<Session, NoMemory> {
        let mut used = Vec::new(alloc);
        for _ in hits {
            used.push(false)?;
        }
        let mut tables = Vec::new(alloc);
        let rows = Vec::new(alloc);
        tables.push(Table { rows, used })?;
        Ok(Session {
            answered: 0,
            level: None,
            is_ended: false,
            at: 0,
            tables,
        })
    }

    /// The level while the session runs.
    pub fn running(&self) -> Option<Level> {
        self.level.filter(|_| !self.is_ended)
    }

    /// The time of a reply to a line; None before the start.
    pub fn reply_time(&self, line: &Line, answer: Answer) -> Option<u64> {
        let is_start = matches!(line.command, Command::Start(_));
        let is_accepted = matches!(answer, Answer::Accepted { .. });
        match self.level {
            Some(_) if self.is_ended => Some(self.at),
            Some(_) => Some(line.time),
            None if is_start && is_accepted => Some(line.time),
            None => None,
        }
    }

    /// What a line may do to the tables.
    pub fn outcomes(
        &self,
        alloc: Global,
        world: &World,
        hits: &[PlannedHit],
        line: &Line,
    ) -> Result<Vec<Outcome>, NoMemory> {
        let mut outcomes = Vec::new(alloc);
        for mut table in self.tables_before(alloc, world, hits, line.time)? {
            let answer = self.answer(alloc, world, line, &mut table)?;
            let mut after = Vec::new(alloc);
            after.push(table)?;
            if let Some(level) = self.running() {
                with_hits(alloc, &mut after, hits, level, Span::of(line.time))?;
            }
            for table in after {
                outcomes.push(Outcome { answer, table })?;
            }
        }
        Ok(outcomes)
    }

    /// The tables when the command of a line of this time takes effect.
    fn tables_before(
        &self,
        alloc: Global,
        world: &World,
        hits: &[PlannedHit],
        time: u64,
    ) -> Result<Vec<Table>, NoMemory> {
        let mut tables = Vec::new(alloc);
        for table in self.tables.iter() {
            tables.push(table.copy(alloc)?)?;
        }
        let Some(level) = self.running() else {
            return Ok(tables);
        };
        let since = Span {
            from: self.at,
            to: time,
        };
        with_hits(alloc, &mut tables, hits, level, since)?;
        for table in tables.iter_mut() {
            table.settle(world, time);
        }
        with_hits(alloc, &mut tables, hits, level, since)?;
        Ok(tables)
    }

    /// Answers a line, and does its command.
    fn answer(
        &self,
        alloc: Global,
        world: &World,
        line: &Line,
        table: &mut Table,
    ) -> Result<Answer, NoMemory> {
        let is_start = matches!(line.command, Command::Start(_));
        if self.is_ended {
            return Ok(Answer::Refused(Refusal::Ended));
        }
        if line.is_other || (self.level.is_none() && !is_start) {
            return Ok(Answer::Refused(Refusal::NoSession));
        }
        let done = Answer::Accepted { tracks: None };
        match line.command {
            Command::Start(_) if self.level.is_some() => {
                Ok(Answer::Refused(Refusal::SessionExists))
            }
            Command::Start(_) | Command::Query | Command::End => Ok(done),
            Command::Add(pair) => add(alloc, world, line.time, pair, table),
            Command::Delete(target) | Command::Suspend(target) if is_missing(table, target) => {
                Ok(Answer::Refused(Refusal::NotPaired))
            }
            Command::Delete(target) => {
                table.delete(target);
                Ok(done)
            }
            Command::Suspend(target) => {
                table.suspend(target, line.time);
                Ok(done)
            }
        }
    }

    /// Goes on after a reply, with the tables that may stand behind it.
    pub fn advance(&mut self, line: &Line, answer: Answer, tables: Vec<Table>) {
        self.answered = self.answered.saturating_add(1);
        self.at = self.reply_time(line, answer).unwrap_or(0);
        self.tables = tables;
        if let Answer::Accepted { .. } = answer {
            match line.command {
                Command::Start(level) => self.level = Some(level.unwrap_or(Level::Volume)),
                Command::End => self.is_ended = true,
                _ => {}
            }
        }
    }
}

fn is_missing(table: &Table, target: Target) -> bool {
    match target {
        Target::All => false,
        Target::One(pair) => !table.rows.iter().any(|row| row.pair == pair),
    }
}

/// Adds a pair or resumes it. The first cause of a refusal counts.
fn add(
    alloc: Global,
    world: &World,
    time: u64,
    pair: Pair,
    table: &mut Table,
) -> Result<Answer, NoMemory> {
    match added_row(world, time, pair, table) {
        Err(refusal) => Ok(Answer::Refused(refusal)),
        Ok(Place::Last(row)) => {
            table.rows.push(row)?;
            let tracks = world
                .input
                .primary(pair.primary)
                .map_or(0, |it| it.tracks());
            let tracks = Some(Span::of(u64::from(tracks)));
            Ok(Answer::Accepted { tracks })
        }
        Ok(Place::Resumed(row)) => {
            let tracks = Some(owed(alloc, world, time, &row)?);
            for row in table.rows.iter_mut() {
                if row.pair == pair {
                    row.state = State::Pending;
                }
            }
            Ok(Answer::Accepted { tracks })
        }
    }
}

/// Where an added pair stands.
enum Place {
    Last(Row),
    /// In its row, which was so.
    Resumed(Row),
}

fn added_row(world: &World, time: u64, pair: Pair, table: &Table) -> Result<Place, Refusal> {
    let Some((control, _)) = world.input.controller_of(pair.primary) else {
        return Err(Refusal::NoPrimary);
    };
    if world.has_broken(control, time) {
        return Err(Refusal::ControlBroken { control });
    }
    let Some((device, cylinders)) = world.input.device(pair.secondary) else {
        return Err(Refusal::NoSecondary);
    };
    let own = world
        .input
        .primary(pair.primary)
        .map_or(0, |it| it.cylinders);
    match table.row_of(pair.primary) {
        Some(row) if row.pair.secondary != pair.secondary => Err(Refusal::OtherSecondary),
        Some(row) if !row.state.is_suspended() => Err(Refusal::AlreadyPaired),
        Some(row) => Ok(Place::Resumed(*row)),
        None if table.rows.iter().any(|row| row.device == device) => Err(Refusal::SecondaryInUse),
        None if cylinders < own => Err(Refusal::TooSmall {
            tracks: u32::from(own) * u32::from(crate::input::HEADS),
        }),
        None => Ok(Place::Last(Row {
            pair,
            control,
            device,
            cylinders: own,
            state: State::Pending,
            was_duplex: false,
        })),
    }
}

/// How many tracks a suspended pair owes: those that were written since, if it was duplex and its own volume did not
/// fail, and else all.
fn owed(alloc: Global, world: &World, time: u64, row: &Row) -> Result<Span, NoMemory> {
    let all = world
        .input
        .primary(row.pair.primary)
        .map_or(0, |it| u64::from(it.tracks()));
    match row.state {
        State::Suspended { reason, since } if reason != Reason::Device => Ok(Span {
            from: world.changed(alloc, row.pair.primary, since.to, time)?,
            to: if row.was_duplex {
                world.changed(alloc, row.pair.primary, since.from, time)?
            } else {
                all
            },
        }),
        _ => Ok(Span::of(all)),
    }
}
