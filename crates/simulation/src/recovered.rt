//! What a recovery names, and whether the rules allow it.

use crate::following::good_lines;
use crate::input::{Command, Level, Line, Pair};
use crate::session::Session;
use crate::table::{PlannedHit, Reason, Row, Span, State, Table};
use crate::world::World;
use std::alloc::Global;
use xrc_edge::NoMemory;

/// A pair that a recovery names.
#[derive(Clone, Copy, Debug, PartialEq, Eq)]
pub struct Named {
    pub pair: Pair,
    pub state: State,
}

/// The time and the pairs of a recovery.
#[derive(Drop)]
pub struct Recovered {
    pub time: u64,
    pub pairs: Vec<Named>,
}

/// Reads what a recovery has said; None where it is anything else.
pub fn read_recovered(alloc: Global, said: &str) -> Result<Option<Recovered>, NoMemory> {
    let mut lines = said.lines();
    let time = lines.next().and_then(read_time);
    let Some(time) = time else {
        return Ok(None);
    };
    let mut pairs = Vec::new(alloc);
    for line in lines {
        let Some(named) = read_named(line) else {
            return Ok(None);
        };
        pairs.push(named)?;
    }
    Ok(Some(Recovered { time, pairs }))
}

fn read_time(line: &str) -> Option<u64> {
    read_stamp(line.strip_prefix("RECOVERED SIM T=")?)
}

fn read_stamp(digits: &str) -> Option<u64> {
    if digits.len() == 16 {
        u64::from_str_radix(digits, 16).ok()
    } else {
        None
    }
}

fn read_named(line: &str) -> Option<Named> {
    let mut words = line.strip_prefix("PAIR ")?.split(' ');
    let pair = Pair {
        primary: words.next()?.strip_prefix('P')?.parse::<u16>().ok()?,
        secondary: words.next()?.strip_prefix('S')?.parse::<u16>().ok()?,
    };
    let state = match words.next()? {
        "PENDING" => State::Pending,
        "COPY" => State::Copy,
        "DUPLEX" => State::Duplex,
        "SUSPENDED" => {
            let reason = read_reason(words.next()?)?;
            words.next().filter(|word| *word == "SINCE")?;
            let since = Span::of(read_stamp(words.next()?)?);
            State::Suspended { reason, since }
        }
        _ => return None,
    };
    match words.next() {
        Some(_) => None,
        None => Some(Named { pair, state }),
    }
}

fn read_reason(word: &str) -> Option<Reason> {
    match word {
        "COMMAND" => Some(Reason::Command),
        "DEVICE" => Some(Reason::Device),
        "SESSION" => Some(Reason::Session),
        "CONTROL" => Some(Reason::Control),
        _ => None,
    }
}

/// What a crash came after.
#[derive(Clone, Copy)]
pub struct Moment<'m> {
    pub world: &'m World,
    pub hits: &'m [PlannedHit],
    /// The replies that were said before it.
    pub session: &'m Session,
    /// Whether the next line may have been heard.
    pub may_be_heard: bool,
}

impl Moment<'_> {
    /// The next line, if it may be at work.
    fn next_line(&self) -> Option<&Line> {
        let line = good_lines(self.world).get(self.session.answered);
        line.filter(|_| self.may_be_heard && !self.session.is_ended)
    }

    /// Whether the rules allow this time and these pairs here.
    pub fn allows(&self, alloc: Global, recovered: &Recovered) -> Result<bool, NoMemory> {
        let Some(level) = self.session.level else {
            return Ok(self.starts(recovered));
        };
        let (time, at) = (recovered.time, self.session.at);
        let pairs = recovered.pairs.as_slice();
        let tables = self.session.tables.as_slice();
        let stands = Way {
            level,
            since: Span::of(time),
            matures: false,
        };
        if time == at && tables.iter().any(|table| self.fits(table, pairs, stands)) {
            return Ok(true);
        }
        let Some(line) = self.next_line() else {
            return Ok(false);
        };
        if time < at || time > line.time {
            return Ok(false);
        }
        let moves = Way {
            level,
            since: Span { from: at, to: time },
            matures: true,
        };
        if tables.iter().any(|table| self.fits(table, pairs, moves)) {
            return Ok(true);
        }
        if time < line.time {
            return Ok(false);
        }
        let outcomes = self.session.outcomes(alloc, self.world, self.hits, line)?;
        let mut outcomes = outcomes.iter();
        Ok(outcomes.any(|outcome| self.fits(&outcome.table, pairs, stands)))
    }

    /// Whether this is what a start leaves.
    fn starts(&self, recovered: &Recovered) -> bool {
        match self.next_line() {
            Some(line) => {
                self.may_start() && recovered.time == line.time && recovered.pairs.is_empty()
            }
            None => false,
        }
    }

    /// Whether the next line starts the session.
    pub fn may_start(&self) -> bool {
        match self.next_line() {
            Some(line) => matches!(line.command, Command::Start(_)) && !line.is_other,
            None => false,
        }
    }

    /// The level of the start that comes next.
    pub fn next_level(&self) -> Option<Level> {
        match self.next_line()?.command {
            Command::Start(level) => level,
            _ => None,
        }
    }

    /// Whether the pairs are those of a table, after changes of a way.
    fn fits(&self, table: &Table, pairs: &[Named], way: Way) -> bool {
        let mut both = table.rows.iter().zip(pairs);
        table.rows.len() == pairs.len()
            && both.all(|(row, named)| {
                row.pair == named.pair && self.may_be(table, row, named.state, way)
            })
            && has_cause(table, pairs)
    }

    /// Whether a row may have come to a state.
    fn may_be(&self, table: &Table, row: &Row, state: State, way: Way) -> bool {
        let is_live = !self.world.has_broken(row.control, way.since.to);
        let is_waiting = way.matures && row.state == State::Pending;
        match state {
            State::Pending => row.state == State::Pending && is_live,
            State::Copy => is_waiting && is_live,
            State::Duplex => (is_waiting || row.state == State::Duplex) && is_live,
            State::Suspended { reason, since } => {
                stays_suspended(row, reason, since) || self.may_suspend(table, row, state, way)
            }
        }
    }

    /// Whether a row may have been suspended on the way.
    fn may_suspend(&self, table: &Table, row: &Row, state: State, way: Way) -> bool {
        let State::Suspended { reason, since } = state else {
            return false;
        };
        let is_within = way.since.has(since.from);
        let is_open = !row.state.is_suspended();
        match reason {
            Reason::Command => false,
            Reason::Device => is_within && table.may_hit(self.hits, row.device),
            Reason::Session => is_within && is_open && way.level == Level::Session,
            Reason::Control => {
                let broken = self.world.break_of(row.control);
                way.matures
                    && is_open
                    && is_within
                    && broken.is_some_and(|it| it.time == since.from)
            }
        }
    }
}

/// How rows come from those of a table.
#[derive(Clone, Copy)]
struct Way {
    level: Level,
    /// The times of the changes.
    since: Span,
    /// Whether pairs become duplex and controllers break meanwhile.
    matures: bool,
}

fn stays_suspended(row: &Row, reason: Reason, since: Span) -> bool {
    match row.state {
        State::Suspended {
            reason: before,
            since: span,
        } => before == reason && span.has(since.from),
        _ => false,
    }
}

/// Whether a pair of another volume has failed, if one is suspended with it that was not suspended before.
fn has_cause(table: &Table, pairs: &[Named]) -> bool {
    let is_new = |reason: Reason| {
        let mut both = table.rows.iter().zip(pairs);
        both.any(|(row, named)| match named.state {
            State::Suspended { reason: it, since } => {
                it == reason && !stays_suspended(row, it, since)
            }
            _ => false,
        })
    };
    !is_new(Reason::Session) || is_new(Reason::Device)
}
