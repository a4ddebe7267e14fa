//! What a session may say.

use crate::input::{Command, Level, Line, Pair};
use crate::session::{Answer, Outcome, Refusal, Session};
use crate::spelling::{SESSION, command_word};
use crate::table::{Reason, Row, Span, State, Table};
use crate::world::{Cause, World};
use std::alloc::Global;
use std::fmt::Write;
use xrc_edge::NoMemory;

/// A value that stands within a line.
#[derive(Clone, Copy, Debug, PartialEq, Eq)]
pub enum Free {
    Nothing,
    Stamp(Span),
    Count(Span),
}

/// A line that may be said, without its line feed.
#[derive(Drop)]
pub struct Expected {
    pub front: String,
    pub free: Free,
    pub back: String,
    /// The place of the row that it tells.
    pub row: Option<usize>,
}

impl Expected {
    fn new(alloc: Global) -> Expected {
        Expected {
            front: String::new(alloc),
            free: Free::Nothing,
            back: String::new(alloc),
            row: None,
        }
    }

    /// The value within a line; None where the line is another one.
    pub fn value_in(&self, line: &str) -> Option<u64> {
        let rest = line.strip_prefix(self.front.as_str())?;
        let middle = rest.strip_suffix(self.back.as_str())?;
        let (value, span) = match self.free {
            Free::Nothing if middle.is_empty() => return Some(0),
            Free::Nothing => return None,
            Free::Stamp(span) if middle.len() == 16 => {
                (u64::from_str_radix(middle, 16).ok()?, span)
            }
            Free::Stamp(_) => return None,
            Free::Count(span) => (middle.parse::<u64>().ok()?, span),
        };
        if span.has(value) { Some(value) } else { None }
    }

    /// Whether a text may be the beginning of the line.
    pub fn may_begin(&self, text: &str) -> bool {
        let front = self.front.as_str();
        if text.len() <= front.len() {
            front.starts_with(text)
        } else {
            text.starts_with(front) && self.free != Free::Nothing || self.begins_whole(text)
        }
    }

    /// Whether a text is the beginning of the line, which has no value within.
    fn begins_whole(&self, text: &str) -> bool {
        match text.strip_prefix(self.front.as_str()) {
            Some(rest) => self.back.as_str().starts_with(rest),
            None => false,
        }
    }
}

/// The lines that are said of an outcome: those of a report, and the reply.
pub fn expected_lines(
    alloc: Global,
    world: &World,
    session: &Session,
    line: &Line,
    outcome: &Outcome,
) -> Result<Vec<Expected>, NoMemory> {
    let mut lines = Vec::new(alloc);
    let is_accepted = matches!(outcome.answer, Answer::Accepted { .. });
    if line.command == Command::Query && is_accepted {
        put_session(alloc, session, line.time, &outcome.table, &mut lines)?;
        put_controls(alloc, world, line.time, &mut lines)?;
        for (place, row) in outcome.table.rows.iter().enumerate() {
            lines.push(row_line(alloc, place, row)?)?;
        }
    }
    lines.push(reply_line(alloc, session, line, outcome.answer)?)?;
    Ok(lines)
}

fn put_session(
    alloc: Global,
    session: &Session,
    time: u64,
    table: &Table,
    lines: &mut Vec<Expected>,
) -> Result<(), NoMemory> {
    let mut expected = Expected::new(alloc);
    let level = level_word(session.level.unwrap_or(Level::Volume));
    let rows = table.rows.len();
    write!(
        expected.front,
        "SESSION {SESSION} LEVEL {level} JOURNALED {time:016X} PAIRS {rows}"
    )?;
    lines.push(expected)?;
    Ok(())
}

pub fn level_word(level: Level) -> &'static str {
    match level {
        Level::Volume => "VOLUME",
        Level::Session => "SESSION",
    }
}

fn put_controls(
    alloc: Global,
    world: &World,
    time: u64,
    lines: &mut Vec<Expected>,
) -> Result<(), NoMemory> {
    for (control, facts) in world.facts.iter().enumerate() {
        let mut expected = Expected::new(alloc);
        let text = &mut expected.front;
        match facts.broken.filter(|it| it.time < time).map(|it| it.cause) {
            None => write!(text, "CONTROL {control} OK")?,
            Some(Cause::ReadFault) => write!(text, "CONTROL {control} BROKEN READFAULT")?,
            Some(Cause::BadTrace { place }) => {
                write!(text, "CONTROL {control} BROKEN BADTRACE {place}")?;
            }
            Some(Cause::Crowded { stamp }) => {
                write!(text, "CONTROL {control} BROKEN CROWDED {stamp:016X}")?;
            }
        }
        lines.push(expected)?;
    }
    Ok(())
}

fn row_line(alloc: Global, place: usize, row: &Row) -> Result<Expected, NoMemory> {
    let mut expected = Expected::new(alloc);
    let Pair { primary, secondary } = row.pair;
    let word = state_words(row.state);
    write!(expected.front, "PAIR P{primary:02} S{secondary:02} {word}")?;
    if let State::Suspended { since, .. } = row.state {
        expected.free = Free::Stamp(since);
    }
    expected.row = Some(place);
    Ok(expected)
}

/// The words of a state, without the time.
pub fn state_words(state: State) -> &'static str {
    match state {
        State::Pending => "PENDING",
        State::Copy => "COPY",
        State::Duplex => "DUPLEX",
        State::Suspended { reason, .. } => match reason {
            Reason::Command => "SUSPENDED COMMAND SINCE ",
            Reason::Device => "SUSPENDED DEVICE SINCE ",
            Reason::Session => "SUSPENDED SESSION SINCE ",
            Reason::Control => "SUSPENDED CONTROL SINCE ",
        },
    }
}

fn reply_line(
    alloc: Global,
    session: &Session,
    line: &Line,
    answer: Answer,
) -> Result<Expected, NoMemory> {
    let mut expected = Expected::new(alloc);
    let (time, word) = (line.time, command_word(line.command));
    write!(expected.front, "{time:016X} {word} ")?;
    let mut has_value = false;
    match answer {
        Answer::Accepted { tracks: None } => expected.front.push_str("OK")?,
        Answer::Accepted {
            tracks: Some(tracks),
        } => {
            expected.front.push_str("OK TRACKS ")?;
            expected.free = Free::Count(tracks);
            has_value = true;
        }
        Answer::Refused(refusal) => put_refusal(refusal, &mut expected.front)?,
    }
    if let Some(stamp) = session.reply_time(line, answer) {
        let text = if has_value {
            &mut expected.back
        } else {
            &mut expected.front
        };
        write!(text, " T={stamp:016X}")?;
    }
    Ok(expected)
}

fn put_refusal(refusal: Refusal, text: &mut String) -> Result<(), NoMemory> {
    match refusal {
        Refusal::NoSession => text.push_str("REFUSED 1 NOSESSION")?,
        Refusal::SessionExists => text.push_str("REFUSED 2 SESSIONEXISTS")?,
        Refusal::NoPrimary => text.push_str("REFUSED 3 NOPRIMARY")?,
        Refusal::NoSecondary => text.push_str("REFUSED 4 NOSECONDARY")?,
        Refusal::SecondaryInUse => text.push_str("REFUSED 5 SECONDARYINUSE")?,
        Refusal::AlreadyPaired => text.push_str("REFUSED 6 ALREADYPAIRED")?,
        Refusal::TooSmall { tracks } => write!(text, "REFUSED 7 TOOSMALL {tracks}")?,
        Refusal::OtherSecondary => text.push_str("REFUSED 8 OTHERSECONDARY")?,
        Refusal::NotPaired => text.push_str("REFUSED 9 NOTPAIRED")?,
        Refusal::Ended => text.push_str("REFUSED 10 ENDED")?,
        Refusal::ControlBroken { control } => write!(text, "REFUSED 11 CONTROLBROKEN {control}")?,
    }
    Ok(())
}
