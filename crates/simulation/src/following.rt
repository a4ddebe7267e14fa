//! Follows what a run has said: how many replies it is, and which tables of rows they leave.

use crate::input::Line;
use crate::replies::{Expected, expected_lines};
use crate::session::{Answer, Outcome, Session};
use crate::table::{PlannedHit, Span, State, Table};
use crate::world::World;
use std::alloc::Global;
use xrc_edge::NoMemory;

/// What is left of a text after the replies in front of it.
#[derive(Drop)]
pub struct Followed<'t> {
    pub session: Session,
    pub rest: &'t str,
}

/// A reply that was said, with the tables that fit it.
#[derive(Drop)]
struct Taken<'t> {
    answer: Answer,
    tables: Vec<Table>,
    rest: &'t str,
}

/// The number of the first line that is outside the grammar or falls in time, counted from 0.
pub fn bad_line(world: &World) -> Option<usize> {
    let mut last = 0u64;
    for (number, line) in world.input.lines.iter().enumerate() {
        if line.is_cut || line.time < last {
            return Some(number);
        }
        last = line.time;
    }
    None
}

/// The lines that a run may answer: those before the first bad one.
pub fn good_lines(world: &World) -> &[Line] {
    let lines = world.input.lines.as_slice();
    match bad_line(world) {
        Some(bad) => lines.get(..bad).unwrap_or(lines),
        None => lines,
    }
}

/// Takes as many replies from the front of a text as the rules allow.
pub fn follow<'t>(
    alloc: Global,
    world: &World,
    hits: &[PlannedHit],
    said: &'t str,
) -> Result<Followed<'t>, NoMemory> {
    let mut followed = Followed {
        session: Session::new(alloc, hits)?,
        rest: said,
    };
    for line in good_lines(world) {
        let outcomes = followed.session.outcomes(alloc, world, hits, line)?;
        let Some(taken) = take(alloc, world, &followed, line, outcomes)? else {
            return Ok(followed);
        };
        let Taken {
            answer,
            tables,
            rest,
        } = taken;
        followed.rest = rest;
        followed.session.advance(line, answer, tables);
    }
    Ok(followed)
}

/// Takes one reply; None where no outcome fits what was said.
fn take<'t>(
    alloc: Global,
    world: &World,
    followed: &Followed<'t>,
    line: &Line,
    outcomes: Vec<Outcome>,
) -> Result<Option<Taken<'t>>, NoMemory> {
    let mut found: Option<(Answer, &'t str)> = None;
    let mut tables = Vec::new(alloc);
    for outcome in outcomes {
        let expected = expected_lines(alloc, world, &followed.session, line, &outcome)?;
        let Outcome { answer, mut table } = outcome;
        if let Some(rest) = narrowed(expected.as_slice(), followed.rest, &mut table) {
            tables.push(table)?;
            found = Some((answer, rest));
        }
    }
    Ok(found.map(|(answer, rest)| Taken {
        answer,
        tables,
        rest,
    }))
}

/// What is left of a text after these lines; None where they are not in front of it. The table takes the times that they tell.
fn narrowed<'t>(expected: &[Expected], text: &'t str, table: &mut Table) -> Option<&'t str> {
    let mut rest = text;
    for expected in expected {
        let (line, after) = rest.split_once('\n')?;
        let value = expected.value_in(line)?;
        rest = after;
        if let Some(row) = expected.row {
            narrow(table, row, value);
        }
    }
    Some(rest)
}

fn narrow(table: &mut Table, place: usize, value: u64) {
    let Some(row) = table.rows.get_mut(place) else {
        return;
    };
    if let State::Suspended { reason, .. } = row.state {
        let since = Span::of(value);
        row.state = State::Suspended { reason, since };
    }
}

/// Whether a text begins the reply to the next line.
pub fn begins_reply(
    alloc: Global,
    world: &World,
    hits: &[PlannedHit],
    followed: &Followed<'_>,
) -> Result<bool, NoMemory> {
    let session = &followed.session;
    let Some(line) = good_lines(world).get(session.answered) else {
        return Ok(followed.rest.is_empty());
    };
    for outcome in session.outcomes(alloc, world, hits, line)? {
        let expected = expected_lines(alloc, world, session, line, &outcome)?;
        if begins(expected.as_slice(), followed.rest) {
            return Ok(true);
        }
    }
    Ok(false)
}

fn begins(expected: &[Expected], text: &str) -> bool {
    let mut rest = text;
    for expected in expected {
        match rest.split_once('\n') {
            None => return expected.may_begin(rest),
            Some((line, _)) if expected.value_in(line).is_none() => return false,
            Some((_, after)) => rest = after,
        }
    }
    rest.is_empty()
}
