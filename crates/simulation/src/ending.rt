//! How a run may end: which statuses are allowed, and what is said last.

use crate::following::{Followed, bad_line, begins_reply, good_lines};
use crate::plan::Plan;
use crate::world::World;
use crash_plant::{Device, Fail};
use std::alloc::Global;
use xrc_edge::NoMemory;

/// The status at which a call on the console failed.
const CONSOLE: u8 = 3;

const BAD_LINE: u8 = 4;

const JOURNAL: u8 = 5;

const CONTROL: u8 = 6;

const STATE: u8 = 7;

/// What is wrong with the end of a run; None where nothing is.
pub fn wrong_end(
    alloc: Global,
    world: &World,
    plan: &Plan,
    status: u8,
    followed: &Followed<'_>,
) -> Result<Option<&'static str>, NoMemory> {
    let answered = followed.session.answered;
    let is_through = answered == good_lines(world).len();
    match status {
        0 if !is_through => Ok(Some("a reply is another one")),
        0 if bad_line(world).is_some() => Ok(Some("a bad line is taken")),
        0 if !followed.rest.is_empty() => Ok(Some("a run says more than its replies")),
        0 => Ok(None),
        CONSOLE if !may_fail(plan.last, status) => Ok(Some("a console fails that was not to fail")),
        CONSOLE if begins_reply(alloc, world, plan.hits.as_slice(), followed)? => Ok(None),
        CONSOLE => Ok(Some("a reply is another one")),
        BAD_LINE if bad_line(world) != Some(answered) => Ok(Some("a good line is refused")),
        BAD_LINE => {
            let number = answered.saturating_add(1);
            let line = format!(in alloc; "STATUS 4 {number}\n")?;
            Ok(wrong_text(plan, line.as_str(), followed.rest))
        }
        JOURNAL..=STATE if !may_fail(plan.last, status) => {
            Ok(Some("a device fails that was not to fail"))
        }
        JOURNAL => wrong_journal(alloc, plan, followed.rest),
        CONTROL => Ok(wrong_text(plan, "STATUS 6\n", followed.rest)),
        STATE => Ok(wrong_text(plan, "STATUS 7\n", followed.rest)),
        _ => Ok(Some("a run ends with another status")),
    }
}

/// Whether a planned call may end a run with a status.
pub fn may_fail(last: Option<Fail>, status: u8) -> bool {
    let Some(last) = last else {
        return false;
    };
    match last.at {
        None => status == CONSOLE,
        Some(Device::Journal(_)) => status == JOURNAL,
        Some(Device::Control) => status == CONTROL,
        Some(Device::State) => status == STATE,
        Some(Device::Volume(_)) => last.stop,
    }
}

fn wrong_text(plan: &Plan, line: &str, said: &str) -> Option<&'static str> {
    let is_cut = plan.last.is_some_and(|last| last.stop || last.at.is_none());
    if line == said || (is_cut && line.starts_with(said)) {
        None
    } else {
        Some("a status line is another one")
    }
}

fn wrong_journal(alloc: Global, plan: &Plan, said: &str) -> Result<Option<&'static str>, NoMemory> {
    let mut wrong = None;
    for number in 0..4u16 {
        let is_planned = match plan.last.and_then(|last| last.at) {
            Some(Device::Journal(planned)) => planned == number,
            _ => true,
        };
        let line = format!(in alloc; "STATUS 5 {number}\n")?;
        wrong = wrong_text(plan, line.as_str(), said);
        if is_planned && wrong.is_none() {
            return Ok(None);
        }
    }
    Ok(wrong.or(Some("a status line is another one")))
}

/// Whether the next line may have been heard whole when the run ended.
pub fn may_be_heard(world: &World, plan: &Plan, said: usize, followed: &Followed<'_>) -> bool {
    let Some(last) = plan.last.filter(|last| last.at.is_none()) else {
        return true;
    };
    if last.said != said as u64 || !followed.rest.is_empty() {
        return true;
    }
    let ends = world.script.ends.as_slice();
    let answered = followed.session.answered;
    let Some(end) = ends.get(answered) else {
        return true;
    };
    let begin = match answered.checked_sub(1) {
        Some(before) => ends.get(before).copied().unwrap_or(0),
        None => 0,
    };
    let is_last = answered.saturating_add(1) == ends.len();
    let closing = u64::from(is_last && !world.input.has_last_feed);
    last.call >= (end.saturating_sub(begin) as u64).saturating_add(closing)
}
