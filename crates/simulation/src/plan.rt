//! Draws a moment: which calls fail, where a run stops, what a crash leaves, and what comes after it.

use crate::generator::Generator;
use crate::input::Input;
use crate::site::Rest;
use crate::table::PlannedHit;
use crash_plant::{Device, Fail};
use std::alloc::Global;
use xrc_edge::NoMemory;

/// What is done with the image of a crash beside a recovery. A restart of the session would be one more.
#[derive(Clone, Copy)]
pub enum Afterwards {
    RecoverAgain,
    AdvanceFirst,
    QueryFirst,
    /// A recovery in which a call fails comes first.
    Interrupted(Fail),
}

/// A moment of a run.
#[derive(Drop)]
pub struct Plan {
    /// The faults of volumes that the session outlives.
    pub hits: Vec<PlannedHit>,
    /// All calls that fail, with the one that ends the run.
    pub fails: Vec<Fail>,
    pub last: Option<Fail>,
    /// What fills the open ranges of a crash.
    pub fill: Vec<u8>,
    pub afterwards: Afterwards,
}

/// What a run without faults has said and left.
#[derive(Drop)]
pub struct Calm {
    /// Where each line ends that it said, after the start's reply; and the place before all.
    pub ends: Vec<u64>,
    /// Where the start's reply ends; None where no session started.
    pub start: Option<u64>,
    pub left: Rest,
}

pub fn draw_plan(
    alloc: Global,
    drawn: &mut Generator,
    input: &Input,
    calm: &mut Calm,
) -> Result<Plan, NoMemory> {
    let mut plan = Plan {
        hits: Vec::new(alloc),
        fails: Vec::new(alloc),
        last: None,
        fill: Vec::new(alloc),
        afterwards: Afterwards::RecoverAgain,
    };
    draw_hits(drawn, input, calm, &mut plan)?;
    // A session that outlives faults shows more of them at its end.
    let goes_on = if plan.hits.is_empty() { 8 } else { 2 };
    if !drawn.is_one_in(goes_on) {
        let fail = draw_last(drawn, input, calm);
        plan.fails.push(fail)?;
        plan.last = Some(fail);
    }
    plan.fill = draw_fill(alloc, drawn, input, calm)?;
    plan.afterwards = draw_afterwards(drawn, input);
    Ok(plan)
}

/// Draws faults of volumes after the start, so that no label is missing for them.
fn draw_hits(
    drawn: &mut Generator,
    input: &Input,
    calm: &Calm,
    plan: &mut Plan,
) -> Result<(), NoMemory> {
    let Some(start) = calm.start else {
        return Ok(());
    };
    if !drawn.is_one_in(2) {
        return Ok(());
    }
    for _ in 0..drawn.between(1, 2) {
        let device = draw_volume(drawn, input);
        plan.hits.push(PlannedHit { device })?;
        plan.fails.push(Fail {
            at: Some(Device::Volume(device)),
            said: draw_end(drawn, calm).max(start),
            call: draw_call(drawn),
            stop: false,
        })?;
    }
    Ok(())
}

fn draw_volume(drawn: &mut Generator, input: &Input) -> u16 {
    let most = u16::try_from(input.volumes.len()).unwrap_or(0);
    drawn.short(0, most.saturating_sub(1))
}

fn draw_call(drawn: &mut Generator) -> u64 {
    let most = match drawn.below(3) {
        0 => 60,
        1 => 16,
        _ => 4,
    };
    u64::from(drawn.below(most))
}

/// The end of a line that the calm run said.
fn draw_end(drawn: &mut Generator, calm: &Calm) -> u64 {
    let count = u32::try_from(calm.ends.len()).unwrap_or(0);
    let place = drawn.below(count) as usize;
    calm.ends.get(place).copied().unwrap_or(0)
}

/// Draws the call that ends a run: mostly all calls after it fail too.
fn draw_last(drawn: &mut Generator, input: &Input, calm: &Calm) -> Fail {
    let said = draw_end(drawn, calm);
    let call = draw_call(drawn);
    let is_stop = !drawn.is_one_in(4);
    let at = match drawn.below(20) {
        0..4 => Some(Device::Control),
        4..6 => Some(Device::State),
        6..12 => Some(Device::Journal(drawn.short(0, input.journals.saturating_sub(1)))),
        12..17 => Some(Device::Volume(draw_volume(drawn, input))),
        _ => None,
    };
    Fail {
        at,
        said,
        call,
        stop: is_stop || matches!(at, Some(Device::Volume(_))),
    }
}

/// Draws what fills open ranges: equal bytes, any bytes, or those that a device held before.
fn draw_fill(
    alloc: Global,
    drawn: &mut Generator,
    input: &Input,
    calm: &mut Calm,
) -> Result<Vec<u8>, NoMemory> {
    let mut fill = Vec::new(alloc);
    match drawn.below(10) {
        0..2 => {}
        2..5 => fill.push(1)?,
        5 => fill.push(u8::MAX)?,
        6 => fill.extend_from_slice(&[1, 0])?,
        7 => {
            for _ in 0..drawn.between(1, 40) {
                fill.push(drawn.byte(0, u8::MAX))?;
            }
        }
        _ => return draw_old(alloc, drawn, input, calm),
    }
    Ok(fill)
}

/// Bytes that a device holds where a mark, a list of rows or a record begins.
fn draw_old(
    alloc: Global,
    drawn: &mut Generator,
    input: &Input,
    calm: &mut Calm,
) -> Result<Vec<u8>, NoMemory> {
    let slot = u64::from(drawn.below(2));
    match drawn.below(3) {
        0 => calm.left.read(alloc, Device::Control, 512 * slot + 1, 48),
        1 => calm.left.read(alloc, Device::State, 8_192 * slot, 400),
        _ => {
            let number = drawn.short(0, input.journals.saturating_sub(1));
            calm.left.read(alloc, Device::Journal(number), slot, 2_000)
        }
    }
}

fn draw_afterwards(drawn: &mut Generator, input: &Input) -> Afterwards {
    match drawn.below(10) {
        0..2 => Afterwards::RecoverAgain,
        2..4 => Afterwards::AdvanceFirst,
        4 => Afterwards::QueryFirst,
        _ => {
            let at = match drawn.below(12) {
                0 => Some(Device::Control),
                1 => Some(Device::State),
                2 => Some(Device::Journal(drawn.short(0, input.journals.saturating_sub(1)))),
                3 => None,
                _ => Some(Device::Volume(draw_volume(drawn, input))),
            };
            Afterwards::Interrupted(Fail {
                at,
                said: 0,
                call: u64::from(drawn.below(6)),
                stop: !drawn.is_one_in(3),
            })
        }
    }
}
