//! A seed: its input is drawn, run without faults, and then run, crashed and recovered a few times.

use crate::calling::{Done, run};
use crate::checking::Crash;
use crate::contents::labels_of;
use crate::drawing::draw_input;
use crate::ending::{may_be_heard, wrong_end};
use crate::following::follow;
use crate::generator::Generator;
use crate::plan::{Afterwards, Calm, Plan, draw_plan};
use crate::recovered::Moment;
use crate::report::Report;
use crate::site::Rest;
use crate::world::World;
use std::alloc::Global;
use std::sync::Wait;
use std::thread::Threads;
use xrc_edge::NoMemory;

/// Simulates what a seed draws.
pub fn simulate<R: Threads + Wait + Sync>(
    rt: &R,
    alloc: Global,
    seed: u64,
    report: &mut Report,
) -> Result<(), NoMemory> {
    let mut drawn = Generator::new(seed);
    let input = draw_input(alloc, &mut drawn)?;
    let world = World::new(alloc, input)?;
    report.begin_seed(seed);
    try_moments(rt, alloc, &world, &mut drawn, report)
}

/// Runs a world without faults, and then a few times to a moment.
fn try_moments<R: Threads + Wait + Sync>(
    rt: &R,
    alloc: Global,
    world: &World,
    drawn: &mut Generator,
    report: &mut Report,
) -> Result<(), NoMemory> {
    let mut calm = try_calm(rt, alloc, world, report)?;
    for _ in 0..drawn.between(1, 4) {
        report.begin_moment();
        let plan = draw_plan(alloc, drawn, &world.input, &mut calm)?;
        try_moment(rt, alloc, world, &plan, report)?;
    }
    Ok(())
}

fn try_moment<R: Threads + Wait + Sync>(
    rt: &R,
    alloc: Global,
    world: &World,
    plan: &Plan,
    report: &mut Report,
) -> Result<(), NoMemory> {
    let done = run(rt, alloc, world, plan.fails.as_slice())?;
    check_run(rt, alloc, world, plan, &done, report)
}

/// Runs without a fault of a device, and compares.
fn try_calm<R: Threads + Wait + Sync>(
    rt: &R,
    alloc: Global,
    world: &World,
    report: &mut Report,
) -> Result<Calm, NoMemory> {
    let plan = Plan {
        hits: Vec::new(alloc),
        fails: Vec::new(alloc),
        last: None,
        fill: Vec::new(alloc),
        afterwards: Afterwards::RecoverAgain,
    };
    let done = run(rt, alloc, world, &[])?;
    check_run(rt, alloc, world, &plan, &done, report)?;
    let left = done.past.crash(alloc, b"")?;
    calm_of(alloc, &done, left)
}

/// Where the lines end that a run said, from the start's reply on.
fn calm_of(alloc: Global, done: &Done, left: Rest) -> Result<Calm, NoMemory> {
    let mut ends = Vec::new(alloc);
    let mut start = None;
    let mut end = 0u64;
    ends.push(end)?;
    for line in done.said().lines() {
        end = end.saturating_add(line.len() as u64).saturating_add(1);
        ends.push(end)?;
        if start.is_none() && line.contains("XSTART OK") {
            start = Some(end);
        }
    }
    Ok(Calm { ends, start, left })
}

/// Compares what a run said, and what a crash leaves of it.
fn check_run<R: Threads + Wait + Sync>(
    rt: &R,
    alloc: Global,
    world: &World,
    plan: &Plan,
    done: &Done,
    report: &mut Report,
) -> Result<(), NoMemory> {
    let said = done.said();
    let followed = follow(alloc, world, plan.hits.as_slice(), said)?;
    if let Some(wrong) = wrong_end(alloc, world, plan, done.status, &followed)? {
        return report.differ(wrong, said);
    }
    let mut left = done.past.crash(alloc, plan.fill.as_slice())?;
    let labels = labels_of(alloc, world, &mut left)?;
    let crash = Crash {
        alloc,
        moment: Moment {
            world,
            hits: plan.hits.as_slice(),
            session: &followed.session,
            may_be_heard: may_be_heard(world, plan, said.len(), &followed),
        },
        plan,
        image: left.begin(alloc, "", &[])?,
        labels,
        is_done: done.status == 0,
    };
    crash.check(rt, report)
}
