//! Draws sessions from seeds, runs, crashes and recovers them in memory, and compares them with the rules.
#![tactic(auto)]

mod calling;
mod checking;
mod contents;
mod drawing;
mod drawn_script;
mod drawn_trace;
mod ending;
mod following;
mod generator;
mod input;
mod plan;
mod recovered;
mod replies;
mod report;
mod session;
mod simulation;
mod site;
mod spelling;
mod table;
mod track;
mod world;

use crate::report::Report;
use crate::simulation::simulate;
use std::process::ExitCode;
use std::rt::Env;
use std::sync::Wait;
use std::thread::Threads;
use std::{env, io};

/// The status where a simulation differs, or can't be made.
const BAD: u8 = 1;

/// The first seed, and how many are tried.
fn read_words<R: Env + AllocGlobal>(rt: &R) -> io::Result<Option<(u64, u64)>> {
    let mut words = env::args(rt)?.skip(1);
    let (Some(seed), Some(count)) = (words.next(), words.next()) else {
        return Ok(None);
    };
    Ok(match (seed.parse::<u64>(), count.parse::<u64>()) {
        (Ok(seed), Ok(count)) => Some((seed, count)),
        _ => None,
    })
}

fn run<R>(rt: &R) -> io::Result<bool>
where
    R: Env + Print + AllocGlobal + Threads + Wait + Sync,
{
    let Some((seed, count)) = read_words(rt)? else {
        rt.println("the words are SEED and COUNT")?;
        return Ok(false);
    };
    let alloc = rt.alloc();
    let mut report = Report::new(alloc);
    for place in 0..count {
        let seed = seed.wrapping_add(place);
        if simulate(rt, alloc, seed, &mut report).is_err() {
            rt.println(format_args!("seed {seed}: no memory"))?;
            return Ok(false);
        }
        rt.print(report.text())?;
        report.clear();
    }
    if report.end().is_err() {
        rt.println("no memory")?;
        return Ok(false);
    }
    rt.print(report.text())?;
    Ok(report.is_good())
}

fn main(rt: HostRuntime) -> io::Result<ExitCode> {
    let is_good = run(&rt)?;
    Ok(if is_good {
        ExitCode::SUCCESS
    } else {
        ExitCode::from(BAD)
    })
}
