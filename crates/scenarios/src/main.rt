//! Works through files of cases: it runs the program over devices and traces in memory, and says what differs from what a case wants.
#![tactic(auto)]

mod book;
mod call;
mod case;
mod endings;
mod file;
mod made;
mod program;
mod report;
mod scene;
mod setup;
mod site;
mod tables;
mod texts;
mod trace;
mod turns;
mod words;
mod wrong;

use crate::file::try_cases;
use crate::report::Report;
use crate::turns::{Lines, written_out};
use crate::wrong::Wrong;
use std::alloc::Global;
use std::process::ExitCode;
use std::rt::{Env, Files};
use std::sync::Wait;
use std::thread::Threads;
use std::{env, fs, io};

/// The status where a case differs, or can't be worked through.
const BAD: u8 = 1;

/// Puts the names that stand as words, and the texts of these files, into lists; false where it can't, which it says.
fn read_files<R: Files + Env + Print + AllocGlobal>(
    rt: &R,
    names: &mut Vec<String>,
    texts: &mut Vec<Lines>,
) -> io::Result<bool> {
    for name in env::args(rt)?.skip(1) {
        let Ok(text) = fs::read_to_string(rt, name.as_str()) else {
            rt.println(format_args!("{name}: the file can't be read"))?;
            return Ok(false);
        };
        match written_out(rt.alloc(), text.as_str()) {
            Ok(lines) => texts.push(lines)?,
            Err(wrong) => {
                say_wrong(rt, name.as_str(), wrong)?;
                return Ok(false);
            }
        }
        names.push(name)?;
    }
    if names.is_empty() {
        rt.println("no file is named")?;
        return Ok(false);
    }
    Ok(true)
}

/// Works through files, and says which line of which file can't be worked through.
fn try_files<'a, R: Print + Threads + Wait + Sync>(
    rt: &R,
    alloc: Global,
    names: &'a [String],
    texts: &'a [Lines],
) -> io::Result<bool> {
    let mut report = Report::new(alloc);
    for (name, text) in names.iter().zip(texts) {
        report.begin_file(name.as_str());
        if let Err(wrong) = try_cases(rt, alloc, text, &mut report) {
            rt.print(report.text())?;
            say_wrong(rt, name.as_str(), wrong)?;
            return Ok(false);
        }
    }
    end_report(rt, &mut report)
}

fn end_report<R: Print>(rt: &R, report: &mut Report<'_>) -> io::Result<bool> {
    if report.end().is_err() {
        rt.println("no memory")?;
        return Ok(false);
    }
    rt.print(report.text())?;
    Ok(report.is_good())
}

fn say_wrong<R: Print>(rt: &R, name: &str, wrong: Wrong) -> io::Result<()> {
    match wrong {
        Wrong::NoMemory => rt.println("no memory"),
        Wrong::Line { number, why } => rt.println(format_args!("{name}: line {number}: {why}")),
    }
}

fn run<R>(rt: &R) -> io::Result<bool>
where
    R: Files + Env + Print + AllocGlobal + Threads + Wait + Sync,
{
    let alloc = rt.alloc();
    let mut names = Vec::new(alloc);
    let mut texts = Vec::new(alloc);
    if !read_files(rt, &mut names, &mut texts)? {
        return Ok(false);
    }
    try_files(rt, alloc, names.as_slice(), texts.as_slice())
}

fn main(rt: HostRuntime) -> io::Result<ExitCode> {
    let is_good = run(&rt)?;
    Ok(if is_good {
        ExitCode::SUCCESS
    } else {
        ExitCode::from(BAD)
    })
}
