//! The program: it opens the files of the current folder and hands them to the top call. On standard error it says in a sentence how a
//! command ended that was not done.
#![tactic(auto)]

mod failure;
mod files;
mod lock;

use failure::Failure;
use files::{Output, no_site, open_site, open_traces};
use lock::lock_site;
use status_words::{LastSaid, Overheard, Sentence};
use std::cell::RefCell;
use std::env;
use std::fs::File;
use std::io::Stdin;
use std::process::ExitCode;
use std::rt::{Env, Files};
use std::sync::Wait;
use std::thread::Threads;
use xrc_cli::{Wanted, wanted, xrc};

/// The status where there was no memory before the command began.
const NO_MEMORY: u8 = 1;

/// The status where a file could not be opened, or another program works on the site.
const CANNOT_OPEN: u8 = 27;

fn run<R>(rt: &R, input: Stdin, output: Output<'_>) -> Result<u8, Failure>
where
    R: Files<File = File> + Env + AllocGlobal + Threads + Wait + Sync,
{
    let alloc = rt.alloc();
    let words: Vec<String> = env::args(rt)?.skip(1).collect(alloc)?;
    let wanted = wanted(alloc, &words)?;
    // Kept to the end: with the file goes the lock.
    let _lock = match wanted {
        Wanted::Nothing => None,
        Wanted::Devices | Wanted::Traces(_) => Some(lock_site(rt, &words)?),
    };
    let mut plant = match wanted {
        Wanted::Nothing => no_site(alloc, input, output)?,
        Wanted::Devices | Wanted::Traces(_) => open_site(rt, alloc, input, output)?,
    };
    let count = match wanted {
        Wanted::Nothing | Wanted::Devices => 0,
        Wanted::Traces(count) => count,
    };
    let mut traces = open_traces(rt, alloc, count)?;
    Ok(xrc(rt, alloc, &words, &mut traces, &mut plant))
}

/// Says the sentence of a status, with the values of the line that was said last. Nothing is said of a command that was done, and
/// nothing comes of a standard error that fails.
fn say_sentence(rt: &impl Eprint, status: u8, last_said: &RefCell<LastSaid>) {
    let Ok(last_said) = last_said.try_borrow() else {
        return;
    };
    if let Some(sentence) = Sentence::of(status, last_said.as_bytes()) {
        let _ = rt.eprintln(format_args!("xrc: {sentence}"));
    }
}

fn main(rt: HostRuntime) -> ExitCode {
    let last_said = RefCell::new(LastSaid::make());
    let output = Overheard::new(rt.stdout(), &last_said);
    match run(&rt, rt.stdin(), output) {
        Ok(status) => {
            say_sentence(&rt, status, &last_said);
            ExitCode::from(status)
        }
        Err(Failure::NoMemory) => {
            say_sentence(&rt, NO_MEMORY, &last_said);
            ExitCode::from(NO_MEMORY)
        }
        Err(Failure::Locked) => {
            let _ = rt.eprintln("xrc: another program works on this site: wait until it has ended");
            ExitCode::from(CANNOT_OPEN)
        }
        Err(Failure::File(error)) => {
            let _ = rt.eprintln(format_args!("xrc: {error:#}: look for the file and its rights"));
            ExitCode::from(CANNOT_OPEN)
        }
    }
}
