//! The program: it opens the files that its words name, and hands them to the bridge.
#![tactic(auto)]

mod commands;
mod failure;
mod files;
mod words;

use ckd_bridge::Stop;
use commands::run;
use failure::Failure;
use std::env;
use std::fs::File;
use std::io::{Stdin, Stdout};
use std::process::ExitCode;
use std::rt::{Env, Files};

/// The statuses: there was no memory; the words are no command; something can't be taken; a file could not be read; the file that is
/// written could not be written; a file could not be opened, made or named.
const NO_MEMORY: u8 = 1;

const BAD_WORDS: u8 = 2;

const REFUSED: u8 = 4;

const READ_FAULT: u8 = 5;

const WRITE_FAULT: u8 = 6;

const FILE_FAULT: u8 = 27;

fn run_words<R>(rt: &R, input: Stdin, output: Stdout) -> Result<(), Failure>
where
    R: Files<File = File> + Env + AllocGlobal + Print,
{
    let alloc = rt.alloc();
    let words: Vec<String> = env::args(rt)?.skip(1).collect(alloc)?;
    run(rt, alloc, &words, input, output)
}

fn status_of(stop: Stop) -> u8 {
    match stop {
        Stop::NoMemory => NO_MEMORY,
        Stop::ReadFault => READ_FAULT,
        Stop::WriteFault => WRITE_FAULT,
        Stop::Refused(_) => REFUSED,
    }
}

fn main(rt: HostRuntime) -> ExitCode {
    match run_words(&rt, rt.stdin(), rt.stdout()) {
        Ok(()) => ExitCode::SUCCESS,
        Err(Failure::Words) => ExitCode::from(BAD_WORDS),
        Err(Failure::Stop(stop)) => {
            let _ = rt.println(format_args!("{stop}"));
            ExitCode::from(status_of(stop))
        }
        Err(Failure::File(error)) => {
            let _ = rt.eprintln(format_args!("xrc_ckd: {error:#}"));
            ExitCode::from(FILE_FAULT)
        }
    }
}
