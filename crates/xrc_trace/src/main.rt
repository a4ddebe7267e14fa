//! The program: `write` makes a trace of lines of text, `read` makes lines of a trace. Both read standard input to its end and write
//! standard output; standard error says why nothing was written.
#![tactic(auto)]

mod failure;

use failure::Failure;
use std::env;
use std::io::Read;
use std::process::ExitCode;
use std::rt::Env;
use trace_lines::{text_of_trace, trace_of_text};
use xrc_edge::Bytes;

/// What the words ask for.
#[derive(Clone, Copy)]
enum Wanted {
    /// `write`: a trace of lines.
    Trace,
    /// `read`: the lines of a trace.
    Lines,
}

/// What the words ask for; None where they are no command line.
fn asked(words: &[String]) -> Option<Wanted> {
    match words {
        [word] if word.as_str() == "write" => Some(Wanted::Trace),
        [word] if word.as_str() == "read" => Some(Wanted::Lines),
        _ => None,
    }
}

fn answer<R: AllocGlobal>(rt: &R, wanted: Wanted, given: &[u8]) -> Result<Bytes, Failure> {
    let alloc = rt.alloc();
    match wanted {
        Wanted::Trace => Ok(trace_of_text(alloc, given)?),
        Wanted::Lines => Ok(text_of_trace(alloc, given)?),
    }
}

fn run<R: Env + Input + Print + AllocGlobal>(rt: &R) -> Result<(), Failure> {
    let alloc = rt.alloc();
    let words: Vec<String> = env::args(rt)?.skip(1).collect(alloc)?;
    let wanted = asked(&words).ok_or(Failure::BadWords)?;
    let mut given = Vec::new(alloc);
    rt.reader().read_to_end(&mut given)?;
    let bytes = answer(rt, wanted, &given)?;
    rt.write_all(bytes.as_slice())?;
    Ok(())
}

fn main(rt: HostRuntime) -> ExitCode {
    match run(&rt) {
        Ok(()) => ExitCode::from(0),
        Err(failure) => {
            let _ = rt.eprintln(format_args!("xrc_trace: {failure}"));
            ExitCode::from(failure.status())
        }
    }
}
