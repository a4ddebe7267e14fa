//! Calls of the program.

use crate::site::{Past, Rest, lanes_of, sources_of};
use crate::spelling::SESSION;
use crate::world::World;
use crash_plant::Fail;
use std::alloc::Global;
use std::sync::Wait;
use std::thread::Threads;
use xrc_edge::{MemorySource, NoMemory};

/// How a call has ended, and the devices with their past.
#[derive(Drop)]
pub struct Done {
    pub status: u8,
    pub past: Past,
}

impl Done {
    /// What was said, as text; what is no text counts as nothing.
    pub fn said(&self) -> &str {
        std::str::from_utf8(self.past.said()).unwrap_or("")
    }
}

/// Commands on the devices of a session.
#[derive(Clone, Copy, PartialEq, Eq)]
pub enum SiteCommand {
    Recover,
    Advance,
    Query,
}

impl SiteCommand {
    fn word(self) -> &'static str {
        match self {
            SiteCommand::Recover => "recover",
            SiteCommand::Advance => "advance",
            SiteCommand::Query => "query",
        }
    }
}

/// Runs the script over the traces, from the devices as they are before all.
pub fn run<R: Threads + Wait + Sync>(
    rt: &R,
    alloc: Global,
    world: &World,
    fails: &[Fail],
) -> Result<Done, NoMemory> {
    let site = Rest::of(alloc, &world.input)?;
    let past = site.begin(alloc, world.script.text.as_str(), fails)?;
    let sources = sources_of(alloc, world)?;
    let storage = format!(in alloc; "{}", world.traces.len())?;
    call(rt, alloc, "run", Some(storage), sources, past)
}

/// Makes a command on devices.
pub fn command<R: Threads + Wait + Sync>(
    rt: &R,
    alloc: Global,
    command: SiteCommand,
    site: Rest,
    fails: &[Fail],
) -> Result<Done, NoMemory> {
    let past = site.begin(alloc, "", fails)?;
    call(rt, alloc, command.word(), None, Vec::new(alloc), past)
}

fn call<R: Threads + Wait + Sync>(
    rt: &R,
    alloc: Global,
    word: &str,
    last: Option<String>,
    sources: Vec<MemorySource>,
    past: Past,
) -> Result<Done, NoMemory> {
    let words = words_of(alloc, word, last)?;
    let mut lanes = lanes_of(alloc, sources)?;
    let mut past = past;
    let status = past.call(rt, alloc, words.as_slice(), &mut lanes);
    Ok(Done { status, past })
}

/// A command of the session, and a word after it.
fn words_of(alloc: Global, word: &str, last: Option<String>) -> Result<Vec<String>, NoMemory> {
    let mut words = Vec::new(alloc);
    words.push(String::from_str(alloc, word)?)?;
    words.push(String::from_str(alloc, SESSION)?)?;
    if let Some(last) = last {
        words.push(last)?;
    }
    Ok(words)
}
