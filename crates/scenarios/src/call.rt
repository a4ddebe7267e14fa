//! One call of a program.

use crate::site::Past;
use crate::texts::{length_of_lines, spell};
use crate::trace::{Flaw, Trace};
use crate::words::Words;
use crate::wrong::Wrong;
use crash_plant::{Device, Fail};
use std::alloc::Global;
use std::sync::Wait;
use std::thread::Threads;
use xrc_edge::MemorySource;

/// A call on a device, or on the console, that fails.
#[derive(Clone, Copy)]
pub struct Planned {
    /// The line that plans it.
    pub line: u64,
    pub at: Option<Device>,
    /// From so many lines on its calls are counted.
    pub lines: u64,
    pub call: u64,
    pub stop: bool,
}

/// The words of a call, its script, and what fails in it.
#[derive(Drop)]
pub struct Call<'a> {
    alloc: Global,
    words: Words<'a>,
    /// The words of a second call after it, on the devices as it leaves them.
    then: Option<Words<'a>>,
    script: Vec<u8>,
    fails: Vec<Planned>,
}

/// How a call has ended.
#[derive(Drop)]
pub struct Outcome {
    pub status: u8,
    pub past: Past,
}

/// What a try adds to a call.
#[derive(Clone, Copy)]
pub struct Twist<'c> {
    pub fail: Option<Planned>,
    /// The trace of a number, with its flaw.
    pub flaw: Option<(usize, Flaw)>,
    /// What the call says without any failure, where that is known.
    pub calm: Option<&'c [u8]>,
}

impl Twist<'_> {
    pub const NONE: Twist<'static> = Twist {
        fail: None,
        flaw: None,
        calm: None,
    };
}

impl<'a> Call<'a> {
    pub fn new(alloc: Global, words: Words<'a>) -> Call<'a> {
        Call {
            alloc,
            words,
            then: None,
            script: Vec::new(alloc),
            fails: Vec::new(alloc),
        }
    }

    pub fn copy(&self) -> Result<Call<'a>, Wrong> {
        let mut copy = Call::new(self.alloc, self.words);
        copy.then = self.then;
        copy.script.extend_from_slice(self.script.as_slice())?;
        copy.fails.extend_from_slice(self.fails.as_slice())?;
        Ok(copy)
    }

    /// Whether a line plans a failure.
    pub fn is_failing(&self) -> bool {
        !self.fails.is_empty()
    }

    pub fn script(&self) -> &[u8] {
        self.script.as_slice()
    }

    /// Takes a line of the call.
    pub fn take(&mut self, keyword: &str, mut words: Words<'a>) -> Result<(), Wrong> {
        match keyword {
            ">" => self.hear(words, b"\n"),
            ">|" => self.hear(words, b""),
            ">x" => {
                words.bytes(&mut self.script)?;
                words.end()
            }
            "then" => {
                self.then = Some(words);
                Ok(())
            }
            "fail" => self.fail(words, false),
            "stop" => self.fail(words, true),
            _ => Err(words.wrong("the line begins with no word of the notation")),
        }
    }

    /// Adds the text of a line and its end to the script.
    fn hear(&mut self, words: Words<'_>, end: &[u8]) -> Result<(), Wrong> {
        let mut spelled = String::new(self.alloc);
        spell(words, words.rest(), &mut spelled)?;
        self.script.extend_from_slice(spelled.as_bytes())?;
        self.script.extend_from_slice(end)?;
        Ok(())
    }

    /// Adds a call that fails.
    fn fail(&mut self, mut words: Words<'_>, stop: bool) -> Result<(), Wrong> {
        let line = words.number();
        let at = words.place_of_calls()?;
        let call = words.decimal()?;
        let lines = words.said()?;
        words.end()?;
        self.fails.push(Planned {
            line,
            at,
            lines,
            call,
            stop,
        })?;
        Ok(())
    }

    /// The words that recover this call's session. A copy is made again, which goes on with it.
    fn recovery(&self) -> Result<Vec<String>, Wrong> {
        let mut words = self.words;
        if words.skip("copy") {
            return all_words(self.alloc, self.words);
        }
        // The command's own word.
        let _ = words.next();
        let session = words.next().unwrap_or("");
        let mut all = Vec::new(self.alloc);
        all.push(String::from_str(self.alloc, "recover")?)?;
        all.push(String::from_str(self.alloc, session)?)?;
        Ok(all)
    }

    /// Recovers the session of this call from what a crash leaves by a fill.
    pub fn recover<R: Threads + Wait + Sync>(
        &self,
        rt: &R,
        past: &Past,
        fill: &[u8],
    ) -> Result<Outcome, Wrong> {
        let mut past = past.crash(self.alloc, fill)?.freeze(self.alloc)?;
        let status = self.run_recovery(rt, &mut past)?;
        Ok(Outcome { status, past })
    }

    /// Recovers over these devices, and gives the status.
    fn run_recovery<R: Threads + Wait + Sync>(&self, rt: &R, past: &mut Past) -> Result<u8, Wrong> {
        let words = self.recovery()?;
        past.call(rt, self.alloc, words.as_slice(), Vec::new(self.alloc))
    }

    /// Makes the call.
    pub fn make<R: Threads + Wait + Sync>(
        &self,
        rt: &R,
        before: &Past,
        traces: &[Trace],
        twist: Twist<'_>,
    ) -> Result<Outcome, Wrong> {
        let fails = self.planned(rt, before, traces, twist)?;
        self.make_with(rt, before, traces, twist, fails.as_slice())
    }

    fn make_with<R: Threads + Wait + Sync>(
        &self,
        rt: &R,
        before: &Past,
        traces: &[Trace],
        twist: Twist<'_>,
        fails: &[Fail],
    ) -> Result<Outcome, Wrong> {
        let mut past = self.prepared(before, fails)?;
        let status = self.run(rt, traces, twist, &mut past)?;
        Ok(Outcome { status, past })
    }

    /// The devices with the call's script, of which calls will fail.
    fn prepared(&self, before: &Past, fails: &[Fail]) -> Result<Past, Wrong> {
        let mut site = before.crash(self.alloc, b"")?;
        site.set_script(self.alloc, self.script.as_slice())?;
        site.into_past(self.alloc, fails)
    }

    /// Makes the call over these devices, and the one after it, if there is one. Gives the status of the last one.
    fn run<R: Threads + Wait + Sync>(
        &self,
        rt: &R,
        traces: &[Trace],
        twist: Twist<'_>,
        past: &mut Past,
    ) -> Result<u8, Wrong> {
        let words = all_words(self.alloc, self.words)?;
        let sources = sources(self.alloc, traces, twist.flaw)?;
        let status = past.call(rt, self.alloc, words.as_slice(), sources)?;
        match self.then {
            Some(then) => {
                let words = all_words(self.alloc, then)?;
                past.call(rt, self.alloc, words.as_slice(), Vec::new(self.alloc))
            }
            None => Ok(status),
        }
    }

    /// The failures of the call, each counted from so many bytes. The lines are those that the call says without any of them.
    fn planned<R: Threads + Wait + Sync>(
        &self,
        rt: &R,
        before: &Past,
        traces: &[Trace],
        twist: Twist<'_>,
    ) -> Result<Vec<Fail>, Wrong> {
        let mut plan = Vec::new(self.alloc);
        plan.extend_from_slice(self.fails.as_slice())?;
        if let Some(more) = twist.fail {
            plan.push(more)?;
        }
        if plan.iter().all(|fail| fail.lines == 0) {
            return self.failures(plan.as_slice(), b"");
        }
        if let Some(calm) = twist.calm {
            return self.failures(plan.as_slice(), calm);
        }
        let calm = self.make_with(rt, before, traces, Twist::NONE, &[])?;
        self.failures(plan.as_slice(), calm.past.said())
    }

    fn failures(&self, plan: &[Planned], said: &[u8]) -> Result<Vec<Fail>, Wrong> {
        let mut list = Vec::new(self.alloc);
        for fail in plan {
            let Some(bytes) = length_of_lines(said, fail.lines) else {
                return Err(Wrong::Line {
                    number: fail.line,
                    why: "the call says fewer lines",
                });
            };
            let failure = Fail {
                at: fail.at,
                said: bytes as u64,
                call: fail.call,
                stop: fail.stop,
            };
            list.push(failure)?;
        }
        Ok(list)
    }
}

fn all_words(alloc: Global, words: Words<'_>) -> Result<Vec<String>, Wrong> {
    let mut all = Vec::new(alloc);
    for word in words.rest().split_whitespace() {
        all.push(String::from_str(alloc, word)?)?;
    }
    Ok(all)
}

/// The sources of the traces, of which one may have a flaw.
fn sources(
    alloc: Global,
    traces: &[Trace],
    flaw: Option<(usize, Flaw)>,
) -> Result<Vec<MemorySource>, Wrong> {
    let mut sources = Vec::new(alloc);
    for (number, trace) in traces.iter().enumerate() {
        let flaw = match flaw {
            Some((at, flaw)) if at == number => flaw,
            _ => Flaw::Nothing,
        };
        sources.push(trace.source(flaw)?)?;
    }
    Ok(sources)
}
