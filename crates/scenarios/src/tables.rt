//! Tables: the same call again and again, with another call that fails, or another flaw of a trace.

use crate::call::{Planned, Twist};
use crate::trace::{Cut, Flaw};
use crate::words::Words;
use crate::wrong::Wrong;
use crash_plant::Device;

/// What the rows of a table change.
#[derive(Clone, Copy)]
pub enum Table {
    None,
    /// A call on a device, or on the console, fails.
    Fails {
        at: Option<Device>,
        lines: u64,
        stop: bool,
    },
    /// A trace is cut.
    Cuts(usize),
    /// A pull of a trace fails.
    Pulls(usize),
}

impl Table {
    /// The table that a line begins, for a case of so many traces.
    pub fn begun(keyword: &str, mut words: Words<'_>, traces: usize) -> Result<Table, Wrong> {
        let table = match keyword {
            "stops" | "fails" => Table::Fails {
                at: words.place_of_calls()?,
                lines: words.said()?,
                stop: keyword == "stops",
            },
            "cuts" => Table::Cuts(trace_of(&mut words, traces)?),
            "pulls" => Table::Pulls(trace_of(&mut words, traces)?),
            _ => return Err(words.wrong("the line begins with no word of the notation")),
        };
        words.end()?;
        Ok(table)
    }

    /// The failure of a row's call.
    pub fn fail(self, words: Words<'_>, call: u64) -> Result<Twist<'static>, Wrong> {
        let Table::Fails { at, lines, stop } = self else {
            return Err(words.wrong("it stands below stops or fails"));
        };
        let fail = Planned {
            line: words.number(),
            at,
            lines,
            call,
            stop,
        };
        Ok(Twist {
            fail: Some(fail),
            flaw: None,
            calm: None,
        })
    }

    /// The flaw of a row's trace.
    pub fn flaw(self, words: Words<'_>, number: u64) -> Result<Twist<'static>, Wrong> {
        let Ok(number) = usize::try_from(number) else {
            return Err(words.wrong("a number is too large"));
        };
        let cut = Cut {
            line: words.number(),
            length: number,
        };
        let flaw = match self {
            Table::Cuts(trace) => (trace, Flaw::Cut(cut)),
            Table::Pulls(trace) => (trace, Flaw::Pull(number)),
            _ => return Err(words.wrong("it stands below cuts or pulls")),
        };
        Ok(Twist {
            fail: None,
            flaw: Some(flaw),
            calm: None,
        })
    }
}

/// A trace of a case that has so many.
fn trace_of(words: &mut Words<'_>, traces: usize) -> Result<usize, Wrong> {
    let trace = words.size()?;
    if trace >= traces {
        return Err(words.wrong("the case has no such trace"));
    }
    Ok(trace)
}
