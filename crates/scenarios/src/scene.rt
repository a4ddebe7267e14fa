//! The calls of a table's rows.

use crate::book::{Book, Left};
use crate::call::{Call, Outcome, Twist};
use crate::endings::Ending;
use crate::made::Made;
use crate::report::{Part, Report};
use crate::site::{Past, Site};
use crate::tables::Table;
use crate::texts::spell_lines;
use crate::trace::Trace;
use crate::words::Words;
use crate::wrong::Wrong;
use std::alloc::Global;
use std::sync::Wait;
use std::thread::Threads;

/// What fills the ranges that are open in a crash, and how it is called.
const FILLS: [(&[u8], &str); 3] = [(&[], ", zeros"), (&[1], ", 01"), (&[0xFF], ", FF")];

/// A call, the devices that it begins with, and its traces.
#[derive(Clone, Copy)]
pub struct Scene<'s, 'a> {
    pub alloc: Global,
    pub call: &'s Call<'a>,
    pub before: &'s Past,
    pub traces: &'s [Trace],
}

impl<'s, 'a> Scene<'s, 'a> {
    fn make<R: Threads + Wait + Sync>(self, rt: &R, twist: Twist<'_>) -> Result<Outcome, Wrong> {
        self.call.make(rt, self.before, self.traces, twist)
    }

    /// The call with the failure of a row; without it, it says `calm`.
    fn make_failing<R: Threads + Wait + Sync>(
        self,
        rt: &R,
        table: Table,
        words: Words<'_>,
        number: u64,
        calm: &[u8],
    ) -> Result<Outcome, Wrong> {
        let Twist { fail, flaw, .. } = table.fail(words, number)?;
        let calm = if self.call.is_failing() {
            None
        } else {
            Some(calm)
        };
        self.make(rt, Twist { fail, flaw, calm })
    }

    /// The row of a table that begins with this word.
    pub fn try_row<R: Threads + Wait + Sync>(
        self,
        rt: &R,
        keyword: &str,
        table: Table,
        ways: &[Words<'_>],
        words: Words<'_>,
        book: &Book<'_>,
        report: &mut Report<'_>,
    ) -> Result<(), Wrong> {
        match keyword {
            "at" => self.try_ends(rt, table, words, book, report),
            "in" => self.try_ways(rt, table, ways, words, book, report),
            "calm" => self.try_calm(rt, table, words, report),
            "n" => self.try_flaws(rt, table, words, report),
            _ => self.try_bytes(rt, words, report),
        }
    }

    /// A row of calls that fail.
    fn try_ends<R: Threads + Wait + Sync>(
        self,
        rt: &R,
        table: Table,
        mut words: Words<'_>,
        book: &Book<'_>,
        report: &mut Report<'_>,
    ) -> Result<(), Wrong> {
        let (from, to) = range(&mut words)?;
        let ending = Ending::read(words)?;
        let calm = self.make(rt, Twist::NONE)?;
        for number in from..=to {
            let said = calm.past.said();
            self.try_end(rt, table, ending, said, number, book, report)?;
        }
        Ok(())
    }

    fn try_end<R: Threads + Wait + Sync>(
        self,
        rt: &R,
        table: Table,
        ending: Ending<'_>,
        calm: &[u8],
        number: u64,
        book: &Book<'_>,
        report: &mut Report<'_>,
    ) -> Result<(), Wrong> {
        let outcome = self.make_failing(rt, table, ending.words, number, calm)?;
        self.check_end(rt, &outcome, ending, calm, number, book, report)
    }

    /// A call has ended so, and what a crash leaves then is recovered as it is named.
    fn check_end<R: Threads + Wait + Sync>(
        self,
        rt: &R,
        outcome: &Outcome,
        ending: Ending<'_>,
        calm: &[u8],
        number: u64,
        book: &Book<'_>,
        report: &mut Report<'_>,
    ) -> Result<(), Wrong> {
        let part = Part::at("said", number, "");
        ending.check(self.alloc, outcome, calm, part, report)?;
        self.try_lefts(rt, outcome, ending, number, book, report)
    }

    /// A row of calls that fail, each of which ends in one of these ways.
    fn try_ways<R: Threads + Wait + Sync>(
        self,
        rt: &R,
        table: Table,
        ways: &[Words<'_>],
        mut words: Words<'_>,
        book: &Book<'_>,
        report: &mut Report<'_>,
    ) -> Result<(), Wrong> {
        let (from, to) = range(&mut words)?;
        words.end()?;
        let calm = self.make(rt, Twist::NONE)?;
        for number in from..=to {
            let said = calm.past.said();
            self.try_number(rt, table, ways, said, words, number, book, report)?;
        }
        Ok(())
    }

    fn try_number<R: Threads + Wait + Sync>(
        self,
        rt: &R,
        table: Table,
        ways: &[Words<'_>],
        calm: &[u8],
        words: Words<'_>,
        number: u64,
        book: &Book<'_>,
        report: &mut Report<'_>,
    ) -> Result<(), Wrong> {
        let outcome = self.make_failing(rt, table, words, number, calm)?;
        self.check_ways(rt, &outcome, ways, calm, words, number, book, report)
    }

    /// A call has ended in one of these ways.
    fn check_ways<R: Threads + Wait + Sync>(
        self,
        rt: &R,
        outcome: &Outcome,
        ways: &[Words<'_>],
        calm: &[u8],
        words: Words<'_>,
        number: u64,
        book: &Book<'_>,
        report: &mut Report<'_>,
    ) -> Result<(), Wrong> {
        match self.way_of(ways, calm, outcome)? {
            Some(way) => self.try_way(rt, outcome, way, words, number, book, report),
            None => {
                let part = Part::at("no way", number, "");
                report.compare(words.number(), part, b"", outcome.past.said())
            }
        }
    }

    /// The first of these ways in which a call has ended.
    fn way_of<'w>(
        self,
        ways: &[Words<'w>],
        calm: &[u8],
        outcome: &Outcome,
    ) -> Result<Option<Ending<'w>>, Wrong> {
        for way in ways {
            let ending = Ending::read(*way)?;
            if ending.is_end_of(self.alloc, outcome, calm)? {
                return Ok(Some(ending));
            }
        }
        Ok(None)
    }

    /// What a crash leaves then is recovered as one of a way's names says, by each fill.
    fn try_way<R: Threads + Wait + Sync>(
        self,
        rt: &R,
        outcome: &Outcome,
        way: Ending<'_>,
        words: Words<'_>,
        number: u64,
        book: &Book<'_>,
        report: &mut Report<'_>,
    ) -> Result<(), Wrong> {
        for (fill, shown) in FILLS.iter() {
            report.count_try();
            let part = Part::at("no name of the way", number, *shown);
            let recovered = self.call.recover(rt, &outcome.past, *fill)?;
            self.check_recovery(&recovered, way, words.number(), part, book, report)?;
        }
        Ok(())
    }

    fn check_recovery(
        self,
        recovered: &Outcome,
        way: Ending<'_>,
        line: u64,
        part: Part,
        book: &Book<'_>,
        report: &mut Report<'_>,
    ) -> Result<(), Wrong> {
        for name in way.lefts.rest().split_whitespace() {
            if self.is_left(recovered, book.left(way.words, name)?)? {
                return Ok(());
            }
        }
        report.compare(line, part, b"", recovered.past.said())
    }

    /// Whether a recovery has said and left what a name says.
    fn is_left(self, recovered: &Outcome, left: &Left<'_>) -> Result<bool, Wrong> {
        let mut report = Report::new(self.alloc);
        self.check_left(recovered, left, Part::of("recovery"), &mut report)?;
        Ok(!report.differs())
    }

    /// A recovery has said and left what a name says.
    fn check_left(
        self,
        recovered: &Outcome,
        left: &Left<'_>,
        part: Part,
        report: &mut Report<'_>,
    ) -> Result<(), Wrong> {
        let mut made = Made::new(self.alloc, recovered, b"", part)?;
        check_lines_left(&mut made, left, report)
    }

    /// What a crash leaves then is recovered as it is named, by each fill.
    fn try_lefts<R: Threads + Wait + Sync>(
        self,
        rt: &R,
        outcome: &Outcome,
        ending: Ending<'_>,
        number: u64,
        book: &Book<'_>,
        report: &mut Report<'_>,
    ) -> Result<(), Wrong> {
        let (zeros, ones, all) = ending.names()?;
        let names = [zeros, ones, all];
        for ((fill, shown), name) in FILLS.iter().zip(names.iter()) {
            report.count_try();
            let left = book.left(ending.words, *name)?;
            let part = Part::at("recovery", number, *shown);
            self.try_left(rt, outcome, *fill, part, left, report)?;
        }
        Ok(())
    }

    fn try_left<R: Threads + Wait + Sync>(
        self,
        rt: &R,
        outcome: &Outcome,
        fill: &[u8],
        part: Part,
        left: &Left<'_>,
        report: &mut Report<'_>,
    ) -> Result<(), Wrong> {
        let recovered = self.call.recover(rt, &outcome.past, fill)?;
        self.check_left(&recovered, left, part, report)
    }

    /// At a call after the last one all is as without a failure.
    fn try_calm<R: Threads + Wait + Sync>(
        self,
        rt: &R,
        table: Table,
        mut words: Words<'_>,
        report: &mut Report<'_>,
    ) -> Result<(), Wrong> {
        let number = words.decimal()?;
        words.end()?;
        report.count_try();
        let calm = self.make(rt, Twist::NONE)?;
        self.check_calm(rt, table, &calm, words, number, report)
    }

    fn check_calm<R: Threads + Wait + Sync>(
        self,
        rt: &R,
        table: Table,
        calm: &Outcome,
        words: Words<'_>,
        number: u64,
        report: &mut Report<'_>,
    ) -> Result<(), Wrong> {
        let outcome = self.make_failing(rt, table, words, number, calm.past.said())?;
        check_same_end(calm, &outcome, words.number(), number, report)
    }

    /// A row of flaws of a trace.
    fn try_flaws<R: Threads + Wait + Sync>(
        self,
        rt: &R,
        table: Table,
        mut words: Words<'_>,
        report: &mut Report<'_>,
    ) -> Result<(), Wrong> {
        let (from, to) = range(&mut words)?;
        words.expect("status", "status S is wanted")?;
        for number in from..=to {
            report.count_try();
            let part = Part::at("said", number, "");
            self.try_lines(rt, table.flaw(words, number)?, words, part, report)?;
        }
        Ok(())
    }

    /// A call over devices with other bytes.
    fn try_bytes<R: Threads + Wait + Sync>(
        self,
        rt: &R,
        mut words: Words<'_>,
        report: &mut Report<'_>,
    ) -> Result<(), Wrong> {
        report.count_try();
        let changed = self.changed(&mut words)?;
        let scene = Scene {
            alloc: self.alloc,
            call: self.call,
            before: &changed,
            traces: self.traces,
        };
        scene.try_lines(rt, Twist::NONE, words, Part::of("said"), report)
    }

    /// A call ends with the status that is next, and says just the lines after it.
    fn try_lines<R: Threads + Wait + Sync>(
        self,
        rt: &R,
        twist: Twist<'_>,
        words: Words<'_>,
        part: Part,
        report: &mut Report<'_>,
    ) -> Result<(), Wrong> {
        let outcome = self.make(rt, twist)?;
        check_lines(self.alloc, &outcome, words, part, report)
    }

    /// The devices with the bytes of a line, up to its status.
    fn changed(self, words: &mut Words<'_>) -> Result<Past, Wrong> {
        let mut site = self.before.crash(self.alloc, b"")?;
        put_all(self.alloc, words, &mut site)?;
        site.freeze(self.alloc)
    }
}

/// Puts the bytes of a line, up to its status.
fn put_all(alloc: Global, words: &mut Words<'_>, site: &mut Site) -> Result<(), Wrong> {
    for _ in 0..words.rest().len() {
        if words.skip("status") {
            break;
        }
        put_next(alloc, words, site)?;
    }
    Ok(())
}

fn put_next(alloc: Global, words: &mut Words<'_>, site: &mut Site) -> Result<(), Wrong> {
    let device = words.device()?;
    let place = words.decimal()?;
    let mut bytes = Vec::new(alloc);
    words.bytes(&mut bytes)?;
    if !site.put(device, place, bytes.as_slice()) {
        return Err(words.wrong("the case has no such device, or it is shorter"));
    }
    Ok(())
}

/// Two calls have ended with the same status, and have said the same.
fn check_same_end(
    calm: &Outcome,
    outcome: &Outcome,
    line: u64,
    number: u64,
    report: &mut Report<'_>,
) -> Result<(), Wrong> {
    let part = Part::at("status", number, "");
    report.compare_status(line, part, calm.status, outcome.status)?;
    report.compare(
        line,
        part.with("said"),
        calm.past.said(),
        outcome.past.said(),
    )
}

/// The first and the last number of a row.
fn range(words: &mut Words<'_>) -> Result<(u64, u64), Wrong> {
    let from = words.decimal()?;
    let to = words.decimal()?;
    if from > to {
        return Err(words.wrong("the row has no number"));
    }
    Ok((from, to))
}

/// A call has ended with the status that is next, and has said just the lines after it.
fn check_lines(
    alloc: Global,
    outcome: &Outcome,
    mut words: Words<'_>,
    part: Part,
    report: &mut Report<'_>,
) -> Result<(), Wrong> {
    let status = words.small()?;
    report.compare_status(words.number(), part.with("status"), status, outcome.status)?;
    let mut wanted = String::new(alloc);
    spell_lines(words, &mut wanted)?;
    report.compare(words.number(), part, wanted.as_bytes(), outcome.past.said())
}

fn check_lines_left(
    made: &mut Made,
    left: &Left<'_>,
    report: &mut Report<'_>,
) -> Result<(), Wrong> {
    for line in left.lines() {
        let mut words = *line;
        let keyword = words.word()?;
        made.take(keyword, words, report)?;
    }
    made.end_as_done(left.number(), report)
}
