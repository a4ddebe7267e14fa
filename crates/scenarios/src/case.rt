//! A case, line by line.

use crate::book::Book;
use crate::call::{Call, Outcome, Twist};
use crate::made::{Made, is_wanted};
use crate::report::{Part, Report};
use crate::scene::Scene;
use crate::setup::Setup;
use crate::site::Past;
use crate::tables::Table;
use crate::trace::Trace;
use crate::words::Words;
use crate::wrong::Wrong;
use std::alloc::Global;
use std::sync::Wait;
use std::thread::Threads;

/// How a call has ended, and what is wanted of it.
#[derive(Drop)]
struct Done {
    outcome: Outcome,
    made: Made,
}

/// How far the call is that a case has told last.
#[derive(Clone, Copy, PartialEq, Eq)]
enum Progress {
    /// It is another case's, so that a run may replace it.
    Borrowed,
    /// Nothing is wanted of it yet.
    Told,
    Tried,
}

/// A case as far as its lines are taken.
#[derive(Drop)]
pub struct Case<'a> {
    alloc: Global,
    /// Its first line, with its name left.
    line: Words<'a>,
    setup: Setup<'a>,
    call: Option<Call<'a>>,
    progress: Progress,
    is_begun: bool,
    is_kept: bool,
    /// The last line that wants something.
    wanted: u64,
    /// What the call before has left.
    left: Option<Past>,
    /// The devices that the call begins with, once they are needed.
    before: Option<Past>,
    done: Option<Done>,
    table: Table,
    /// The ways in which calls of the table may end.
    ways: Vec<Words<'a>>,
}

impl<'a> Case<'a> {
    pub fn new(alloc: Global, line: Words<'a>) -> Case<'a> {
        Case {
            alloc,
            line,
            setup: Setup::new(alloc),
            call: None,
            progress: Progress::Borrowed,
            is_begun: false,
            is_kept: false,
            wanted: line.number(),
            left: None,
            before: None,
            done: None,
            table: Table::None,
            ways: Vec::new(alloc),
        }
    }

    /// Takes a line that is neither the case's first nor of what a recovery leaves.
    pub fn take<R: Threads + Wait + Sync>(
        &mut self,
        rt: &R,
        keyword: &str,
        words: Words<'a>,
        book: &mut Book<'a>,
        report: &mut Report<'_>,
    ) -> Result<(), Wrong> {
        match keyword {
            "like" | "site" => return self.take_like(keyword, words, book),
            _ => self.is_begun = true,
        }
        match keyword {
            "run" => self.take_run(words, report),
            ">" | ">|" | ">x" | "then" | "fail" | "stop" => self.take_in_call(keyword, words),
            "stops" | "fails" | "cuts" | "pulls" => self.take_table(keyword, words),
            "way" => self.take_way(words),
            "at" | "in" | "calm" | "n" | "with" => self.take_row(rt, keyword, words, book, report),
            "same" | "unheard" | "crash" => self.take_wanted(rt, keyword, words, book, report),
            _ if is_wanted(keyword) => self.take_wanted(rt, keyword, words, book, report),
            _ => self.take_setup(keyword, words, report),
        }
    }

    /// Takes a line of the set-up. After a call that was tried it changes what the call has left.
    fn take_setup(
        &mut self,
        keyword: &str,
        words: Words<'a>,
        report: &mut Report<'_>,
    ) -> Result<(), Wrong> {
        self.settle(report)?;
        self.before = None;
        if self.progress == Progress::Tried {
            self.call = None;
        }
        self.setup.take(keyword, words)
    }

    fn take_like(&mut self, keyword: &str, words: Words<'a>, book: &Book<'a>) -> Result<(), Wrong> {
        if self.is_begun {
            return Err(words.wrong("it stands first in its case"));
        }
        self.is_begun = true;
        self.setup = book.setup(words)?;
        if keyword == "like" {
            self.call = Some(book.call(words)?);
        }
        Ok(())
    }

    fn take_run(&mut self, words: Words<'a>, report: &mut Report<'_>) -> Result<(), Wrong> {
        self.settle(report)?;
        if self.progress == Progress::Told {
            return Err(words.wrong("nothing is wanted of the call before"));
        }
        self.call = Some(Call::new(self.alloc, words));
        self.progress = Progress::Told;
        self.before = None;
        self.table = Table::None;
        self.ways.clear();
        Ok(())
    }

    fn take_in_call(&mut self, keyword: &str, words: Words<'a>) -> Result<(), Wrong> {
        if self.done.is_some() {
            return Err(words.wrong("the call is made already"));
        }
        match &mut self.call {
            Some(call) => call.take(keyword, words),
            None => Err(words.wrong("it stands below a run")),
        }
    }

    fn take_table(&mut self, keyword: &str, words: Words<'a>) -> Result<(), Wrong> {
        self.table = Table::begun(keyword, words, self.setup.traces().len())?;
        self.ways.clear();
        Ok(())
    }

    /// Takes a way in which calls of the table may end.
    fn take_way(&mut self, words: Words<'a>) -> Result<(), Wrong> {
        self.ways.push(words)?;
        Ok(())
    }

    /// Keeps the set-up and the first call for later cases.
    fn keep(&mut self, book: &mut Book<'a>) -> Result<(), Wrong> {
        if !self.is_kept {
            self.is_kept = true;
            book.keep(self.line, &self.setup, self.call.as_ref())?;
        }
        Ok(())
    }

    /// Something is wanted of the call.
    fn begin_try(&mut self, words: Words<'_>, book: &mut Book<'a>) -> Result<(), Wrong> {
        if self.call.is_none() {
            return Err(words.wrong("it stands below a run"));
        }
        self.progress = Progress::Tried;
        self.wanted = words.number();
        if self.before.is_none() {
            self.before = Some(self.setup.stand(self.left.as_ref())?);
        }
        self.keep(book)
    }

    /// Makes the call where it isn't made yet.
    fn make<R: Threads + Wait + Sync>(&mut self, rt: &R) -> Result<(), Wrong> {
        let (Some(call), Some(before)) = (&self.call, &self.before) else {
            return Ok(());
        };
        if self.done.is_none() {
            let done = perform(self.alloc, rt, call, before, self.setup.traces())?;
            self.done = Some(done);
        }
        Ok(())
    }

    fn take_wanted<R: Threads + Wait + Sync>(
        &mut self,
        rt: &R,
        keyword: &str,
        words: Words<'a>,
        book: &mut Book<'a>,
        report: &mut Report<'_>,
    ) -> Result<(), Wrong> {
        self.begin_try(words, book)?;
        self.make(rt)?;
        let (Some(call), Some(done), Some(before)) = (&self.call, &mut self.done, &self.before)
        else {
            return Err(words.wrong("it stands below a run"));
        };
        done.take(self.alloc, keyword, words, call, before, report)
    }

    fn take_row<R: Threads + Wait + Sync>(
        &mut self,
        rt: &R,
        keyword: &str,
        words: Words<'a>,
        book: &mut Book<'a>,
        report: &mut Report<'_>,
    ) -> Result<(), Wrong> {
        self.begin_try(words, book)?;
        match self.scene() {
            Some(scene) => scene.try_row(
                rt,
                keyword,
                self.table,
                self.ways.as_slice(),
                words,
                book,
                report,
            ),
            None => Err(words.wrong("it stands below a run")),
        }
    }

    /// The call that was told last, with what it begins with.
    fn scene(&self) -> Option<Scene<'_, 'a>> {
        Some(Scene {
            alloc: self.alloc,
            call: self.call.as_ref()?,
            before: self.before.as_ref()?,
            traces: self.setup.traces(),
        })
    }

    /// Ends what is wanted of a call that was made, and goes on with what it left.
    fn settle(&mut self, report: &mut Report<'_>) -> Result<(), Wrong> {
        let Some(done) = &self.done else {
            return Ok(());
        };
        done.made.end(self.wanted, report)?;
        self.go_on()
    }

    /// Goes on with what the call has left.
    fn go_on(&mut self) -> Result<(), Wrong> {
        self.before = None;
        if let Some(done) = self.done.take() {
            self.left = Some(done.into_past(self.alloc)?);
        }
        self.setup.go_on();
        Ok(())
    }

    /// Ends the case, which has to want something of its last call.
    pub fn end(&mut self, report: &mut Report<'_>) -> Result<(), Wrong> {
        if self.progress != Progress::Tried {
            return Err(self.line.wrong("nothing is wanted of the case's last call"));
        }
        self.settle(report)?;
        report.end_case()
    }
}

impl Done {
    /// The devices as a crash leaves them after the call.
    fn into_past(self, alloc: Global) -> Result<Past, Wrong> {
        let Done { outcome: _, made } = self;
        made.into_left().freeze(alloc)
    }

    /// Takes a line that wants something of the call.
    fn take(
        &mut self,
        alloc: Global,
        keyword: &str,
        words: Words<'_>,
        call: &Call<'_>,
        before: &Past,
        report: &mut Report<'_>,
    ) -> Result<(), Wrong> {
        match keyword {
            "same" => self.wants_same(alloc, words, before, report),
            "crash" => self.crash(alloc, words),
            "unheard" => self.wants_unheard(words, call, report),
            _ => self.made.take(keyword, words, report),
        }
    }

    fn wants_same(
        &mut self,
        alloc: Global,
        words: Words<'_>,
        before: &Past,
        report: &mut Report<'_>,
    ) -> Result<(), Wrong> {
        let mut before = before.crash(alloc, b"")?;
        self.made.wants_same(words, &mut before, report)
    }

    fn crash(&mut self, alloc: Global, mut words: Words<'_>) -> Result<(), Wrong> {
        let mut fill = Vec::new(alloc);
        words.bytes(&mut fill)?;
        words.end()?;
        self.made.look_at(&self.outcome.past, fill.as_slice())
    }

    fn wants_unheard(
        &mut self,
        words: Words<'_>,
        call: &Call<'_>,
        report: &mut Report<'_>,
    ) -> Result<(), Wrong> {
        words.end()?;
        if self.outcome.past.is_left(call.script()) {
            return Ok(());
        }
        report.differ(words.number(), "a byte of the script was heard")
    }
}

/// Makes a call over devices and traces.
fn perform<R: Threads + Wait + Sync>(
    alloc: Global,
    rt: &R,
    call: &Call<'_>,
    before: &Past,
    traces: &[Trace],
) -> Result<Done, Wrong> {
    let outcome = call.make(rt, before, traces, Twist::NONE)?;
    let made = Made::new(alloc, &outcome, b"", Part::of("call"))?;
    Ok(Done { outcome, made })
}
