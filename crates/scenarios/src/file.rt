//! A file of cases.

use crate::book::Book;
use crate::case::Case;
use crate::made::is_wanted;
use crate::report::Report;
use crate::turns::Lines;
use crate::words::Words;
use crate::wrong::Wrong;
use std::alloc::Global;
use std::sync::Wait;
use std::thread::Threads;

/// A file as far as its lines are taken.
#[derive(Drop)]
struct Reader<'a> {
    alloc: Global,
    book: Book<'a>,
    case: Option<Case<'a>>,
    /// Whether the line before was of what a recovery leaves.
    is_in_left: bool,
}

/// Tries the cases of a file.
pub fn try_cases<'a, R: Threads + Wait + Sync>(
    rt: &R,
    alloc: Global,
    text: &'a Lines,
    report: &mut Report<'a>,
) -> Result<(), Wrong> {
    let mut reader = Reader {
        alloc,
        book: Book::new(alloc),
        case: None,
        is_in_left: false,
    };
    reader.take_all(rt, text, report)
}

impl<'a> Reader<'a> {
    fn take_all<R: Threads + Wait + Sync>(
        &mut self,
        rt: &R,
        text: &'a Lines,
        report: &mut Report<'a>,
    ) -> Result<(), Wrong> {
        for (line, number) in text.text().lines().zip(text.numbers()) {
            self.take(rt, Words::new(*number, line), report)?;
        }
        self.end_case(report)
    }

    fn take<R: Threads + Wait + Sync>(
        &mut self,
        rt: &R,
        line: Words<'a>,
        report: &mut Report<'a>,
    ) -> Result<(), Wrong> {
        let mut words = line;
        let Some(keyword) = words.next() else {
            return Ok(());
        };
        if keyword.starts_with('#') {
            return Ok(());
        }
        if self.is_in_left && is_wanted(keyword) {
            return self.book.push_line(line);
        }
        self.is_in_left = keyword == "left";
        match keyword {
            "left" => self.book.begin_left(words),
            "case" => self.begin_case(words, report),
            _ => self.take_in_case(rt, keyword, words, report),
        }
    }

    fn begin_case(&mut self, words: Words<'a>, report: &mut Report<'a>) -> Result<(), Wrong> {
        self.end_case(report)?;
        report.begin_case(words.rest().trim());
        self.case = Some(Case::new(self.alloc, words));
        Ok(())
    }

    fn take_in_case<R: Threads + Wait + Sync>(
        &mut self,
        rt: &R,
        keyword: &str,
        words: Words<'a>,
        report: &mut Report<'a>,
    ) -> Result<(), Wrong> {
        match &mut self.case {
            Some(case) => case.take(rt, keyword, words, &mut self.book, report),
            None => Err(words.wrong("it belongs to no case")),
        }
    }

    fn end_case(&mut self, report: &mut Report<'a>) -> Result<(), Wrong> {
        match &mut self.case {
            Some(case) => case.end(report),
            None => Ok(()),
        }
    }
}
