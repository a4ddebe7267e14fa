//! How a call of a table ends.

use crate::call::Outcome;
use crate::report::{Part, Report};
use crate::texts::{length_of_lines, spell};
use crate::words::Words;
use crate::wrong::Wrong;
use std::alloc::Global;

/// How a call ends that has failed or was stopped.
#[derive(Clone, Copy)]
pub struct Ending<'a> {
    pub words: Words<'a>,
    lines: u64,
    part: &'a str,
    /// What stands after the part: the end of its line, or nothing.
    part_end: &'static str,
    status: u8,
    /// The names of what is left, one for each fill or one for all.
    pub lefts: Words<'a>,
}

impl<'a> Ending<'a> {
    /// Reads `said N [part TEXT | line TEXT] status S leaves NAME..`.
    pub fn read(mut words: Words<'a>) -> Result<Ending<'a>, Wrong> {
        let line = words;
        words.expect("said", "said N is wanted")?;
        let lines = words.decimal()?;
        let (part, part_end) = Ending::read_part(&mut words)?;
        let status = words.small()?;
        words.expect("leaves", "leaves NAME is wanted")?;
        Ok(Ending {
            words: line,
            lines,
            part,
            part_end,
            status,
            lefts: words,
        })
    }

    /// Reads `part TEXT` or `line TEXT`, if one is next, and the word `status`. Gives the text, and what stands after it.
    fn read_part(words: &mut Words<'a>) -> Result<(&'a str, &'static str), Wrong> {
        let end = if words.skip("part") {
            ""
        } else if words.skip("line") {
            "\n"
        } else {
            words.expect("status", "status S is wanted")?;
            return Ok(("", ""));
        };
        let Some((text, rest)) = words.rest().split_once(" status ") else {
            return Err(words.wrong("status S is wanted"));
        };
        *words = words.with_rest(rest);
        Ok((text, end))
    }

    /// The names of what is left by each fill.
    pub fn names(self) -> Result<(&'a str, &'a str, &'a str), Wrong> {
        let mut words = self.lefts;
        let first = words.word()?;
        if words.rest().trim().is_empty() {
            return Ok((first, first, first));
        }
        let second = words.word()?;
        let third = words.word()?;
        words.end()?;
        Ok((first, second, third))
    }

    /// A call has ended with this status, and has said what has to be said.
    pub fn check(
        self,
        alloc: Global,
        outcome: &Outcome,
        calm: &[u8],
        part: Part,
        report: &mut Report<'_>,
    ) -> Result<(), Wrong> {
        let line = self.words.number();
        report.compare_status(line, part.with("status"), self.status, outcome.status)?;
        let said = self.said(alloc, calm)?;
        report.compare(line, part, said.as_slice(), outcome.past.said())
    }

    /// Whether a call has ended so.
    pub fn is_end_of(self, alloc: Global, outcome: &Outcome, calm: &[u8]) -> Result<bool, Wrong> {
        let said = self.said(alloc, calm)?;
        Ok(self.status == outcome.status && said.as_slice() == outcome.past.said())
    }

    /// What has to be said, where a calm call says this.
    fn said(self, alloc: Global, calm: &[u8]) -> Result<Vec<u8>, Wrong> {
        let Some(length) = length_of_lines(calm, self.lines) else {
            return Err(self.words.wrong("the call says fewer lines"));
        };
        let mut part = String::new(alloc);
        spell(self.words, self.part, &mut part)?;
        part.push_str(self.part_end)?;
        let mut said = Vec::new(alloc);
        said.extend_from_slice(calm.get(..length).unwrap_or(b""))?;
        said.extend_from_slice(part.as_bytes())?;
        Ok(said)
    }
}
