//! What is said of cases.

use crate::texts::Shown;
use crate::wrong::Wrong;
use std::alloc::Global;
use std::fmt;
use std::fmt::Write;

/// The lines said so far, and how many cases, tries and differences there were.
#[derive(Drop)]
pub struct Report<'a> {
    text: String,
    file: &'a str,
    name: &'a str,
    cases: u64,
    tries: u64,
    bad: u64,
    /// Tries and differences of this case.
    tries_here: u64,
    bad_here: u64,
}

impl<'a> Report<'a> {
    pub fn new(alloc: Global) -> Report<'a> {
        Report {
            text: String::new(alloc),
            file: "",
            name: "",
            cases: 0,
            tries: 0,
            bad: 0,
            tries_here: 0,
            bad_here: 0,
        }
    }

    pub fn text(&self) -> &str {
        self.text.as_str()
    }

    pub fn is_good(&self) -> bool {
        self.bad == 0
    }

    /// Whether this case has a difference.
    pub fn differs(&self) -> bool {
        self.bad_here > 0
    }

    pub fn begin_file(&mut self, file: &'a str) {
        self.file = file;
    }

    pub fn begin_case(&mut self, name: &'a str) {
        self.name = name;
        self.tries_here = 0;
        self.bad_here = 0;
    }

    pub fn end_case(&mut self) -> Result<(), Wrong> {
        self.cases = self.cases.saturating_add(1);
        self.tries = self.tries.saturating_add(self.tries_here);
        self.bad = self.bad.saturating_add(self.bad_here);
        if self.bad_here > 0 {
            return Ok(());
        }
        let name = self.name;
        let tries = self.tries_here;
        if tries == 0 {
            writeln!(self.text, "ok {name}")?;
        } else {
            writeln!(self.text, "ok {name}: {tries} tries")?;
        }
        Ok(())
    }

    pub fn count_try(&mut self) {
        self.tries_here = self.tries_here.saturating_add(1);
    }

    /// Begins the line of a difference, in which the line of a number is not met.
    fn begin_difference(&mut self, number: u64) -> Result<(), Wrong> {
        self.bad_here = self.bad_here.saturating_add(1);
        let (name, file) = (self.name, self.file);
        write!(self.text, "BAD {name} ({file} {number}): ")?;
        Ok(())
    }

    /// Says a difference.
    pub fn differ(&mut self, number: u64, what: &str) -> Result<(), Wrong> {
        self.begin_difference(number)?;
        writeln!(self.text, "{what}")?;
        Ok(())
    }

    /// Two statuses have to be the same.
    pub fn compare_status(
        &mut self,
        number: u64,
        of: Part,
        wanted: u8,
        got: u8,
    ) -> Result<(), Wrong> {
        if wanted == got {
            return Ok(());
        }
        self.begin_difference(number)?;
        writeln!(self.text, "{of}: wanted {wanted} got {got}")?;
        Ok(())
    }

    /// Two texts have to be the same.
    pub fn compare(
        &mut self,
        number: u64,
        of: Part,
        wanted: &[u8],
        got: &[u8],
    ) -> Result<(), Wrong> {
        if wanted == got {
            return Ok(());
        }
        self.begin_difference(number)?;
        let wanted = Shown(wanted);
        write!(self.text, "{of}: wanted \"{wanted}\"")?;
        let got = Shown(got);
        writeln!(self.text, " got \"{got}\"")?;
        Ok(())
    }

    /// Says the numbers of all cases.
    pub fn end(&mut self) -> Result<(), Wrong> {
        let (cases, tries, bad) = (self.cases, self.tries, self.bad);
        writeln!(self.text, "{cases} cases, {tries} tries, {bad} bad")?;
        Ok(())
    }
}

/// What a difference is of: what is looked at, and in which try.
#[derive(Clone, Copy)]
pub struct Part {
    what: &'static str,
    /// The number of the try in its table and what fills a crash.
    at: Option<(u64, &'static str)>,
}

impl Part {
    pub fn of(what: &'static str) -> Part {
        Part { what, at: None }
    }

    /// In the try of a number, with a fill.
    pub fn at(what: &'static str, number: u64, fill: &'static str) -> Part {
        Part {
            what,
            at: Some((number, fill)),
        }
    }

    /// Another thing in the same try.
    pub fn with(self, what: &'static str) -> Part {
        Part { what, at: self.at }
    }
}

impl fmt::Display for Part {
    fn fmt<W: fmt::Write>(&self, f: &mut fmt::Formatter<W>) -> fmt::Result {
        let what = self.what;
        match self.at {
            Some((number, fill)) => write!(f, "at {number}{fill}: {what}"),
            None => write!(f, "{what}"),
        }
    }
}
