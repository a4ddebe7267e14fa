//! What the cases of a file have in common: earlier set-ups, and what a recovery leaves.

use crate::call::Call;
use crate::setup::Setup;
use crate::words::Words;
use crate::wrong::Wrong;
use std::alloc::Global;

/// The set-up of an earlier case, and its first call.
#[derive(Drop)]
struct Entry<'a> {
    name: &'a str,
    setup: Setup<'a>,
    call: Option<Call<'a>>,
}

/// What a recovery says and leaves, as the lines of the file want it.
#[derive(Drop)]
pub struct Left<'a> {
    /// The line in which it begins.
    number: u64,
    name: &'a str,
    lines: Vec<Words<'a>>,
}

impl<'a> Left<'a> {
    pub fn number(&self) -> u64 {
        self.number
    }

    pub fn lines(&self) -> &[Words<'a>] {
        self.lines.as_slice()
    }
}

#[derive(Drop)]
pub struct Book<'a> {
    alloc: Global,
    entries: Vec<Entry<'a>>,
    lefts: Vec<Left<'a>>,
}

impl<'a> Book<'a> {
    pub fn new(alloc: Global) -> Book<'a> {
        Book {
            alloc,
            entries: Vec::new(alloc),
            lefts: Vec::new(alloc),
        }
    }

    /// Keeps a set-up and its call under the name of their case, which stands in its first line.
    pub fn keep(
        &mut self,
        line: Words<'a>,
        setup: &Setup<'a>,
        call: Option<&Call<'a>>,
    ) -> Result<(), Wrong> {
        let name = line.rest().trim();
        if self.entries.iter().any(|entry| entry.name == name) {
            return Err(line.wrong("this name is taken"));
        }
        let setup = setup.copy()?;
        let call = match call {
            Some(call) => Some(call.copy()?),
            None => None,
        };
        self.entries.push(Entry { name, setup, call })?;
        Ok(())
    }

    fn entry(&self, words: Words<'_>) -> Result<&Entry<'a>, Wrong> {
        let name = words.rest().trim();
        match self.entries.iter().find(|entry| entry.name == name) {
            Some(entry) => Ok(entry),
            None => Err(words.wrong("no case of this name stands before it")),
        }
    }

    /// The set-up of the case that a line names.
    pub fn setup(&self, words: Words<'_>) -> Result<Setup<'a>, Wrong> {
        self.entry(words)?.setup.copy()
    }

    /// Its call.
    pub fn call(&self, words: Words<'_>) -> Result<Call<'a>, Wrong> {
        match &self.entry(words)?.call {
            Some(call) => call.copy(),
            None => Err(words.wrong("this case has no call")),
        }
    }

    /// Begins what a recovery leaves under a name.
    pub fn begin_left(&mut self, mut words: Words<'a>) -> Result<(), Wrong> {
        let name = words.word()?;
        words.end()?;
        if self.lefts.iter().any(|left| left.name == name) {
            return Err(words.wrong("this name is taken"));
        }
        self.push_left(words.number(), name)
    }

    fn push_left(&mut self, number: u64, name: &'a str) -> Result<(), Wrong> {
        let lines = Vec::new(self.alloc);
        self.lefts.push(Left {
            number,
            name,
            lines,
        })?;
        Ok(())
    }

    /// Adds a whole line to it.
    pub fn push_line(&mut self, line: Words<'a>) -> Result<(), Wrong> {
        match self.lefts.last_mut() {
            Some(left) => left.lines.push(line)?,
            None => return Err(line.wrong("it belongs to no case")),
        }
        Ok(())
    }

    /// What is left under a name, which stands in a line.
    pub fn left(&self, words: Words<'_>, name: &str) -> Result<&Left<'a>, Wrong> {
        match self.lefts.iter().find(|left| left.name == name) {
            Some(left) => Ok(left),
            None => Err(words.wrong("nothing is left under this name")),
        }
    }
}
