//! Lines that stand several times, each time with other numbers.

ghost use Rattle.std.specs.Prelude.{◌≤◌};

use crate::words::Words;
use crate::wrong::Wrong;
use std::alloc::Global;
use std::fmt::Write;

/// The lines of a file with its turns written out, and the number that each of them has in the file.
#[derive(Drop)]
pub struct Lines {
    text: String,
    numbers: Vec<u64>,
}

/// Lines that stand several times.
#[derive(Drop)]
struct Block<'a> {
    /// The line in which it begins.
    line: Words<'a>,
    turns: u32,
    lines: Vec<Words<'a>>,
}

/// Writes out the turns of a file.
pub fn written_out(alloc: Global, text: &str) -> Result<Lines, Wrong> {
    let mut lines = Lines::new(alloc);
    let mut block = None;
    let mut number = 0u64;
    for line in text.lines() {
        number = number.saturating_add(1);
        let line = Words::new(number, line);
        block = lines.take(alloc, block, line)?;
    }
    match block {
        Some(block) => Err(block.line.wrong("the turns have no end")),
        None => Ok(lines),
    }
}

impl Lines {
    fn new(alloc: Global) -> Lines {
        Lines {
            text: String::new(alloc),
            numbers: Vec::new(alloc),
        }
    }

    pub fn text(&self) -> &str {
        self.text.as_str()
    }

    pub fn numbers(&self) -> &[u64] {
        self.numbers.as_slice()
    }

    /// Takes a line, and gives the block that is open after it.
    fn take<'a>(
        &mut self,
        alloc: Global,
        block: Option<Block<'a>>,
        line: Words<'a>,
    ) -> Result<Option<Block<'a>>, Wrong> {
        let Some(block) = block else {
            return self.take_alone(alloc, line);
        };
        let mut words = line;
        match words.next() {
            Some("turns") => Err(line.wrong("turns stand in no other turns")),
            Some("end") => {
                words.end()?;
                self.put_turns(alloc, &block)?;
                Ok(None)
            }
            _ => Ok(Some(block.with(line)?)),
        }
    }

    /// Takes a line that stands in no block.
    fn take_alone<'a>(
        &mut self,
        alloc: Global,
        line: Words<'a>,
    ) -> Result<Option<Block<'a>>, Wrong> {
        let mut words = line;
        if words.skip("turns") {
            let turns = words.long()?;
            words.end()?;
            let lines = Vec::new(alloc);
            return Ok(Some(Block { line, turns, lines }));
        }
        self.text.push_str(line.rest())?;
        self.end_line(line)?;
        Ok(None)
    }

    fn put_turns(&mut self, alloc: Global, block: &Block<'_>) -> Result<(), Wrong> {
        for turn in 0..block.turns {
            for line in block.lines.iter() {
                put_turn(alloc, *line, u64::from(turn), &mut self.text)?;
                self.end_line(*line)?;
            }
        }
        Ok(())
    }

    fn end_line(&mut self, line: Words<'_>) -> Result<(), Wrong> {
        self.text.push_str("\n")?;
        self.numbers.push(line.number())?;
        Ok(())
    }
}

impl<'a> Block<'a> {
    fn with(mut self, line: Words<'a>) -> Result<Block<'a>, Wrong> {
        self.lines.push(line)?;
        Ok(self)
    }
}

/// Puts a line at the end as it stands in a turn.
fn put_turn(alloc: Global, line: Words<'_>, turn: u64, into: &mut String) -> Result<(), Wrong> {
    let mut pieces = line.rest().split('{');
    if let Some(first) = pieces.next() {
        into.push_str(first)?;
    }
    for piece in pieces {
        let (rule, rest) = piece.split_once('}').unwrap_or(("", piece));
        put_number(alloc, line, rule, turn, into)?;
        into.push_str(rest)?;
    }
    Ok(())
}

/// Puts the number of a turn at the end, by a rule `FROM+STEP` in decimal or `xFROM+STEP` in hexadecimal digits. It has at least as
/// many digits as the rule's first number.
fn put_number(
    alloc: Global,
    line: Words<'_>,
    rule: &str,
    turn: u64,
    into: &mut String,
) -> Result<(), Wrong> {
    let Some((from, step)) = rule.split_once('+') else {
        return Err(line.wrong("FROM+STEP is wanted between { and }"));
    };
    let mut digits = String::new(alloc);
    let (from, radix) = match from.strip_prefix('x') {
        Some(from) => (from, 16),
        None => (from, 10),
    };
    let number = number_at(line, from, step, radix, turn)?;
    if radix == 16 {
        write!(digits, "{number:X}")?;
    } else {
        write!(digits, "{number}")?;
    }
    for _ in digits.len()..from.len() {
        into.push_str("0")?;
    }
    into.push_str(digits.as_str())?;
    Ok(())
}

/// The number of a turn.
fn number_at(line: Words<'_>, from: &str, step: &str, radix: u32, turn: u64) -> Result<u64, Wrong>
    requires low { 2 ≤ radix }
    requires high { radix ≤ 36 }
{
    let from = u64::from_str_radix(from, radix);
    let step = u64::from_str_radix(step, radix);
    match (from, step) {
        (Ok(from), Ok(step)) => Ok(from.wrapping_add(step.wrapping_mul(turn))),
        _ => Err(line.wrong("FROM+STEP is wanted between { and }")),
    }
}
